// What the calls of a disk in memory leave pending.

use lam_outside::DiskCall;
use std::alloc::{AllocError, Global};

/// What is synced of a file that had no bytes, and where and what was written to it since.
#[derive(Drop)]
pub struct Pending {
    pub synced: Vec<u8>,
    pub at: usize,
    pub written: Vec<u8>,
}

/// What these calls leave pending, of which a sync follows each write but the last. A write that failed counts too.
pub fn left_by(alloc: Global, calls: &[DiskCall]) -> Result<Pending, AllocError> {
    match calls.split_last() {
        Some((DiskCall::Write { at, bytes, .. }, before)) => Ok(Pending {
            synced: file_of(alloc, before)?,
            at: *at,
            written: Vec::from_slice(alloc, bytes)?,
        }),
        _ => Ok(Pending {
            synced: file_of(alloc, calls)?,
            at: 0,
            written: Vec::new(alloc),
        }),
    }
}

/// What these calls make of a file that had no bytes.
fn file_of(alloc: Global, calls: &[DiskCall]) -> Result<Vec<u8>, AllocError> {
    let mut file = Vec::new(alloc);
    for call in calls {
        if let DiskCall::Write { at, bytes, .. } = call {
            file = laid(alloc, &file, *at, bytes)?;
        }
    }
    Ok(file)
}

/// The file with bytes laid over it, from a place on that is no further than its end.
pub fn laid(alloc: Global, file: &[u8], at: usize, bytes: &[u8]) -> Result<Vec<u8>, AllocError> {
    let end = at.saturating_add(bytes.len()).min(file.len());
    let mut new = Vec::from_slice(alloc, file)?;
    new.truncate(at);
    new.extend_from_slice(bytes)?;
    new.extend_from_slice(&file[end..])?;
    Ok(new)
}

// Long random sessions on a search tree: the core sends what a second server sends, byte for byte, whatever the slice.

mod model;
mod requests;
mod trees;

use crate::soak::model::Model;
use crate::soak::requests::Requests;
use code_gen::Code;
use core_stage::programs::TREE;
use core_stage::stage::{code_of, served, server};
use std::alloc::{AllocError, Global};
use std::test::Fail;
use std::thread::Threads;

/// What is fed to a server, what the model sends, and how many versions there are then.
#[derive(Drop)]
struct Course {
    fed: Vec<u8>,
    sent: Vec<u8>,
    versions: usize,
}

/// So many requests of a seed, as the model answers them.
fn played(
    alloc: Global,
    code: &Code,
    seed: u64,
    count: u32,
    slice: u64,
) -> Result<Course, AllocError> {
    let program = code.program();
    let mut model = Model::new(alloc, program, slice)?;
    let mut requests = Requests::new(alloc, seed, *program.text_digest());
    for _ in 0..count {
        requests.next(&mut model)?;
    }
    taken(alloc, &requests, &model)
}

fn taken(alloc: Global, requests: &Requests, model: &Model<'_>) -> Result<Course, AllocError> {
    Ok(Course {
        fed: Vec::from_slice(alloc, requests.fed())?,
        sent: Vec::from_slice(alloc, model.sent())?,
        versions: model.count(),
    })
}

/// How many versions there are behind a course, where the core sends what the model sends; else 0.
fn versions_behind<R: Threads + Sync>(
    rt: &R,
    alloc: Global,
    course: &Course,
    slice: u64,
) -> Result<usize, AllocError> {
    let mut core = server(alloc, TREE, slice.max(1))?;
    let told = served(rt, alloc, &mut core, &course.fed, 4096)?;
    let versions = core.versions().len();
    let same = told.bytes == course.sent
        && !told.closing
        && versions == course.versions
        && core.commits().len().saturating_add(1) == versions;
    Ok(if same { versions } else { 0 })
}

/// How many requests there are.
const REQUESTS: u32 = 70_000;

/// How many versions there are behind them: as many as there may be.
const VERSIONS: usize = 4_096;

/// Whether the core sends what the model sends, for the requests of a seed, and there are as many versions as there may be.
fn is_the_model<R: Threads + Sync>(
    rt: &R,
    alloc: Global,
    seed: u64,
    slice: u64,
) -> Result<bool, AllocError> {
    let code = code_of(alloc, TREE.text)?;
    let course = played(alloc, &code, seed, REQUESTS, slice)?;
    Ok(versions_behind(rt, alloc, &course, slice)? == VERSIONS)
}

#[test]
fn turns_of_one_call_are_as_in_the_model(rt: HostRuntime) -> Result<(), Fail> {
    assert!(rt; is_the_model(&rt, rt.alloc(), 1, 1)?);
    Ok(())
}

#[test]
fn turns_of_seven_calls_are_as_in_the_model(rt: HostRuntime) -> Result<(), Fail> {
    assert!(rt; is_the_model(&rt, rt.alloc(), 2, 7)?);
    Ok(())
}

#[test]
fn turns_of_a_million_calls_are_as_in_the_model(rt: HostRuntime) -> Result<(), Fail> {
    assert!(rt; is_the_model(&rt, rt.alloc(), 3, 1_000_000)?);
    Ok(())
}

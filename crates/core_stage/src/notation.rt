// A notation of messages as bytes, in which the rows of the tests are written.

use core_terms::{Digest, Hash32};
use digest_layer::Sha;
use std::alloc::{AllocError, Global};

/// The message GO, of one round.
const ROUND: &[u8] = b"\0\0\0\x07\x03\0\0\0\0\0\x01";

/// Reads the notation.
#[derive(Drop)]
struct Reader {
    /// What stands before the innermost bracket.
    done: Vec<u8>,
    /// What has been read since.
    part: Vec<u8>,
    /// The first digit of a byte.
    high: Option<u8>,
}

impl Reader {
    /// Reads one character.
    fn take(&mut self, alloc: Global, character: u8, program: &Digest) -> Result<(), AllocError> {
        match character {
            b'0'..=b'9' => self.digit(character - b'0'),
            b'a'..=b'f' => self.digit(character - b'a' + 10),
            b'P' => self.part.extend_from_slice(&program.0),
            b'U' => self.digest_of(b""),
            b'F' => self.digest_of(b"\0"),
            b'T' => self.digest_of(b"\x01"),
            b'H' => self.digest_of(&Sha::of(b"").0),
            b'G' => self.part.extend_from_slice(ROUND),
            b'S' => self.greetings(program),
            b'W' => self.welcomes(),
            b'[' => self.flush(alloc),
            b']' => self.close(alloc),
            _ => Ok(()),
        }
    }

    fn digit(&mut self, digit: u8) -> Result<(), AllocError> {
        match self.high {
            None => {
                self.high = Some(digit);
                Ok(())
            }
            Some(high) => {
                self.high = None;
                Ok(self.part.push(high.wrapping_mul(16) | digit)?)
            }
        }
    }

    fn digest_of(&mut self, bytes: &[u8]) -> Result<(), AllocError> {
        self.part.extend_from_slice(&Sha::of(bytes).0)
    }

    fn greetings(&mut self, program: &Digest) -> Result<(), AllocError> {
        for session in 1..=64 {
            self.part
                .extend_from_slice(&[0, 0, 0, 0x45, 1, 0, session])?;
            self.part.extend_from_slice(&program.0)?;
            self.part.extend_from_slice(&[0, 0])?;
            self.digest_of(b"")?;
        }
        Ok(())
    }

    fn welcomes(&mut self) -> Result<(), AllocError> {
        for session in 1..=64 {
            self.part
                .extend_from_slice(&[0, 0, 0, 3, 0x81, 0, session])?;
        }
        Ok(())
    }

    /// What was read stands before what comes.
    fn flush(&mut self, alloc: Global) -> Result<(), AllocError> {
        self.done.extend_from_slice(&self.part)?;
        self.part = Vec::new(alloc);
        Ok(())
    }

    /// What was read since the bracket is a message, and gets its length.
    fn close(&mut self, alloc: Global) -> Result<(), AllocError> {
        let len = u32::try_from(self.part.len()).unwrap_or(0);
        self.done.extend_from_slice(&len.to_be_bytes())?;
        self.flush(alloc)
    }
}

/// The bytes that a text stands for. Blanks stand for nothing.
///
/// | in the text | bytes |
/// |---|---|
/// | two digits | a byte |
/// | brackets | a message, with its length before it |
/// | `P` | the digest of the program's text |
/// | `U`, `F`, `T` | the digests of no bytes, of the byte 00, of the byte 01 |
/// | `H` | the digest of `U` |
/// | `G` | the message GO, of one round |
/// | `S`, `W` | the messages HELLO of the sessions 1 to 64 at the state `U`, with no ring; WELCOME to each of them |
pub fn bytes_of(alloc: Global, text: &[u8], program: &Digest) -> Result<Vec<u8>, AllocError> {
    let mut reader = Reader {
        done: Vec::new(alloc),
        part: Vec::new(alloc),
        high: None,
    };
    for character in text {
        reader.take(alloc, *character, program)?;
    }
    reader.flush(alloc)?;
    let Reader { done, .. } = reader;
    Ok(done)
}

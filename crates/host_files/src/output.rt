// Standard output. It tells nothing of what was written: this is the trusted edge.
ghost use Rattle.std.specs.Prelude.{◌≡◌, None};

use lam_outside::{Failed, Sink};
use std::io::{self, Write};

/// Standard output, unbuffered.
#[derive(Drop)]
pub struct HostSink<'a> {
    rt: &'a HostRuntime,
    faults: u64,
}

impl<'a> HostSink<'a> {
    /// No call has failed.
    pub fn new(rt: &'a HostRuntime) -> Self
        ensures { result.faults ≡ 0 }
    {
        HostSink { rt, faults: 0 }
    }
}

impl Sink for HostSink<'_> {
    ghost written = { λ _. None };

    ghost faults = { λ sink. sink.faults };

    fn write(&mut self, piece: &[u8]) -> Result<usize, Failed> {
        let taken = io::writer(self.rt).write(piece);
        match taken {
            Ok(count) if count > 0 || piece.is_empty() => Ok(count),
            _ => {
                self.faults = self.faults.saturating_add(1);
                Err(Failed)
            }
        }
    }
}

#[cfg(test)]
mod tests {
    use super::HostSink;
    use lam_outside::Sink;
    use std::test::Fail;

    #[test]
    fn standard_output_takes_what_is_written(rt: HostRuntime) -> Result<(), Fail> {
        let mut out = HostSink::new(&rt);
        assert!(rt; out.write(b"") == Ok(0));
        assert!(rt; out.write(b"done ()\n").is_ok_and(|count| count > 0));
        Ok(())
    }
}

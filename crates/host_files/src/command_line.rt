// The words of the command line.
use command_parts::Halt;
use std::alloc::Global;
use std::env;
use std::io::ErrorKind;
use std::rt::Env;

/// The words that the program was started with, its name first. Where one of them isn't UTF-8 they call no command: `Halt::Usage`. Where
/// memory is wanting, `Halt::NoMemory`.
pub fn words<R: Env + Alloc<A = Global>>(rt: &R) -> Result<Vec<String>, Halt> {
    match env::args(rt) {
        Ok(args) => Ok(args.collect(rt.alloc())?),
        Err(error) if error.kind() == ErrorKind::OutOfMemory => Err(Halt::NoMemory),
        Err(_) => Err(Halt::Usage),
    }
}

#[cfg(test)]
mod tests {
    use super::words;
    use command_parts::Halt;
    use std::env::FillError;
    use std::rt::Env;
    use std::test::Fail;

    /// A start of the program with these words, and nothing else.
    #[derive(Drop)]
    struct Started<'a>(&'a [&'a [u8]]);

    impl Env for Started<'_> {
        fn arg(&self, i: usize, buf: &mut [u8]) -> Result<usize, FillError> {
            let Some(word) = self.0.get(i) else {
                return Err(FillError::NotPresent);
            };
            if word.len() > buf.len() {
                return Err(FillError::TooLong);
            }
            buf[..word.len()].copy_from_slice(word);
            Ok(word.len())
        }

        fn var(&self, _name: &str, _buf: &mut [u8]) -> Result<usize, FillError> {
            Err(FillError::NotPresent)
        }

        fn var_at(&self, _i: usize, _buf: &mut [u8]) -> Result<usize, FillError> {
            Err(FillError::NotPresent)
        }
    }

    #[test]
    fn a_word_that_is_not_utf_8_calls_no_command(rt: HostRuntime) -> Result<(), Fail> {
        let text: &[&[u8]] = &[b"lamauth", b"check", b"a.lam"];
        let read = words(&(Started(text), rt.alloc()));
        assert!(rt; read.is_ok_and(|words| words.len() == 3));
        let broken: &[&[u8]] = &[b"lamauth", b"check", b"a\xff.lam"];
        let read = words(&(Started(broken), rt.alloc()));
        assert!(rt; read.is_err_and(|halt| matches!(halt, Halt::Usage)));
        Ok(())
    }
}

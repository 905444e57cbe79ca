//! A reader that an interruption doesn't stop.

ghost use Rattle.std.specs.Prelude.{◌≡◌};

use std::io::{self, ErrorKind, Read};

/// A reader of which a read that was interrupted is made again.
#[derive(Drop)]
pub struct Patient<R> {
    inner: R,
}

impl<R> Patient<R> {
    /// The reader, with nothing read.
    pub fn new(inner: R) -> Patient<R>
        ensures { result.inner ≡ inner }
    {
        Patient { inner }
    }
}

impl<R: Read> Read for Patient<R> {
    ghost remaining = { λ reader. R.remaining reader.inner };

    fn read(&mut self, buf: &mut [u8]) -> io::Result<usize> {
        for _ in 0..u64::MAX {
            match self.inner.read(buf) {
                Ok(count) => return Ok(count),
                Err(e) => {
                    if e.kind() != ErrorKind::Interrupted {
                        return Err(e);
                    }
                }
            }
        }
        Err(io::Error::from(ErrorKind::TimedOut))
    }
}

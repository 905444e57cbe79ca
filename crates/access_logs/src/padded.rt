//! A reader with empty lines behind what it gives.

ghost use Rattle.std.specs.Prelude.{◌≡◌, replicate};
ghost use Rattle.std.specs.Io.KnownBytes.{append_known};

use std::io::{self, Read};

/// A reader behind whose bytes come so many line feeds.
#[derive(Drop)]
pub struct Padded<R> {
    inner: R,
    left: usize,
}

impl<R> Padded<R> {
    /// The reader, and so many line feeds behind its bytes.
    pub fn new(inner: R, left: usize) -> Padded<R>
        ensures inner { result.inner ≡ inner }
        ensures left { result.left ≡ left }
    {
        Padded { inner, left }
    }
}

impl<R: Read> Read for Padded<R> {
    ghost remaining = { λ reader. append_known (R.remaining reader.inner) (replicate reader.left 10) };

    fn read(&mut self, buf: &mut [u8]) -> io::Result<usize> {
        let count = self.inner.read(buf)?;
        if count > 0 || buf.is_empty() {
            return Ok(count);
        }
        let padding = self.left.min(buf.len());
        buf[..padding].fill(b'\n');
        self.left -= padding;
        Ok(padding)
    }
}

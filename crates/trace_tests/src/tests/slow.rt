//! Readers that are interrupted: before each byte, or always.
use std::io::{self, ErrorKind, Read};

/// Gives one byte for each second call, is interrupted before it, and may break.
#[derive(Drop)]
pub(super) struct Slow<'a> {
    bytes: &'a [u8],
    is_ready: bool,
    until_broken: u64,
}

impl<'a> Slow<'a> {
    pub(super) fn new(bytes: &'a [u8]) -> Slow<'a> {
        Slow::broken(bytes, u64::MAX)
    }

    /// Breaks after so many calls.
    pub(super) fn broken(bytes: &'a [u8], until_broken: u64) -> Slow<'a> {
        Slow {
            bytes,
            is_ready: false,
            until_broken,
        }
    }
}

impl<'a> Read for Slow<'a> {
    ghost use Rattle.std.specs.Prelude.{None};

    ghost remaining = { λ s. None };

    fn read(&mut self, buf: &mut [u8]) -> io::Result<usize> {
        if self.until_broken == 0 {
            return Err(io::Error::from(ErrorKind::BrokenPipe));
        }
        self.until_broken -= 1;
        if !self.is_ready {
            self.is_ready = true;
            return Err(io::Error::from(ErrorKind::Interrupted));
        }
        self.is_ready = false;
        if self.bytes.is_empty() || buf.is_empty() {
            return Ok(0);
        }
        buf[0] = self.bytes[0];
        self.bytes = &self.bytes[1..];
        Ok(1)
    }
}

/// Is interrupted at each call.
#[derive(Drop)]
pub(super) struct Interrupted;

impl Read for Interrupted {
    ghost use Rattle.std.specs.Prelude.{None};

    ghost remaining = { λ s. None };

    fn read(&mut self, _buf: &mut [u8]) -> io::Result<usize> {
        Err(io::Error::from(ErrorKind::Interrupted))
    }
}

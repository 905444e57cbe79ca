//! A writer that looks whether it is given a text, and takes no memory for it; and what a test tells of refused memory.
use bump_trace::{Counted, SimFault};
use std::io::{self, ErrorKind, Write};
use std::process::Abort;
use std::test::*;

/// What a writer does once its room is used up.
#[derive(Clone, Copy)]
pub(super) enum Ending {
    /// It answers Err.
    Fails,

    /// It answers Err once, and then takes what is left.
    FailsOnce,

    /// It takes nothing.
    TakesNothing,
}

/// Takes a text from its front on, and looks at each byte.
#[derive(Drop)]
pub(super) struct Expecting<'a> {
    rest: &'a [u8],
    room: usize,
    most: usize,
    ending: Ending,
    is_front: bool,
}

impl<'a> Expecting<'a> {
    /// Takes all of a text.
    pub(super) fn new(text: &'a [u8]) -> Expecting<'a> {
        Expecting {
            rest: text,
            room: usize::MAX,
            most: usize::MAX,
            ending: Ending::Fails,
            is_front: true,
        }
    }

    /// Takes a byte for each call, and so many in all.
    pub(super) fn narrow(text: &'a [u8], room: usize, ending: Ending) -> Expecting<'a> {
        Expecting {
            rest: text,
            room,
            most: 1,
            ending,
            is_front: true,
        }
    }

    /// Whether what was taken is a front of the text.
    pub(super) fn is_front(&self) -> bool {
        self.is_front
    }
}

impl<'a> Write for Expecting<'a> {
    ghost use Rattle.std.specs.Prelude.{None};

    ghost contents = { λ s. None };

    fn write(&mut self, buf: &[u8]) -> io::Result<usize> {
        if self.room == 0 {
            return match self.ending {
                Ending::Fails => Err(io::Error::from(ErrorKind::BrokenPipe)),
                Ending::FailsOnce => {
                    self.room = usize::MAX;
                    Err(io::Error::from(ErrorKind::BrokenPipe))
                }
                Ending::TakesNothing => Ok(0),
            };
        }
        let n = buf.len().min(self.room).min(self.most);
        if n > self.rest.len() {
            self.is_front = false;
            return Ok(n);
        }
        if &buf[..n] != &self.rest[..n] {
            self.is_front = false;
        }
        self.rest = &self.rest[n..];
        self.room -= n;
        Ok(n)
    }

    fn flush(&mut self) -> io::Result<()> {
        Ok(())
    }
}

/// The run ended well, and its whole text was taken.
pub(super) fn expect_whole(rt: &impl Abort, ended: Result<(), SimFault>, written: &Expecting<'_>) {
    assert!(rt; ended == Ok(()), "the run ended well");
    assert!(rt;
        written.is_front && written.rest.is_empty(),
        "the whole text"
    );
}

/// Whether a run ended as Write, where its writer takes so many bytes of a text of this length, one for each call: the
/// next call was its last one, and the front of the text was written.
pub(super) fn is_cut_at(
    ended: Result<(), SimFault>,
    writer: Counted<Expecting<'_>>,
    taken: usize,
    length: usize,
) -> bool {
    let is_last = writer.calls().saturating_sub(1) == taken as u64 && writer.failed() == 1;
    let written = writer.into_inner();
    ended == Err(SimFault::Write)
        && is_last
        && written.is_front
        && written.rest.len() == length.saturating_sub(taken)
}

/// Says which call was refused. `checks/refused_allocations` looks for these words, and counts them by call.
pub(super) fn tell_refused(rt: &impl Eprint, call: &str) -> Result<(), Fail> {
    eprintln!(rt; "an allocation was refused: {call}")?;
    Ok(())
}

/// Makes one allocation more, and says so where that one was refused.
pub(super) fn tell_left(rt: &HostRuntime) -> Result<(), Fail> {
    let mut behind = Vec::new(rt.alloc());
    if behind.push(0u8).is_err() {
        eprintln!(rt; "no allocation was left")?;
    }
    Ok(())
}

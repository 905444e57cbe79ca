//! Readers and writers that take little at a time, and one that fails at each of its calls in turn.
use super::expecting::{Ending, Expecting, expect_whole, is_cut_at};
use super::slow::{Interrupted, Slow};
use super::worked::PROMOTION;
use bump_trace::{Counted, SimFault, run_model};
use std::alloc::{AllocError, Global};
use std::hash::RandomState;
use std::process::Abort;
use std::sync::Wait;
use std::test::*;
use store_trace::run_serial;

// A reader or a writer was asked so often, and failed so often.
fn expect_calls(rt: &impl Abort, told: (u64, u64), wanted: (u64, u64)) {
    assert!(rt; told == wanted, "calls, and those that failed");
}

// One byte for each read, with an interruption before it, and one byte for each write.
#[test]
fn byte_by_byte(rt: HostRuntime) -> Result<(), Fail> {
    let keys = RandomState::new(&rt)?;
    let (trace, text) = PROMOTION;
    let mut reader = Counted::new(Slow::new(trace.as_bytes()));
    let mut writer = Counted::new(Expecting::narrow(text.as_bytes(), usize::MAX, Ending::Fails));
    assert!(rt; run_model(rt.alloc(), keys, &mut reader, &mut writer) == Ok(()));
    let calls = 2 * (trace.len() as u64 + 1);
    expect_calls(&rt, (reader.calls(), reader.failed()), (calls, 0));
    let told = (writer.calls(), writer.failed());
    expect_calls(&rt, told, (text.len() as u64, 0));
    expect_whole(&rt, Ok(()), &writer.into_inner());
    Ok(())
}

// Whether a run whose reader breaks after so many calls ends as Read, with that call its last one, and without a
// write.
fn ends_at_read(alloc: Global, keys: RandomState, trace: &[u8], calls: u64) -> bool {
    let mut reader = Counted::new(Slow::broken(trace, calls));
    let mut writer = Counted::new(Expecting::new(b""));
    let ended = run_model(alloc, keys, &mut reader, &mut writer);
    ended == Err(SimFault::Read)
        && reader.calls().saturating_sub(1) == calls
        && reader.failed() == 1
        && writer.calls() == 0
}

// Whichever read fails: the run says so, and nothing was written.
#[test]
fn each_read_fails(rt: HostRuntime) -> Result<(), Fail> {
    let keys = RandomState::new(&rt)?;
    let (trace, _) = PROMOTION;
    for calls in 0..2 * (trace.len() as u64 + 1) {
        assert!(rt;
            ends_at_read(rt.alloc(), keys, trace.as_bytes(), calls),
            "{calls}"
        );
    }
    Ok(())
}

// Whether a run whose writer takes so many bytes, one for each call, ends as Write, with the next call its last one,
// and the front of the text written.
fn ends_at_write(alloc: Global, keys: RandomState, taken: usize, ending: Ending) -> bool {
    let (trace, text) = PROMOTION;
    let mut reader = Counted::new(trace.as_bytes());
    let mut writer = Counted::new(Expecting::narrow(text.as_bytes(), taken, ending));
    let ended = run_model(alloc, keys, &mut reader, &mut writer);
    is_cut_at(ended, writer, taken, text.len())
}

// Whichever write ends in this way: the run says so, and makes no further one.
fn expect_each_write(rt: &impl Abort, alloc: Global, keys: RandomState, ending: Ending) {
    let (_, text) = PROMOTION;
    for taken in 0..text.len() {
        assert!(rt; ends_at_write(alloc, keys, taken, ending), "{taken}");
    }
}

// A write answers Err.
#[test]
fn each_write_fails(rt: HostRuntime) -> Result<(), Fail> {
    let keys = RandomState::new(&rt)?;
    expect_each_write(&rt, rt.alloc(), keys, Ending::Fails);
    Ok(())
}

// The same where it takes nothing.
#[test]
fn each_write_takes_nothing(rt: HostRuntime) -> Result<(), Fail> {
    let keys = RandomState::new(&rt)?;
    expect_each_write(&rt, rt.alloc(), keys, Ending::TakesNothing);
    Ok(())
}

// The same of a run on a store whose writer fails once.
fn serial_ends_at_write(rt: &impl Wait, alloc: Global, keys: RandomState, taken: usize) -> bool {
    let (trace, text) = PROMOTION;
    let mut reader = Counted::new(trace.as_bytes());
    let mut writer = Counted::new(Expecting::narrow(text.as_bytes(), taken, Ending::FailsOnce));
    let ended = run_serial(rt, alloc, keys, &mut reader, &mut writer);
    is_cut_at(ended, writer, taken, text.len())
}

// A write that failed isn't made again.
#[test]
fn each_write_fails_once(rt: HostRuntime) -> Result<(), Fail> {
    let keys = RandomState::new(&rt)?;
    let (_, text) = PROMOTION;
    for taken in 0..text.len() {
        assert!(rt;
            serial_ends_at_write(&rt, rt.alloc(), keys, taken),
            "{taken}"
        );
    }
    Ok(())
}

/// A trace with so many pulls that find nothing, and its text, of 18 bytes a line.
pub(super) fn empty_pulls(alloc: Global, lines: u32) -> Result<(Vec<u8>, Vec<u8>), AllocError> {
    let mut trace = Vec::new(alloc);
    let mut text = Vec::new(alloc);
    trace.extend_from_slice(b"store 1 4 4 1\nclass 1 5 5\n")?;
    for _ in 0..lines {
        trace.extend_from_slice(b"pull 0 warm\n")?;
        text.extend_from_slice(b"pull 0 warm empty\n")?;
    }
    Ok((trace, text))
}

// The text is over 64 KiB, so that its first 65,520 bytes are written between two lines. Where one of these writes
// fails the run says so, and that write isn't made again, nor any other.
#[test]
fn a_write_fails_once_between_lines(rt: HostRuntime) -> Result<(), Fail> {
    let keys = RandomState::new(&rt)?;
    let (trace, text) = empty_pulls(rt.alloc(), 4_000)?;
    for taken in [0, 65_519] {
        let mut reader = Counted::new(trace.as_slice());
        let mut writer = Counted::new(Expecting::narrow(&text, taken, Ending::FailsOnce));
        let ended = run_serial(&rt, rt.alloc(), keys, &mut reader, &mut writer);
        assert!(rt; is_cut_at(ended, writer, taken, text.len()), "{taken}");
    }
    Ok(())
}

// A reader that is always interrupted is read 20,000,000 times.
#[test]
fn a_reader_that_is_always_interrupted(rt: HostRuntime) -> Result<(), Fail> {
    let keys = RandomState::new(&rt)?;
    let mut reader = Counted::new(Interrupted);
    let mut writer = Counted::new(Expecting::new(b""));
    assert!(rt; run_model(rt.alloc(), keys, &mut reader, &mut writer) == Err(SimFault::Read));
    expect_calls(&rt, (reader.calls(), reader.failed()), (20_000_000, 0));
    expect_calls(&rt, (writer.calls(), writer.failed()), (0, 0));
    Ok(())
}

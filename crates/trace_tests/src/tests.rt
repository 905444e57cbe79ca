//! Worked traces through the whole run, by the model and on a store, and readers and writers that take little at a
//! time.
use bump_trace::{Counted, SimFault, run_model};
use std::alloc::{AllocError, Global};
use std::hash::RandomState;
use std::process::Abort;
use std::random::RandomSource;
use std::sync::Wait;
use std::test::*;
use store_trace::run_serial;

mod behind_par;
mod ends;
mod expecting;
mod faults;
mod gates;
mod numbers;
mod settled;
mod slow;
mod streams;
mod threads;
mod worked;

use ends::{ENDS, EVERY_LINE, HOLDS, LAST_COUNTS, LATE_FAULTS, MIXED_LINES, PULLS};
use expecting::{Expecting, expect_whole, tell_left, tell_refused};
use faults::{
    EVERY_LINE_FAULT, EVERY_STORE_FAULT, LINE_COUNTS, LINE_FIELDS, LINE_NAMES, LINE_ORDER,
    PAIRS_OF_CONFIGS, PAIRS_OF_FIELDS, PAIRS_OF_STORES, PAIRS_OF_WORDS, SURPRISES,
};
use worked::{
    COUNT_FAULTS, FIELD_FAULTS, HOSTILE_FAULTS, LARGEST, MOVES, ORDER_FAULTS, TEMP, WORKED,
    WORKED_FAULTS,
};

// The text that a trace gives, and how its run ends.
fn text_by(alloc: Global, keys: RandomState, trace: &[u8]) -> (Vec<u8>, Result<(), SimFault>) {
    let mut reader = Counted::new(trace);
    let mut writer = Counted::new(Vec::new(alloc));
    let ended = run_model(alloc, keys, &mut reader, &mut writer);
    (writer.into_inner(), ended)
}

// The same of a run on a store.
fn serial_text_by(
    rt: &impl Wait,
    alloc: Global,
    keys: RandomState,
    trace: &[u8],
) -> (Vec<u8>, Result<(), SimFault>) {
    let mut reader = Counted::new(trace);
    let mut writer = Counted::new(Vec::new(alloc));
    let ended = run_serial(rt, alloc, keys, &mut reader, &mut writer);
    (writer.into_inner(), ended)
}

// The text by the model, with keys of its own.
fn text_of(rt: &HostRuntime, trace: &[u8]) -> Result<(Vec<u8>, Result<(), SimFault>), Fail> {
    Ok(text_by(rt.alloc(), RandomState::new(rt)?, trace))
}

// A run of this trace ended so, with this text.
fn expect_run(
    rt: &impl Abort,
    trace: &str,
    told: &(Vec<u8>, Result<(), SimFault>),
    end: Result<(), SimFault>,
    text: &[u8],
) {
    assert!(rt; told.1 == end, "{trace}");
    assert!(rt; told.0.as_slice() == text, "{trace}");
}

// Each trace gives its text, and its run ends so, by the model and on a store.
fn all_give(
    rt: &(impl Abort + Wait),
    alloc: Global,
    keys: RandomState,
    rows: &[(&str, &str)],
    end: Result<(), SimFault>,
) {
    for row in rows {
        let (trace, text) = *row;
        let told = text_by(alloc, keys, trace.as_bytes());
        expect_run(rt, trace, &told, end, text.as_bytes());
        let told = serial_text_by(rt, alloc, keys, trace.as_bytes());
        expect_run(rt, trace, &told, end, text.as_bytes());
    }
}

// The same with keys of their own.
fn gives(
    rt: &(impl Abort + Wait + RandomSource),
    alloc: Global,
    rows: &[(&str, &str)],
    end: Result<(), SimFault>,
) -> Result<(), Fail> {
    all_give(rt, alloc, RandomState::new(rt)?, rows, end);
    Ok(())
}

#[test]
fn worked_to_the_end(rt: HostRuntime) -> Result<(), Fail> {
    gives(&rt, rt.alloc(), &WORKED, Ok(()))
}

#[test]
fn worked_temp(rt: HostRuntime) -> Result<(), Fail> {
    gives(&rt, rt.alloc(), &TEMP, Ok(()))
}

#[test]
fn worked_moves(rt: HostRuntime) -> Result<(), Fail> {
    gives(&rt, rt.alloc(), &MOVES, Ok(()))
}

#[test]
fn worked_largest(rt: HostRuntime) -> Result<(), Fail> {
    gives(&rt, rt.alloc(), &LARGEST, Ok(()))
}

#[test]
fn worked_faults(rt: HostRuntime) -> Result<(), Fail> {
    gives(&rt, rt.alloc(), &WORKED_FAULTS, Err(SimFault::Trace))
}

#[test]
fn hostile_faults(rt: HostRuntime) -> Result<(), Fail> {
    gives(&rt, rt.alloc(), &HOSTILE_FAULTS, Err(SimFault::Trace))
}

#[test]
fn worked_pulls(rt: HostRuntime) -> Result<(), Fail> {
    gives(&rt, rt.alloc(), &PULLS, Ok(()))
}

#[test]
fn worked_ends(rt: HostRuntime) -> Result<(), Fail> {
    gives(&rt, rt.alloc(), &ENDS, Ok(()))
}

// The last generations of a chunk, and numbers of bumps far behind the room of a ring.
#[test]
fn worked_last_counts(rt: HostRuntime) -> Result<(), Fail> {
    gives(&rt, rt.alloc(), &LAST_COUNTS, Ok(()))
}

#[test]
fn worked_holds(rt: HostRuntime) -> Result<(), Fail> {
    gives(&rt, rt.alloc(), &HOLDS, Ok(()))
}

#[test]
fn late_faults(rt: HostRuntime) -> Result<(), Fail> {
    gives(&rt, rt.alloc(), &LATE_FAULTS, Err(SimFault::Trace))
}

#[test]
fn every_line(rt: HostRuntime) -> Result<(), Fail> {
    gives(&rt, rt.alloc(), &[EVERY_LINE, MIXED_LINES], Ok(()))
}

// Each fault word, by a trace that is as short as can be.
#[test]
fn every_fault_of_a_line(rt: HostRuntime) -> Result<(), Fail> {
    gives(&rt, rt.alloc(), &EVERY_LINE_FAULT, Err(SimFault::Trace))
}

#[test]
fn every_fault_of_a_store(rt: HostRuntime) -> Result<(), Fail> {
    gives(&rt, rt.alloc(), &EVERY_STORE_FAULT, Err(SimFault::Trace))
}

// A word too few or too many, each field wrong, and what may not stand behind `par`.
#[test]
fn counts_of_more_lines(rt: HostRuntime) -> Result<(), Fail> {
    gives(&rt, rt.alloc(), &LINE_COUNTS, Err(SimFault::Trace))
}

#[test]
fn fields_of_more_lines(rt: HostRuntime) -> Result<(), Fail> {
    gives(&rt, rt.alloc(), &LINE_FIELDS, Err(SimFault::Trace))
}

#[test]
fn names_of_more_lines(rt: HostRuntime) -> Result<(), Fail> {
    gives(&rt, rt.alloc(), &LINE_NAMES, Err(SimFault::Trace))
}

#[test]
fn order_of_more_lines(rt: HostRuntime) -> Result<(), Fail> {
    gives(&rt, rt.alloc(), &LINE_ORDER, Err(SimFault::Trace))
}

// Of several faults of a line the first in the order is told.
#[test]
fn pairs_of_words(rt: HostRuntime) -> Result<(), Fail> {
    gives(&rt, rt.alloc(), &PAIRS_OF_WORDS, Err(SimFault::Trace))
}

#[test]
fn pairs_of_fields(rt: HostRuntime) -> Result<(), Fail> {
    gives(&rt, rt.alloc(), &PAIRS_OF_FIELDS, Err(SimFault::Trace))
}

#[test]
fn pairs_of_configs(rt: HostRuntime) -> Result<(), Fail> {
    gives(&rt, rt.alloc(), &PAIRS_OF_CONFIGS, Err(SimFault::Trace))
}

#[test]
fn pairs_of_stores(rt: HostRuntime) -> Result<(), Fail> {
    gives(&rt, rt.alloc(), &PAIRS_OF_STORES, Err(SimFault::Trace))
}

// Faults that surprise.
#[test]
fn surprises(rt: HostRuntime) -> Result<(), Fail> {
    gives(&rt, rt.alloc(), &SURPRISES, Err(SimFault::Trace))
}

// Each kind of line with a word too few and one too many, and each of its fields wrong.
#[test]
fn counts_of_each_line(rt: HostRuntime) -> Result<(), Fail> {
    gives(&rt, rt.alloc(), &COUNT_FAULTS, Err(SimFault::Trace))
}

#[test]
fn fields_of_each_line(rt: HostRuntime) -> Result<(), Fail> {
    gives(&rt, rt.alloc(), &FIELD_FAULTS, Err(SimFault::Trace))
}

#[test]
fn order_of_each_line(rt: HostRuntime) -> Result<(), Fail> {
    gives(&rt, rt.alloc(), &ORDER_FAULTS, Err(SimFault::Trace))
}

// How the run of a trace ends, and the writer that looked at its text.
fn run_expecting<'a>(
    alloc: Global,
    keys: RandomState,
    trace: &str,
    text: &'a str,
) -> (Result<(), SimFault>, Expecting<'a>) {
    let mut reader = Counted::new(trace.as_bytes());
    let mut writer = Counted::new(Expecting::new(text.as_bytes()));
    let ended = run_model(alloc, keys, &mut reader, &mut writer);
    (ended, writer.into_inner())
}

// Whichever one allocation is refused: the run ends with its whole text, or as Memory with a front of it, and then the
// same run made again ends with its whole text. A refusal that a `Vec` makes up for, as it asks for less, ends no run;
// so the test makes one allocation more behind the run, and says so where that one was refused. Whoever refuses each
// in turn knows by this that no allocation of the run is left.
#[test]
fn a_refused_allocation_leaves_a_front_of_the_text(rt: HostRuntime) -> Result<(), Fail> {
    let keys = RandomState::new(&rt)?;
    let (trace, text) = EVERY_LINE;
    let (mut ended, mut written) = run_expecting(rt.alloc(), keys, trace, text);
    assert!(rt; written.is_front());
    if ended == Err(SimFault::Memory) {
        tell_refused(&rt, "run_model")?;
        (ended, written) = run_expecting(rt.alloc(), keys, trace, text);
    }
    expect_whole(&rt, ended, &written);
    tell_left(&rt)
}

// How the run of a trace on a store ends, and the writer that looked at its text.
fn run_serial_expecting<'a>(
    rt: &impl Wait,
    alloc: Global,
    keys: RandomState,
    trace: &str,
    text: &'a str,
) -> (Result<(), SimFault>, Expecting<'a>) {
    let mut reader = Counted::new(trace.as_bytes());
    let mut writer = Counted::new(Expecting::new(text.as_bytes()));
    let ended = run_serial(rt, alloc, keys, &mut reader, &mut writer);
    (ended, writer.into_inner())
}

// The same of a run on a store.
#[test]
fn a_refused_allocation_of_a_serial_run(rt: HostRuntime) -> Result<(), Fail> {
    let keys = RandomState::new(&rt)?;
    let (trace, text) = EVERY_LINE;
    let (mut ended, mut written) = run_serial_expecting(&rt, rt.alloc(), keys, trace, text);
    assert!(rt; written.is_front());
    if ended == Err(SimFault::Memory) {
        tell_refused(&rt, "run_serial")?;
        (ended, written) = run_serial_expecting(&rt, rt.alloc(), keys, trace, text);
    }
    expect_whole(&rt, ended, &written);
    tell_left(&rt)
}

// A line of `show` that is longer than what is gathered before it is written.
#[test]
fn a_line_over_64_kib(rt: HostRuntime) -> Result<(), Fail> {
    let mut text = Vec::new(rt.alloc());
    text.extend_from_slice(
        b"class 0 hot 0\nclass 0 warm 0\nclass 0 cold 0\nclass 0 dying 0\nclass 0 unused 20000",
    )?;
    for chunk in 0..20_000u32 {
        text.extend_from_slice(format!(in rt.alloc(); " {chunk}")?.as_bytes())?;
    }
    text.extend_from_slice(
        b"\nclass 0 retired 0\nworker 0 attempted 0 accepted 0 full 0 busy 0 refs 0 applied 0\n",
    )?;
    let told = text_of(&rt, b"store 1 4 4 1\nclass 20000 5 5\nshow\n")?;
    assert!(rt; text.len() > 100_000);
    expect_run(&rt, "20,000 chunks are shown", &told, Ok(()), &text);
    Ok(())
}

// A trace of 16,777,216 bytes whose first line has a fault, so that no other line is run.
fn longest_trace(alloc: Global) -> Result<Vec<u8>, AllocError> {
    let comment = [b'#'; 256];
    let mut trace = Vec::new(alloc);
    trace.extend_from_slice(b"show\n")?;
    for _ in 0..65_535u32 {
        trace.extend_from_slice(&comment)?;
    }
    trace.extend_from_slice(&comment[..251])?;
    Ok(trace)
}

// A trace of exactly 16,777,216 bytes is taken.
#[test]
fn the_longest_trace(rt: HostRuntime) -> Result<(), Fail> {
    let trace = longest_trace(rt.alloc())?;
    assert_eq!(rt; trace.len(), 16_777_216);
    let told = text_of(&rt, &trace)?;
    let end = Err(SimFault::Trace);
    expect_run(&rt, "the longest trace", &told, end, b"line 1: ORDER\n");
    Ok(())
}

// A trace of a byte more is not taken, whatever stands in it, and nothing is written.
#[test]
fn a_byte_more_than_the_longest_trace(rt: HostRuntime) -> Result<(), Fail> {
    let keys = RandomState::new(&rt)?;
    let trace = vec![in rt.alloc(); b'\n'; 16_777_217]?;
    let mut reader = Counted::new(trace.as_slice());
    let mut writer = Counted::new(Vec::new(rt.alloc()));
    assert!(rt; run_model(rt.alloc(), keys, &mut reader, &mut writer) == Err(SimFault::Size));
    assert_eq!(rt; writer.calls(), 0);
    assert!(rt; writer.into_inner().is_empty());
    Ok(())
}

// A trace with as many holds of one item as a limit of references allows, and one more, and its text.
fn most_holds(alloc: Global, limit: u32) -> Result<(Vec<u8>, Vec<u8>), Fail> {
    let mut trace = Vec::new(alloc);
    let mut text = Vec::new(alloc);
    trace.extend_from_slice(format!(in alloc;
        "store 1 4 {limit} 1\nclass 1 5 5\nset a 0 7\n"
    )?.as_bytes())?;
    text.extend_from_slice(b"set a 0.1\n")?;
    let last = limit.saturating_sub(1);
    for hold in 0..last {
        trace.extend_from_slice(format!(in alloc; "hold 0 a h{hold}\n")?.as_bytes())?;
        text.extend_from_slice(format!(in alloc; "hold 0 a h{hold} held\n")?.as_bytes())?;
    }
    trace.extend_from_slice(format!(in alloc; "hold 0 a h{last}\n")?.as_bytes())?;
    text.extend_from_slice(format!(in alloc; "hold 0 a h{last} refs\n")?.as_bytes())?;
    Ok((trace, text))
}

// A limit of references leaves room for one hold less of a linked item.
fn expect_most_holds(
    rt: &(impl Abort + Wait),
    alloc: Global,
    keys: RandomState,
    limit: u32,
) -> Result<(), Fail> {
    let (trace, text) = most_holds(alloc, limit)?;
    let told = text_by(alloc, keys, &trace);
    expect_run(rt, "most holds, by the model", &told, Ok(()), &text);
    let told = serial_text_by(rt, alloc, keys, &trace);
    expect_run(rt, "most holds, on a store", &told, Ok(()), &text);
    Ok(())
}

// As many holds as a count of 16 bits has room for.
#[test]
fn holds_of_16_bits(rt: HostRuntime) -> Result<(), Fail> {
    let keys = RandomState::new(&rt)?;
    expect_most_holds(&rt, rt.alloc(), keys, 65_535)
}

// One hold more than a count of 16 bits has room for.
#[test]
fn holds_past_16_bits(rt: HostRuntime) -> Result<(), Fail> {
    let keys = RandomState::new(&rt)?;
    expect_most_holds(&rt, rt.alloc(), keys, 65_536)
}

// Each fault of a run says what it is.
#[test]
fn faults_are_told(rt: HostRuntime) -> Result<(), Fail> {
    let told = [
        (SimFault::Trace, "the trace has a fault"),
        (SimFault::Read, "the trace could not be read"),
        (SimFault::Size, "the trace has more than 16777216 bytes"),
        (SimFault::Write, "the text could not be written"),
        (SimFault::Memory, "out of memory"),
        (SimFault::Threads, "a thread could not be started"),
        (SimFault::Ring, "a ring could not show its end"),
        (SimFault::Gate, "the gate did not open"),
    ];
    for (fault, words) in told {
        assert!(rt;
            format!(in rt.alloc(); "{fault}")?.as_str() == words,
            "{words}"
        );
    }
    Ok(())
}

//! Worked traces whose lines behind `par` are made by threads, and a gate that shows that they are several.
ghost use Rattle.std.specs.Prelude.{◌≤◌};

use super::behind_par::{
    ALL_LANES, EACH_ITS_OWN, ENDED, FAULTS_BEHIND_PAR, GATED, ONE_ITEM, OWN_ITEMS, REPORTED,
    TOLD_APART,
};
use super::expect_run;
use super::expecting::{Ending, Expecting, expect_whole, is_cut_at, tell_left, tell_refused};
use super::gates::Counting;
use super::numbers::{behind, number_behind, sum_behind};
use super::streams::empty_pulls;
use bump_trace::{Counted, SimFault};
use std::alloc::Global;
use std::hash::RandomState;
use std::process::Abort;
use std::sync::Wait;
use std::sync::atomic::{AtomicU64, Ordering};
use std::test::*;
use std::thread::Threads;
use store_trace::{Gate, OpenGate, run_par};

// The text that a trace gives by threads with so many drainers, and how its run ends.
fn text_by<R: Threads + Wait + Sync, G: Gate + Sync>(
    rt: &R,
    alloc: Global,
    keys: RandomState,
    gate: &G,
    drainers: u32,
    trace: &[u8],
) -> (Vec<u8>, Result<(), SimFault>)
    requires { (1 ≤ drainers) × (drainers ≤ 64) }
{
    let mut reader = Counted::new(trace);
    let mut writer = Counted::new(Vec::new(alloc));
    let ended = run_par(rt, alloc, keys, gate, drainers, &mut reader, &mut writer);
    (writer.into_inner(), ended)
}

// Each trace gives its text by threads with so many drainers, and its run ends so.
fn all_give<R: Threads + Wait + Abort + Sync>(
    rt: &R,
    alloc: Global,
    keys: RandomState,
    drainers: u32,
    rows: &[(&str, &str)],
    end: Result<(), SimFault>,
)
    requires { (1 ≤ drainers) × (drainers ≤ 64) }
{
    for row in rows {
        let (trace, text) = *row;
        let told = text_by(rt, alloc, keys, &OpenGate, drainers, trace.as_bytes());
        expect_run(rt, trace, &told, end, text.as_bytes());
    }
}

#[test]
fn reports(rt: HostRuntime) -> Result<(), Fail> {
    let keys = RandomState::new(&rt)?;
    all_give(&rt, rt.alloc(), keys, 1, &REPORTED, Ok(()));
    all_give(&rt, rt.alloc(), keys, 2, &REPORTED, Ok(()));
    Ok(())
}

#[test]
fn faults_behind_par(rt: HostRuntime) -> Result<(), Fail> {
    let keys = RandomState::new(&rt)?;
    all_give(
        &rt,
        rt.alloc(),
        keys,
        1,
        &FAULTS_BEHIND_PAR,
        Err(SimFault::Trace),
    );
    Ok(())
}

// Two workers with an item each, and two `drain` lines behind: however many drainers make them, and whichever bumps these find,
// the text is the same.
#[test]
fn drains_by_several(rt: HostRuntime) -> Result<(), Fail> {
    let keys = RandomState::new(&rt)?;
    let (trace, text) = OWN_ITEMS;
    let drained = format!(in rt.alloc(); "{trace}drain\ndrain\n")?;
    let rows = [(drained.as_str(), text)];
    all_give(&rt, rt.alloc(), keys, 1, &rows, Ok(()));
    all_give(&rt, rt.alloc(), keys, 2, &rows, Ok(()));
    all_give(&rt, rt.alloc(), keys, 64, &rows, Ok(()));
    Ok(())
}

// Two workers hit one item twice each: one hit is its first, and one bump is queued, whoever makes which.
#[test]
fn two_workers_hit_one_item(rt: HostRuntime) -> Result<(), Fail> {
    let keys = RandomState::new(&rt)?;
    let (trace, texts) = ONE_ITEM;
    let (written, ended) = text_by(&rt, rt.alloc(), keys, &OpenGate, 1, trace.as_bytes());
    assert!(rt; ended == Ok(()));
    let text = written.as_slice();
    assert!(rt; text == texts[0].as_bytes() || text == texts[1].as_bytes());
    Ok(())
}

#[test]
fn threads_are_told_apart(rt: HostRuntime) -> Result<(), Fail> {
    let keys = RandomState::new(&rt)?;
    all_give(&rt, rt.alloc(), keys, 1, &TOLD_APART, Ok(()));
    all_give(&rt, rt.alloc(), keys, 2, &TOLD_APART, Ok(()));
    Ok(())
}

#[test]
fn each_thread_makes_its_own_lines(rt: HostRuntime) -> Result<(), Fail> {
    let keys = RandomState::new(&rt)?;
    all_give(&rt, rt.alloc(), keys, 1, &EACH_ITS_OWN, Ok(()));
    all_give(&rt, rt.alloc(), keys, 3, &EACH_ITS_OWN, Ok(()));
    Ok(())
}

#[test]
fn one_drainer_drains_all_lanes(rt: HostRuntime) -> Result<(), Fail> {
    let keys = RandomState::new(&rt)?;
    all_give(&rt, rt.alloc(), keys, 1, &[ALL_LANES], Ok(()));
    Ok(())
}

// Each bump of a worker that was accepted was applied, and no more than these moved an item.
fn expect_applied(rt: &impl Abort, text: &[u8], worker: &[u8], moves: &[u8]) {
    let told = behind(text, worker).unwrap_or(b"");
    let applied = number_behind(told, b" applied ");
    assert!(rt; applied.is_some() && number_behind(told, b" accepted ") == applied);
    let moved = number_behind(text, moves).unwrap_or(u64::MAX);
    assert!(rt; moved <= applied.unwrap_or(0));
}

/// The numbers of the total.
const TOTALS: [&[u8]; 9] = [
    b" first ",
    b" already ",
    b" marked ",
    b" queued ",
    b" dropped ",
    b" miss ",
    b" refs ",
    b" busy ",
    b" closed ",
];

// The report of an item that ends beside its four hits, however many of them find it.
fn expect_ended(rt: &impl Abort, text: &[u8]) {
    expect_applied(rt, text, b"\nworker 0", b"\nmoves 0 0 ");
    expect_applied(rt, text, b"\nworker 1", b"\nmoves 0 1 ");
    let total = behind(text, b"\ntotal").unwrap_or(b"");
    assert!(rt; sum_behind(total, &TOTALS) == Some(4));
    assert!(rt; matches!(number_behind(total, b" first "), Some(0 | 1)));
    let is_free = text.ends_with(b"\nsizes 0 hot 0 warm 0 cold 0 dying 0 unused 1 retired 0\n");
    let is_dying = text.ends_with(b"\nsizes 0 hot 0 warm 0 cold 0 dying 1 unused 0 retired 0\n");
    assert!(rt; is_free || is_dying);
}

#[test]
fn an_item_ends_beside_its_hits(rt: HostRuntime) -> Result<(), Fail> {
    let keys = RandomState::new(&rt)?;
    for drainers in 1..3u32 {
        let told = text_by(&rt, rt.alloc(), keys, &OpenGate, drainers, ENDED.as_bytes());
        assert!(rt; told.1 == Ok(()));
        expect_ended(&rt, &told.0);
    }
    Ok(())
}

/// Lets a worker's first line pass once both workers came to theirs, and gives up after so many turns, which are seconds: a
/// busy machine may let one thread wait long for the other.
#[derive(Drop)]
struct Meeting {
    came: AtomicU64,
}

impl Gate for Meeting {
    fn begin(&self, _drainers: u32) {}

    fn enter(&self, _worker: u32, call: u64) -> bool {
        if call != 0 {
            return true;
        }
        self.came.fetch_add(1, Ordering::SeqCst);
        for _ in 0..1_000_000_000u32 {
            if self.came.load(Ordering::SeqCst) >= 2 {
                return true;
            }
        }
        false
    }

    fn leave(&self, _worker: u32, _call: u64) {}
}

#[test]
fn two_workers_are_in_their_lines_at_once(rt: HostRuntime) -> Result<(), Fail> {
    let keys = RandomState::new(&rt)?;
    let gate = Meeting {
        came: AtomicU64::new(0),
    };
    let (trace, text) = OWN_ITEMS;
    let told = text_by(&rt, rt.alloc(), keys, &gate, 1, trace.as_bytes());
    expect_run(&rt, trace, &told, Ok(()), text.as_bytes());
    Ok(())
}

// The gate is asked before each `get` line of each worker, and told after it.
#[test]
fn a_gate_at_each_line(rt: HostRuntime) -> Result<(), Fail> {
    let keys = RandomState::new(&rt)?;
    let gate = Counting::new(u64::MAX);
    let (trace, text) = GATED;
    let told = text_by(&rt, rt.alloc(), keys, &gate, 1, trace.as_bytes());
    expect_run(&rt, trace, &told, Ok(()), text.as_bytes());
    assert!(rt; gate.counts() == ((3, 3), (2, 2)));
    assert!(rt; gate.is_in_turn());
    Ok(())
}

// Where the gate lets one line not pass, the run says so, that worker makes no further line, the other makes all of its own, and
// what was written before stays.
#[test]
fn a_gate_that_does_not_open(rt: HostRuntime) -> Result<(), Fail> {
    let keys = RandomState::new(&rt)?;
    let (trace, _) = GATED;
    for passed in 0..2u64 {
        let gate = Counting::new(passed);
        let told = text_by(&rt, rt.alloc(), keys, &gate, 1, trace.as_bytes());
        expect_run(
            &rt,
            trace,
            &told,
            Err(SimFault::Gate),
            b"set a 0.1\nset b 1.1\n",
        );
        let asked = passed.saturating_add(1);
        assert!(rt; gate.counts() == ((asked, passed), (2, 2)));
        assert!(rt; gate.is_in_turn());
    }
    Ok(())
}

// How a run by threads ends, and the writer that looked at its text.
fn run_expecting<'a, R: Threads + Wait + Sync>(
    rt: &R,
    alloc: Global,
    keys: RandomState,
) -> (Result<(), SimFault>, Expecting<'a>) {
    let (trace, text) = OWN_ITEMS;
    let mut reader = Counted::new(trace.as_bytes());
    let mut writer = Counted::new(Expecting::new(text.as_bytes()));
    let ended = run_par(rt, alloc, keys, &OpenGate, 2, &mut reader, &mut writer);
    (ended, writer.into_inner())
}

// Whichever one allocation is refused: the run ends with its whole text, or as Memory or Threads with a front of it, and then
// the same run made again ends with its whole text.
#[test]
fn a_refused_allocation_by_threads(rt: HostRuntime) -> Result<(), Fail> {
    let keys = RandomState::new(&rt)?;
    let (mut ended, mut written) = run_expecting(&rt, rt.alloc(), keys);
    assert!(rt; written.is_front());
    if ended == Err(SimFault::Memory) || ended == Err(SimFault::Threads) {
        tell_refused(&rt, "run_par")?;
        (ended, written) = run_expecting(&rt, rt.alloc(), keys);
    }
    expect_whole(&rt, ended, &written);
    tell_left(&rt)
}

// Whether a run by threads whose writer takes so many bytes, one for each call, and then fails once, ends as Write, with that call
// its last one, and the front of the text written.
fn ends_at_write<R: Threads + Wait + Sync>(
    rt: &R,
    alloc: Global,
    keys: RandomState,
    taken: usize,
) -> bool {
    let (trace, text) = OWN_ITEMS;
    let mut reader = Counted::new(trace.as_bytes());
    let mut writer = Counted::new(Expecting::narrow(text.as_bytes(), taken, Ending::FailsOnce));
    let ended = run_par(rt, alloc, keys, &OpenGate, 1, &mut reader, &mut writer);
    is_cut_at(ended, writer, taken, text.len())
}

// A write that failed isn't made again, at the front, in the middle or at the end.
#[test]
fn a_write_fails_once(rt: HostRuntime) -> Result<(), Fail> {
    let keys = RandomState::new(&rt)?;
    let (_, text) = OWN_ITEMS;
    for taken in [0, text.len() / 2, text.len().saturating_sub(1)] {
        assert!(rt; ends_at_write(&rt, rt.alloc(), keys, taken), "{taken}");
    }
    Ok(())
}

// The text before the report is so long that it is written as the report is gathered. Where one of these writes fails the run says
// so, and that write isn't made again, nor is the report written.
#[test]
fn a_write_fails_once_before_the_report(rt: HostRuntime) -> Result<(), Fail> {
    let keys = RandomState::new(&rt)?;
    let (trace, text) = empty_pulls(rt.alloc(), 3_640)?;
    for taken in [0, 65_519] {
        let mut reader = Counted::new(trace.as_slice());
        let mut writer = Counted::new(Expecting::narrow(&text, taken, Ending::FailsOnce));
        let ended = run_par(
            &rt,
            rt.alloc(),
            keys,
            &OpenGate,
            1,
            &mut reader,
            &mut writer,
        );
        assert!(rt; is_cut_at(ended, writer, taken, text.len()), "{taken}");
    }
    Ok(())
}

//! What the end of a run on a store applies: the bumps that wait in the rings of its workers, which nothing else tells
//! of.
use std::alloc::Global;
use std::hash::RandomState;
use std::random::RandomSource;
use std::sync::Wait;
use std::test::*;
use store_trace::run_serial_settling;
use trace_lines::Counted;

/// Traces, and how many bumps wait at their end.
const WAITING: [(&str, u64); 6] = [
    ("store 1 4 4 1\nclass 2 0 5\nset a 0 7\n", 0),
    (
        "store 1 4 8 1\nclass 2 0 5\nset a 0 7\nset b 0 8\npull 0 hot\npull 0 hot\nget 0 a\nget 0 a\nget 0 b\nget 0 b\n",
        2,
    ),
    (
        "store 2 4 8 1\nclass 2 0 5\nset a 0 7\nset b 0 8\npull 0 hot\npull 0 hot\nget 0 a\nget 0 a\nget 1 b\nget 1 b\n",
        2,
    ),
    (
        "store 2 4 8 1\nclass 2 0 5\nset a 0 7\nset b 0 8\npull 0 hot\npull 0 hot\nget 0 a\nget 0 a\nclose 0\nget 1 b\nget 1 b\n",
        1,
    ),
    (
        "store 1 4 4 1\nclass 2 0 5\nset a 0 7\npull 0 hot\nget 0 a\nget 0 a\ndrain\n",
        0,
    ),
    (
        "store 1 4 4 1\nclass 2 0 5\nset a 0 7\npull 0 hot\nhold 0 a h\nhit 0 h\nhit 0 h\n",
        1,
    ),
];

// How many bumps the end of a run of the trace applied, and whether it was run to its end.
fn settled_by(rt: &impl Wait, alloc: Global, keys: RandomState, trace: &[u8]) -> (u64, bool) {
    let mut settled = 99;
    let mut reader = Counted::new(trace);
    let mut writer = Counted::new(Vec::new(alloc));
    let ended = run_serial_settling(rt, alloc, keys, &mut reader, &mut writer, &mut settled);
    (settled, ended.is_ok())
}

// All workers that are open at the end of a run are settled.
#[test]
fn the_end_of_a_run_settles_its_workers(rt: HostRuntime) -> Result<(), Fail> {
    let keys = RandomState::new(&rt)?;
    for (trace, waiting) in WAITING {
        let (settled, is_ended) = settled_by(&rt, rt.alloc(), keys, trace.as_bytes());
        assert!(rt; is_ended && settled == waiting, "{trace}");
    }
    Ok(())
}

// Nothing is told of a run that a fault ends.
#[test]
fn a_fault_leaves_the_number_as_it_was(rt: HostRuntime) -> Result<(), Fail> {
    let keys = RandomState::new(&rt)?;
    let trace = b"store 1 4 4 1\nclass 2 0 5\nset a 0 7\npull 0 hot\nget 0 a\nget 0 a\nget 0 x\n";
    let (settled, is_ended) = settled_by(&rt, rt.alloc(), keys, trace);
    assert!(rt; !is_ended && settled == 99);
    Ok(())
}

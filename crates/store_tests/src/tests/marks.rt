//! What a hold tells of the marks of its item, hit by hit.
use super::calls::{expect_hit, get, new_cold};
use super::drains::expect_drained;
use super::expecting::{expect, expect_of};
use super::whole::{Story, class, tell};
use bump_store::{ItemId, Lane, Name, ReaderHeads, Store, Touch, Worker};
use std::process::Abort;
use std::sync::Wait;
use std::test::Fail;

// A hold of the item tells whether it has both marks, and the same once more.
fn expect_marked<N: Name, R: Abort>(
    rt: &R,
    heads: &ReaderHeads<N>,
    worker: &mut Worker<N>,
    item: ItemId,
    wanted: bool,
) {
    let mut hold = get(rt, heads, worker, item);
    expect_of(rt, "marked", &item, &hold.is_marked(heads), &wanted);
    expect(rt, "marked again", &hold.is_marked(heads), &wanted);
    hold.release(heads);
}

/// An item of COLD has both marks from its second hit until its bump is applied, and from the next hit on.
pub fn mark_by_hits<N: Name, R: Abort + Wait>(
    rt: &R,
    store: &Store<N>,
    worker: &mut Worker<N>,
    lane: &mut Lane<N>,
) {
    let item = new_cold(rt, store, 0);
    expect_marked(rt, store, worker, item, false);
    expect_hit(rt, store, worker, item, 5, Touch::First);
    expect_marked(rt, store, worker, item, false);
    expect_hit(rt, store, worker, item, 6, Touch::Queued(0));
    expect_marked(rt, store, worker, item, true);
    expect_hit(rt, store, worker, item, 7, Touch::Already);
    expect_drained(rt, store, lane, 1);
    expect_marked(rt, store, worker, item, false);
    expect_hit(rt, store, worker, item, 8, Touch::Marked);
    expect_marked(rt, store, worker, item, true);
}

#[test]
fn marks_are_told_as_hits_leave_them(rt: HostRuntime) -> Result<(), Fail> {
    Ok(tell(&rt, rt.alloc(), 4, &[class(2, 0, 2)], Story::Marked)?)
}

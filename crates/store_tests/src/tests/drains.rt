//! What the lane of a store does with bumps that its worker queued.
use super::calls::{expect_hit, hit_twice, lock, new_cold};
use super::expecting::expect;
use super::whole::{Story, class, tell};
use bump_store::{Dropped, ItemId, Lane, Name, Place, Store, Touch, Worker};
use std::process::Abort;
use std::sync::Wait;
use std::test::Fail;

/// A new item of the class, in COLD, that is hit twice. The second hit does this.
pub fn hit_new<N: Name, R: Abort + Wait>(
    rt: &R,
    store: &Store<N>,
    worker: &mut Worker<N>,
    class: u32,
    wanted: Touch,
) -> ItemId {
    let item = new_cold(rt, store, class);
    hit_twice(rt, store, worker, item, wanted);
    item
}

fn drain<N: Name, R: Wait>(rt: &R, store: &Store<N>, lane: &mut Lane<N>) -> u64 {
    lane.drain(rt, store, 9)
}

/// A drain applies so many.
pub fn expect_drained<N: Name, R: Abort + Wait>(
    rt: &R,
    store: &Store<N>,
    lane: &mut Lane<N>,
    wanted: u64,
) {
    expect(rt, "a drain", &drain(rt, store, lane), &wanted);
}

// WARM of the class has so many items.
fn expect_warm<N: Name, R: Abort + Wait>(rt: &R, store: &Store<N>, class: u32, wanted: u32) {
    let book = lock(rt, store, class);
    expect(rt, "WARM", &book.size(Place::Warm), &wanted);
}

/// A ring with room for one bump takes one again after a drain.
pub fn drain_again<N: Name, R: Abort + Wait>(
    rt: &R,
    store: &Store<N>,
    worker: &mut Worker<N>,
    lane: &mut Lane<N>,
) {
    hit_new(rt, store, worker, 0, Touch::Queued(0));
    let second = hit_new(rt, store, worker, 0, Touch::Dropped(Dropped::Full));
    expect_drained(rt, store, lane, 1);
    expect_hit(rt, store, worker, second, 7, Touch::Queued(1));
    expect_drained(rt, store, lane, 1);
    expect(rt, "applied bumps", &lane.applied(), &2);
    expect_warm(rt, store, 0, 2);
}

#[test]
fn a_drained_ring_takes_again(rt: HostRuntime) -> Result<(), Fail> {
    Ok(tell(&rt, rt.alloc(), 1, &[class(2, 0, 5)], Story::DrainedAgain)?)
}

// Runs of one, two and one bumps fill the ring, and are drained at once. The first one's number is this.
fn fill_and_drain<N: Name, R: Abort + Wait>(
    rt: &R,
    store: &Store<N>,
    worker: &mut Worker<N>,
    lane: &mut Lane<N>,
    number: u64,
) {
    let mut next = number;
    for class in [0, 1, 1, 0] {
        hit_new(rt, store, worker, class, Touch::Queued(next));
        next = next.saturating_add(1);
    }
    expect_drained(rt, store, lane, 4);
}

/// A drain goes on with the bumps of the other class where a run ended. Nothing is aboard then, so the ring takes four
/// again.
pub fn drain_in_turn<N: Name, R: Abort + Wait>(
    rt: &R,
    store: &Store<N>,
    worker: &mut Worker<N>,
    lane: &mut Lane<N>,
) {
    fill_and_drain(rt, store, worker, lane, 0);
    fill_and_drain(rt, store, worker, lane, 4);
    expect(rt, "applied bumps", &lane.applied(), &8);
    expect_warm(rt, store, 0, 4);
    expect_warm(rt, store, 1, 4);
    expect_drained(rt, store, lane, 0);
}

#[test]
fn a_drain_takes_the_classes_in_turn(rt: HostRuntime) -> Result<(), Fail> {
    let classes = [class(4, 0, 5), class(4, 0, 5)];
    Ok(tell(&rt, rt.alloc(), 4, &classes, Story::DrainedInTurn)?)
}

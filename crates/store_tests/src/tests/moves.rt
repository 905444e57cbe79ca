//! Two workers hit the items of one class while a thread for each lane applies their bumps. Once both are settled, the
//! class's Book tells of each worker as many moves as its lane told.
ghost use Rattle.std.specs.Prelude.{◌≡◌};
ghost use Rattle.bump_store.specs.Workers.{worker_rings};
ghost use Rattle.bump_store.specs.Lanes.{lane_rings};

use super::calls::{lock, new_cold, next, pull, touch, try_get};
use super::expecting::expect;
use super::pairs::{ClosedPair, Pair, two_pairs};
use super::whole::{Story, class, tell};
use bump_store::{Applied, Entry, ItemId, Lane, Maintainer, Name, Store, Tail, Worker};
use std::process::Abort;
use std::sync::Wait;
use std::test::Fail;
use std::thread;
use std::thread::Threads;

/// Items of the class: all of its chunks.
const ITEMS: u32 = 8;

/// Bumps that each ring has room for.
const CAPACITY: u32 = 4;

/// How often each worker hits each item, and each lane applies a bump.
const ROUNDS: u64 = 20_000;

// Whether the bump moved its item, as a number.
fn moved_by(entry: Entry) -> u64 {
    match entry.applied {
        Applied::Moved => 1,
        _ => 0,
    }
}

// A hit, where the item is held.
fn hit_once<N: Name>(store: &Store<N>, worker: &mut Worker<N>, item: ItemId, now: u64)
    ensures ring { worker.new.sender.ring ≡ worker.old.sender.ring }
{
    if let Ok(mut hold) = try_get(store, worker, item) {
        touch(store, worker, &mut hold, now);
        hold.release(store);
    }
}

// A hit of each item.
fn hit_each<N: Name>(store: &Store<N>, worker: &mut Worker<N>, items: &[ItemId], now: u64)
    ensures ring { worker.new.sender.ring ≡ worker.old.sender.ring }
{
    for item in items {
        hit_once(store, worker, *item, now);
    }
}

// Each round hits each item once.
fn hit_in_turn<N: Name>(store: &Store<N>, worker: Worker<N>, items: &[ItemId]) -> Worker<N>
    ensures ring { result.sender.ring ≡ worker.sender.ring }
{
    let mut hitting = worker;
    for now in 0..ROUNDS {
        hit_each(store, &mut hitting, items, now);
    }
    hitting
}

// The last item of WARM goes back to COLD, where it wasn't hit.
fn age<N: Name, R: Abort + Wait>(rt: &R, store: &Store<N>) {
    let mut book = lock(rt, store, 0);
    pull(&mut book, Tail::Warm);
}

// Applies a bump in each round, if one waits. It answers how many moved an item.
fn apply_in_turn<N: Name, R: Abort + Wait>(
    rt: &R,
    store: &Store<N>,
    lane: Lane<N>,
) -> (Lane<N>, u64)
    ensures ring { result.0.lane.ring ≡ lane.lane.ring }
{
    let mut applying = lane;
    let mut moved = 0u64;
    for now in 0..ROUNDS {
        if let Some(entry) = next(rt, store, &mut applying, now) {
            moved = moved.saturating_add(moved_by(entry));
        }
        age(rt, store);
    }
    (applying, moved)
}

// Applies what is left in a closed ring. It answers how many moved an item.
fn apply_rest<N: Name, R: Abort + Wait>(
    rt: &R,
    store: &Store<N>,
    closed: &mut ClosedPair<N>,
) -> u64 {
    let mut moved = 0u64;
    for _ in 0..CAPACITY {
        if let Some(entry) = closed.apply_left(rt, store, ROUNDS) {
            moved = moved.saturating_add(moved_by(entry));
        }
    }
    closed.expect_next_of(rt, store, ROUNDS, None);
    moved
}

// The lane meets the Book of the class, which tells so many moves for its worker.
fn expect_moves<N: Name, R: Abort + Wait>(
    rt: &R,
    store: &Store<N>,
    lane: &mut Lane<N>,
    wanted: u64,
) {
    let mut book = lock(rt, store, 0);
    lane.meet(&mut book);
    let worker = lane.worker();
    assert!(rt; worker < book.workers());
    expect(rt, "the moves", &book.moves(worker), &wanted);
}

// Closes and settles a worker whose lane told so many moves. It answers how many there are in all.
fn settle_moves<N: Name, R: Abort + Wait>(
    rt: &R,
    store: &Store<N>,
    pair: Pair<N>,
    told: u64,
) -> u64 {
    let mut closed = pair.close(rt);
    let moved = told.saturating_add(apply_rest(rt, store, &mut closed));
    let mut lane = closed.settle_lane(rt, store, ROUNDS);
    expect_moves(rt, store, &mut lane, moved);
    moved
}

// Both workers hit all items, each in a thread of its own.
fn hit_apart<N: Name + Send + Sync, R: Threads + Abort + Sync>(
    rt: &R,
    store: &Store<N>,
    worker: Worker<N>,
    other: Worker<N>,
    items: &[ItemId],
) -> (Worker<N>, Worker<N>)
    ensures first { result.0.sender.ring ≡ worker.sender.ring }
    ensures second { result.1.sender.ring ≡ other.sender.ring }
{
    thread::join(
        rt,
        move || hit_in_turn(store, worker, items),
        move || hit_in_turn(store, other, items),
    )
}

// Both lanes apply, each in a thread of its own.
fn apply_apart<N: Name + Send + Sync, R: Threads + Abort + Wait + Sync>(
    rt: &R,
    store: &Store<N>,
    lane: Lane<N>,
    other: Lane<N>,
) -> ((Lane<N>, u64), (Lane<N>, u64))
    ensures first { result.0.0.lane.ring ≡ lane.lane.ring }
    ensures second { result.1.0.lane.ring ≡ other.lane.ring }
{
    thread::join(
        rt,
        move || apply_in_turn(rt, store, lane),
        move || apply_in_turn(rt, store, other),
    )
}

// Both workers hit while both lanes apply. Then both are settled: the first bump that was applied moved its item.
fn move_apart<N: Name + Send + Sync, R: Threads + Abort + Wait + Sync>(
    rt: &R,
    store: &Store<N>,
    first: Pair<N>,
    second: Pair<N>,
    items: &[ItemId],
) {
    let Pair { worker, lane } = first;
    let Pair {
        worker: other,
        lane: other_lane,
    } = second;
    let ((worker, other), ((lane, told), (other_lane, other_told))) = thread::join(
        rt,
        move || hit_apart(rt, store, worker, other, items),
        move || apply_apart(rt, store, lane, other_lane),
    );
    let moved = settle_moves(rt, store, Pair { worker, lane }, told);
    let second = Pair {
        worker: other,
        lane: other_lane,
    };
    let moved = moved.saturating_add(settle_moves(rt, store, second, other_told));
    assert!(rt; 0 < moved, "an item was moved");
}

/// The items of a class are hit by two workers, and moved by both lanes.
pub fn move_in_one_class<N: Name + Send + Sync, R: Threads + Abort + Wait + Sync>(
    rt: &R,
    store: &Store<N>,
    workers: Vec<Worker<N>>,
    maintainer: Maintainer<N>,
)
    requires { worker_rings workers.items ≡ lane_rings maintainer }
{
    let mut items = [ItemId {
        chunk: 0,
        generation: 0,
    }; 8];
    for at in 0..items.len() {
        items[at] = new_cold(rt, store, 0);
    }
    let (first, second) = two_pairs(workers, maintainer.into_lanes()).expect(rt, "there are two");
    move_apart(rt, store, first, second, &items);
}

#[test]
fn the_lanes_and_the_class_tell_the_same_moves(rt: HostRuntime) -> Result<(), Fail> {
    let classes = [class(ITEMS, 0, 0)];
    Ok(tell(&rt, rt.alloc(), CAPACITY, &classes, Story::MovedApart)?)
}

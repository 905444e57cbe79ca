//! Two workers touch one item while a third thread applies what they queue; then both rings are settled.
ghost use Rattle.std.specs.Prelude.{◌≡◌};
ghost use Rattle.bump_store.specs.Workers.{worker_rings};
ghost use Rattle.bump_store.specs.Lanes.{lane_rings};

use super::calls::{hit, new_cold, next};
use super::expecting::expect;
use super::pairs::{ClosedPair, Pair, two_pairs};
use super::whole::{Story, class, tell};
use bump_store::{Applied, Entry, ItemId, Lane, Maintainer, Name, Store, Worker};
use std::process::Abort;
use std::sync::Wait;
use std::test::Fail;
use std::thread;
use std::thread::Threads;

/// How many applied bumps had each outcome.
#[derive(Clone, Copy)]
struct Tally {
    moved: u32,
    time_only: u32,
    gone: u32,
}

impl Tally {
    fn new() -> Tally {
        Tally {
            moved: 0,
            time_only: 0,
            gone: 0,
        }
    }

    fn add(&mut self, entry: Entry) {
        let count = match entry.applied {
            Applied::Moved => &mut self.moved,
            Applied::TimeOnly => &mut self.time_only,
            Applied::Gone(_) => &mut self.gone,
        };
        *count = count.saturating_add(1);
    }
}

// A hit of the item, whose label is 7.
fn expect_hit<N: Name, R: Abort>(
    rt: &R,
    store: &Store<N>,
    worker: &mut Worker<N>,
    item: ItemId,
    now: u64,
)
    ensures ring { worker.new.sender.ring ≡ worker.old.sender.ring }
{
    let (label, _touch) = hit(rt, store, worker, item, now);
    expect(rt, "the label", &label, &7);
}

fn hit_twice<N: Name, R: Abort>(
    rt: &R,
    store: &Store<N>,
    worker: Worker<N>,
    item: ItemId,
) -> Worker<N>
    ensures ring { result.sender.ring ≡ worker.sender.ring }
{
    let mut hitting = worker;
    expect_hit(rt, store, &mut hitting, item, 4);
    expect_hit(rt, store, &mut hitting, item, 5);
    hitting
}

// Applies what comes through a ring next, and counts what it did.
fn apply_next<N: Name, R: Wait>(rt: &R, store: &Store<N>, lane: &mut Lane<N>, tally: &mut Tally)
    ensures ring { lane.new.lane.ring ≡ lane.old.lane.ring }
{
    if let Some(entry) = next(rt, store, lane, 6) {
        tally.add(entry);
    }
}

// Applies what comes through both rings.
fn apply_both<N: Name, R: Wait>(
    rt: &R,
    store: &Store<N>,
    first: Lane<N>,
    second: Lane<N>,
) -> (Lane<N>, Lane<N>, Tally)
    ensures first { result.0.lane.ring ≡ first.lane.ring }
    ensures second { result.1.lane.ring ≡ second.lane.ring }
{
    let mut lane = first;
    let mut other = second;
    let mut tally = Tally::new();
    for _ in 0..100 {
        apply_next(rt, store, &mut lane, &mut tally);
        apply_next(rt, store, &mut other, &mut tally);
    }
    (lane, other, tally)
}

// Applies the next bump that is left in a closed ring, if there is one, and counts what it did.
fn apply_left<N: Name, R: Abort + Wait>(
    rt: &R,
    store: &Store<N>,
    closed: &mut ClosedPair<N>,
    tally: &mut Tally,
) {
    if let Some(entry) = closed.apply_left(rt, store, 7) {
        tally.add(entry);
    }
}

// Closes the worker, applies what is left in its ring one by one, and settles it. It answers how many were accepted.
fn close_pair<N: Name, R: Abort + Wait>(
    rt: &R,
    store: &Store<N>,
    pair: Pair<N>,
    tally: &mut Tally,
) -> u64 {
    let mut closed = pair.close(rt);
    apply_left(rt, store, &mut closed, tally);
    apply_left(rt, store, &mut closed, tally);
    closed.expect_next_of(rt, store, 7, None);
    closed.settle(rt, store, 7).applied
}

// Closes both, and counts all that was applied: the item moved once, and each accepted bump was applied.
fn close_both<N: Name, R: Abort + Wait>(
    rt: &R,
    store: &Store<N>,
    first: Pair<N>,
    second: Pair<N>,
    told: Tally,
) {
    let mut tally = told;
    let accepted = close_pair(rt, store, first, &mut tally);
    let accepted = accepted.saturating_add(close_pair(rt, store, second, &mut tally));
    expect(rt, "moved and gone", &(tally.moved, tally.gone), &(1, 0));
    assert!(rt; tally.time_only <= 1);
    let applied = u64::from(tally.time_only).saturating_add(1);
    expect(rt, "accepted bumps", &accepted, &applied);
}

// Both workers hit the item, each in a thread of its own.
fn hit_both<N: Name + Send + Sync, R: Threads + Abort + Sync>(
    rt: &R,
    store: &Store<N>,
    worker: Worker<N>,
    other: Worker<N>,
    item: ItemId,
) -> (Worker<N>, Worker<N>)
    ensures first { result.0.sender.ring ≡ worker.sender.ring }
    ensures second { result.1.sender.ring ≡ other.sender.ring }
{
    thread::join(
        rt,
        move || hit_twice(rt, store, worker, item),
        move || hit_twice(rt, store, other, item),
    )
}

// Both workers hit the item while a third thread has both lanes. Then both are closed.
fn share<N: Name + Send + Sync, R: Threads + Abort + Wait + Sync>(
    rt: &R,
    store: &Store<N>,
    first: Pair<N>,
    second: Pair<N>,
) {
    let item = new_cold(rt, store, 0);
    let Pair { worker, lane } = first;
    let Pair {
        worker: other,
        lane: other_lane,
    } = second;
    let ((worker, other), (lane, other_lane, told)) = thread::join(
        rt,
        move || hit_both(rt, store, worker, other, item),
        move || apply_both(rt, store, lane, other_lane),
    );
    let first = Pair { worker, lane };
    let second = Pair {
        worker: other,
        lane: other_lane,
    };
    close_both(rt, store, first, second, told);
}

/// Two workers share an item, which is in COLD.
pub fn share_item<N: Name + Send + Sync, R: Threads + Abort + Wait + Sync>(
    rt: &R,
    store: &Store<N>,
    workers: Vec<Worker<N>>,
    maintainer: Maintainer<N>,
)
    requires { worker_rings workers.items ≡ lane_rings maintainer }
{
    let (first, second) = two_pairs(workers, maintainer.into_lanes()).expect(rt, "there are two");
    share(rt, store, first, second);
}

#[test]
fn two_workers_and_a_lane_share_an_item(rt: HostRuntime) -> Result<(), Fail> {
    Ok(tell(&rt, rt.alloc(), 4, &[class(1, 0, 5)], Story::ItemShared)?)
}

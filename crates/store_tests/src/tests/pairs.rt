//! A worker and the lane of its ring, in one value whose type says so.
ghost use Rattle.std.specs.Prelude.{◌≡◌, IsSome};
ghost use Rattle.std.specs.Vec.Iter.{into_iter_items};
ghost use Rattle.bump_store.specs.Workers.{worker_rings};
ghost use Rattle.bump_store.specs.Lanes.{lane_rings};

use super::calls::hit_twice;
use super::expecting::expect;
use bump_store::{ClosedWorker, Entry, ItemId, Lane, Name, Settled, Store, Touch, Unseen, Worker};
use std::alloc::Global;
use std::process::Abort;
use std::sync::Wait;
use std::vec::IntoIter;

/// A worker and the lane of its ring.
#[derive(Drop)]
pub struct Pair<N: Name> {
    pub worker: Worker<N>,
    pub lane: Lane<N>,
    pub ghost ring: { worker.sender.ring ≡ lane.lane.ring },
}

// The next of the workers, with its lane.
fn next_pair<N: Name>(
    workers: &mut IntoIter<Worker<N>, Global>,
    lanes: &mut IntoIter<Lane<N>, Global>,
) -> Option<Pair<N>>
    requires { worker_rings (into_iter_items workers.old) ≡ lane_rings (into_iter_items lanes.old) }
    ensures { IsSome result → worker_rings (into_iter_items workers.new) ≡ lane_rings (into_iter_items lanes.new) }
{
    let worker = workers.next()?;
    let lane = lanes.next()?;
    Some(Pair { worker, lane })
}

/// The first two of the workers, each with its lane.
pub fn two_pairs<N: Name>(
    workers: Vec<Worker<N>>,
    lanes: Vec<Lane<N>>,
) -> Option<(Pair<N>, Pair<N>)>
    requires { worker_rings workers.items ≡ lane_rings lanes.items }
{
    let mut workers = workers.into_iter();
    let mut lanes = lanes.into_iter();
    let first = next_pair(&mut workers, &mut lanes)?;
    let second = next_pair(&mut workers, &mut lanes)?;
    Some((first, second))
}

/// A closed worker and the lane of its ring.
#[derive(Drop)]
pub struct ClosedPair<N: Name> {
    closed: ClosedWorker<N>,
    lane: Lane<N>,
    ghost ring: { closed.sender.ring ≡ lane.lane.ring },
}

impl<N: Name> ClosedPair<N> {
    // What the lane applies next of what is left in the closed ring, if there is something left.
    fn next_of<R: Wait>(
        &mut self,
        rt: &R,
        store: &Store<N>,
        now: u64,
    ) -> Result<Option<Entry>, Unseen> {
        self.lane.next_of(rt, store, &mut self.closed, now)
    }

    /// The lane applies this next of what is left in the closed ring, or nothing is left.
    pub fn expect_next_of<R: Abort + Wait>(
        &mut self,
        rt: &R,
        store: &Store<N>,
        now: u64,
        wanted: Option<Entry>,
    ) {
        let told = self.next_of(rt, store, now);
        expect(rt, "the next bump", &told, &Ok(wanted));
    }

    /// What the lane applies next of what is left, if there is something left.
    pub fn apply_left<R: Abort + Wait>(
        &mut self,
        rt: &R,
        store: &Store<N>,
        now: u64,
    ) -> Option<Entry> {
        self.next_of(rt, store, now).expect(rt, "the end is seen")
    }

    /// Settles the closed worker. The lane has then applied what was accepted.
    pub fn settle<R: Abort + Wait>(self, rt: &R, store: &Store<N>, now: u64) -> Settled {
        let ClosedPair { closed, mut lane } = self;
        let settled = lane.settle(rt, store, closed, now).ok();
        let settled = settled.expect(rt, "the end is seen");
        expect(
            rt,
            "applied bumps",
            &lane.applied(),
            &settled.counts.accepted,
        );
        settled
    }

    /// The lane, once the closed worker is settled.
    pub fn settle_lane<R: Abort + Wait>(self, rt: &R, store: &Store<N>, now: u64) -> Lane<N> {
        let ClosedPair { closed, mut lane } = self;
        let settled = lane.settle(rt, store, closed, now).ok();
        assert!(rt; settled.is_some(), "the end is seen");
        lane
    }
}

impl<N: Name> Pair<N> {
    /// Closes the worker. The counts stay.
    pub fn close(self, rt: &impl Abort) -> ClosedPair<N> {
        let Pair { worker, lane } = self;
        let counts = worker.counts();
        let closed = worker.close();
        expect(rt, "the counts", &closed.counts(), &counts);
        ClosedPair { closed, lane }
    }

    /// Two hits of a new item with the label 7, in COLD: the second one queues the bump with this number.
    pub fn hit_twice<R: Abort>(&mut self, rt: &R, store: &Store<N>, item: ItemId, number: u64) {
        hit_twice(rt, store, &mut self.worker, item, Touch::Queued(number));
    }
}

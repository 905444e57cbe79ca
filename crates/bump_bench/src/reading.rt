//! A worker's calls: what a thread does before those that are timed, and with them.
use crate::hits::{gets, timed_pass, touch_all};
use crate::meeting::meet;
use crate::reads::Reads;
use crate::tallies::Spent;
use bump_store::{ItemId, Lane, Name, Store, Tail, Worker};
use std::rt::Clock;
use std::sync::Wait;
use std::sync::atomic::AtomicU64;
use std::time::Instant;

// Fills the ring and drains it, so that its memory was in use before. The items go to WARM by that, and as many are
// pulled back to COLD. None where the store has no class.
fn warm_ring<N: Name, R: Wait>(
    rt: &R,
    store: &Store<N>,
    worker: &mut Worker<N>,
    lane: &mut Lane<N>,
    items: &[ItemId],
) -> Option<()> {
    touch_all(store, worker, items, 2);
    let _drained = lane.drain(rt, store, 5);
    let mut guard = store.lock(rt, 0).ok()?;
    for _item in items {
        guard.pull(Tail::Warm);
    }
    drop(guard);
    // Other threads pulled some of them.
    gets(store, worker, items, 1);
    Some(())
}

/// Hits the items as often as is wanted before, and once all threads have come, times the pass through them. None where
/// the clock is refused.
pub fn read<N: Name, R: Clock + Wait>(
    rt: &R,
    store: &Store<N>,
    worker: &mut Worker<N>,
    lane: &mut Lane<N>,
    items: &[ItemId],
    reads: Reads,
    arrived: &AtomicU64,
) -> Option<Spent> {
    touch_all(store, worker, items, reads.touches);
    if reads.warm {
        warm_ring(rt, store, worker, lane, items)?;
    }
    meet(arrived, reads.threads);
    let start = Instant::now(rt).ok()?;
    let tally = timed_pass(store, worker, items, reads.rounds, reads.wanted);
    let mut spent = Spent::since(rt, start, tally)?;
    spent.add_label(worker.counts().accepted);
    Some(spent)
}

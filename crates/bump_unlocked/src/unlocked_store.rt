//! A store without locks, for callers whose locks are their own.
ghost use Rattle.std.specs.Prelude.{◌≡◌, ◌≤◌, ◌+◌, ◌-◌, ◌++◌, ◌↔◌, length, All, IfOk, IfSome, IfNone, IsNone, false};
ghost use Rattle.std.specs.Arc.{arc_value};
ghost use Rattle.bump_rules.specs.Rings.{aboard};
ghost use Rattle.bump_class.specs.Lanes.{entries};
ghost use Rattle.bump_steps.specs.Rule.{class_sheets, worker_sheets, lane_sheets};
ghost use Rattle.bump_unlocked.specs.Workers.{worker_rings, worker_sheets_of};
ghost use Rattle.bump_unlocked.specs.UnlockedStore.{raw_rings, raw_sheets_of, new_books, starts_from};
ghost use Rattle.bump_unlocked.specs.Closing.{AppliedAll};

use crate::closing::ClosedWorker;
use crate::making::{make_books, make_rings};
use crate::workers::Worker;
use bump_class::{Book, RawLane};
use bump_heads::{Blank, HeadParts, Heads, Name};
use bump_rules::Config;
use bump_steps::{AnyRow, RowLaw};
use std::alloc::{AllocError, Global};
use std::sync::Arc;

/// What a store is made of, without its locks: who has them takes care that one thread at a time has a Book, a worker
/// or a lane.
#[derive(Drop)]
pub struct UnlockedStore<N: Name, L: RowLaw = AnyRow> {
    /// The words of all chunks, which all threads share.
    pub heads: Arc<Heads<N, L>, Global>,

    /// The Books of its classes, by number.
    pub books: Vec<Book<N, L>>,

    /// The first chunk of each class, and behind them the number of all chunks.
    pub starts: Vec<u32>,

    /// Its workers, by number.
    pub workers: Vec<Worker<N>>,

    /// The lanes of their rings, by number.
    pub lanes: Vec<RawLane<N, L>>,
}

impl<N: Name, L: RowLaw> UnlockedStore<N, L> {
    /// Opens a store over a blank, as `Store::new` does, without locks: the Book of each class, in which all chunks are in
    /// UNUSED, a worker and a lane for each ring, by number. No worker has made a step, no ring has accepted a bump,
    /// and no lane has applied one. It is refused only for want of memory, and the blank is gone then.
    pub fn open(
        alloc: Global,
        blank: Blank<L>,
        config: &Config,
    ) -> Result<UnlockedStore<N, L>, AllocError>
        requires name { blank.table ≡ N.table }
        requires config { blank.config ≡ config.now }
        ensures heads { IfOk result (λ p. arc_value p.heads ≡ config.now) }
        ensures books { IfOk result (λ p. p.books.items ≡ new_books
            (class_sheets (config.now.first_generation - 1) 0 0 config.now.classes) config.now.classes
            config.now.workers) }
        ensures starts { IfOk result (λ p. p.starts.items ≡ starts_from 0 config.now.classes) }
        ensures count { IfOk result (λ p. (length p.workers.items ≡ config.now.workers)
            × (length p.lanes.items ≡ config.now.workers)) }
        ensures rings { IfOk result (λ p. worker_rings p.workers.items ≡ raw_rings p.lanes.items) }
        ensures workers { IfOk result (λ p. worker_sheets_of p.workers.items ≡ worker_sheets 0 config.now.workers) }
        ensures lanes { IfOk result (λ p. raw_sheets_of p.lanes.items ≡ lane_sheets 0 config.now.workers) }
        ensures capacity { IfOk result (λ p. All (λ w. w.sender.capacity ≡ config.now.capacity) p.workers.items) }
    {
        let HeadParts {
            heads,
            classes,
            workers,
            lanes,
        } = Heads::<N, L>::new(alloc, blank, config)?;
        let (books, starts) = make_books(
            alloc,
            classes,
            config.classes.as_slice(),
            config.first_generation,
            config.workers,
        )?;
        let (workers, lanes) = make_rings(alloc, workers, lanes, config.workers, config.capacity)?;
        Ok(UnlockedStore {
            heads,
            books,
            starts,
            workers,
            lanes,
        })
    }
}

impl<N: Name> ClosedWorker<N> {
    /// How many bumps that its ring accepted are still to be applied by this lane, which is the ring's: all of them are
    /// known from then on, or aboard, and no other will come: at most as many as the ring's capacity, and one more where
    /// a bump is aboard. It may be asked again. It answers None exactly where the ring can't show its end, and nothing is
    /// changed then.
    ///
    /// Where none is left, the lane has applied all that the ring accepted, once each and in order.
    pub fn rest<L: RowLaw>(&mut self, lane: &mut RawLane<N, L>) -> Option<u64>
        requires ring { self.old.sender.ring ≡ lane.old.ring }
        ensures closed { self.new ≡ self.old }
        ensures lane { lane.new ≡ record lane.old { known = lane.new.known } }
        ensures rest { IfSome result (λ left. self.old.sender.sent ≡ lane.new.received ++ lane.new.known) }
        ensures number { IfSome result (λ left. length (entries lane.new) + left ≡ length self.old.sender.sent) }
        ensures few { IfSome result (λ left. left ≤ self.old.sender.capacity + length (aboard lane.new.sheet.stage)) }
        ensures all { IfSome result (λ left. left ≡ 0 → AppliedAll self.old.sender.sent lane.new) }
        ensures none { IsNone result ↔ (self.old.sender.shows_end ≡ false) }
        ensures unchanged { IfNone result (lane.new ≡ lane.old) }
    {
        lane.promise();
        let _known = lane.rest(&mut self.sender)?;
        Some(self.counts.accepted - lane.applied())
    }
}

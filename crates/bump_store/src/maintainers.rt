//! The maintainer, which has the lanes of all workers.
ghost use Rattle.std.specs.Prelude.{◌≡◌, ◌<◌, ◌≤◌, ◌+◌, List as TheList, Some, length, slice_get, All};
ghost use Rattle.bump_rules.specs.Configs.{most_workers};
ghost use Rattle.bump_rules.specs.Entries.{moves_of};
ghost use Rattle.bump_heads.specs.Applying.{NamesNoBumpTwice, NamesWorkersBelow};
ghost use Rattle.bump_class.specs.Applications.{EachMoveIsTold, moved_in};
ghost use Rattle.bump_class.specs.Changes.{book_after_meets};
ghost use Rattle.bump_class.specs.Lanes.{entries};
ghost use Rattle.bump_store.specs.Lanes.{LaneState as TheLaneState};
ghost use Rattle.bump_store.specs.Meetings.{AreAllLanes, EachIsTold};
ghost use Rattle.bump_store.specs.Passes.{all_applied, AllDrained};

use crate::lanes::Lane;
use crate::stores::Store;
use bump_class::Book;
use bump_heads::Name;
use bump_steps::{AnyRow, RowLaw};
use std::marker::Model;
use std::sync::Wait;

/// The lanes of all workers, by number, which one thread has at a time (memcached's `lru_maintainer_thread`).
#[derive(Drop)]
pub struct Maintainer<N: Name, L: RowLaw = AnyRow> {
    pub(crate) lanes: Vec<Lane<N, L>>,
}

impl<N: Name, L: RowLaw> Model for Maintainer<N, L> {
    ghost Value = { TheList TheLaneState };

    ghost view = { λ m. m.lanes.items };

    // as many as a store has workers at most
    ghost invariant = { λ m. length m.lanes.items ≤ most_workers };
}

impl<N: Name, L: RowLaw> Maintainer<N, L> {
    ghost use Rattle.std.specs.Borrow.{sem};
    ghost use Rattle.bump_store.specs.Loans.{LendsLane};

    /// The lane of a worker's ring. The worker's number is in range. Once the loan ends that lane is what the loan
    /// left, and all others are as they were.
    pub fn lane(&mut self, worker: u32) -> &mut Lane<N, L>
        requires { worker < length self.old }
        ensures* lends { sem 𝓛 (LendsLane N.row L.row N.Name L.RowLaw self.entry worker result) }
        ensures lane { slice_get self.old worker ≡ Some result.now }
    {
        &mut self.lanes[worker as usize]
    }

    /// Drains each lane once, ascending (a turn of memcached's `lru_maintainer_bumps`, which goes through all bump
    /// buffers), and answers how many bumps were applied: by so many entries all lanes grew together. `now` is the
    /// time of the applications, in the caller's ticks.
    pub fn pass<R: Wait>(&mut self, rt: &R, store: &Store<N, L>, now: u64) -> u64
        ensures lanes { AllDrained now self.old self.new }
        ensures count { all_applied self.new ≡ all_applied self.old + result }
    {
        let mut count = 0;
        for worker in 0..self.lanes.len() {
            count += self.lanes[worker].drain(rt, store, now);
        }
        count
    }

    /// Shows all lanes and the Book of a class each other, by one load for each lane and one more, which the class
    /// notes. It answers nothing, and changes nothing else: from then on it is known that the class's history names no
    /// bump twice; that each move for a bump that it has is of one of the store's workers; that for each of these lanes
    /// each move for its worker's bumps is its entry of that bump's number, with the same life and the outcome Moved,
    /// and there are as many; and so, where the lanes are those of all workers, that each move for a bump that the
    /// history has is such an entry of one of them.
    pub fn meet(&mut self, store: &Store<N, L>, book: &mut Book<N, L>)
        ensures lanes { self.new ≡ self.old }
        ensures book { book.new ≡ book_after_meets (length self.old + 1) book.old }
        ensures once { NamesNoBumpTwice book.old.sheet }
        ensures workers { NamesWorkersBelow store.now.workers book.old.sheet }
        ensures told { All (λ l. EachMoveIsTold book.old.sheet l.lane.sheet) self.old }
        ensures moves { All (λ l. moves_of l.lane.sheet.worker book.old.sheet.history
            ≡ moved_in book.old.sheet (entries l.lane)) self.old }
        ensures all_told { AreAllLanes store.now.workers self.old → EachIsTold book.old.sheet self.old }
    {
        let count = self.lanes.len();
        for worker in 0..count {
            self.lanes[worker].meet(book);
        }
        book.meet_workers(store);
    }

    /// The lanes, by number.
    pub fn into_lanes(self) -> Vec<Lane<N, L>>
        ensures { result.items ≡ self }
    {
        let Maintainer { lanes } = self;
        lanes
    }
}

//! The lanes of a store, each of which applies the bumps of one worker's ring.
ghost use Rattle.std.specs.Prelude.{◌≡◌, ◌+◌, ◌≤◌, ◌<◌, ◌++◌, ◌∷◌, [], None, Some, IfSome, IfNone, length, true};
ghost use mathlib.Core.List.{IsPrefix};
ghost use Rattle.bump_steps.specs.Views.{owns};
ghost use Rattle.bump_class.specs.Lanes.{carries, entries, IsRawLane};
ghost use Rattle.bump_store.specs.Lanes.{LaneState as TheLaneState, applied_bump_of, NothingAboard, AppliesAboard, AppliesNext};
ghost use Rattle.bump_store.specs.Lanes.{AppliesMany};

use crate::stores::Store;
use bump_class::{Book, RawLane};
use bump_heads::Name;
use bump_rules::{Bump, Entry};
use bump_steps::{AnyRow, RowLaw};
use std::marker::Model;
use std::sync::Wait;

/// The lane of a worker's ring: it applies the bumps that the worker queued, in order. One thread has it at a time.
/// Between two calls no bump is aboard.
#[derive(Drop)]
pub struct Lane<N: Name, L: RowLaw = AnyRow> {
    pub(crate) raw: RawLane<N, L>,
    // A drain applies at most so many bumps.
    pub(crate) capacity: u32,
}

impl<N: Name, L: RowLaw> Model for Lane<N, L> {
    ghost Value = { TheLaneState };

    ghost view = { λ l. record { lane = l.raw; capacity = l.capacity } };

    ghost invariant = { λ l. carries l.raw ≡ None };
}

// Applies the bump aboard a lane, which is this one, to a Book of its chunk's class, and tells it.
#[inline(always)]
fn apply_aboard<N: Name, L: RowLaw>(
    book: &mut Book<N, L>,
    raw: &mut RawLane<N, L>,
    bump: Bump,
    now: u64,
) -> Entry
    requires aboard { carries raw.old ≡ Some bump }
    requires own { owns bump.life.chunk book.old.sheet ≡ true }
    ensures applied { AppliesAboard now book.old raw.old result book.new raw.new }
    ensures bump { (result.number ≡ bump.number) × (result.life ≡ bump.life) }
    ensures ring { raw.new.ring ≡ raw.old.ring }
    ensures idle { NothingAboard raw.new }
{
    let applied = book.apply_front(raw, now);
    Entry {
        number: bump.number,
        life: bump.life,
        applied,
    }
}

impl<N: Name, L: RowLaw> Lane<N, L> {
    /// How many bumps it applied. They are those that it took out of its ring, in order, with the numbers 0, 1, 2 and
    /// so on. None is aboard.
    pub fn applied(&self) -> u64
        ensures count { result ≡ length (entries self.now.lane) }
        ensures order { IsRawLane self.now.lane.sheet self.now.lane.received }
        ensures idle { NothingAboard self.now.lane }
    {
        self.raw.promise();
        self.raw.applied()
    }

    /// The number of its worker.
    pub fn worker(&self) -> u32
        ensures { result ≡ self.now.lane.sheet.worker }
    {
        self.raw.worker()
    }

    /// Applies the next bump of its ring under the lock of its class, and gives its reference back: it waits until no
    /// other thread has the lock. `now` is the time of the application, in the caller's ticks. It answers what was
    /// done, which is the lane's last entry from then on. It answers None, and nothing is changed, only where no bump
    /// is known to be left in the ring. Nothing is aboard then, nor before.
    ///
    /// The clauses speak of some Book that has the bump's chunk: another thread may have the lock just before, and just
    /// behind. So no clause fixes the time that is stored, nor whether a gone item's chunk came free, which the answer
    /// alone tells.
    pub fn next<R: Wait>(&mut self, rt: &R, store: &Store<N, L>, now: u64) -> Option<Entry>
        ensures ring { (self.new.lane.ring ≡ self.old.lane.ring) × (self.new.capacity ≡ self.old.capacity) }
        ensures next { IfSome result (λ entry. AppliesNext now self.old.lane entry self.new.lane) }
        ensures number { IfSome result (λ entry. entry.number ≡ length (entries self.old.lane)) }
        ensures entry { IfSome result (λ entry. entries self.new.lane ≡ entries self.old.lane ++ applied_bump_of entry ∷ []) }
        ensures none { IfNone result (self.old.lane.known ≡ []) }
        ensures unchanged { IfNone result (self.new ≡ self.old) }
        ensures was_idle { NothingAboard self.old.lane }
        ensures idle { NothingAboard self.new.lane }
    {
        self.raw.promise();
        let bump = self.raw.take()?;
        let mut guard = store.lock_of_chunk(rt, bump.life.chunk);
        let book = &mut *guard;
        Some(apply_aboard(book, &mut self.raw, bump, now))
    }

    /// Applies the next bumps of its ring, each as `next` does (memcached's `lru_maintainer_bumps`, of one worker's
    /// buffer), and answers how many: at most as many as the ring's capacity, and fewer only where then none is known
    /// to be left in the ring. A lock is taken once for all bumps of its class that follow each other. Nothing is
    /// aboard then, nor before. As those of `next`, the clauses speak of some Book of each bump's class.
    pub fn drain<R: Wait>(&mut self, rt: &R, store: &Store<N, L>, now: u64) -> u64
        ensures ring { (self.new.lane.ring ≡ self.old.lane.ring) × (self.new.capacity ≡ self.old.capacity) }
        ensures most { result ≤ self.old.capacity }
        ensures few { result < 4294967296 }
        ensures count { length (entries self.new.lane) ≡ length (entries self.old.lane) + result }
        ensures grown { IsPrefix (entries self.old.lane) (entries self.new.lane) }
        ensures drained { AppliesMany now self.old.lane result self.new.lane }
        ensures none { result < self.old.capacity → self.new.lane.known ≡ [] }
        ensures idle { NothingAboard self.new.lane }
    {
        let capacity = self.capacity;
        let mut done = 0;
        while done < capacity {
            let Some(bump) = self.raw.fetch() else {
                return u64::from(done);
            };
            let mut book = store.lock_of_chunk(rt, bump.life.chunk);
            done += book.apply_run(&mut self.raw, now, capacity - done);
        }
        u64::from(done)
    }
}

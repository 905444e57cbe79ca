//! A store with its lanes, as a caller calls them.
ghost use Rattle.bump_class.specs.Lanes.{entries, LaneView as TheLaneView};
ghost use Rattle.bump_unlocked.specs.Closing.{AppliedAll};
ghost use Rattle.bump_store.specs.Lanes.{applied_bump_of, NothingAboard, AppliesNext, AppliesMany};
ghost use Rattle.bump_store.specs.Settling.{MaySeeEnd, Settles};
ghost use Rattle.bump_store.specs.Stores.{IsOfClass};
ghost use Rattle.std.specs.Prelude.{◌≡◌, ◌++◌, ◌∷◌, [], IfSome, IfNone, length, ◌+◌, ◌≤◌, ◌<◌, ◌↔◌, None, Ok, IfOk};
ghost use Rattle.std.specs.Prelude.{IfErr, false, IsErr};
ghost use Rattle.std.specs.Sync.Mutex.{mutex_guard_value};
ghost use mathlib.Core.List.{IsPrefix};

use bump_store::{
    Book, ClosedWorker, Entry, Lane, Name, NoSuchClass, RowLaw, Settled, Store, Unseen, Unsettled,
};
use std::alloc::Global;
use std::sync::{MutexGuard, Wait};

/// Applies the next bump of a ring.
pub fn next<N: Name, L: RowLaw, R: Wait>(
    lane: &mut Lane<N, L>,
    rt: &R,
    store: &Store<N, L>,
    now: u64,
) -> Option<Entry>
    ensures ring { (lane.new.lane.ring ≡ lane.old.lane.ring) × (lane.new.capacity ≡ lane.old.capacity) }
    ensures next { IfSome result (λ entry. AppliesNext now lane.old.lane entry lane.new.lane) }
    ensures number { IfSome result (λ entry. entry.number ≡ length (entries lane.old.lane)) }
    ensures entry { IfSome result (λ entry. entries lane.new.lane ≡ entries lane.old.lane ++ applied_bump_of entry ∷ []) }
    ensures none { IfNone result (lane.old.lane.known ≡ []) }
    ensures unchanged { IfNone result (lane.new ≡ lane.old) }
    ensures was_idle { NothingAboard lane.old.lane }
    ensures idle { NothingAboard lane.new.lane }
{
    lane.next(rt, store, now)
}

/// Applies the next bumps of a ring.
pub fn drain<N: Name, L: RowLaw, R: Wait>(
    lane: &mut Lane<N, L>,
    rt: &R,
    store: &Store<N, L>,
    now: u64,
) -> u64
    ensures ring { (lane.new.lane.ring ≡ lane.old.lane.ring) × (lane.new.capacity ≡ lane.old.capacity) }
    ensures most { result ≤ lane.old.capacity }
    ensures few { result < 4294967296 }
    ensures count { length (entries lane.new.lane) ≡ length (entries lane.old.lane) + result }
    ensures grown { IsPrefix (entries lane.old.lane) (entries lane.new.lane) }
    ensures drained { AppliesMany now lane.old.lane result lane.new.lane }
    ensures none { result < lane.old.capacity → lane.new.lane.known ≡ [] }
    ensures idle { NothingAboard lane.new.lane }
{
    lane.drain(rt, store, now)
}

/// Applies the next bump of a closed ring.
pub fn next_of<N: Name, L: RowLaw, R: Wait>(
    lane: &mut Lane<N, L>,
    rt: &R,
    store: &Store<N, L>,
    closed: &mut ClosedWorker<N>,
    now: u64,
) -> Result<Option<Entry>, Unseen>
    requires ring { closed.old.sender.ring ≡ lane.old.lane.ring }
    ensures ring { (lane.new.lane.ring ≡ lane.old.lane.ring) × (lane.new.capacity ≡ lane.old.capacity) }
    ensures closed { closed.new ≡ closed.old }
    ensures none { (result ≡ Ok None) ↔ (length (entries lane.old.lane) ≡ length closed.old.sender.sent) }
    ensures next { IfOk result (λ answered. IfSome answered (λ entry. (seen : TheLaneView)
        × MaySeeEnd closed.old.sender.sent closed.old.sender.capacity lane.old.lane seen
        × AppliesNext now seen entry lane.new.lane)) }
    ensures number { IfOk result (λ answered. IfSome answered (λ entry.
        entry.number ≡ length (entries lane.old.lane))) }
    ensures entry { IfOk result (λ answered. IfSome answered (λ entry.
        entries lane.new.lane ≡ entries lane.old.lane ++ applied_bump_of entry ∷ [])) }
    ensures all_unchanged { result ≡ Ok None → lane.new ≡ lane.old }
    ensures unknown { IfErr result (λ e. lane.old.lane.known ≡ []) }
    ensures unseen { IfErr result (λ e. closed.old.sender.shows_end ≡ false) }
    ensures unchanged { IfErr result (λ e. lane.new ≡ lane.old) }
{
    lane.next_of(rt, store, closed, now)
}

/// Applies all that is left in a closed ring.
pub fn settle<N: Name, L: RowLaw, R: Wait>(
    lane: &mut Lane<N, L>,
    rt: &R,
    store: &Store<N, L>,
    closed: ClosedWorker<N>,
    now: u64,
) -> Result<Settled, Unsettled<N>>
    requires ring { closed.sender.ring ≡ lane.old.lane.ring }
    ensures ring { (lane.new.lane.ring ≡ lane.old.lane.ring) × (lane.new.capacity ≡ lane.old.capacity) }
    ensures applies { Settles now lane.old.lane lane.new.lane }
    ensures grown { IsPrefix (entries lane.old.lane) (entries lane.new.lane) }
    ensures all { IfOk result (λ settled. AppliedAll closed.sender.sent lane.new.lane) }
    ensures received { IfOk result (λ settled. lane.new.lane.received ≡ closed.sender.sent) }
    ensures counts { IfOk result (λ settled. settled.counts ≡ closed.sheet.accounts) }
    ensures applied { IfOk result (λ settled. settled.applied ≡ length (entries lane.new.lane)) }
    ensures accepted { IfOk result (λ settled. settled.applied ≡ settled.counts.accepted) }
    ensures attempted { IfOk result (λ settled. settled.counts.attempted ≡ settled.counts.accepted
        + settled.counts.full + settled.counts.busy + settled.counts.refs) }
    ensures closed { IfErr result (λ unsettled. unsettled.closed ≡ closed) }
    ensures unknown { IfErr result (λ unsettled. lane.new.lane.known ≡ []) }
    ensures unseen { IfErr result (λ unsettled. closed.sender.shows_end ≡ false) }
{
    lane.settle(rt, store, closed, now)
}

/// A class's Book, under its lock.
pub fn lock<'a, N: Name, L: RowLaw, R: Wait>(
    store: &'a Store<N, L>,
    rt: &R,
    class: u32,
) -> Result<MutexGuard<'a, Book<N, L>>, NoSuchClass>
    ensures class { IfOk result (λ guard. IsOfClass class store.now.classes (mutex_guard_value guard)) }
    ensures workers { IfOk result (λ guard. (mutex_guard_value guard).workers ≡ store.now.workers) }
    ensures none { IsErr result ↔ (length store.now.classes ≤ class) }
{
    store.lock(rt, class)
}

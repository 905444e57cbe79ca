//! Lanes of closed workers: what is left in a closed ring is applied.
ghost use Rattle.std.specs.Prelude.{◌≡◌, ◌+◌, ◌++◌, ◌∷◌, ◌↔◌, [], length, None, Ok, IfOk, IfErr, IfSome, IfNone, false};
ghost use Rattle.std.specs.Prelude.{true};
ghost use mathlib.Core.List.{IsPrefix};
ghost use Rattle.bump_rules.specs.declared.lanes.LaneStage.TheVariants.{Empty as IsEmpty};
ghost use Rattle.bump_class.specs.Lanes.{LaneView as TheLaneView, entries};
ghost use Rattle.bump_store.specs.Lanes.{applied_bump_of, AppliesNext};
ghost use Rattle.bump_unlocked.specs.Closing.{AppliedAll};
ghost use Rattle.bump_store.specs.Settling.{MaySeeEnd, Settles};

use crate::lanes::Lane;
use crate::stores::Store;
use bump_heads::Name;
use bump_rules::{Accounts, Entry};
use bump_steps::RowLaw;
use bump_unlocked::ClosedWorker;
use std::sync::Wait;
use thiserror::Error;

/// What came of a worker's bumps, once its lane has applied all that its ring accepted.
#[derive(Debug, PartialEq, Eq, Clone, Copy)]
pub struct Settled {
    /// The closed worker's counts.
    pub counts: Accounts,

    /// How many bumps the lane ever applied: as many as the ring accepted.
    pub applied: u64,
}

/// Why `next_of` tells nothing: the ring couldn't show its end.
#[derive(Error, Debug, PartialEq, Eq, Clone, Copy)]
#[error("the ring could not show its end")]
pub struct Unseen;

/// Why `settle` ended early: the ring couldn't show its end. The closed worker comes back.
#[derive(Drop)]
pub struct Unsettled<N: Name> {
    /// The closed worker, as it was.
    pub closed: ClosedWorker<N>,
}

impl<N: Name, L: RowLaw> Lane<N, L> {
    // How many bumps are left in its closed ring: all of them are known from then on. None where the ring can't show
    // its end.
    fn rest(&mut self, closed: &mut ClosedWorker<N>) -> Option<u64>
        requires ring { closed.old.sender.ring ≡ self.old.lane.ring }
        ensures closed { closed.new ≡ closed.old }
        ensures ring { (self.new.lane.ring ≡ self.old.lane.ring) × (self.new.capacity ≡ self.old.capacity) }
        ensures entries { entries self.new.lane ≡ entries self.old.lane }
        ensures order { AppliedAll self.new.lane.received self.new.lane }
        ensures empty { self.new.lane.sheet.stage ≡ IsEmpty }
        ensures seen { MaySeeEnd closed.old.sender.sent closed.old.sender.capacity self.old.lane self.new.lane }
        ensures rest { IfSome result (λ left.
            closed.old.sender.sent ≡ self.new.lane.received ++ self.new.lane.known) }
        ensures number { IfSome result (λ left. left ≡ length self.new.lane.known) }
        ensures all { IfSome result (λ left. left ≡ 0 → AppliedAll closed.old.sender.sent self.new.lane) }
        ensures none { IfNone result (closed.old.sender.shows_end ≡ false) }
        ensures unchanged { IfNone result (self.new ≡ self.old) }
    {
        self.raw.promise();
        closed.rest(&mut self.raw)
    }

    // Whether it applied as many bumps as its closed ring accepted.
    fn applied_as_many(&self, closed: &ClosedWorker<N>) -> bool
        ensures { (result ≡ true) ↔ (length (entries self.now.lane) ≡ length closed.now.sender.sent) }
    {
        self.applied() == closed.counts().accepted
    }

    // What is told of a lane that applied all.
    fn settled(&self, closed: &ClosedWorker<N>) -> Settled
        requires all { AppliedAll closed.now.sender.sent self.now.lane }
        ensures counts { result.counts ≡ closed.now.sheet.accounts }
        ensures applied { result.applied ≡ length (entries self.now.lane) }
        ensures accepted { result.applied ≡ result.counts.accepted }
        ensures attempted { result.counts.attempted ≡ result.counts.accepted + result.counts.full + result.counts.busy
            + result.counts.refs }
    {
        Settled {
            counts: closed.counts(),
            applied: self.applied(),
        }
    }

    /// Applies the next bump of its ring, as `next` does, by the closed worker of this ring: it waits until no other
    /// thread has the lock of the bump's class. `now` is the time of the application, in the caller's ticks.
    ///
    /// It answers Ok(None), and nothing is changed, exactly where the lane has applied as many bumps as the ring
    /// accepted. Else it answers the entry of the bump that it applied. It is refused as Unseen, and nothing is
    /// changed, only where no bump is known to be left and the ring can't show its end.
    pub fn next_of<R: Wait>(
        &mut self,
        rt: &R,
        store: &Store<N, L>,
        closed: &mut ClosedWorker<N>,
        now: u64,
    ) -> Result<Option<Entry>, Unseen>
        requires ring { closed.old.sender.ring ≡ self.old.lane.ring }
        ensures ring { (self.new.lane.ring ≡ self.old.lane.ring) × (self.new.capacity ≡ self.old.capacity) }
        ensures closed { closed.new ≡ closed.old }
        ensures none { (result ≡ Ok None) ↔ (length (entries self.old.lane) ≡ length closed.old.sender.sent) }
        ensures next { IfOk result (λ answered. IfSome answered (λ entry. (seen : TheLaneView)
            × MaySeeEnd closed.old.sender.sent closed.old.sender.capacity self.old.lane seen
            × AppliesNext now seen entry self.new.lane)) }
        ensures number { IfOk result (λ answered. IfSome answered (λ entry.
            entry.number ≡ length (entries self.old.lane))) }
        ensures entry { IfOk result (λ answered. IfSome answered (λ entry.
            entries self.new.lane ≡ entries self.old.lane ++ applied_bump_of entry ∷ [])) }
        ensures all_unchanged { result ≡ Ok None → self.new ≡ self.old }
        ensures unknown { IfErr result (λ e. self.old.lane.known ≡ []) }
        ensures unseen { IfErr result (λ e. closed.old.sender.shows_end ≡ false) }
        ensures unchanged { IfErr result (λ e. self.new ≡ self.old) }
    {
        if self.applied_as_many(closed) {
            return Ok(None);
        }
        if let Some(entry) = self.next(rt, store, now) {
            return Ok(Some(entry));
        }
        let Some(_) = self.rest(closed) else {
            return Err(Unseen);
        };
        match self.next(rt, store, now) {
            Some(entry) => Ok(Some(entry)),
            None => unreachable!(),
        }
    }

    /// Applies all bumps that are left in its ring, each as `next` does, by the closed worker of this ring: for each
    /// it waits until no other thread has the lock of its class. `now` is the time of the applications, in the
    /// caller's ticks. From then on what the lane applied is what the ring accepted, once each and in order.
    ///
    /// It is refused as Unsettled only where then no bump is known to be left and the ring can't show its end: what
    /// was applied stays applied, the closed worker comes back as it was, and the call may be made again.
    pub fn settle<R: Wait>(
        &mut self,
        rt: &R,
        store: &Store<N, L>,
        closed: ClosedWorker<N>,
        now: u64,
    ) -> Result<Settled, Unsettled<N>>
        requires ring { closed.sender.ring ≡ self.old.lane.ring }
        ensures ring { (self.new.lane.ring ≡ self.old.lane.ring) × (self.new.capacity ≡ self.old.capacity) }
        ensures applies { Settles now self.old.lane self.new.lane }
        ensures grown { IsPrefix (entries self.old.lane) (entries self.new.lane) }
        ensures all { IfOk result (λ settled. AppliedAll closed.sender.sent self.new.lane) }
        ensures received { IfOk result (λ settled. self.new.lane.received ≡ closed.sender.sent) }
        ensures counts { IfOk result (λ settled. settled.counts ≡ closed.sheet.accounts) }
        ensures applied { IfOk result (λ settled. settled.applied ≡ length (entries self.new.lane)) }
        ensures accepted { IfOk result (λ settled. settled.applied ≡ settled.counts.accepted) }
        ensures attempted { IfOk result (λ settled. settled.counts.attempted ≡ settled.counts.accepted
            + settled.counts.full + settled.counts.busy + settled.counts.refs) }
        ensures closed { IfErr result (λ unsettled. unsettled.closed ≡ closed) }
        ensures unknown { IfErr result (λ unsettled. self.new.lane.known ≡ []) }
        ensures unseen { IfErr result (λ unsettled. closed.sender.shows_end ≡ false) }
    {
        let mut left = closed;
        for _ in rt.forever() {
            if let Some(_entry) = self.next(rt, store, now) {
                continue;
            }
            match self.rest(&mut left) {
                Some(0) => return Ok(self.settled(&left)),
                Some(_) => {}
                None => return Err(Unsettled { closed: left }),
            }
        }
        unreachable!()
    }
}

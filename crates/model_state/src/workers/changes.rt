//! How workers are changed. What changes a hand or a lane counts anew.
ghost use Rattle.std.specs.Prelude.{◌≡◌, ◌<◌, ◌+◌, ◌≤◌, ◌^◌, [], ◌∷◌, ◌++◌, OnOk, OnErr, Some, false, length};
ghost use Rattle.std.specs.Prelude.{slice_set};
ghost use Rattle.bump_rules.specs.Lanes.{bump_of};
ghost use Rattle.model_state.specs.Events.{next_bump};
ghost use Rattle.bump_rules.specs.Lawful.{bit};
ghost use Rattle.model_state.specs.Workers.{worker_views, worker_view_at, HasRoomToApply};
ghost use Rattle.bump_rules.specs.declared.lanes.LaneStage.TheVariants as lane;

use crate::workers::Workers;
use bump_rules::{Accounts, AppliedBump, Bump, Hand, ItemId, LaneStage};
use std::alloc::AllocError;

// How many are under way, where one of them was under way or not, and now is or isn't.
fn recounted(count: u32, was: bool, is: bool) -> u32
    requires counted { bit was ≤ count }
    requires few { count + bit is < 2 ^ 32 + bit was }
    ensures { result + bit was ≡ count + bit is }
{
    count - was as u32 + is as u32
}

impl Workers {
    /// Writes how far a worker is with an attempt, and its counts.
    pub(crate) fn set_hand(&mut self, worker: u32, hand: Hand, accounts: Accounts)
        requires { worker < length self.old }
        ensures { worker_views self.new ≡
            slice_set (worker_views self.old) worker
            (record (worker_view_at self.old worker) { hand = hand; accounts = accounts }) }
    {
        let worker = &mut self.all[worker as usize];
        let was = worker.hand;
        worker.hand = hand;
        worker.accounts = accounts;
        self.not_idle = recounted(self.not_idle, !was.is_idle(), !hand.is_idle());
    }

    /// A worker's ring closes.
    pub(crate) fn close(&mut self, worker: u32)
        requires { worker < length self.old }
        ensures { worker_views self.new ≡
            slice_set (worker_views self.old) worker (record (worker_view_at self.old worker) { is_open = false }) }
    {
        let worker = &mut self.all[worker as usize];
        worker.is_open = false;
    }

    /// Writes how far a lane is.
    pub(crate) fn set_lane(&mut self, worker: u32, lane: LaneStage)
        requires { worker < length self.old }
        ensures { worker_views self.new ≡
            slice_set (worker_views self.old) worker (record (worker_view_at self.old worker) { lane = lane }) }
    {
        let worker = &mut self.all[worker as usize];
        let was = worker.lane;
        worker.lane = lane;
        self.applying = recounted(self.applying, was.is_applying(), lane.is_applying());
    }

    /// Names an item among those that a worker was the first to hit.
    pub(crate) fn push_first_hit(&mut self, worker: u32, life: ItemId) -> Result<(), AllocError>
        requires { worker < length self.old }
        ensures ok { OnOk result (worker_views self.new ≡
            slice_set (worker_views self.old) worker
            (record (worker_view_at self.old worker) {
              first_hits = (worker_view_at self.old worker).first_hits ++ life ∷ [];
            })) }
        ensures err { OnErr result (worker_views self.new ≡ worker_views self.old) }
    {
        let worker = &mut self.all[worker as usize];
        worker.first_hits.push(life)?;
        Ok(())
    }

    /// A worker's ring takes a bump, and its hand and its counts are written.
    pub(crate) fn queue(
        &mut self,
        worker: u32,
        life: ItemId,
        hand: Hand,
        accounts: Accounts,
    ) -> Result<(), AllocError>
        requires { worker < length self.old }
        ensures ok { OnOk result (worker_views self.new ≡
            slice_set (worker_views self.old) worker (record (worker_view_at self.old worker) {
              hand = hand;
              accounts = accounts;
              sent = (worker_view_at self.old worker).sent ++ life ∷ [];
            })) }
        ensures err { OnErr result (worker_views self.new ≡ worker_views self.old) }
    {
        let worker = &mut self.all[worker as usize];
        let was_not_idle = !worker.hand.is_idle();
        worker.sent.push(life)?;
        worker.hand = hand;
        worker.accounts = accounts;
        self.not_idle = recounted(self.not_idle, was_not_idle, !hand.is_idle());
        Ok(())
    }

    /// A lane takes the next bump from its ring, where one waits. Answers its number.
    pub(crate) fn take_next(&mut self, worker: u32, life: ItemId) -> u64
        requires worker { worker < length self.old }
        requires next { next_bump (worker_view_at self.old worker) ≡ Some life }
        ensures after { worker_views self.new ≡
            slice_set (worker_views self.old) worker (record (worker_view_at self.old worker) {
              received = (worker_view_at self.old worker).received ++ life ∷ [];
              lane = lane.Carrying (bump_of (length (worker_view_at self.old worker).received) life);
            }) }
        ensures number { result ≡ length (worker_view_at self.old worker).received }
    {
        let worker = &mut self.all[worker as usize];
        let was = worker.lane;
        let number = worker.received as u64;
        worker.received += 1;
        worker.lane = LaneStage::Carrying(Bump { number, life });
        self.applying = recounted(self.applying, was.is_applying(), false);
        number
    }

    /// A lane is done with its bump.
    pub(crate) fn push_applied(
        &mut self,
        worker: u32,
        applied: AppliedBump,
    ) -> Result<(), AllocError>
        requires { worker < length self.old }
        ensures ok { OnOk result (worker_views self.new ≡
            slice_set (worker_views self.old) worker (record (worker_view_at self.old worker) {
              lane = lane.Empty;
              applied = (worker_view_at self.old worker).applied ++ applied ∷ [];
            })) }
        ensures err { OnErr result (worker_views self.new ≡ worker_views self.old) }
    {
        let worker = &mut self.all[worker as usize];
        let was = worker.lane;
        worker.applied.push(applied)?;
        worker.lane = LaneStage::Empty;
        self.applying = recounted(self.applying, was.is_applying(), false);
        Ok(())
    }

    /// Makes room for one more applied bump.
    pub(crate) fn reserve_applied(&mut self, worker: u32) -> Result<(), AllocError>
        requires { worker < length self.old }
        ensures workers { worker_views self.new ≡ worker_views self.old }
        ensures room { OnOk result (HasRoomToApply self.new worker) }
    {
        let worker = &mut self.all[worker as usize];
        worker.applied.reserve(1)?;
        Ok(())
    }

    /// A lane is done with a bump that it took just now.
    pub(crate) fn finish_taken(&mut self, worker: u32, applied: AppliedBump)
        requires worker { worker < length self.old }
        requires room { HasRoomToApply self.old worker }
        requires next { next_bump (worker_view_at self.old worker) ≡ Some applied.life }
        ensures { worker_views self.new ≡
            slice_set (worker_views self.old) worker (record (worker_view_at self.old worker) {
              received = (worker_view_at self.old worker).received ++ applied.life ∷ [];
              lane = lane.Empty;
              applied = (worker_view_at self.old worker).applied ++ applied ∷ [];
            }) }
    {
        let worker = &mut self.all[worker as usize];
        let was = worker.lane;
        worker.received += 1;
        worker.lane = LaneStage::Empty;
        worker.applied.push_reserved(applied);
        self.applying = recounted(self.applying, was.is_applying(), false);
    }

    /// A lane is done with the bump aboard.
    pub(crate) fn finish_aboard(&mut self, worker: u32, applied: AppliedBump)
        requires worker { worker < length self.old }
        requires room { HasRoomToApply self.old worker }
        ensures { worker_views self.new ≡
            slice_set (worker_views self.old) worker (record (worker_view_at self.old worker) {
              lane = lane.Empty;
              applied = (worker_view_at self.old worker).applied ++ applied ∷ [];
            }) }
    {
        let worker = &mut self.all[worker as usize];
        let was = worker.lane;
        worker.lane = LaneStage::Empty;
        worker.applied.push_reserved(applied);
        self.applying = recounted(self.applying, was.is_applying(), false);
    }
}

//! How the state of a World is changed.
ghost use Rattle.std.specs.Prelude.{◌≡◌, ◌<◌, ◌+◌, ◌≤◌, ◌^◌, [], ◌∷◌, ◌++◌, OnOk, OnErr, length, Some};
ghost use Rattle.bump_rules.specs.Lists.{IsListed};
ghost use Rattle.bump_rules.specs.History.{subject, freed_change, AreListed};
ghost use Rattle.model_state.specs.State.{chunk_at, class_at, class_of, worker_at, with_chunk, with_head, with_worker};
ghost use Rattle.model_state.specs.State.{with_change, with_changes};
ghost use Rattle.model_state.specs.Events.{with_lane, next_bump, take_bump, push, close};
ghost use Rattle.model_state.specs.Sweeps.{sweep_of};
ghost use Rattle.model_state.specs.Views.{state_of};
ghost use Rattle.model_state.specs.Workers.{HasRoomToApply};
ghost use Rattle.model_state.specs.Worlds.{IsLawful};
ghost use Rattle.bump_rules.specs.Lanes.{applied_bump};
ghost use Rattle.bump_rules.specs.declared.hands.Hand.TheVariants as hand;
ghost use Rattle.bump_rules.specs.declared.lanes.LaneStage.TheVariants as lane;

use crate::chunks::Chunk;
use crate::world_state::WorldState;
use bump_rules::{Accounts, AppliedBump, Bump, Change, Hand, Head, ItemId, LaneStage, Outcome};
use std::alloc::AllocError;

impl WorldState {
    /// Writes a chunk. Its number is in range.
    pub fn set_chunk(&mut self, number: u32, chunk: Chunk)
        requires { number < length (state_of self.old).chunks }
        ensures { state_of self.new ≡ with_chunk (state_of self.old) number chunk }
    {
        self.chunks[number as usize] = chunk;
    }

    /// Writes a chunk's head. The chunk's number is in range.
    pub fn set_head(&mut self, chunk: u32, head: Head)
        requires { chunk < length (state_of self.old).chunks }
        ensures { state_of self.new ≡ with_head (state_of self.old) chunk head }
    {
        let old = self.chunk(chunk);
        self.set_chunk(chunk, Chunk { head, ..old });
    }

    /// Writes how far a worker is with an attempt, and its counts. The worker's number is in range.
    pub fn set_hand(&mut self, worker: u32, hand: Hand, accounts: Accounts)
        requires { worker < length (state_of self.old).workers }
        ensures { state_of self.new ≡
            with_worker (state_of self.old) worker
            (record (worker_at (state_of self.old) worker) { hand = hand; accounts = accounts }) }
    {
        self.workers.set_hand(worker, hand, accounts);
    }

    /// A worker's ring closes.
    pub(crate) fn close_ring(&mut self, worker: u32)
        requires { worker < length (state_of self.old).workers }
        ensures { state_of self.new ≡ close (state_of self.old) worker }
    {
        self.workers.close(worker);
    }

    /// Writes how far a lane is.
    pub(crate) fn set_lane(&mut self, worker: u32, lane: LaneStage)
        requires { worker < length (state_of self.old).workers }
        ensures { state_of self.new ≡ with_lane (state_of self.old) worker lane }
    {
        self.workers.set_lane(worker, lane);
    }

    /// Names an item among those that a worker was the first to hit. Want of memory is refused and changes nothing.
    pub fn push_first_hit(&mut self, worker: u32, life: ItemId) -> Result<(), AllocError>
        requires { worker < length (state_of self.old).workers }
        ensures ok { OnOk result (state_of self.new ≡
            with_worker (state_of self.old) worker
            (record (worker_at (state_of self.old) worker) {
              first_hits = (worker_at (state_of self.old) worker).first_hits ++ life ∷ [];
            })) }
        ensures err { OnErr result (state_of self.new ≡ state_of self.old) }
    {
        self.workers.push_first_hit(worker, life)
    }

    /// A worker's ring takes a bump.
    pub(crate) fn push_bump(&mut self, worker: u32, life: ItemId) -> Result<(), AllocError>
        requires worker { worker < length (state_of self.old).workers }
        requires fits { (worker_at (state_of self.old) worker).accounts.accepted + 1 < 2 ^ 64 }
        ensures ok { OnOk result (state_of self.new ≡ push (state_of self.old) worker life) }
        ensures err { OnErr result (state_of self.new ≡ state_of self.old) }
    {
        let accounts = self.accounts(worker);
        self.workers.queue(
            worker,
            life,
            Hand::Idle,
            Accounts {
                accepted: accounts.accepted + 1,
                ..accounts
            },
        )
    }

    /// A lane takes the next bump from its ring, where one waits. Answers its number.
    pub(crate) fn take_next(&mut self, worker: u32, life: ItemId) -> u64
        requires worker { worker < length (state_of self.old).workers }
        requires next { next_bump (worker_at (state_of self.old) worker) ≡ Some life }
        ensures after { state_of self.new ≡ take_bump (state_of self.old) worker life }
        ensures number { result ≡ length (worker_at (state_of self.old) worker).received }
    {
        self.workers.take_next(worker, life)
    }

    /// A lane is done with its bump.
    pub(crate) fn push_applied(
        &mut self,
        worker: u32,
        applied: AppliedBump,
    ) -> Result<(), AllocError>
        requires { worker < length (state_of self.old).workers }
        ensures ok { OnOk result (state_of self.new ≡
            with_worker (state_of self.old) worker (record (worker_at (state_of self.old) worker) {
              lane = lane.Empty;
              applied = (worker_at (state_of self.old) worker).applied ++ applied ∷ [];
            })) }
        ensures err { OnErr result (state_of self.new ≡ state_of self.old) }
    {
        self.workers.push_applied(worker, applied)
    }

    /// An entry joins the history of a class, and its chunk, one of the class, comes to the front of its list. Want
    /// of memory for the history is refused and changes nothing.
    pub fn change_class(&mut self, class: usize, entry: Change) -> Result<(), AllocError>
        requires class { class < length (state_of self.old).classes }
        requires listed { IsListed (subject entry).chunk (class_at (state_of self.old) class).lists }
        ensures ok { OnOk result (state_of self.new ≡ with_change (state_of self.old) class entry) }
        ensures err { OnErr result (state_of self.new ≡ state_of self.old) }
        ensures workers { self.new.workers ≡ self.old.workers }
    {
        let class = &mut self.classes[class];
        class.change(entry)?;
        Ok(())
    }

    /// The same of an entry of a life, whose chunk is in range, in its chunk's class.
    pub fn change_chunk(&mut self, class: usize, entry: Change) -> Result<(), AllocError>
        requires lawful { IsLawful (state_of self.old) }
        requires chunk { (subject entry).chunk < length (state_of self.old).chunks }
        requires class { class ≡ class_of (state_of self.old) (subject entry).chunk }
        ensures ok { OnOk result (state_of self.new ≡ with_change (state_of self.old) class entry) }
        ensures err { OnErr result (state_of self.new ≡ state_of self.old) }
        ensures workers { self.new.workers ≡ self.old.workers }
    {
        self.change_class(class, entry)
    }

    /// The chunk of an ended life is free, in its class.
    pub fn free_chunk(&mut self, class: usize, life: ItemId) -> Result<(), AllocError>
        requires lawful { IsLawful (state_of self.old) }
        requires chunk { life.chunk < length (state_of self.old).chunks }
        requires class { class ≡ class_of (state_of self.old) life.chunk }
        ensures ok { OnOk result (state_of self.new ≡ with_change (state_of self.old) class (freed_change life)) }
        ensures err { OnErr result (state_of self.new ≡ state_of self.old) }
        ensures workers { self.new.workers ≡ self.old.workers }
    {
        self.change_chunk(class, Change::freed(life))
    }

    /// Entries join the history of a class, and their chunks, of the class, come to the fronts of their lists, in
    /// order. Want of memory for the history is refused and changes nothing.
    pub fn change_class_by(&mut self, class: usize, entries: &[Change]) -> Result<(), AllocError>
        requires class { class < length (state_of self.old).classes }
        requires listed { AreListed (class_at (state_of self.old) class).lists entries.now }
        ensures ok { OnOk result (state_of self.new ≡ with_changes (state_of self.old) class entries.now) }
        ensures err { OnErr result (state_of self.new ≡ state_of self.old) }
    {
        let class = &mut self.classes[class];
        class.change_by(entries)?;
        Ok(())
    }

    /// A worker's ring takes a bump, and its counts are written; its hand stays. Want of memory
    /// is refused and changes nothing.
    pub fn queue(&mut self, worker: u32, life: ItemId, accounts: Accounts) -> Result<(), AllocError>
        requires { worker < length (state_of self.old).workers }
        ensures ok { OnOk result (state_of self.new ≡
            with_worker (state_of self.old) worker (record (worker_at (state_of self.old) worker) {
              accounts = accounts;
              sent = (worker_at (state_of self.old) worker).sent ++ life ∷ [];
            })) }
        ensures err { OnErr result (state_of self.new ≡ state_of self.old) }
    {
        let hand = self.hand(worker);
        self.workers.queue(worker, life, hand, accounts)
    }

    /// Makes room for one more applied bump of a lane. Want of memory is refused.
    pub fn reserve_applied(&mut self, worker: u32) -> Result<(), AllocError>
        requires { worker < length (state_of self.old).workers }
        ensures state { state_of self.new ≡ state_of self.old }
        ensures room { OnOk result (HasRoomToApply self.new.workers worker) }
    {
        self.workers.reserve_applied(worker)
    }

    /// A lane is done with the bump that it takes next: it is taken and told as applied at once.
    pub fn finish_taken(&mut self, worker: u32, bump: Bump, outcome: Outcome)
        requires worker { worker < length (state_of self.old).workers }
        requires room { HasRoomToApply self.old.workers worker }
        requires next { next_bump (worker_at (state_of self.old) worker) ≡ Some bump.life }
        ensures { state_of self.new ≡
            with_worker (state_of self.old) worker (record (worker_at (state_of self.old) worker) {
              received = (worker_at (state_of self.old) worker).received ++ bump.life ∷ [];
              lane = lane.Empty;
              applied = (worker_at (state_of self.old) worker).applied ++ applied_bump bump outcome ∷ [];
            }) }
    {
        let applied = AppliedBump {
            number: bump.number,
            life: bump.life,
            outcome,
        };
        self.workers.finish_taken(worker, applied);
    }

    /// A lane is done with the bump aboard, which is told as applied.
    pub fn finish_aboard(&mut self, worker: u32, bump: Bump, outcome: Outcome)
        requires worker { worker < length (state_of self.old).workers }
        requires room { HasRoomToApply self.old.workers worker }
        ensures { state_of self.new ≡
            with_worker (state_of self.old) worker (record (worker_at (state_of self.old) worker) {
              lane = lane.Empty;
              applied = (worker_at (state_of self.old) worker).applied ++ applied_bump bump outcome ∷ [];
            }) }
    {
        let applied = AppliedBump {
            number: bump.number,
            life: bump.life,
            outcome,
        };
        self.workers.finish_aboard(worker, applied);
    }

    /// The chunks of a class's DYING that nobody holds are freed: so many, as were counted. Want of memory for the
    /// history is refused and changes nothing.
    pub fn sweep_class(&mut self, class: u32, count: u32) -> Result<(), AllocError>
        requires class { class < length (state_of self.old).classes }
        requires lawful { IsLawful (state_of self.old) }
        requires count { count ≡ length (sweep_of (state_of self.old) class) }
        ensures ok { OnOk result (state_of self.new ≡
            with_changes (state_of self.old) class (sweep_of (state_of self.old) class)) }
        ensures err { OnErr result (state_of self.new ≡ state_of self.old) }
    {
        let class = &mut self.classes[class as usize];
        class.sweep(self.chunks.as_slice(), count)?;
        Ok(())
    }
}

//! The reference of a bump: taken by a worker, and sent off, had back or dropped.
ghost use Rattle.std.specs.Prelude.{◌≡◌, ◌+◌, ◌≤◌, Some, List, IfOk, OnOk, OnErr};
ghost use Rattle.bump_rules.specs.declared.hands.Hand.TheVariants.{Idle, Trying, InHand, Clearing};
ghost use Rattle.bump_rules.specs.declared.items.Head.{Head as TheHead};
ghost use Rattle.bump_word.specs.Words.{Fits};
ghost use Rattle.bump_steps.specs.Places.{head_place};
ghost use Rattle.bump_steps.specs.declared.views.HoldSheet.{HoldSheet as TheHoldSheet};
ghost use Rattle.bump_steps.specs.Rides.{worker_after_release, returned};
ghost use Rattle.bump_readers.specs.Riding.{Rode, ride_of};

use crate::heads::ReaderHeads;
use crate::names::Name;
use crate::riders::Rider;
use crate::workers::WorkerSeat;
use bump_rules::{Head, ItemId};
use bump_steps::{RideRefusal, RowLaw, head_of};
use std::marker::PhantomData;

impl<N: Name, L: RowLaw> ReaderHeads<N, L> {
    /// Takes the reference of a bump, and sends it off as a rider, as memcached's `lru_bump_async`, which counts the
    /// item's reference up before it queues the bump. The worker tries to bump the life, and has a whole hold of it
    /// joined to its seat. The rider's number is that of its bumps that were accepted before, below
    /// 4,611,686,018,427,387,903: those in rings count, and so do riders.
    ///
    /// It makes one load and at most 8 exchanges. Each exchange expects the word that the step before it found, and
    /// fails where another thread changed it since. The hold keeps the life, so only the count is looked at. By the
    /// word that was found last the answer is
    /// 1. RefsFull, where its reference count is at the limit;
    /// 2. a rider, where the exchange found that word again.
    ///
    /// Busy is answered where 8 exchanges failed, whatever the last of them found. A refusal changes no word. It is
    /// the drop of the bump, made by the step that found no room, or by the last exchange: the worker counts it as
    /// one of its kind, and is to clear ACTIVE by `unmark`. With a rider the worker is idle, and counts the bump as
    /// accepted.
    #[inline(always)]
    pub fn ride(
        &self,
        worker: &mut WorkerSeat<N>,
        life: ItemId,
        place: usize,
    ) -> Result<Rider<N>, RideRefusal>
        requires place { place ≡ head_place N.table.slots life.chunk }
        requires held { (h : TheHoldSheet) × (worker.old.hold ≡ Some h) × (h.life ≡ life) }
        requires trying { worker.old.sheet.hand ≡ Trying life }
        ensures rode { (first : TheHead) × (more : List TheHead)
            × Rode self.now.refs_limit life worker.old worker.new result first more }
        ensures rider { IfOk result (λ r. r ≡ ride_of worker.old worker.old.sheet.accounts.accepted life) }
        ensures idle { OnOk result (worker.new.sheet.hand ≡ Idle) }
        ensures dropped { OnErr result (worker.new.sheet.hand ≡ Clearing life) }
        ensures hold { worker.new.hold ≡ worker.old.hold }
    {
        if let Some(refusal) = self
            .words
            .ride(&mut worker.seat, self.limit.refs(), life, place)
        {
            return Err(refusal);
        }
        let sheet = self.words.part_ride(&mut worker.seat);
        Ok(Rider {
            seat: sheet,
            life,
            of: PhantomData,
        })
    }

    /// The rider comes back to its own worker, whose ring has no room for it. It is the last one that was sent off;
    /// the worker is idle, and has a whole hold of the rider's life joined to its seat. The reference is in its hand
    /// again, and the bump no longer counts as accepted, so that the next one gets its number. No word is changed.
    pub fn rider_back(&self, worker: &mut WorkerSeat<N>, rider: Rider<N>)
        requires held { (h : TheHoldSheet) × (worker.old.hold ≡ Some h) × (h.life ≡ rider.life) }
        requires idle { worker.old.sheet.hand ≡ Idle }
        requires own { rider.worker ≡ worker.old.sheet.worker }
        requires last { rider.number + 1 ≡ worker.old.sheet.accounts.accepted }
        ensures { worker.new ≡ record worker.old { sheet = returned rider worker.old.sheet } }
    {
        let Rider {
            seat: sheet,
            life: _,
            of: _,
        } = rider;
        self.words.rider_back(&mut worker.seat, sheet);
    }

    /// Gives the reference in the worker's hand back by one subtraction, since its ring had no room, as memcached's
    /// `lru_bump_async` does where the bump buffer is full. It answers the head before it: of the life, and with a
    /// count of at least 2, for the hold and the bump. The worker has a whole hold of the life joined to its seat. It
    /// counts the bump as dropped for want of room, and is to clear ACTIVE by `unmark`.
    pub fn give_back_bump(&self, worker: &mut WorkerSeat<N>, life: ItemId, place: usize) -> Head
        requires place { place ≡ head_place N.table.slots life.chunk }
        requires held { (h : TheHoldSheet) × (worker.old.hold ≡ Some h) × (h.life ≡ life) }
        requires in_hand { worker.old.sheet.hand ≡ InHand life }
        ensures worker { worker.new ≡ record worker.old { sheet = worker_after_release life result worker.old.sheet } }
        ensures generation { result.generation ≡ life.generation }
        ensures counted { 2 ≤ result.refs }
        ensures fits { Fits result }
    {
        head_of(self.words.give_back_bump(&mut worker.seat, life, place))
    }
}

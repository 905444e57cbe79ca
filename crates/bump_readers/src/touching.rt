//! A touch: a hold is joined to a worker's seat, the worker leaves marks and a time on its item, and the hold is
//! split off again.
ghost use Rattle.std.specs.Prelude.{◌≡◌, ◌<◌, ◌≤◌, None, Some, IsSome, true, false};
ghost use Rattle.bump_rules.specs.declared.hands.Hand.TheVariants as hand;
ghost use Rattle.bump_rules.specs.Lives.{count_of};
ghost use Rattle.bump_rules.specs.Rings.{most_attempts};
ghost use Rattle.bump_rules.specs.Tables.{attempts_bump};
ghost use Rattle.bump_word.specs.Words.{Fits};
ghost use Rattle.bump_steps.specs.Places.{head_place};
ghost use Rattle.bump_steps.specs.declared.views.HoldSheet.{HoldSheet as TheHoldSheet};
ghost use Rattle.bump_readers.specs.Seats.{held_life};
ghost use Rattle.bump_steps.specs.Marks.{worker_after_fetch, worker_after_mark, worker_after_unmark};
ghost use Rattle.bump_steps.specs.Marks.{worker_after_store_time};
ghost use Rattle.bump_readers.specs.Touching.{fetches_of};

use crate::heads::ReaderHeads;
use crate::holds::Hold;
use crate::names::Name;
use crate::workers::WorkerSeat;
use bump_rules::{Head, ItemId};
use bump_steps::{RowLaw, head_of};

impl<N: Name, L: RowLaw> ReaderHeads<N, L> {
    /// Joins the hold to the worker's seat, for a touch: the worker must be Idle and have no other hold. From then on
    /// the worker makes the steps of the touch, and the hold is hollow until `hold_out`.
    pub fn hold_in(&self, worker: &mut WorkerSeat<N>, hold: &mut Hold<N>)
        requires idle { worker.old.sheet.hand ≡ hand.Idle }
        requires alone { worker.old.hold ≡ None }
        requires whole { IsSome hold.old.sheet }
        ensures worker { worker.new ≡ record worker.old { hold = hold.old.sheet } }
        ensures hollow { hold.new ≡ record hold.old { sheet = None } }
    {
        self.words.join(&mut worker.seat, hold.seat_out());
    }

    /// Splits the hold off again: it must be the one that was joined, and the worker must be Idle, since an attempted
    /// bump needs the hold until it is over.
    pub fn hold_out(&self, worker: &mut WorkerSeat<N>, hold: &mut Hold<N>)
        requires idle { worker.old.sheet.hand ≡ hand.Idle }
        requires hollow { hold.old.sheet ≡ None }
        requires joined { (h : TheHoldSheet) × (worker.old.hold ≡ Some h) × (h.life ≡ hold.old.life) }
        ensures worker { worker.new ≡ record worker.old { hold = None } }
        ensures whole { hold.new ≡ record hold.old { sheet = worker.old.hold } }
    {
        hold.seat_in(self.words.part_holds(&mut worker.seat));
    }

    /// Sets FETCHED (memcached's `ITEM_FETCHED`, in `do_item_bump`) of the item that the joined hold holds, by one
    /// step on its head word, and answers the head that the step found. The worker must be Idle.
    ///
    /// Where FETCHED was clear this is the first hit of the item: its life joins the worker's list of first hits,
    /// which had not named it. No life is named twice, whichever worker hits it.
    pub fn mark_fetched(&self, worker: &mut WorkerSeat<N>, life: ItemId, place: usize) -> Head
        requires place { place ≡ head_place N.table.slots life.chunk }
        requires idle { worker.old.sheet.hand ≡ hand.Idle }
        requires held { held_life worker.old.hold ≡ Some life }
        ensures worker { worker.new ≡ record worker.old { sheet = worker_after_fetch life result worker.old.sheet } }
        ensures fits { Fits result }
        ensures generation { result.generation ≡ life.generation }
        ensures count { 0 < result.refs }
        ensures first { result.fetched ≡ false → count_of life worker.old.sheet.hits ≡ 0 }
        ensures named { 0 < count_of life worker.old.sheet.hits → result.fetched ≡ true }
        ensures once { count_of life worker.new.sheet.hits ≤ 1 }
        ensures noted { 0 < fetches_of life worker.new.sheet }
    {
        head_of(self.words.mark_fetched(&mut worker.seat, life.chunk, place))
    }

    /// Sets ACTIVE (memcached's `ITEM_ACTIVE`, in `do_item_bump`) of the item that the joined hold holds, by one step
    /// on its head word, and answers the head that the step found. The worker must be Idle, it must have set FETCHED
    /// of the item before, by `mark_fetched`, and it must have attempted fewer than 4,611,686,018,427,387,903 bumps.
    ///
    /// Where ACTIVE was clear and the item in COLD the worker attempts a bump from then on: it tries to take a
    /// reference for it.
    pub fn mark_active(&self, worker: &mut WorkerSeat<N>, life: ItemId, place: usize) -> Head
        requires place { place ≡ head_place N.table.slots life.chunk }
        requires idle { worker.old.sheet.hand ≡ hand.Idle }
        requires held { held_life worker.old.hold ≡ Some life }
        requires fetched { 0 < fetches_of life worker.old.sheet }
        requires attempts { worker.old.sheet.accounts.attempted < most_attempts }
        ensures worker { worker.new ≡ record worker.old { sheet = worker_after_mark life result worker.old.sheet } }
        ensures fits { Fits result }
        ensures tries { attempts_bump result ≡ true → worker.new.sheet.hand ≡ hand.Trying life }
        ensures generation { result.generation ≡ life.generation }
        ensures count { 0 < result.refs }
        ensures fetched { result.fetched ≡ true }
    {
        head_of(self.words.mark_active(&mut worker.seat, life.chunk, place))
    }

    /// Clears ACTIVE of the item that the joined hold holds (memcached's `do_item_bump`, where `lru_bump_async` found
    /// no room), by one step on its head word, and answers the head that the step found. FETCHED stays. The worker
    /// must have dropped a bump of the item; it is Idle from then on. So one more hit attempts the bump again.
    pub fn unmark(&self, worker: &mut WorkerSeat<N>, life: ItemId, place: usize) -> Head
        requires place { place ≡ head_place N.table.slots life.chunk }
        requires clearing { worker.old.sheet.hand ≡ hand.Clearing life }
        requires held { held_life worker.old.hold ≡ Some life }
        ensures worker { worker.new ≡ record worker.old { sheet = worker_after_unmark life result worker.old.sheet } }
        ensures fits { Fits result }
        ensures idle { worker.new.sheet.hand ≡ hand.Idle }
        ensures generation { result.generation ≡ life.generation }
        ensures count { 0 < result.refs }
        ensures fetched { 0 < fetches_of life worker.old.sheet → result.fetched ≡ true }
    {
        head_of(self.words.unmark(&mut worker.seat, life.chunk, place))
    }

    /// Stores the time of the item that the joined hold holds (memcached's `it->time`, in `do_item_bump`), by one
    /// step on its time word: `now`, any number.
    pub fn set_time(&self, worker: &mut WorkerSeat<N>, life: ItemId, place: usize, now: u64)
        requires place { place ≡ head_place N.table.slots life.chunk }
        requires held { held_life worker.old.hold ≡ Some life }
        ensures worker { worker.new ≡ record worker.old { sheet = worker_after_store_time life now worker.old.sheet } }
    {
        self.words
            .set_time(&mut worker.seat, life.chunk, place, now);
    }
}

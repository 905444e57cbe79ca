//! What a worker does with items: gets and touches.
ghost use Rattle.std.specs.Prelude.{◌≡◌, ◌<◌, ◌≤◌, ◌+◌, List, Some, None, Err, IfOk, length};
ghost use Rattle.bump_rules.specs.declared.hands.Hand.TheVariants as hand;
ghost use Rattle.bump_rules.specs.declared.items.Head.{Head as TheHead};
ghost use Rattle.bump_rules.specs.declared.commands.Touch.TheVariants as touch;
ghost use Rattle.bump_rules.specs.Rings.{IsAccounts, most_attempts};
ghost use Rattle.bump_rules.specs.Tables.{is_cold};
ghost use Rattle.bump_steps.specs.Places.{head_place};
ghost use Rattle.bump_steps.specs.declared.views.HoldSheet.{HoldSheet as TheHoldSheet};
ghost use Rattle.bump_steps.specs.References.{new_hold, IsRow, words_in};
ghost use Rattle.bump_steps.specs.Rides.{dropped_as};
ghost use Rattle.bump_steps.specs.Rule.{chunks as all_chunks};
ghost use Rattle.bump_readers.specs.Taking.{IsTakenBy};
ghost use Rattle.bump_readers.specs.Touching.{fetches_of};
ghost use Rattle.bump_unlocked.specs.declared.refusals.GetAnyRefusal.TheVariants as refused_any;
ghost use Rattle.bump_unlocked.specs.declared.refusals.GetRefusal.TheVariants as refused;
ghost use Rattle.bump_unlocked.specs.Counts.{counted_touch};
ghost use Rattle.bump_unlocked.specs.Gets.{Got, GotAny};
ghost use Rattle.bump_unlocked.specs.StepCounts.{MakesAtMost};
ghost use Rattle.bump_unlocked.specs.Touches.{Findings as TheFindings, Touched};
ghost use Rattle.bump_unlocked.specs.Attempts.{Attempted, Hit as DoesHit};

use crate::counting::count;
use crate::holds::Hold;
use crate::refusals::{GetAnyRefusal, GetRefusal};
use crate::workers::Worker;
use bump_readers::{Name, ReaderHeads, WorkerSeat};
use bump_ring::Sender;
use bump_rules::{Accounts, Dropped, Head, ItemId, MOST_ATTEMPTS, Segment, Touch};
use bump_steps::{AnyRefusal, RideRefusal, RowLaw, TakeRefusal};

// A condition that proofs read as an equation.
fn is_cold(segment: Segment) -> bool
    ensures { result ≡ is_cold segment }
{
    matches!(segment, Segment::Cold)
}

// Why a bump is dropped that got no reference.
fn dropped_as(refusal: RideRefusal) -> Dropped
    ensures { result ≡ dropped_as refusal }
{
    match refusal {
        RideRefusal::RefsFull => Dropped::RefsFull,
        RideRefusal::Busy => Dropped::Busy,
    }
}

// An attempt to bump the item, which the worker tries: the bump's reference is taken, and it is offered to the ring.
// After a drop ACTIVE is cleared.
#[inline(always)]
fn attempt<N: Name, L: RowLaw>(
    heads: &ReaderHeads<N, L>,
    seat: &mut WorkerSeat<N>,
    sender: &mut Sender<N>,
    life: ItemId,
    place: usize,
) -> Touch
    requires place { place ≡ head_place N.table.slots life.chunk }
    requires held { (h : TheHoldSheet) × (seat.old.hold ≡ Some h) × (h.life ≡ life) }
    requires trying { seat.old.sheet.hand ≡ hand.Trying life }
    requires accepted { seat.old.sheet.accounts.accepted ≡ length sender.old.sent }
    requires fetched { 0 < fetches_of life seat.old.sheet }
    ensures { (found : TheFindings) × Attempted heads.now.refs_limit life seat.old seat.new sender.old sender.new result
        found }
{
    let dropped = match heads.ride(seat, life, place) {
        Ok(rider) => match sender.offer(rider) {
            Ok(number) => return Touch::Queued(number),
            Err(rider) => {
                heads.rider_back(seat, rider);
                heads.give_back_bump(seat, life, place);
                Dropped::Full
            }
        },
        Err(refusal) => dropped_as(refusal),
    };
    heads.unmark(seat, life, place);
    Touch::Dropped(dropped)
}

// An attempt, and what it counts. A touch that attempts no bump counts nothing, so counts are looked at here alone.
#[inline(always)]
fn attempt_counted<N: Name, L: RowLaw>(
    heads: &ReaderHeads<N, L>,
    seat: &mut WorkerSeat<N>,
    sender: &mut Sender<N>,
    counts: &mut Accounts,
    life: ItemId,
    place: usize,
) -> Touch
    requires place { place ≡ head_place N.table.slots life.chunk }
    requires held { (h : TheHoldSheet) × (seat.old.hold ≡ Some h) × (h.life ≡ life) }
    requires trying { seat.old.sheet.hand ≡ hand.Trying life }
    requires accepted { seat.old.sheet.accounts.accepted ≡ length sender.old.sent }
    requires fetched { 0 < fetches_of life seat.old.sheet }
    requires add_up { IsAccounts counts.old counts.old.accepted hand.Idle }
    requires room { counts.old.attempted < most_attempts }
    ensures attempted { (found : TheFindings) × Attempted heads.now.refs_limit life seat.old seat.new sender.old
        sender.new result found }
    ensures counted { counts.new ≡ counted_touch result counts.old }
{
    let touch = attempt(heads, seat, sender, life, place);
    count(counts, touch);
    touch
}

// A hit of the item, whose hold is joined to the worker's seat.
#[inline(always)]
fn hit<N: Name, L: RowLaw>(
    heads: &ReaderHeads<N, L>,
    seat: &mut WorkerSeat<N>,
    sender: &mut Sender<N>,
    counts: &mut Accounts,
    life: ItemId,
    place: usize,
    now: u64,
) -> Touch
    requires held { (h : TheHoldSheet) × (seat.old.hold ≡ Some h) × (h.life ≡ life) }
    requires place { place ≡ head_place N.table.slots life.chunk }
    requires idle { seat.old.sheet.hand ≡ hand.Idle }
    requires accepted { seat.old.sheet.accounts.accepted ≡ length sender.old.sent }
    requires attempts { seat.old.sheet.accounts.attempted < most_attempts }
    requires add_up { IsAccounts counts.old counts.old.accepted hand.Idle }
    requires room { counts.old.attempted < most_attempts }
    ensures hit { (found : TheFindings) × DoesHit heads.now.refs_limit life now seat.old seat.new sender.old sender.new
        result found }
    ensures counted { counts.new ≡ counted_touch result counts.old }
{
    let first = heads.mark_fetched(seat, life, place);
    if !first.fetched {
        return Touch::First;
    }
    if first.active {
        return Touch::Already;
    }
    let second = heads.mark_active(seat, life, place);
    if second.active {
        return Touch::Already;
    }
    if !is_cold(second.segment) {
        heads.set_time(seat, life, place, now);
        return Touch::Marked;
    }
    attempt_counted(heads, seat, sender, counts, life, place)
}

impl<N: Name> Worker<N> {
    /// Takes a hold of an item, as memcached's `do_item_get`, which counts the item's reference up. `id` is the
    /// item's chunk and generation, as `link` answered them: any numbers. No lock is taken.
    ///
    /// It makes one load of the head word and at most 8 exchanges on it. Each exchange expects the word that the step
    /// before it found, and fails where another thread changed it since. It is refused as
    /// 1. NoSuchChunk, where the store has no such chunk: then no step is made;
    /// 2. Stale, where by the word found last the chunk isn't linked, or has another generation;
    /// 3. RefsFull, where by that word its reference count is at the limit;
    /// 4. Busy, where the eighth exchange failed, whatever word it found.
    ///
    /// A refusal changes nothing: all that is new to the worker is the list of its steps, of which none changed a
    /// word. The hold has the item's row: its label, and then its further words, as they were stored for it. The table's
    /// law holds of them.
    #[inline(always)]
    pub fn get<L: RowLaw>(
        &mut self,
        heads: &ReaderHeads<N, L>,
        id: ItemId,
    ) -> Result<Hold<N>, GetRefusal>
        ensures missing { all_chunks heads.now ≤ id.chunk → (result ≡ Err refused.NoSuchChunk) × (self.new ≡ self.old) }
        ensures got { id.chunk < all_chunks heads.now → (first : TheHead) × (more : List TheHead)
            × Got heads.now.refs_limit id self.old self.new result first more }
        ensures hold { IfOk result (λ h. h ≡ new_hold id h.row) }
        ensures row { IfOk result (λ h. IsRow N.table.slots h.row) }
        ensures law { IfOk result (λ h. L.law (words_in h.row)) }
        ensures few { MakesAtMost 1 8 0 self.old.sheet.steps self.new.sheet.steps }
        ensures sender { self.new.sender ≡ self.old.sender }
    {
        if id.chunk >= heads.chunks() {
            return Err(GetRefusal::NoSuchChunk);
        }
        match heads.take(&mut self.seat, id) {
            Ok(held) => Ok(Hold { held }),
            Err(TakeRefusal::Stale) => Err(GetRefusal::Stale),
            Err(TakeRefusal::RefsFull) => Err(GetRefusal::RefsFull),
            Err(TakeRefusal::Busy) => Err(GetRefusal::Busy),
        }
    }

    /// Takes a hold of whatever item is linked in a chunk, and answers it with the head by which it was taken, as it was
    /// before: so it is known with no further step whether both marks are set. `chunk` is any number. No lock is taken.
    ///
    /// It makes the steps of `get`. It is refused as
    /// 1. NoSuchChunk, where the store has no such chunk: then no step is made;
    /// 2. Gone, where by the word found last the chunk isn't linked;
    /// 3. RefsFull, where by that word its reference count is at the limit;
    /// 4. Busy, where the eighth exchange failed, whatever word it found.
    ///
    /// A refusal changes nothing: all that is new to the worker is the list of its steps, of which none changed a
    /// word.
    #[inline(always)]
    pub fn get_any<L: RowLaw>(
        &mut self,
        heads: &ReaderHeads<N, L>,
        chunk: u32,
    ) -> Result<(Hold<N>, Head), GetAnyRefusal>
        ensures missing { all_chunks heads.now ≤ chunk → (result ≡ Err refused_any.NoSuchChunk) × (self.new ≡ self.old) }
        ensures got { chunk < all_chunks heads.now → (first : TheHead) × (more : List TheHead)
            × GotAny heads.now.refs_limit chunk self.old self.new result first more }
        ensures chunk { IfOk result (λ told. told.0.life.chunk ≡ chunk) }
        ensures found { IfOk result (λ told. IsTakenBy heads.now.refs_limit told.0.life told.1) }
        ensures hold { IfOk result (λ told. told.0 ≡ new_hold told.0.life told.0.row) }
        ensures row { IfOk result (λ told. IsRow N.table.slots told.0.row) }
        ensures law { IfOk result (λ told. L.law (words_in told.0.row)) }
        ensures few { MakesAtMost 1 8 0 self.old.sheet.steps self.new.sheet.steps }
        ensures sender { self.new.sender ≡ self.old.sender }
    {
        if chunk >= heads.chunks() {
            return Err(GetAnyRefusal::NoSuchChunk);
        }
        match heads.take_any(&mut self.seat, chunk) {
            Ok((held, found)) => Ok((Hold { held }, found)),
            Err(AnyRefusal::Gone) => Err(GetAnyRefusal::Gone),
            Err(AnyRefusal::RefsFull) => Err(GetAnyRefusal::RefsFull),
            Err(AnyRefusal::Busy) => Err(GetAnyRefusal::Busy),
        }
    }

    /// A hit of the item that is held, as memcached's `do_item_bump` with `lru_bump_async`. No lock is taken, and it
    /// waits for no other thread. `now` is the time that it stores, in the caller's ticks, where it stores one.
    ///
    /// A first step sets FETCHED, and a second one ACTIVE, where the first found FETCHED set and ACTIVE clear. By the
    /// heads that they found it answers
    /// 1. First, where FETCHED was clear: it is the item's first hit, and is told to no other worker;
    /// 2. Already, where ACTIVE was set;
    /// 3. Marked, where ACTIVE was clear in HOT, WARM or TEMP: the time is stored;
    /// 4. where ACTIVE was clear in COLD, what its attempt to bump the item comes to. A reference is taken for the
    ///    bump, by one load and at most 8 exchanges, and the bump is put into the worker's ring: Queued, with its
    ///    number among the worker's accepted bumps, from 0. Or it is dropped: as RefsFull, where the item's reference
    ///    count is at the limit; as Busy, where the eighth exchange failed; as Full, where the ring has no room, which
    ///    comes only where it accepted at least as many bumps as its capacity. A dropped bump keeps no reference, and
    ///    ACTIVE is cleared again, so that one more hit attempts it once more. FETCHED stays.
    ///
    /// Each attempt is counted, and how it ended. A worker that attempted 4,611,686,018,427,387,903 bumps makes no
    /// further step, and answers Exhausted.
    #[inline(always)]
    pub fn touch<L: RowLaw>(
        &mut self,
        heads: &ReaderHeads<N, L>,
        hold: &mut Hold<N>,
        now: u64,
    ) -> Touch
        ensures exhausted { self.old.sheet.accounts.attempted ≡ most_attempts → (result ≡ touch.Exhausted)
            × (self.new ≡ self.old) }
        ensures touched { self.old.sheet.accounts.attempted < most_attempts → (found : TheFindings)
            × Touched heads.now.refs_limit hold.old.life now self.old self.new result found }
        ensures few { MakesAtMost 1 8 4 self.old.sheet.steps self.new.sheet.steps }
        ensures taken { self.new.sheet.taken ≡ self.old.sheet.taken }
        ensures glances { self.new.sheet.glances ≡ self.old.sheet.glances }
        ensures hold { hold.new ≡ hold.old }
        ensures ring { self.new.sender.ring ≡ self.old.sender.ring }
    {
        let attempted = self.counts.attempted;
        if attempted >= MOST_ATTEMPTS {
            return Touch::Exhausted;
        }
        let life = hold.life();
        let place = hold.held.place();
        let Worker {
            seat,
            sender,
            counts,
        } = self;
        seat.promise();
        heads.hold_in(seat, &mut hold.held);
        let touch = hit(heads, seat, sender, counts, life, place, now);
        heads.hold_out(seat, &mut hold.held);
        touch
    }
}

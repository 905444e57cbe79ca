//! A worker's seat and its holds, as their callers make steps by them.
ghost use Rattle.bump_readers.specs.Glances.{BeginsGlance, IsGlancing, IsLinkedLife, looked_at};
ghost use Rattle.bump_readers.specs.Seats.{spent_me};
ghost use Rattle.bump_rules.specs.declared.hands.Hand.TheVariants.{Idle, InHand};
ghost use Rattle.bump_steps.specs.Marks.{worker_after_unmark};
ghost use Rattle.bump_steps.specs.Places.{head_place};
ghost use Rattle.bump_steps.specs.Rides.{returned, worker_after_release};
ghost use Rattle.bump_steps.specs.Rule.{chunks as all_chunks};
ghost use Rattle.bump_steps.specs.declared.views.HoldSheet.{HoldSheet as TheHoldSheet};
ghost use Rattle.bump_word.specs.Words.{Fits, word_of};
ghost use Rattle.std.specs.Prelude.{◌≡◌, ◌+◌, ◌<◌, ◌≤◌, true, false, None, Some, IsSome, IfOk, IfErr};

use bump_heads::{Head, Hold, ItemId, Name, ReaderHeads, Rider, RowLaw, WorkerSeat};
use bump_readers::{Glance, Seat};

/// Gives a hold's reference back.
pub fn give_back<N: Name, L: RowLaw>(heads: &ReaderHeads<N, L>, hold: Hold<N>) -> (Head, Seat)
    requires whole { IsSome hold.sheet }
    ensures generation { result.0.generation ≡ hold.life.generation }
    ensures counted { 0 < result.0.refs }
    ensures fits { Fits result.0 }
    ensures spent { result.1.me ≡ spent_me hold.life (word_of result.0) }
    ensures table { result.1.table_id ≡ N.table }
{
    heads.give_back(hold)
}

/// Joins a hold to a worker's seat.
pub fn hold_in<N: Name, L: RowLaw>(
    heads: &ReaderHeads<N, L>,
    seat: &mut WorkerSeat<N>,
    hold: &mut Hold<N>,
)
    requires idle { seat.old.sheet.hand ≡ Idle }
    requires alone { seat.old.hold ≡ None }
    requires whole { IsSome hold.old.sheet }
    ensures worker { seat.new ≡ record seat.old { hold = hold.old.sheet } }
    ensures hollow { hold.new ≡ record hold.old { sheet = None } }
{
    heads.hold_in(seat, hold);
}

/// A rider comes back to its worker.
pub fn rider_back<N: Name, L: RowLaw>(
    heads: &ReaderHeads<N, L>,
    seat: &mut WorkerSeat<N>,
    rider: Rider<N>,
)
    requires held { (h : TheHoldSheet) × (seat.old.hold ≡ Some h) × (h.life ≡ rider.life) }
    requires idle { seat.old.sheet.hand ≡ Idle }
    requires own { rider.worker ≡ seat.old.sheet.worker }
    requires last { rider.number + 1 ≡ seat.old.sheet.accounts.accepted }
    ensures { seat.new ≡ record seat.old { sheet = returned rider seat.old.sheet } }
{
    heads.rider_back(seat, rider);
}

/// Gives the reference of a bump back for which the ring had no room, and clears ACTIVE. Answers the heads that both
/// steps found.
pub fn drop_full<N: Name, L: RowLaw>(
    heads: &ReaderHeads<N, L>,
    seat: &mut WorkerSeat<N>,
    life: ItemId,
    place: usize,
) -> (Head, Head)
    requires place { place ≡ head_place N.table.slots life.chunk }
    requires held { (h : TheHoldSheet) × (seat.old.hold ≡ Some h) × (h.life ≡ life) }
    requires in_hand { seat.old.sheet.hand ≡ InHand life }
    ensures worker { seat.new ≡ record seat.old {
      sheet = worker_after_unmark life result.1 (worker_after_release life result.0 seat.old.sheet);
    } }
    ensures counted { 2 ≤ result.0.refs }
{
    let kept = heads.give_back_bump(seat, life, place);
    let found = heads.unmark(seat, life, place);
    (kept, found)
}

/// Glances at whatever life is linked in a chunk.
pub fn glance<N: Name, L: RowLaw>(
    heads: &ReaderHeads<N, L>,
    seat: &mut WorkerSeat<N>,
    chunk: u32,
) -> Result<(Glance<N>, Head), Head>
    requires chunk { chunk < all_chunks heads.now }
    ensures begins { IfOk result (λ told. BeginsGlance L.law N.table.slots told.0 told.1 seat.old seat.new) }
    ensures chunk { IfOk result (λ told. told.0.chunk ≡ chunk) }
    ensures gone { IfErr result (λ found. found.linked ≡ false) }
    ensures fits { IfErr result Fits }
    ensures looked { IfErr result (λ found. seat.new ≡ record seat.old {
      sheet = looked_at chunk found seat.old.sheet;
    }) }
{
    heads.glance(seat, chunk)
}

/// Ends a glance.
pub fn end_glance<N: Name, L: RowLaw>(
    heads: &ReaderHeads<N, L>,
    seat: &mut WorkerSeat<N>,
    glance: &Glance<N>,
) -> Head
    requires glance { IsGlancing glance.now seat.old.sheet }
    ensures looked { seat.new ≡ record seat.old {
      sheet = looked_at glance.now.chunk result seat.old.sheet;
    } }
    ensures faithful { (last : IsGlancing glance.now seat.old.sheet) → IsLinkedLife glance.now result
        → last.glance.agrees ≡ true }
    ensures fits { Fits result }
{
    heads.end_glance(seat, glance)
}

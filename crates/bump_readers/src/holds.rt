//! Holds: references that readers have.
ghost use Rattle.std.specs.Prelude.{◌≡◌, IsSome, None, Some};
ghost use Rattle.bump_readers.specs.declared.views.HoldView.{HoldView as TheHoldView};
ghost use Rattle.bump_readers.specs.Seats.{IsHoldOf, hold_in_views, hold_views, hold_me};
ghost use Rattle.bump_steps.specs.Places.{HasChunk, head_place};
ghost use Rattle.bump_steps.specs.declared.views.HoldSheet.{HoldSheet as TheHoldSheet};

use crate::names::Name;
use atomic_table::Badge;
use bump_rules::ItemId;
use bump_steps::{Seat, View};
use std::marker::{Model, PhantomData};

/// A reference to a life, which a reader has. While there is one, the chunk isn't free and keeps the life's
/// generation. It may go to another thread, and it must be spent, by `give_back`. It is hollow while its sheet is
/// joined to a worker's seat, for a touch: that stands in proofs alone.
pub struct Hold<N: Name> {
    pub(crate) badge: Badge<View>,
    pub(crate) life: ItemId,

    /// Where the chunk has its head word, so that no step on it multiplies.
    pub(crate) place: usize,
    pub(crate) of: PhantomData<N>,
}

impl<N: Name> Model for Hold<N> {
    ghost Value = { TheHoldView };

    ghost view = { λ h. record { life = h.life; sheet = hold_in_views h.badge.views } };

    ghost invariant = { λ h. (h.badge.views ≡ hold_views (hold_in_views h.badge.views))
        × (IsSome (hold_in_views h.badge.views) → h.badge.table_id ≡ N.table)
        × IsHoldOf h.life (hold_in_views h.badge.views) × HasChunk N.table h.life.chunk
        × (h.place ≡ head_place N.table.slots h.life.chunk) };
}

impl<N: Name> Hold<N> {
    /// The life that is held.
    pub fn life(&self) -> ItemId
        ensures { result ≡ self.now.life }
    {
        self.life
    }

    /// Where the chunk has its head word.
    #[inline(always)]
    pub fn place(&self) -> usize
        ensures { result ≡ head_place N.table.slots self.now.life.chunk }
    {
        self.place
    }

    /// The hold's seat, for a join to another one; without it the hold is hollow. The hold must be whole.
    pub fn seat_out(&mut self) -> Seat
        requires whole { IsSome self.old.sheet }
        ensures hollow { self.new ≡ record self.old { sheet = None } }
        ensures seat { (result.me ≡ hold_me self.old.sheet) × (result.table_id ≡ N.table) }
        ensures life { IsHoldOf self.old.life self.old.sheet }
        ensures chunk { HasChunk N.table self.old.life.chunk }
    {
        std::mem::replace(&mut self.badge, Badge::blank()).into_seat()
    }

    /// Makes the hold, which is hollow, whole again, by a seat that has a sheet of the hold's life alone.
    pub fn seat_in(&mut self, seat: Seat)
        requires hollow { self.old.sheet ≡ None }
        requires seat { (h : TheHoldSheet) × (seat.me ≡ hold_me (Some h)) × (h.life ≡ self.old.life) }
        requires table { seat.table_id ≡ N.table }
        ensures whole { hold_me self.new.sheet ≡ seat.me }
        ensures life { self.new.life ≡ self.old.life }
    {
        self.badge = seat.into_badge();
    }
}

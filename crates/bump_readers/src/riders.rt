//! Bumps' references that travel.
ghost use Rattle.std.specs.Prelude.{◌≡◌, ◌<◌};
ghost use Rattle.bump_rules.specs.Rings.{most_attempts};
ghost use Rattle.bump_steps.specs.Places.{HasChunk};
ghost use Rattle.bump_steps.specs.declared.views.Ride.{Ride as TheRide};
ghost use Rattle.bump_steps.specs.Riders.{ride_me};
ghost use Rattle.bump_readers.specs.Seats.{ride_in};

use crate::names::Name;
use bump_rules::ItemId;
use bump_steps::Seat;
use std::marker::{Model, PhantomData};

/// A reference that travels as a bump: in a ring it has the bytes of its life alone, since whoever takes it from its
/// ring knows its worker and its number. Where it is dropped its chunk stays held.
#[derive(Drop)]
pub struct Rider<N: Name> {
    pub(crate) seat: Seat,
    pub(crate) life: ItemId,
    pub(crate) of: PhantomData<N>,
}

impl<N: Name> Model for Rider<N> {
    ghost Value = { TheRide };

    ghost view = { λ r. ride_in r.seat.me.0 };

    ghost invariant = { λ r. (r.seat.me ≡ ride_me (ride_in r.seat.me.0)) × (r.seat.table_id ≡ N.table)
        × HasChunk N.table (ride_in r.seat.me.0).life.chunk × ((ride_in r.seat.me.0).number < most_attempts)
        × (r.life ≡ (ride_in r.seat.me.0).life) };
}

impl<N: Name> Rider<N> {
    /// What every rider keeps: its number is below `MOST_ATTEMPTS` of `bump_rules`.
    pub fn promise(&self)
        ensures few { self.now.number < most_attempts }
    {
        let _life = &self.life;
    }

    /// The life that was hit, to which it refers.
    pub fn life(&self) -> ItemId
        ensures { result ≡ self.now.life }
    {
        self.life
    }

    /// What it is made of, for a lane that it boards: a seat that has its sheet alone, and the life.
    pub fn into_parts(self) -> (Seat, ItemId)
        ensures life { result.1 ≡ self.life }
        ensures seat { result.0.me ≡ ride_me self }
        ensures table { result.0.table_id ≡ N.table }
        ensures chunk { HasChunk N.table self.life.chunk }
        ensures number { self.number < most_attempts }
    {
        let Rider { seat, life, of: _ } = self;
        (seat, life)
    }
}

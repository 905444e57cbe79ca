//! The steps of an application: those of a class's seat to which a lane's is joined.
ghost use Rattle.std.specs.Prelude.{ℕ, ◌≡◌};
ghost use Rattle.bump_rules.specs.declared.bumps.Outcome.{Outcome as TheOutcome};
ghost use Rattle.bump_rules.specs.declared.bumps.Outcome.TheVariants.{Gone};
ghost use Rattle.bump_steps.specs.Places.{head_place};
ghost use Rattle.bump_steps.specs.Seats.{IsSeated, StaysSeated};
ghost use Rattle.bump_steps.specs.Words.{words_id};
ghost use Rattle.bump_steps.specs.Plays.{on_chunk, on_time, OwnsChunk};
ghost use Rattle.bump_steps.specs.Applications.{try_tells, clear_active_tells, put_time_tells, view_after_put_time};
ghost use Rattle.bump_steps.specs.Applications.{move_tells, alight_tells, MayTry, MayMove, MayAlight};
ghost use Rattle.bump_rules.specs.declared.places.Segment.{Segment as TheSegment};
ghost use Rattle.bump_rules.specs.declared.places.Segment.TheVariants.{Hot};

use crate::laws::RowLaw;
use crate::views::{Empty, View};
use crate::words::{Seat, Words};
use atomic_table::Play;
use bump_rules::{Outcome, Segment};
use bump_word::laws::{ALL_BUT_ACTIVE, ONE_REFERENCE};
use bump_word::segment_xor;
use std::marker::{Brand, PhantomData};

pub struct Try;

impl Play<Empty, View> for Try {
    ghost then = { on_chunk try_tells };
}

pub struct ClearActive;

impl Play<Empty, View> for ClearActive {
    ghost then = { on_chunk clear_active_tells };
}

pub struct PutTime;

impl Play<Empty, View> for PutTime {
    ghost then = { on_time put_time_tells };
}

/// Tells a step the segments between which it moves the chunk.
pub trait Moving {
    ghost from: { TheSegment };

    ghost to: { TheSegment };
}

impl Moving for Brand {
    ghost from = { Hot };

    ghost to = { Hot };
}

pub struct Move<W: Moving> {
    of: PhantomData<W>,
}

impl<W: Moving> Play<Empty, View> for Move<W> {
    ghost then = { on_chunk (move_tells W.from W.to) };
}

/// Tells a step the outcome that it writes.
pub trait Alighting {
    ghost outcome: { TheOutcome };
}

impl Alighting for Brand {
    ghost outcome = { Gone };
}

pub struct Alight<W: Alighting> {
    of: PhantomData<W>,
}

impl<W: Alighting> Play<Empty, View> for Alight<W> {
    ghost then = { on_chunk (alight_tells W.outcome) };
}

impl<L: RowLaw> Words<L> {
    /// The head of the bump's item is looked at.
    pub fn try_front(&self, seat: &mut Seat, chunk: u32, place: usize) -> u64
        requires seat { IsSeated (words_id self.now) seat.old chunk }
        requires place { place ≡ head_place (words_id self.now).slots chunk }
        requires may { MayTry chunk seat.old.me.0 }
        ensures same { StaysSeated seat.old seat.new }
        ensures told { try_tells chunk 0 seat.old.me result seat.new.me }
    {
        self.table
            .shared
            .load::<Try>(seat, self.head_by(place, chunk))
    }

    /// ACTIVE is cleared, for a pull or for the bump aboard.
    pub fn clear_active(&self, seat: &mut Seat, chunk: u32, place: usize) -> u64
        requires seat { IsSeated (words_id self.now) seat.old chunk }
        requires place { place ≡ head_place (words_id self.now).slots chunk }
        requires own { OwnsChunk chunk seat.old.me.0 }
        ensures same { StaysSeated seat.old seat.new }
        ensures told { clear_active_tells chunk ALL_BUT_ACTIVE seat.old.me result seat.new.me }
    {
        self.table
            .shared
            .fetch_and::<ClearActive>(seat, self.head_by(place, chunk), ALL_BUT_ACTIVE)
    }

    /// The time is stored under the class's lock, for a link or for the bump aboard.
    pub fn put_time(&self, seat: &mut Seat, chunk: u32, place: usize, now: u64)
        requires seat { IsSeated (words_id self.now) seat.old chunk }
        requires place { place ≡ head_place (words_id self.now).slots chunk }
        requires own { OwnsChunk chunk seat.old.me.0 }
        ensures same { StaysSeated seat.old seat.new }
        ensures told { seat.new.me ≡ (view_after_put_time chunk now seat.old.me.0, seat.old.me.1) }
    {
        self.table
            .shared
            .store::<PutTime>(seat, self.time_by(place, chunk), now);
    }

    fn change_segment_by<W: Moving>(
        &self,
        seat: &mut Seat,
        chunk: u32,
        place: usize,
        from: Segment,
        to: Segment,
    ) -> u64
        requires seat { IsSeated (words_id self.now) seat.old chunk }
        requires place { place ≡ head_place (words_id self.now).slots chunk }
        requires segments { (from ≡ W.from) × (to ≡ W.to) }
        requires may { MayMove from to chunk seat.old.me.0 }
        ensures same { StaysSeated seat.old seat.new }
        ensures told { (x : ℕ) × move_tells from to chunk x seat.old.me result seat.new.me }
    {
        self.table
            .shared
            .fetch_xor::<Move<W>>(seat, self.head_by(place, chunk), segment_xor(from, to))
    }

    /// The segment's bits are changed, for a pull or for the bump aboard.
    pub fn change_segment(
        &self,
        seat: &mut Seat,
        chunk: u32,
        place: usize,
        from: Segment,
        to: Segment,
    ) -> u64
        requires seat { IsSeated (words_id self.now) seat.old chunk }
        requires place { place ≡ head_place (words_id self.now).slots chunk }
        requires may { MayMove from to chunk seat.old.me.0 }
        ensures same { StaysSeated seat.old seat.new }
        ensures told { (x : ℕ) × move_tells from to chunk x seat.old.me result seat.new.me }
    {
        self.change_segment_by::<Brand>(seat, chunk, place, from, to)
    }

    fn alight_by<W: Alighting>(
        &self,
        seat: &mut Seat,
        chunk: u32,
        place: usize,
        outcome: Outcome,
    ) -> u64
        requires seat { IsSeated (words_id self.now) seat.old chunk }
        requires place { place ≡ head_place (words_id self.now).slots chunk }
        requires outcome { outcome ≡ W.outcome }
        requires may { MayAlight chunk outcome seat.old.me.0 }
        ensures same { StaysSeated seat.old seat.new }
        ensures told { alight_tells outcome chunk ONE_REFERENCE seat.old.me result seat.new.me }
    {
        self.table
            .shared
            .fetch_sub::<Alight<W>>(seat, self.head_by(place, chunk), ONE_REFERENCE)
    }

    /// The reference of the bump aboard is given back.
    pub fn alight(&self, seat: &mut Seat, chunk: u32, place: usize, outcome: Outcome) -> u64
        requires seat { IsSeated (words_id self.now) seat.old chunk }
        requires place { place ≡ head_place (words_id self.now).slots chunk }
        requires may { MayAlight chunk outcome seat.old.me.0 }
        ensures same { StaysSeated seat.old seat.new }
        ensures told { alight_tells outcome chunk ONE_REFERENCE seat.old.me result seat.new.me }
    {
        self.alight_by::<Brand>(seat, chunk, place, outcome)
    }
}

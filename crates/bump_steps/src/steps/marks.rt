//! The steps of a worker on the marks of a chunk, and on its time.
ghost use Rattle.std.specs.Prelude.{◌≡◌};
ghost use Rattle.bump_rules.specs.Lives.{life};
ghost use Rattle.bump_steps.specs.Places.{head_place};
ghost use Rattle.bump_steps.specs.Seats.{IsSeated, StaysSeated};
ghost use Rattle.bump_steps.specs.Words.{words_id};
ghost use Rattle.bump_steps.specs.Plays.{on_chunk, on_time, HasWorker};
ghost use Rattle.bump_steps.specs.Marks.{fetch_tells, mark_tells, unmark_tells, store_time_tells, on_worker};
ghost use Rattle.bump_steps.specs.Marks.{worker_after_store_time, MayMark, RefersTo};

use crate::laws::RowLaw;
use crate::views::{Empty, View};
use crate::words::{Seat, Words};
use atomic_table::Play;
use bump_word::laws::ALL_BUT_ACTIVE;
use bump_word::{ACTIVE, FETCHED};

pub struct Fetch;

impl Play<Empty, View> for Fetch {
    ghost then = { on_chunk fetch_tells };
}

pub struct Mark;

impl Play<Empty, View> for Mark {
    ghost then = { on_chunk mark_tells };
}

pub struct Unmark;

impl Play<Empty, View> for Unmark {
    ghost then = { on_chunk unmark_tells };
}

pub struct StoreTime;

impl Play<Empty, View> for StoreTime {
    ghost then = { on_time store_time_tells };
}

impl<L: RowLaw> Words<L> {
    /// A worker sets FETCHED of a chunk to a life of which its seat refers.
    pub fn mark_fetched(&self, seat: &mut Seat, chunk: u32, place: usize) -> u64
        requires seat { IsSeated (words_id self.now) seat.old chunk }
        requires place { place ≡ head_place (words_id self.now).slots chunk }
        requires worker { HasWorker seat.old.me.0 }
        requires held { RefersTo chunk seat.old.me.0 }
        ensures same { StaysSeated seat.old seat.new }
        ensures told { fetch_tells chunk FETCHED seat.old.me result seat.new.me }
    {
        self.table
            .shared
            .fetch_or::<Fetch>(seat, self.head_by(place, chunk), FETCHED)
    }

    /// A worker sets ACTIVE.
    pub fn mark_active(&self, seat: &mut Seat, chunk: u32, place: usize) -> u64
        requires seat { IsSeated (words_id self.now) seat.old chunk }
        requires place { place ≡ head_place (words_id self.now).slots chunk }
        requires may { MayMark chunk seat.old.me.0 }
        ensures same { StaysSeated seat.old seat.new }
        ensures told { mark_tells chunk ACTIVE seat.old.me result seat.new.me }
    {
        self.table
            .shared
            .fetch_or::<Mark>(seat, self.head_by(place, chunk), ACTIVE)
    }

    /// A worker clears ACTIVE of a chunk to a life of which its seat refers.
    pub fn unmark(&self, seat: &mut Seat, chunk: u32, place: usize) -> u64
        requires seat { IsSeated (words_id self.now) seat.old chunk }
        requires place { place ≡ head_place (words_id self.now).slots chunk }
        requires worker { HasWorker seat.old.me.0 }
        requires held { RefersTo chunk seat.old.me.0 }
        ensures same { StaysSeated seat.old seat.new }
        ensures told { unmark_tells chunk ALL_BUT_ACTIVE seat.old.me result seat.new.me }
    {
        self.table
            .shared
            .fetch_and::<Unmark>(seat, self.head_by(place, chunk), ALL_BUT_ACTIVE)
    }

    /// A worker stores the time of a chunk to a life of which its seat refers.
    pub fn set_time(&self, seat: &mut Seat, chunk: u32, place: usize, now: u64)
        requires seat { IsSeated (words_id self.now) seat.old chunk }
        requires place { place ≡ head_place (words_id self.now).slots chunk }
        requires worker { HasWorker seat.old.me.0 }
        requires held { RefersTo chunk seat.old.me.0 }
        ensures same { StaysSeated seat.old seat.new }
        ensures told { seat.new.me ≡ (
          on_worker (worker_after_store_time (life chunk 0) now) seat.old.me.0,
          seat.old.me.1,
        ) }
    {
        self.table
            .shared
            .store::<StoreTime>(seat, self.time_by(place, chunk), now);
    }
}

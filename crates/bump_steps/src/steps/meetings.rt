//! The steps by which a hold meets its class, and a class a lane, or the store's workers.
ghost use Rattle.std.specs.Prelude.{ℕ, ◌≡◌, ◌<◌};
ghost use Rattle.bump_steps.specs.Seats.{IsSeated, StaysSeated};
ghost use Rattle.bump_steps.specs.Words.{words_id, config_of};
ghost use Rattle.bump_steps.specs.Plays.{on_label, HasClass, TellsOfMoves};
ghost use Rattle.bump_steps.specs.Lives.{on_class};
ghost use Rattle.bump_steps.specs.Meetings.{load_to_meet_tells, load_to_meet_lane_tells, load_to_meet_workers_tells};
ghost use Rattle.bump_steps.specs.Meetings.{class_after_meet, AreOfWorkers};

use crate::laws::RowLaw;
use crate::views::{Empty, View};
use crate::words::{Seat, Words};
use atomic_table::Play;
use std::marker::{Brand, PhantomData};

pub struct LoadToMeet;

impl Play<Empty, View> for LoadToMeet {
    ghost then = { on_label load_to_meet_tells };
}

pub struct LoadToMeetLane;

impl Play<Empty, View> for LoadToMeetLane {
    ghost then = { load_to_meet_lane_tells };
}

/// Tells a load how many workers the store has, which it can't know.
pub trait KnowsWorkers {
    ghost use Rattle.std.specs.Prelude.{ℕ};

    ghost workers: { ℕ };
}

impl KnowsWorkers for Brand {
    ghost workers = { 0 };
}

pub struct LoadToMeetWorkers<C: KnowsWorkers> {
    of: PhantomData<C>,
}

impl<C: KnowsWorkers> Play<Empty, View> for LoadToMeetWorkers<C> {
    ghost then = { load_to_meet_workers_tells C.workers };
}

impl<L: RowLaw> Words<L> {
    /// A load of the label word, for `meet`.
    pub fn meet(&self, seat: &mut Seat, chunk: u32) -> u64
        requires seat { IsSeated (words_id self.now) seat.old chunk }
        requires class { HasClass seat.old.me.0 }
        ensures same { StaysSeated seat.old seat.new }
        ensures told { load_to_meet_tells chunk 0 seat.old.me result seat.new.me }
    {
        self.table
            .shared
            .load::<LoadToMeet>(seat, self.label_at(chunk))
    }

    /// A load of the table's first word, for `meet_lane`: of a spare one, so that no class needs a chunk for it.
    pub fn meet_lane(&self, seat: &mut Seat)
        requires seat { seat.old.table_id ≡ words_id self.now }
        requires some { 0 < (words_id self.now).words }
        requires class { HasClass seat.old.me.0 }
        ensures same { StaysSeated seat.old seat.new }
        ensures noted { seat.new.me ≡ (on_class class_after_meet seat.old.me.0, seat.old.me.1) }
        ensures told { TellsOfMoves seat.old.me.0 }
    {
        let _spare = self.table.shared.load::<LoadToMeetLane>(seat, 0);
    }

    fn meet_workers_by<C: KnowsWorkers>(&self, seat: &mut Seat)
        requires seat { seat.old.table_id ≡ words_id self.now }
        requires some { 0 < (words_id self.now).words }
        requires class { HasClass seat.old.me.0 }
        requires workers { C.workers ≡ (config_of self.now).workers }
        ensures same { StaysSeated seat.old seat.new }
        ensures noted { seat.new.me ≡ (on_class class_after_meet seat.old.me.0, seat.old.me.1) }
        ensures told { AreOfWorkers C.workers seat.old.me.0 × TellsOfMoves seat.old.me.0 }
    {
        let _spare = self.table.shared.load::<LoadToMeetWorkers<C>>(seat, 0);
    }

    /// A load of the table's first word, for `meet_workers`.
    pub fn meet_workers(&self, seat: &mut Seat)
        requires seat { seat.old.table_id ≡ words_id self.now }
        requires some { 0 < (words_id self.now).words }
        requires class { HasClass seat.old.me.0 }
        ensures same { StaysSeated seat.old seat.new }
        ensures noted { seat.new.me ≡ (on_class class_after_meet seat.old.me.0, seat.old.me.1) }
        ensures told { AreOfWorkers (config_of self.now).workers seat.old.me.0 × TellsOfMoves seat.old.me.0 }
    {
        self.meet_workers_by::<Brand>(seat);
    }
}

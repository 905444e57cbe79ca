//! How seats are cut in two, and joined.
ghost use Rattle.std.specs.Prelude.{◌≡◌, ◌<◌, []};
ghost use Rattle.bump_steps.specs.Seats.{StaysSeated};
ghost use Rattle.bump_steps.specs.Words.{words_id};
ghost use Rattle.bump_steps.specs.Rule.{blank};
ghost use Rattle.bump_steps.specs.Cuts.{joined, without_lanes, lanes_only, without_holds, holds_only, without_class};
ghost use Rattle.bump_steps.specs.Cuts.{class_only, without_worker, worker_only, without_lane, lane_only};

use crate::laws::RowLaw;
use crate::views::View;
use crate::words::{Seat, Words};
use atomic_table::{Join, Split};

pub struct Both;

impl Join<View> for Both {
    ghost both = { joined };

    ghost spent = { blank };
}

pub struct LanesOut;

impl Split<View> for LanesOut {
    ghost left = { without_lanes };

    ghost right = { lanes_only };
}

pub struct HoldsOut;

impl Split<View> for HoldsOut {
    ghost left = { without_holds };

    ghost right = { holds_only };
}

pub struct FirstClass;

impl Split<View> for FirstClass {
    ghost left = { without_class };

    ghost right = { class_only };
}

pub struct FirstWorker;

impl Split<View> for FirstWorker {
    ghost left = { without_worker };

    ghost right = { worker_only };
}

pub struct FirstLane;

impl Split<View> for FirstLane {
    ghost left = { without_lane };

    ghost right = { lane_only };
}

impl<L: RowLaw> Words<L> {
    /// Joins another seat to this one, which has the sheets of both from then on. The other one may not have taken a
    /// slot.
    pub fn join(&self, seat: &mut Seat, other: Seat)
        requires { (seat.old.table_id ≡ words_id self.now) × (other.table_id ≡ words_id self.now) × (other.me.1 ≡ [])
            × (0 < (words_id self.now).words) }
        ensures same { StaysSeated seat.old seat.new }
        ensures joined { seat.new.me ≡ (joined seat.old.me.0 other.me.0, seat.old.me.1) }
    {
        self.table.shared.join_seat::<Both>(seat, other);
    }

    /// Cuts the lanes' sheets off the seat, into a seat of their own.
    pub fn part_lanes(&self, seat: &mut Seat) -> Seat
        requires { (seat.old.table_id ≡ words_id self.now) × (0 < (words_id self.now).words) }
        ensures same { (seat.new.table_id ≡ seat.old.table_id) × (seat.new.id ≡ seat.old.id)
            × (result.table_id ≡ seat.old.table_id) }
        ensures sheets { (seat.new.me ≡ (without_lanes seat.old.me.0, seat.old.me.1))
            × (result.me ≡ (lanes_only seat.old.me.0, [])) }
    {
        self.table.shared.split_seat::<LanesOut>(seat)
    }

    /// Cuts the holds' sheets off the seat, into a seat of their own.
    pub fn part_holds(&self, seat: &mut Seat) -> Seat
        requires { (seat.old.table_id ≡ words_id self.now) × (0 < (words_id self.now).words) }
        ensures same { (seat.new.table_id ≡ seat.old.table_id) × (seat.new.id ≡ seat.old.id)
            × (result.table_id ≡ seat.old.table_id) }
        ensures sheets { (seat.new.me ≡ (without_holds seat.old.me.0, seat.old.me.1))
            × (result.me ≡ (holds_only seat.old.me.0, [])) }
    {
        self.table.shared.split_seat::<HoldsOut>(seat)
    }

    /// Cuts the first class's sheet off the seat, into a seat of its own.
    pub fn part_class(&self, seat: &mut Seat) -> Seat
        requires { (seat.old.table_id ≡ words_id self.now) × (0 < (words_id self.now).words) }
        ensures same { (seat.new.table_id ≡ seat.old.table_id) × (seat.new.id ≡ seat.old.id)
            × (result.table_id ≡ seat.old.table_id) }
        ensures sheets { (seat.new.me ≡ (without_class seat.old.me.0, seat.old.me.1))
            × (result.me ≡ (class_only seat.old.me.0, [])) }
    {
        self.table.shared.split_seat::<FirstClass>(seat)
    }

    /// Cuts the first worker's sheet off the seat, into a seat of its own.
    pub fn part_worker(&self, seat: &mut Seat) -> Seat
        requires { (seat.old.table_id ≡ words_id self.now) × (0 < (words_id self.now).words) }
        ensures same { (seat.new.table_id ≡ seat.old.table_id) × (seat.new.id ≡ seat.old.id)
            × (result.table_id ≡ seat.old.table_id) }
        ensures sheets { (seat.new.me ≡ (without_worker seat.old.me.0, seat.old.me.1))
            × (result.me ≡ (worker_only seat.old.me.0, [])) }
    {
        self.table.shared.split_seat::<FirstWorker>(seat)
    }

    /// Cuts the first lane's sheet off the seat, into a seat of its own.
    pub fn part_lane(&self, seat: &mut Seat) -> Seat
        requires { (seat.old.table_id ≡ words_id self.now) × (0 < (words_id self.now).words) }
        ensures same { (seat.new.table_id ≡ seat.old.table_id) × (seat.new.id ≡ seat.old.id)
            × (result.table_id ≡ seat.old.table_id) }
        ensures sheets { (seat.new.me ≡ (without_lane seat.old.me.0, seat.old.me.1))
            × (result.me ≡ (lane_only seat.old.me.0, [])) }
    {
        self.table.shared.split_seat::<FirstLane>(seat)
    }
}

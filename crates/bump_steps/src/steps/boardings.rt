//! The step by which a bump boards its lane.
ghost use Rattle.std.specs.Prelude.{◌≡◌, ◌<◌};
ghost use Rattle.bump_rules.specs.declared.lanes.LaneStage.TheVariants.{Empty as IsEmpty};
ghost use Rattle.bump_steps.specs.declared.views.LaneSheet.{LaneSheet as TheLaneSheet};
ghost use Rattle.bump_steps.specs.declared.views.Ride.{Ride as TheRide};
ghost use Rattle.bump_steps.specs.Seats.{StaysSeated};
ghost use Rattle.bump_steps.specs.Words.{words_id};
ghost use Rattle.bump_steps.specs.Riders.{ride_me, board_both};
ghost use Rattle.bump_steps.specs.Riders.{lane_me};
ghost use Rattle.bump_steps.specs.Rule.{blank};

use crate::laws::RowLaw;
use crate::views::View;
use crate::words::{Seat, Words};
use atomic_table::Join;

pub struct Board;

impl Join<View> for Board {
    ghost both = { board_both };

    ghost spent = { blank };
}

impl<L: RowLaw> Words<L> {
    /// A rider's seat joins a lane's, which has nothing aboard.
    pub fn board(&self, seat: &mut Seat, rider: Seat)
        requires seats { (seat.old.table_id ≡ words_id self.now) × (rider.table_id ≡ words_id self.now)
            × (0 < (words_id self.now).words) }
        requires views { (l : TheLaneSheet) × (r : TheRide) × (seat.old.me ≡ lane_me l) × (l.stage ≡ IsEmpty)
            × (rider.me ≡ ride_me r) }
        ensures same { StaysSeated seat.old seat.new }
        ensures boarded { seat.new.me ≡ (board_both seat.old.me.0 rider.me.0, seat.old.me.1) }
    {
        self.table.shared.join_seat::<Board>(seat, rider);
    }
}

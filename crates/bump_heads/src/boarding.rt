//! How a bump's reference boards a lane.
ghost use Rattle.std.specs.Prelude.{◌≡◌, IsSome, length, option_map};
ghost use Rattle.bump_rules.specs.declared.lanes.LaneStage.TheVariants.{Empty as IsEmpty};
ghost use Rattle.bump_steps.specs.Riders.{lane_after_board, bump_of_ride, applied_by};
ghost use Rattle.bump_heads.specs.Applying.{stage_of};

use crate::seats::LaneSeat;
use atomic_table::Badge;
use bump_readers::{Name, Rider};
use bump_steps::RowLaw;

impl<N: Name, L: RowLaw> LaneSeat<N, L> {
    /// The bump goes aboard the lane, which is whole and has nothing aboard. Its number is that of the bumps that the
    /// lane applied before, and from then on it is a bump of the lane's worker. No word changes.
    #[inline(always)]
    pub fn board(&mut self, rider: Rider<N>)
        requires whole { IsSome self.old }
        requires empty { stage_of self.old ≡ IsEmpty }
        requires next { rider.number ≡ length (applied_by self.old) }
        ensures boarded { self.new ≡ option_map (lane_after_board (bump_of_ride rider)) self.old }
    {
        let (sheet, _life) = rider.into_parts();
        let mut seat = std::mem::replace(&mut self.badge, Badge::blank()).into_seat();
        self.heads.words().board(&mut seat, sheet);
        self.badge = seat.into_badge();
    }
}

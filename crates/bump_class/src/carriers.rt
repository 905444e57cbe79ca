//! A lane but for the bump aboard: who applies bumps has that one in his hand.
ghost use Rattle.std.specs.Prelude.{◌≡◌, length, None, Some, IfSome};
ghost use Rattle.bump_steps.specs.declared.views.Ride.{Ride as TheRide};
ghost use Rattle.bump_steps.specs.Meetings.{class_after_meet};
ghost use Rattle.bump_heads.specs.Applying.{NamesNoBumpTwice, TellsMoves};
ghost use Rattle.bump_class.specs.Lanes.{LaneView as TheLaneView, carries, entries, sheet_or, IsRawLane, KeepsLane};
ghost use Rattle.bump_class.specs.Lanes.{new_lane, AreUnused, Boards, TellsAboard, TellsLeft};

use bump_heads::{ClassSeat, LaneSeat, Name};
use bump_ring::{ClosedSender, Receiver};
use bump_rules::Bump;
use bump_steps::{AnyRow, RowLaw};
use std::marker::Model;

// The receiving end of a worker's ring, and the seat that applies what comes.
#[derive(Drop)]
pub struct Carrier<N: Name, L: RowLaw = AnyRow> {
    receiver: Receiver<N>,
    pub(crate) seat: LaneSeat<N, L>,
    pub(crate) worker: u32,
    pub(crate) applied: u64,
}

impl<N: Name, L: RowLaw> Model for Carrier<N, L> {
    ghost Value = { TheLaneView };

    ghost view = { λ l. record {
      ring = l.receiver.ring;
      received = l.receiver.received;
      known = l.receiver.known;
      sheet = sheet_or l.seat;
    } };

    ghost invariant = { λ l. KeepsLane l.seat l.worker l.applied l.receiver.received };
}

impl<N: Name, L: RowLaw> Carrier<N, L> {
    // Nothing was taken from the ring, and nothing boarded the seat.
    pub fn new(receiver: Receiver<N>, seat: LaneSeat<N, L>) -> Carrier<N, L>
        requires unused { AreUnused receiver.received seat }
        ensures { result ≡ new_lane receiver.ring receiver.known (sheet_or seat) }
    {
        let worker = seat.worker();
        Carrier {
            receiver,
            seat,
            worker,
            applied: 0,
        }
    }

    pub fn applied(&self) -> u64
        ensures { result ≡ length (entries self.now) }
    {
        self.applied
    }

    pub fn worker(&self) -> u32
        ensures { result ≡ self.now.sheet.worker }
    {
        self.worker
    }

    pub fn promise(&self)
        ensures { IsRawLane self.now.sheet self.now.received }
    {
        let _applied = &self.applied;
    }

    // The next bump of the ring goes aboard, where none is. Its number is how many were applied before it.
    #[inline(always)]
    pub fn take(&mut self) -> Option<Bump>
        requires idle { carries self.old ≡ None }
        ensures aboard { TellsAboard self.old result self.new }
        ensures next { IfSome result (λ bump. (ride : TheRide) × Boards self.old bump self.new ride) }
        ensures number { IfSome result (λ bump. bump.number ≡ length (entries self.old)) }
    {
        let rider = self.receiver.take()?;
        rider.promise();
        let bump = Bump {
            number: self.applied,
            life: rider.life(),
        };
        self.seat.board(rider);
        Some(bump)
    }

    // Shows the class and the lane each other, by one load, which the class notes.
    pub fn meet(&mut self, class: &mut ClassSeat<N, L>)
        requires alone { class.old.lane ≡ None }
        ensures class { class.new ≡ record class.old { sheet = class_after_meet class.old.sheet } }
        ensures lane { self.new ≡ self.old }
        ensures kept { IsRawLane self.old.sheet self.old.received }
        ensures once { NamesNoBumpTwice class.old.sheet }
        ensures moves { TellsMoves class.old.sheet self.old.sheet }
    {
        class.meet_lane(&mut self.seat);
    }

    pub fn rest(&mut self, closed: &mut ClosedSender<N>) -> Option<u64>
        requires ring { closed.old.ring ≡ self.old.ring }
        ensures left { TellsLeft closed.old self.old result closed.new self.new }
    {
        self.receiver.rest(closed)
    }
}

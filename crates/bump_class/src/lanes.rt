//! A lane: the receiving end of a worker's ring, and the seat that applies what comes.
ghost use Rattle.std.specs.Prelude.{◌≡◌, length, None, IsSome, IfSome};
ghost use Rattle.bump_steps.specs.declared.views.Ride.{Ride as TheRide};
ghost use Rattle.bump_class.specs.Lanes.{LaneView as TheLaneView, carries, entries, sheet_or, IsRawLane, kept_aboard};
ghost use Rattle.bump_class.specs.Lanes.{new_lane, AreUnused, Boards, TellsAboard, TellsLeft};

use crate::carriers::Carrier;
use bump_heads::{LaneSeat, Name};
use bump_ring::{ClosedSender, Receiver};
use bump_rules::{Bump, ItemId};
use bump_steps::{AnyRow, RowLaw};
use std::marker::Model;

/// The lane of a worker's ring: it takes the ring's bumps in order, and each is applied by the Book of its chunk's
/// class (memcached's `lru_maintainer_bumps`, of one worker's `lru_bump_buf`).
#[derive(Drop)]
pub struct RawLane<N: Name, L: RowLaw = AnyRow> {
    pub(crate) carrier: Carrier<N, L>,
    // Whether it keeps a bump aboard between two calls, and the life of that bump, whose number is known by the
    // carrier's count. Who applies a run has its bump in his hand.
    pub(crate) is_aboard: bool,
    pub(crate) life: ItemId,
}

impl<N: Name, L: RowLaw> Model for RawLane<N, L> {
    ghost Value = { TheLaneView };

    ghost view = { λ l. l.carrier };

    ghost invariant = { λ l. carries l.carrier ≡ kept_aboard l.is_aboard (length (entries l.carrier)) l.life };
}

impl<N: Name, L: RowLaw> RawLane<N, L> {
    /// A lane, by the receiving end of a ring and the seat of a worker's lane. Nothing was taken from the ring, and
    /// nothing boarded the seat.
    pub fn new(receiver: Receiver<N>, seat: LaneSeat<N, L>) -> RawLane<N, L>
        requires unused { AreUnused receiver.received seat }
        ensures { result ≡ new_lane receiver.ring receiver.known (sheet_or seat) }
    {
        RawLane {
            carrier: Carrier::new(receiver, seat),
            is_aboard: false,
            life: ItemId {
                chunk: 0,
                generation: 0,
            },
        }
    }

    /// What every lane keeps: what it applied, followed by the bump aboard, is what it received, with the numbers 0,
    /// 1, 2 and so on; and no bump is half applied.
    pub fn promise(&self)
        ensures { IsRawLane self.now.sheet self.now.received }
    {
        self.carrier.promise();
    }

    /// How many bumps it applied.
    pub fn applied(&self) -> u64
        ensures { result ≡ length (entries self.now) }
    {
        self.carrier.applied()
    }

    /// The number of its worker.
    pub fn worker(&self) -> u32
        ensures { result ≡ self.now.sheet.worker }
    {
        self.carrier.worker()
    }

    /// Takes the next bump out of the ring and aboard, where none is aboard, and tells the one aboard. It answers
    /// None only where none is aboard or known, and nothing is changed then.
    #[inline(always)]
    pub fn fetch(&mut self) -> Option<Bump>
        ensures aboard { TellsAboard self.old result self.new }
        ensures kept { IsSome (carries self.old) → self.new ≡ self.old }
        ensures next { IfSome result (λ bump. carries self.old ≡ None → (ride : TheRide)
            × Boards self.old bump self.new ride) }
    {
        if self.is_aboard {
            return Some(Bump {
                number: self.carrier.applied(),
                life: self.life,
            });
        }
        self.take()
    }

    /// The same for a lane with nothing aboard: takes the next bump out of the ring and aboard, and tells it. It
    /// answers None only where none is known, and nothing is changed then.
    #[inline(always)]
    pub fn take(&mut self) -> Option<Bump>
        requires idle { carries self.old ≡ None }
        ensures aboard { TellsAboard self.old result self.new }
        ensures next { IfSome result (λ bump. (ride : TheRide) × Boards self.old bump self.new ride) }
    {
        let bump = self.carrier.take()?;
        self.is_aboard = true;
        self.life = bump.life;
        Some(bump)
    }

    /// How many bumps are left in the ring, by the closed sender of this ring: all of them are known from then on, and
    /// no other will come: at most as many as the ring's capacity. The bump aboard isn't counted. It may be asked
    /// again. It answers None exactly where the closed sender can't show the ring's end, and nothing is changed then.
    pub fn rest(&mut self, closed: &mut ClosedSender<N>) -> Option<u64>
        requires ring { closed.old.ring ≡ self.old.ring }
        ensures left { TellsLeft closed.old self.old result closed.new self.new }
    {
        self.carrier.rest(closed)
    }
}

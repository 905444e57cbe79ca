//! Draining lanes: each takes the bumps of one worker's ring, and applies them in order.
ghost use Rattle.std.specs.Prelude.{◌≡◌, is_some};
ghost use Rattle.bump_rules.specs.Lanes.{applied_life, is_half_made, carried, tried, applied_now, cleared_active};
ghost use Rattle.bump_rules.specs.Lanes.{is_empty, ending_at};

use crate::bumps::{AppliedBump, Bump, Outcome};
use crate::items::{Head, ItemId};
use crate::places::Segment;

/// How far a lane is with the bump that it carries.
#[derive(Clone, Copy, Debug, PartialEq, Eq)]
pub enum LaneStage {
    /// No bump is aboard.
    Empty,

    /// A bump was taken from the ring.
    Carrying(Bump),

    /// Its item's head was looked at under the class lock.
    Tried(Bump),

    /// Its item's ACTIVE mark was cleared: whether it had been set.
    Cleared(Bump, bool),

    /// Its item was moved to the front of WARM.
    Moved(Bump),
}

impl LaneStage {
    /// Whether no bump is aboard.
    pub fn is_empty(self) -> bool
        ensures { result ≡ is_empty self }
    {
        matches!(self, LaneStage::Empty)
    }

    /// The bump that was taken, and not looked at yet.
    pub fn carried(self) -> Option<Bump>
        ensures { result ≡ carried self }
    {
        match self {
            LaneStage::Carrying(bump) => Some(bump),
            _ => None,
        }
    }

    /// The bump whose item was looked at, and whose ACTIVE was not cleared yet.
    pub fn tried(self) -> Option<Bump>
        ensures { result ≡ tried self }
    {
        match self {
            LaneStage::Tried(bump) => Some(bump),
            _ => None,
        }
    }

    /// The bump that is being applied.
    pub fn applied_now(self) -> Option<Bump>
        ensures { result ≡ applied_now self }
    {
        match self {
            LaneStage::Tried(bump) | LaneStage::Cleared(bump, _) | LaneStage::Moved(bump) => Some(
                bump,
            ),
            _ => None,
        }
    }

    /// The item of the bump that is being applied.
    pub fn applied_life(self) -> Option<ItemId>
        ensures { result ≡ applied_life self }
    {
        match self.applied_now() {
            Some(bump) => Some(bump.life),
            None => None,
        }
    }

    /// Whether a bump is being applied.
    pub fn is_applying(self) -> bool
        ensures { result ≡ is_some (applied_life self) }
    {
        matches!(
            self,
            LaneStage::Tried(_) | LaneStage::Cleared(_, _) | LaneStage::Moved(_)
        )
    }

    /// The bump whose item had ACTIVE, and is to be moved.
    pub fn cleared_active(self) -> Option<Bump>
        ensures { result ≡ cleared_active self }
    {
        match self {
            LaneStage::Cleared(bump, true) => Some(bump),
            _ => None,
        }
    }

    /// Whether another command is half way in applying the bump aboard.
    pub fn is_half_made(self) -> bool
        ensures { result ≡ is_half_made self }
    {
        !matches!(self, LaneStage::Empty | LaneStage::Carrying(_))
    }

    /// What the lane may end its bump with, by the head of the bump's item, if it may.
    pub fn ending(self, head: Head) -> Option<AppliedBump>
        ensures { result ≡ ending_at (λ _. head) self }
    {
        let (bump, outcome) = match self {
            LaneStage::Tried(bump) if !head.linked => (bump, Outcome::Gone),
            LaneStage::Tried(bump) if !matches!(head.segment, Segment::Cold) => {
                (bump, Outcome::TimeOnly)
            }
            LaneStage::Cleared(bump, false) => (bump, Outcome::TimeOnly),
            LaneStage::Moved(bump) => (bump, Outcome::Moved),
            _ => return None,
        };
        Some(AppliedBump {
            number: bump.number,
            life: bump.life,
            outcome,
        })
    }
}

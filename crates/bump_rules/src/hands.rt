//! How far a worker is with an attempted bump.
ghost use Rattle.std.specs.Prelude.{◌≡◌};
ghost use Rattle.bump_rules.specs.Hands.{tried_life, life_in_hand, cleared_life, is_idle, is_on};
ghost use Rattle.bump_rules.specs.Lawful.{bit};

use crate::items::ItemId;

/// How far a worker is with an attempted bump.
#[derive(Clone, Copy, Debug, PartialEq, Eq)]
pub enum Hand {
    /// It attempts none.
    Idle,

    /// It tries to take a reference for the bump.
    Trying(ItemId),

    /// It has the reference in its hand.
    InHand(ItemId),

    /// The bump was dropped, and ACTIVE is to be cleared.
    Clearing(ItemId),
}

impl Hand {
    /// Whether no bump is attempted.
    pub fn is_idle(self) -> bool
        ensures { result ≡ is_idle self }
    {
        matches!(self, Hand::Idle)
    }

    /// Whether a worker is on a life.
    pub fn is_on(self, life: ItemId) -> bool
        ensures { bit result ≡ is_on life self }
    {
        match self {
            Hand::Idle => false,
            Hand::Trying(on) | Hand::InHand(on) | Hand::Clearing(on) => life.is_same(on),
        }
    }

    /// The life of the bump that is tried, if one is.
    pub fn tried(self) -> Option<ItemId>
        ensures { result ≡ tried_life self }
    {
        match self {
            Hand::Trying(life) => Some(life),
            _ => None,
        }
    }

    /// The life of the bump in the hand, if one is.
    pub fn in_hand(self) -> Option<ItemId>
        ensures { result ≡ life_in_hand self }
    {
        match self {
            Hand::InHand(life) => Some(life),
            _ => None,
        }
    }

    /// The life whose ACTIVE is to be cleared, if one is.
    pub fn cleared(self) -> Option<ItemId>
        ensures { result ≡ cleared_life self }
    {
        match self {
            Hand::Clearing(life) => Some(life),
            _ => None,
        }
    }
}

//! Bumps: on their way, what became of each, and how many there were.
ghost use Rattle.std.specs.Prelude.{◌≡◌};
ghost use Rattle.bump_rules.specs.Rings.{no_accounts};

use crate::items::ItemId;

/// No worker attempts more bumps than this: a fourth of the greatest u64, rounded down.
pub const MOST_ATTEMPTS: u64 = 4_611_686_018_427_387_903;

/// A bump on its way.
#[derive(Clone, Copy, Debug, PartialEq, Eq)]
pub struct Bump {
    /// Its number among its worker's accepted bumps, from 0.
    pub number: u64,

    /// The item that was hit.
    pub life: ItemId,
}

/// What applying a bump did: as `Applied`, without what became of an item that was gone.
#[derive(Clone, Copy, Debug, PartialEq, Eq)]
pub enum Outcome {
    /// The item was moved to the front of WARM, and its time stored.
    Moved,

    /// Its time was stored, and it stays where it is.
    TimeOnly,

    /// It was no longer linked, and nothing was stored.
    Gone,
}

/// A bump that a lane has applied.
#[derive(Clone, Copy, Debug, PartialEq, Eq)]
pub struct AppliedBump {
    /// Its number among its worker's accepted bumps, from 0.
    pub number: u64,

    /// The item that was hit.
    pub life: ItemId,

    /// What applying it did.
    pub outcome: Outcome,
}

/// Whether an unlinked item's chunk was free at once, or is still held.
#[derive(Clone, Copy, Debug, PartialEq, Eq)]
pub enum Ended {
    /// Nobody held the chunk any more: it is free.
    Freed,

    /// Others still hold the chunk: it is DYING.
    Deferred,
}

/// What applying a bump did to its item.
#[derive(Clone, Copy, Debug, PartialEq, Eq)]
pub enum Applied {
    /// The item was moved to the front of WARM, and its time stored.
    Moved,

    /// Its time was stored, and it stays where it is.
    TimeOnly,

    /// It was no longer linked, and nothing was stored. Says what became of its chunk when the
    /// bump's reference was given back.
    Gone(Ended),
}

/// A bump that a command applied.
#[derive(Clone, Copy, Debug, PartialEq, Eq)]
pub struct Entry {
    /// Its number among its worker's accepted bumps, from 0.
    pub number: u64,

    /// The item that was hit.
    pub life: ItemId,

    /// What was done.
    pub applied: Applied,
}

/// A worker's counts of bumps. `attempted` is the sum of the other four, plus one while an attempt is
/// neither accepted nor dropped yet.
#[derive(Clone, Copy, Debug, PartialEq, Eq)]
pub struct Accounts {
    /// Bumps attempted: at most 4,611,686,018,427,387,903.
    pub attempted: u64,

    /// Bumps that the worker's ring took.
    pub accepted: u64,

    /// Bumps dropped because the ring had no room.
    pub full: u64,

    /// Bumps dropped after eight failed exchanges, since other threads changed the head word again and again.
    pub busy: u64,

    /// Bumps dropped because the reference count was at its limit.
    pub refs: u64,
}

impl Accounts {
    /// The counts of a worker that has attempted nothing.
    pub fn none() -> Accounts
        ensures { result ≡ no_accounts }
    {
        Accounts {
            attempted: 0,
            accepted: 0,
            full: 0,
            busy: 0,
            refs: 0,
        }
    }
}

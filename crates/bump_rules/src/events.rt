//! Events: each is one atomic step of one thread.
use crate::bumps::Outcome;
use crate::items::{Head, ItemId};
use crate::places::Segment;
use std::alloc::AllocError;
use thiserror::Error;

/// One load, store, exchange or fetch on one word of one chunk, or one push into a ring, or one take from a
/// ring, or the closing of a ring. Where such a step is made under the class lock and stands for a change of
/// the lists, that change belongs to it.
#[derive(Clone, Copy, Debug, PartialEq, Eq)]
pub enum Event {
    /// A load of a chunk's head. Answers the head.
    Load { chunk: u32 },

    /// A worker's reader takes a hold of an item (memcached's `do_item_get`).
    Take { worker: u32, life: ItemId },

    /// A hit by a worker sets FETCHED of an item. Answers the head that it found.
    Fetch { worker: u32, life: ItemId },

    /// A hit by a worker sets ACTIVE of an item, and where it was clear in COLD, a bump is attempted (memcached's
    /// `do_item_bump`). Answers the head that it found.
    Mark { worker: u32, life: ItemId },

    /// A worker's attempted bump gets its reference.
    Reserve { worker: u32 },

    /// A worker's attempted bump is dropped: the count is at its limit. Answers the head.
    DropRefs { worker: u32 },

    /// A worker's attempted bump is dropped: other threads were faster too often. Answers the head.
    DropBusy { worker: u32 },

    /// A worker's ring takes its bump (memcached's `lru_bump_async`). Answers the bump's number.
    Push { worker: u32 },

    /// A worker's bump is dropped for want of room in its ring, and its reference is given back.
    /// Answers the head that it found.
    DropFull { worker: u32 },

    /// After a drop a worker clears ACTIVE. Answers the head that it found.
    Unmark { worker: u32 },

    /// A worker's ring closes, and takes no bump any more.
    Close { worker: u32 },

    /// A hit stores the time of an item, in the caller's ticks.
    StoreTime { life: ItemId, time: u64 },

    /// A hold of an item is given back (memcached's `do_item_remove`). Answers the head that it found.
    Release { life: ItemId },

    /// The label of the next item of a class is stored.
    PutLabel { class: u32, label: u64 },

    /// The time of the next item of a class is stored, in the caller's ticks.
    PutTime { class: u32, time: u64 },

    /// The next item of a class begins its life, at the front of HOT (memcached's `do_item_link`). Answers the item.
    Link { class: u32 },

    /// The next item of a class begins its life, at the front of TEMP. Answers the item.
    LinkTemp { class: u32 },

    /// An item's life ends: LINKED is cleared, the link's reference is given back, and the chunk goes to the front of
    /// DYING (memcached's `do_item_unlink`). Answers the head that it found.
    Unlink { life: ItemId },

    /// A chunk of DYING is found without holders, and is free: it goes to the front of UNUSED, or to RETIRED after
    /// its last generation (memcached's `item_free`). Answers the head.
    Sweep { chunk: u32 },

    /// A pull clears ACTIVE of a chunk. Answers the head that it found.
    ClearActive { chunk: u32 },

    /// A pull moves a chunk's item to the front of a segment (memcached's `lru_pull_tail`).
    Move { chunk: u32, to: Segment },

    /// A worker's lane takes the next bump from its ring (memcached's
    /// `lru_maintainer_bumps`). Answers the bump's number.
    TakeBump { worker: u32 },

    /// A worker's lane looks at the head of its bump's item, under the class lock. Answers the head.
    Try { worker: u32 },

    /// A worker's lane stores the time of its bump's item, in the caller's ticks (memcached's `do_item_update`).
    BumpTime { worker: u32, time: u64 },

    /// A worker's lane clears ACTIVE of its bump's item. Answers the head that it found.
    ClearFor { worker: u32 },

    /// A worker's lane moves its bump's item to the front of WARM.
    MoveFor { worker: u32 },

    /// A worker's lane gives its bump's reference back, and is done with it. Answers what became of the bump.
    Alight { worker: u32 },
}

/// What an event answers.
#[derive(Clone, Copy, Debug, PartialEq, Eq)]
pub enum Reply {
    /// The head that the event found.
    Word(Head),

    /// The number of a bump among its worker's accepted bumps, from 0.
    Number(u64),

    /// The item that begins its life.
    Life(ItemId),

    /// What became of a bump.
    Outcome(Outcome),

    /// The event was made, and has nothing to tell.
    Done,
}

/// Why an event or a command was refused. Nothing was changed.
#[derive(Clone, Copy, Debug, PartialEq, Eq, Error)]
pub enum Refused {
    /// A number is out of range, or the event's condition does not hold.
    #[error("not enabled")]
    NotEnabled,

    /// Memory was asked for and refused.
    #[error("out of memory")]
    OutOfMemory,
}

impl From<AllocError> for Refused {
    ghost use Rattle.std.specs.Prelude.{◌≡◌};
    ghost use Rattle.bump_rules.specs.declared.events.Refused.TheVariants.{OutOfMemory};

    ghost from_gives = { λ _ e. e ≡ OutOfMemory };

    fn from(_e: AllocError) -> Refused {
        Refused::OutOfMemory
    }
}

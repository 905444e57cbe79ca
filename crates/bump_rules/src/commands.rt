//! Commands: each is a call of the running store as its events, with nothing between them.
ghost use Rattle.std.specs.Prelude.{◌≡◌};
ghost use Rattle.bump_rules.specs.Commands.{item_told};
ghost use Rattle.bump_rules.specs.Starts.{link_command};

use crate::bumps::{Ended, Entry};
use crate::items::ItemId;
use crate::places::{Start, Tail};

/// A call. A `now` is the time that it stores, in the caller's ticks.
#[derive(Clone, Copy, Debug, PartialEq, Eq)]
pub enum Command {
    /// Stores an item in HOT, with its label in a class (memcached's `do_item_link`).
    Link { class: u32, label: u64, now: u64 },

    /// Stores an item in TEMP, with its label in a class (memcached's `do_item_link` of an item with `TEMP_LRU`).
    LinkTemp { class: u32, label: u64, now: u64 },

    /// Ends an item, and frees its chunk where nobody holds it (memcached's `do_item_unlink` and `do_item_remove`).
    Unlink { id: ItemId },

    /// Looks at each chunk of a class's DYING, front to back as the list stands, and frees those that nobody holds
    /// (memcached's `item_free`).
    Sweep { class: u32 },

    /// Looks at the last item of a list, and moves it by the tail table (memcached's `lru_pull_tail`).
    Pull { class: u32, tail: Tail },

    /// A worker's reader takes a hold of an item (memcached's `do_item_get`).
    Take { worker: u32, id: ItemId },

    /// A hit by a worker on an item of which there is a hold (memcached's `do_item_bump`).
    Touch { worker: u32, id: ItemId, now: u64 },

    /// Tells the label of a held item.
    Label { id: ItemId },

    /// Gives a hold of an item back (memcached's `do_item_remove`).
    Release { id: ItemId },

    /// Applies the next bump of a worker (memcached's `lru_maintainer_bumps` and `do_item_update`).
    Next { worker: u32, now: u64 },

    /// Closes a worker's ring: it takes no bump any more. What it accepted is still to be applied.
    Close { worker: u32 },
}

impl Command {
    /// The command that stores an item, by where it begins.
    pub fn store(start: Start, class: u32, label: u64, now: u64) -> Command
        ensures { result ≡ link_command start class label now }
    {
        match start {
            Start::Hot => Command::Link { class, label, now },
            Start::Temp => Command::LinkTemp { class, label, now },
        }
    }
}

/// Why a bump was dropped.
#[derive(Clone, Copy, Debug, PartialEq, Eq)]
pub enum Dropped {
    /// The worker's ring had no room.
    Full,

    /// Eight exchanges failed, since other threads were faster. No command answers it:
    /// nothing comes between its events.
    Busy,

    /// The reference count was at its limit.
    RefsFull,
}

/// Whether a worker's ring shows room for one more bump.
#[derive(Clone, Copy, Debug, PartialEq, Eq)]
pub enum Room {
    /// It shows room: it takes the bump.
    Known,

    /// It shows none: the bump is dropped.
    Unknown,
}

/// What the steps of a hit come to, by the hit table.
#[derive(Clone, Copy, Debug, PartialEq, Eq)]
pub enum Hit {
    /// It is the item's first.
    First,

    /// The item was hit before, and is ACTIVE already.
    Already,

    /// ACTIVE was set in HOT, WARM or TEMP, and the time is to be stored.
    Marked,

    /// ACTIVE was set in COLD, and a bump is to be attempted.
    Attempts,
}

/// What a hit did.
#[derive(Clone, Copy, Debug, PartialEq, Eq)]
pub enum Touch {
    /// It was the item's first.
    First,

    /// The item was hit before, and is ACTIVE already.
    Already,

    /// It set ACTIVE in HOT, WARM or TEMP, and stored the time.
    Marked,

    /// It set ACTIVE in COLD, and queued a bump with this number among its worker's accepted bumps, from 0.
    Queued(u64),

    /// It attempted a bump in COLD, which was dropped; ACTIVE is clear again.
    Dropped(Dropped),

    /// The worker attempted 4,611,686,018,427,387,903 bumps before, and makes no further hit.
    Exhausted,
}

/// What a pull did with the last item of its list.
#[derive(Clone, Copy, Debug, PartialEq, Eq)]
pub enum Pulled {
    /// The list was empty.
    Empty,

    /// The item stays.
    Stay(ItemId),

    /// It went to the front of WARM, rescued by ACTIVE.
    Warm(ItemId),

    /// It went to the front of WARM again.
    Again(ItemId),

    /// It went to the front of COLD.
    Cold(ItemId),

    /// It was evicted, and its chunk is free.
    Freed(ItemId),

    /// It was evicted; others still hold its chunk, which is DYING.
    Deferred(ItemId),
}

impl Pulled {
    /// The item at which the pull looked, if there was one.
    pub fn item(self) -> Option<ItemId>
        ensures { result ≡ item_told self }
    {
        match self {
            Pulled::Empty => None,
            Pulled::Stay(id)
            | Pulled::Warm(id)
            | Pulled::Again(id)
            | Pulled::Cold(id)
            | Pulled::Freed(id)
            | Pulled::Deferred(id) => Some(id),
        }
    }
}

/// What a command answers.
#[derive(Clone, Copy, Debug, PartialEq, Eq)]
pub enum Answer {
    /// A link stored this item.
    Linked(ItemId),

    /// No chunk of the class is UNUSED: nothing was stored.
    NoFreeChunk,

    /// An item was ended: whether its chunk is free, or still held.
    Ended(Ended),

    /// Nothing was ended: the item is of another generation than the chunk, or not linked.
    NotLinked,

    /// So many chunks of DYING were freed.
    Swept(u32),

    /// A pull did this.
    Pulled(Pulled),

    /// A hold was taken.
    Held,

    /// Nothing was held or ended: there is no chunk of this number.
    NoSuchChunk,

    /// No hold was taken: the item is of another generation than the chunk, or not linked.
    Stale,

    /// No hold was taken: the reference count is at its limit.
    RefsFull,

    /// A hit did this.
    Touched(Touch),

    /// The label of the item.
    Label(u64),

    /// A hold was given back, or a ring was closed.
    Done,

    /// This bump was applied.
    Bumped(Entry),

    /// No bump waits.
    Nothing,
}

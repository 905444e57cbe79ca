//! Names of items, and what a chunk's head word says.
ghost use Rattle.std.specs.Prelude.{◌≡◌};
ghost use Rattle.bump_rules.specs.Heads.{linked_head, one_fewer, unlinked_head};
ghost use Rattle.bump_rules.specs.Lives.{is_same};

use crate::places::{Segment, Start};

/// An item: a life of a chunk.
#[derive(Clone, Copy, Debug, PartialEq, Eq)]
pub struct ItemId {
    /// The chunk, numbered from 0 over all classes: the first class has the first chunks, the next class the next.
    pub chunk: u32,

    /// Which of the chunk's lives: the configured first generation, then one more with each link, up to 4,294,967,295.
    pub generation: u32,
}

/// What a chunk's head word says.
#[derive(Clone, Copy, Debug, PartialEq, Eq)]
pub struct Head {
    /// The reference count: how many hold the chunk, its being linked included. At most the configured limit.
    pub refs: u32,

    /// Whether the item is linked (memcached's `ITEM_LINKED`).
    pub linked: bool,

    /// Whether the item was hit since it was linked (memcached's `ITEM_FETCHED`).
    pub fetched: bool,

    /// Whether a hit found FETCHED set since the item was linked, and since the mark was last cleared (memcached's
    /// `ITEM_ACTIVE`). Pulls, applied bumps and drops clear it and leave FETCHED, so one more hit sets it again.
    pub active: bool,

    /// The segment that the item is in, or was in when it was unlinked; HOT before the chunk's first life.
    pub segment: Segment,

    /// The generation of the chunk's life, or of its last one where the chunk is free. Before the first life it is one
    /// less than the configured first generation.
    pub generation: u32,
}

impl ItemId {
    /// Whether two items are one.
    pub fn is_same(self, other: ItemId) -> bool
        ensures { result ≡ is_same self other }
    {
        self.chunk == other.chunk && self.generation == other.generation
    }
}

impl Head {
    /// The head of a new life, with its generation: one reference, linked, in HOT or TEMP, without marks.
    pub fn after_link(start: Start, generation: u32) -> Head
        ensures { result ≡ linked_head start generation }
    {
        Head {
            refs: 1,
            linked: true,
            fetched: false,
            active: false,
            segment: start.segment(),
            generation,
        }
    }

    /// The head with a reference fewer.
    pub fn one_fewer(self) -> Head
        ensures { result ≡ one_fewer self }
    {
        Head {
            refs: self.refs.saturating_sub(1),
            ..self
        }
    }

    /// The head of a life that is unlinked: LINKED is clear, and the link's reference is given back.
    pub fn after_unlink(self) -> Head
        ensures { result ≡ unlinked_head self }
    {
        Head {
            linked: false,
            ..self.one_fewer()
        }
    }
}

//! What is measured of a worker's calls.
use crate::hits::HitAnswer;
use crate::stores::{FURTHER, lives};
use bump_store::ItemId;
use std::alloc::{AllocError, Global};

// How many chunks that nobody hits are on each side of items that all threads share: so their cache lines have nothing
// else that is used meanwhile.
const MARGIN: u32 = 16;

/// A workload: each thread has a worker, and hits items of its own, or those that all threads share.
#[derive(Clone, Copy)]
pub struct Reads {
    pub name: &'static str,

    /// How many threads there are, and how many items each of them has: 1 to 1,000,000 together. And whether all stand
    /// in COLD.
    pub threads: u32,
    pub items: u32,
    pub cold: bool,

    /// Whether all threads have the same items, in place of items of their own.
    pub shared: bool,

    /// For how many bumps each worker's ring has room, 1 or more.
    pub capacity: u32,

    /// How many further words each chunk has.
    pub further: u32,

    /// How often each item is hit before the pass.
    pub touches: u32,

    /// Whether each ring is filled with the bumps of the items and drained before the pass. The limit of WARM is 0.
    pub warm: bool,

    /// What each hit of the pass comes to. Without one the items are got and released alone.
    pub wanted: Option<HitAnswer>,

    /// How often the items are gone through.
    pub rounds: u32,

    /// Whether the bumps that wait in the ring are applied, in place of hits. Then there is one thread.
    pub drained: bool,
}

// A workload of items that are only got and released.
const GET: Reads = Reads {
    name: "store_get",
    threads: 1,
    items: 1_024,
    cold: false,
    shared: false,
    capacity: 1,
    further: 0,
    touches: 0,
    warm: false,
    wanted: None,
    rounds: 64,
    drained: false,
};

const HIT: Reads = Reads {
    name: "store_hit",
    touches: 2,
    wanted: Some(HitAnswer::Already),
    ..GET
};

// Each of these hits asks first, and leaves out its touch.
const HIT_ASKED: Reads = Reads {
    name: "store_hit_asked",
    wanted: Some(HitAnswer::Asked),
    ..HIT
};

// Each of these hits takes whatever item its chunk has, and reads two further words too.
const HIT_ANY: Reads = Reads {
    name: "store_hit_any",
    further: FURTHER,
    wanted: Some(HitAnswer::Any),
    ..HIT
};

// Each of these hits reads the same by a glance.
const GLANCE: Reads = Reads {
    name: "store_glance",
    wanted: Some(HitAnswer::Glance),
    ..HIT_ANY
};

// One item, which all threads hit.
const HOT: Reads = Reads {
    name: "store_hot",
    items: 1,
    shared: true,
    rounds: 65_536,
    ..HIT
};

const HOT_ASKED: Reads = Reads {
    name: "store_hot_asked",
    wanted: Some(HitAnswer::Asked),
    ..HOT
};

const FIRST: Reads = Reads {
    name: "store_first",
    items: 8_192,
    wanted: Some(HitAnswer::First),
    rounds: 1,
    ..GET
};

const MARKED: Reads = Reads {
    name: "store_marked",
    touches: 1,
    wanted: Some(HitAnswer::Marked),
    ..FIRST
};

const QUEUED: Reads = Reads {
    name: "store_queued",
    cold: true,
    capacity: 8_192,
    warm: true,
    wanted: Some(HitAnswer::Queued),
    ..FIRST
};

// But for the first one, no bump has room.
const FULL: Reads = Reads {
    name: "store_full",
    capacity: 1,
    touches: 1,
    warm: false,
    wanted: Some(HitAnswer::Full),
    ..QUEUED
};

// The second hit of each item has queued its bump.
const DRAINED: Reads = Reads {
    name: "store_drained",
    touches: 2,
    warm: false,
    drained: true,
    ..QUEUED
};

/// Those that are measured on each of these numbers of threads.
pub const APART: [Reads; 11] = [
    GET, HIT, HIT_ASKED, HIT_ANY, GLANCE, HOT, HOT_ASKED, FIRST, MARKED, QUEUED, FULL,
];

pub const THREADS: [u32; 3] = [1, 2, 4];

/// Those of one thread: bumps that are applied, and hits in stores of two sizes.
pub const ALONE: [Reads; 3] = [
    DRAINED,
    Reads {
        name: "store_hit_1000",
        items: 1_000,
        rounds: 1_000,
        ..HIT
    },
    Reads {
        name: "store_hit_1000000",
        items: 1_000_000,
        rounds: 1,
        ..HIT
    },
];

impl Reads {
    /// The same of so many threads.
    pub fn of_threads(self, threads: u32) -> Reads {
        Reads { threads, ..self }
    }

    /// How many chunks the store has: an item is linked in each.
    pub fn chunks(self) -> u32 {
        if self.shared {
            self.items.wrapping_add(2 * MARGIN)
        } else {
            self.items.wrapping_mul(self.threads)
        }
    }

    /// The items of a thread.
    pub fn items_of(self, alloc: Global, thread: u32) -> Result<Vec<ItemId>, AllocError> {
        let first = if self.shared {
            MARGIN
        } else {
            thread.wrapping_mul(self.items)
        };
        lives(alloc, first, self.items)
    }
}

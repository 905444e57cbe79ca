//! The limits of a shelf.
use cache_part::Bounds;

/// A put whose turn it is applies at most so many of the bumps that wait in each lane. So a burst of them slows no put
/// down by much, and yet they are worked off: a reader queues at most one bump for each get.
pub const PUT_BUMPS: u32 = 16;

/// Each so manieth put has its turn: it applies bumps that wait, and balances HOT and WARM, in so many rounds at most:
/// as many as there were puts.
pub const PUT_ROUNDS: u32 = 8;

/// The limits of a shelf.
#[derive(Clone, Copy, Debug, PartialEq, Eq)]
pub struct Limits {
    /// What keeps HOT and WARM short.
    pub bounds: Bounds,

    /// A tend applies at most so many bumps of each lane.
    pub most: u32,

    /// A tend looks at so many chunks, of those whose turn it is, for items that have expired.
    pub looks: u32,
}

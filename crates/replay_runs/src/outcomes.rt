//! What a run of an access log came to.
use bump_cache::{Accounts, Stats};

/// What a run came to.
#[derive(Clone, Copy, Debug, PartialEq, Eq)]
pub struct RunOutcome {
    /// How many gets there were.
    pub accesses: u64,

    /// Those whose key was in the cache.
    pub hits: u64,

    /// Those whose key wasn't.
    pub misses: u64,

    /// How many keys couldn't be put, behind a miss or by a put of its own, since no chunk was free, though all bumps that
    /// waited were applied.
    pub unplaced: u64,

    /// At most so many bumps waited when a put had applied its share of them. Each holds the chunk of its item, also of
    /// one that has ended.
    pub waiting: u64,

    /// The cache's statistics at the end.
    pub stats: Stats,

    /// The bumps of all readers together, each count at most 2^64 - 1.
    pub bumps: Accounts,
}

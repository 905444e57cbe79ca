//! What a put of an entry comes to that is refused.

use bump_cache::NoRoom;

/// Why a put was refused.
#[derive(Clone, Copy, Debug, PartialEq, Eq, Drop)]
pub enum Refusal {
    /// There was no memory for the entry, or 16,777,184 entries of a part are there already. Nothing changed.
    Memory,

    /// There was no chunk for its row. The entry of what was evicted all the same is gone.
    NoRoom(NoRoom<u64, u64>),
}

/// A put was refused: key and value come back.
#[derive(Debug, Drop)]
pub struct Refused<K, V> {
    /// The key.
    pub key: K,

    /// The value.
    pub value: V,

    /// Why it was refused.
    pub why: Refusal,
}

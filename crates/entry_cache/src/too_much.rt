//! What puts within a limit in bytes come to.
use crate::answers::Refusal;
use crate::placed::EntryPut;
use crate::weights::Weighed;
use bump_cache::Evicted;

/// What a put within a limit in bytes came to.
#[derive(Drop)]
pub struct WeighedPut<N, K, V> {
    /// The put of the entry, which had room then.
    pub put: EntryPut<N, K, Weighed<V>>,

    /// The rows that were evicted before it to make room, in order, by hashes and places. Their entries are gone from the cache, and
    /// whoever has found one keeps it until they let go; it weighs until then.
    pub evicted: Vec<Evicted<u64, u64>>,
}

/// Why a put within a limit in bytes was refused.
#[derive(Clone, Copy, Debug, PartialEq, Eq, Drop)]
pub enum TooMuch {
    /// It weighs more than an eighth of a part's share. Nothing changed.
    TooHeavy,

    /// All rows of the part were evicted, and what readers and answers of puts still have weighs too much.
    NoBytes,

    /// The entry was refused, behind what was evicted for it; or there was no memory to tell what is evicted.
    Entry(Refusal),
}

/// A put within a limit in bytes was refused: key and value come back.
#[derive(Debug, Drop)]
pub struct RefusedWeighed<K, V> {
    /// The key.
    pub key: K,

    /// The value.
    pub value: V,

    /// Why it was refused.
    pub why: TooMuch,

    /// The rows that were evicted all the same, as in `WeighedPut`.
    pub evicted: Vec<Evicted<u64, u64>>,
}

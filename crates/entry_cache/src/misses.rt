//! Why a reader found no entry.

/// Why a get, a peek or a `contains` found nothing, for what its last look came to.
#[derive(Clone, Copy, Debug, PartialEq, Eq, Drop)]
pub enum EntryMiss {
    /// The index had no row of the key's hash; or the look at the index was in vain a thousand times, while other threads changed the
    /// rows that it found.
    NoRow,

    /// Each of a thousand looks found a row whose entry was taken back meanwhile; or which has as many readers as there may be, 2^30 - 1.
    Gone,

    /// The row of the hash leads to the entry of another key, which has the same hash.
    Other,

    /// The key's entry has expired.
    Expired,
}

//! The policies.

/// Which key a full cache evicts for a new one.
#[derive(Clone, Copy, Debug, PartialEq, Eq)]
pub enum Policy {
    /// The key that was asked for least recently.
    Lru,

    /// The key that came first, however often it was asked for since.
    Fifo,

    /// CLOCK, or second chance: the key that came first, but one that was asked for since gets another round, once for
    /// all its hits.
    Clock,

    /// SIEVE: a hand goes from the oldest key towards the newest, and evicts the first key that wasn't asked for since
    /// it last came by. The keys that it passes stay where they are.
    Sieve,

    /// S3-FIFO: a small queue has a tenth of the items, 1 at least, and a main one the others. A new key comes into the
    /// small one. When its turn to go comes there it goes on to the main one if it was asked for twice or more since, and
    /// else it goes, and is remembered for a while: where it is asked for again in that time it comes into the main one at
    /// once. In the main one the key that came first gets another round for each time that it was asked for, up to 3. A
    /// key goes from the small queue if that has its tenth or more, and else from the main one.
    S3Fifo,
}

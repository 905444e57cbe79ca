//! What calls of a cache answer.

/// Why an item was evicted.
#[derive(Clone, Copy, Debug, PartialEq, Eq, Drop)]
pub enum Cause {
    /// It was its turn, and it hadn't expired: memcached's `evicted`.
    Room,

    /// It was its turn, and it had expired: memcached's `reclaimed`.
    Expired,
}

/// What was evicted.
#[derive(Clone, Copy, Debug, PartialEq, Eq, Drop)]
pub struct Evicted<K, V> {
    /// The key.
    pub key: K,

    /// The value that was put under it.
    pub value: V,

    /// Whether it had expired.
    pub cause: Cause,
}

/// What a put came to.
#[derive(Clone, Copy, Debug, PartialEq, Eq, Drop)]
pub struct Put<K, V> {
    /// What the key had before, if it had something that hadn't expired. Its item ended, and one that had expired did
    /// too.
    pub old: Option<V>,

    /// What was evicted to make room, if something was. It is never more than one.
    pub evicted: Option<Evicted<K, V>>,
}

/// What an add came to.
#[derive(Clone, Copy, Debug, PartialEq, Eq, Drop)]
pub enum Added<K, V> {
    /// The key had nothing, or what had expired, and the value was put.
    Put {
        /// What was evicted to make room, if something was. It is never more than one.
        evicted: Option<Evicted<K, V>>,
    },

    /// The key has this, which hasn't expired, and nothing was put.
    Has(V),
}

/// What a get came to that puts where nothing is.
#[derive(Clone, Copy, Debug, PartialEq, Eq, Drop)]
pub enum GotOrPut<K, V> {
    /// The key has this, which hasn't expired, and nothing was made.
    Got(V),

    /// The key had nothing, or what had expired, and a value was made and put.
    Put {
        /// The value that was made.
        value: V,

        /// What was evicted to make room, if something was. It is never more than one.
        evicted: Option<Evicted<K, V>>,
    },
}

/// A put was refused: behind all bumps that it saw waiting each chunk that has no item was found held, by a reader or
/// by a bump that came since, or has had its last generation, and is used no more. As a rule readers then hold as many
/// ended items as the part has spare chunks (`CacheConfig::spare`), or some chunks are used up.
#[derive(Clone, Copy, Debug, PartialEq, Eq, Drop)]
pub struct NoRoom<K, V> {
    /// What was evicted to make room, if something was.
    pub evicted: Option<Evicted<K, V>>,
}

/// A set was refused, where a put is as `NoRoom`.
#[derive(Clone, Copy, Debug, PartialEq, Eq, Drop)]
pub struct Full {
    /// Whether an item was evicted to make room all the same.
    pub evicted: bool,
}

/// An item as `Cache::retain` shows it.
#[derive(Clone, Copy, Debug, PartialEq, Eq, Drop)]
pub struct Item<K, V> {
    /// The key.
    pub key: K,

    /// The value that was put under it.
    pub value: V,

    /// When it expires, in the caller's ticks, or 0 if it never does.
    pub expires: u64,
}

/// What a place of a part came to, of which `Cache::retain` asks.
#[derive(Clone, Copy, Debug, PartialEq, Eq, Drop)]
pub(crate) enum Asked {
    /// The part has no such place.
    NoPlace,

    /// There is no item, or one that has expired: it wasn't asked of.
    Empty,

    /// There is an item, and it stays.
    Stays,

    /// There was an item, and it ended.
    Ended,
}

/// What `Cache::retain` came to.
#[derive(Clone, Copy, Debug, PartialEq, Eq, Drop)]
pub struct Retained {
    /// How many items ended.
    pub ended: u32,

    /// The place from which the next call goes on; or None, where the part's last place was looked at.
    pub next: Option<u32>,
}

//! What a cache is made from.
ghost use Rattle.std.specs.Prelude.{◌≡◌, ◌*◌, ◌≤◌, ◌<◌, min, IfOk, None};
ghost use Rattle.cache_config.specs.Configs.{IsStoreOf, all_chunks, bounds_of, class_of, even_share, first_cache_fault, items_in, new_config, share_of};

use bump_rules::{
    CACHE_REFS, ClassConfig, Classes, Config, MAX_CAPACITY, WIDE_CHUNKS, WIDE_CLASSES,
};
use cache_shelf::Bounds;
use keyed_hash::Seed;
use std::alloc::{AllocError, Global};
use thiserror::Error;

// A cache has at most so many readers: in each of its parts as many workers.
const MOST_READERS: u32 = 64;

/// Why a cache can't be made from these numbers.
#[derive(Clone, Copy, Debug, PartialEq, Eq, Error)]
pub enum CacheFault {
    /// The number of items isn't 1 to 128,000,000.
    #[error("the number of items isn't 1 to 128,000,000")]
    Items,

    /// A part has no spare chunk, or the items and the spare chunks of all parts are more than 128,000,000 together.
    #[error("a part has no spare chunk, or the items and all spare chunks are more than 128,000,000 together")]
    Spare,

    /// The shares of HOT and WARM are more than 100 percent together.
    #[error("the shares of HOT and WARM are more than 100 percent together")]
    Shares,

    /// The number of parts isn't 1 to 256, or there are more of them than items.
    #[error("the number of parts isn't 1 to 256, or is more than that of the items")]
    Parts,

    /// The number of readers isn't 1 to 64.
    #[error("the number of readers isn't 1 to 64")]
    Readers,

    /// The room of a reader's ring isn't 1 to 65,536 bumps.
    #[error("the room of a ring isn't 1 to 65,536 bumps")]
    Ring,
}

/// Why there is nothing that a cache can be opened from.
#[derive(Clone, Copy, Debug, PartialEq, Eq, Error)]
pub enum CacheRefusal {
    /// The configuration has this fault.
    #[error("no cache is made from this: {0}")]
    Fault(CacheFault),

    /// Memory was refused.
    #[error("memory was refused")]
    Memory,
}

/// What a cache is made from.
#[derive(Clone, Copy)]
pub struct CacheConfig {
    /// At most so many items are in it, 1 to 128,000,000.
    pub items: u32,

    /// So many chunks each part has beside those of its items, 1 or more; those of all parts and the items are at most
    /// 128,000,000 together. A put needs one that is free, also where its key has an item, since that ends behind the new
    /// one's beginning; and an item that ended keeps its chunk as long as a reader holds it. A reader holds one item at
    /// most: in a get for a moment, or as a `HeldItem` as long as there is one. With one chunk for each reader and one
    /// more tests saw no put refused, as long as no chunk had had its last generation; no clause says so. With fewer one
    /// may be, where readers hold as many ended items of its part as there are spare chunks.
    pub spare: u32,

    /// HOT's share of the items in percent. Where HOT has more, balances move its last items on, a few at a time (at most 8
    /// rounds at each eighth put, 100 in a tend), so it may have more. memcached has 20.
    pub hot: u32,

    /// WARM's share of them, in the same sense. Bumps and rescues move items into WARM also past it: 916 of 1,000 were seen
    /// there. memcached has 40.
    pub warm: u32,

    /// HOT's last item goes to COLD also where it was used longer ago than so many percent of COLD's age, which is how
    /// long ago COLD's last item was used. memcached has 20 (`hot_max_factor` 0.2). Without a percentage ages don't
    /// count.
    pub hot_age: Option<u32>,

    /// And WARM's where it was used longer ago than so many percent of it. memcached has 200 (`warm_max_factor` 2.0).
    pub warm_age: Option<u32>,

    /// So many parts there are, 1 to 256, and at most as many as items: each has a lock of its own, and a key's part is
    /// by its hash. So puts of keys of different parts don't wait for each other. The items go to the parts evenly, to
    /// the first ones one more where it isn't whole, and a part that is full evicts, whatever room others have.
    pub parts: u32,

    /// So many readers there are, 1 to 64: a thread that gets has one.
    pub readers: u32,

    /// Each reader's ring, of which it has one for each part, has room for so many bumps, 1 to 65,536.
    pub ring: u32,

    /// What expires within so many ticks from its put on is in TEMP, whose items no look moves and which are evicted
    /// last; nothing is where this is None. memcached has 61 seconds where TEMP is on (`temporary_ttl`).
    pub temporary: Option<u64>,

    /// A tend looks at so many chunks for items that have expired, around and around; 0 looks at none. An item that has
    /// expired keeps its chunk until a tend looks at it, or it is put anew, removed or evicted.
    pub expiry_looks: u32,

    /// The seed of the keys' hashes. Who knows it can choose keys that have one hash, and make each call slow: where
    /// others choose the keys take `Seed::random`.
    pub seed: Seed,
}

// How many of so many come to a part: evenly many, and one more to the first ones where that isn't whole.
#[tactic(auto, using(crate::proofs::Evens::share_most))]
fn share_in(total: u32, parts: u32, part: u32) -> u32
    requires { part < parts }
    ensures share { result ≡ even_share total parts part }
    ensures most { result ≤ total }
{
    let even = total / parts;
    if part < total % parts { even + 1 } else { even }
}

// So many percent of the items, and all of them where it is more than 100.
fn share(items: u32, percent: u32) -> u32
    ensures share { result ≡ share_of items percent }
    ensures most { result ≤ items }
{
    (u64::from(items) * u64::from(percent.min(100)) / 100) as u32
}

impl CacheConfig {
    /// That of a cache of one part with so many items, 1 to 128,000,000, and so many readers, 1 to 64, as memcached has
    /// it: the shares of HOT and WARM are 20 and 40 percent of the items, their last ones are used no longer ago than 20
    /// and 200 percent of COLD's age, and a reader's ring has room for 8,192 bumps (`LRU_BUMP_BUF_SIZE`). A part has a
    /// spare chunk for each reader, and one more: so `fault` tells `Spare` of more items than 128,000,000 less these. Nothing
    /// is in TEMP, and a tend looks at 1,000 chunks for items that have expired.
    pub fn new(items: u32, readers: u32, seed: Seed) -> CacheConfig
        ensures { result ≡ new_config items readers seed }
    {
        CacheConfig {
            items,
            spare: readers.saturating_add(1),
            hot: 20,
            warm: 40,
            hot_age: Some(20),
            warm_age: Some(200),
            parts: 1,
            readers,
            ring: 8_192,
            temporary: None,
            expiry_looks: 1_000,
            seed,
        }
    }

    /// The first fault of these numbers, in the order of `CacheFault`, if they have one.
    pub fn fault(&self) -> Option<CacheFault>
        ensures { result ≡ first_cache_fault self.now }
    {
        if self.items < 1 || self.items > WIDE_CHUNKS {
            return Some(CacheFault::Items);
        }
        if self.spare < 1 || self.all_chunks() > WIDE_CHUNKS {
            return Some(CacheFault::Spare);
        }
        if self.hot > 100 || self.warm > 100 || self.hot + self.warm > 100 {
            return Some(CacheFault::Shares);
        }
        if self.parts < 1 || self.parts > WIDE_CLASSES || self.parts > self.items {
            return Some(CacheFault::Parts);
        }
        if self.readers < 1 || self.readers > MOST_READERS {
            return Some(CacheFault::Readers);
        }
        if self.ring < 1 || self.ring > MAX_CAPACITY {
            return Some(CacheFault::Ring);
        }
        None
    }

    // How many chunks all parts have together, as far as that is a number.
    pub(crate) fn all_chunks(&self) -> u32
        ensures { result ≡ min (all_chunks self.now) 4294967295 }
    {
        let spare = self.spare.saturating_mul(self.parts);
        self.items.saturating_add(spare)
    }

    // How many workers the cache's store has: one for each reader and part, as far as that is a number.
    fn workers(&self) -> u32
        ensures { result ≡ min (self.now.readers * self.now.parts) 4294967295 }
    {
        self.readers.saturating_mul(self.parts)
    }

    /// At most so many items are in a part, by its number, which counts from 0.
    pub fn items_in(&self, part: u32) -> u32
        requires part { part < self.now.parts }
        ensures items { result ≡ items_in self.now part }
        ensures most { result ≤ self.now.items }
    {
        share_in(self.items, self.parts, part)
    }

    /// HOT's share of a part's items, as `hot` says, rounded down: where HOT has more, a balance moves its last item on.
    pub fn hot_items(&self, part: u32) -> u32
        requires part { part < self.now.parts }
        ensures { result ≡ share_of (items_in self.now part) self.now.hot }
    {
        share(self.items_in(part), self.hot)
    }

    /// WARM's share of a part's items, as `warm` says, rounded down: where WARM has more, a balance moves its last item on.
    pub fn warm_items(&self, part: u32) -> u32
        requires part { part < self.now.parts }
        ensures { result ≡ share_of (items_in self.now part) self.now.warm }
    {
        share(self.items_in(part), self.warm)
    }

    /// What keeps a part's HOT and WARM short: their shares of its items, and the ages of their last ones.
    pub fn bounds(&self, part: u32) -> Bounds
        requires part { part < self.now.parts }
        ensures { result ≡ bounds_of self.now part }
    {
        Bounds {
            hot: self.hot_items(part),
            warm: self.warm_items(part),
            hot_age: self.hot_age,
            warm_age: self.warm_age,
        }
    }

    /// The class that a part is of, by its number: it has chunks for the part's items and its spare ones, and no limits
    /// of its own. This configuration has no fault.
    pub fn class(&self, part: u32) -> ClassConfig
        requires sound { first_cache_fault self.now ≡ None }
        requires part { part < self.now.parts }
        ensures { result ≡ class_of self.now part }
    {
        ClassConfig {
            chunks: self.items_in(part) + self.spare,
            hot: 0,
            warm: 0,
        }
    }

    /// The configuration of the store that a cache of this configuration is made over: a class for each part, whose
    /// lists have no limits of their own, since the cache looks at their sizes itself; and a worker for each reader and
    /// part. This one has no fault (`fault` answers None). It is refused for want of memory alone.
    pub fn store(&self, alloc: Global) -> Result<Config, AllocError>
        requires sound { first_cache_fault self.now ≡ None }
        ensures store { IfOk result (λ store. IsStoreOf self.now store) }
    {
        let mut classes = Vec::with_capacity(alloc, self.parts as usize)?;
        for part in 0..self.parts {
            classes.push(self.class(part))?;
        }
        Ok(Config {
            workers: self.workers(),
            capacity: self.ring,
            refs_limit: CACHE_REFS,
            first_generation: 1,
            classes: Classes::from_vec(classes),
        })
    }
}

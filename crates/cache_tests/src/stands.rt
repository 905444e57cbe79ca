//! A cache that a test was given, with whoever changes it.
ghost use Rattle.std.specs.Prelude.{◌≡◌, length};
ghost use Rattle.bump_cache.specs.Opening.{IsNamed};

use bump_cache::{
    Cache, CacheBlank, CacheConfig, CacheReader, Changer, Evicted, Full, Item, LogName, Miss, Name,
    NoRoom, Opened, Packed, Put, Retained, Seed, Stats, open,
};
use std::alloc::{AllocError, Global};
use std::sync::Wait;
use std::sync::atomic::{AtomicBool, AtomicU64, Ordering};

/// A key and its value.
#[derive(Clone, Copy, Drop)]
pub struct Entry<K, V> {
    /// The key.
    pub key: K,

    /// The value.
    pub value: V,
}

/// What a clock has, until a flag is set.
pub fn time_of(clock: &AtomicU64, stop: &AtomicBool) -> Option<u64> {
    if stop.load(Ordering::SeqCst) {
        None
    } else {
        Some(clock.load(Ordering::SeqCst))
    }
}

/// Puts a value under a key, by whoever changes a cache: a loop that passes a changer on needs no invariant.
pub fn put<N: Name + LogName, K: Packed, V: Packed, W: Wait>(
    rt: &W,
    cache: &Cache<N, K, V>,
    changer: &mut Changer<N>,
    entry: &Entry<K, V>,
    now: u64,
) -> Result<Put<K, V>, NoRoom<K, V>> {
    cache.put(rt, &mut changer.me, &entry.key, &entry.value, now)
}

/// Ends the item of a key, so too.
pub fn remove<N: Name + LogName, K: Packed, V: Packed, W: Wait>(
    rt: &W,
    cache: &Cache<N, K, V>,
    changer: &mut Changer<N>,
    key: &K,
    now: u64,
) -> Option<V> {
    cache.remove(rt, &mut changer.me, key, now)
}

/// A cache that one thread has, with its readers.
#[derive(Drop)]
pub struct Stand<N: Name + LogName, K: Packed, V: Packed> {
    cache: Cache<N, K, V>,
    changer: Changer<N>,
    readers: Vec<CacheReader<N, K, V>>,
}

impl<N: Name + LogName, K: Packed, V: Packed> Stand<N, K, V> {
    /// Opens a cache. It is refused only for want of memory.
    pub fn open<W: Wait>(
        alloc: Global,
        rt: &W,
        blank: CacheBlank<K, V>,
    ) -> Result<Stand<N, K, V>, AllocError>
        requires { IsNamed N.table N.book N.name N.parts blank }
    {
        let Opened {
            cache,
            caller,
            readers,
        } = open::<N, K, V, W>(alloc, rt, blank)?;
        Ok(Stand {
            cache,
            changer: Changer::new(caller),
            readers,
        })
    }

    /// Puts a value under a key.
    pub fn put<W: Wait>(
        &mut self,
        rt: &W,
        key: K,
        value: V,
        now: u64,
    ) -> Result<Put<K, V>, NoRoom<K, V>> {
        self.cache.put(rt, &mut self.changer.me, &key, &value, now)
    }

    /// Puts a value under a key, which expires then.
    pub fn put_until<W: Wait>(
        &mut self,
        rt: &W,
        entry: &Entry<K, V>,
        expires: u64,
        now: u64,
    ) -> Result<Put<K, V>, NoRoom<K, V>> {
        let Entry { key, value } = entry;
        self.cache
            .put_until(rt, &mut self.changer.me, key, value, expires, now)
    }

    /// Puts a value under a key, which expires then, and hears only whether another item was evicted.
    pub fn set<W: Wait>(
        &mut self,
        rt: &W,
        entry: &Entry<K, V>,
        expires: u64,
        now: u64,
    ) -> Result<bool, Full> {
        let Entry { key, value } = entry;
        self.cache
            .set(rt, &mut self.changer.me, key, value, expires, now)
    }

    /// What a key has, as a look under its part's lock tells.
    pub fn look<W: Wait>(&mut self, rt: &W, key: &K, now: u64) -> Option<V> {
        self.cache.look(rt, &mut self.changer.me, key, now)
    }

    /// Ends the item of a key.
    pub fn remove<W: Wait>(&mut self, rt: &W, key: &K, now: u64) -> Option<V> {
        self.cache.remove(rt, &mut self.changer.me, key, now)
    }

    /// Tends the cache.
    pub fn tend<W: Wait>(&mut self, rt: &W, now: u64) {
        self.cache.tend(rt, &mut self.changer.me, now);
    }

    /// Ends the next item of a part that has expired, and tells it.
    pub fn take_expired<W: Wait>(&mut self, rt: &W, part: u32, now: u64) -> Option<Evicted<K, V>> {
        self.cache.take_expired(rt, &mut self.changer.me, part, now)
    }

    /// Evicts the item of a part whose turn it is, and tells it.
    pub fn evict<W: Wait>(&mut self, rt: &W, part: u32, now: u64) -> Option<Evicted<K, V>> {
        self.cache.evict(rt, &mut self.changer.me, part, now)
    }

    /// Asks a closure of so many places of a part, and ends the items that it doesn't keep.
    pub fn retain<W: Wait, F: FnMut(&Item<K, V>) -> bool>(
        &mut self,
        rt: &W,
        part: u32,
        from: u32,
        looks: u32,
        now: u64,
        mut keep: F,
    ) -> Retained
        requires { F.IsAlwaysCallable keep }
    {
        let me = &mut self.changer.me;
        self.cache.retain(rt, me, part, from, looks, now, &mut keep)
    }

    /// How many parts there are.
    pub fn parts(&self) -> u32 {
        self.cache.parts()
    }

    /// The part of a key.
    pub fn part_of(&self, key: &K) -> u32 {
        self.cache.part_of(key)
    }

    /// Ends each item.
    pub fn clear<W: Wait>(&mut self, rt: &W) {
        self.cache.clear(rt, &mut self.changer.me);
    }

    /// The statistics.
    pub fn stats<W: Wait>(&mut self, rt: &W) -> Stats {
        self.cache.stats(rt, &mut self.changer.me)
    }

    /// What a reader gets under a key; nothing where there is no such reader.
    pub fn get(&mut self, reader: usize, key: &K, now: u64) -> Option<V> {
        self.readers.get_mut(reader)?.get(key, now)
    }

    /// The same of many keys, in as many places as there are keys. They stay as they are where there is no such reader.
    pub fn get_many(&mut self, reader: usize, keys: &[K], values: &mut [Option<V>], now: u64)
        requires even { length values.old ≡ length keys.now }
    {
        if let Some(reader) = self.readers.get_mut(reader) {
            reader.get_many(keys, values, now);
        }
    }

    /// What a reader finds there without a touch.
    pub fn peek(&mut self, reader: usize, key: &K, now: u64) -> Option<V> {
        self.readers.get_mut(reader)?.peek(key, now)
    }

    /// Whether a reader finds something there.
    pub fn contains(&mut self, reader: usize, key: &K, now: u64) -> bool {
        match self.readers.get_mut(reader) {
            Some(reader) => reader.contains(key, now),
            None => false,
        }
    }

    /// Why a reader found nothing in the key's part when it last did.
    pub fn last_miss(&self, reader: usize, key: &K) -> Option<Miss> {
        let reader = self.readers.get(reader)?;
        Some(reader.last_miss(key))
    }

    /// How many gets of all readers found something, and how many nothing.
    pub fn hits_and_misses(&self) -> (u64, u64) {
        let mut hits = 0u64;
        let mut misses = 0u64;
        for reader in &self.readers {
            hits = hits.saturating_add(reader.hits());
            misses = misses.saturating_add(reader.misses());
        }
        (hits, misses)
    }

    /// How many bumps of all readers were dropped.
    pub fn bumps_dropped(&self) -> u64 {
        let mut dropped = 0u64;
        for reader in &self.readers {
            dropped = dropped.saturating_add(reader.bumps_dropped());
        }
        dropped
    }
}

/// The seed of the tests: some numbers.
pub const SEED: Seed = Seed {
    first: 0x0123_4567_89ab_cdef,
    second: 0xfedc_ba98_7654_3211,
};

/// The configuration of a small cache of one reader, with these shares of HOT and WARM in percent.
pub fn config_of(items: u32, spare: u32, hot: u32, warm: u32, ring: u32) -> CacheConfig {
    CacheConfig {
        items,
        spare,
        hot,
        warm,
        ring,
        ..CacheConfig::new(items, 1, SEED)
    }
}

/// The next of the random numbers that a seed begins.
pub fn next(seed: &mut u64) -> u64 {
    *seed = seed
        .wrapping_mul(6_364_136_223_846_793_005)
        .wrapping_add(1_442_695_040_888_963_407);
    *seed >> 33
}

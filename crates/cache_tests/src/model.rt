//! A model of a cache: a plain map, and what the calls came to.
use crate::numbered::{Numbered, number_of};
use bump_cache::{Cause, NoRoom, Put, Stats};
use std::alloc::Global;
use std::collections::HashMap;

// What a key has.
#[derive(Clone, Copy)]
struct Had {
    value: u64,
    // when it expires, or 0
    expires: u64,
    // whether a get found it
    got: bool,
}

impl Had {
    // Whether it has expired.
    fn is_over(self, now: u64) -> bool {
        self.expires != 0 && self.expires <= now
    }
}

/// What a put told of an item that it evicted.
#[derive(Clone, Copy)]
pub struct Lost {
    key: u64,
    value: u64,
    // whether it had expired
    expired: bool,
}

/// What a put told, by the numbers of keys and values.
#[derive(Clone, Copy)]
pub struct Told {
    /// Whether there was room.
    pub room: bool,

    /// What the key had.
    pub old: Option<u64>,

    /// What was evicted.
    pub evicted: Option<Lost>,
}

/// What a put told.
pub fn answer_of<K: Numbered, V: Numbered>(put: &Result<Put<K, V>, NoRoom<K, V>>) -> Told {
    let (room, old, evicted) = match put {
        Ok(did) => (true, number_of(&did.old), &did.evicted),
        Err(why) => (false, None, &why.evicted),
    };
    let evicted = match evicted {
        Some(lost) => Some(Lost {
            key: lost.key.number(),
            value: lost.value.number(),
            expired: lost.cause == Cause::Expired,
        }),
        None => None,
    };
    Told { room, old, evicted }
}

/// What each key has, and how often calls came to what.
#[derive(Drop)]
pub struct Model {
    alloc: Global,
    items: usize,
    chunks: usize,
    map: HashMap<u64, Had>,
    hits: u64,
    misses: u64,
    placed: u64,
    evicted: u64,
    unfetched: u64,
    reclaimed: u64,
    // those that had expired when they were evicted or a tend found them, and that no get had found
    expired_unfetched: u64,
    swept: u64,
}

// All of them together.
fn sum(parts: &[u64]) -> u64 {
    let mut all = 0u64;
    for part in parts {
        all = all.saturating_add(*part);
    }
    all
}

/// Whether what came into each list is there still or went out.
pub fn adds_up(stats: &Stats) -> bool {
    let flow = stats.flow;
    let hot = sum(&[
        u64::from(stats.number_hot),
        flow.hot_to_warm,
        flow.hot_to_cold,
        flow.ended_hot,
    ]);
    let warm = sum(&[
        u64::from(stats.number_warm),
        flow.warm_to_cold,
        flow.ended_warm,
    ]);
    let cold = sum(&[
        u64::from(stats.number_cold),
        flow.cold_to_warm,
        flow.ended_cold,
    ]);
    let temp = sum(&[u64::from(stats.number_temp), flow.ended_temp]);
    hot == flow.linked
        && temp == flow.linked_temp
        && warm == sum(&[flow.hot_to_warm, flow.cold_to_warm])
        && cold == sum(&[flow.hot_to_cold, flow.warm_to_cold])
}

/// How many items there are.
pub fn items_in(stats: &Stats) -> u64 {
    sum(&[
        u64::from(stats.number_hot),
        u64::from(stats.number_warm),
        u64::from(stats.number_cold),
        u64::from(stats.number_temp),
    ])
}

impl Model {
    /// No key has anything, in a cache of so many items and so many chunks beside those. No bump may wait there behind
    /// the beginning of a put, so each chunk without an item comes free.
    pub fn new(alloc: Global, items: u32, spare: u32) -> Model {
        Model {
            alloc,
            items: items as usize,
            chunks: (items as usize).saturating_add(spare as usize),
            map: HashMap::new(alloc),
            hits: 0,
            misses: 0,
            placed: 0,
            evicted: 0,
            unfetched: 0,
            reclaimed: 0,
            expired_unfetched: 0,
            swept: 0,
        }
    }

    // An item was evicted, or had expired and made room.
    fn count(&mut self, had: Had, expired: bool) {
        if expired {
            self.reclaimed = self.reclaimed.saturating_add(1);
            self.expired_unfetched = self.expired_unfetched.saturating_add(u64::from(!had.got));
        } else {
            self.evicted = self.evicted.saturating_add(1);
            self.unfetched = self.unfetched.saturating_add(u64::from(!had.got));
        }
    }

    // What a key had was evicted. It tells whether that is what was told.
    fn evict(&mut self, lost: Lost, now: u64) -> bool {
        let Some(had) = self.map.remove(&lost.key) else {
            return false;
        };
        self.count(had, lost.expired);
        had.value == lost.value && had.is_over(now) == lost.expired
    }

    // What a key has that hasn't expired.
    fn has(&self, key: u64, now: u64) -> Option<Had> {
        match self.map.get(&key).copied() {
            Some(had) if had.is_over(now) => None,
            had => had,
        }
    }

    /// A put of a value under a key, which expires then or never (0), told this. It tells whether that is right: one is
    /// evicted just where the key had nothing and as many items are there as may be, and the put is refused just where
    /// then each chunk has an item.
    pub fn put(&mut self, key: u64, value: u64, expires: u64, now: u64, told: Told) -> bool {
        let had = self.has(key, now).map(|had| had.value);
        let is_full = !self.map.contains_key(&key) && self.map.len() >= self.items;
        let mut right = told.evicted.is_some() == is_full;
        if let Some(lost) = told.evicted {
            right = self.evict(lost, now) && lost.key != key && right;
        }
        right = told.room == (self.map.len() < self.chunks) && right;
        if told.room {
            self.placed = self.placed.saturating_add(1);
            let has = Had {
                value,
                expires,
                got: false,
            };
            self.map.insert(key, has).ok();
            told.old == had && right
        } else {
            right
        }
    }

    /// A removal told what the key had. It tells whether that is right.
    pub fn remove(&mut self, key: u64, now: u64, told: Option<u64>) -> bool {
        let had = self.has(key, now).map(|had| had.value);
        self.map.remove(&key);
        had == told
    }

    /// A tend looked at each chunk: what has expired is gone. The keys are below a number.
    pub fn sweep(&mut self, keys: u64, now: u64) {
        for key in 0..keys {
            let Some(had) = self.map.get(&key).copied() else {
                continue;
            };
            if had.is_over(now) {
                self.map.remove(&key);
                self.swept = self.swept.saturating_add(1);
                self.expired_unfetched = self.expired_unfetched.saturating_add(u64::from(!had.got));
            }
        }
    }

    /// All was ended.
    pub fn clear(&mut self) {
        self.map = HashMap::new(self.alloc);
    }

    /// A get answered this. It tells whether the key has that.
    pub fn get(&mut self, key: u64, now: u64, got: Option<u64>) -> bool {
        let Some(had) = self.has(key, now) else {
            self.misses = self.misses.saturating_add(1);
            return got.is_none();
        };
        self.hits = self.hits.saturating_add(1);
        self.map.insert(key, Had { got: true, ..had }).ok();
        got == Some(had.value)
    }

    /// What a key has that hasn't expired.
    pub fn value(&self, key: u64, now: u64) -> Option<u64> {
        self.has(key, now).map(|had| had.value)
    }

    // Whether the statistics tell what was evicted, and what had expired.
    fn has_ended(&self, stats: &Stats) -> bool {
        stats.evicted() == self.evicted
            && stats.direct_reclaims() == self.evicted
            && stats.evicted_unfetched() == self.unfetched
            && stats.reclaimed() == self.reclaimed
            && stats.crawler_reclaimed() == self.swept
            && stats.expired_unfetched() == self.expired_unfetched
            && sum(&[stats.evicted_unfetched(), stats.evicted_active()]) <= stats.evicted()
    }

    /// Whether the statistics add up, and tell what the calls came to.
    pub fn agrees(&self, stats: &Stats) -> bool {
        let flow = stats.flow;
        adds_up(stats)
            && items_in(stats) == self.map.len() as u64
            && sum(&[flow.linked, flow.linked_temp]) == self.placed
            && self.has_ended(stats)
            && stats.moves_to_cold == sum(&[flow.hot_to_cold, flow.warm_to_cold])
            && stats.moves_to_warm == sum(&[flow.hot_to_warm, flow.cold_to_warm])
            && stats.moves_within_lru == flow.warm_to_warm
    }

    /// Whether readers of so many hits and misses got what the gets came to.
    pub fn has_got(&self, hits: u64, misses: u64) -> bool {
        hits == self.hits && misses == self.misses
    }
}

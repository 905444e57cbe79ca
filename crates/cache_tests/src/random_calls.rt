//! Random calls on a cache and on its model, a plain map, and the statistics of what they came to.
ghost use Rattle.std.specs.Prelude.{◌+◌, ◌≤◌};
ghost use Rattle.bump_cache.specs.Opening.{IsNamed};

use crate::expecting::*;
use crate::model::{Model, answer_of};
use crate::numbered::{Numbered, number_of};
use crate::stands::{Entry, SEED, Stand, config_of, next};
use bump_cache::{Bytes, CacheBlank, CacheConfig, LogName, Name, TooLong};
use std::alloc::{AllocError, Global};
use std::marker::Brand;
use std::sync::Wait;
use std::test::Fail;

/// So many calls are made of each cache. By hand 100,000 may stand here, too.
const CALLS: u64 = 3_000;

// Which calls are made.
#[derive(Clone, Copy)]
struct Calls {
    // the keys' numbers are below this
    keys: u64,
    count: u64,
    // whether the cache is tended now and then
    tends: bool,
    // one of so many calls ends all items
    clears: u64,
    // whether some items expire
    expires: bool,
}

// Why there was no answer.
enum Wanting {
    Memory,
    Room,
}

impl From<AllocError> for Wanting {
    fn from(_: AllocError) -> Wanting {
        Wanting::Memory
    }
}

impl From<TooLong> for Wanting {
    fn from(_: TooLong) -> Wanting {
        Wanting::Room
    }
}

// A cache and its model, on which calls are made.
#[derive(Drop)]
struct Pair<N: Name + LogName, K: Numbered, V: Numbered> {
    stand: Stand<N, K, V>,
    model: Model,
    seed: u64,
    readers: u64,
}

// Each of these tells whether the cache's answer is the model's.
impl<N: Name + LogName, K: Numbered, V: Numbered> Pair<N, K, V> {
    fn put<W: Wait>(&mut self, rt: &W, key: u64, now: u64) -> Result<bool, TooLong> {
        let put = self.stand.put(rt, K::of(key)?, V::of(now)?, now);
        Ok(self.model.put(key, now, 0, now, answer_of(&put)))
    }

    // An item that expires soon, or has: a few ticks before the time, or after it.
    fn put_until<W: Wait>(&mut self, rt: &W, key: u64, now: u64) -> Result<bool, TooLong> {
        let expires = now
            .saturating_add(next(&mut self.seed) % 64)
            .saturating_sub(4);
        let entry = Entry {
            key: K::of(key)?,
            value: V::of(now)?,
        };
        let put = self.stand.put_until(rt, &entry, expires, now);
        Ok(self.model.put(key, now, expires, now, answer_of(&put)))
    }

    fn remove<W: Wait>(&mut self, rt: &W, key: u64, now: u64) -> Result<bool, TooLong> {
        let old = self.stand.remove(rt, &K::of(key)?, now);
        Ok(self.model.remove(key, now, number_of(&old)))
    }

    fn get(&mut self, key: u64, now: u64) -> Result<bool, TooLong> {
        let reader = self.reader();
        let got = self.stand.get(reader, &K::of(key)?, now);
        Ok(self.model.get(key, now, number_of(&got)))
    }

    fn look(&mut self, key: u64, now: u64) -> Result<bool, TooLong> {
        let reader = self.reader();
        let its_key = K::of(key)?;
        let seen = self.stand.peek(reader, &its_key, now);
        let is_there = self.stand.contains(reader, &its_key, now);
        Ok(number_of(&seen) == self.model.value(key, now) && is_there == seen.is_some())
    }

    fn tend<W: Wait>(&mut self, rt: &W, calls: Calls, now: u64) -> bool {
        if calls.tends {
            self.stand.tend(rt, now);
            self.model.sweep(calls.keys, now);
        }
        true
    }

    fn clear<W: Wait>(&mut self, rt: &W) -> bool {
        self.stand.clear(rt);
        self.model.clear();
        true
    }

    // One of the readers.
    fn reader(&mut self) -> usize {
        (next(&mut self.seed) % self.readers.max(1)) as usize
    }

    // Makes a call, of some kind and with some key.
    fn call<W: Wait>(&mut self, rt: &W, calls: Calls, now: u64) -> Result<bool, TooLong> {
        let key = next(&mut self.seed) % calls.keys.max(1);
        if next(&mut self.seed) % calls.clears.max(1) == 0 {
            return Ok(self.clear(rt));
        }
        match next(&mut self.seed) % 16 {
            0..=2 if calls.expires => self.put_until(rt, key, now),
            0..=5 => self.put(rt, key, now),
            6 => self.remove(rt, key, now),
            7 => Ok(self.tend(rt, calls, now)),
            8 | 9 => self.look(key, now),
            _ => self.get(key, now),
        }
    }

    // Makes the calls, and tells how many came to something else, or left statistics that don't tell of it.
    fn check<W: Wait>(&mut self, rt: &W, calls: Calls) -> Result<u64, TooLong> {
        let mut wrong = 0u64;
        for now in 0..calls.count {
            let right = self.call(rt, calls, now)?;
            let stats = self.stand.stats(rt);
            let (hits, misses) = self.stand.hits_and_misses();
            if !right || !self.model.agrees(&stats) || !self.model.has_got(hits, misses) {
                wrong = wrong.saturating_add(1);
            }
        }
        Ok(wrong)
    }
}

// Opens a cache under the names that the blank's table and log have, and makes the calls.
fn run<N: Name + LogName, K: Numbered, V: Numbered, W: Wait>(
    rt: &W,
    alloc: Global,
    blank: CacheBlank<K, V>,
    config: &CacheConfig,
    calls: Calls,
) -> Result<u64, Wanting>
    requires { IsNamed N.table N.book N.name N.parts blank }
{
    let mut pair = Pair {
        stand: Stand::<N, K, V>::open(alloc, rt, blank)?,
        model: Model::new(alloc, config.items, config.spare),
        seed: 1,
        readers: u64::from(config.readers),
    };
    Ok(pair.check(rt, calls)?)
}

// How many of these calls on such a cache came to something else than on the model.
fn wrong_calls<K: Numbered, V: Numbered, W: Wait>(
    rt: &W,
    alloc: Global,
    config: &CacheConfig,
    calls: Calls,
) -> Result<u64, Fail>
    requires words { K.width + V.width ≤ 64 }
{
    let blank = CacheBlank::<K, V>::new(alloc, config)?;
    match run::<Brand, K, V, W>(rt, alloc, blank, config, calls) {
        Ok(wrong) => Ok(wrong),
        Err(Wanting::Memory) => Err(AllocError.into()),
        Err(Wanting::Room) => Err(TooLong.into()),
    }
}

// Small caches: their items, spare chunks, shares of HOT and WARM, readers and rings. Each put applies all bumps that
// wait there, so each chunk without an item comes free.
const SMALL: [(u32, u32, u32, u32, u32, u32); 7] = [
    (10, 2, 20, 40, 1, 8),
    (10, 1, 0, 100, 1, 16),
    (10, 1, 100, 0, 2, 16),
    (10, 1, 20, 40, 1, 4),
    (10, 3, 20, 40, 3, 1),
    (1, 1, 20, 40, 1, 2),
    (2, 1, 50, 50, 2, 1),
];

// Random calls on each of the small caches, tended or never, with keys and values of these types.
fn wrong_small_calls<K: Numbered, V: Numbered, W: Wait>(
    rt: &W,
    alloc: Global,
    count: u64,
) -> Result<u64, Fail>
    requires words { K.width + V.width ≤ 64 }
{
    let mut wrong = 0u64;
    for (items, spare, hot, warm, readers, ring) in SMALL {
        for tends in [true, false] {
            let config = CacheConfig {
                readers,
                temporary: if tends { Some(16) } else { None },
                ..config_of(items, spare, hot, warm, ring)
            };
            let calls = Calls {
                keys: u64::from(items) * 5 / 2 + 1,
                count,
                tends,
                clears: 200,
                expires: items > 1,
            };
            wrong = wrong.saturating_add(wrong_calls::<K, V, W>(rt, alloc, &config, calls)?);
        }
    }
    Ok(wrong)
}

#[test]
fn each_call_comes_to_what_a_plain_map_has(rt: HostRuntime) -> Result<(), Fail> {
    let alloc = rt.alloc();
    expect_eq!(&rt; wrong_small_calls::<u64, u64, _>(&rt, alloc, CALLS)?, 0);
    Ok(())
}

#[test]
fn pairs_and_strings_are_keys_and_values(rt: HostRuntime) -> Result<(), Fail> {
    let alloc = rt.alloc();
    let count = CALLS / 10;
    let wrong = wrong_small_calls::<(u64, u32), u64, _>(&rt, alloc, count)?;
    expect(&rt, "of pairs", &wrong, &0);
    let wrong = wrong_small_calls::<Bytes<1>, Bytes<3>, _>(&rt, alloc, count)?;
    expect(&rt, "of short strings", &wrong, &0);
    let wrong = wrong_small_calls::<Bytes<4>, (u64, u32), _>(&rt, alloc, count)?;
    expect(&rt, "of strings of four words", &wrong, &0);
    let wrong = wrong_small_calls::<Bytes<32>, Bytes<32>, _>(&rt, alloc, count / 10)?;
    expect(&rt, "of strings of 32 words", &wrong, &0);
    let wrong = wrong_small_calls::<u64, Bytes<63>, _>(&rt, alloc, count / 10)?;
    expect(&rt, "of the longest strings", &wrong, &0);
    Ok(())
}

#[test]
fn a_thousand_items(rt: HostRuntime) -> Result<(), Fail> {
    for (keys, tends) in [(1_500, true), (1_100, false)] {
        let config = CacheConfig {
            temporary: Some(16),
            expiry_looks: 2_000,
            ..config_of(1_000, 20, 20, 40, 16)
        };
        let calls = Calls {
            keys,
            count: CALLS.saturating_mul(4),
            tends,
            clears: CALLS.saturating_mul(3),
            expires: true,
        };
        let wrong = wrong_calls::<u64, u64, _>(&rt, rt.alloc(), &config, calls)?;
        assert_eq!(rt; wrong, 0, "of {keys} keys");
    }
    Ok(())
}

#[test]
fn keys_of_several_parts(rt: HostRuntime) -> Result<(), Fail> {
    for parts in [2u32, 5, 16] {
        // no part evicts: each has room for all keys
        let config = CacheConfig {
            parts,
            readers: 2,
            temporary: Some(16),
            ..config_of(parts.saturating_mul(100), 40, 20, 40, 16)
        };
        let calls = Calls {
            keys: 90,
            count: CALLS,
            tends: true,
            clears: 200,
            expires: true,
        };
        let wrong = wrong_calls::<u64, u64, _>(&rt, rt.alloc(), &config, calls)?;
        assert_eq!(rt; wrong, 0, "of {parts} parts");
    }
    Ok(())
}

#[test]
fn a_million_items(rt: HostRuntime) -> Result<(), Fail> {
    let config = CacheConfig {
        ring: 16,
        ..CacheConfig::new(999_998, 1, SEED)
    };
    let calls = Calls {
        keys: 1_000,
        count: CALLS / 3,
        tends: true,
        clears: CALLS,
        expires: false,
    };
    let wrong = wrong_calls::<u64, u64, _>(&rt, rt.alloc(), &config, calls)?;
    expect_eq!(&rt; wrong, 0);
    Ok(())
}

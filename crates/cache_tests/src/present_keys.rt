//! Keys that are there can be put anew at any time, whatever readers hold and whatever waits in their rings; and one that
//! is held by more than the configuration says keeps what it had.

ghost use Rattle.bump_cache.specs.Opening.{IsNamed};

use crate::expecting::*;
use crate::stands::SEED;
use bump_cache::{
    Cache, CacheBlank, CacheConfig, CacheFault, CacheReader, Changer, Full, HeldItem, LogName,
    Name, Opened, open,
};
use std::alloc::Global;
use std::marker::Brand;
use std::process::Abort;
use std::sync::Wait;
use std::test::Fail;

// The most items of a small cache.
const MOST_ITEMS: u32 = 20;

// A ring has room for so many bumps: more than the 16 of each reader that a put applies in any case.
const RING: u32 = 32;

// Each key is put anew so many times.
const TIMES: u64 = 3;

// Keys are below this, but those that are new at the end.
const MOST_KEYS: u64 = 1_000;

// A small cache, and whoever changes it.
#[derive(Drop)]
struct Small<N: Name + LogName> {
    cache: Cache<N, u64, u64>,
    changer: Changer<N>,
    refused: u64,
}

impl<N: Name + LogName> Small<N> {
    // Puts a value under a key, and counts whether that was refused.
    fn put<W: Wait>(&mut self, rt: &W, key: u64, value: u64) {
        let put = self.cache.put(rt, &mut self.changer.me, &key, &value, 1);
        if put.is_err() {
            self.refused = self.refused.saturating_add(1);
        }
    }

    // Puts so many keys from this one on.
    fn put_range<W: Wait>(&mut self, rt: &W, from: u64, count: u64) {
        for key in 0..count {
            self.put(rt, from.saturating_add(key), 1);
        }
    }

    // Puts each key anew that a reader finds, and one that wasn't there.
    fn put_all<W: Wait>(&mut self, rt: &W, keys: &[u64], times: u64) {
        for time in 0..times {
            for key in keys {
                self.put(rt, *key, time.saturating_add(2));
            }
        }
    }
}

// The keys below this that have something.
fn keys_there<N: Name + LogName>(
    alloc: Global,
    reader: &mut CacheReader<N, u64, u64>,
    most: u64,
) -> Result<Vec<u64>, Fail> {
    let mut keys = Vec::new(alloc);
    for key in 0..most {
        if reader.contains(&key, 1) {
            keys.push(key)?;
        }
    }
    Ok(keys)
}

// Each reader gets each of these keys twice, so that bumps wait in its rings.
fn get_all<N: Name + LogName>(readers: &mut [CacheReader<N, u64, u64>], keys: &[u64]) {
    for reader in readers {
        for key in keys {
            reader.get(key, 1);
            reader.get(key, 1);
        }
    }
}

// Each reader holds an item of one of these keys.
fn hold_each<'a, N: Name + LogName>(
    alloc: Global,
    readers: &'a mut [CacheReader<N, u64, u64>],
    keys: &[u64],
) -> Result<Vec<HeldItem<'a, N, u64, u64>>, Fail> {
    let mut held = Vec::new(alloc);
    let mut place = 0usize;
    for reader in &mut *readers {
        if place >= keys.len() {
            place = 0;
        }
        if let Some(key) = keys.get(place) {
            if let Some(item) = reader.get_with(key, 1) {
                held.push(item)?;
            }
        }
        place = place.wrapping_add(1);
    }
    Ok(held)
}

// Puts these keys anew where bumps wait, and where each reader holds an item, too; and then as many new ones as there are
// items.
fn put_anew<N: Name + LogName, W: Wait>(
    rt: &W,
    alloc: Global,
    small: &mut Small<N>,
    readers: &mut [CacheReader<N, u64, u64>],
    keys: &[u64],
    items: u64,
) -> Result<(), Fail> {
    get_all(readers, keys);
    small.put_all(rt, keys, TIMES);
    get_all(readers, keys);
    let held = hold_each(alloc, readers, keys)?;
    small.put_all(rt, keys, TIMES);
    small.put_range(rt, MOST_KEYS, items);
    drop(held);
    Ok(())
}

// A small cache of this configuration is filled, with more keys than it has items; bumps wait, and each reader holds an
// item. How many puts of keys that are there were refused.
fn run<N: Name + LogName, R: Wait + Abort>(
    rt: &R,
    alloc: Global,
    blank: CacheBlank<u64, u64>,
    items: u64,
) -> Result<u64, Fail>
    requires { IsNamed N.table N.book N.name N.parts blank }
{
    let Opened {
        cache,
        caller,
        mut readers,
    } = open::<N, u64, u64, R>(alloc, rt, blank)?;
    let mut small = Small {
        cache,
        changer: Changer::new(caller),
        refused: 0,
    };
    small.put_range(rt, 0, items.saturating_mul(4));
    let Some(reader) = readers.first_mut() else {
        panic!(rt; "there is a reader")
    };
    let keys = keys_there(alloc, reader, MOST_KEYS)?;
    expect_that!(rt; !keys.is_empty());
    put_anew(rt, alloc, &mut small, &mut readers, &keys, items)?;
    Ok(small.refused)
}

// How many puts of keys that are there are refused in a cache of so many items, parts and readers.
fn refused_in<W: Wait + Abort>(
    rt: &W,
    alloc: Global,
    items: u32,
    parts: u32,
    readers: u32,
) -> Result<u64, Fail> {
    let config = CacheConfig {
        parts,
        ring: RING,
        ..CacheConfig::new(items, readers, SEED)
    };
    let blank = CacheBlank::<u64, u64>::new(alloc, &config)?;
    run::<Brand, W>(rt, alloc, blank, u64::from(items))
}

// None of them is refused there.
fn expect_none_refused<W: Wait + Abort>(
    rt: &W,
    alloc: Global,
    items: u32,
    parts: u32,
    readers: u32,
) -> Result<(), Fail> {
    let refused = refused_in(rt, alloc, items, parts, readers)?;
    assert_eq!(rt;
        refused,
        0,
        "{items} items, {parts} parts, {readers} readers"
    );
    Ok(())
}

#[test]
fn a_key_that_is_there_can_be_put(rt: HostRuntime) -> Result<(), Fail> {
    let alloc = rt.alloc();
    for items in 1..MOST_ITEMS + 1 {
        for parts in 1..items.min(16) + 1 {
            for readers in [1, 2, 64 / parts] {
                expect_none_refused(&rt, alloc, items, parts, readers)?;
            }
        }
    }
    for (items, parts, readers) in [(100, 4, 1), (20, 20, 64), (300, 256, 2)] {
        expect_none_refused(&rt, alloc, items, parts, readers)?;
    }
    Ok(())
}

// The key can be put once more; then a put of it is refused, and a set, too, and it keeps what it has.
fn expect_kept<N: Name + LogName, R: Wait + Abort>(
    rt: &R,
    small: &mut Small<N>,
    other: &mut CacheReader<N, u64, u64>,
) {
    small.put(rt, 1, 11);
    expect_eq!(rt; small.refused, 0);
    small.put(rt, 1, 12);
    expect_eq!(rt; small.refused, 1);
    let set = small.cache.set(rt, &mut small.changer.me, &1, &12, 0, 1);
    expect_that!(rt; set == Err(Full { evicted: false }));
    expect_eq!(rt; other.get(&1, 1), Some(11));
}

// While one reader holds an item that the key had, the key keeps what it has; when that is given back it can be put.
fn hold_one<N: Name + LogName, R: Wait + Abort>(
    rt: &R,
    small: &mut Small<N>,
    one: &mut CacheReader<N, u64, u64>,
    other: &mut CacheReader<N, u64, u64>,
) {
    small.put(rt, 1, 10);
    let Some(mut first) = one.get_with(&1, 1) else {
        panic!(rt; "the key has a value")
    };
    expect_kept(rt, small, other);
    expect_eq!(rt; first.value(), 10);
    drop(first);
    small.put(rt, 1, 13);
    expect_eq!(rt; small.refused, 1);
    expect_eq!(rt; other.get(&1, 1), Some(13));
}

// In a cache of one item and one spare chunk for two readers one holds an item that the key had: as many as there are
// spare chunks. Then the key can't be put, and keeps what it has, until the item is given back.
fn hold_too_much<N: Name + LogName, R: Wait + Abort>(
    rt: &R,
    alloc: Global,
    blank: CacheBlank<u64, u64>,
) -> Result<(), Fail>
    requires { IsNamed N.table N.book N.name N.parts blank }
{
    let Opened {
        cache,
        caller,
        mut readers,
    } = open::<N, u64, u64, R>(alloc, rt, blank)?;
    let mut small = Small {
        cache,
        changer: Changer::new(caller),
        refused: 0,
    };
    let (Some(mut other), Some(mut one)) = (readers.pop(), readers.pop()) else {
        panic!(rt; "there are two readers")
    };
    hold_one(rt, &mut small, &mut one, &mut other);
    Ok(())
}

#[test]
fn a_key_of_which_too_much_is_held_keeps_its_value(rt: HostRuntime) -> Result<(), Fail> {
    let alloc = rt.alloc();
    let config = CacheConfig {
        spare: 1,
        ..CacheConfig::new(1, 2, SEED)
    };
    let blank = CacheBlank::<u64, u64>::new(alloc, &config)?;
    hold_too_much::<Brand, _>(&rt, alloc, blank)
}

// The fault of so many items, parts and readers, as `CacheConfig::new` has the rest.
fn fault_of(items: u32, parts: u32, readers: u32) -> Option<CacheFault> {
    let config = CacheConfig {
        parts,
        ..CacheConfig::new(items, readers, SEED)
    };
    config.fault()
}

#[test]
fn a_part_has_a_spare_chunk(rt: HostRuntime) {
    for parts in [1, 2, 16, 256] {
        for readers in 1..65 {
            let most = 128_000_000 - parts * (readers + 1);
            expect_eq!(&rt; fault_of(most, parts, readers), None);
            expect_eq!(&rt; fault_of(most + 1, parts, readers), Some(CacheFault::Spare));
            expect_eq!(&rt;
                fault_of(128_000_000, parts, readers),
                Some(CacheFault::Spare)
            );
        }
    }
    let none = CacheConfig {
        spare: 0,
        ..CacheConfig::new(10, 1, SEED)
    };
    expect_eq!(&rt; none.fault(), Some(CacheFault::Spare));
}

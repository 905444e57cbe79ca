//! Puts within a limit in bytes, beside a plain list of what is there and what it weighs; and readers that never let go.
ghost use Rattle.entry_cache.specs.Opening.{IsNamed};

use crate::calls::small_config;
use entry_cache::{
    AnyEntry, CacheConfig, Changer, EntryBlank, EntryReader, Evicted, Found, LogName, Name,
    OpenedEntries, TooMuch, Weighed, WeighedCache, open,
};
use std::alloc::{AllocError, Global};
use std::marker::Brand;
use std::sync::Wait;
use std::test::Fail;

// So many random calls are made of each cache.
const CALLS: u64 = 3_000;

// So many keys are there.
const KEYS: u64 = 12;

// Caches of so many entries, parts and bytes.
const SIZES: [(u32, u32, u64); 6] = [
    (1, 1, 8),
    (2, 1, 17),
    (3, 1, 40),
    (20, 1, 64),
    (20, 1, 1_000),
    (32, 2, 400),
];

// An entry that is there.
#[derive(Clone, Copy)]
struct Line {
    key: u32,
    place: u64,
    part: u32,
    weight: u64,
}

// All of them.
#[derive(Drop)]
struct List {
    lines: Vec<Line>,
}

impl List {
    // What those of a part weigh together.
    fn weight(&self, part: u32) -> u64 {
        let mut sum = 0u64;
        for line in &self.lines {
            if line.part == part {
                sum = sum.saturating_add(line.weight);
            }
        }
        sum
    }

    fn place(&self, key: u32) -> Option<u64> {
        let line = self.lines.iter().find(|line| line.key == key);
        line.map(|line| line.place)
    }

    // Whether there is none at this place any more, and there was one if it is one.
    fn take(&mut self, place: Option<u64>) -> bool {
        let Some(place) = place else {
            return true;
        };
        let before = self.lines.len();
        self.lines.retain(|line| line.place != place);
        self.lines.len() < before
    }

    // Whether all of these rows were there and had to go to make room for so much, one after the other.
    fn take_all(&mut self, rows: &[Evicted<u64, u64>], part: u32, weight: u64, share: u64) -> bool {
        let mut right = true;
        for row in rows {
            let had_to = self.weight(part).saturating_add(weight) > share;
            let was_there = self.take(Some(row.value));
            right = right && had_to && was_there;
        }
        right
    }
}

// Puts a value, which is the time. It tells whether that came to what the list says.
fn put<N: Name + LogName, W: Wait>(
    rt: &W,
    cache: &WeighedCache<N, u32, u64>,
    changer: &mut Changer<N>,
    list: &mut List,
    key: u32,
    weight: u64,
    now: u64,
) -> Result<bool, AllocError> {
    let share = cache.share();
    let part = cache.entries().part_of(&key);
    let is_light = weight <= share / 8;
    match cache.put(rt, &mut changer.me, key, now, weight, now) {
        Ok(did) => {
            let room = list.take_all(&did.evicted, part, weight, share);
            let fits = list.weight(part).saturating_add(weight) <= share;
            let rows = did.put.rows();
            let old = rows.old == list.place(key) && list.take(rows.old);
            let gone = list.take(rows.evicted.map(|row| row.value));
            let place = did.put.place();
            list.lines.push(Line {
                key,
                place,
                part,
                weight,
            })?;
            Ok(is_light && room && fits && old && gone)
        }
        Err(it) => {
            let same = it.key == key && it.value == now && it.evicted.is_empty();
            Ok(!is_light && same && it.why == TooMuch::TooHeavy)
        }
    }
}

// Removes a key. It tells whether that came to what the list says.
fn remove<N: Name + LogName, W: Wait>(
    rt: &W,
    cache: &WeighedCache<N, u32, u64>,
    changer: &mut Changer<N>,
    list: &mut List,
    key: u32,
    now: u64,
) -> bool {
    let place = cache
        .entries()
        .remove(rt, &mut changer.me, &key, now)
        .place();
    place == list.place(key) && list.take(place)
}

// Whether a key has an entry exactly where the list has one.
fn is_as_listed<N: Name + LogName>(
    cache: &WeighedCache<N, u32, u64>,
    reader: &mut EntryReader<N>,
    list: &List,
    key: u32,
    now: u64,
) -> bool {
    let found = reader.get(cache.entries(), &key, now);
    found.map(|found| found.place()) == list.place(key)
}

// What an entry weighs that is put now: all are small for a while, then large, then of any weight, and some too heavy.
fn weight_at(number: u64, most: u64, now: u64) -> u64 {
    match now / 100 % 3 {
        0 => number % 3,
        1 => most.saturating_sub(number % 2),
        _ => number % most.saturating_add(2).max(1),
    }
}

// A random call, by a number. It tells whether it came to what the list says, and what is in memory weighs what the list's entries do.
fn make_call<N: Name + LogName, W: Wait>(
    rt: &W,
    cache: &WeighedCache<N, u32, u64>,
    changer: &mut Changer<N>,
    reader: &mut EntryReader<N>,
    list: &mut List,
    number: u64,
    now: u64,
) -> Result<bool, AllocError> {
    let key = (number % KEYS) as u32;
    let part = cache.entries().part_of(&key);
    let right = match number / KEYS % 5 {
        0 => remove(rt, cache, changer, list, key, now),
        1 => is_as_listed(cache, reader, list, key, now),
        _ => {
            let weight = weight_at(number / 64, cache.share() / 8, now);
            put(rt, cache, changer, list, key, weight, now)?
        }
    };
    Ok(right && cache.bytes(part) == list.weight(part))
}

// Opens a cache with a limit under the names that the blank's table and log have, and makes random calls. It tells how many were wrong.
fn run<N: Name + LogName, W: Wait>(
    rt: &W,
    alloc: Global,
    blank: EntryBlank,
    limit: u64,
) -> Result<u64, AllocError>
    requires { IsNamed N.table N.book N.name N.parts blank }
{
    let OpenedEntries {
        cache,
        caller,
        mut readers,
    } = open::<N, u32, Weighed<u64>, AnyEntry, W>(alloc, rt, blank)?;
    let cache = WeighedCache::new(alloc, cache, limit)?;
    let mut changer = Changer::new(caller);
    let Some(reader) = readers.first_mut() else {
        return Ok(u64::MAX);
    };
    let mut list = List {
        lines: Vec::new(alloc),
    };
    let mut wrong = 0u64;
    let mut mixed = 7u64;
    for now in 0..CALLS {
        mixed = mixed
            .wrapping_mul(0x5851_f42d_4c95_7f2d)
            .wrapping_add(0x1405_7b7e_f767_814f);
        let right = make_call(
            rt,
            &cache,
            &mut changer,
            reader,
            &mut list,
            mixed >> 33,
            now,
        )?;
        wrong = wrong.saturating_add(u64::from(!right));
    }
    Ok(wrong)
}

#[test]
fn random_puts_evict_what_they_must_to_fit(rt: HostRuntime) -> Result<(), Fail> {
    for (items, parts, limit) in SIZES {
        let config = CacheConfig {
            parts,
            ..small_config(items, 1)
        };
        let blank = EntryBlank::new(rt.alloc(), &config)?;
        let wrong = run::<Brand, _>(&rt, rt.alloc(), blank, limit)?;
        assert_eq!(rt; wrong, 0, "of {items} entries in {limit} bytes");
    }
    Ok(())
}

// The key's entry, which is to be there.
fn hold<'a, N: Name + LogName>(
    cache: &'a WeighedCache<N, u32, u64>,
    reader: &mut EntryReader<N>,
    key: u32,
) -> Option<Found<'a, N, u32, Weighed<u64>>> {
    reader.get(cache.entries(), &key, 0)
}

// Puts an entry that weighs 1, whose value is its key. None where it was put, and else why it wasn't, and how many were evicted.
fn put_one<N: Name + LogName, W: Wait>(
    rt: &W,
    cache: &WeighedCache<N, u32, u64>,
    changer: &mut Changer<N>,
    key: u32,
) -> Option<(TooMuch, usize)> {
    match cache.put(rt, &mut changer.me, key, u64::from(key), 1, 0) {
        Ok(_) => None,
        Err(it) if it.key == key && it.value == u64::from(key) => Some((it.why, it.evicted.len())),
        Err(_) => Some((TooMuch::TooHeavy, usize::MAX)),
    }
}

// Puts all that a limit of 8 has room for. It tells how many puts were refused.
fn fill<N: Name + LogName, W: Wait>(
    rt: &W,
    cache: &WeighedCache<N, u32, u64>,
    changer: &mut Changer<N>,
) -> u64 {
    let mut refused = 0u64;
    for key in 0..8u32 {
        let why = put_one(rt, cache, changer, key);
        refused = refused.saturating_add(u64::from(why.is_some()));
    }
    refused
}

// Holds all that a limit of 8 has room for, and puts once more: before they are let go, and then. It tells how much was wrong.
fn run_held<N: Name + LogName, W: Wait>(
    rt: &W,
    alloc: Global,
    blank: EntryBlank,
) -> Result<u64, AllocError>
    requires { IsNamed N.table N.book N.name N.parts blank }
{
    let OpenedEntries {
        cache,
        caller,
        mut readers,
    } = open::<N, u32, Weighed<u64>, AnyEntry, W>(alloc, rt, blank)?;
    let cache = WeighedCache::new(alloc, cache, 8)?;
    let mut changer = Changer::new(caller);
    let Some(reader) = readers.first_mut() else {
        return Ok(u64::MAX);
    };
    let wrong = fill(rt, &cache, &mut changer);
    let first = hold(&cache, reader, 0);
    let second = hold(&cache, reader, 1);
    let third = hold(&cache, reader, 2);
    let fourth = hold(&cache, reader, 3);
    let fifth = hold(&cache, reader, 4);
    let sixth = hold(&cache, reader, 5);
    let seventh = hold(&cache, reader, 6);
    let last = hold(&cache, reader, 7);
    let refused = put_one(rt, &cache, &mut changer, 8);
    let all = refused == Some((TooMuch::NoBytes, 8)) && cache.bytes(0) == 8;
    let gone = hold(&cache, reader, 7).is_none();
    let stays = last.is_some_and(|found| **found == 7);
    let left = cache.bytes(0) == 7;
    drop(first);
    drop(second);
    drop(third);
    drop(fourth);
    drop(fifth);
    drop(sixth);
    drop(seventh);
    let none = cache.bytes(0) == 0;
    let again = put_one(rt, &cache, &mut changer, 8).is_none() && cache.bytes(0) == 1;
    let right = all && gone && stays && left && none && again;
    Ok(wrong.saturating_add(u64::from(!right)))
}

#[test]
fn what_readers_have_weighs_until_they_let_go(rt: HostRuntime) -> Result<(), Fail> {
    let blank = EntryBlank::new(rt.alloc(), &small_config(20, 1))?;
    assert_eq!(rt; run_held::<Brand, _>(&rt, rt.alloc(), blank)?, 0);
    Ok(())
}

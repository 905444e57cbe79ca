//! Evictions for which no put asks: of each item of small caches, of the item that a put would evict, and of one that
//! has expired.

ghost use Rattle.bump_cache.specs.Opening.{IsNamed};

use crate::expecting::*;
use crate::model::items_in;
use crate::stands::{Entry, Stand, config_of, next};
use bump_cache::{CacheBlank, CacheConfig, Cause, Evicted, LogName, Name, Stats};
use std::alloc::{AllocError, Global};
use std::marker::Brand;
use std::process::Abort;
use std::sync::Wait;
use std::test::Fail;

// So many keys are put into a small cache.
const KEYS: u64 = 8;

// So many items are in a cache where room is made for new keys, and the last of their puts has its turn: so none of the
// puts behind it has one.
const ITEMS: u64 = 8;

// For so many of them.
const ROUNDS: usize = 7;

// What is done with a cache.
#[derive(Clone, Copy)]
enum Case {
    // each item of each part is evicted
    All,

    // the last ones of COLD are, before and when they expire
    Causes,
}

// What made room for new keys, and the statistics behind that.
#[derive(Clone, Copy, Debug, PartialEq, Eq)]
struct Made {
    evicted: [Option<Evicted<u64, u64>>; ROUNDS],
    stats: Stats,
}

// A cache of one reader.
#[derive(Drop)]
struct Small<N: Name + LogName> {
    stand: Stand<N, u64, u64>,
    // so many parts it has
    parts: u32,
}

impl<N: Name + LogName> Small<N> {
    // Puts a value that is its key.
    fn put_until<R: Wait + Abort>(
        &mut self,
        rt: &R,
        key: u64,
        expires: u64,
        now: u64,
    ) -> Option<Evicted<u64, u64>> {
        let entry = Entry { key, value: key };
        let Ok(put) = self.stand.put_until(rt, &entry, expires, now) else {
            panic!(rt; "there is room")
        };
        put.evicted
    }

    // Evicts the items of a part, and counts how often each key is told.
    fn evict_all<R: Wait + Abort>(&mut self, rt: &R, part: u32, told: &mut [u32]) {
        for _ in 0..=told.len() {
            let Some(it) = self.stand.evict(rt, part, 9) else {
                return;
            };
            expect_eq!(rt; (it.value, it.cause), (it.key, Cause::Room));
            expect_eq!(rt; self.stand.part_of(&it.key), part);
            expect_eq!(rt; self.stand.get(0, &it.key, 9), None);
            if let Some(times) = told.get_mut(it.key as usize) {
                *times = times.saturating_add(1);
            }
        }
        panic!(rt; "more is told of part {part} than was put")
    }

    // Puts all keys, and gets each of them twice: a 1 for each that is there then.
    fn put_all<R: Wait + Abort>(&mut self, rt: &R) -> [u32; KEYS as usize] {
        let mut there = [0u32; KEYS as usize];
        for key in 0..KEYS {
            self.put_until(rt, key, 0, key);
        }
        for (key, times) in there.iter_mut().enumerate() {
            if self.stand.get(0, &(key as u64), KEYS) == self.stand.get(0, &(key as u64), KEYS) {
                *times = u32::from(self.stand.peek(0, &(key as u64), KEYS).is_some());
            }
        }
        there
    }

    // Evicts the items of each part; the number behind the last part's is that of none. How often each key is told.
    fn evict_parts<R: Wait + Abort>(&mut self, rt: &R) -> [u32; KEYS as usize] {
        let mut told = [0u32; KEYS as usize];
        for part in 0..=self.parts {
            self.evict_all(rt, part, &mut told);
        }
        told
    }

    // Each item that is there is told once.
    fn check_all<R: Wait + Abort>(&mut self, rt: &R) {
        let there = self.put_all(rt);
        let told = self.evict_parts(rt);
        expect_eq!(rt; told, there);
        let stats = self.stand.stats(rt);
        expect_eq!(rt; (items_in(&stats), stats.evicted()), (0, KEYS));
        expect_eq!(rt; self.put_until(rt, 1, 0, 9), None);
        expect_eq!(rt; self.stand.get(0, &1, 9), Some(1));
    }

    // The next eviction from the one part ends this key's item.
    fn check_next<R: Wait + Abort>(&mut self, rt: &R, now: u64, key: u64, cause: Cause) {
        expect(rt, "no such part", &self.stand.evict(rt, 1, now), &None);
        let wanted = Evicted {
            key,
            value: key,
            cause,
        };
        expect_eq!(rt; self.stand.evict(rt, 0, now), Some(wanted));
    }

    // All three are in COLD, and the first two expire at 50.
    fn check_causes<R: Wait + Abort>(&mut self, rt: &R) {
        for (key, expires) in [(0, 50), (1, 50), (2, 0)] {
            self.put_until(rt, key, expires, key);
        }
        self.stand.tend(rt, 10);
        for (now, key, cause) in [
            (49, 0, Cause::Room),
            (50, 1, Cause::Expired),
            (50, 2, Cause::Room),
        ] {
            self.check_next(rt, now, key, cause);
        }
        expect_eq!(rt; self.stand.evict(rt, 0, 50), None);
        let stats = self.stand.stats(rt);
        expect_eq!(rt; (stats.evicted(), stats.reclaimed()), (2, 1));
    }

    // Makes room for a new key: its put does, or an eviction before it.
    fn make_one<R: Wait + Abort>(
        &mut self,
        rt: &R,
        key: u64,
        now: u64,
        by_puts: bool,
    ) -> Option<Evicted<u64, u64>> {
        if by_puts {
            return self.put_until(rt, key, 0, now);
        }
        let evicted = self.stand.evict(rt, 0, now);
        expect(
            rt,
            "there was room",
            &self.put_until(rt, key, 0, now),
            &None,
        );
        evicted
    }

    // Reads keys at random, some of them twice, and tends, once in a while, where nothing expires.
    fn read<R: Wait + Abort>(&mut self, rt: &R, seed: &mut u64, now: u64, tends: bool) {
        for _ in 0..next(seed) % 24 {
            self.stand.get(0, &(next(seed) % (2 * ITEMS)), now);
        }
        if tends && next(seed) % 4 == 0 {
            self.stand.tend(rt, now);
        }
    }

    // Fills the cache. Where it isn't tended some of its items expire.
    fn fill<R: Wait + Abort>(&mut self, rt: &R, seed: &mut u64, tends: bool) {
        for key in 0..ITEMS {
            let expires = if tends || next(seed) % 2 == 0 { 0 } else { 13 };
            self.put_until(rt, key, expires, key);
        }
    }

    // Fills the cache, and makes room for new keys.
    fn make_room<R: Wait + Abort>(&mut self, rt: &R, from: u64, by_puts: bool) -> Made {
        let mut seed = from;
        let mut evicted = [None; ROUNDS];
        let tends = from % 2 == 0;
        self.fill(rt, &mut seed, tends);
        for (round, it) in evicted.iter_mut().enumerate() {
            let now = (round as u64).saturating_add(10);
            self.read(rt, &mut seed, now, tends);
            *it = self.make_one(rt, now, now, by_puts);
        }
        Made {
            evicted,
            stats: self.stand.stats(rt),
        }
    }
}

// Opens a cache under the names that the blank's table and log have, and runs the case.
fn run<N: Name + LogName, R: Wait + Abort>(
    rt: &R,
    alloc: Global,
    blank: CacheBlank<u64, u64>,
    parts: u32,
    case: Case,
) -> Result<(), AllocError>
    requires { IsNamed N.table N.book N.name N.parts blank }
{
    let stand = Stand::<N, u64, u64>::open(alloc, rt, blank)?;
    let mut small = Small { stand, parts };
    match case {
        Case::All => small.check_all(rt),
        Case::Causes => small.check_causes(rt),
    }
    Ok(())
}

// Opens one, and makes room there.
fn made_in<N: Name + LogName, R: Wait + Abort>(
    rt: &R,
    alloc: Global,
    blank: CacheBlank<u64, u64>,
    from: u64,
    by_puts: bool,
) -> Result<Made, AllocError>
    requires { IsNamed N.table N.book N.name N.parts blank }
{
    let stand = Stand::<N, u64, u64>::open(alloc, rt, blank)?;
    let mut small = Small { stand, parts: 1 };
    Ok(small.make_room(rt, from, by_puts))
}

// The caches where room is made: with two spare chunks, and a short ring.
fn room_made<R: Wait + Abort>(
    rt: &R,
    alloc: Global,
    from: u64,
    by_puts: bool,
) -> Result<Made, Fail> {
    let config = config_of(ITEMS as u32, 6, 20, 40, 4);
    let blank = CacheBlank::<u64, u64>::new(alloc, &config)?;
    Ok(made_in::<Brand, R>(rt, alloc, blank, from, by_puts)?)
}

#[test]
fn each_item_is_evicted_once(rt: HostRuntime) -> Result<(), Fail> {
    let alloc = rt.alloc();
    for (items, parts, case) in [
        (1, 1, Case::All),
        (2, 1, Case::All),
        (3, 1, Case::All),
        (2, 2, Case::All),
        (3, 2, Case::All),
        (3, 1, Case::Causes),
    ] {
        for ring in [1, 4] {
            let config = CacheConfig {
                parts,
                ..config_of(items, 6, 0, 40, ring)
            };
            let blank = CacheBlank::<u64, u64>::new(alloc, &config)?;
            run::<Brand, _>(&rt, alloc, blank, parts, case)?;
        }
    }
    Ok(())
}

#[test]
fn an_eviction_ends_what_a_put_would(rt: HostRuntime) -> Result<(), Fail> {
    for from in 0..40 {
        let by_puts = room_made(&rt, rt.alloc(), from, true)?;
        let alone = room_made(&rt, rt.alloc(), from, false)?;
        assert_eq!(rt; alone, by_puts, "from {from}");
    }
    Ok(())
}

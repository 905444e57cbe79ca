//! In which order items are evicted, beside a model of the lists.

ghost use Rattle.bump_cache.specs.Opening.{IsNamed};

use crate::expecting::*;
use crate::lists::Lists;
use crate::model::items_in;
use crate::stands::{Entry, Stand, config_of, next};
use bump_cache::{CacheBlank, CacheConfig, LogName, Name, Put};
use std::alloc::{AllocError, Global};
use std::marker::Brand;
use std::process::Abort;
use std::sync::Wait;
use std::test::Fail;

// A cache, the model of its lists, and how much was wrong.
#[derive(Drop)]
struct Pair<N: Name + LogName> {
    stand: Stand<N, u64, u64>,
    lists: Lists,
    // the time of what is done next
    now: u64,
    wrong: u64,
}

// The keys that a put told of: whether the key had something, and which one was evicted.
fn told(put: &Put<u64, u64>) -> (bool, Option<u64>) {
    (put.old.is_some(), put.evicted.map(|lost| lost.key))
}

// Each of these notes where the cache did something else than the model.
impl<N: Name + LogName> Pair<N> {
    fn note(&mut self, right: bool) {
        if !right {
            self.wrong = self.wrong.saturating_add(1);
        }
    }

    fn put<W: Wait>(&mut self, rt: &W, key: u64) -> Result<Option<u64>, AllocError> {
        self.put_until(rt, key, 0)
    }

    // An item that expires then, or never (0).
    fn put_until<W: Wait>(
        &mut self,
        rt: &W,
        key: u64,
        expires: u64,
    ) -> Result<Option<u64>, AllocError> {
        let entry = Entry { key, value: key };
        let put = self.stand.put_until(rt, &entry, expires, self.now);
        let evicted = self.lists.put(key, expires, self.now)?;
        match &put {
            Ok(did) => self.note(told(did).1 == evicted),
            Err(_) => self.note(false),
        }
        Ok(evicted)
    }

    fn get(&mut self, key: u64) -> Result<(), AllocError> {
        let got = self.stand.get(0, &key, self.now).is_some();
        let is_there = self.lists.get(key, self.now)?;
        self.note(got == is_there);
        Ok(())
    }

    fn remove<W: Wait>(&mut self, rt: &W, key: u64) {
        let old = self.stand.remove(rt, &key, self.now).is_some();
        let had = self.lists.remove(key, self.now);
        self.note(old == had);
    }

    fn evict<W: Wait>(&mut self, rt: &W) -> Result<(), AllocError> {
        let evicted = self.stand.evict(rt, 0, self.now).map(|lost| lost.key);
        let wanted = self.lists.evict_next(self.now)?;
        self.note(evicted == wanted);
        Ok(())
    }

    fn tend<W: Wait>(&mut self, rt: &W) -> Result<(), AllocError> {
        self.stand.tend(rt, self.now);
        self.lists.tend(self.now)
    }

    fn clear<W: Wait>(&mut self, rt: &W) {
        self.stand.clear(rt);
        self.lists.clear();
    }

    // The lists have the model's sizes.
    fn look<W: Wait>(&mut self, rt: &W) {
        let stats = self.stand.stats(rt);
        let sizes = [
            stats.number_hot as usize,
            stats.number_warm as usize,
            stats.number_cold as usize,
            stats.number_temp as usize,
        ];
        let lists = &mut self.lists;
        let same_sizes = sizes == lists.sizes();
        let same_active = stats.evicted_active() == lists.evicted_active();
        self.note(same_sizes);
        self.note(same_active);
    }
}

// What is done with a cache.
#[derive(Clone, Copy)]
enum Case {
    // so many random calls, of which gets are so many of 64, with keys below a number
    Random { calls: u64, gets: u64, keys: u64 },

    // the same, of items of which most expire
    Expiring { calls: u64, gets: u64, keys: u64 },

    // so many accesses of keys below a number, the smaller ones most, which drift: each is got, and put where it isn't
    // there; the time is the access's place
    Drift { accesses: u64, keys: u64 },

    // 1,000 items are read twice each, and then 1,001 others put
    Read,

    // all of COLD are ACTIVE, and their bumps wait when one is evicted
    Held,
}

// A time at which an item expires, some ticks behind `now`, or a few before it; or 0, where there are no ticks always.
fn expiry_of(seed: &mut u64, ticks: u64, now: u64) -> u64 {
    let some = next(seed);
    if ticks == 0 || some % 4 == 0 {
        0
    } else {
        now.saturating_add(some % ticks).saturating_sub(4)
    }
}

impl<N: Name + LogName> Pair<N> {
    // Time goes on by a random step, sometimes backwards, and once in a while far ahead.
    fn go_on(&mut self, step: u64) {
        self.now = match step % 64 {
            0 => self.now.saturating_sub(step % 1_000),
            1 => self.now.saturating_add(step % 10_000),
            2 => 0,
            _ => self.now.saturating_add(step % 4),
        };
    }

    // Random calls.
    fn call_at_random<W: Wait>(
        &mut self,
        rt: &W,
        calls: u64,
        gets: u64,
        keys: u64,
        ticks: u64,
    ) -> Result<(), AllocError> {
        let mut seed = 1u64;
        for _ in 0..calls {
            let key = next(&mut seed) % keys.max(1);
            let kind = next(&mut seed) % 64;
            self.go_on(next(&mut seed));
            if kind < gets {
                self.get(key)?;
            } else {
                let expires = expiry_of(&mut seed, ticks, self.now);
                self.change(rt, key, next(&mut seed), expires)?;
            }
            self.look(rt);
        }
        Ok(())
    }

    // Makes a call that changes something.
    fn change<W: Wait>(
        &mut self,
        rt: &W,
        key: u64,
        kind: u64,
        expires: u64,
    ) -> Result<(), AllocError> {
        match kind % 64 {
            0..=3 => self.remove(rt, key),
            4 => self.tend(rt)?,
            5 if kind % 1_024 == 5 => self.clear(rt),
            6..=7 => self.evict(rt)?,
            _ => {
                self.put_until(rt, key, expires)?;
            }
        }
        Ok(())
    }

    // A key is got, and put where it isn't there.
    fn get_or_put<W: Wait>(&mut self, rt: &W, key: u64) -> Result<(), AllocError> {
        let seen = self.stand.peek(0, &key, self.now);
        self.get(key)?;
        if seen.is_none() {
            self.put(rt, key)?;
        }
        Ok(())
    }

    // Accesses that drift, with a tend behind each 64.
    fn drift<W: Wait>(&mut self, rt: &W, accesses: u64, keys: u64) -> Result<(), AllocError> {
        let mut seed = 2u64;
        for place in 0..accesses {
            self.now = place;
            let near = next(&mut seed) & next(&mut seed);
            self.get_or_put(rt, (place / 32).saturating_add(near % keys.max(1)))?;
            if place % 64 == 0 {
                self.tend(rt)?;
            }
            self.look(rt);
        }
        Ok(())
    }

    // Puts the keys of a range.
    fn put_all<W: Wait>(&mut self, rt: &W, from: u64, to: u64) -> Result<u64, AllocError> {
        let mut evicted = 0u64;
        for key in from..to {
            if self.put(rt, key)?.is_some() {
                evicted = evicted.saturating_add(1);
            }
        }
        Ok(evicted)
    }

    // So many items have been evicted, and there are 1,000.
    fn look_at_evicted<W: Wait>(&mut self, rt: &W, evicted: u64) {
        self.look(rt);
        let stats = self.stand.stats(rt);
        self.note(stats.evicted() == evicted);
        self.note(items_in(&stats) == 1_000);
    }

    // Gets each of 1,000 keys twice.
    fn get_twice(&mut self) -> Result<(), AllocError> {
        for _ in 0..2 {
            for key in 0..1_000 {
                self.get(key)?;
            }
        }
        Ok(())
    }

    // A put of a fresh key evicts one item, whatever was read.
    fn read_twice<W: Wait>(&mut self, rt: &W) -> Result<(), AllocError> {
        let evicted = self.put_all(rt, 0, 1_000)?;
        self.note(evicted == 0);
        self.get_twice()?;
        let first = self.put(rt, 1_000)?;
        self.note(first.is_some());
        self.look_at_evicted(rt, 1);
        let evicted = self.put_all(rt, 1_001, 2_001)?;
        self.note(evicted == 1_000);
        self.look_at_evicted(rt, 1_001);
        Ok(())
    }

    // All keys below 40 are in COLD, and got from the last one down, twice each.
    fn get_from_last<W: Wait>(&mut self, rt: &W) -> Result<(), AllocError> {
        let stats = self.stand.stats(rt);
        self.note(stats.number_cold == 40);
        for key in (0..40).rev() {
            self.get(key)?;
            self.get(key)?;
        }
        Ok(())
    }

    // The other ones are in WARM.
    fn look_at_saved<W: Wait>(&mut self, rt: &W) {
        let stats = self.stand.stats(rt);
        self.note(stats.number_warm == 39 && stats.evicted_active() == 0);
        for key in 0..39 {
            let seen = self.stand.peek(0, &key, self.now);
            self.note(seen == Some(key));
        }
    }

    // All are in COLD, and the ones that were put last are read first. The first put has no turn, but COLD's last item is
    // held by its bump: so it applies all bumps, and evicts the one that was read first, WARM's last.
    fn save<W: Wait>(&mut self, rt: &W) -> Result<(), AllocError> {
        self.put_all(rt, 0, 40)?;
        self.tend(rt)?;
        self.get_from_last(rt)?;
        let first = self.put(rt, 40)?;
        self.note(first == Some(39));
        self.look_at_saved(rt);
        self.put_all(rt, 41, 80)?;
        self.look(rt);
        Ok(())
    }

    // Runs the case.
    fn run<W: Wait>(&mut self, rt: &W, case: Case) -> Result<(), AllocError> {
        match case {
            Case::Random { calls, gets, keys } => self.call_at_random(rt, calls, gets, keys, 0),
            Case::Expiring { calls, gets, keys } => self.call_at_random(rt, calls, gets, keys, 48),
            Case::Drift { accesses, keys } => self.drift(rt, accesses, keys),
            Case::Read => self.read_twice(rt),
            Case::Held => self.save(rt),
        }
    }
}

// Opens a cache under the names that the blank's table and log have, and runs the case.
fn run<N: Name + LogName, W: Wait>(
    rt: &W,
    alloc: Global,
    blank: CacheBlank<u64, u64>,
    config: &CacheConfig,
    case: Case,
) -> Result<u64, AllocError>
    requires { IsNamed N.table N.book N.name N.parts blank }
{
    let mut pair = Pair {
        stand: Stand::<N, u64, u64>::open(alloc, rt, blank)?,
        lists: Lists::new(alloc, config),
        now: 0,
        wrong: 0,
    };
    pair.run(rt, case)?;
    Ok(pair.wrong)
}

// How much in this case came to something else than in the model.
fn wrong_in<W: Wait>(rt: &W, alloc: Global, config: &CacheConfig, case: Case) -> Result<u64, Fail> {
    let blank = CacheBlank::<u64, u64>::new(alloc, config)?;
    Ok(run::<Brand, W>(rt, alloc, blank, config, case)?)
}

// Random calls on such a cache, of which gets are so many of 64, are as in the model.
fn check_random<W: Wait + Abort>(
    rt: &W,
    alloc: Global,
    config: &CacheConfig,
    gets: u64,
) -> Result<(), Fail> {
    let case = Case::Random {
        calls: 2_000,
        gets,
        keys: u64::from(config.items) * 3 / 2 + 2,
    };
    let wrong = wrong_in(rt, alloc, config, case)?;
    expect_none_wrong(rt, config, wrong);
    Ok(())
}

// Nothing was otherwise than in the model.
fn expect_none_wrong(rt: &impl Abort, config: &CacheConfig, wrong: u64) {
    let CacheConfig {
        items,
        hot,
        warm,
        hot_age,
        warm_age,
        ring,
        ..
    } = *config;
    assert_eq!(rt;
        wrong,
        0,
        "of {items} items, {hot} and {warm} percent, {hot_age:?} and {warm_age:?}, {ring} bumps"
    );
}

#[test]
fn items_are_evicted_in_the_models_order(rt: HostRuntime) -> Result<(), Fail> {
    for (items, shares, ages, ring, gets) in [
        (10, (100, 0), (None, None), 8u32, 0),
        (10, (0, 0), (Some(20), Some(200)), 8, 0),
        (10, (20, 40), (Some(20), Some(200)), 8, 0),
        (10, (20, 40), (Some(0), Some(0)), 8, 32),
        (10, (20, 40), (None, Some(200)), 1, 48),
        (24, (20, 40), (Some(20), Some(200)), 64, 56),
        (24, (0, 0), (Some(20), None), 64, 60),
        (24, (0, 100), (Some(300), Some(50)), 32, 56),
        (24, (60, 10), (Some(20), Some(200)), 32, 56),
        (1, (20, 40), (Some(u32::MAX), Some(100)), 4, 48),
    ] {
        let (hot, warm) = shares;
        let (hot_age, warm_age) = ages;
        let config = CacheConfig {
            hot_age,
            warm_age,
            ..config_of(items, ring.saturating_add(1), hot, warm, ring)
        };
        check_random(&rt, rt.alloc(), &config, gets)?;
    }
    Ok(())
}

#[test]
fn items_expire_as_in_the_model(rt: HostRuntime) -> Result<(), Fail> {
    for (items, temporary, ring, gets) in [
        (10, None, 8u32, 0),
        (10, Some(8), 8, 32),
        (10, Some(u64::MAX), 1, 48),
        (24, Some(16), 64, 56),
        (24, Some(0), 32, 60),
    ] {
        let config = CacheConfig {
            temporary,
            ..config_of(items, ring.saturating_add(1), 20, 40, ring)
        };
        let case = Case::Expiring {
            calls: 2_000,
            gets,
            keys: u64::from(items) * 3 / 2 + 2,
        };
        let wrong = wrong_in(&rt, rt.alloc(), &config, case)?;
        assert_eq!(rt; wrong, 0, "of {items} items, {temporary:?}, {ring} bumps");
    }
    Ok(())
}

#[test]
fn items_grow_old_as_in_the_model(rt: HostRuntime) -> Result<(), Fail> {
    for (hot_age, warm_age) in [
        (None, None),
        (Some(20), Some(200)),
        (Some(200), Some(20)),
        (Some(0), None),
    ] {
        let config = CacheConfig {
            hot_age,
            warm_age,
            ..config_of(64, 66, 20, 40, 64)
        };
        let case = Case::Drift {
            accesses: 3_000,
            keys: 256,
        };
        let wrong = wrong_in(&rt, rt.alloc(), &config, case)?;
        assert_eq!(rt; wrong, 0, "of {hot_age:?} and {warm_age:?}");
    }
    Ok(())
}

#[test]
fn a_put_evicts_one(rt: HostRuntime) -> Result<(), Fail> {
    let config = config_of(1_000, 16, 20, 40, 8_192);
    expect_eq!(&rt; wrong_in(&rt, rt.alloc(), &config, Case::Read)?, 0);
    Ok(())
}

#[test]
fn an_eviction_applies_the_bumps_of_a_held_item(rt: HostRuntime) -> Result<(), Fail> {
    let config = config_of(40, 40, 0, 100, 64);
    expect_eq!(&rt; wrong_in(&rt, rt.alloc(), &config, Case::Held)?, 0);
    Ok(())
}

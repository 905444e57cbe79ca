//! Calls of each kind beside a plain map with times, which also go backwards, or are the least and the greatest there
//! are: what has expired is nothing to a call, also to one that looks first, and puts where it is due.
ghost use Rattle.std.specs.Prelude.{◌<◌};
ghost use Rattle.bump_cache.specs.Opening.{IsNamed};

use crate::stands::{config_of, next};
use bump_cache::{
    Added, Cache, CacheBlank, CacheConfig, CacheReader, CacheState, Caller, GotOrPut, LogName,
    Name, Opened, Put, open,
};
use std::alloc::{AllocError, Global};
use std::marker::Brand;
use std::sync::Wait;
use std::test::Fail;

// So many calls are made of each cache.
const CALLS: u64 = 100_000;

// The keys are below this. Each part has room for an item of each, so none is evicted.
const KEYS: usize = 24;

// What a key has, and when it expires.
#[derive(Clone, Copy)]
struct Kept {
    value: u64,
    expires: u64,
}

// When a call is made, with which key, and when what it puts expires.
#[derive(Clone, Copy)]
struct Call {
    key: u64,
    value: u64,
    expires: u64,
    now: u64,
}

fn value_of(kept: Option<Kept>) -> Option<u64> {
    Some(kept?.value)
}

// Whether what a key has has expired.
fn is_over(kept: Kept, now: u64) -> bool {
    kept.expires != 0 && kept.expires <= now
}

// Time goes on by some ticks, or a few of them back.
fn go_on(clock: u64, step: u64) -> u64 {
    match step % 64 {
        0 => clock.saturating_sub(step / 64 % 64),
        _ => clock.saturating_add(step % 3),
    }
}

// The time of a call: the clock's, or once in a while the least or the greatest one.
fn time_of(clock: u64, some: u64) -> u64 {
    match some % 128 {
        0 => 0,
        1 => u64::MAX,
        _ => clock,
    }
}

// When an item expires that is put then: never, at any tick around that time, or at the last one.
fn expiry_of(some: u64, now: u64) -> u64 {
    match some % 6 {
        0 => 0,
        1 => now,
        2 => now.saturating_add(1),
        3 => now.saturating_sub(1),
        4 => u64::MAX,
        _ => now.saturating_add(some / 6 % 32),
    }
}

// Some call.
fn next_call(seed: &mut u64, clock: u64) -> Call {
    let now = time_of(clock, next(seed));
    Call {
        key: next(seed) % KEYS as u64,
        value: next(seed),
        expires: expiry_of(next(seed), now),
        now,
    }
}

// A cache and a plain map, on which the same calls are made.
#[derive(Drop)]
struct Both<N: Name + LogName> {
    cache: Cache<N, u64, u64>,
    me: Caller<N, CacheState>,
    ghost part: { 0 < me.parts },
    reader: Option<CacheReader<N, u64, u64>>,
    map: [Option<Kept>; KEYS],
}

// Each of these makes a call on both, and tells whether they answer the same.
impl<N: Name + LogName> Both<N> {
    // What the key has that hasn't expired.
    fn kept(&self, call: Call) -> Option<Kept> {
        let kept = (*self.map.get(call.key as usize)?)?;
        if is_over(kept, call.now) {
            None
        } else {
            Some(kept)
        }
    }

    // The key has this value from now on.
    fn keep(&mut self, call: Call, value: u64, expires: u64) {
        if let Some(place) = self.map.get_mut(call.key as usize) {
            *place = Some(Kept { value, expires });
        }
    }

    fn put<W: Wait>(&mut self, rt: &W, call: Call) -> bool {
        let had = self.kept(call);
        let put = self
            .cache
            .put(rt, &mut self.me, &call.key, &call.value, call.now);
        self.keep(call, call.value, 0);
        put == Ok(Put {
            old: value_of(had),
            evicted: None,
        })
    }

    fn put_until<W: Wait>(&mut self, rt: &W, call: Call) -> bool {
        let had = self.kept(call);
        let put = self.cache.put_until(
            rt,
            &mut self.me,
            &call.key,
            &call.value,
            call.expires,
            call.now,
        );
        self.keep(call, call.value, call.expires);
        put == Ok(Put {
            old: value_of(had),
            evicted: None,
        })
    }

    fn add<W: Wait>(&mut self, rt: &W, call: Call) -> bool {
        let had = self.kept(call);
        let added = self.cache.add(
            rt,
            &mut self.me,
            &call.key,
            &call.value,
            call.expires,
            call.now,
        );
        match had {
            Some(kept) => added == Ok(Added::Has(kept.value)),
            None => {
                self.keep(call, call.value, call.expires);
                added == Ok(Added::Put { evicted: None })
            }
        }
    }

    fn replace<W: Wait>(&mut self, rt: &W, call: Call) -> bool {
        let old = value_of(self.kept(call));
        let replaced = self.cache.replace(
            rt,
            &mut self.me,
            &call.key,
            &call.value,
            call.expires,
            call.now,
        );
        if old.is_none() {
            return replaced == Ok(None);
        }
        self.keep(call, call.value, call.expires);
        replaced == Ok(Some(Put { old, evicted: None }))
    }

    fn touch<W: Wait>(&mut self, rt: &W, call: Call) -> bool {
        let had = self.kept(call);
        let touched = self
            .cache
            .touch(rt, &mut self.me, &call.key, call.expires, call.now);
        if let Some(kept) = had {
            self.keep(call, kept.value, call.expires);
        }
        touched == Ok(value_of(had))
    }

    // The closure is called exactly where there is something.
    fn update<W: Wait>(&mut self, rt: &W, call: Call) -> bool {
        let had = self.kept(call);
        let mut calls = 0u64;
        let updated = self.cache.update(
            rt,
            &mut self.me,
            &call.key,
            call.now,
            &mut |value: &u64| {
                calls = calls.wrapping_add(1);
                value.wrapping_mul(3)
            },
        );
        let Some(kept) = had else {
            return updated == Ok(None) && calls == 0;
        };
        let changed = kept.value.wrapping_mul(3);
        self.keep(call, changed, kept.expires);
        updated == Ok(Some(changed)) && calls == 1
    }

    // And here exactly where there is nothing.
    fn get_or_put<W: Wait>(&mut self, rt: &W, call: Call) -> bool {
        let had = self.kept(call);
        let mut calls = 0u64;
        let value = call.value;
        let got = self.cache.get_or_put(
            rt,
            &mut self.me,
            &call.key,
            call.expires,
            call.now,
            &mut || {
                calls = calls.wrapping_add(1);
                value
            },
        );
        if let Some(kept) = had {
            return got == Ok(GotOrPut::Got(kept.value)) && calls == 0;
        }
        self.keep(call, value, call.expires);
        let evicted = None;
        got == Ok(GotOrPut::Put { value, evicted }) && calls == 1
    }

    fn remove<W: Wait>(&mut self, rt: &W, call: Call) -> bool {
        let old = value_of(self.kept(call));
        if let Some(place) = self.map.get_mut(call.key as usize) {
            *place = None;
        }
        self.cache.remove(rt, &mut self.me, &call.key, call.now) == old
    }

    // What has expired is gone, also where time goes back behind it: each chunk has its turn in each tend.
    fn tend<W: Wait>(&mut self, rt: &W, call: Call) -> bool {
        self.cache.tend(rt, &mut self.me, call.now);
        for place in self.map.iter_mut() {
            if let Some(kept) = *place {
                if is_over(kept, call.now) {
                    *place = None;
                }
            }
        }
        true
    }

    fn clear<W: Wait>(&mut self, rt: &W) -> bool {
        self.cache.clear(rt, &mut self.me);
        self.map = [None; KEYS];
        true
    }

    // A reader gets what there is.
    fn get(&mut self, call: Call) -> bool {
        let wanted = value_of(self.kept(call));
        match &mut self.reader {
            Some(reader) => reader.get(&call.key, call.now) == wanted,
            None => false,
        }
    }

    // It finds the same without a touch.
    fn look(&mut self, call: Call) -> bool {
        let wanted = value_of(self.kept(call));
        let Some(reader) = &mut self.reader else {
            return false;
        };
        let seen = reader.peek(&call.key, call.now);
        reader.contains(&call.key, call.now) == wanted.is_some() && seen == wanted
    }

    // And so it does with several keys at a time, of which some may be the same.
    fn get_many(&mut self, call: Call) -> bool {
        let other = call.value % KEYS as u64;
        let keys = [other, call.key, call.value / 64 % KEYS as u64, other];
        let mut values = [Some(call.value); 4];
        match &mut self.reader {
            Some(reader) => reader.get_many(&keys, &mut values, call.now),
            None => return false,
        }
        for (key, value) in keys.iter().zip(values.iter()) {
            if *value != value_of(self.kept(Call { key: *key, ..call })) {
                return false;
            }
        }
        true
    }

    // A call of this kind. Of 640 kinds one ends all items.
    fn call<W: Wait>(&mut self, rt: &W, kind: u64, call: Call) -> bool {
        match kind % 16 {
            0 => self.put(rt, call),
            1 | 2 => self.put_until(rt, call),
            3 => self.remove(rt, call),
            4 | 5 => self.add(rt, call),
            6 | 7 => self.replace(rt, call),
            8 | 9 => self.touch(rt, call),
            10 | 11 => self.update(rt, call),
            12 | 13 => self.get_or_put(rt, call),
            14 => self.look(call) && self.get_many(call),
            _ if kind / 16 % 40 == 0 => self.clear(rt),
            _ => self.tend(rt, call),
        }
    }

    // Makes calls of each kind, and gets what each left; and tells how many answered something else.
    fn check<W: Wait>(&mut self, rt: &W, start: u64) -> u64 {
        let mut seed = start;
        let mut clock = start;
        let mut wrong = 0u64;
        for _ in 0..CALLS {
            clock = go_on(clock, next(&mut seed));
            let call = next_call(&mut seed, clock);
            let right = self.call(rt, next(&mut seed), call);
            if !right || !self.get(call) {
                wrong = wrong.saturating_add(1);
            }
        }
        wrong
    }
}

// Opens a cache under the names that the blank's table and log have, and makes the calls.
fn run<N: Name + LogName, W: Wait>(
    rt: &W,
    alloc: Global,
    blank: CacheBlank<u64, u64>,
    start: u64,
) -> Result<u64, AllocError>
    requires { IsNamed N.table N.book N.name N.parts blank }
{
    let Opened {
        cache,
        caller,
        mut readers,
    } = open::<N, u64, u64, W>(alloc, rt, blank)?;
    let mut both = Both {
        cache,
        me: caller,
        reader: readers.pop(),
        map: [None; KEYS],
    };
    Ok(both.check(rt, start))
}

#[test]
fn each_kind_of_call_comes_to_what_a_plain_map_has(rt: HostRuntime) -> Result<(), Fail> {
    let alloc = rt.alloc();
    for (parts, start) in [(1u32, u64::MAX - CALLS / 2), (16, 0)] {
        // each reader's bumps may hold as many chunks as its rings have room
        let config = CacheConfig {
            parts,
            ..config_of(parts.saturating_mul(KEYS as u32), 8, 20, 40, 8)
        };
        let blank = CacheBlank::<u64, u64>::new(alloc, &config)?;
        let wrong = run::<Brand, _>(&rt, alloc, blank, start)?;
        assert_eq!(rt; wrong, 0, "of {parts} parts, from {start} on");
    }
    Ok(())
}

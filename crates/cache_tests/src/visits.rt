//! What is there is visited once, with its value and its time, and what has expired isn't.
ghost use Rattle.std.specs.Prelude.{◌<◌};
ghost use Rattle.bump_cache.specs.Opening.{IsNamed};

use crate::stands::config_of;
use bump_cache::{Cache, CacheBlank, CacheConfig, CacheState, Caller, LogName, Name, Opened, open};
use std::alloc::{AllocError, Global};
use std::marker::Brand;
use std::sync::Wait;
use std::test::Fail;

// So many keys are put, and there is room for all of them in each part.
const KEYS: usize = 90;

// It is put and then removed.
const REMOVED: u64 = 7;

// It is put twice: the second value is what it has.
const TWICE: u64 = 11;

// How often a key was visited, and with what last.
#[derive(Clone, Copy)]
struct Seen {
    times: u64,
    value: u64,
    expires: u64,
}

const NEVER: Seen = Seen {
    times: 0,
    value: 0,
    expires: 0,
};

// When what a key has expires.
fn expiry_of(key: u64) -> u64 {
    match key % 3 {
        0 => 0,
        1 => 20,
        _ => 21,
    }
}

// What a key has in the end.
fn value_of(key: u64) -> u64 {
    if key == TWICE {
        5
    } else {
        key.wrapping_mul(1_000)
    }
}

// What each key has to be visited with at this time.
fn wanted_at(key: u64, now: u64) -> Seen {
    let expires = expiry_of(key);
    if key == REMOVED || (expires != 0 && expires <= now) {
        return NEVER;
    }
    Seen {
        times: 1,
        value: value_of(key),
        expires,
    }
}

// A cache and who changes it.
#[derive(Drop)]
struct Visited<N: Name + LogName> {
    cache: Cache<N, u64, u64>,
    me: Caller<N, CacheState>,
    ghost part: { 0 < me.parts },
}

impl<N: Name + LogName> Visited<N> {
    // Puts all keys, one of them twice, and removes one; and tells how many of these calls were refused.
    fn fill<W: Wait>(&mut self, rt: &W) -> u64 {
        let mut refused = 0u64;
        if !self.put(rt, TWICE, 1) {
            refused = refused.saturating_add(1);
        }
        for key in 0..KEYS as u64 {
            if !self.put(rt, key, value_of(key)) {
                refused = refused.saturating_add(1);
            }
        }
        if self.cache.remove(rt, &mut self.me, &REMOVED, 1).is_none() {
            refused = refused.saturating_add(1);
        }
        refused
    }

    fn put<W: Wait>(&mut self, rt: &W, key: u64, value: u64) -> bool {
        self.cache
            .put_until(rt, &mut self.me, &key, &value, expiry_of(key), 1)
            .is_ok()
    }

    // How many keys are visited.
    fn visits<W: Wait>(&mut self, rt: &W) -> u64 {
        let mut calls = 0u64;
        self.cache.for_each(
            rt,
            &mut self.me,
            0,
            |_key: u64, _value: u64, _expires: u64| {
                calls = calls.wrapping_add(1);
            },
        );
        calls
    }

    // How many keys were visited otherwise than they have to be at this time, other keys than were put among them.
    fn wrong_at<W: Wait>(&mut self, rt: &W, now: u64) -> u64 {
        let mut seen = [NEVER; KEYS];
        let mut wrong = 0u64;
        self.cache.for_each(
            rt,
            &mut self.me,
            now,
            |key: u64, value: u64, expires: u64| {
                match seen.get_mut(key as usize) {
                    Some(place) => {
                        let times = place.times.wrapping_add(1);
                        *place = Seen {
                            times,
                            value,
                            expires,
                        };
                    }
                    None => wrong = wrong.wrapping_add(1),
                }
            },
        );
        for (key, is) in seen.iter().enumerate() {
            let wanted = wanted_at(key as u64, now);
            if is.times != wanted.times
                || is.value != wanted.value
                || is.expires != wanted.expires
            {
                wrong = wrong.wrapping_add(1);
            }
        }
        wrong
    }
}

// Opens a cache under the names that the blank's table and log have; and counts what is wrong before the first key
// expires, when some have, and when all have that do; first how often an empty one was visited, and which calls were
// refused.
fn run<N: Name + LogName, W: Wait>(
    rt: &W,
    alloc: Global,
    blank: CacheBlank<u64, u64>,
) -> Result<[u64; 5], AllocError>
    requires { IsNamed N.table N.book N.name N.parts blank }
{
    let Opened {
        cache,
        caller,
        readers: _readers,
    } = open::<N, u64, u64, W>(alloc, rt, blank)?;
    let mut visited = Visited { cache, me: caller };
    Ok([
        visited.visits(rt),
        visited.fill(rt),
        visited.wrong_at(rt, 19),
        visited.wrong_at(rt, 20),
        visited.wrong_at(rt, u64::MAX),
    ])
}

fn wrong_in<W: Wait>(rt: &W, alloc: Global, config: &CacheConfig) -> Result<[u64; 5], Fail> {
    let blank = CacheBlank::<u64, u64>::new(alloc, config)?;
    Ok(run::<Brand, W>(rt, alloc, blank)?)
}

#[test]
fn each_key_is_visited_once(rt: HostRuntime) -> Result<(), Fail> {
    for parts in [1u32, 2, 5] {
        let config = CacheConfig {
            parts,
            ..config_of(parts.saturating_mul(100), 10, 20, 40, 16)
        };
        let wrong = wrong_in(&rt, rt.alloc(), &config)?;
        assert_eq!(rt; wrong, [0, 0, 0, 0, 0], "of {parts} parts");
    }
    Ok(())
}

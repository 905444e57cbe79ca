//! Items of which a closure is asked, some at a time: each that hasn't expired once, and those end that it doesn't keep.
ghost use Rattle.bump_cache.specs.Opening.{IsNamed};

use crate::expecting::*;
use crate::stands::{Entry, Stand, config_of};
use bump_cache::{CacheBlank, CacheConfig, Item, LogName, Name, Retained};
use std::alloc::{AllocError, Global};
use std::marker::Brand;
use std::process::Abort;
use std::sync::Wait;
use std::test::Fail;

// So many keys are put, and there is room for all of them in each part.
const KEYS: usize = 30;

// When the items of each third key expire. Then the closure is asked of the others.
const THEN: u64 = 20;

// When what a key has expires.
fn expiry_of(key: u64) -> u64 {
    if key % 3 == 0 { THEN } else { 0 }
}

// Whether a key's item is to stay.
fn is_kept(key: u64) -> bool {
    key % 2 == 0
}

// How often each key was asked of, and how often with another value, time or key than was put.
#[derive(Drop)]
struct Asks {
    times: [u32; KEYS],
    wrong: u32,
}

impl Asks {
    fn ask(&mut self, item: &Item<u64, u64>) -> bool {
        let is_it = item.value == item.key.wrapping_mul(7) && item.expires == expiry_of(item.key);
        match self.times.get_mut(item.key as usize) {
            Some(times) if is_it => *times = times.saturating_add(1),
            _ => self.wrong = self.wrong.saturating_add(1),
        }
        is_kept(item.key)
    }
}

// One step in a part.
fn step<N: Name + LogName, W: Wait>(
    rt: &W,
    stand: &mut Stand<N, u64, u64>,
    part: u32,
    from: u32,
    looks: u32,
    asks: &mut Asks,
) -> Retained {
    stand.retain(rt, part, from, looks, THEN, |item: &Item<u64, u64>| {
        asks.ask(item)
    })
}

// All steps in a part: how many items ended.
fn steps_in<N: Name + LogName, W: Wait>(
    rt: &W,
    stand: &mut Stand<N, u64, u64>,
    part: u32,
    looks: u32,
    asks: &mut Asks,
) -> u32 {
    let mut ended = 0u32;
    let mut from = 0;
    for _turn in 0..1_000 {
        let told = step(rt, stand, part, from, looks, asks);
        ended = ended.saturating_add(told.ended);
        let Some(next) = told.next else {
            return ended;
        };
        from = next;
    }
    u32::MAX
}

fn fill<N: Name + LogName, W: Wait>(rt: &W, stand: &mut Stand<N, u64, u64>) -> usize {
    let mut put = 0usize;
    for key in 0..KEYS as u64 {
        let value = key.wrapping_mul(7);
        if stand
            .put_until(rt, &Entry { key, value }, expiry_of(key), 1)
            .is_ok()
        {
            put = put.saturating_add(1);
        }
    }
    put
}

// How many keys were asked of, or have something now, otherwise than they have to.
fn wrong_behind<N: Name + LogName, W: Wait>(
    rt: &W,
    stand: &mut Stand<N, u64, u64>,
    asks: &Asks,
) -> u32 {
    let mut wrong = asks.wrong;
    for (key, times) in asks.times.iter().enumerate() {
        let key = key as u64;
        let is_asked = expiry_of(key) == 0;
        let stays = !is_asked || is_kept(key);
        if *times != u32::from(is_asked) || stand.look(rt, &key, 1).is_some() != stays {
            wrong = wrong.saturating_add(1);
        }
    }
    wrong
}

// What parts and places come to that there aren't, and no looks.
fn expect_nothing<N: Name + LogName, R: Wait + Abort>(
    rt: &R,
    stand: &mut Stand<N, u64, u64>,
    parts: u32,
    asks: &mut Asks,
) {
    let none = Retained {
        ended: 0,
        next: None,
    };
    expect_eq!(rt; step(rt, stand, parts, 0, 5, asks), none);
    expect_eq!(rt; step(rt, stand, 0, 100_000, 5, asks), none);
    expect_eq!(rt; step(rt, stand, 0, u32::MAX, u32::MAX, asks), none);
    let again = Retained {
        ended: 0,
        next: Some(3),
    };
    expect_eq!(rt; step(rt, stand, 0, 3, 0, asks), again);
}

fn run<N: Name + LogName, R: Wait + Abort>(
    rt: &R,
    alloc: Global,
    blank: CacheBlank<u64, u64>,
    looks: u32,
) -> Result<(), AllocError>
    requires { IsNamed N.table N.book N.name N.parts blank }
{
    let mut stand = Stand::<N, u64, u64>::open(alloc, rt, blank)?;
    let parts = stand.parts();
    expect_eq!(rt; fill(rt, &mut stand), KEYS);
    let mut asks = Asks {
        times: [0; KEYS],
        wrong: 0,
    };
    expect_nothing(rt, &mut stand, parts, &mut asks);
    let mut ended = 0u32;
    for part in 0..parts {
        ended = ended.saturating_add(steps_in(rt, &mut stand, part, looks, &mut asks));
    }
    expect_eq!(rt; ended, 10);
    expect_eq!(rt; wrong_behind(rt, &mut stand, &asks), 0);
    Ok(())
}

#[test]
fn each_item_is_asked_of_once_and_stays_or_ends(rt: HostRuntime) -> Result<(), Fail> {
    let alloc = rt.alloc();
    for parts in [1u32, 2, 5] {
        for looks in [1u32, 7, 1_000, u32::MAX] {
            let config = CacheConfig {
                parts,
                ..config_of(parts.saturating_mul(40), 10, 20, 40, 2)
            };
            let blank = CacheBlank::<u64, u64>::new(alloc, &config)?;
            run::<Brand, HostRuntime>(&rt, alloc, blank, looks)?;
        }
    }
    Ok(())
}

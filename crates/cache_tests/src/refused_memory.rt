//! Allocations that are refused: there is no cache then, and it is told which call was refused. A cache that is open asks
//! for none.

ghost use Rattle.bump_cache.specs.Opening.{IsNamed};

use crate::expecting::*;
use crate::numbered::{Numbered, number_of};
use crate::stands::{Stand, config_of};
use bump_cache::{Bytes, CacheBlank, CacheRefusal, LogName, Name, TooLong};
use std::alloc::Global;
use std::marker::Brand;
use std::sync::Wait;
use std::test::Fail;

// The name of a call that was refused for want of memory.
type Call = &'static str;

// So many calls are made of each kind.
const CALLS: u64 = 200;

// Whether a put is right, and gets and a removal behind it.
fn is_right<N: Name + LogName, W: Wait>(
    rt: &W,
    stand: &mut Stand<N, (u64, u32), Bytes<2>>,
    now: u64,
) -> Result<bool, TooLong> {
    let key = <(u64, u32)>::of(now % 15)?;
    let put = stand.put(rt, key, Bytes::of(now)?, now);
    let got = stand.get(0, &key, now);
    let again = stand.get(0, &<(u64, u32)>::of(now % 4)?, now);
    let removed = if now % 7 == 0 {
        number_of(&stand.remove(rt, &key, now))
    } else {
        Some(now)
    };
    let is_right = put.is_ok() && number_of(&got) == Some(now) && removed == Some(now);
    Ok(is_right && !number_of(&again).is_some_and(|number| number > now))
}

// Calls of each kind on a cache of ten items, with keys of which there are more. It tells how much was wrong.
fn check<N: Name + LogName, W: Wait>(
    rt: &W,
    stand: &mut Stand<N, (u64, u32), Bytes<2>>,
) -> Result<u64, TooLong> {
    let mut wrong = 0u64;
    for now in 0..CALLS {
        if !is_right(rt, stand, now)? {
            wrong = wrong.saturating_add(1);
        }
        if now % 5 == 0 {
            stand.tend(rt, now);
        }
        if now == CALLS / 2 {
            stand.clear(rt);
        }
        if stand.stats(rt).evicted() > now {
            wrong = wrong.saturating_add(1);
        }
    }
    Ok(wrong)
}

// Opens a cache under the names that the blank's table and log have, and makes the calls.
fn run_in<N: Name + LogName, W: Wait>(
    rt: &W,
    alloc: Global,
    blank: CacheBlank<(u64, u32), Bytes<2>>,
) -> Result<u64, Call>
    requires { IsNamed N.table N.book N.name N.parts blank }
{
    let Ok(mut stand) = Stand::<N, (u64, u32), Bytes<2>>::open(alloc, rt, blank) else {
        return Err("open");
    };
    check(rt, &mut stand).map_err(|_| "Bytes::new")
}

// Opens a cache and makes the calls. It tells the call that was refused where there is no cache.
fn run<W: Wait>(rt: &W, alloc: Global) -> Result<u64, Call> {
    match CacheBlank::<(u64, u32), Bytes<2>>::new(alloc, &config_of(10, 8, 20, 40, 4)) {
        Ok(blank) => run_in::<Brand, W>(rt, alloc, blank),
        Err(CacheRefusal::Memory) => Err("CacheBlank::new"),
        Err(CacheRefusal::Fault(_)) => Ok(1),
    }
}

// Holds whichever one allocation is refused: no cache is opened, and one is opened then. `checks/refused_allocations`
// looks for these words: each allocation that was refused is one of `CacheBlank::new` or of `open`, up to the last one,
// which is made behind all calls on the cache. So these made none.
#[test]
fn a_refused_allocation_opens_no_cache(rt: HostRuntime) -> Result<(), Fail> {
    let alloc = rt.alloc();
    let wrong = match run(&rt, alloc) {
        Ok(wrong) => wrong,
        Err(call) => {
            eprintln!(rt; "an allocation was refused: {call}")?;
            run(&rt, alloc)?
        }
    };
    expect_eq!(&rt; wrong, 0);
    if Box::new(alloc, 0u8).is_err() {
        eprintln!(rt; "no allocation was left")?;
    }
    Ok(())
}

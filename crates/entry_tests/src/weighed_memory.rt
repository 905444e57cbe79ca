//! Allocations that are refused within a limit in bytes: key and value come back, and what weighs is what is there.
ghost use Rattle.entry_cache.specs.Opening.{IsNamed};

use crate::calls::small_config;
use entry_cache::{
    AnyEntry, Changer, EntryBlank, LogName, Name, OpenedEntries, Refusal, TooMuch, Weighed,
    WeighedCache, open,
};
use std::alloc::{AllocError, Global};
use std::marker::Brand;
use std::sync::Wait;
use std::test::Fail;

// What a run came to.
#[derive(Clone, Copy)]
struct Came {
    // answers that were wrong
    wrong: u64,
    // puts that were refused for want of memory
    refused: u64,
}

// Puts an entry that weighs 3 until it isn't refused: a refused one comes back with its key.
fn put<N: Name + LogName, W: Wait>(
    rt: &W,
    cache: &WeighedCache<N, u64, u64>,
    changer: &mut Changer<N>,
    key: u64,
    came: &mut Came,
) {
    let Err(it) = cache.put(rt, &mut changer.me, key, key, 3, key) else {
        return;
    };
    let same = it.key == key && it.value == key && it.why == TooMuch::Entry(Refusal::Memory);
    came.refused = came.refused.saturating_add(1);
    came.wrong = came.wrong.saturating_add(u64::from(!same));
    let again = cache.put(rt, &mut changer.me, it.key, it.value, 3, key);
    came.wrong = came.wrong.saturating_add(u64::from(again.is_err()));
}

// Opens a cache with a limit under the names that the blank's table and log have, and puts more than it has bytes for.
fn run<N: Name + LogName, W: Wait>(
    rt: &W,
    alloc: Global,
    blank: EntryBlank,
) -> Result<Came, AllocError>
    requires { IsNamed N.table N.book N.name N.parts blank }
{
    let OpenedEntries {
        cache,
        caller,
        readers: _,
    } = open::<N, u64, Weighed<u64>, AnyEntry, W>(alloc, rt, blank)?;
    let cache = WeighedCache::new(alloc, cache, 29)?;
    let mut changer = Changer::new(caller);
    let mut came = Came {
        wrong: 0,
        refused: 0,
    };
    for key in 0..40u64 {
        put(rt, &cache, &mut changer, key, &mut came);
    }
    let stats = cache.entries().stats(rt, &mut changer.me);
    let rows = u64::from(stats.number_hot)
        .saturating_add(u64::from(stats.number_warm))
        .saturating_add(u64::from(stats.number_cold));
    let weighs = cache.bytes(0) == rows.saturating_mul(3);
    came.wrong = came.wrong.saturating_add(u64::from(!weighs));
    Ok(came)
}

// The whole of it. None where the cache wasn't opened.
fn come_to<W: Wait>(rt: &W, alloc: Global) -> Option<Came> {
    let Ok(blank) = EntryBlank::new(alloc, &small_config(40, 1)) else {
        return None;
    };
    let came = run::<Brand, W>(rt, alloc, blank);
    came.ok()
}

// Holds whichever one allocation is refused: behind it all is well.
#[test]
fn a_refused_put_within_a_limit_gives_all_back(rt: HostRuntime) -> Result<(), Fail> {
    let alloc = rt.alloc();
    let came = match come_to(&rt, alloc) {
        Some(came) => came,
        None => {
            eprintln!(rt; "an allocation was refused beside puts")?;
            match come_to(&rt, alloc) {
                Some(came) => came,
                None => return Err("refused twice".into()),
            }
        }
    };
    assert_eq!(rt; came.wrong, 0);
    if came.refused > 0 {
        eprintln!(rt; "a put was refused")?;
    }
    if Box::new(alloc, 0u8).is_err() {
        eprintln!(rt; "no allocation was left")?;
    }
    Ok(())
}

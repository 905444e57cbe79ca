//! An item that a reader holds keeps its words, and its chunk, whatever is put or evicted meanwhile.

ghost use Rattle.bump_cache.specs.Opening.{IsNamed};

use crate::expecting::*;
use bump_cache::{
    Cache, CacheBlank, CacheConfig, CacheReader, Cause, Changer, Evicted, LogName, Name, Opened,
    Seed, open,
};
use std::alloc::Global;
use std::marker::Brand;
use std::process::Abort;
use std::sync::Wait;
use std::test::Fail;

const SEED: Seed = Seed {
    first: 3,
    second: 4,
};

// A put under the key 1 finds a chunk, or it doesn't.
fn expect_put<N: Name + LogName, R: Wait + Abort>(
    rt: &R,
    cache: &Cache<N, u64, u64>,
    changer: &mut Changer<N>,
    value: u64,
    now: u64,
    finds_one: bool,
) {
    let put = cache.put(rt, &mut changer.me, &1, &value, now);
    expect_eq!(rt; put.is_ok(), finds_one);
}

// The key's item is evicted, and there is no other.
fn expect_evicted<N: Name + LogName, R: Wait + Abort>(
    rt: &R,
    cache: &Cache<N, u64, u64>,
    changer: &mut Changer<N>,
) {
    let evicted = Evicted {
        key: 1,
        value: 12,
        cause: Cause::Room,
    };
    expect_eq!(rt; cache.evict(rt, &mut changer.me, 0, 8), Some(evicted));
    expect_eq!(rt; cache.evict(rt, &mut changer.me, 0, 8), None);
    expect_eq!(rt; cache.look(rt, &mut changer.me, &1, 8), None);
}

// The key gets another value while the item is held. There are two chunks: one has the new item, and the old one is held.
fn hold_replaced<N: Name + LogName, R: Wait + Abort>(
    rt: &R,
    cache: &Cache<N, u64, u64>,
    changer: &mut Changer<N>,
    reader: &mut CacheReader<N, u64, u64>,
) {
    let Some(mut held) = reader.get_with(&1, 1) else {
        panic!(rt; "the key has a value")
    };
    expect_put(rt, cache, changer, 11, 2, true);
    expect_put(rt, cache, changer, 12, 3, false);
    expect_eq!(rt; held.value(), 10);
    expect_eq!(rt; held.word(0), 10);
    drop(held);
}

// The item is evicted while it is held, and its key has nothing then; a put takes the other chunk.
fn hold_evicted<N: Name + LogName, R: Wait + Abort>(
    rt: &R,
    cache: &Cache<N, u64, u64>,
    changer: &mut Changer<N>,
    reader: &mut CacheReader<N, u64, u64>,
) {
    let Some(mut held) = reader.get_with(&1, 7) else {
        panic!(rt; "the key has a value")
    };
    expect_evicted(rt, cache, changer);
    expect_put(rt, cache, changer, 13, 9, true);
    expect_eq!(rt; held.value(), 12);
    drop(held);
}

fn run<N: Name + LogName, R: Wait + Abort>(
    rt: &R,
    alloc: Global,
    blank: CacheBlank<u64, u64>,
) -> Result<(), Fail>
    requires { IsNamed N.table N.book N.name N.parts blank }
{
    let Opened {
        cache,
        caller,
        mut readers,
    } = open::<N, u64, u64, R>(alloc, rt, blank)?;
    let mut changer = Changer::new(caller);
    let Some(reader) = readers.first_mut() else {
        panic!(rt; "there is a reader")
    };
    expect_put(rt, &cache, &mut changer, 10, 0, true);
    hold_replaced(rt, &cache, &mut changer, reader);
    expect_put(rt, &cache, &mut changer, 12, 4, true);
    expect_eq!(rt; reader.get(&1, 5), Some(12));
    expect_that!(rt; reader.get_with(&2, 6).is_none());
    hold_evicted(rt, &cache, &mut changer, reader);
    expect_eq!(rt; reader.get(&1, 9), Some(13));
    Ok(())
}

#[test]
fn a_held_item_keeps_its_value(rt: HostRuntime) -> Result<(), Fail> {
    let alloc = rt.alloc();
    let config = CacheConfig {
        spare: 1,
        ..CacheConfig::new(1, 1, SEED)
    };
    let Ok(blank) = CacheBlank::new(alloc, &config) else {
        panic!(rt; "the configuration")
    };
    run::<Brand, HostRuntime>(&rt, alloc, blank)
}

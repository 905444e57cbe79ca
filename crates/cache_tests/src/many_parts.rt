//! Caches of many parts and readers, in which each reader finds what was put; and the greatest numbers that a
//! configuration may have.

ghost use Rattle.bump_cache.specs.Opening.{IsNamed};

use crate::expecting::*;
use crate::stands::{SEED, Stand};
use bump_cache::{CacheBlank, CacheConfig, CacheFault, LogName, Name};
use std::alloc::Global;
use std::marker::Brand;
use std::process::Abort;
use std::sync::Wait;
use std::test::Fail;

// A part has room for so many items, so that none evicts.
const ITEMS: u32 = 20;

// So many keys are put for each part.
const KEYS: u32 = 4;

// The value that a key has behind so many puts.
fn value_of(key: u64, puts: u64) -> u64 {
    key.wrapping_mul(1_000_003).wrapping_add(puts)
}

// How many parts have one of the keys below a number.
fn parts_with_keys<N: Name + LogName>(stand: &Stand<N, u64, u64>, keys: u64) -> usize {
    let mut has = [false; 256];
    for key in 0..keys {
        if let Some(part) = has.get_mut(stand.part_of(&key) as usize) {
            *part = true;
        }
    }
    let mut count = 0usize;
    for part in has {
        if part {
            count = count.saturating_add(1);
        }
    }
    count
}

// Puts all keys, and lets each reader get each of them: how many puts were refused or evicted something, and how many
// gets found another value or nothing.
fn wrong_behind<N: Name + LogName, W: Wait>(
    rt: &W,
    stand: &mut Stand<N, u64, u64>,
    keys: u64,
    readers: u32,
    puts: u64,
) -> u64 {
    let mut wrong = 0u64;
    for key in 0..keys {
        let is_right = match stand.put(rt, key, value_of(key, puts), puts) {
            Ok(put) => put.evicted.is_none(),
            Err(_) => false,
        };
        if !is_right {
            wrong = wrong.saturating_add(1);
        }
    }
    for reader in 0..readers {
        for key in 0..keys {
            let found = stand.get(reader as usize, &key, puts);
            if found != Some(value_of(key, puts)) {
                wrong = wrong.saturating_add(1);
            }
        }
    }
    wrong
}

// Puts all keys three times, with a tend before the last time. Each time each reader gets each key.
fn check_puts<N: Name + LogName, R: Wait + Abort>(
    rt: &R,
    stand: &mut Stand<N, u64, u64>,
    keys: u64,
    readers: u32,
) {
    expect_eq!(rt; wrong_behind(rt, stand, keys, readers, 1), 0);
    expect_eq!(rt; wrong_behind(rt, stand, keys, readers, 2), 0);
    stand.tend(rt, 3);
    expect_eq!(rt; wrong_behind(rt, stand, keys, readers, 4), 0);
}

// Most of the parts have keys, and each reader gets all.
fn run<N: Name + LogName, R: Wait + Abort>(
    rt: &R,
    alloc: Global,
    blank: CacheBlank<u64, u64>,
    config: &CacheConfig,
) -> Result<(), Fail>
    requires { IsNamed N.table N.book N.name N.parts blank }
{
    let (parts, readers) = (config.parts, config.readers);
    let mut stand = Stand::<N, u64, u64>::open(alloc, rt, blank)?;
    let keys = u64::from(parts).saturating_mul(u64::from(KEYS));
    let with_keys = parts_with_keys(&stand, keys);
    expect_that!(rt; with_keys.saturating_mul(8) >= (parts as usize).saturating_mul(7));
    check_puts(rt, &mut stand, keys, readers);
    let gets = keys.saturating_mul(u64::from(readers)).saturating_mul(3);
    expect_eq!(rt; stand.hits_and_misses(), (gets, 0));
    expect_eq!(rt; stand.get(readers as usize, &1, 4), None);
    Ok(())
}

// Runs a cache of so many parts and readers, and expects nothing wrong.
fn expect_right<W: Wait + Abort>(
    rt: &W,
    alloc: Global,
    parts: u32,
    readers: u32,
) -> Result<(), Fail> {
    let config = CacheConfig {
        parts,
        ring: 16,
        ..CacheConfig::new(parts.saturating_mul(ITEMS), readers, SEED)
    };
    let blank = CacheBlank::<u64, u64>::new(alloc, &config)?;
    run::<Brand, W>(rt, alloc, blank, &config)
}

#[test]
fn each_reader_finds_what_was_put_in_many_parts(rt: HostRuntime) -> Result<(), Fail> {
    for (parts, readers) in [(64, 64), (256, 2), (3, 64), (255, 1)] {
        expect_right(&rt, rt.alloc(), parts, readers)?;
    }
    Ok(())
}

// The fault of so many items, spare chunks of a part, parts and readers.
fn fault_of(items: u32, spare: u32, parts: u32, readers: u32) -> Option<CacheFault> {
    let config = CacheConfig {
        spare,
        parts,
        ..CacheConfig::new(items, readers, SEED)
    };
    config.fault()
}

// They have this one, or none.
fn expect_fault(
    rt: &impl Abort,
    items: u32,
    spare: u32,
    parts: u32,
    readers: u32,
    wanted: Option<CacheFault>,
) {
    expect_eq!(rt; fault_of(items, spare, parts, readers), wanted);
}

#[test]
fn parts_and_readers_have_bounds(rt: HostRuntime) {
    expect_fault(&rt, 256, 1, 256, 64, None);
    expect_fault(&rt, 257, 1, 257, 1, Some(CacheFault::Parts));
    expect_fault(&rt, 255, 1, 256, 1, Some(CacheFault::Parts));
    expect_fault(&rt, 300, 1, 0, 1, Some(CacheFault::Parts));
    expect_fault(&rt, 300, 1, 256, 65, Some(CacheFault::Readers));
    expect_fault(&rt, 300, 1, 1, 65, Some(CacheFault::Readers));
    expect_fault(&rt, 300, 1, 256, 0, Some(CacheFault::Readers));
    expect_fault(&rt, 300, 1, 256, u32::MAX, Some(CacheFault::Readers));
}

#[test]
fn items_and_chunks_have_bounds(rt: HostRuntime) {
    expect_fault(&rt, 127_999_999, 1, 1, 1, None);
    expect_fault(&rt, 127_999_744, 1, 256, 64, None);
    expect_fault(&rt, 127_999_745, 1, 256, 64, Some(CacheFault::Spare));
    expect_fault(&rt, 128_000_000, 1, 1, 1, Some(CacheFault::Spare));
    expect_fault(&rt, 128_000_000, 0, 1, 1, Some(CacheFault::Spare));
    expect_fault(&rt, 128_000_001, 1, 1, 1, Some(CacheFault::Items));
    expect_fault(&rt, u32::MAX, 1, 1, 1, Some(CacheFault::Items));
    expect_fault(&rt, 64_000_000, 250_000, 256, 64, None);
    expect_fault(&rt, 64_000_001, 250_000, 256, 64, Some(CacheFault::Spare));
    // multiplied by the parts it is 2^32
    expect_fault(&rt, 256, 16_777_216, 256, 64, Some(CacheFault::Spare));
}

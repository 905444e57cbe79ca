//! Loads a cache with threads: readers that get, writers that put and remove, and one that tends. Its words are how many
//! readers there are, how many writers, how many gets all readers make together, and how many parts the cache has, which
//! is 1 where that isn't said. It looks at each value that it gets, and ends with status 1 where something was wrong.
//! `checks/loaded_cache` runs it with big numbers.
#![tactic(auto)]

mod loads;
mod readers;
mod values;
mod writers;

use bump_cache::{CacheBlank, CacheConfig, Seed};
use loads::{Load, Report, run};
use std::alloc::Global;
use std::env;
use std::marker::Brand;
use std::process::ExitCode;
use std::random::RandomSource;
use std::rt::Env;
use std::sync::Wait;
use std::thread::Threads;
use values::{MOST_WRITERS, Value};

// A part has room for so many items. The keys are more than those.
const ITEMS: u32 = 1_024;

// A reader's ring has room for so many bumps.
const RING: u32 = 64;

// How many parts are asked for: 1 where there is no word for that.
fn parts_in(words: &[String]) -> Option<u32> {
    match words.get(4) {
        Some(word) => word.parse::<u32>().ok(),
        None => Some(1),
    }
}

// Whether a cache may have so many readers and parts.
fn may_have(readers: u32, parts: u32) -> bool {
    readers >= 1 && readers <= 64 && parts >= 1 && parts <= 256
}

// What the words of the command line ask for, if they are three numbers in range, or four.
fn load_of(words: &[String]) -> Option<Load> {
    let readers = words.get(1)?.parse::<u32>().ok()?;
    let writers = words.get(2)?.parse::<u32>().ok()?;
    let gets = words.get(3)?.parse::<u64>().ok()?;
    let parts = parts_in(words)?;
    if !may_have(readers, parts) || writers < 1 || writers > MOST_WRITERS {
        return None;
    }
    Some(Load {
        readers,
        writers,
        gets,
        parts,
    })
}

// The configuration of a cache whose puts always find room: in each part there is a chunk for each bump that may wait
// and for each hold. By ages an item may leave HOT however few are there: then keys that are always there could be evicted.
fn config_of(load: Load, seed: Seed) -> CacheConfig {
    CacheConfig {
        spare: load.readers.saturating_mul(RING + 2),
        hot_age: None,
        warm_age: None,
        parts: load.parts,
        ring: RING,
        ..CacheConfig::new(ITEMS.saturating_mul(load.parts), load.readers, seed)
    }
}

// Opens a cache, and loads it.
fn load_cache<R: Threads + Wait + RandomSource + Sync>(
    rt: &R,
    alloc: Global,
    load: Load,
) -> Option<Report> {
    let seed = Seed::random(rt).ok()?;
    let blank = CacheBlank::<u64, Value>::new(alloc, &config_of(load, seed)).ok()?;
    run::<Brand, R>(rt, alloc, blank, load).ok()
}

// Prints what doesn't depend on which thread was faster, and on standard error what does.
fn print(rt: &(impl Print + Eprint), load: Load, report: &Report) -> std::io::Result<()> {
    let Load {
        readers,
        writers,
        gets: _,
        parts,
    } = load;
    let seen = report.seen;
    println!(rt; "{readers} readers, {writers} writers and one that tends")?;
    if parts > 1 {
        println!(rt; "parts: {parts}")?;
    }
    println!(rt; "gets: {}", seen.gets)?;
    println!(rt;
        "of keys that are always there: {}, of which {} found nothing",
        seen.staying, seen.missing
    )?;
    println!(rt; "wrong values: {}", seen.wrong)?;
    println!(rt; "older values: {}", seen.older)?;
    println!(rt; "puts without room: {}", report.wrote.refused)?;
    println!(rt; "keys evicted that stay: {}", report.wrote.wrong)?;
    println!(rt; "sums of the statistics: {}", report.add_up)?;
    eprintln!(rt;
        "gets of other keys that found something: {}; puts: {}, evicted: {}, removed: {}",
        seen.others, report.wrote.puts, report.wrote.evicted, report.wrote.removed
    )
}

fn main(rt: HostRuntime) -> std::io::Result<ExitCode> {
    let words = env::args(&rt)?.collect::<Vec<String>>(rt.alloc())?;
    let Some(load) = load_of(&words) else {
        eprintln!(&rt;
            "usage: cache_load READERS WRITERS GETS [PARTS], of 1 to 64 readers, 1 to 4 writers and 1 to 256 parts"
        )?;
        return Ok(ExitCode::from(3));
    };
    let Some(report) = load_cache(&rt, rt.alloc(), load) else {
        eprintln!(&rt; "memory or the system's random numbers are wanting")?;
        return Ok(ExitCode::from(2));
    };
    print(&rt, load, &report)?;
    Ok(ExitCode::from(u8::from(!report.is_right())))
}

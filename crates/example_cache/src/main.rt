//! A cache of numbers by their keys: an example to be copied. It opens a cache of 100 items with one reader, puts a
//! number under a key, gets it, and tends the cache. In this folder `rt try` runs it, and `rt run` proves it first.
#![tactic(auto)]

ghost use Rattle.bump_cache.specs.Opening.{IsNamed};

use anyhow::Result;
use bump_cache::{CacheBlank, CacheConfig, LogName, Name, Opened, Seed, open};
use std::alloc::{AllocError, Global};
use std::marker::Brand;
use std::sync::Wait;

// Puts a number, gets it, and tends the cache, which is opened under the names that the blank's table and log have.
fn run<N: Name + LogName, R: Wait>(
    rt: &R,
    alloc: Global,
    blank: CacheBlank<u64, u64>,
) -> Result<Option<u64>, AllocError>
    requires { IsNamed N.table N.book N.name N.parts blank }
{
    let Opened {
        cache,
        caller: mut me,
        mut readers,
    } = open::<N, u64, u64, R>(alloc, rt, blank)?;
    let _ = cache.put(rt, &mut me, &7, &49, 0);
    let got = match readers.first_mut() {
        Some(reader) => reader.get(&7, 1),
        None => None,
    };
    cache.tend(rt, &mut me, 2);
    Ok(got)
}

fn main(rt: HostRuntime) -> Result<()> {
    let config = CacheConfig::new(100, 1, Seed::random(&rt)?);
    let blank = CacheBlank::new(rt.alloc(), &config)?;
    let got = run::<Brand, _>(&rt, rt.alloc(), blank)?;
    println!(rt; "{got:?}")?;
    Ok(())
}

//! A cache of texts by names: an example to be copied. It opens a cache of 100 entries with one reader, puts a text under a name, gets
//! it, and removes it. In this folder `rt try` runs it, and `rt run` proves it first.
#![tactic(auto)]

ghost use Rattle.entry_cache.specs.Opening.{IsNamed};

use anyhow::Result;
use entry_cache::{AnyEntry, CacheConfig, EntryBlank, LogName, Name, OpenedEntries, Seed, open};
use std::alloc::{AllocError, Global};
use std::marker::Brand;
use std::sync::Wait;

// Puts a text, and gets how long it is.
fn run<N: Name + LogName, R: Wait>(
    rt: &R,
    alloc: Global,
    blank: EntryBlank,
) -> Result<Option<usize>, AllocError>
    requires { IsNamed N.table N.book N.name N.parts blank }
{
    let OpenedEntries {
        cache,
        caller: mut me,
        mut readers,
    } = open::<N, String, String, AnyEntry, R>(alloc, rt, blank)?;
    let name = String::from_str(alloc, "greeting")?;
    let text = String::from_str(alloc, "hello, whoever reads this")?;
    let _ = cache.put(rt, &mut me, name, text, 0);
    let got = match readers.first_mut() {
        Some(reader) => reader
            .get(&cache, "greeting", 1)
            .map(|found| found.value().len()),
        None => None,
    };
    let _ = cache.remove(rt, &mut me, "greeting", 2);
    Ok(got)
}

fn main(rt: HostRuntime) -> Result<()> {
    let config = CacheConfig::new(100, 1, Seed::random(&rt)?);
    let blank = EntryBlank::new(rt.alloc(), &config)?;
    let got = run::<Brand, _>(&rt, rt.alloc(), blank)?;
    println!(rt; "{got:?}")?;
    Ok(())
}

//! Measures what gets and puts of a cache cost, beside those of the kit's `lru` behind one mutex and behind 16. It
//! prints only when it is given words: a workload's name, as `cache_get`; by how many threads (1); of how many items
//! (100,000); and, of `cache_bytes`, of how many parts (1).
#![tactic(auto)]

mod caches;
mod lines;
mod lrus;
mod memory;
mod passes;
mod workloads;

use lines::{print_bytes, print_times};
use passes::Passes;
use std::alloc::{AllocError, Global};
use std::rt::{Clock, Files};
use std::sync::Wait;
use std::thread::Threads;
use std::{env, io};
use workloads::{Subject, Work, Workload};

fn number_at(words: &[String], place: usize) -> Option<u32> {
    words.get(place)?.parse::<u32>().ok()
}

// Makes the passes of a workload, and prints what they took.
fn measure_times<R: Threads + Clock + Wait + Print + Copy + Send + Sync>(
    rt: R,
    alloc: Global,
    name: &str,
    workload: Workload,
    threads: u32,
    items: u32,
) -> io::Result<()> {
    let passes = Passes {
        rt,
        alloc,
        work: workload.work,
        threads,
        items,
    };
    let times = match workload.subject {
        Subject::Cache => passes.cache_times(),
        Subject::Lru => passes.lru_times(1),
        Subject::Shards => passes.lru_times(16),
    };
    print_times(&rt, name, threads, &times.ok_or(AllocError)?)
}

// Prints how many bytes an item takes.
fn measure_bytes<R: Wait + Print + Files + AllocGlobal + Copy>(
    rt: R,
    name: &str,
    workload: Workload,
    threads: u32,
    items: u32,
    parts: u32,
) -> io::Result<()> {
    let grown = match workload.subject {
        Subject::Cache => {
            // `checks/cache_memory` reads this line.
            println!(rt;
                "bytes_taken {}",
                caches::bytes_taken(items, threads, parts)
            )?;
            caches::grown_by_cache(&rt, items, threads, parts)?
        }
        Subject::Lru => lrus::grown_by_lru(rt, items, 1)?,
        Subject::Shards => lrus::grown_by_lru(rt, items, 16)?,
    };
    print_bytes(&rt, name, items, grown)
}

fn main(rt: HostRuntime) -> io::Result<()> {
    let words = env::args(&rt)?.collect::<Vec<String>>(rt.alloc())?;
    let name = words.get(1).map_or("", |word| word.as_str());
    let threads = number_at(&words, 2).unwrap_or(1);
    let items = number_at(&words, 3).unwrap_or(100_000);
    let Some(workload) = Workload::named(name) else {
        return Ok(());
    };
    if workload.work == Work::Bytes {
        let parts = number_at(&words, 4).unwrap_or(1);
        return measure_bytes(&rt, name, workload, threads, items, parts);
    }
    measure_times(&rt, rt.alloc(), name, workload, threads, items)
}

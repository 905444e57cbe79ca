//! A cache that threads share: an example to be copied. Four readers get values and wait for nobody, while one more thread
//! puts them anew, and another one tends the cache. In this folder `rt try` runs it, and `rt run` proves it first.
#![tactic(auto)]

ghost use Rattle.bump_cache.specs.Opening.{IsNamed};

use anyhow::Result;
use bump_cache::{
    Cache, CacheBlank, CacheConfig, CacheReader, Changer, LogName, Name, Opened, Seed, Stats, open,
};
use std::alloc::{AllocError, Global};
use std::marker::Brand;
use std::sync::Wait;
use std::sync::atomic::{AtomicBool, AtomicU64, Ordering};
use std::thread;
use std::thread::Threads;

/// Keys, from 0: more than the cache has room for, so puts evict. A value of a key is the key and some times this.
const KEYS: u64 = 64;

const READERS: u32 = 4;

/// How often each reader gets.
const GETS: u64 = 100_000;

/// What readers came to: how many of their gets answered another key's value, and how many gets were counted.
#[derive(Clone, Copy)]
struct Gets {
    wrong: u64,
    counted: u64,
}

// A reader's thread: it gets the keys in turn.
fn read<N: Name + LogName>(mut reader: CacheReader<N, u64, u64>) -> Gets {
    let mut wrong = 0u64;
    for now in 0..GETS {
        let key = now % KEYS;
        if let Some(value) = reader.get(&key, now) {
            if value % KEYS != key {
                wrong = wrong.saturating_add(1);
            }
        }
    }
    let counted = reader.hits().saturating_add(reader.misses());
    Gets { wrong, counted }
}

// Puts the key whose turn it is.
fn put_next<N: Name + LogName, R: Wait>(
    rt: &R,
    cache: &Cache<N, u64, u64>,
    changer: &mut Changer<N>,
    now: u64,
) {
    let _ = cache.put(rt, &mut changer.me, &(now % KEYS), &now, now);
}

// The thread that puts: it puts the keys in turn, and tells the time, until the readers are done.
fn write<N: Name + LogName, R: Wait>(
    rt: &R,
    cache: &Cache<N, u64, u64>,
    mut changer: Changer<N>,
    clock: &AtomicU64,
    done: &AtomicBool,
) {
    let mut now = 0u64;
    for _ in rt.forever() {
        if done.load(Ordering::SeqCst) {
            return;
        }
        put_next(rt, cache, &mut changer, now);
        now = now.saturating_add(1);
        clock.store(now, Ordering::SeqCst);
    }
}

// The thread that tends, until the readers are done.
fn tend<N: Name + LogName, R: Wait>(
    rt: &R,
    cache: &Cache<N, u64, u64>,
    mut changer: Changer<N>,
    clock: &AtomicU64,
    done: &AtomicBool,
) {
    cache.tend_until(rt, &mut changer.me, || {
        if done.load(Ordering::SeqCst) {
            None
        } else {
            Some(clock.load(Ordering::SeqCst))
        }
    });
}

// Each reader in a thread of its own, and two more for the one that puts and the one that tends, until all readers are done.
fn work<N: Name + LogName + Send + Sync, R: Threads + Wait + Sync>(
    rt: &R,
    cache: &Cache<N, u64, u64>,
    readers: Vec<CacheReader<N, u64, u64>>,
    writer: Changer<N>,
    tender: Changer<N>,
) -> Result<Vec<Gets>, AllocError> {
    let clock = AtomicU64::new(0);
    let done = AtomicBool::new(false);
    let (gets, ((), ())) = thread::join(
        rt,
        || {
            let gets = thread::map_vec(rt, readers, &|reader| read(reader));
            done.store(true, Ordering::SeqCst);
            gets
        },
        || {
            thread::join(
                rt,
                || write(rt, cache, writer, &clock, &done),
                || tend(rt, cache, tender, &clock, &done),
            )
        },
    );
    gets
}

// All of it under the names that the blank's table and log have.
fn run<N: Name + LogName + Send + Sync, R: Threads + Wait + Sync>(
    rt: &R,
    alloc: Global,
    blank: CacheBlank<u64, u64>,
) -> Result<(Gets, Stats), AllocError>
    requires { IsNamed N.table N.book N.name N.parts blank }
{
    let Opened {
        cache,
        caller: mut me,
        readers,
    } = open::<N, u64, u64, R>(alloc, rt, blank)?;
    // Each thread that changes the cache has a caller of its own.
    let writer = Changer::new(me.another());
    let tender = Changer::new(me.another());
    let mut all = Gets {
        wrong: 0,
        counted: 0,
    };
    for gets in &work(rt, &cache, readers, writer, tender)? {
        all.wrong = all.wrong.saturating_add(gets.wrong);
        all.counted = all.counted.saturating_add(gets.counted);
    }
    Ok((all, cache.stats(rt, &mut me)))
}

fn sum(counts: &[u64]) -> u64 {
    let mut sum = 0u64;
    for count in counts {
        sum = sum.saturating_add(*count);
    }
    sum
}

// Whether what came into HOT, WARM and COLD is there still or went out.
fn add_up(stats: &Stats) -> bool {
    let flow = stats.flow;
    let hot = [
        stats.number_hot.into(),
        flow.hot_to_warm,
        flow.hot_to_cold,
        flow.ended_hot,
    ];
    let warm = [stats.number_warm.into(), flow.warm_to_cold, flow.ended_warm];
    let cold = [stats.number_cold.into(), flow.cold_to_warm, flow.ended_cold];
    sum(&hot) == flow.linked
        && sum(&warm) == sum(&[flow.hot_to_warm, flow.cold_to_warm])
        && sum(&cold) == sum(&[flow.hot_to_cold, flow.warm_to_cold])
}

// Prints what doesn't depend on which thread was faster.
fn main(rt: HostRuntime) -> Result<()> {
    let alloc = rt.alloc();
    let config = CacheConfig {
        ring: 16,
        ..CacheConfig::new(48, READERS, Seed::random(&rt)?)
    };
    let blank = CacheBlank::new(alloc, &config)?;
    let (gets, stats) = run::<Brand, _>(&rt, alloc, blank)?;
    println!(rt;
        "{READERS} readers got {} values of another key",
        gets.wrong
    )?;
    println!(rt;
        "each get was a hit or a miss: {}",
        gets.counted == u64::from(READERS) * GETS
    )?;
    println!(rt;
        "what came into HOT, WARM and COLD is there still or went out: {}",
        add_up(&stats)
    )?;
    Ok(())
}

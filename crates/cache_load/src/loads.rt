//! The load of a cache.
ghost use Rattle.std.specs.Prelude.{◌<◌, ◌≤◌};
ghost use Rattle.bump_cache.specs.Opening.{IsNamed};

use crate::readers::{Part, Seen, read};
use crate::values::{Value, others_of};
use crate::writers::{Writer, Wrote, put_staying, some_of, tend, write};
use bump_cache::{Cache, CacheBlank, CacheReader, Changer, LogName, Name, Opened, Stats, open};
use std::alloc::{AllocError, Global};
use std::sync::Wait;
use std::sync::atomic::{AtomicBool, Ordering};
use std::thread;
use std::thread::Threads;

/// How much is to be done.
#[derive(Clone, Copy)]
pub struct Load {
    /// So many readers there are.
    pub readers: u32,

    /// So many writers there are, at most 4.
    pub writers: u32,

    /// So many gets all readers make together, as far as each makes as many as each other one.
    pub gets: u64,

    /// So many parts the cache has.
    pub parts: u32,
}

/// What it came to.
#[derive(Clone, Copy)]
pub struct Report {
    /// What readers came to.
    pub seen: Seen,

    /// What writers came to.
    pub wrote: Wrote,

    /// Whether what came into HOT, WARM and COLD is there still or went out.
    pub add_up: bool,
}

impl Report {
    /// Whether nothing was wrong.
    pub fn is_right(&self) -> bool {
        let seen = self.seen;
        seen.missing == 0
            && seen.wrong == 0
            && seen.older == 0
            && self.wrote.refused == 0
            && self.wrote.wrong == 0
            && self.add_up
    }
}

fn sum(counts: &[u64]) -> u64 {
    let mut sum = 0u64;
    for count in counts {
        sum = sum.saturating_add(*count);
    }
    sum
}

fn add_up(stats: &Stats) -> bool {
    let flow = stats.flow;
    let hot = [
        stats.number_hot.into(),
        flow.hot_to_warm,
        flow.hot_to_cold,
        flow.ended_hot,
    ];
    let warm = [stats.number_warm.into(), flow.warm_to_cold, flow.ended_warm];
    let cold = [stats.number_cold.into(), flow.cold_to_warm, flow.ended_cold];
    sum(&hot) == flow.linked
        && sum(&warm) == sum(&[flow.hot_to_warm, flow.cold_to_warm])
        && sum(&cold) == sum(&[flow.hot_to_cold, flow.warm_to_cold])
}

// What each reader does.
fn parts_of<N: Name + LogName>(
    alloc: Global,
    readers: Vec<CacheReader<N, u64, Value>>,
    load: Load,
) -> Result<Vec<Part<N>>, AllocError> {
    let gets = load.gets / u64::from(load.readers.max(1));
    let others = others_of(load.parts);
    let mut parts = Vec::with_capacity(alloc, readers.len())?;
    let mut seed = 1u64;
    for reader in readers {
        parts.push(Part {
            reader,
            seed,
            others,
            gets,
        })?;
        seed = seed.saturating_add(1);
    }
    Ok(parts)
}

// Each reader and each writer in a thread of its own, and the tender in one more.
fn run_threads<N: Name + LogName + Send + Sync, R: Threads + Wait + Sync>(
    rt: &R,
    cache: &Cache<N, u64, Value>,
    parts: Vec<Part<N>>,
    writers: Vec<Writer<N>>,
    tender: Changer<N>,
) -> (
    Result<Vec<Seen>, AllocError>,
    Result<Vec<Wrote>, AllocError>,
) {
    let done = AtomicBool::new(false);
    let (told, ()) = thread::join(
        rt,
        || {
            thread::join(
                rt,
                || {
                    let seen = thread::map_vec(rt, parts, &|part| read(part));
                    done.store(true, Ordering::SeqCst);
                    seen
                },
                || thread::map_vec(rt, writers, &|writer| write(rt, cache, writer, &done)),
            )
        },
        || tend(rt, cache, tender, &done),
    );
    told
}

/// Loads a cache under the names that the blank's table and log have.
pub fn run<N: Name + LogName + Send + Sync, R: Threads + Wait + Sync>(
    rt: &R,
    alloc: Global,
    blank: CacheBlank<u64, Value>,
    load: Load,
) -> Result<Report, AllocError>
    requires { IsNamed N.table N.book N.name N.parts blank }
{
    let Opened {
        cache,
        caller: mut me,
        readers,
    } = open::<N, u64, Value, R>(alloc, rt, blank)?;
    let others = others_of(load.parts);
    let tender = Changer::new(me.another());
    let writers = some_of(alloc, &mut me, load.writers.min(4), others)?;
    let mut first = Writer {
        number: 0,
        others,
        changer: Changer::new(me),
    };
    let mut wrote = Wrote::new();
    put_staying(rt, &cache, &mut first, &mut wrote);
    let parts = parts_of(alloc, readers, load)?;
    let (all_seen, all_wrote) = run_threads(rt, &cache, parts, writers, tender);
    let mut seen = Seen::new();
    for one in &all_seen? {
        seen.add(one);
    }
    for one in &all_wrote? {
        wrote.add(one);
    }
    let stats = cache.stats(rt, &mut first.changer.me);
    Ok(Report {
        seen,
        wrote,
        add_up: add_up(&stats),
    })
}

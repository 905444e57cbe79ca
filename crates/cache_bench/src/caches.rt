//! The calls of a cache.
ghost use Rattle.std.specs.Prelude.{◌≡◌, ◌<◌};
ghost use Rattle.bump_cache.specs.Calls.{CallerView};
ghost use Rattle.bump_cache.specs.Opening.{IsNamed};

use crate::memory::{Memory, memory_now};
use crate::passes::{Called, Passes, Times};
use crate::workloads::Work;
use bump_cache::{
    Cache, CacheBlank, CacheConfig, CacheReader, CacheState, Caller, LogName, Name, Opened, Seed,
    open,
};
use std::alloc::{AllocError, Global};
use std::io;
use std::marker::{Brand, Model};
use std::rt::{Clock, Files};
use std::sync::Wait;
use std::thread::Threads;

// So often a reader gets all keys before the passes, so that most items have both marks then.
const ROUNDS: u32 = 4;

// So many keys are got at a time. A pass has a multiple of them.
const AT_A_TIME: usize = 32;

// A seed that is the same in each run, so that each takes the same way.
const SEED: Seed = Seed {
    first: 0x9E37_79B9_7F4A_7C15,
    second: 0xD1B5_4A32_D192_ED03,
};

impl<N: Name> Called for CacheReader<N, u64, u64> {
    #[inline(always)]
    fn call(&mut self, key: u64) -> bool {
        self.get(&key, 5) == Some(key)
    }
}

// A reader that gets so many keys at a time: each one waits until there are as many.
#[derive(Drop)]
struct Gatherer<N: Name> {
    reader: CacheReader<N, u64, u64>,
    keys: [u64; AT_A_TIME],
    values: [Option<u64>; AT_A_TIME],
    waiting: usize,
}

impl<N: Name> Gatherer<N> {
    // Whether each key has the value that was put under it.
    #[inline(always)]
    fn are_right(&self) -> bool {
        for (key, value) in self.keys.iter().zip(self.values.iter()) {
            if *value != Some(*key) {
                return false;
            }
        }
        true
    }
}

impl<N: Name> Called for Gatherer<N> {
    #[inline(always)]
    fn call(&mut self, key: u64) -> bool {
        self.keys[self.waiting % AT_A_TIME] = key;
        self.waiting = self.waiting.wrapping_add(1);
        if self.waiting % AT_A_TIME != 0 {
            return true;
        }
        self.reader.get_many(&self.keys, &mut self.values, 5);
        self.are_right()
    }
}

// The first key from this one on that is of a part. One of four is, so few are looked at.
#[inline(always)]
fn key_in<N: Name + LogName>(cache: &Cache<N, u64, u64>, part: u32, key: u64) -> u64 {
    let mut found = key;
    for _look in 0..64 {
        if cache.part_of(&found) == part {
            return found;
        }
        found = found.wrapping_add(1);
    }
    found
}

// Whoever puts into a cache.
#[derive(Drop)]
struct Putter<'a, N: Name + LogName, R> {
    rt: R,
    cache: &'a Cache<N, u64, u64>,
    me: Caller<N, CacheState>,
    // it puts keys of this part alone, where there is one
    part: Option<u32>,
    // whether it hears what its keys had, and what was evicted
    tells: bool,
}

impl<'a, N: Name + LogName, R> Model for Putter<'a, N, R> {
    ghost use Rattle.std.specs.Prelude.{ℕ, ◌<◌};

    ghost Value = { ℕ };

    ghost view = { λ p. p.me.parts };

    ghost invariant = { λ p. 0 < p.me.parts };
}

impl<'a, N: Name + LogName, R: Wait> Called for Putter<'a, N, R> {
    #[inline(always)]
    fn call(&mut self, key: u64) -> bool {
        let key = match self.part {
            Some(part) => key_in(self.cache, part, key),
            None => key,
        };
        if self.tells {
            let put = self.cache.put(&self.rt, &mut self.me, &key, &key, 5);
            return put.is_ok();
        }
        let set = self.cache.set(&self.rt, &mut self.me, &key, &key, 0, 5);
        set.is_ok()
    }
}

// Puts so many keys, from 0 on.
fn fill<N: Name + LogName, R: Wait>(
    rt: &R,
    cache: &Cache<N, u64, u64>,
    me: &mut Caller<N, CacheState>,
    items: u32,
)
    requires part { 0 < me.old.parts }
    ensures parts { me.new.parts ≡ me.old.parts }
{
    for key in 0..u64::from(items) {
        let _put = cache.put(rt, me, &key, &key, 1);
    }
}

// Lets a reader get all keys so often, and applies the bumps that it leaves.
fn warm<N: Name + LogName, R: Wait>(
    rt: &R,
    cache: &Cache<N, u64, u64>,
    me: &mut Caller<N, CacheState>,
    reader: &mut CacheReader<N, u64, u64>,
    items: u32,
)
    requires part { 0 < me.old.parts }
    ensures parts { me.new.parts ≡ me.old.parts }
{
    for count in 0..items.saturating_mul(ROUNDS) {
        let _value = reader.get(&u64::from(count % items.max(1)), 3);
        if count % 4_096 == 0 {
            cache.tend(rt, me, 4);
        }
    }
    cache.tend(rt, me, 4);
}

// Fills a cache, and warms it by the first reader where it is to be read.
fn prepare<N: Name + LogName, R: Wait>(
    rt: &R,
    cache: &Cache<N, u64, u64>,
    me: &mut Caller<N, CacheState>,
    readers: &mut [CacheReader<N, u64, u64>],
    items: u32,
    is_read: bool,
)
    requires part { 0 < me.old.parts }
    ensures parts { me.new.parts ≡ me.old.parts }
{
    fill(rt, cache, me, items);
    if !is_read {
        return;
    }
    if let Some(reader) = readers.first_mut() {
        warm(rt, cache, me, reader, items);
    }
}

// The readers, each of which gets many keys at a time.
fn make_gatherers<N: Name>(
    alloc: Global,
    readers: Vec<CacheReader<N, u64, u64>>,
) -> Result<Vec<Gatherer<N>>, AllocError> {
    let mut gatherers = Vec::with_capacity(alloc, readers.len())?;
    for reader in readers {
        gatherers.push(Gatherer {
            reader,
            keys: [0; AT_A_TIME],
            values: [None; AT_A_TIME],
            waiting: 0,
        })?;
    }
    Ok(gatherers)
}

// Those that put, for so many threads.
fn make_putters<'a, N: Name + LogName, R: Wait + Copy>(
    rt: R,
    alloc: Global,
    cache: &'a Cache<N, u64, u64>,
    mut me: Caller<N, CacheState>,
    threads: u32,
    work: Work,
) -> Result<Vec<Putter<'a, N, R>>, AllocError>
    requires parts { threads < me.parts }
{
    let mut putters = Vec::with_capacity(alloc, threads as usize)?;
    for thread in 0..threads {
        let another = me.another();
        let part = (work == Work::PutApart).then_some(thread % work.parts().max(1));
        putters.push(Putter {
            rt,
            cache,
            me: another,
            part,
            tells: !matches!(work, Work::Set | Work::SetSame),
        })?;
    }
    Ok(putters)
}

// A cache of so many items and parts, in the shape that memcached has.
fn config_of(items: u32, readers: u32, parts: u32) -> CacheConfig {
    CacheConfig {
        parts,
        ..CacheConfig::new(items, readers, SEED)
    }
}

// What it is opened from.
fn blank_of(alloc: Global, items: u32, readers: u32, parts: u32) -> Option<CacheBlank<u64, u64>> {
    CacheBlank::new(alloc, &config_of(items, readers, parts)).ok()
}

impl<R: Threads + Clock + Wait + Copy + Send + Sync> Passes<R> {
    // Opens a cache under the names that the blank has, and times the calls.
    fn run<N: Name + LogName + Send + Sync>(self, blank: CacheBlank<u64, u64>) -> Option<Times>
        requires { IsNamed N.table N.book N.name N.parts blank }
    {
        let Opened {
            cache,
            mut caller,
            mut readers,
        } = open::<N, u64, u64, R>(self.alloc, &self.rt, blank).ok()?;
        let puts = self.work.is_put();
        prepare(
            &self.rt,
            &cache,
            &mut caller,
            &mut readers,
            self.items,
            !puts,
        );
        if puts {
            let putters = make_putters(
                self.rt,
                self.alloc,
                &cache,
                caller,
                self.threads,
                self.work,
            ).ok()?;
            return self.time_all(putters);
        }
        if self.work == Work::GetMany {
            return self.time_all(make_gatherers(self.alloc, readers).ok()?);
        }
        self.time_all(readers)
    }

    /// Times the calls of a cache: gets of items of which most have both marks, or puts while nobody gets. None where
    /// it can't be made from these numbers, or where memory or the clock is refused.
    pub fn cache_times(self) -> Option<Times> {
        let blank = blank_of(self.alloc, self.items, self.threads, self.work.parts())?;
        self.run::<Brand>(blank)
    }
}

// Opens a cache under the names that the blank has, and fills it.
fn grown<N: Name + LogName, R: Wait + Files + AllocGlobal>(
    rt: &R,
    blank: CacheBlank<u64, u64>,
    items: u32,
) -> io::Result<Memory>
    requires { IsNamed N.table N.book N.name N.parts blank }
{
    let Opened {
        cache,
        mut caller,
        readers: _readers,
    } = open::<N, u64, u64, R>(rt.alloc(), rt, blank)?;
    fill(rt, &cache, &mut caller, items);
    memory_now(rt)
}

/// By how much memory the process grows when a cache of so many items, readers and parts is opened and filled. It is an
/// error where no cache is made from these numbers, or where memory is refused.
pub fn grown_by_cache<R: Wait + Files + AllocGlobal>(
    rt: &R,
    items: u32,
    readers: u32,
    parts: u32,
) -> io::Result<Memory> {
    let before = memory_now(rt)?;
    let blank = blank_of(rt.alloc(), items, readers, parts).ok_or(AllocError)?;
    let behind = grown::<Brand, R>(rt, blank, items)?;
    Ok(behind.since(before))
}

/// How many bytes such a cache asks for and keeps, as its configuration says; 0 where no cache is made from these
/// numbers.
pub fn bytes_taken(items: u32, readers: u32, parts: u32) -> u64 {
    let config = config_of(items, readers, parts);
    match config.fault() {
        None => config.bytes_taken(1, 1),
        Some(_) => 0,
    }
}

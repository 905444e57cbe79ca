//! The same calls of the kit's `lru` behind mutexes.
use crate::memory::{Memory, memory_now};
use crate::passes::{Called, Passes, Times};
use crossbeam_utils::CachePadded;
use lru::LruCache;
use std::alloc::{AllocError, Global};
use std::io;
use std::num::NonZeroUsize;
use std::rt::{Clock, Files};
use std::sync::{Mutex, Wait};
use std::thread::Threads;

// One that is apart from others in memory, so that threads which lock two of them don't meet.
type Shard = CachePadded<Mutex<LruCache<u64, u64>>>;

// Which of the shards, of which there are 1 to 256, has a key: by the highest bits of its product with 2^64 over the
// golden ratio, which spreads keys in a row evenly.
#[inline(always)]
fn shard_of(key: u64, shards: u64) -> u64 {
    (key.wrapping_mul(0x9E37_79B9_7F4A_7C15) >> 56).wrapping_mul(shards) >> 8
}

// A thread that calls the shards.
#[derive(Clone, Copy)]
struct Shards<'a, R> {
    rt: R,
    shards: &'a [Shard],
    are_puts: bool,
}

impl<'a, R: Wait> Called for Shards<'a, R> {
    #[inline(always)]
    fn call(&mut self, key: u64) -> bool {
        let Some(shard) = self
            .shards
            .get(shard_of(key, self.shards.len() as u64) as usize)
        else {
            return false;
        };
        let mut guard = shard.lock(&self.rt);
        if self.are_puts {
            guard.put(key, key).is_ok()
        } else {
            guard.get(&key).copied() == Some(key)
        }
    }
}

// So many shards, which have room for so many items together. Where there are several each has a few more places, since
// the keys don't spread quite evenly.
fn make_shards(alloc: Global, items: u32, count: u32) -> Option<Vec<Shard>> {
    let more = if count > 1 { 16 } else { 0 };
    let room = NonZeroUsize::new((items / count.max(1)).saturating_add(more) as usize)?;
    let mut shards = Vec::new(alloc);
    for _shard in 0..count {
        let lru = LruCache::new(alloc, room).ok()?;
        shards.push(CachePadded::new(Mutex::new(lru))).ok()?;
    }
    Some(shards)
}

// Puts so many keys, from 0 on.
fn fill<R: Wait + Copy>(rt: R, shards: &[Shard], items: u32) {
    let mut one = Shards {
        rt,
        shards,
        are_puts: true,
    };
    for key in 0..u64::from(items) {
        let _is_put = one.call(key);
    }
}

impl<R: Threads + Clock + Wait + Copy + Send + Sync> Passes<R> {
    /// The same calls of the kit's `lru`, behind so many mutexes.
    pub fn lru_times(self, count: u32) -> Option<Times> {
        let shards = make_shards(self.alloc, self.items, count)?;
        fill(self.rt, &shards, self.items);
        let mut called = Vec::new(self.alloc);
        for _thread in 0..self.threads {
            called
                .push(Shards {
                    rt: self.rt,
                    shards: &shards,
                    are_puts: self.work.is_put(),
                })
                .ok()?;
        }
        self.time_all(called)
    }
}

/// By how much memory the process grows when so many shards are made, and filled with so many items. It is an error
/// where one of the numbers is 0, or memory is refused.
pub fn grown_by_lru<R: Wait + Files + AllocGlobal + Copy>(
    rt: R,
    items: u32,
    count: u32,
) -> io::Result<Memory> {
    let before = memory_now(&rt)?;
    let shards = make_shards(rt.alloc(), items, count).ok_or(AllocError)?;
    fill(rt, &shards, items);
    Ok(memory_now(&rt)?.since(before))
}

//! A cache of keys by each policy.
ghost use Rattle.std.specs.Prelude.{ℕ, ◌<◌, ◌≤◌, IfOk};
ghost use Rattle.std.specs.NonZero.{non_zero_usize_get};
ghost use Rattle.replay_policies.specs.Caches.{IsCache};

use crate::ghosts::Ghosts;
use crate::policies::Policy;
use crate::queues::Queues;
use crate::{clocks, plain, s3fifos, sieves};
use bump_links::NODES_MAX;
use lru::LruCache;
use std::alloc::{AllocError, Global};
use std::num::NonZeroUsize;

// The keys of a cache, as its policy keeps them.
#[derive(Drop)]
pub(crate) enum Cache {
    Lru(LruCache<u32, ()>),
    Fifo(Queues),
    Clock(Queues),
    Sieve(Queues),
    S3Fifo(Queues, Ghosts),
}

impl Cache {
    // A cache without keys. It is refused only for want of memory.
    pub(crate) fn new(
        alloc: Global,
        policy: Policy,
        items: NonZeroUsize,
    ) -> Result<Cache, AllocError>
        requires few { non_zero_usize_get items ≤ NODES_MAX }
        ensures { IfOk result (λ cache. IsCache (non_zero_usize_get items) cache) }
    {
        // A FIFO and CLOCK have one queue. The other has room for one key, which is the least.
        let room = items.get() as u32;
        Ok(match policy {
            Policy::Lru => Cache::Lru(LruCache::new(alloc, items)?),
            Policy::Fifo => Cache::Fifo(Queues::new(alloc, room, 1)?),
            Policy::Clock => Cache::Clock(Queues::new(alloc, room, 1)?),
            Policy::Sieve => Cache::Sieve(Queues::new(alloc, room, room)?),
            Policy::S3Fifo => Cache::S3Fifo(
                Queues::new(alloc, room, room)?,
                s3fifos::ghosts_of(alloc, items.get())?,
            ),
        })
    }

    // An access of a cache of so many items: whether the key was in it. Memory is refused only where it wasn't, and then
    // nothing is changed.
    #[inline(always)]
    pub(crate) fn access(&mut self, items: usize, key: u32) -> Result<bool, AllocError>
        requires some { 0 < items }
        requires room { IsCache items self.old }
        ensures { IsCache items self.new }
    {
        match self {
            Cache::Lru(cache) => plain::access_lru(cache, key),
            Cache::Fifo(queue) => plain::access_fifo(queue, items, key),
            Cache::Clock(queue) => clocks::access(queue, items, key),
            Cache::Sieve(queues) => sieves::access(queues, items, key),
            Cache::S3Fifo(queues, ghosts) => s3fifos::access(queues, ghosts, items, key),
        }
    }

    // Removes a key from a cache of so many items: whether it was in it.
    pub(crate) fn remove(&mut self, items: usize, key: u32) -> bool
        requires room { IsCache items self.old }
        ensures { IsCache items self.new }
    {
        match self {
            Cache::Lru(cache) => plain::remove_lru(cache, key),
            Cache::Fifo(queue) => plain::remove_fifo(queue, items, key),
            Cache::Clock(queue) => clocks::remove(queue, items, key),
            Cache::Sieve(queues) => sieves::remove(queues, items, key),
            Cache::S3Fifo(queues, ghosts) => s3fifos::remove(queues, ghosts, items, key),
        }
    }

    // How many keys are in it: no more than it has room for.
    pub(crate) fn len(&self) -> usize
        ensures { (items : ℕ) → IsCache items self.now → result ≤ items }
    {
        match self {
            Cache::Lru(cache) => cache.len(),
            Cache::Fifo(queue) => queue.first_len(),
            Cache::Clock(queue) => queue.first_len(),
            Cache::Sieve(queues) => queues.len(),
            Cache::S3Fifo(queues, _) => queues.len(),
        }
    }
}

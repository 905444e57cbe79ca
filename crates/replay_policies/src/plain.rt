//! LRU and FIFO.
ghost use Rattle.std.specs.Prelude.{◌≡◌, ◌<◌};
ghost use Rattle.replay_policies.specs.Caches.{IsOneQueue};
ghost use Rattle.replay_policies.specs.Queues.{IsLeft};

use crate::entries::Entry;
use crate::queues::Queues;
use lru::LruCache;
use std::alloc::AllocError;

// An access of an LRU: whether the key was in the cache. Memory is refused only where it wasn't, and then nothing is
// changed.
pub(crate) fn access_lru(cache: &mut LruCache<u32, ()>, key: u32) -> Result<bool, AllocError>
    requires room { 0 < cache.old.cap }
    ensures { cache.new.cap ≡ cache.old.cap }
{
    // One look-up: a put makes a key that is there the most recent one.
    Ok(cache.put(key, ())?.is_some())
}

// A removal from an LRU: whether the key was in the cache.
pub(crate) fn remove_lru(cache: &mut LruCache<u32, ()>, key: u32) -> bool
    ensures { cache.new.cap ≡ cache.old.cap }
{
    cache.pop(&key).is_some()
}

// Makes room for a key more: a full queue loses the one that came first.
fn make_room(queue: &mut Queues, items: usize)
    requires some { 0 < items }
    requires queue { IsOneQueue items queue.old }
    ensures fits { queue.new.first_count < items }
    ensures first_room { queue.new.first_room ≡ queue.old.first_room }
    ensures left { IsLeft queue.old queue.new }
{
    if queue.first_len() >= items {
        queue.pop_first();
    }
}

// An access of a FIFO: whether the key was in the cache. Memory is refused only where it wasn't, and then nothing is
// changed.
pub(crate) fn access_fifo(queue: &mut Queues, items: usize, key: u32) -> Result<bool, AllocError>
    requires some { 0 < items }
    requires queue { IsOneQueue items queue.old }
    ensures { IsOneQueue items queue.new }
{
    if queue.has(key) {
        return Ok(true);
    }
    queue.make_place(key)?;
    make_room(queue, items);
    queue.push_first(Entry { key, uses: 0 });
    Ok(false)
}

// A removal from a FIFO: whether the key was in the cache.
pub(crate) fn remove_fifo(queue: &mut Queues, items: usize, key: u32) -> bool
    requires queue { IsOneQueue items queue.old }
    ensures { IsOneQueue items queue.new }
{
    queue.remove(key)
}

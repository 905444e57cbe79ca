//! CLOCK.
ghost use Rattle.std.specs.Prelude.{◌≡◌, ◌-◌, ◌<◌, ◌≤◌};
ghost use Rattle.replay_policies.specs.Caches.{IsOneQueue};
ghost use Rattle.replay_policies.specs.Queues.{IsLeft};

use crate::entries::Entry;
use crate::queues::Queues;
use std::alloc::AllocError;

// Moves the hand on over the first queue until it has evicted a key.
pub(crate) fn evict(queues: &mut Queues)
    requires room { queues.old.first_count ≤ queues.old.first_room }
    ensures count { queues.new.first_count ≡ queues.old.first_count - 1 }
    ensures second_count { queues.new.second_count ≡ queues.old.second_count }
    ensures first_room { queues.new.first_room ≡ queues.old.first_room }
    ensures second_room { queues.new.second_room ≡ queues.old.second_room }
    ensures left { IsLeft queues.old queues.new }
{
    while let Some(entry) = queues.pop_first() {
        if entry.uses == 0 {
            return;
        }
        queues.push_first(Entry {
            key: entry.key,
            uses: entry.uses - 1,
        });
    }
}

// Makes room for a key more: a full queue evicts one.
fn make_room(queue: &mut Queues, items: usize)
    requires some { 0 < items }
    requires queue { IsOneQueue items queue.old }
    ensures fits { queue.new.first_count < items }
    ensures first_room { queue.new.first_room ≡ queue.old.first_room }
    ensures left { IsLeft queue.old queue.new }
{
    if queue.first_len() >= items {
        evict(queue);
    }
}

// An access: whether the key was in the cache. Memory is refused only where it wasn't, and then nothing is changed.
pub(crate) fn access(queue: &mut Queues, items: usize, key: u32) -> Result<bool, AllocError>
    requires some { 0 < items }
    requires queue { IsOneQueue items queue.old }
    ensures { IsOneQueue items queue.new }
{
    if queue.ask(key, 1) {
        return Ok(true);
    }
    queue.make_place(key)?;
    make_room(queue, items);
    queue.push_first(Entry { key, uses: 0 });
    Ok(false)
}

// A removal: whether the key was in the cache.
pub(crate) fn remove(queue: &mut Queues, items: usize, key: u32) -> bool
    requires queue { IsOneQueue items queue.old }
    ensures { IsOneQueue items queue.new }
{
    queue.remove(key)
}

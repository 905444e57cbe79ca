//! SIEVE. What is ahead of the hand is the first queue, and what it passed the second.
ghost use Rattle.std.specs.Prelude.{◌≡◌, ◌+◌, ◌-◌, ◌<◌, ◌≤◌};
ghost use Rattle.replay_policies.specs.Caches.{IsSieve};
ghost use Rattle.replay_policies.specs.Queues.{IsLeft};

use crate::entries::Entry;
use crate::queues::Queues;
use std::alloc::AllocError;

// Where the hand is past the head, it goes back to the tail.
fn turn(queues: &mut Queues)
    requires rooms { queues.old.first_room ≡ queues.old.second_room }
    ensures turned { queues.new.first_count ≡ 0 → queues.new.second_count ≡ 0 }
    ensures count { queues.new.first_count + queues.new.second_count ≡ queues.old.first_count + queues.old.second_count }
    ensures uses { queues.new.first_uses + queues.new.second_uses ≡ queues.old.first_uses + queues.old.second_uses }
    ensures first_room { queues.new.first_room ≡ queues.old.first_room }
    ensures second_room { queues.new.second_room ≡ queues.old.second_room }
    ensures left { IsLeft queues.old queues.new }
{
    if queues.first_len() == 0 {
        queues.swap();
    }
}

// Moves the hand on until it has evicted a key.
fn evict(queues: &mut Queues, items: usize)
    requires queues { IsSieve items queues.old }
    ensures queues { IsSieve items queues.new }
    ensures fits { queues.new.first_count + queues.new.second_count ≤ items - 1 }
    ensures left { IsLeft queues.old queues.new }
{
    while let Some(entry) = queues.pop_first() {
        if entry.uses == 0 {
            turn(queues);
            return;
        }
        queues.push_second(Entry {
            key: entry.key,
            uses: entry.uses - 1,
        });
        turn(queues);
    }
    turn(queues);
}

// Makes room for a key more: a full queue evicts one.
fn make_room(queues: &mut Queues, items: usize)
    requires some { 0 < items }
    requires queues { IsSieve items queues.old }
    ensures queues { IsSieve items queues.new }
    ensures fits { queues.new.first_count + queues.new.second_count < items }
    ensures left { IsLeft queues.old queues.new }
{
    if queues.len() >= items {
        evict(queues, items);
    }
}

// An access: whether the key was in the cache. Memory is refused only where it wasn't, and then nothing is changed.
pub(crate) fn access(queues: &mut Queues, items: usize, key: u32) -> Result<bool, AllocError>
    requires some { 0 < items }
    requires queues { IsSieve items queues.old }
    ensures { IsSieve items queues.new }
{
    if queues.ask(key, 1) {
        return Ok(true);
    }
    queues.make_place(key)?;
    make_room(queues, items);
    queues.push_first(Entry { key, uses: 0 });
    Ok(false)
}

// A removal: whether the key was in the cache.
pub(crate) fn remove(queues: &mut Queues, items: usize, key: u32) -> bool
    requires queues { IsSieve items queues.old }
    ensures { IsSieve items queues.new }
{
    let found = queues.remove(key);
    turn(queues);
    found
}

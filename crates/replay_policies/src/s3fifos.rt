//! S3-FIFO. Main is the first queue, and small the second.
ghost use Rattle.std.specs.Prelude.{◌≡◌, ◌+◌, ◌-◌, ◌<◌, ◌≤◌, None, IfOk};
ghost use Rattle.replay_policies.specs.Caches.{IsS3Fifo};
ghost use Rattle.replay_policies.specs.Queues.{HasPlaces, IsLeft, held_by};

use crate::clocks;
use crate::entries::Entry;
use crate::ghosts::Ghosts;
use crate::queues::Queues;
use std::alloc::{AllocError, Global};

// So many uses of a key are counted at most.
const MOST_USES: u32 = 3;

// A key of small that has so many uses goes on to main.
const USES_FOR_MAIN: u32 = 2;

// How many of the items are small's.
fn share_of_small(items: usize) -> usize
    ensures some { 1 ≤ result }
    ensures few { 0 < items → result ≤ items }
{
    (items / 10).max(1)
}

// Ghosts of a cache of so many items, as many as main has items. It is refused only for want of memory.
pub(crate) fn ghosts_of(alloc: Global, items: usize) -> Result<Ghosts, AllocError>
    requires some { 0 < items }
    ensures { IfOk result (λ g. g.waiting ≡ None) }
{
    Ghosts::new(alloc, items - share_of_small(items))
}

// Small evicts a key; where it has none left main does. Each key goes on to main once at most.
fn evict_from_small(queues: &mut Queues, ghosts: &mut Ghosts, items: usize)
    requires queues { IsS3Fifo items queues.old }
    requires place { ghosts.old.waiting ≡ None }
    ensures queues { IsS3Fifo items queues.new }
    ensures fits { queues.new.first_count + queues.new.second_count ≤ items - 1 }
    ensures left { IsLeft queues.old queues.new }
{
    while let Some(entry) = queues.pop_second() {
        if entry.uses < USES_FOR_MAIN {
            ghosts.push(entry.key);
            return;
        }
        queues.push_first(Entry {
            key: entry.key,
            uses: 0,
        });
    }
    clocks::evict(queues);
}

// Evicts a key.
fn evict(queues: &mut Queues, ghosts: &mut Ghosts, items: usize)
    requires queues { IsS3Fifo items queues.old }
    requires place { ghosts.old.waiting ≡ None }
    ensures queues { IsS3Fifo items queues.new }
    ensures fits { queues.new.first_count + queues.new.second_count ≤ items - 1 }
    ensures left { IsLeft queues.old queues.new }
{
    if queues.second_len() >= share_of_small(items) {
        evict_from_small(queues, ghosts, items);
    } else {
        clocks::evict(queues);
    }
}

// Makes room for a key more: a full cache evicts one.
fn make_room(queues: &mut Queues, ghosts: &mut Ghosts, items: usize)
    requires some { 0 < items }
    requires queues { IsS3Fifo items queues.old }
    requires place { ghosts.old.waiting ≡ None }
    ensures queues { IsS3Fifo items queues.new }
    ensures fits { queues.new.first_count + queues.new.second_count < items }
    ensures left { IsLeft queues.old queues.new }
{
    if queues.len() >= items {
        evict(queues, ghosts, items);
    }
}

// Puts a new key into main, where it was a ghost, and else into small.
fn put_in(queues: &mut Queues, key: u32, was_ghost: bool)
    requires new { held_by queues.old key ≡ 0 }
    requires room_in_main { queues.old.first_count < queues.old.first_room }
    requires room_in_small { queues.old.second_count < queues.old.second_room }
    requires place { HasPlaces queues.old key }
    ensures count { queues.new.first_count + queues.new.second_count
        ≡ queues.old.first_count + queues.old.second_count + 1 }
    ensures first_room { queues.new.first_room ≡ queues.old.first_room }
    ensures second_room { queues.new.second_room ≡ queues.old.second_room }
{
    let entry = Entry { key, uses: 0 };
    if was_ghost {
        queues.push_first(entry);
    } else {
        queues.push_second(entry);
    }
}

// An access: whether the key was in the cache. Memory is refused only where it wasn't, and then nothing is changed.
pub(crate) fn access(
    queues: &mut Queues,
    ghosts: &mut Ghosts,
    items: usize,
    key: u32,
) -> Result<bool, AllocError>
    requires some { 0 < items }
    requires queues { IsS3Fifo items queues.old }
    ensures { IsS3Fifo items queues.new }
{
    if queues.ask(key, MOST_USES) {
        return Ok(true);
    }
    queues.make_place(key)?;
    ghosts.make_place()?;
    let was_ghost = ghosts.take_out(key);
    make_room(queues, ghosts, items);
    put_in(queues, key, was_ghost);
    Ok(false)
}

// A removal: whether the key was in the cache. It is no ghost for that.
pub(crate) fn remove(queues: &mut Queues, ghosts: &mut Ghosts, items: usize, key: u32) -> bool
    requires queues { IsS3Fifo items queues.old }
    ensures { IsS3Fifo items queues.new }
{
    queues.remove(key)
}

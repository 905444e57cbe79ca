//! A store of items without keys, call by call: an example to be copied. To the store an item is a label alone. Which
//! item is whose, and where its value lies, is the caller's to know. An item that is read now and then stays, while
//! others evict each other. In this folder `rt try` runs it, and `rt run` proves it first.
#![tactic(auto)]

ghost use Rattle.std.specs.Prelude.{◌≡◌};

use anyhow::Result;
use bump_store::{Blank, Book, ClassConfig, Config, ItemId, Name, Place, Store, Tail, Worker};
use std::alloc::{AllocError, Global};
use std::marker::Brand;
use std::sync::Wait;

// Looks at each tail of a class, and frees what nobody holds any more. Where then no chunk is free, the last item of
// COLD is evicted.
fn age<N: Name>(book: &mut Book<N>) {
    book.pull(Tail::Hot);
    book.pull(Tail::Warm);
    book.pull(Tail::Cold);
    book.sweep();
    if book.size(Place::Unused) == 0 {
        book.pull(Tail::Evict);
    }
}

// Stores a label under the lock of its class, where a chunk is free. Readers in other threads go on meanwhile.
fn put<N: Name, R: Wait>(rt: &R, store: &Store<N>, label: u64, now: u64) -> Option<ItemId> {
    let Ok(mut guard) = store.lock(rt, 0) else {
        return None;
    };
    let book = &mut *guard;
    age(book);
    book.link(label, now).ok()
}

// Reads an item and hits it, or answers None where it ended. No lock is taken.
fn read<N: Name>(worker: &mut Worker<N>, store: &Store<N>, id: ItemId, now: u64) -> Option<u64> {
    let Ok(mut hold) = worker.get(store, id) else {
        return None;
    };
    // While there is the hold its chunk isn't used for another item, even if this one is ended: here the value is read.
    let label = hold.label(store);
    // Most hits of an item that is hit often find both marks: to ask first saves a locked step then.
    if !hold.is_marked(store) {
        let _touch = worker.touch(store, &mut hold, now);
    }
    // A hold is given back: a program that lets one go in another way isn't proved.
    hold.release(store);
    Some(label)
}

// Stores labels, and reads the first one now and then: how often it was there, and how many bumps were applied. Its
// second hit finds it in COLD, so a bump brings it to WARM, and what is stored meanwhile is evicted before it.
fn run<N: Name, R: Wait>(
    rt: &R,
    alloc: Global,
    blank: Blank,
    config: &Config,
) -> Result<(u32, u64), AllocError>
    requires name { blank.table ≡ N.table }
    requires config { blank.config ≡ config.now }
{
    let (store, mut workers, maintainer) = Store::<N>::new(alloc, blank, config)?;
    let mut lanes = maintainer.into_lanes();
    let (Some(mut worker), Some(mut lane)) = (workers.pop(), lanes.pop()) else {
        return Ok((0, 0));
    };
    let Some(first) = put(rt, &store, 7, 0) else {
        return Ok((0, 0));
    };
    let mut found = 0u32;
    for now in 1..100 {
        put(rt, &store, now, now);
        if now % 4 == 0 && read(&mut worker, &store, first, now) == Some(7) {
            found = found.saturating_add(1);
        }
        // No lock may be held here: each bump takes the lock of its class.
        lane.drain(rt, &store, now);
    }
    Ok((found, lane.applied()))
}

fn main(rt: HostRuntime) -> Result<()> {
    let alloc = rt.alloc();
    let class = ClassConfig {
        chunks: 10,
        hot: 2,
        warm: 4,
    };
    // One worker, a ring with room for 16 bumps, at most 64 references to an item.
    let config = Config::new(1, 16, 64, 1, vec![in alloc; class]?)?;
    let blank = Blank::new(alloc, &config)?;
    let (found, applied) = run::<Brand, _>(&rt, alloc, blank, &config)?;
    println!(rt; "the first item was found {found} times, and {applied} bump was applied")?;
    Ok(())
}

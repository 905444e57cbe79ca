//! Allocations that are refused: it is told of which call, and that call can be made again, with its usual answer.
use super::calls::{expect_hit, expect_size, lock, new_cold};
use super::expecting::expect;
use super::opening::{ITEMS, Scene, play};
use super::rings::close_ring;
use super::settling::{end, sizes};
use super::whole::{Story, class, tell};
use bump_store::{Book, ItemId, Name, Place, Store, Touch, Worker};
use std::alloc::Global;
use std::process::Abort;
use std::sync::Wait;
use std::test::Fail;

/// The name of a call that was refused for want of memory.
pub type Call = &'static str;

// Says which call was refused. `checks/refused_allocations` looks for these words, and counts them by call.
fn tell_refused(rt: &impl Eprint, call: Call) -> Result<(), Fail> {
    eprintln!(rt; "an allocation was refused: {call}")?;
    Ok(())
}

/// A ring that is refused may be asked for again, and is then as any other.
pub fn make_again<N: Name, R: Abort>(rt: &R, alloc: Global) -> Result<(), Call> {
    let told = close_ring::<N, R>(rt, alloc);
    if told.is_err() {
        let again = close_ring::<N, R>(rt, alloc);
        assert!(rt; again.is_ok(), "a ring is made again");
    }
    told
}

// Holds whichever one allocation is refused: no store or no ring is made, and both may be made then.
#[test]
fn a_refused_allocation_makes_no_ring(rt: HostRuntime) -> Result<(), Fail> {
    if let Err(call) = play(&rt, rt.alloc(), 4, Scene::RingMadeAgain) {
        tell_refused(&rt, call)?;
        play(&rt, rt.alloc(), 4, Scene::RingMadeAgain)?;
    }
    Ok(())
}

// The chunks of the first class are all in UNUSED, ascending.
fn expect_unused(rt: &impl Abort, chunks: &[u32]) {
    expect(rt, "how many are UNUSED", &chunks.len(), &(ITEMS as usize));
    for (place, chunk) in chunks.iter().enumerate() {
        expect(rt, "the next one", &(*chunk as usize), &place);
    }
}

// The readers tell of a Book in which nothing happened.
fn expect_new<N: Name>(rt: &impl Abort, book: &Book<N>) {
    expect(rt, "the class", &book.class(), &0);
    let told = (book.range().start, book.range().end);
    expect(rt, "the chunks", &told, &(0, ITEMS));
    expect(rt, "the limits", &book.limits(), &(0, 0));
    expect_size(rt, book, Place::Unused, ITEMS);
    for place in [
        Place::Hot,
        Place::Warm,
        Place::Cold,
        Place::Temp,
        Place::Dying,
        Place::Retired,
    ] {
        expect_size(rt, book, place, 0);
    }
}

/// A walk that is refused changes nothing, and may be made again.
pub fn walk_again<N: Name>(rt: &impl Abort, alloc: Global, book: &Book<N>) -> Result<(), Call> {
    let told = book.walk(alloc, Place::Unused);
    expect_new(rt, book);
    if let Ok(chunks) = told {
        expect_unused(rt, &chunks);
        return Ok(());
    }
    let chunks = book.walk(alloc, Place::Unused);
    expect_unused(rt, &chunks.expect(rt, "there is memory"));
    Err("Book::walk")
}

// Holds whichever one allocation is refused: no Book is made, or the walk isn't, and both may be made then.
#[test]
fn a_refused_allocation_changes_no_book(rt: HostRuntime) -> Result<(), Fail> {
    if let Err(call) = play(&rt, rt.alloc(), 4, Scene::WalkedAgain) {
        tell_refused(&rt, call)?;
        play(&rt, rt.alloc(), 4, Scene::WalkedAgain)?;
    }
    Ok(())
}

// The lock of a class shows its item in COLD, a worker gets it, and another one is linked.
fn serve<N: Name, R: Abort + Wait>(rt: &R, store: &Store<N>, worker: &mut Worker<N>, item: ItemId) {
    expect_size(rt, &lock(rt, store, 0), Place::Cold, 1);
    expect_hit(rt, store, worker, item, 5, Touch::First);
    new_cold(rt, store, 0);
}

/// A store with an item in COLD ends with its sizes. One that can't for want of memory comes back, serves as before,
/// and ends then.
pub fn end_again<N: Name, R: Abort + Wait>(
    rt: &R,
    alloc: Global,
    store: Store<N>,
    worker: &mut Worker<N>,
) -> Result<(), Call> {
    let item = new_cold(rt, &store, 0);
    let Some(store) = end(rt, alloc, store, &[sizes(1, 2)]) else {
        return Ok(());
    };
    serve(rt, &store, worker, item);
    let left = end(rt, alloc, store, &[sizes(2, 1)]);
    assert!(rt; left.is_none(), "the store has ended");
    Err("Store::finish")
}

// Holds whichever one allocation is refused: no store is made, or it doesn't end, and both may be made then.
#[test]
fn a_refused_allocation_keeps_the_store(rt: HostRuntime) -> Result<(), Fail> {
    let classes = [class(3, 0, 5)];
    if let Err(call) = tell(&rt, rt.alloc(), 4, &classes, Story::EndedAgain) {
        tell_refused(&rt, call)?;
        tell(&rt, rt.alloc(), 4, &classes, Story::EndedAgain)?;
    }
    Ok(())
}

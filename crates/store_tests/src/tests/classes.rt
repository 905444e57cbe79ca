//! The classes of a store, and its refusals.
use super::calls::{lock, next, refusal};
use super::drains::hit_new;
use super::expecting::{expect, expect_of};
use super::whole::{Story, class, id, tell};
use bump_store::{
    Applied, Book, Entry, GetRefusal, ItemId, Lane, Name, NoSuchChunk, NoSuchClass, Place, Store,
    Touch, UnlinkRefusal, Worker,
};
use std::alloc::Global;
use std::process::Abort;
use std::sync::Wait;
use std::test::Fail;

// There is no class of this number.
fn expect_no_class<N: Name, R: Abort + Wait>(rt: &R, store: &Store<N>, class: u32) {
    assert!(rt; matches!(store.lock(rt, class), Err(NoSuchClass)));
}

// A chunk is of this class, or isn't there.
fn expect_class<N: Name>(
    rt: &impl Abort,
    store: &Store<N>,
    chunk: u32,
    wanted: Result<u32, NoSuchChunk>,
) {
    let told = store.class_of(chunk);
    expect_of(rt, "the class of", &chunk, &told, &wanted);
}

// A worker isn't given this item, for this reason.
fn expect_refusal<N: Name>(
    rt: &impl Abort,
    store: &Store<N>,
    worker: &mut Worker<N>,
    item: ItemId,
    wanted: GetRefusal,
) {
    let told = refusal(store, worker, item);
    expect(rt, "why it isn't had", &told, &Some(wanted));
}

// There is no fourth class and no seventh chunk, and nothing was linked.
fn expect_refusals<N: Name, R: Abort + Wait>(rt: &R, store: &Store<N>, worker: &mut Worker<N>) {
    expect_no_class(rt, store, 3);
    expect_no_class(rt, store, u32::MAX);
    expect_class(rt, store, 6, Err(NoSuchChunk));
    expect_refusal(rt, store, worker, id(6, 1), GetRefusal::NoSuchChunk);
    expect_refusal(rt, store, worker, id(0, 1), GetRefusal::Stale);
}

// The Book of class 1 doesn't know chunk 0, and has chunks 1 and 2.
fn expect_second_book<N: Name>(rt: &impl Abort, alloc: Global, book: &mut Book<N>) {
    let refused = book.unlink(id(0, 1));
    expect(rt, "an unlink", &refused, &Err(UnlinkRefusal::NoSuchChunk));
    let unused = book
        .walk(alloc, Place::Unused)
        .expect(rt, "there is memory");
    expect(rt, "UNUSED", &unused.as_slice(), &[1, 2].as_slice());
}

// The Book of a class, with this range of chunks. Its limits are the class's number.
fn expect_book<N: Name>(rt: &impl Abort, book: &Book<N>, class: u32, range: (u32, u32)) {
    expect(rt, "the class", &book.class(), &class);
    let told = (book.range().start, book.range().end);
    expect(rt, "the chunks", &told, &range);
    expect(rt, "the limits", &book.limits(), &(class, class));
}

// Each chunk is of its class, and each class's Book is behind its lock, with the class's limits.
fn expect_classes<N: Name, R: Abort + Wait>(rt: &R, store: &Store<N>) {
    for (chunk, class) in [(0, 0), (1, 1), (2, 1), (3, 2), (5, 2)] {
        expect_class(rt, store, chunk, Ok(class));
    }
    for (class, start, end) in [(0, 0, 1), (1, 1, 3), (2, 3, 6)] {
        let book = lock(rt, store, class);
        expect_book(rt, &book, class, (start, end));
    }
}

/// What a store of three classes has, and that it refuses what it hasn't.
pub fn tell_classes<N: Name, R: Abort + Wait>(
    rt: &R,
    alloc: Global,
    store: &Store<N>,
    worker: &mut Worker<N>,
) {
    expect_classes(rt, store);
    expect_refusals(rt, store, worker);
    let mut book = lock(rt, store, 1);
    expect_second_book(rt, alloc, &mut book);
}

#[test]
fn a_store_knows_its_classes(rt: HostRuntime) -> Result<(), Fail> {
    let classes = [class(1, 0, 0), class(2, 1, 1), class(3, 2, 2)];
    Ok(tell(&rt, rt.alloc(), 4, &classes, Story::ClassesTold)?)
}

// Exchanges this Book and that of the second class, as whoever has the guards of both could.
fn exchange<N: Name, R: Abort + Wait>(rt: &R, store: &Store<N>, first: &mut Book<N>) {
    let mut second = lock(rt, store, 1);
    std::mem::swap(first, &mut second);
}

// Exchanges the Books of both classes.
fn exchange_both<N: Name, R: Abort + Wait>(rt: &R, store: &Store<N>) {
    let mut first = lock(rt, store, 0);
    exchange(rt, store, &mut first);
}

// A lock finds the Book of its class.
fn expect_found<N: Name, R: Abort + Wait>(rt: &R, store: &Store<N>, class: u32) {
    let book = lock(rt, store, class);
    expect(rt, "the class", &book.class(), &class);
}

/// Where two Books were exchanged, a lock goes round until it finds that of its class, and so does a lane.
pub fn find_exchanged<N: Name, R: Abort + Wait>(
    rt: &R,
    store: &Store<N>,
    worker: &mut Worker<N>,
    lane: &mut Lane<N>,
) {
    let life = hit_new(rt, store, worker, 1, Touch::Queued(0));
    exchange_both(rt, store);
    expect_found(rt, store, 0);
    expect_found(rt, store, 1);
    let entry = Entry {
        number: 0,
        life,
        applied: Applied::Moved,
    };
    let told = next(rt, store, lane, 8);
    expect(rt, "the next bump", &told, &Some(entry));
}

#[test]
fn a_lock_finds_an_exchanged_book(rt: HostRuntime) -> Result<(), Fail> {
    let classes = [class(1, 5, 5), class(2, 0, 5)];
    Ok(tell(&rt, rt.alloc(), 4, &classes, Story::Exchanged)?)
}

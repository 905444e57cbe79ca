//! A Book by itself, call by call.
use super::calls::{lock, pull, sweep};
use super::expecting::expect;
use super::whole::{Story, class, id, tell};
use bump_store::{
    Book, Ended, ItemId, LinkRefusal, Name, Place, Pulled, Store, Tail, UnlinkRefusal,
};
use std::alloc::Global;
use std::process::Abort;
use std::sync::Wait;
use std::test::Fail;

// A link comes to this.
fn expect_link<N: Name>(
    rt: &impl Abort,
    book: &mut Book<N>,
    label: u64,
    now: u64,
    wanted: Result<ItemId, LinkRefusal>,
) {
    expect(rt, "the link", &book.link(label, now), &wanted);
}

// An unlink comes to this.
fn expect_unlink<N: Name>(
    rt: &impl Abort,
    book: &mut Book<N>,
    item: ItemId,
    wanted: Result<Ended, UnlinkRefusal>,
) {
    expect(rt, "the unlink", &book.unlink(item), &wanted);
}

/// A Book of two chunks, whose limit of HOT is 0 and of WARM 5: two items are linked, and a third has no chunk; the
/// first is pulled to COLD, and ended once; what is left is one item in HOT, and one free chunk.
pub fn link_two<N: Name, R: Abort + Wait>(rt: &R, alloc: Global, store: &Store<N>) {
    let mut book = lock(rt, store, 0);
    expect_link(rt, &mut book, 7, 1, Ok(id(0, 1)));
    expect_link(rt, &mut book, 8, 2, Ok(id(1, 1)));
    expect_link(rt, &mut book, 9, 3, Err(LinkRefusal::NoFreeChunk));
    let pulled = pull(&mut book, Tail::Hot);
    expect(rt, "the pull", &pulled, &Pulled::Cold(id(0, 1)));
    expect_unlink(rt, &mut book, id(0, 1), Ok(Ended::Freed));
    expect_unlink(rt, &mut book, id(0, 1), Err(UnlinkRefusal::NotLinked));
    expect_unlink(rt, &mut book, id(2, 1), Err(UnlinkRefusal::NoSuchChunk));
    expect_left(rt, alloc, &mut book);
}

// One item in HOT, one free chunk, and nothing to sweep.
fn expect_left<N: Name>(rt: &impl Abort, alloc: Global, book: &mut Book<N>) {
    let unused = book
        .walk(alloc, Place::Unused)
        .expect(rt, "there is memory");
    expect(rt, "UNUSED", &unused.as_slice(), &[0].as_slice());
    expect(rt, "the size of HOT", &book.size(Place::Hot), &1);
    expect(rt, "the limits", &book.limits(), &(0, 5));
    expect(rt, "how many are freed", &sweep(book), &0);
}

#[test]
fn a_book_of_two_chunks(rt: HostRuntime) -> Result<(), Fail> {
    Ok(tell(&rt, rt.alloc(), 4, &[class(2, 0, 5)], Story::TwoLinked)?)
}

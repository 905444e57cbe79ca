//! What calls of a store leave as it is, and what they hand on: they change nothing besides, times aren't lost on the
//! way, and lanes come in order. Of these calls contracts say only what becomes of some Book of the class.
ghost use Rattle.std.specs.Prelude.{◌≡◌};
ghost use Rattle.bump_store.specs.Workers.{worker_rings};
ghost use Rattle.bump_store.specs.Lanes.{lane_rings};

use super::calls::{expect_hit, get, lock, new_cold, next};
use super::drains::{expect_drained, hit_new};
use super::expecting::{expect, expect_of};
use super::pairs::{Pair, two_pairs};
use super::settling::{end, moved, sizes};
use super::whole::{Story, class, tell};
use bump_store::{
    Book, ClassSizes, Ended, ItemId, Lane, Maintainer, Name, Place, ReaderHeads, Store, Touch,
    Worker,
};
use std::alloc::Global;
use std::process::Abort;
use std::sync::Wait;
use std::test::Fail;

// How many chunks stand in each list.
fn lists_of<N: Name>(book: &Book<N>) -> ClassSizes {
    ClassSizes {
        hot: book.size(Place::Hot),
        warm: book.size(Place::Warm),
        cold: book.size(Place::Cold),
        temp: book.size(Place::Temp),
        dying: book.size(Place::Dying),
        unused: book.size(Place::Unused),
        retired: book.size(Place::Retired),
    }
}

// So many chunks of the first class stand in its lists.
fn expect_lists<N: Name, R: Abort + Wait>(rt: &R, store: &Store<N>, wanted: ClassSizes) {
    let book = lock(rt, store, 0);
    expect(rt, "the lists", &lists_of(&book), &wanted);
}

// The time that is stored of an item.
fn time_of<N: Name>(rt: &impl Abort, heads: &ReaderHeads<N>, item: ItemId) -> u64 {
    assert!(rt; item.chunk < heads.chunks());
    heads.see(item.chunk).1
}

fn expect_time<N: Name>(rt: &impl Abort, heads: &ReaderHeads<N>, item: ItemId, wanted: u64) {
    expect_of(rt, "the time of", &item, &time_of(rt, heads, item), &wanted);
}

// Applies the next bump, which moves this item, and nothing else.
fn apply_next<N: Name, R: Abort + Wait>(
    rt: &R,
    store: &Store<N>,
    lane: &mut Lane<N>,
    item: ItemId,
) {
    let told = next(rt, store, lane, 8);
    expect(rt, "the next bump", &told, &moved(0, item));
    expect_time(rt, store, item, 8);
}

/// Two of three items in COLD are hit, and moved by `next` and by a drain: the third one stays there.
pub fn leave_the_rest<N: Name, R: Abort + Wait>(
    rt: &R,
    store: &Store<N>,
    worker: &mut Worker<N>,
    lane: &mut Lane<N>,
) {
    let third = new_cold(rt, store, 0);
    let first = hit_new(rt, store, worker, 0, Touch::Queued(0));
    let second = hit_new(rt, store, worker, 0, Touch::Queued(1));
    expect_lists(rt, store, sizes(3, 3));
    apply_next(rt, store, lane, first);
    expect_lists(
        rt,
        store,
        ClassSizes {
            warm: 1,
            ..sizes(2, 3)
        },
    );
    expect_drained(rt, store, lane, 1);
    expect_time(rt, store, second, 9);
    expect_lists(
        rt,
        store,
        ClassSizes {
            warm: 2,
            ..sizes(1, 3)
        },
    );
    expect_hit(rt, store, worker, third, 10, Touch::First);
}

#[test]
fn next_drain_and_lock_leave_the_rest(rt: HostRuntime) -> Result<(), Fail> {
    Ok(tell(&rt, rt.alloc(), 4, &[class(6, 0, 5)], Story::RestLeft)?)
}

// The Book of a class of a new store: no item, these limits, and two workers.
fn expect_opened<N: Name>(rt: &impl Abort, book: &Book<N>, chunks: u32, limits: (u32, u32)) {
    expect(rt, "the lists", &lists_of(book), &sizes(0, chunks));
    expect(rt, "the limits", &book.limits(), &limits);
    expect(rt, "the workers", &book.workers(), &2);
}

/// A store opens with its configuration's limits, and without an item.
pub fn tell_opened<N: Name, R: Abort + Wait>(rt: &R, store: &Store<N>) {
    for (class, chunks, limits) in [(0, 1, (2, 3)), (1, 2, (4, 5)), (2, 3, (6, 7))] {
        let book = lock(rt, store, class);
        expect_opened(rt, &book, chunks, limits);
    }
}

#[test]
fn a_store_opens_with_its_limits(rt: HostRuntime) -> Result<(), Fail> {
    let classes = [class(1, 2, 3), class(2, 4, 5), class(3, 6, 7)];
    Ok(tell(&rt, rt.alloc(), 4, &classes, Story::Opened)?)
}

// Both workers hit a new item each, the second worker first. A pass drains the first lane first, so that its item is
// behind the other one in WARM.
fn pass_both<N: Name, R: Abort + Wait>(
    rt: &R,
    store: &Store<N>,
    first: &mut Worker<N>,
    second: &mut Worker<N>,
    maintainer: &mut Maintainer<N>,
) -> [u32; 2] {
    let other = hit_new(rt, store, second, 0, Touch::Queued(0));
    let item = hit_new(rt, store, first, 0, Touch::Queued(0));
    expect(rt, "a pass", &maintainer.pass(rt, store, 7), &2);
    expect_time(rt, store, item, 7);
    expect_time(rt, store, other, 7);
    [other.chunk, item.chunk]
}

/// A pass drains the lanes ascending.
pub fn pass_in_order<N: Name, R: Abort + Wait>(
    rt: &R,
    alloc: Global,
    store: &Store<N>,
    workers: Vec<Worker<N>>,
    maintainer: Maintainer<N>,
) {
    let mut workers = workers;
    let mut maintainer = maintainer;
    let mut second = workers.pop().expect(rt, "there are two");
    let mut first = workers.pop().expect(rt, "there are two");
    let wanted = pass_both(rt, store, &mut first, &mut second, &mut maintainer);
    let book = lock(rt, store, 0);
    let warm = book.walk(alloc, Place::Warm).expect(rt, "there is memory");
    expect(rt, "WARM", &warm.as_slice(), &wanted.as_slice());
}

#[test]
fn a_pass_drains_the_lanes_in_order(rt: HostRuntime) -> Result<(), Fail> {
    Ok(tell(&rt, rt.alloc(), 4, &[class(2, 0, 5)], Story::PassedInOrder)?)
}

// The worker queues two bumps. It is closed: one is applied at 9, and the other one by settling at 11.
fn apply_at_two_times<N: Name, R: Abort + Wait>(rt: &R, store: &Store<N>, pair: Pair<N>) {
    let mut pair = pair;
    let first = new_cold(rt, store, 0);
    let second = new_cold(rt, store, 0);
    pair.hit_twice(rt, store, first, 0);
    pair.hit_twice(rt, store, second, 1);
    let mut closed = pair.close(rt);
    closed.expect_next_of(rt, store, 9, moved(0, first));
    expect_time(rt, store, first, 9);
    closed.settle(rt, store, 11);
    expect_time(rt, store, second, 11);
    expect_lists(
        rt,
        store,
        ClassSizes {
            warm: 2,
            ..sizes(0, 2)
        },
    );
}

/// The times of applications out of a closed ring are those of the calls.
pub fn keep_times<N: Name, R: Abort + Wait>(
    rt: &R,
    store: &Store<N>,
    workers: Vec<Worker<N>>,
    maintainer: Maintainer<N>,
)
    requires { worker_rings workers.items ≡ lane_rings maintainer }
{
    let (pair, _other) = two_pairs(workers, maintainer.into_lanes()).expect(rt, "there are two");
    apply_at_two_times(rt, store, pair);
}

#[test]
fn a_closed_ring_is_applied_at_the_times_given(rt: HostRuntime) -> Result<(), Fail> {
    Ok(tell(&rt, rt.alloc(), 4, &[class(4, 0, 5)], Story::TimesKept)?)
}

// A new item that is unlinked while it is held, and not swept: its chunk stays in DYING.
fn leave_dying<N: Name, R: Abort + Wait>(rt: &R, store: &Store<N>, worker: &mut Worker<N>) {
    let item = new_cold(rt, store, 0);
    let hold = get(rt, store, worker, item);
    let ended = lock(rt, store, 0).unlink(item);
    expect(rt, "an unlink", &ended, &Ok(Ended::Deferred));
    hold.release(store);
}

fn link_temp<N: Name>(rt: &impl Abort, book: &mut Book<N>) {
    book.link_temp(7, 3).expect(rt, "a chunk is free");
}

fn link_hot<N: Name>(rt: &impl Abort, book: &mut Book<N>) {
    book.link(7, 3).expect(rt, "a chunk is free");
}

/// A store ends with as many chunks in each list as were brought there, which are different numbers.
pub fn end_full<N: Name, R: Abort + Wait>(
    rt: &R,
    alloc: Global,
    store: Store<N>,
    worker: &mut Worker<N>,
    lane: &mut Lane<N>,
) {
    hit_new(rt, &store, worker, 0, Touch::Queued(0));
    hit_new(rt, &store, worker, 0, Touch::Queued(1));
    expect_drained(rt, &store, lane, 2);
    for _ in 0..5 {
        leave_dying(rt, &store, worker);
    }
    for _ in 0..3 {
        new_cold(rt, &store, 0);
    }
    for _ in 0..4 {
        link_temp(rt, &mut lock(rt, &store, 0));
    }
    link_hot(rt, &mut lock(rt, &store, 0));
    let wanted = ClassSizes {
        hot: 1,
        warm: 2,
        temp: 4,
        dying: 5,
        ..sizes(3, 6)
    };
    let left = end(rt, alloc, store, &[wanted]);
    assert!(rt; left.is_none(), "the store has ended");
}

#[test]
fn a_store_ends_with_the_sizes_of_its_lists(rt: HostRuntime) -> Result<(), Fail> {
    Ok(tell(&rt, rt.alloc(), 4, &[class(21, 0, 5)], Story::EndedFull)?)
}

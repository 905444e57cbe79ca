//! Rings that are closed and settled, a maintainer's passes, and a store that is finished.
ghost use Rattle.std.specs.Prelude.{◌≡◌};
ghost use Rattle.bump_store.specs.Workers.{worker_rings};
ghost use Rattle.bump_store.specs.Lanes.{lane_rings};

use super::calls::{expect_size, get, lock, new_cold, touch};
use super::expecting::expect;
use super::pairs::{Pair, two_pairs};
use super::whole::{Story, class, tell};
use bump_store::{
    Accounts, Applied, ClassSizes, Entry, Hold, ItemId, Maintainer, Name, Place, Settled, Store,
    Touch, Unfinished, Worker,
};
use std::alloc::Global;
use std::process::Abort;
use std::sync::Wait;
use std::test::Fail;

// What is settled where so many bumps were attempted, and all accepted.
fn settled(bumps: u64) -> Settled {
    Settled {
        counts: Accounts {
            attempted: bumps,
            accepted: bumps,
            full: 0,
            busy: 0,
            refs: 0,
        },
        applied: bumps,
    }
}

/// What is told of a bump that moved its item.
pub fn moved(number: u64, life: ItemId) -> Option<Entry> {
    Some(Entry {
        number,
        life,
        applied: Applied::Moved,
    })
}

// The worker queues a bump of each of two new items in COLD.
fn queue_two<N: Name, R: Abort + Wait>(
    rt: &R,
    store: &Store<N>,
    pair: &mut Pair<N>,
) -> [ItemId; 2] {
    let first = new_cold(rt, store, 0);
    let second = new_cold(rt, store, 0);
    pair.hit_twice(rt, store, first, 0);
    pair.hit_twice(rt, store, second, 1);
    [first, second]
}

// Closes the worker, and settles it: so many bumps are applied.
fn close_and_settle<N: Name, R: Abort + Wait>(
    rt: &R,
    store: &Store<N>,
    pair: Pair<N>,
    now: u64,
    bumps: u64,
) {
    let told = pair.close(rt).settle(rt, store, now);
    expect(rt, "what is settled", &told, &settled(bumps));
}

/// All bumps of a closed ring are applied at once, and of an empty one there are none.
pub fn settle_at_once<N: Name, R: Abort + Wait>(
    rt: &R,
    store: &Store<N>,
    workers: Vec<Worker<N>>,
    maintainer: Maintainer<N>,
)
    requires { worker_rings workers.items ≡ lane_rings maintainer }
{
    let (mut pair, other) = two_pairs(workers, maintainer.into_lanes()).expect(rt, "there are two");
    queue_two(rt, store, &mut pair);
    close_and_settle(rt, store, pair, 9, 2);
    close_and_settle(rt, store, other, 10, 0);
    let book = lock(rt, store, 0);
    expect_size(rt, &book, Place::Warm, 2);
    expect_size(rt, &book, Place::Cold, 0);
}

#[test]
fn a_closed_ring_is_settled(rt: HostRuntime) -> Result<(), Fail> {
    Ok(tell(&rt, rt.alloc(), 4, &[class(2, 0, 5)], Story::SettledAtOnce)?)
}

// Closes the worker, and applies these bumps one by one, until there is none. Then it is settled.
fn close_and_empty<N: Name, R: Abort + Wait>(
    rt: &R,
    store: &Store<N>,
    pair: Pair<N>,
    items: &[ItemId],
    now: u64,
) {
    let mut closed = pair.close(rt);
    for (number, item) in items.iter().enumerate() {
        closed.expect_next_of(rt, store, now, moved(number as u64, *item));
    }
    closed.expect_next_of(rt, store, now, None);
    let told = closed.settle(rt, store, now);
    expect(rt, "what is settled", &told, &settled(items.len() as u64));
}

/// They are applied one by one until there is none, and then the ring is settled.
pub fn settle_one_by_one<N: Name, R: Abort + Wait>(
    rt: &R,
    store: &Store<N>,
    workers: Vec<Worker<N>>,
    maintainer: Maintainer<N>,
)
    requires { worker_rings workers.items ≡ lane_rings maintainer }
{
    let (mut pair, other) = two_pairs(workers, maintainer.into_lanes()).expect(rt, "there are two");
    let items = queue_two(rt, store, &mut pair);
    close_and_empty(rt, store, pair, &items, 9);
    close_and_empty(rt, store, other, &[], 10);
}

#[test]
fn a_closed_ring_is_emptied_and_settled(rt: HostRuntime) -> Result<(), Fail> {
    Ok(tell(
        &rt,
        rt.alloc(),
        4,
        &[class(2, 0, 5)],
        Story::SettledOneByOne,
    )?)
}

// The hold meets the Book of its class.
fn meet<N: Name, R: Abort + Wait>(rt: &R, store: &Store<N>, hold: &mut Hold<N>) {
    let mut book = lock(rt, store, 0);
    assert!(rt; book.has_chunk(hold.life().chunk));
    hold.meet(&mut book);
}

// Two touches of a new item under one hold, of which the second queues the worker's first bump. The hold meets its
// class.
fn touch_twice<N: Name, R: Abort + Wait>(rt: &R, store: &Store<N>, worker: &mut Worker<N>) {
    let item = new_cold(rt, store, 0);
    let mut hold = get(rt, store, worker, item);
    touch(store, worker, &mut hold, 5);
    let told = touch(store, worker, &mut hold, 6);
    expect(rt, "the second touch", &told, &Touch::Queued(0));
    meet(rt, store, &mut hold);
    hold.release(store);
}

// A pass applies so many.
fn expect_pass<N: Name, R: Abort + Wait>(
    rt: &R,
    store: &Store<N>,
    maintainer: &mut Maintainer<N>,
    now: u64,
    wanted: u64,
) {
    expect(rt, "a pass", &maintainer.pass(rt, store, now), &wanted);
}

/// A pass drains both lanes, and the next one finds nothing.
pub fn pass_twice<N: Name, R: Abort + Wait>(
    rt: &R,
    store: &Store<N>,
    workers: Vec<Worker<N>>,
    maintainer: Maintainer<N>,
) {
    let mut maintainer = maintainer;
    for mut worker in workers {
        touch_twice(rt, store, &mut worker);
    }
    expect_pass(rt, store, &mut maintainer, 7, 2);
    expect_pass(rt, store, &mut maintainer, 8, 0);
    let lanes = maintainer.into_lanes();
    expect(rt, "the lanes", &lanes.len(), &2);
    for lane in &lanes {
        expect(rt, "applied bumps", &lane.applied(), &1);
    }
}

#[test]
fn a_pass_drains_each_lane(rt: HostRuntime) -> Result<(), Fail> {
    Ok(tell(&rt, rt.alloc(), 4, &[class(2, 0, 5)], Story::PassedTwice)?)
}

/// The sizes of a class with so many chunks in COLD and in UNUSED, and none elsewhere.
pub fn sizes(cold: u32, unused: u32) -> ClassSizes {
    ClassSizes {
        hot: 0,
        warm: 0,
        cold,
        temp: 0,
        dying: 0,
        unused,
        retired: 0,
    }
}

/// Ends a store, whose classes have these sizes. It comes back where memory is refused.
pub fn end<N: Name, R: Abort + Wait>(
    rt: &R,
    alloc: Global,
    store: Store<N>,
    wanted: &[ClassSizes],
) -> Option<Store<N>> {
    match store.finish(alloc, rt) {
        Ok(told) => {
            expect(rt, "the sizes", &told.as_slice(), &wanted);
            None
        }
        Err(Unfinished { store }) => Some(store),
    }
}

/// The sizes of a new store, whose classes have one chunk, two and three.
pub fn end_new<N: Name, R: Abort + Wait>(rt: &R, alloc: Global, store: Store<N>) {
    let wanted = [sizes(0, 1), sizes(0, 2), sizes(0, 3)];
    let left = end(rt, alloc, store, &wanted);
    assert!(rt; left.is_none(), "the store has ended");
}

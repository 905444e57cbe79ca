//! Calls of stores, Books and workers, whose answers are looked at as a test runs. What their contracts promise would
//! stand in the proof of each step behind them: here it is left behind, but for what later calls ask for.
ghost use Rattle.std.specs.Prelude.{◌≡◌};

use super::expecting::{expect, expect_of};
use bump_store::{
    Book, Entry, GetRefusal, Hold, ItemId, Lane, Name, Place, Pulled, ReaderHeads, Store, Tail,
    Touch, Worker,
};
use std::process::Abort;
use std::sync::{MutexGuard, Wait};

/// The Book of a class, under its lock.
pub fn lock<'a, N: Name, R: Abort + Wait>(
    rt: &R,
    store: &'a Store<N>,
    class: u32,
) -> MutexGuard<'a, Book<N>> {
    store.lock(rt, class).expect(rt, "it is a class")
}

// A new item with this label and time, in HOT.
fn link<N: Name>(rt: &impl Abort, book: &mut Book<N>, label: u64, now: u64) -> ItemId {
    book.link(label, now).expect(rt, "a chunk is free")
}

/// What a pull does.
pub fn pull<N: Name>(book: &mut Book<N>, tail: Tail) -> Pulled {
    book.pull(tail)
}

/// How many chunks a sweep frees.
pub fn sweep<N: Name>(book: &mut Book<N>) -> u32 {
    book.sweep()
}

// A pull does this.
fn expect_pulled<N: Name>(rt: &impl Abort, book: &mut Book<N>, tail: Tail, wanted: Pulled) {
    expect(rt, "the pull", &pull(book, tail), &wanted);
}

/// A new item, in COLD: the limit of HOT is 0.
pub fn link_cold<N: Name>(rt: &impl Abort, book: &mut Book<N>, label: u64, now: u64) -> ItemId {
    let item = link(rt, book, label, now);
    expect_pulled(rt, book, Tail::Hot, Pulled::Cold(item));
    item
}

/// A new item of a class, with the label 7, in COLD: the limit of HOT is 0.
pub fn new_cold<N: Name, R: Abort + Wait>(rt: &R, store: &Store<N>, class: u32) -> ItemId {
    let mut book = lock(rt, store, class);
    link_cold(rt, &mut book, 7, 3)
}

/// The item of WARM and COLD by turns: both pulls of it, so that its ACTIVE is clear, and it is in COLD.
pub fn pull_round<N: Name>(rt: &impl Abort, book: &mut Book<N>, item: ItemId) {
    expect_pulled(rt, book, Tail::Cold, Pulled::Warm(item));
    expect_pulled(rt, book, Tail::Warm, Pulled::Cold(item));
}

/// A list has so many chunks.
pub fn expect_size<N: Name>(rt: &impl Abort, book: &Book<N>, place: Place, wanted: u32) {
    expect(rt, "the size of a list", &book.size(place), &wanted);
}

/// A hold of the item, if it is had. The worker keeps its ring.
pub fn try_get<N: Name>(
    heads: &ReaderHeads<N>,
    worker: &mut Worker<N>,
    item: ItemId,
) -> Result<Hold<N>, GetRefusal>
    ensures ring { worker.new.sender.ring ≡ worker.old.sender.ring }
{
    worker.get(heads, item)
}

/// A hold of the item, which is linked. The worker keeps its ring.
pub fn get<N: Name, R: Abort>(
    rt: &R,
    heads: &ReaderHeads<N>,
    worker: &mut Worker<N>,
    item: ItemId,
) -> Hold<N>
    ensures ring { worker.new.sender.ring ≡ worker.old.sender.ring }
{
    let hold = try_get(heads, worker, item).expect(rt, "it is linked");
    expect(rt, "the life of a hold", &hold.life(), &item);
    hold
}

/// Why the item isn't had, if it isn't. One that is had is given back.
pub fn refusal<N: Name>(
    heads: &ReaderHeads<N>,
    worker: &mut Worker<N>,
    item: ItemId,
) -> Option<GetRefusal> {
    match try_get(heads, worker, item) {
        Ok(hold) => {
            hold.release(heads);
            None
        }
        Err(refusal) => Some(refusal),
    }
}

/// What a touch of a held item does. The worker keeps its ring.
pub fn touch<N: Name>(
    heads: &ReaderHeads<N>,
    worker: &mut Worker<N>,
    hold: &mut Hold<N>,
    now: u64,
) -> Touch
    ensures ring { worker.new.sender.ring ≡ worker.old.sender.ring }
{
    worker.touch(heads, hold, now)
}

/// The label of a held item.
pub fn label<N: Name>(heads: &ReaderHeads<N>, hold: &mut Hold<N>) -> u64 {
    hold.label(heads)
}

/// A hit, as a reader makes it who wants the label, and what it did. The worker keeps its ring.
pub fn hit<N: Name, R: Abort>(
    rt: &R,
    heads: &ReaderHeads<N>,
    worker: &mut Worker<N>,
    item: ItemId,
    now: u64,
) -> (u64, Touch)
    ensures ring { worker.new.sender.ring ≡ worker.old.sender.ring }
{
    let mut hold = get(rt, heads, worker, item);
    let told = label(heads, &mut hold);
    let touched = touch(heads, worker, &mut hold, now);
    hold.release(heads);
    (told, touched)
}

/// A hit of an item with the label 7 does this. The worker keeps its ring.
pub fn expect_hit<N: Name, R: Abort>(
    rt: &R,
    heads: &ReaderHeads<N>,
    worker: &mut Worker<N>,
    item: ItemId,
    now: u64,
    wanted: Touch,
)
    ensures ring { worker.new.sender.ring ≡ worker.old.sender.ring }
{
    let told = hit(rt, heads, worker, item, now);
    expect_of(rt, "the hit at", &now, &told, &(7, wanted));
}

/// Two hits of a new item with the label 7, in COLD. The second one does this. The worker keeps its ring.
pub fn hit_twice<N: Name, R: Abort>(
    rt: &R,
    heads: &ReaderHeads<N>,
    worker: &mut Worker<N>,
    item: ItemId,
    wanted: Touch,
)
    ensures ring { worker.new.sender.ring ≡ worker.old.sender.ring }
{
    expect_hit(rt, heads, worker, item, 5, Touch::First);
    expect_hit(rt, heads, worker, item, 6, wanted);
}

/// What a lane applies next, if a bump waits. It keeps its ring.
pub fn next<N: Name, R: Wait>(
    rt: &R,
    store: &Store<N>,
    lane: &mut Lane<N>,
    now: u64,
) -> Option<Entry>
    ensures ring { lane.new.lane.ring ≡ lane.old.lane.ring }
{
    lane.next(rt, store, now)
}

//! A ring by itself: what a closed one shows, and two threads at its ends.
ghost use Rattle.std.specs.Prelude.{◌≡◌};

use super::calls::{hit, link_cold, pull_round};
use super::expecting::expect;
use super::opening::{ITEMS, Scene, Small, play};
use super::refused_memory::Call;
use super::whole::id;
use bump_heads::Heads;
use bump_readers::Rider;
use bump_ring::{ClosedSender, Receiver, Sender, ring};
use bump_store::{Book, Dropped, ItemId, Name, Touch, Worker};
use std::alloc::Global;
use std::hint::spin_loop;
use std::process::Abort;
use std::test::Fail;
use std::thread;
use std::thread::Threads;

// No bump comes out of the ring.
fn expect_none<N: Name>(rt: &impl Abort, receiver: &mut Receiver<N>)
    ensures { receiver.new.ring ≡ receiver.old.ring }
{
    assert!(rt; receiver.take().is_none());
}

// The closed ring has nothing left.
fn expect_end<N: Name>(rt: &impl Abort, receiver: &mut Receiver<N>, closed: &mut ClosedSender<N>)
    requires ring { closed.old.ring ≡ receiver.old.ring }
    ensures ring { closed.new.ring ≡ receiver.new.ring }
{
    expect(rt, "what is left", &receiver.rest(closed), &Some(0));
}

// A new ring has no bumps.
fn expect_new<N: Name>(rt: &impl Abort, sender: &Sender<N>, receiver: &mut Receiver<N>)
    ensures { receiver.new.ring ≡ receiver.old.ring }
{
    expect(rt, "accepted bumps", &sender.accepted(), &0);
    expect(rt, "the bumps known", &receiver.known(), &0);
    expect_none(rt, receiver);
}

/// A ring that was closed while it was empty shows its end, again and again.
pub fn close_ring<N: Name, R: Abort>(rt: &R, alloc: Global) -> Result<(), Call> {
    let Ok((sender, mut receiver)) = ring::<N>(alloc, 2) else {
        return Err("ring");
    };
    expect_new(rt, &sender, &mut receiver);
    let mut closed = sender.close();
    expect(rt, "accepted bumps", &closed.accepted(), &0);
    expect_end(rt, &mut receiver, &mut closed);
    expect_end(rt, &mut receiver, &mut closed);
    expect_none(rt, &mut receiver);
    Ok(())
}

#[test]
fn a_closed_ring_shows_its_end(rt: HostRuntime) -> Result<(), Fail> {
    Ok(play(&rt, rt.alloc(), 4, Scene::RingClosed)?)
}

/// How often a thread tries before the test fails.
const TRIES: u32 = u32::MAX;

// What a thread does behind a try that failed: it lets another one run now and then, where there are more threads
// than processors.
fn pause(tries: u32) {
    if tries % 64 == 63 {
        thread::yield_now();
    } else {
        spin_loop();
    }
}

// The item whose bump has this number.
fn item_of(number: u64) -> ItemId {
    id((number % u64::from(ITEMS)) as u32, 1)
}

// Hits the item until its bump is queued, and answers the bump's number. None where it never is.
fn queue<N: Name>(
    rt: &impl Abort,
    heads: &Heads<N>,
    worker: &mut Worker<N>,
    item: ItemId,
) -> Option<u64> {
    for tries in 0..TRIES {
        match hit(rt, heads, worker, item, 5).1 {
            Touch::Queued(number) => return Some(number),
            Touch::Dropped(Dropped::Full) => pause(tries),
            _ => return None,
        }
    }
    None
}

// Queues so many bumps, and clears ACTIVE behind each.
fn queue_all<N: Name>(
    rt: &impl Abort,
    heads: &Heads<N>,
    mut book: Book<N>,
    mut worker: Worker<N>,
    bumps: u64,
) -> Worker<N> {
    for number in 0..bumps {
        let item = item_of(number);
        let queued = queue(rt, heads, &mut worker, item);
        expect(rt, "the number", &queued, &Some(number));
        pull_round(rt, &mut book, item);
    }
    worker
}

// The next bump of a ring. None where it never comes.
fn take_next<N: Name>(receiver: &mut Receiver<N>) -> Option<Rider<N>> {
    for tries in 0..TRIES {
        if let Some(rider) = receiver.take() {
            return Some(rider);
        }
        pause(tries);
    }
    None
}

// Takes so many bumps, and looks that they come in order.
fn take_all<N: Name>(rt: &impl Abort, mut receiver: Receiver<N>, bumps: u64) -> Receiver<N> {
    for number in 0..bumps {
        let rider = take_next(&mut receiver).expect(rt, "it comes");
        expect(rt, "the bump", &rider.life(), &item_of(number));
    }
    receiver
}

// The first hit of a new item, so that the next one bumps it.
fn hit_new<N: Name>(rt: &impl Abort, small: &mut Small<N>, number: u64) {
    let item = link_cold(rt, &mut small.first, number, 1);
    expect(rt, "the item", &item, &item_of(number));
    let told = hit(rt, &small.heads, &mut small.worker, item, 2);
    expect(rt, "the first hit", &told, &(number, Touch::First));
}

// The first hits of all items.
fn hit_first<N: Name>(rt: &impl Abort, small: &mut Small<N>) {
    for number in 0..u64::from(ITEMS) {
        hit_new(rt, small, number);
    }
}

/// A worker queues so many bumps in one thread, and another thread takes them, in order.
pub fn cross<N: Name + Send + Sync, R: Threads + Abort + Sync>(
    rt: &R,
    small: Small<N>,
    receiver: Receiver<N>,
    bumps: u64,
) {
    let mut small = small;
    hit_first(rt, &mut small);
    let Small {
        heads,
        first: book,
        second: _,
        worker,
    } = small;
    let shared: &Heads<N> = &heads;
    let (worker, mut receiver) = thread::join(
        rt,
        move || queue_all(rt, shared, book, worker, bumps),
        move || take_all(rt, receiver, bumps),
    );
    expect(rt, "accepted bumps", &worker.counts().accepted, &bumps);
    expect_none(rt, &mut receiver);
}

#[test]
fn a_ring_of_one_between_two_threads(rt: HostRuntime) -> Result<(), Fail> {
    Ok(play(&rt, rt.alloc(), 1, Scene::Crossed { bumps: 100_000 })?)
}

#[test]
fn a_ring_of_65536_between_two_threads(rt: HostRuntime) -> Result<(), Fail> {
    Ok(play(&rt, rt.alloc(), 65_536, Scene::Crossed { bumps: 150_000 })?)
}

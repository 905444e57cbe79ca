//! Bumps that a Book applies by a raw lane, alone and in runs.
ghost use Rattle.std.specs.Prelude.{◌≤◌};

use super::calls::{hit_twice, link_cold};
use super::expecting::expect;
use super::opening::{Scene, Small, play};
use bump_class::RawLane;
use bump_heads::Heads;
use bump_rules::Bump;
use bump_store::{Applied, Book, Head, ItemId, Name, Place, Segment, Touch, Worker};
use std::process::Abort;
use std::test::Fail;

// A new item in COLD that was hit twice: the second hit queues a bump with this number.
fn queue<N: Name>(
    rt: &impl Abort,
    heads: &Heads<N>,
    book: &mut Book<N>,
    worker: &mut Worker<N>,
    number: u64,
) -> ItemId {
    let item = link_cold(rt, book, 7, 1);
    hit_twice(rt, heads, worker, item, Touch::Queued(number));
    item
}

fn fetch<N: Name>(lane: &mut RawLane<N>) -> Option<Bump> {
    lane.fetch()
}

// The bump aboard, or the next one of the ring, has this number and is of this item.
fn expect_aboard<N: Name>(rt: &impl Abort, lane: &mut RawLane<N>, number: u64, life: ItemId) {
    let bump = Bump { number, life };
    expect(rt, "the bump aboard", &fetch(lane), &Some(bump));
}

// No bump is aboard or in the ring, and so many were applied.
fn expect_done<N: Name>(rt: &impl Abort, lane: &mut RawLane<N>, applied: u64) {
    expect(rt, "the bump aboard", &fetch(lane), &None);
    expect(rt, "applied bumps", &lane.applied(), &applied);
}

// Applies the bump aboard, which is the next one of the ring where none is aboard.
fn apply<N: Name>(rt: &impl Abort, book: &mut Book<N>, lane: &mut RawLane<N>, now: u64) -> Applied {
    let bump = lane.fetch().expect(rt, "a bump is there");
    assert!(rt; book.has_chunk(bump.life.chunk));
    book.apply_front(lane, now)
}

// The same, and those behind it.
fn run<N: Name>(
    rt: &impl Abort,
    book: &mut Book<N>,
    lane: &mut RawLane<N>,
    now: u64,
    limit: u32,
) -> u32
    requires some { 1 ≤ limit }
{
    let bump = lane.fetch().expect(rt, "a bump is there");
    assert!(rt; book.has_chunk(bump.life.chunk));
    book.apply_run(lane, now, limit)
}

// A run with this limit applies so many.
fn expect_run<N: Name>(
    rt: &impl Abort,
    book: &mut Book<N>,
    lane: &mut RawLane<N>,
    now: u64,
    limit: u32,
    wanted: u32,
)
    requires some { 1 ≤ limit }
{
    expect(rt, "a run", &run(rt, book, lane, now, limit), &wanted);
}

// WARM and COLD have so many items.
fn expect_sizes<N: Name>(rt: &impl Abort, book: &Book<N>, wanted: (u32, u32)) {
    let told = (book.size(Place::Warm), book.size(Place::Cold));
    expect(rt, "WARM and COLD", &told, &wanted);
}

fn see<N: Name>(rt: &impl Abort, heads: &Heads<N>, chunk: u32) -> (Head, u64) {
    assert!(rt; chunk < heads.chunks());
    let (head, time, _seat) = heads.see(chunk);
    (head, time)
}

// An item of generation 1 is in WARM and was hit, is not ACTIVE, and has this time.
fn expect_moved<N: Name>(rt: &impl Abort, heads: &Heads<N>, chunk: u32, time: u64) {
    let head = Head {
        refs: 1,
        linked: true,
        fetched: true,
        active: false,
        segment: Segment::Warm,
        generation: 1,
    };
    expect(rt, "a moved item", &see(rt, heads, chunk), &(head, time));
}

/// A bump that is aboard stays so until it is applied: its item goes from COLD to WARM then, and its time is stored.
pub fn move_in_cold<N: Name>(rt: &impl Abort, small: &mut Small<N>, lane: &mut RawLane<N>) {
    let item = queue(rt, &small.heads, &mut small.first, &mut small.worker, 0);
    expect_aboard(rt, lane, 0, item);
    let applied = apply(rt, &mut small.first, lane, 9);
    expect(rt, "what was applied", &applied, &Applied::Moved);
    expect_moved(rt, &small.heads, item.chunk, 9);
    expect_sizes(rt, &small.first, (1, 0));
    expect_done(rt, lane, 1);
}

#[test]
fn an_item_of_cold_moves_to_warm(rt: HostRuntime) -> Result<(), Fail> {
    Ok(play(&rt, rt.alloc(), 4, Scene::MovedInCold)?)
}

/// A run of the first class ends where the bump of the second goes aboard, and that class's run begins there.
pub fn end_at_the_other_class<N: Name>(
    rt: &impl Abort,
    small: &mut Small<N>,
    lane: &mut RawLane<N>,
) {
    let item = queue(rt, &small.heads, &mut small.first, &mut small.worker, 0);
    let other = queue(rt, &small.heads, &mut small.second, &mut small.worker, 1);
    expect_aboard(rt, lane, 0, item);
    expect_run(rt, &mut small.first, lane, 9, 4, 1);
    expect_aboard(rt, lane, 1, other);
    expect_sizes(rt, &small.first, (1, 0));
    expect_sizes(rt, &small.second, (0, 1));
    expect_run(rt, &mut small.second, lane, 10, 4, 1);
    expect_sizes(rt, &small.second, (1, 0));
    expect_done(rt, lane, 2);
}

#[test]
fn a_run_ends_at_the_other_class(rt: HostRuntime) -> Result<(), Fail> {
    Ok(play(&rt, rt.alloc(), 4, Scene::OtherClass)?)
}

/// Of three bumps of one class a run with the limit 2 applies two, each at its time, and leaves the third in the ring.
pub fn end_at_the_limit<N: Name>(rt: &impl Abort, small: &mut Small<N>, lane: &mut RawLane<N>) {
    queue(rt, &small.heads, &mut small.first, &mut small.worker, 0);
    let second = queue(rt, &small.heads, &mut small.first, &mut small.worker, 1);
    let third = queue(rt, &small.heads, &mut small.first, &mut small.worker, 2);
    expect_run(rt, &mut small.first, lane, 9, 2, 2);
    expect_sizes(rt, &small.first, (2, 1));
    expect_moved(rt, &small.heads, second.chunk, 9);
    expect(rt, "applied bumps", &lane.applied(), &2);
    expect_aboard(rt, lane, 2, third);
    expect_run(rt, &mut small.first, lane, 10, 1, 1);
    expect_done(rt, lane, 3);
}

#[test]
fn a_run_ends_at_its_limit(rt: HostRuntime) -> Result<(), Fail> {
    Ok(play(&rt, rt.alloc(), 4, Scene::Limit)?)
}

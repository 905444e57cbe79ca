//! What holds once all threads are joined.
use super::super::calls::{expect_size, lock, next, sweep};
use super::super::expecting::expect;
use super::CAPACITY;
use super::keeping::Keeper;
use super::reading::Told;
use bump_store::{Accounts, Book, Lane, Name, Place, ReaderHeads, Store};
use std::alloc::{AllocError, Global};
use std::process::Abort;
use std::sync::Wait;

// No two are the same.
fn expect_once(rt: &impl Abort, keys: &mut Vec<u64>) -> Result<(), AllocError> {
    keys.sort()?;
    let keys = keys.as_slice();
    for i in 1..keys.len() {
        assert!(rt; keys[i - 1] < keys[i], "a life was hit first twice");
    }
    Ok(())
}

// Accepted and dropped bumps add up to those attempted.
fn expect_sums(rt: &impl Abort, counts: Accounts) {
    let dropped = counts
        .full
        .saturating_add(counts.busy)
        .saturating_add(counts.refs);
    let sum = counts.accepted.saturating_add(dropped);
    expect(rt, "attempted bumps", &counts.attempted, &sum);
}

// How many references each chunk has beside that of its list.
fn refs_left<N: Name>(rt: &impl Abort, heads: &ReaderHeads<N>) -> [u32; 64] {
    let mut left = [0u32; 64];
    for chunk in 0..64u32 {
        assert!(rt; chunk < heads.chunks());
        let head = heads.see(chunk).0;
        left[chunk as usize] = head.refs.saturating_sub(u32::from(head.linked));
    }
    left
}

// Counts a chunk's bump.
fn count(rt: &impl Abort, left: &mut [u32; 64], chunk: u32) {
    assert!(rt; chunk < 64);
    let at = chunk as usize;
    left[at] = left[at].saturating_add(1);
}

// Applies the bumps that are left of a lane's ring, counts them by chunk, and tells how many there were.
fn apply_rest<N: Name, R: Abort + Wait>(
    rt: &R,
    store: &Store<N>,
    lane: &mut Lane<N>,
    left: &mut [u32; 64],
) -> u64 {
    let mut all = 0u64;
    for _ in 0..CAPACITY {
        if let Some(entry) = next(rt, store, lane, 0) {
            count(rt, left, entry.life.chunk);
            all = all.saturating_add(1);
        }
    }
    assert!(rt; next(rt, store, lane, 0).is_none());
    all
}

// How many items there are in a class.
fn items_in<N: Name>(book: &Book<N>) -> u64 {
    let mut items = 0u64;
    for place in [Place::Hot, Place::Warm, Place::Cold, Place::Temp] {
        items = items.saturating_add(book.size(place).into());
    }
    items
}

// How many chunks of a class are free.
fn free_in<N: Name>(book: &Book<N>) -> u32 {
    book.size(Place::Unused)
        .saturating_add(book.size(Place::Retired))
}

// How many chunks a class has.
fn chunks_in<N: Name>(book: &Book<N>) -> u32 {
    let range = book.range();
    range.end.saturating_sub(range.start)
}

// Nobody holds an item any more: a sweep empties DYING, and each chunk stands in one list. Tells how many items there
// are.
fn expect_lists<N: Name, R: Abort + Wait>(rt: &R, store: &Store<N>, class: u32) -> u64 {
    let mut guard = lock(rt, store, class);
    let book = &mut *guard;
    sweep(book);
    expect_size(rt, book, Place::Dying, 0);
    let items = items_in(book);
    let all = items.saturating_add(free_in(book).into());
    expect(rt, "all chunks", &all, &u64::from(chunks_in(book)));
    items
}

// The accounts of a worker are those of the answers and add up, and what it accepted was applied or is left. Tells how
// many bumps its lane had applied before.
fn expect_counts<N: Name, R: Abort + Wait>(
    rt: &R,
    store: &Store<N>,
    told: &Told<N>,
    lane: &mut Lane<N>,
    left: &mut [u32; 64],
) -> u64 {
    assert!(rt; told.touches > 0, "no item was touched");
    let counts = told.worker.counts();
    expect(rt, "the counts", &counts, &told.answers);
    expect_sums(rt, counts);
    let before = lane.applied();
    let rest = apply_rest(rt, store, lane, left);
    let all = before.saturating_add(rest);
    expect(rt, "accepted bumps", &counts.accepted, &all);
    before
}

// The same, with the lives that the worker hit first. They go to those of the others.
fn expect_worker<N: Name, R: Abort + Wait>(
    rt: &R,
    store: &Store<N>,
    told: &Told<N>,
    lane: &mut Lane<N>,
    left: &mut [u32; 64],
    firsts: &mut Vec<u64>,
) -> Result<u64, AllocError> {
    for key in &told.firsts {
        firsts.push(*key)?;
    }
    Ok(expect_counts(rt, store, told, lane, left))
}

// Each worker's accounts and lane, and First came once for a life. Tells how many bumps all lanes had applied before.
fn expect_workers<N: Name, R: Abort + Wait>(
    rt: &R,
    store: &Store<N>,
    told: &[Told<N>],
    lanes: &mut [Lane<N>],
    left: &mut [u32; 64],
    firsts: &mut Vec<u64>,
) -> Result<u64, AllocError> {
    assert!(rt; told.len() == lanes.len(), "each worker has a lane");
    let mut applied = 0u64;
    for worker in 0..told.len() {
        let before = expect_worker(rt, store, &told[worker], &mut lanes[worker], left, firsts)?;
        applied = applied.saturating_add(before);
    }
    expect_once(rt, firsts)?;
    Ok(applied)
}

// No item is lost, and no chunk has a reference that is left.
fn expect_items<N: Name, R: Abort + Wait>(rt: &R, store: &Store<N>, linked: u64, ended: u64) {
    let items = expect_lists(rt, store, 0).saturating_add(expect_lists(rt, store, 1));
    expect(rt, "linked items", &linked, &ended.saturating_add(items));
    assert!(rt; refs_left(rt, store) == [0; 64]);
}

/// The workers' accounts agree with what the lanes applied, each chunk has the references that are left, and no item is
/// lost.
pub fn expect_told<N: Name, R: Abort + Wait>(
    rt: &R,
    alloc: Global,
    store: &Store<N>,
    told: Vec<Told<N>>,
    keeper: Keeper<N>,
) -> Result<(), AllocError> {
    let Keeper {
        mut lanes,
        linked,
        ended,
        drained,
    } = keeper;
    let refs = refs_left(rt, store);
    let mut left = [0u32; 64];
    let mut firsts = Vec::new(alloc);
    let applied = expect_workers(rt, store, &told, &mut lanes, &mut left, &mut firsts)?;
    expect(rt, "applied bumps", &applied, &drained);
    assert!(rt; left == refs);
    expect_items(rt, store, linked, ended);
    Ok(())
}

//! What a reader's thread does, and what it was told.
use super::super::calls::{label, touch, try_get};
use super::super::expecting::expect;
use bump_store::{Accounts, Dropped, ItemId, Name, ReaderHeads, Touch, Worker};
use std::alloc::{AllocError, Global};
use std::process::Abort;
use std::thread;
use std::thread::Threads;

/// Touches that each thread makes.
const TOUCHES: u32 = 1_000_000;

/// A worker after its touches, and what they answered.
#[derive(Drop)]
pub struct Told<N: Name> {
    pub worker: Worker<N>,
    pub firsts: Vec<u64>,
    pub touches: u64,
    pub answers: Accounts,
}

// A number for each life.
fn key_of(item: ItemId) -> u64 {
    u64::from(item.chunk) << 32 | u64::from(item.generation)
}

// The counts by the answers alone.
fn counted(answers: Accounts, touch: Touch) -> Accounts {
    let attempted = answers.attempted.saturating_add(1);
    match touch {
        Touch::Queued(_) => Accounts {
            attempted,
            accepted: answers.accepted.saturating_add(1),
            ..answers
        },
        Touch::Dropped(Dropped::Full) => Accounts {
            attempted,
            full: answers.full.saturating_add(1),
            ..answers
        },
        Touch::Dropped(Dropped::Busy) => Accounts {
            attempted,
            busy: answers.busy.saturating_add(1),
            ..answers
        },
        Touch::Dropped(Dropped::RefsFull) => Accounts {
            attempted,
            refs: answers.refs.saturating_add(1),
            ..answers
        },
        _ => answers,
    }
}

// The chunk's item, as its head shows it.
fn item_in<N: Name>(rt: &impl Abort, heads: &ReaderHeads<N>, chunk: u32) -> ItemId {
    assert!(rt; chunk < heads.chunks());
    let generation = heads.see(chunk).0.generation;
    ItemId { chunk, generation }
}

// Gets the item, if it is had, reads its label twice, and touches it.
fn touch_once<N: Name, R: Abort>(
    rt: &R,
    heads: &ReaderHeads<N>,
    worker: &mut Worker<N>,
    item: ItemId,
    now: u64,
) -> Option<(u64, Touch)> {
    let mut hold = try_get(heads, worker, item).ok()?;
    let read = label(heads, &mut hold);
    let touched = touch(heads, worker, &mut hold, now);
    let again = label(heads, &mut hold);
    hold.release(heads);
    expect(rt, "the label", &read, &again);
    Some((read, touched))
}

impl<N: Name> Told<N> {
    // Gets the chunk's item, as its head shows it, reads its label twice, and touches it. The label is odd in the
    // second class.
    fn touch<R: Abort>(&mut self, rt: &R, heads: &ReaderHeads<N>, chunk: u32, now: u64) {
        let item = item_in(rt, heads, chunk);
        let Some((label, touch)) = touch_once(rt, heads, &mut self.worker, item, now) else {
            return;
        };
        expect(rt, "which class", &(label % 2), &u64::from(chunk >= 48));
        self.touches = self.touches.saturating_add(1);
        self.answers = counted(self.answers, touch);
        if matches!(touch, Touch::First) {
            let is_kept = self.firsts.push(key_of(item)).is_ok();
            assert!(rt; is_kept, "there is memory");
        }
    }
}

fn touch_all<N: Name, R: Abort>(
    rt: &R,
    alloc: Global,
    heads: &ReaderHeads<N>,
    worker: Worker<N>,
) -> Told<N> {
    let mut told = Told {
        worker,
        firsts: Vec::new(alloc),
        touches: 0,
        answers: Accounts {
            attempted: 0,
            accepted: 0,
            full: 0,
            busy: 0,
            refs: 0,
        },
    };
    for step in 0..TOUCHES {
        told.touch(rt, heads, step % 64, u64::from(step));
    }
    told
}

/// Each worker touches the items of all 64 chunks in turn, in a thread of its own.
pub fn touch_apart<N: Name + Send + Sync, R: Threads + Abort + Sync>(
    rt: &R,
    alloc: Global,
    heads: &ReaderHeads<N>,
    workers: Vec<Worker<N>>,
) -> Result<Vec<Told<N>>, AllocError> {
    thread::map_vec(rt, workers, &|worker| touch_all(rt, alloc, heads, worker))
}

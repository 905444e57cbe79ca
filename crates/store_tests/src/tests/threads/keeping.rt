//! What the fifth thread does: it stores, ages, ends and sweeps the items of both classes, and drains all lanes.
use super::super::calls::{lock, pull, sweep};
use bump_store::{Book, ItemId, Lane, Name, Pulled, Store, Tail};
use std::process::Abort;
use std::sync::Wait;
use std::sync::atomic::{AtomicBool, Ordering};

/// The lanes, and how many items were linked and ended, and bumps drained.
#[derive(Drop)]
pub struct Keeper<N: Name> {
    pub lanes: Vec<Lane<N>>,
    pub linked: u64,
    pub ended: u64,
    pub drained: u64,
}

// A new item, if a chunk is free.
fn link<N: Name>(book: &mut Book<N>, label: u64, now: u64) -> Option<ItemId> {
    book.link(label, now).ok()
}

// Whether the item was linked, and ends.
fn unlink<N: Name>(book: &mut Book<N>, item: ItemId) -> bool {
    book.unlink(item).is_ok()
}

impl<N: Name> Keeper<N> {
    pub fn new(lanes: Vec<Lane<N>>) -> Keeper<N> {
        Keeper {
            lanes,
            linked: 0,
            ended: 0,
            drained: 0,
        }
    }

    // Links an item, whose label is odd in the second class. Some are unlinked at once.
    fn link(&mut self, book: &mut Book<N>, now: u64) {
        let label = now.saturating_mul(2).saturating_add(book.class().into());
        let Some(item) = link(book, label, now) else {
            return;
        };
        self.linked = self.linked.saturating_add(1);
        if now % 3 == 0 && unlink(book, item) {
            self.ended = self.ended.saturating_add(1);
        }
    }

    // Ends the last item of COLD.
    fn evict(&mut self, book: &mut Book<N>) {
        match pull(book, Tail::Evict) {
            Pulled::Freed(_) | Pulled::Deferred(_) => {
                self.ended = self.ended.saturating_add(1);
            }
            _ => {}
        }
    }

    // Something in a class, by the number of the round.
    fn change(&mut self, book: &mut Book<N>, now: u64) {
        match now % 8 {
            0 | 1 => self.link(book, now / 8),
            2 | 3 => {
                pull(book, Tail::Hot);
            }
            4 => {
                pull(book, Tail::Warm);
            }
            5 => {
                pull(book, Tail::Cold);
            }
            6 if now % 32 < 16 => self.evict(book),
            _ => {
                sweep(book);
            }
        }
    }

    // A drain of one of the lanes.
    fn drain<R: Abort + Wait>(&mut self, rt: &R, store: &Store<N>, now: u64) {
        let lane = self.lanes.get_mut((now % 4) as usize);
        let drained = lane.expect(rt, "it is a lane").drain(rt, store, now);
        self.drained = self.drained.saturating_add(drained);
    }

    /// One round: something in one of the two classes, and a drain of one of the four lanes.
    pub fn tend<R: Abort + Wait>(&mut self, rt: &R, store: &Store<N>, now: u64) {
        {
            let class = (now / 8 % 2) as u32;
            let mut book = lock(rt, store, class);
            self.change(&mut book, now);
        }
        self.drain(rt, store, now);
    }
}

/// Tends both classes and all lanes, until the readers are done.
pub fn keep<N: Name, R: Abort + Wait>(
    rt: &R,
    store: &Store<N>,
    mut keeper: Keeper<N>,
    done: &AtomicBool,
) -> Keeper<N> {
    let mut now = 256u64;
    for _ in rt.forever() {
        if done.load(Ordering::SeqCst) {
            return keeper;
        }
        keeper.tend(rt, store, now);
        now = now.saturating_add(1);
    }
    unreachable!()
}

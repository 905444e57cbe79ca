//! Keys that a cache evicted and has no items of any more.
ghost use Rattle.std.specs.Prelude.{◌≡◌, None, IfOk, OnOk};

use lru::LruCache;
use std::alloc::{AllocError, Global};
use std::marker::Model;
use std::num::NonZeroUsize;

// Keys that a cache evicted: a FIFO, from which any key can be taken out. The newest one waits for its memory until the
// next place is made, so that to put one in is never refused.
#[derive(Drop)]
pub(crate) struct Ghosts {
    room: usize,
    waiting: Option<u32>,
    placed: LruCache<u32, ()>,
}

impl Model for Ghosts {
    ghost use Rattle.std.specs.Prelude.{length};
    ghost use Rattle.replay_policies.specs.Ghosts.{GhostsView, IsGhosts};

    ghost Value = { GhostsView };

    ghost view = { λ g. record { waiting = g.waiting } };

    ghost invariant = { λ g. IsGhosts g.room g.placed.cap g.waiting (length g.placed.entries) };
}

impl Ghosts {
    // No ghosts, of which there may be so many. It is refused only for want of memory.
    pub(crate) fn new(alloc: Global, room: usize) -> Result<Ghosts, AllocError>
        ensures { IfOk result (λ g. g.waiting ≡ None) }
    {
        // One place more than there is room for, since there may be room for none.
        let places = NonZeroUsize::MIN.saturating_add(room);
        Ok(Ghosts {
            room,
            waiting: None,
            placed: LruCache::new(alloc, places)?,
        })
    }

    // Gives the newest key its place, so that another one can be put in. It is refused only for want of memory; the keys
    // stay as they are.
    pub(crate) fn make_place(&mut self) -> Result<(), AllocError>
        ensures { OnOk result (self.new.waiting ≡ None) }
    {
        if let Some(key) = self.waiting {
            self.placed.put(key, ())?;
            self.waiting = None;
        }
        Ok(())
    }

    // Takes a key out: whether it was there. All keys must have their places.
    pub(crate) fn take_out(&mut self, key: u32) -> bool
        requires place { self.old.waiting ≡ None }
        ensures { self.new.waiting ≡ None }
    {
        self.placed.pop(&key).is_some()
    }

    // Puts in a key that isn't there, as the newest; where there is no room the oldest goes. A place must have been made.
    pub(crate) fn push(&mut self, key: u32)
        requires place { self.old.waiting ≡ None }
    {
        if self.room == 0 {
            return;
        }
        if self.placed.len() >= self.room {
            self.placed.pop_lru();
        }
        self.waiting = Some(key);
    }
}

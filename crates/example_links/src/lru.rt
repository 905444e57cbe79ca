//! The slots of an LRU cache, in two lists: those in use, the last touched first, and the free ones.

ghost use Rattle.std.specs.Prelude.{◌≡◌, ◌<◌, ◌≤◌, IfOk};

use bump_links::{Links, NODES_MAX};
use std::alloc::{AllocError, Global};
use std::marker::Model;

/// The greatest count of slots.
pub const SLOTS_MAX: u32 = NODES_MAX;

/// The list of the slots in use, the last touched first.
const IN_USE: u32 = 0;

/// The list of the free slots.
const FREE: u32 = 1;

/// The slots of an LRU cache. A slot is a number below their count: the place of an item in a table of the caller's.
#[derive(Drop)]
pub struct Lru {
    links: Links,
}

/// A slot that was taken for a new item.
#[derive(Clone, Copy, Debug, PartialEq, Eq)]
pub enum TakenSlot {
    /// This slot was free.
    Free(u32),

    /// None was free: this one was touched longest ago, and its item is evicted.
    Evicted(u32),
}

impl Model for Lru {
    ghost use Rattle.std.specs.Prelude.{◌≡◌, ◌<◌, length};
    ghost use Rattle.example_links.specs.Slots.{Slots, slots_of};

    ghost Value = { Slots };

    ghost view = { λ a. slots_of a.links };

    ghost invariant = { λ a. (length a.links.lists ≡ 2) × (0 < a.links.nodes) };
}

impl Lru {
    ghost use Rattle.example_links.specs.Slots.{all_free, used, Takes};

    /// So many slots, 1 to `SLOTS_MAX`, all free. It is refused for want of memory alone.
    pub fn new(alloc: Global, slots: u32) -> Result<Lru, AllocError>
        requires some { 1 ≤ slots }
        requires few { slots ≤ SLOTS_MAX }
        ensures made { IfOk result (λ lru. lru ≡ all_free slots) }
    {
        Ok(Lru {
            links: Links::new(alloc, slots, 2, FREE)?,
        })
    }

    /// Brings a slot to the front of those in use. The slot is below their count.
    pub fn touch(&mut self, slot: u32)
        requires { slot < self.old.count }
        ensures touched { self.new ≡ used slot self.old }
    {
        self.links.move_front(slot, IN_USE);
    }

    /// Takes a slot for a new item: the first free one or, where none is free, the one that was touched longest ago.
    pub fn insert(&mut self) -> TakenSlot
        ensures taken { Takes self.old self.new result }
    {
        // Each slot stands in one of the two lists, so they are not both empty: it is a clause of `nodes`.
        let _ = self.links.nodes();
        if let Some(slot) = self.links.front(FREE) {
            self.touch(slot);
            return TakenSlot::Free(slot);
        }
        match self.links.back(IN_USE) {
            Some(slot) => {
                self.touch(slot);
                TakenSlot::Evicted(slot)
            }
            None => unreachable!(),
        }
    }

    /// The slots in use, the last touched first. It is refused for want of memory alone.
    pub fn in_use(&self, alloc: Global) -> Result<Vec<u32>, AllocError>
        ensures listed { IfOk result (λ slots. slots.items ≡ self.now.in_use) }
    {
        self.links.walk(alloc, IN_USE)
    }
}

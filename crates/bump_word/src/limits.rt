//! The limit of a chunk's reference count, by which words are judged.
ghost use Rattle.std.specs.Prelude.{◌≡◌, ◌≤◌, ◌&&◌, nat_lt};
ghost use Rattle.bump_rules.specs.declared.items.Head.{Head as TheHead};
ghost use Rattle.bump_word.specs.Words.{Spells};

use crate::layout::{Count, LINKED_AT, REFS_MAX};
use std::marker::Model;

// How far a word is shifted so that LINKED is its highest bit, with the count right below.
const TO_THE_TOP: u32 = 63 - LINKED_AT.first;

// LINKED of a word so shifted.
const TOP: u64 = 1 << 63;

/// The greatest reference count that a chunk may have.
#[derive(Drop)]
pub struct Limit {
    refs: Count,

    // The word, so shifted, of an item that is linked and has this count: one signed comparison with it tells both
    // whether a word's item is linked and whether its count is below.
    full: u64,
}

impl Model for Limit {
    ghost use Rattle.std.specs.Prelude.{◌≡◌, ℕ, ◌+◌, ◌-◌, ◌*◌, ◌^◌, ◌<◌};
    ghost use Rattle.bump_word.specs.Layout.{refs_width, linked_first};

    ghost Value = { ℕ };

    ghost view = { λ l. l.refs };

    ghost invariant = { λ l. (l.refs < 2 ^ refs_width) × (l.full ≡ 2 ^ 63 + l.refs * 2 ^ (63 - linked_first)) };
}

impl Limit {
    /// A limit, at most [`REFS_MAX`].
    pub fn new(refs: u32) -> Limit
        requires { refs ≤ REFS_MAX }
        ensures { result ≡ refs }
    {
        Limit {
            refs,
            full: TOP + u64::from(refs) * (1 << TO_THE_TOP),
        }
    }

    /// The limit, as a count.
    pub fn refs(&self) -> &Count
        ensures { result.now ≡ self.now }
    {
        &self.refs
    }

    /// Whether the word's item is linked, and its count below the limit.
    pub fn has_room(&self, word: u64) -> bool
        ensures { (h : TheHead) → Spells word h → result ≡ h.linked && nat_lt h.refs self.now }
    {
        (word << TO_THE_TOP).wrapping_add(TOP) < self.full.wrapping_add(TOP)
    }
}

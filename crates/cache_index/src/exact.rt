//! The writer's own search, which misses nothing.
ghost use Rattle.std.specs.Prelude.{◌≡◌, ◌<◌, ◌==◌, ◌||◌, ℕ, true, false, IfSome, IfNone, IsSomeAnd};
ghost use Rattle.cache_index.specs.Tags.{tag_of};
ghost use Rattle.cache_index.specs.Views.{IsWithin, lanes_ahead, has_answered, led_at};

use crate::from_zero::IndexFromZero;
use crate::index::Index;
use crate::led::life_of;
use bump_rules::ItemId;
use std::marker::Model;

/// The writer's search for the chunks that have keys of one hash.
#[derive(Drop)]
pub struct ExactSearch {
    hash: u32,
    // so many lanes from the hash's home on
    looked: u32,
}

impl Model for ExactSearch {
    ghost use Rattle.cache_index.specs.Views.{SearchView};

    ghost Value = { SearchView };

    ghost view = { λ s. record { hash = s.hash; looked = s.looked } };
}

impl Index {
    /// Begins a search for the chunks that have keys of this hash. It has answered none.
    pub fn search(&self, hash: u32) -> ExactSearch
        ensures hash { result.hash ≡ hash }
        ensures within { IsWithin self.now result }
        ensures none { (chunk : ℕ) → has_answered self.now result chunk ≡ false }
    {
        ExactSearch { hash, looked: 0 }
    }

    /// The next chunk to which the index leads by the tag of the search's hash, with its generation, or `None` where
    /// each chunk that has this very hash was answered. The search is one of this index, which stays as it is. Each
    /// chunk is answered once at most, and each answer leaves fewer lanes ahead.
    pub fn next_of(&mut self, search: &mut ExactSearch) -> Option<ItemId>
        requires { IsWithin self.old search.old }
        ensures index { self.new ≡ self.old }
        ensures hash { search.new.hash ≡ search.old.hash }
        ensures within { IsWithin self.new search.new }
        ensures fewer { IfSome result (λ _. lanes_ahead self.new search.new < lanes_ahead self.old search.old) }
        ensures anew { IfSome result (λ life. has_answered self.old search.old life.chunk ≡ false) }
        ensures led { IfSome result (λ life. IsSomeAnd (led_at self.old.table life.chunk)
            (λ led. (led.generation ≡ life.generation) × (tag_of led.hash ≡ tag_of search.old.hash))) }
        ensures answered { IfSome result (λ life. (chunk : ℕ) → has_answered self.new search.new chunk
            ≡ (has_answered self.old search.old chunk || (chunk == life.chunk))) }
        ensures done { IfNone result ((chunk : ℕ) → has_answered self.new search.new chunk
            ≡ has_answered self.old search.old chunk) }
        ensures all { IfNone result ((chunk : ℕ) → IfSome (led_at self.old.table chunk)
            (λ led. led.hash ≡ search.old.hash → has_answered self.old search.old chunk ≡ true)) }
    {
        let Some(life) = self.from_zero.next_of(search) else {
            return None;
        };
        Some(self.numbered(life))
    }
}

impl IndexFromZero {
    /// The same over chunks that are numbered from 0 on.
    pub(crate) fn next_of(&mut self, search: &mut ExactSearch) -> Option<ItemId>
        requires { IsWithin self.old search.old }
        ensures index { self.new ≡ self.old }
        ensures hash { search.new.hash ≡ search.old.hash }
        ensures within { IsWithin self.new search.new }
        ensures fewer { IfSome result (λ _. lanes_ahead self.new search.new < lanes_ahead self.old search.old) }
        ensures anew { IfSome result (λ life. has_answered self.old search.old life.chunk ≡ false) }
        ensures led { IfSome result (λ life. IsSomeAnd (led_at self.old.table life.chunk)
            (λ led. (led.generation ≡ life.generation) × (tag_of led.hash ≡ tag_of search.old.hash))) }
        ensures answered { IfSome result (λ life. (chunk : ℕ) → has_answered self.new search.new chunk
            ≡ (has_answered self.old search.old chunk || (chunk == life.chunk))) }
        ensures done { IfNone result ((chunk : ℕ) → has_answered self.new search.new chunk
            ≡ has_answered self.old search.old chunk) }
        ensures all { IfNone result ((chunk : ℕ) → IfSome (led_at self.old.table chunk)
            (λ led. led.hash ≡ search.old.hash → has_answered self.old search.old chunk ≡ true)) }
    {
        let Some(at) = self.nests.look(&mut self.pen, search.hash, search.looked) else {
            return None;
        };
        search.looked = at.number + 1;
        Some(life_of(self.nests.life(&mut self.pen, at.nest, at.lane)))
    }
}

//! Entries by their places, each in memory of its own.
ghost use Rattle.std.specs.Prelude.{◌≡◌, ◌<◌, ◌≤◌, IfOk, IfErr, IfSome, IsSomeAnd};
ghost use Rattle.entry_cache.specs.Entries.{IsAsked, IsLack, entry_view};

use crate::asking::Asks;
use crate::found::Found;
use crate::kept::{Item, Kept};
use crate::misses::EntryMiss;
use bump_rules::has_expired;
use sharded_slab::{Keeps, RuledSlab};
use std::alloc::{AllocError, Global};
use std::hash::Hash;
use std::sync::Wait;

// The entries of a cache, by their places.
#[derive(Drop)]
pub(crate) struct Entries<K: Drop, V: Drop, L: Keeps<Kept<K, V>>> {
    slab: RuledSlab<Kept<K, V>, L>,
    alloc: Global,
}

// An entry that was stored, and its place.
pub(crate) struct Stored<K, V> {
    pub(crate) place: u64,
    pub(crate) kept: Kept<K, V>,
}

impl<K: Drop, V: Drop, L: Keeps<Kept<K, V>>> Entries<K, V, L> {
    // No entries yet, for a cache of so many parts.
    pub(crate) fn new(alloc: Global, parts: u32) -> Result<Entries<K, V, L>, AllocError>
        requires { (0 < parts) × (parts ≤ 256) }
    {
        let slab = RuledSlab::new(alloc, parts as usize)?;
        Ok(Entries { slab, alloc })
    }

    // Stores an entry, or hands back what it has where there is no memory for it.
    pub(crate) fn store<W: Wait>(
        &self,
        rt: &W,
        hash: u64,
        item: Item<K, V>,
    ) -> Result<Stored<K, V>, Item<K, V>>
        requires { (place : _) → L.holds place (entry_view item.key item.value item.expires) }
        ensures stored { IfOk result (λ stored. stored.kept ≡ entry_view item.key item.value item.expires) }
        ensures back { IfErr result (λ back. entry_view back.key back.value back.expires
            ≡ entry_view item.key item.value item.expires) }
    {
        let kept = Kept::new(self.alloc, item)?;
        let Ok(other) = kept.again() else {
            return Err(kept.take(rt));
        };
        match self.slab.insert((hash % 256) as usize, other) {
            Ok(place) => Ok(Stored {
                place: place as u64,
                kept,
            }),
            Err(other) => {
                drop(other);
                Err(kept.take(rt))
            }
        }
    }

    // Lets the entry at a place go: its memory is given back when the last of those who found it lets go.
    pub(crate) fn remove(&self, place: u64) {
        self.slab.remove(place as usize);
    }

    // The entry at a place, if it is the one that is asked for; or None where it is gone, or has as many readers as there may be.
    pub(crate) fn at<N, Q: Asks<K>>(
        &self,
        place: u64,
        asked: &Q,
        now: u64,
    ) -> Result<Option<Found<'_, N, K, V, L>>, EntryMiss>
    where
        K: Hash,
        ensures place { IfOk result (λ told. IfSome told (λ it. it.place ≡ place)) }
        ensures asked { IfOk result (λ told. IfSome told (λ it. IsSomeAnd it.entry (IsAsked (Q.asks asked.now) now))) }
        ensures law { IfOk result (λ told. IfSome told (λ it. IsSomeAnd it.entry (λ entry. ∥ L.holds place entry ∥₁))) }
        ensures lack { IfErr result (IsLack (L.holds place) (Q.asks asked.now) now) }
    {
        let Some(entry) = self.slab.get(place as usize) else {
            return Ok(None);
        };
        let found = Found::new(entry);
        let kept = found.kept();
        if !asked.asks(kept.key()) {
            return Err(EntryMiss::Other);
        }
        if has_expired(kept.expires(), now) {
            return Err(EntryMiss::Expired);
        }
        Ok(Some(found))
    }
}

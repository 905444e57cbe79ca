//! A reader of a cache of entries.
ghost use Rattle.std.specs.Prelude.{◌≡◌, true, false, IfSome, IsSomeAnd, IfNone};
ghost use Rattle.cache_config.specs.Sums.{hits_of, misses_of};
ghost use Rattle.entry_cache.specs.Asking.{hash_by};
ghost use Rattle.entry_cache.specs.Entries.{IsAsked};
ghost use Rattle.entry_cache.specs.Looking.{FindsThere, GetsNoRow, GetsRow, LooksUntil, MissesEntry, PeeksNoRow, PeeksRow};

use crate::asking::{Asks, hash_of};
use crate::caches::EntryCache;
use crate::found::Found;
use crate::kept::Kept;
use crate::misses::EntryMiss;
use bump_cache::{CacheReader, LogName, Name};
use sharded_slab::Keeps;
use std::hash::Hash;
use std::marker::Model;

// So often a reader looks where the entries of the rows that it found were gone.
const LOOKS: u32 = 1_000;

/// A reader of a cache of entries, which one thread has at a time.
#[derive(Drop)]
pub struct EntryReader<N: Name + LogName> {
    rows: CacheReader<N, u64, u64>,
    missed: EntryMiss,
}

impl<N: Name + LogName> Model for EntryReader<N> {
    ghost use Rattle.entry_cache.specs.Readers.{EntryReaderView};

    ghost Value = { EntryReaderView };

    ghost view = { λ r. record { rows = r.rows; missed = r.missed } };
}

impl<N: Name + LogName> EntryReader<N> {
    /// A reader by one of the rows.
    pub(crate) fn new(rows: CacheReader<N, u64, u64>) -> EntryReader<N>
        ensures { result.rows ≡ rows }
    {
        EntryReader {
            rows,
            missed: EntryMiss::NoRow,
        }
    }

    /// The entry that is asked for, if one is there that hasn't expired at `now`, in the caller's ticks: it is lent in place. It takes no
    /// lock and no memory, and waits for nobody.
    ///
    /// It looks for the row of the key's hash, as `bump_cache::CacheReader::get` does, with its touch, and counts itself in at the
    /// entry's place. Where that entry is gone by then, since another thread put the key anew, removed or evicted it, it looks again, at
    /// most 1,000 times. Then it compares the entry's key with the one that is asked for. Why it found nothing `last_miss` tells.
    pub fn get<'a, K: Hash + Drop, V: Drop, L: Keeps<Kept<K, V>>, Q: Asks<K>>(
        &mut self,
        cache: &'a EntryCache<N, K, V, L>,
        asked: Q,
        now: u64,
    ) -> Option<Found<'a, N, K, V, L>>
        ensures found { IfSome result (λ it. LooksUntil (GetsRow (hash_by cache.now.seed (Q.hash_input asked)) now)
            (GetsRow (hash_by cache.now.seed (Q.hash_input asked)) now it.place) self.old.rows self.new.rows) }
        ensures same { IfSome result (λ it. self.new.missed ≡ self.old.missed) }
        ensures asked { IfSome result (λ it. IsSomeAnd it.entry (IsAsked (Q.asks asked) now)) }
        ensures law { IfSome result (λ it. IsSomeAnd it.entry (λ entry. ∥ L.holds it.place entry ∥₁)) }
        ensures missed { IfNone result (MissesEntry (GetsRow (hash_by cache.now.seed (Q.hash_input asked)) now)
            (GetsNoRow (hash_by cache.now.seed (Q.hash_input asked)) now) L.holds (Q.asks asked) now self.new.missed
            self.old.rows self.new.rows) }
    {
        let hash = hash_of(cache.seed, &asked);
        for _look in 0..LOOKS {
            let Some(place) = self.rows.get(&hash, now) else {
                self.missed = EntryMiss::NoRow;
                return None;
            };
            match cache.entries.at(place, &asked, now) {
                Ok(Some(found)) => return Some(found),
                Ok(None) => {}
                Err(why) => {
                    self.missed = why;
                    return None;
                }
            }
        }
        self.missed = EntryMiss::Gone;
        None
    }

    /// The entry that is asked for, as `get` finds it, but without a touch, and without being counted: so it may be evicted as if nobody
    /// had asked.
    pub fn peek<'a, K: Hash + Drop, V: Drop, L: Keeps<Kept<K, V>>, Q: Asks<K>>(
        &mut self,
        cache: &'a EntryCache<N, K, V, L>,
        asked: Q,
        now: u64,
    ) -> Option<Found<'a, N, K, V, L>>
        ensures found { IfSome result (λ it. LooksUntil (PeeksRow (hash_by cache.now.seed (Q.hash_input asked)) now)
            (PeeksRow (hash_by cache.now.seed (Q.hash_input asked)) now it.place) self.old.rows self.new.rows) }
        ensures same { IfSome result (λ it. self.new.missed ≡ self.old.missed) }
        ensures asked { IfSome result (λ it. IsSomeAnd it.entry (IsAsked (Q.asks asked) now)) }
        ensures law { IfSome result (λ it. IsSomeAnd it.entry (λ entry. ∥ L.holds it.place entry ∥₁)) }
        ensures missed { IfNone result (MissesEntry (PeeksRow (hash_by cache.now.seed (Q.hash_input asked)) now)
            (PeeksNoRow (hash_by cache.now.seed (Q.hash_input asked)) now) L.holds (Q.asks asked) now self.new.missed
            self.old.rows self.new.rows) }
    {
        let hash = hash_of(cache.seed, &asked);
        for _look in 0..LOOKS {
            let Some(place) = self.rows.peek(&hash, now) else {
                self.missed = EntryMiss::NoRow;
                return None;
            };
            match cache.entries.at(place, &asked, now) {
                Ok(Some(found)) => return Some(found),
                Ok(None) => {}
                Err(why) => {
                    self.missed = why;
                    return None;
                }
            }
        }
        self.missed = EntryMiss::Gone;
        None
    }

    /// Whether the entry that is asked for is there, and hasn't expired at `now`: as `peek` finds it.
    pub fn contains<K: Hash + Drop, V: Drop, L: Keeps<Kept<K, V>>, Q: Asks<K>>(
        &mut self,
        cache: &EntryCache<N, K, V, L>,
        asked: Q,
        now: u64,
    ) -> bool
        ensures found { result ≡ true → LooksUntil (PeeksRow (hash_by cache.now.seed (Q.hash_input asked)) now)
            (FindsThere (PeeksRow (hash_by cache.now.seed (Q.hash_input asked)) now) L.holds (IsAsked (Q.asks asked) now))
            self.old.rows self.new.rows }
        ensures same { result ≡ true → self.new.missed ≡ self.old.missed }
        ensures missed { result ≡ false → MissesEntry (PeeksRow (hash_by cache.now.seed (Q.hash_input asked)) now)
            (PeeksNoRow (hash_by cache.now.seed (Q.hash_input asked)) now) L.holds (Q.asks asked) now self.new.missed
            self.old.rows self.new.rows }
    {
        self.peek(cache, asked, now).is_some()
    }

    /// How many looks of gets found a row, at most 2^64 - 1: also those whose entry was gone, of another key, or expired.
    pub fn hits(&self) -> u64
        ensures { result ≡ hits_of self.now.rows.parts }
    {
        self.rows.hits()
    }

    /// How many gets found no row, at most 2^64 - 1.
    pub fn misses(&self) -> u64
        ensures { result ≡ misses_of self.now.rows.parts }
    {
        self.rows.misses()
    }

    /// Why the last get, peek or `contains` that found nothing did so. `NoRow` where each found something so far.
    pub fn last_miss(&self) -> EntryMiss
        ensures { result ≡ self.now.missed }
    {
        self.missed
    }
}

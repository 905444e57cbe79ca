//! A reader of a cache.
ghost use Rattle.std.specs.Prelude.{◌≡◌, ◌+◌, ◌≤◌, true, false, is_some, length, option_map, slice_get, All, IfSome, IfNone, Some};
ghost use Rattle.cache_readers.specs.Readers.{CountsHit, CountsNothing, Misses, ReadsNothing};
ghost use Rattle.cache_config.specs.Choosing.{IsPartCount};
ghost use Rattle.bump_cache.specs.Opening.{most_words};
ghost use Rattle.bump_cache.specs.Pairs.{IsPair};
ghost use Rattle.bump_cache.specs.Readers.{FindsValue, HitsItem, HoldsValue, InPart, KeepsRings, MissesItem, MissesKey, PeeksValue, SeesItem, missed_of, part_for};
ghost use Rattle.cache_config.specs.Sums.{AddsUp, bumps_of, dropped_of, hits_of, misses_of};

use crate::held::HeldItem;
use crate::law::{MOST_WORDS, PairLaw};
use crate::looking::{get_in, hold_in, peek_in, see_in};
use bump_heads::Name;
use bump_rules::Accounts;
use cache_config::{bumps_in, hits_in, misses_in, part_of_hash};
use cache_readers::{Miss, WordReader};
use keyed_hash::{Seed, upper_half};
use packed_words::Packed;
use std::marker::{Model, PhantomData};

/// A reader of a cache, which one thread has at a time. It has a worker and a ring of its own in each part.
#[derive(Drop)]
pub struct CacheReader<N: Name, K: Packed, V: Packed> {
    // a reader of each part, by number
    parts: Vec<WordReader<N, PairLaw<K, V>>>,
    seed: Seed,
    of: PhantomData<(K, V)>,
}

impl<N: Name, K: Packed, V: Packed> Model for CacheReader<N, K, V> {
    ghost use Rattle.std.specs.Prelude.{◌+◌, ◌≤◌, length};
    ghost use Rattle.cache_config.specs.Choosing.{IsPartCount};
    ghost use Rattle.bump_cache.specs.Opening.{most_words};
    ghost use Rattle.bump_cache.specs.Readers.{CacheReaderView};

    ghost Value = { CacheReaderView };

    ghost view = { λ r. record { seed = r.seed; parts = r.parts.items } };

    ghost invariant = { λ r. IsPartCount (length r.parts.items) × (K.width + V.width ≤ N.table.slots)
        × (K.width + V.width ≤ most_words) };
}

impl<N: Name, K: Packed, V: Packed> CacheReader<N, K, V> {
    ghost use Rattle.std.specs.Borrow.{sem};
    ghost use Rattle.bump_cache.specs.Held.{EndsIfNone, hold_of, loan_of, reader_of};

    /// A reader by one of each part.
    pub(crate) fn new(parts: Vec<WordReader<N, PairLaw<K, V>>>, seed: Seed) -> CacheReader<N, K, V>
        requires parts { IsPartCount (length parts.items) }
        requires few { K.width + V.width ≤ N.table.slots }
        requires words { K.width + V.width ≤ most_words }
        ensures { result ≡ record { seed = seed; parts = parts.items } }
    {
        CacheReader {
            parts,
            seed,
            of: PhantomData,
        }
    }

    // A reader of words by which it reads: by any part's what is held is read, and given back.
    #[inline(always)]
    pub(crate) fn words(&self) -> &WordReader<N, PairLaw<K, V>> {
        &self.parts[0]
    }

    /// What was put under the key, as memcached's `get`; or None where nothing was found. `now` is the time by which an
    /// item has expired, and that which a touch stores, in the caller's ticks. It takes no lock and no memory, and
    /// waits for nobody.
    ///
    /// It looks at the chunks to which the index leads for the key's hash. At each it glances first: it loads the head,
    /// the words and the head again of the item that is linked there. Where that has both marks and the key, hasn't
    /// expired at `now`, and is linked as ever by the second load, its value is answered, and nothing was written but
    /// the count of hits: gets of one item needn't wait for each other.
    ///
    /// Else it takes a hold of the item that is linked there, compares its key, and gives the hold back where that is
    /// another one. An item with the key that has expired isn't found, as in memcached's `do_item_get`: it is neither
    /// touched nor ended. Another is touched, as `Worker::touch` does, unless the head by which the hold was taken had
    /// both marks: the first get sets FETCHED, the second ACTIVE, and in COLD it queues a bump. Its value is what the
    /// put of this life stored. Where an item was ended by another thread in between, or couldn't be held, it
    /// searches anew, at most 1,000 times.
    ///
    /// Where it answers None, and didn't hold an item with the key that has expired, and didn't search 1,000 times in vain,
    /// of each lane of the part's index this is true: at a moment between the last one that this reader had seen before and
    /// the end of the call the index didn't lead to it from the key's hash, or there stood a life in it that was held then,
    /// and has another key. So a key to which the index leads all the while, by the same lane, is found.
    #[inline(always)]
    pub fn get(&mut self, key: &K, now: u64) -> Option<V>
        ensures found { IfSome result (λ value. InPart (FindsValue (IsPair K.fits K.as_words V.fits V.as_words)
            (K.as_words key.now) (V.as_words value) now) (K.as_words key.now) self.old self.new) }
        ensures counted { IfSome result (λ value. InPart CountsHit (K.as_words key.now) self.old self.new) }
        ensures missed { IfNone result (InPart (Misses (K.as_words key.now) now) (K.as_words key.now) self.old
            self.new) }
        ensures absent { IfNone result (InPart (MissesKey self.old.seed (K.as_words key.now) now) (K.as_words key.now)
            self.old self.new) }
        ensures ring { KeepsRings self.old self.new }
    {
        let seed = self.seed;
        // Arrays, of which as many words are used as the types have: the compiler knows these numbers, and keeps words
        // of short keys and values in registers.
        let mut key_row = [0; MOST_WORDS];
        let mut value_row = [0; MOST_WORDS];
        let words = &mut key_row[..K::words()];
        let value = &mut value_row[..V::words()];
        get_in(&mut self.parts, seed, key, words, value, now)
    }

    // Looks ahead for a key that is to be got soon: its get needn't wait for the memory of the index.
    #[inline(always)]
    pub(crate) fn look_ahead(&self, key: &K) {
        let seed = self.seed;
        let mut key_row = [0; MOST_WORDS];
        let words = &mut key_row[..K::words()];
        key.pack(words);
        let full = seed.full_hash(words);
        self.parts[part_of_hash(self.parts.len(), full)].look_ahead(upper_half(full));
    }

    /// What was put under the key, as `get` finds it, but the item is handed out, held, in place of its value; or None
    /// where nothing was found, or what has expired at `now`. Its value is read by `HeldItem::value`, and its words by
    /// `HeldItem::word` and `HeldItem::read`; they stay as they are whatever is put, removed or evicted meanwhile. It
    /// touches and counts as `get` does. While there is such an item its chunk isn't free, and the reader does nothing
    /// else; when it is dropped the hold is given back.
    #[inline(always)]
    pub fn get_with(&mut self, key: &K, now: u64) -> Option<HeldItem<'_, N, K, V>>
        ensures* missed { sem 𝓛 (EndsIfNone N.row K.row V.row N.Name K.Packed V.Packed self.entry result
            (InPart (MissesItem self.old.seed (K.as_words key.now) now) (K.as_words key.now) self.old)) }
        ensures loan { IfSome result (λ held. loan_of held ≡ self.entry.ghost_name) }
        ensures found { IfSome result (λ held. InPart (HitsItem (IsPair K.fits K.as_words V.fits V.as_words)
            (K.as_words key.now) now (hold_of held)) (K.as_words key.now) self.old (reader_of held)) }
        ensures counted { IfSome result (λ held. InPart CountsHit (K.as_words key.now) self.old (reader_of held)) }
        ensures value { IfSome result (λ held. HoldsValue V.fits V.as_words K.width (hold_of held)) }
        ensures ring { IfSome result (λ held. KeepsRings self.old (reader_of held)) }
    {
        let seed = self.seed;
        let mut key_row = [0; MOST_WORDS];
        let words = &mut key_row[..K::words()];
        let Some(hold) = hold_in(&mut self.parts, seed, key, words, now) else {
            return None;
        };
        Some(HeldItem::new(self, hold))
    }

    /// What was put under the key, as `get` finds it, but without a touch, and without being counted: so the item may
    /// be evicted as if nobody had asked. `now` is the time by which an item has expired, in the caller's ticks.
    #[inline(always)]
    pub fn peek(&mut self, key: &K, now: u64) -> Option<V>
        ensures found { IfSome result (λ value. InPart (PeeksValue (IsPair K.fits K.as_words V.fits V.as_words)
            (K.as_words key.now) (V.as_words value) now) (K.as_words key.now) self.old self.new) }
        ensures nothing { IfNone result (InPart (ReadsNothing (K.as_words key.now) now) (K.as_words key.now) self.old
            self.new) }
        ensures absent { IfNone result (InPart (MissesKey self.old.seed (K.as_words key.now) now) (K.as_words key.now)
            self.old self.new) }
        ensures uncounted { InPart (CountsNothing (is_some result)) (K.as_words key.now) self.old self.new }
        ensures ring { KeepsRings self.old self.new }
    {
        let seed = self.seed;
        let mut key_row = [0; MOST_WORDS];
        let mut value_row = [0; MOST_WORDS];
        let words = &mut key_row[..K::words()];
        let value = &mut value_row[..V::words()];
        peek_in(&mut self.parts, seed, key, words, value, now)
    }

    /// Whether something is under the key that hasn't expired at `now`: `peek` without the value.
    #[inline(always)]
    pub fn contains(&mut self, key: &K, now: u64) -> bool
        ensures found { result ≡ true → InPart (SeesItem (IsPair K.fits K.as_words V.fits V.as_words)
            (K.as_words key.now) now) (K.as_words key.now) self.old self.new }
        ensures nothing { result ≡ false → InPart (ReadsNothing (K.as_words key.now) now) (K.as_words key.now) self.old
            self.new }
        ensures absent { result ≡ false → InPart (MissesKey self.old.seed (K.as_words key.now) now) (K.as_words key.now)
            self.old self.new }
        ensures uncounted { InPart (CountsNothing result) (K.as_words key.now) self.old self.new }
        ensures ring { KeepsRings self.old self.new }
    {
        let seed = self.seed;
        let mut key_row = [0; MOST_WORDS];
        let words = &mut key_row[..K::words()];
        see_in(&mut self.parts, seed, key, words, now)
    }

    /// Why the last get, peek or `contains` that found nothing in the key's part did so: where that was the last call of this
    /// reader in that part, it is why this key wasn't found. `Unknown` where each found something so far. It takes no lock
    /// and no memory, and waits for nobody.
    pub fn last_miss(&self, key: &K) -> Miss
        ensures { option_map missed_of (slice_get self.now.parts (part_for (K.as_words key.now) self.now)) ≡ Some result }
    {
        let seed = self.seed;
        let mut key_row = [0; MOST_WORDS];
        let words = &mut key_row[..K::words()];
        key.pack(words);
        let full = seed.full_hash(words);
        self.parts[part_of_hash(self.parts.len(), full)].last_miss()
    }

    /// How many gets found something (memcached's `get_hits`), in all parts together, at most 2^64 - 1.
    pub fn hits(&self) -> u64
        ensures { result ≡ hits_of self.now.parts }
    {
        hits_in(&self.parts)
    }

    /// How many gets found nothing (memcached's `get_misses`), in all parts together, at most 2^64 - 1.
    pub fn misses(&self) -> u64
        ensures { result ≡ misses_of self.now.parts }
    {
        misses_in(&self.parts)
    }

    /// Its counts of bumps, as `Worker::counts` tells them: each over all parts, at most 2^64 - 1. In each part by
    /// itself accepted and dropped ones add up to those attempted.
    pub fn bumps(&self) -> Accounts
        ensures counts { result ≡ bumps_of self.now.parts }
        ensures add_up { All AddsUp self.now.parts }
    {
        bumps_in(&self.parts)
    }

    /// How many bumps of this reader's hits were dropped, since a ring of it had no room, other threads were faster, or
    /// the references to the item were at their limit (memcached's `lru_bumps_dropped`), at most 2^64 - 1.
    pub fn bumps_dropped(&self) -> u64
        ensures { result ≡ dropped_of (bumps_of self.now.parts) }
    {
        let counts = bumps_in(&self.parts);
        counts
            .full
            .saturating_add(counts.busy)
            .saturating_add(counts.refs)
    }
}

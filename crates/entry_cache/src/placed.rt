//! What a put came to.
ghost use Rattle.std.specs.Prelude.{◌≡◌};

use crate::kept::Kept;
use bump_cache::Put;
use std::marker::{Model, PhantomData};

/// What a put came to. It has the entry that was put, whose memory isn't given back while this lives, whatever is put, removed or
/// evicted meanwhile. Only a put makes one: `N` is the name of the cache in which it was.
#[derive(Drop)]
pub struct EntryPut<N, K, V> {
    place: u64,
    rows: Put<u64, u64>,
    kept: Kept<K, V>,
    // the cache in which it was put
    of: PhantomData<N>,
}

impl<N, K, V> Model for EntryPut<N, K, V> {
    ghost use Rattle.entry_cache.specs.Putting.{PutView};

    ghost Value = { PutView K V };

    ghost view = { λ p. record { place = p.place; rows = p.rows; entry = p.kept } };
}

impl<N, K: Drop, V: Drop> EntryPut<N, K, V> {
    pub(crate) fn new(place: u64, rows: Put<u64, u64>, kept: Kept<K, V>) -> EntryPut<N, K, V>
        ensures { result ≡ record { place = place; rows = rows; entry = kept } }
    {
        EntryPut {
            place,
            rows,
            kept,
            of: PhantomData,
        }
    }

    /// The place of the new entry among all, by which the cache's rows know it.
    pub fn place(&self) -> u64
        ensures { result ≡ self.now.place }
    {
        self.place
    }

    /// What the put of its row came to, by hashes and places: what the key's hash had before, and what was evicted. The entries of
    /// both are gone from the cache, and whoever has found one keeps it until they let go.
    pub fn rows(&self) -> Put<u64, u64>
        ensures { result ≡ self.now.rows }
    {
        self.rows
    }

    /// The key that the entry was put under.
    pub fn key(&self) -> &K
        ensures { result.now ≡ self.now.entry.key }
    {
        self.kept.key()
    }

    /// The value that was put.
    pub fn value(&self) -> &V
        ensures { result.now ≡ self.now.entry.value }
    {
        self.kept.value()
    }

    /// When the entry expires, in the caller's ticks: 0 is never.
    pub fn expires(&self) -> u64
        ensures { result ≡ self.now.entry.expires }
    {
        self.kept.expires()
    }
}

//! What a removal came to.
ghost use Rattle.std.specs.Prelude.{◌≡◌};

use crate::found::Found;
use crate::kept::Kept;
use crate::law::AnyEntry;
use crate::misses::EntryMiss;
use sharded_slab::Keeps;
use std::marker::Model;

/// What a removal came to. `N` is the name of the cache.
#[derive(Drop)]
pub struct Removed<'a, N, K: Drop, V: Drop, L: Keeps<Kept<K, V>> = AnyEntry> {
    place: Option<u64>,
    entry: Option<Found<'a, N, K, V, L>>,
    missed: EntryMiss,
}

impl<'a, N, K: Drop, V: Drop, L: Keeps<Kept<K, V>>> Model for Removed<'a, N, K, V, L> {
    ghost use Rattle.entry_cache.specs.Removing.{RemovedView};

    ghost Value = { RemovedView K V };

    ghost view = { λ r. record { place = r.place; entry = r.entry; missed = r.missed } };
}

impl<'a, N, K: Drop, V: Drop, L: Keeps<Kept<K, V>>> Removed<'a, N, K, V, L> {
    pub(crate) fn new(
        place: Option<u64>,
        found: Option<Found<'a, N, K, V, L>>,
        missed: EntryMiss,
    ) -> Removed<'a, N, K, V, L>
        ensures { result ≡ record { place = place; entry = found.entry; missed = missed } }
    {
        Removed {
            place,
            entry: found,
            missed,
        }
    }

    /// The place of what the key's hash had, if it had something. It is gone, also where it had expired, or was of another key.
    pub fn place(&self) -> Option<u64>
        ensures { result ≡ self.now.place }
    {
        self.place
    }

    /// Why no entry is told: `NoRow` where the hash had none, `Other` where the entry was of another key, and `Expired` where it had
    /// expired; `Gone` where so many read it that no more may, 2^30 - 1. It says nothing where one is told.
    pub fn missed(&self) -> EntryMiss
        ensures { result ≡ self.now.missed }
    {
        self.missed
    }

    /// The entry, if it was of this key and hadn't expired. It is gone from the cache, and its memory is given back when this and all
    /// others who found it let go.
    pub fn into_found(self) -> Option<Found<'a, N, K, V, L>>
        ensures { result ≡ self.entry.entry }
    {
        let Self {
            place: _,
            entry,
            missed: _,
        } = self;
        entry
    }
}

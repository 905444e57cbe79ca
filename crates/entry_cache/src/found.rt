//! An entry that was found.
ghost use Rattle.std.specs.Prelude.{◌≡◌, Some, IfSome, option_map};
ghost use Rattle.entry_cache.specs.Entries.{expires_in, key_in, value_in};

use crate::kept::Kept;
use crate::law::AnyEntry;
use sharded_slab::{Entry, Keeps};
use std::marker::{Model, PhantomData};
use std::ops::Deref;

/// An entry that a get found. It derefs to the value, which stays as it is, and where it is, while this lives, whatever is put,
/// removed or evicted meanwhile; its memory is given back when the last of those who have it lets go. It stays in its thread. `N` is the
/// name of the cache in which it was found.
#[derive(Drop)]
pub struct Found<'a, N, K: Drop, V: Drop, L: Keeps<Kept<K, V>> = AnyEntry> {
    entry: Entry<'a, Kept<K, V>, L>,
    // the cache in which it was found
    of: PhantomData<N>,
}

impl<'a, N, K: Drop, V: Drop, L: Keeps<Kept<K, V>>> Model for Found<'a, N, K, V, L> {
    ghost use Rattle.std.specs.Prelude.{◌≡◌, true, is_some, option_map};
    ghost use Rattle.entry_cache.specs.Entries.{FoundView, content};

    ghost Value = { FoundView K V };

    ghost view = { λ f. record {
      place = f.entry.spot.key;
      entry = option_map (λ slot. slot.value) (content f.entry.hand.value);
    } };

    ghost invariant = { λ f. is_some (content f.entry.hand.value) ≡ true };
}

impl<'a, N, K: Drop, V: Drop, L: Keeps<Kept<K, V>>> Found<'a, N, K, V, L> {
    pub(crate) fn new(entry: Entry<'a, Kept<K, V>, L>) -> Found<'a, N, K, V, L>
        ensures { result.place ≡ entry.entry.spot.key }
    {
        Found {
            entry,
            of: PhantomData,
        }
    }

    // The entry in place.
    pub(crate) fn kept(&self) -> &Kept<K, V>
        ensures entry { self.now.entry ≡ Some result.now }
        ensures law { ∥ L.holds self.now.place result.now ∥₁ }
    {
        self.entry.value()
    }

    /// The key that the entry was put under.
    pub fn key(&self) -> &K
        ensures { option_map key_in self.now.entry ≡ Some result.now }
    {
        self.kept().key()
    }

    /// The value.
    pub fn value(&self) -> &V
        ensures { option_map value_in self.now.entry ≡ Some result.now }
    {
        self.kept().value()
    }

    /// When the entry expires, in the caller's ticks: 0 is never.
    pub fn expires(&self) -> u64
        ensures { option_map expires_in self.now.entry ≡ Some result }
    {
        self.kept().expires()
    }

    /// Its place among all entries, by which the cache's rows know it.
    pub fn place(&self) -> u64
        ensures { result ≡ self.now.place }
    {
        self.entry.key() as u64
    }
}

impl<N, K: Drop, V: Drop, L: Keeps<Kept<K, V>>> Deref for Found<'_, N, K, V, L> {
    type Target = V;

    ghost use Rattle.std.specs.Prelude.{◌≡◌, Some, option_map};
    ghost use Rattle.entry_cache.specs.Entries.{value_in};

    ghost deref_gives = { λ found value. option_map value_in found.entry ≡ Some value };

    fn deref(&self) -> &V {
        self.value()
    }
}

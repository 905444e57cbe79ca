//! An entry, as it lies in memory.
ghost use Rattle.std.specs.Prelude.{◌≡◌, IfOk, IfErr};
ghost use Rattle.entry_cache.specs.Entries.{entry_view};

use crate::answers::{Refusal, Refused};
use std::alloc::{AllocError, Global};
use std::hint;
use std::marker::Model;
use std::sync::{Arc, Wait};

// What an entry has.
#[derive(Drop)]
pub(crate) struct Item<K, V> {
    pub(crate) key: K,
    pub(crate) value: V,
    pub(crate) expires: u64,
}

/// An entry, as a cache keeps it in memory of its own. A law speaks of it by its key, its value, and the time at which it expires.
#[derive(Drop)]
pub struct Kept<K, V> {
    item: Arc<Item<K, V>>,
}

impl<K, V> Model for Kept<K, V> {
    ghost use Rattle.std.specs.Arc.{arc_value};
    ghost use Rattle.entry_cache.specs.Entries.{EntryView, entry_view};

    ghost Value = { EntryView K V };

    ghost view = { λ k. entry_view (arc_value k.item).key (arc_value k.item).value (arc_value k.item).expires };
}

impl<K, V> Item<K, V> {
    // What a put of this comes to that was refused.
    pub(crate) fn refused(self, why: Refusal) -> Refused<K, V>
        ensures key { result.key ≡ self.key }
        ensures value { result.value ≡ self.value }
        ensures why { result.why ≡ why }
    {
        let Self {
            key,
            value,
            expires: _,
        } = self;
        Refused { key, value, why }
    }
}

impl<K: Drop, V: Drop> Kept<K, V> {
    // An entry in memory of its own, or what was to be one where there is none.
    pub(crate) fn new(alloc: Global, item: Item<K, V>) -> Result<Kept<K, V>, Item<K, V>>
        ensures made { IfOk result (λ kept. kept ≡ entry_view item.key item.value item.expires) }
        ensures back { IfErr result (λ back. back ≡ item) }
    {
        match Arc::new(alloc, item) {
            Ok(item) => Ok(Kept { item }),
            Err(refused) => Err(refused.value),
        }
    }

    // The same entry, once more. It is refused where 2^63 - 1 have it.
    pub(crate) fn again(&self) -> Result<Kept<K, V>, AllocError>
        ensures { IfOk result (λ kept. kept ≡ self.now) }
    {
        let item = Arc::try_clone(&self.item)?;
        Ok(Kept { item })
    }

    // What it has, once nobody else has it any more.
    pub(crate) fn take<W: Wait>(self, rt: &W) -> Item<K, V>
        ensures { entry_view result.key result.value result.expires ≡ self }
    {
        let mut shared = self.item;
        for _ in rt.forever() {
            match Arc::try_unwrap(shared) {
                Ok(item) => return item,
                Err(again) => {
                    shared = again;
                    hint::spin_loop();
                }
            }
        }
        unreachable!()
    }

    pub(crate) fn key(&self) -> &K
        ensures { result.now ≡ self.now.key }
    {
        &(*self.item).key
    }

    pub(crate) fn value(&self) -> &V
        ensures { result.now ≡ self.now.value }
    {
        &(*self.item).value
    }

    pub(crate) fn expires(&self) -> u64
        ensures { result ≡ self.now.expires }
    {
        (*self.item).expires
    }
}

//! A cache of entries with a limit in bytes.
ghost use Rattle.std.specs.Prelude.{◌≡◌, ◌+◌, ◌<◌, ◌≤◌, ◌/◌, ◌++◌, ◌∷◌, [], IfOk, IfErr, IfSome, vec_len};
ghost use Rattle.std.specs.Vec.{vec_capacity};
ghost use Rattle.bump_cache.specs.Caches.{part_in};
ghost use Rattle.entry_cache.specs.Asking.{hash_by};
ghost use Rattle.entry_cache.specs.Entries.{entry_view};
ghost use Rattle.entry_cache.specs.Looking.{one_word};
ghost use Rattle.entry_cache.specs.Weighing.{EvictsRows, PutsWithin, RefusesWithin, most_weight, own_weight};

use crate::answers::Refusal;
use crate::caches::EntryCache;
use crate::kept::Kept;
use crate::law::AnyEntry;
use crate::too_much::{RefusedWeighed, TooMuch, WeighedPut};
use crate::weighing::{Weighs, weight_of};
use crate::weights::{Scale, Weighed, Weight};
use bump_cache::{CacheState, Caller, Evicted, LogName, Name};
use sharded_slab::Keeps;
use std::alloc::{AllocError, Global};
use std::hash::Hash;
use std::marker::Model;
use std::sync::Wait;

/// A cache of entries with a limit in bytes, which all threads share: each put says what its entry weighs, and evicts until that fits.
/// Each part has an even share of the limit. What an entry weighs counts while it is in memory: so also while it was evicted, and a
/// `Found` or the answer of its put still has it.
#[derive(Drop)]
pub struct WeighedCache<
    N: Name + LogName,
    K: Drop,
    V: Drop,
    L: Keeps<Kept<K, Weighed<V>>> = AnyEntry,
> {
    entries: EntryCache<N, K, Weighed<V>, L>,
    // of each part, by number
    scales: Vec<Scale>,
    // how much those of a part may weigh together
    share: u64,
    alloc: Global,
}

impl<N: Name + LogName, K: Drop, V: Drop, L: Keeps<Kept<K, Weighed<V>>>> Model
    for WeighedCache<N, K, V, L> {
    ghost use Rattle.std.specs.Prelude.{◌≡◌, vec_len};
    ghost use Rattle.entry_cache.specs.Weighing.{WeighedView};

    ghost Value = { WeighedView };

    ghost view = { λ c. record { entries = c.entries; share = c.share } };

    ghost invariant = { λ c. vec_len c.scales ≡ c.entries.parts };
}

// A scale for each part.
fn make_scales(alloc: Global, parts: u32) -> Result<Vec<Scale>, AllocError>
    ensures { IfOk result (λ scales. vec_len scales ≡ parts) }
{
    let mut scales = Vec::with_capacity(alloc, parts as usize)?;
    for _ in 0..parts {
        scales.push(Scale::new(alloc)?)?;
    }
    Ok(scales)
}

// Makes room in a row's notes for one more.
fn make_note_room(evicted: &mut Vec<Evicted<u64, u64>>) -> Result<(), TooMuch>
    ensures same { evicted.new.items ≡ evicted.old.items }
    ensures room { IfOk result (λ _. vec_len evicted.new < vec_capacity evicted.new) }
    ensures memory { IfErr result (λ why. why ≡ TooMuch.Entry Refusal.Memory) }
{
    match evicted.reserve(1) {
        Ok(()) => Ok(()),
        Err(_) => Err(TooMuch::Entry(Refusal::Memory)),
    }
}

// Notes a row, for which there is room.
fn note(evicted: &mut Vec<Evicted<u64, u64>>, row: Evicted<u64, u64>)
    requires { vec_len evicted.old < vec_capacity evicted.old }
    ensures { evicted.new.items ≡ evicted.old.items ++ row ∷ [] }
{
    match evicted.push(row) {
        Ok(()) => {}
        Err(_) => unreachable!(),
    }
}

impl<N: Name + LogName, K: Drop, V: Drop, L: Keeps<Kept<K, Weighed<V>>>> WeighedCache<N, K, V, L> {
    /// Gives a cache of entries that was opened a limit in bytes, of which each part has an even share, rounded down. It is refused
    /// only for want of memory, and the cache is gone then.
    pub fn new(
        alloc: Global,
        entries: EntryCache<N, K, Weighed<V>, L>,
        limit: u64,
    ) -> Result<WeighedCache<N, K, V, L>, AllocError>
        ensures { IfOk result (λ cache. cache ≡ record { entries = entries; share = limit / entries.parts }) }
    {
        let parts = entries.parts();
        let scales = make_scales(alloc, parts)?;
        let share = limit / u64::from(parts);
        Ok(WeighedCache {
            entries,
            scales,
            share,
            alloc,
        })
    }

    /// The entries: readers take them, and all calls but puts are theirs, as `remove`.
    pub fn entries(&self) -> &EntryCache<N, K, Weighed<V>, L>
        ensures { result.now ≡ self.now.entries }
    {
        &self.entries
    }

    /// How many bytes the entries of a part may weigh together.
    pub fn share(&self) -> u64
        ensures { result ≡ self.now.share }
    {
        self.share
    }

    /// How many bytes the entries of a part weigh together now that are in memory, as other threads may change at once: so no contract
    /// says it. 0 where there is no part of this number.
    pub fn bytes(&self, part: u32) -> u64 {
        self.scales
            .get(part as usize)
            .map_or(0, |scale| scale.bytes())
    }

    // Makes room for an entry of this hash that weighs so much.
    fn make_room<W: Wait>(
        &self,
        rt: &W,
        me: &mut Caller<N, CacheState>,
        hash: u64,
        weight: u64,
        now: u64,
        evicted: &mut Vec<Evicted<u64, u64>>,
    ) -> Result<Weight, TooMuch>
        requires part { 0 < me.old.parts }
        requires none { evicted.old.items ≡ [] }
        ensures light { IfOk result (λ _. weight ≤ most_weight self.now.share) }
        ensures evicts { IfOk result (λ _. EvictsRows (part_in self.now.entries (one_word hash)) now evicted.new.items me.old
            me.new) }
        ensures refuses { IfErr result (λ why. RefusesWithin self.now hash weight now evicted.new.items why me.old me.new) }
        ensures parts { me.new.parts ≡ me.old.parts }
    {
        if weight > self.share / 8 {
            return Err(TooMuch::TooHeavy);
        }
        let part = self.entries.part_of_hash(hash);
        let Ok(scale) = self.scales[part as usize].again() else {
            return Err(TooMuch::Entry(Refusal::Memory));
        };
        for _ in rt.forever() {
            if scale.add(rt, weight, self.share) {
                return Ok(Weight::new(weight, scale));
            }
            make_note_room(evicted)?;
            let Some(row) = self.entries.evict(rt, me, part, now) else {
                return Err(TooMuch::NoBytes);
            };
            note(evicted, row);
        }
        unreachable!()
    }

    /// Puts a value under a key that never expires: `put_until` with 0.
    pub fn put<W: Wait>(
        &self,
        rt: &W,
        me: &mut Caller<N, CacheState>,
        key: K,
        value: V,
        weight: u64,
        now: u64,
    ) -> Result<WeighedPut<N, K, V>, RefusedWeighed<K, V>>
    where
        K: Hash,
        requires part { 0 < me.old.parts }
        requires law { (place : _) → L.holds place (entry_view key value 0) }
        ensures light { IfOk result (λ did. weight ≤ most_weight self.now.share) }
        ensures puts { IfOk result (λ did. PutsWithin self.now.entries (hash_by self.now.entries.seed (K.hash_input key))
            did.put.place now did.evicted.items did.put.rows me.old me.new) }
        ensures entry { IfOk result (λ did. did.put.entry ≡ entry_view key value 0) }
        ensures refuses { IfErr result (λ it. RefusesWithin self.now (hash_by self.now.entries.seed (K.hash_input key)) weight
            now it.evicted.items it.why me.old me.new) }
        ensures key { IfErr result (λ it. it.key ≡ key) }
        ensures value { IfErr result (λ it. it.value ≡ value) }
        ensures parts { me.new.parts ≡ me.old.parts }
    {
        self.put_until(rt, me, key, value, weight, 0, now)
    }

    /// Puts a value under a key until a time, 0 for never, where the entry weighs what `weight_of` says of it: `put_until` with that
    /// weight.
    pub fn put_sized<W: Wait>(
        &self,
        rt: &W,
        me: &mut Caller<N, CacheState>,
        key: K,
        value: V,
        expires: u64,
        now: u64,
    ) -> Result<WeighedPut<N, K, V>, RefusedWeighed<K, V>>
    where
        K: Hash + Weighs,
        V: Weighs,
        requires part { 0 < me.old.parts }
        requires law { (place : _) → L.holds place (entry_view key value expires) }
        ensures light { IfOk result (λ did. own_weight (K.weight key) (V.weight value) ≤ most_weight self.now.share) }
        ensures puts { IfOk result (λ did. PutsWithin self.now.entries (hash_by self.now.entries.seed (K.hash_input key))
            did.put.place now did.evicted.items did.put.rows me.old me.new) }
        ensures entry { IfOk result (λ did. did.put.entry ≡ entry_view key value expires) }
        ensures refuses { IfErr result (λ it. RefusesWithin self.now (hash_by self.now.entries.seed (K.hash_input key))
            (own_weight (K.weight key) (V.weight value)) now it.evicted.items it.why me.old me.new) }
        ensures key { IfErr result (λ it. it.key ≡ key) }
        ensures value { IfErr result (λ it. it.value ≡ value) }
        ensures parts { me.new.parts ≡ me.old.parts }
    {
        let weight = weight_of(&key, &value);
        self.put_until(rt, me, key, value, weight, expires, now)
    }

    /// Puts a value under a key until a time, as `EntryCache::put_until` does, where its entry weighs so many bytes: as a rule what key
    /// and value take in memory, with what they own, as `weight_of` says.
    ///
    /// First it makes room: while the entries of the key's part that are in memory weigh so much that this one doesn't fit into the
    /// part's share it evicts the row whose turn it is, as `EntryCache::evict`, by one call each. The key's own old entry is one of
    /// those that count. Then it puts, and tells what was evicted.
    ///
    /// It is refused as TooHeavy exactly where it weighs more than an eighth of a part's share, rounded down; as NoBytes exactly where
    /// the part has no row any more and it still doesn't fit, since readers or answers of puts have entries in memory; and as Entry
    /// where a put of the entry is. Key and value come back then, and what was evicted all the same is told.
    pub fn put_until<W: Wait>(
        &self,
        rt: &W,
        me: &mut Caller<N, CacheState>,
        key: K,
        value: V,
        weight: u64,
        expires: u64,
        now: u64,
    ) -> Result<WeighedPut<N, K, V>, RefusedWeighed<K, V>>
    where
        K: Hash,
        requires part { 0 < me.old.parts }
        requires law { (place : _) → L.holds place (entry_view key value expires) }
        ensures light { IfOk result (λ did. weight ≤ most_weight self.now.share) }
        ensures puts { IfOk result (λ did. PutsWithin self.now.entries (hash_by self.now.entries.seed (K.hash_input key))
            did.put.place now did.evicted.items did.put.rows me.old me.new) }
        ensures entry { IfOk result (λ did. did.put.entry ≡ entry_view key value expires) }
        ensures refuses { IfErr result (λ it. RefusesWithin self.now (hash_by self.now.entries.seed (K.hash_input key)) weight
            now it.evicted.items it.why me.old me.new) }
        ensures key { IfErr result (λ it. it.key ≡ key) }
        ensures value { IfErr result (λ it. it.value ≡ value) }
        ensures parts { me.new.parts ≡ me.old.parts }
    {
        let hash = self.entries.hash_of_asked(&key);
        let mut evicted = Vec::new(self.alloc);
        let weight = match self.make_room(rt, me, hash, weight, now, &mut evicted) {
            Ok(weight) => weight,
            Err(why) => {
                return Err(RefusedWeighed {
                    key,
                    value,
                    why,
                    evicted,
                });
            }
        };
        let value = Weighed::new(value, weight);
        match self
            .entries
            .put_hashed(rt, me, hash, key, value, expires, now)
        {
            Ok(put) => Ok(WeighedPut { put, evicted }),
            Err(it) => Err(RefusedWeighed {
                key: it.key,
                value: it.value.into_value(),
                why: TooMuch::Entry(it.why),
                evicted,
            }),
        }
    }
}

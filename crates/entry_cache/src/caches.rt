//! A cache of entries that threads share.
ghost use Rattle.std.specs.Prelude.{◌≡◌, ◌+◌, ◌<◌, ◌≤◌, IfOk, IfErr, IfNone, IfSome, IsSomeAnd, None, Some};
ghost use Rattle.call_log.specs.Calls.{OnlyLooks};
ghost use Rattle.bump_cache.specs.Caches.{part_in};
ghost use Rattle.bump_cache.specs.Ending.{EvictsOfPart};
ghost use Rattle.bump_cache.specs.Tending.{SumsUpParts, TendsParts};
ghost use Rattle.entry_cache.specs.Asking.{hash_by};
ghost use Rattle.entry_cache.specs.Entries.{IsAsked, entry_view};
ghost use Rattle.entry_cache.specs.Looking.{one_word};
ghost use Rattle.entry_cache.specs.Putting.{PutsEntry, RefusesBy, RemovesEntry};
ghost use Rattle.entry_cache.specs.Removing.{TellsLack};

use crate::answers::{Refusal, Refused};
use crate::asking::{Asks, hash_of};
use crate::entries::{Entries, Stored};
use crate::kept::{Item, Kept};
use crate::law::AnyEntry;
use crate::misses::EntryMiss;
use crate::placed::EntryPut;
use crate::removed::Removed;
use bump_cache::{Cache, CacheState, Caller, Evicted, LogName, Name, Stats};
use keyed_hash::Seed;
use sharded_slab::Keeps;
use std::hash::Hash;
use std::marker::Model;
use std::sync::Wait;

/// A cache of entries, which all threads share. Its rows, which a `bump_cache::Cache` has, lead from the hash of a key to the place of
/// an entry; and a slab has the entries by their places. As there each thread that changes it has a `Caller` of its own.
#[derive(Drop)]
pub struct EntryCache<N: Name + LogName, K: Drop, V: Drop, L: Keeps<Kept<K, V>> = AnyEntry> {
    pub(crate) rows: Cache<N, u64, u64>,
    pub(crate) entries: Entries<K, V, L>,
    // that of the rows
    pub(crate) seed: Seed,
}

impl<N: Name + LogName, K: Drop, V: Drop, L: Keeps<Kept<K, V>>> Model for EntryCache<N, K, V, L> {
    ghost use Rattle.std.specs.Prelude.{◌≡◌};
    ghost use Rattle.bump_cache.specs.Caches.{CacheView};

    ghost Value = { CacheView };

    ghost view = { λ c. c.rows };

    ghost invariant = { λ c. c.seed ≡ c.rows.seed };
}

impl<N: Name + LogName, K: Drop, V: Drop, L: Keeps<Kept<K, V>>> EntryCache<N, K, V, L> {
    /// How many parts there are, 1 to 256.
    pub fn parts(&self) -> u32
        ensures { result ≡ self.now.parts }
    {
        self.rows.parts()
    }

    // The hash of what asks for an entry.
    pub(crate) fn hash_of_asked<Q: Hash>(&self, asked: &Q) -> u64
        ensures { result ≡ hash_by self.now.seed (Q.hash_input asked.now) }
    {
        hash_of(self.seed, asked)
    }

    // The part of a hash.
    pub(crate) fn part_of_hash(&self, hash: u64) -> u32
        ensures part { result ≡ part_in self.now (one_word hash) }
        ensures within { result < self.now.parts }
    {
        self.rows.part_of(&hash)
    }

    /// The part of the key that is asked for, by number.
    pub fn part_of<Q: Asks<K>>(&self, asked: Q) -> u32
    where
        K: Hash,
        ensures part { result ≡ part_in self.now (one_word (hash_by self.now.seed (Q.hash_input asked))) }
        ensures within { result < self.now.parts }
    {
        self.part_of_hash(self.hash_of_asked(&asked))
    }

    // Lets the entries of rows go that ended.
    fn forget(&self, old: Option<u64>, evicted: Option<Evicted<u64, u64>>) {
        if let Some(place) = old {
            self.entries.remove(place);
        }
        if let Some(row) = evicted {
            self.entries.remove(row.value);
        }
    }

    /// Puts a value under a key that never expires: `put_until` with 0.
    pub fn put<W: Wait>(
        &self,
        rt: &W,
        me: &mut Caller<N, CacheState>,
        key: K,
        value: V,
        now: u64,
    ) -> Result<EntryPut<N, K, V>, Refused<K, V>>
    where
        K: Hash,
        requires part { 0 < me.old.parts }
        requires law { (place : _) → L.holds place (entry_view key value 0) }
        ensures puts { IfOk result (λ did. PutsEntry self.now (hash_by self.now.seed (K.hash_input key)) did.place now
            did.rows me.old me.new) }
        ensures entry { IfOk result (λ did. did.entry ≡ entry_view key value 0) }
        ensures refuses { IfErr result (λ it. RefusesBy self.now (hash_by self.now.seed (K.hash_input key)) now it.why me.old
            me.new) }
        ensures key { IfErr result (λ it. it.key ≡ key) }
        ensures value { IfErr result (λ it. it.value ≡ value) }
        ensures parts { me.new.parts ≡ me.old.parts }
    {
        self.put_until(rt, me, key, value, 0, now)
    }

    /// Puts a value under a key until a time. From `expires` on no get finds it any more, and 0 is never; where `expires` isn't behind
    /// `now` it has expired at once, and is put all the same. Times are in the caller's ticks, which all calls count alike.
    ///
    /// The entry is made first, in memory of its own; then its row is put, as `bump_cache::Cache::put` does, and waits as that. What the
    /// key's hash had, and what was evicted, is gone then; its memory is given back when the last reader that found it lets go. Who
    /// finds the key meanwhile finds the old entry or the new one. The answer has the entry that was put, so its memory stays while
    /// the answer lives. It is refused as Memory for want of memory, and as NoRoom where the row is; key and value come back then.
    pub fn put_until<W: Wait>(
        &self,
        rt: &W,
        me: &mut Caller<N, CacheState>,
        key: K,
        value: V,
        expires: u64,
        now: u64,
    ) -> Result<EntryPut<N, K, V>, Refused<K, V>>
    where
        K: Hash,
        requires part { 0 < me.old.parts }
        requires law { (place : _) → L.holds place (entry_view key value expires) }
        ensures puts { IfOk result (λ did. PutsEntry self.now (hash_by self.now.seed (K.hash_input key)) did.place now
            did.rows me.old me.new) }
        ensures entry { IfOk result (λ did. did.entry ≡ entry_view key value expires) }
        ensures refuses { IfErr result (λ it. RefusesBy self.now (hash_by self.now.seed (K.hash_input key)) now it.why me.old
            me.new) }
        ensures key { IfErr result (λ it. it.key ≡ key) }
        ensures value { IfErr result (λ it. it.value ≡ value) }
        ensures parts { me.new.parts ≡ me.old.parts }
    {
        let hash = hash_of(self.seed, &key);
        self.put_hashed(rt, me, hash, key, value, expires, now)
    }

    // Puts a value under a key that has this hash.
    pub(crate) fn put_hashed<W: Wait>(
        &self,
        rt: &W,
        me: &mut Caller<N, CacheState>,
        hash: u64,
        key: K,
        value: V,
        expires: u64,
        now: u64,
    ) -> Result<EntryPut<N, K, V>, Refused<K, V>>
        requires part { 0 < me.old.parts }
        requires law { (place : _) → L.holds place (entry_view key value expires) }
        ensures puts { IfOk result (λ did. PutsEntry self.now hash did.place now did.rows me.old me.new) }
        ensures entry { IfOk result (λ did. did.entry ≡ entry_view key value expires) }
        ensures refuses { IfErr result (λ it. RefusesBy self.now hash now it.why me.old me.new) }
        ensures key { IfErr result (λ it. it.key ≡ key) }
        ensures value { IfErr result (λ it. it.value ≡ value) }
        ensures parts { me.new.parts ≡ me.old.parts }
    {
        let item = Item {
            key,
            value,
            expires,
        };
        match self.entries.store(rt, hash, item) {
            Ok(stored) => self.put_row(rt, me, hash, stored, now),
            Err(item) => Err(item.refused(Refusal::Memory)),
        }
    }

    // Puts the row of an entry that is stored.
    fn put_row<W: Wait>(
        &self,
        rt: &W,
        me: &mut Caller<N, CacheState>,
        hash: u64,
        stored: Stored<K, V>,
        now: u64,
    ) -> Result<EntryPut<N, K, V>, Refused<K, V>>
        requires part { 0 < me.old.parts }
        ensures puts { IfOk result (λ did. PutsEntry self.now hash did.place now did.rows me.old me.new) }
        ensures entry { IfOk result (λ did. did.entry ≡ stored.kept) }
        ensures refuses { IfErr result (λ it. RefusesBy self.now hash now it.why me.old me.new) }
        ensures key { IfErr result (λ it. it.key ≡ stored.kept.key) }
        ensures value { IfErr result (λ it. it.value ≡ stored.kept.value) }
        ensures parts { me.new.parts ≡ me.old.parts }
    {
        let Stored { place, kept } = stored;
        match self.rows.put(rt, me, &hash, &place, now) {
            Ok(rows) => {
                self.forget(rows.old, rows.evicted);
                Ok(EntryPut::new(place, rows, kept))
            }
            Err(why) => {
                self.forget(Some(place), why.evicted);
                Err(kept.take(rt).refused(Refusal::NoRoom(why)))
            }
        }
    }

    /// Ends the entry of a key, and tells it where it hasn't expired at `now`, in the caller's ticks. One that has ends as well, and
    /// isn't told; nor is the entry of another key with the same hash, which ends, too. It waits until no other thread changes the
    /// key's part.
    pub fn remove<Q: Asks<K>, W: Wait>(
        &self,
        rt: &W,
        me: &mut Caller<N, CacheState>,
        asked: Q,
        now: u64,
    ) -> Removed<'_, N, K, V, L>
    where
        K: Hash,
        requires part { 0 < me.old.parts }
        ensures removes { RemovesEntry self.now (hash_by self.now.seed (Q.hash_input asked)) now result.place me.old me.new }
        ensures place { IfSome result.entry (λ it. result.place ≡ Some it.place) }
        ensures asked { IfSome result.entry (λ it. IsSomeAnd it.entry (IsAsked (Q.asks asked) now)) }
        ensures law { IfSome result.entry (λ it. IsSomeAnd it.entry (λ entry. ∥ L.holds it.place entry ∥₁)) }
        ensures lack { IfNone result.entry (TellsLack L.holds (Q.asks asked) now result.place result.missed) }
        ensures parts { me.new.parts ≡ me.old.parts }
    {
        let hash = hash_of(self.seed, &asked);
        let Some(place) = self.rows.remove(rt, me, &hash, now) else {
            return Removed::new(None, None, EntryMiss::NoRow);
        };
        let entry = self.entries.at(place, &asked, now);
        self.entries.remove(place);
        match entry {
            Ok(Some(found)) => Removed::new(Some(place), Some(found), EntryMiss::NoRow),
            Ok(None) => Removed::new(Some(place), None, EntryMiss::Gone),
            Err(why) => Removed::new(Some(place), None, why),
        }
    }

    /// Evicts the entry of a part whose turn it is, as `bump_cache::Cache::evict` does, and tells its hash and its place. It is gone
    /// from the cache, and whoever has found it keeps it until they let go. Parts are numbered from 0, and `part_of` tells a key's.
    ///
    /// It answers None exactly where the part has no entry, also none that has expired, and then nothing changes; or where there is no
    /// part of this number, and then it is no call. It waits until no other thread changes the part.
    pub fn evict<W: Wait>(
        &self,
        rt: &W,
        me: &mut Caller<N, CacheState>,
        part: u32,
        now: u64,
    ) -> Option<Evicted<u64, u64>>
        requires part { 0 < me.old.parts }
        ensures absent { self.now.parts ≤ part → (result ≡ None) × (me.new ≡ me.old) }
        ensures evicts { part < self.now.parts → EvictsOfPart one_word one_word part now result me.old me.new }
    {
        let told = self.rows.evict(rt, me, part, now);
        self.forget(None, told);
        told
    }

    /// Applies bumps that wait, frees chunks of rows that ended, and balances, in each part in turn, as `bump_cache::Cache::tend`.
    /// It looks at no entry: those that have expired stay until a put or a removal of their key, or until they are evicted.
    pub fn tend<W: Wait>(&self, rt: &W, me: &mut Caller<N, CacheState>, now: u64)
        requires part { 0 < me.old.parts }
        ensures tends { TendsParts self.now.parts now me.old me.new }
        ensures calls { me.new.calls ≡ me.old.calls + self.now.parts }
        ensures parts { me.new.parts ≡ me.old.parts }
    {
        self.rows.tend(rt, me, now);
    }

    /// The statistics of the rows, as `bump_cache::Cache::stats`.
    pub fn stats<W: Wait>(&self, rt: &W, me: &mut Caller<N, CacheState>) -> Stats
        ensures look { OnlyLooks me.old me.new }
        ensures stats { SumsUpParts self.now.parts me.old me.new result }
    {
        self.rows.stats(rt, me)
    }
}

//! A cache of entries with a limit in bytes, as a caller calls it.
ghost use Rattle.std.specs.Prelude.{◌≡◌, ◌<◌, ◌≤◌, IfErr, IfOk};
ghost use Rattle.entry_cache.specs.Asking.{hash_by};
ghost use Rattle.entry_cache.specs.Entries.{entry_view};
ghost use Rattle.entry_cache.specs.Weighing.{PutsWithin, RefusesWithin, most_weight, own_weight};

use entry_cache::{
    CacheState, Caller, Keeps, Kept, LogName, Name, RefusedWeighed, TooMuch, Weighed, WeighedCache,
    WeighedPut, Weighs,
};
use std::alloc::Global;
use std::hash::Hash;
use std::sync::Wait;

/// Puts a value under a key until a time, within the limit.
pub fn put_until<
    N: Name + LogName,
    K: Hash + Drop,
    V: Drop,
    L: Keeps<Kept<K, Weighed<V>>>,
    W: Wait,
>(
    cache: &WeighedCache<N, K, V, L>,
    rt: &W,
    me: &mut Caller<N, CacheState>,
    key: K,
    value: V,
    weight: u64,
    expires: u64,
    now: u64,
    _alloc: Global,
) -> Result<WeighedPut<N, K, V>, RefusedWeighed<K, V>>
    requires part { 0 < me.old.parts }
    requires law { (place : _) (expires : _) → L.holds place (entry_view key value expires) }
    ensures light { IfOk result (λ did. weight ≤ most_weight cache.now.share) }
    ensures puts { IfOk result (λ did. PutsWithin cache.now.entries (hash_by cache.now.entries.seed (K.hash_input key))
        did.put.place now did.evicted.items did.put.rows me.old me.new) }
    ensures entry { IfOk result (λ did. did.put.entry ≡ entry_view key value expires) }
    ensures refuses { IfErr result (λ it. RefusesWithin cache.now (hash_by cache.now.entries.seed (K.hash_input key)) weight
        now it.evicted.items it.why me.old me.new) }
    ensures key { IfErr result (λ it. it.key ≡ key) }
    ensures value { IfErr result (λ it. it.value ≡ value) }
    ensures parts { me.new.parts ≡ me.old.parts }
{
    cache.put_until(rt, me, key, value, weight, expires, now)
}

/// Puts a value under a key until a time, within the limit, where the entry weighs what it does by itself.
pub fn put_sized<
    N: Name + LogName,
    K: Hash + Weighs + Drop,
    V: Weighs + Drop,
    L: Keeps<Kept<K, Weighed<V>>>,
    W: Wait,
>(
    cache: &WeighedCache<N, K, V, L>,
    rt: &W,
    me: &mut Caller<N, CacheState>,
    key: K,
    value: V,
    expires: u64,
    now: u64,
) -> Result<WeighedPut<N, K, V>, RefusedWeighed<K, V>>
    requires part { 0 < me.old.parts }
    requires law { (place : _) → L.holds place (entry_view key value expires) }
    ensures light { IfOk result (λ did. own_weight (K.weight key) (V.weight value) ≤ most_weight cache.now.share) }
    ensures puts { IfOk result (λ did. PutsWithin cache.now.entries (hash_by cache.now.entries.seed (K.hash_input key))
        did.put.place now did.evicted.items did.put.rows me.old me.new) }
    ensures entry { IfOk result (λ did. did.put.entry ≡ entry_view key value expires) }
    ensures refuses { IfErr result (λ it. RefusesWithin cache.now (hash_by cache.now.entries.seed (K.hash_input key))
        (own_weight (K.weight key) (V.weight value)) now it.evicted.items it.why me.old me.new) }
    ensures key { IfErr result (λ it. it.key ≡ key) }
    ensures value { IfErr result (λ it. it.value ≡ value) }
    ensures parts { me.new.parts ≡ me.old.parts }
{
    cache.put_sized(rt, me, key, value, expires, now)
}

/// What an entry weighs by itself.
pub fn weight_of<K: Weighs, V: Weighs>(key: &K, value: &V) -> u64
    ensures { result ≡ own_weight (K.weight key.now) (V.weight value.now) }
{
    entry_cache::weight_of(key, value)
}

//! A cache of entries, as a caller calls it.
ghost use Rattle.std.specs.Prelude.{◌≡◌, ◌+◌, ◌<◌, ◌≤◌, IfErr, IfNone, IfOk, IfSome, IsSomeAnd, None, Some};
ghost use Rattle.bump_cache.specs.Ending.{EvictsOfPart};
ghost use Rattle.bump_cache.specs.Tending.{SumsUpParts, TendsParts};
ghost use Rattle.call_log.specs.Calls.{OnlyLooks};
ghost use Rattle.entry_cache.specs.Asking.{hash_by};
ghost use Rattle.entry_cache.specs.Entries.{IsAsked, entry_view};
ghost use Rattle.entry_cache.specs.Looking.{one_word};
ghost use Rattle.entry_cache.specs.Putting.{PutsEntry, RefusesBy, RemovesEntry};
ghost use Rattle.entry_cache.specs.Removing.{TellsLack};

use entry_cache::{
    Asks, CacheState, Caller, EntryCache, EntryPut, Evicted, Keeps, Kept, LogName, Name, Refusal,
    Refused, Removed, Stats,
};
use std::hash::Hash;
use std::sync::Wait;

/// Puts a value under a key until a time. The law holds of all values, so that a lie can put another one.
pub fn put_until<N: Name + LogName, K: Hash + Drop, V: Drop, L: Keeps<Kept<K, V>>, W: Wait>(
    cache: &EntryCache<N, K, V, L>,
    rt: &W,
    me: &mut Caller<N, CacheState>,
    key: K,
    value: V,
    _other: V,
    expires: u64,
    now: u64,
) -> Result<EntryPut<N, K, V>, Refused<K, V>>
    requires part { 0 < me.old.parts }
    requires law { (place : _) (value : V) (expires : _) → L.holds place (entry_view key value expires) }
    ensures puts { IfOk result (λ did. PutsEntry cache.now (hash_by cache.now.seed (K.hash_input key)) did.place now
        did.rows me.old me.new) }
    ensures entry { IfOk result (λ did. did.entry ≡ entry_view key value expires) }
    ensures refuses { IfErr result (λ it. RefusesBy cache.now (hash_by cache.now.seed (K.hash_input key)) now it.why me.old
        me.new) }
    ensures key { IfErr result (λ it. it.key ≡ key) }
    ensures value { IfErr result (λ it. it.value ≡ value) }
    ensures parts { me.new.parts ≡ me.old.parts }
{
    cache.put_until(rt, me, key, value, expires, now)
}

/// Ends an entry.
pub fn remove<
    'a,
    N: Name + LogName,
    K: Hash + Drop,
    V: Drop,
    L: Keeps<Kept<K, V>>,
    Q: Asks<K>,
    W: Wait,
>(
    cache: &'a EntryCache<N, K, V, L>,
    rt: &W,
    me: &mut Caller<N, CacheState>,
    asked: Q,
    _other: Q,
    now: u64,
) -> Removed<'a, N, K, V, L>
    requires part { 0 < me.old.parts }
    ensures removes { RemovesEntry cache.now (hash_by cache.now.seed (Q.hash_input asked)) now result.place me.old me.new }
    ensures place { IfSome result.entry (λ it. result.place ≡ Some it.place) }
    ensures asked { IfSome result.entry (λ it. IsSomeAnd it.entry (IsAsked (Q.asks asked) now)) }
    ensures law { IfSome result.entry (λ it. IsSomeAnd it.entry (λ entry. ∥ L.holds it.place entry ∥₁)) }
    ensures lack { IfNone result.entry (TellsLack L.holds (Q.asks asked) now result.place result.missed) }
    ensures parts { me.new.parts ≡ me.old.parts }
{
    cache.remove(rt, me, asked, now)
}

/// Evicts the entry of a part whose turn it is.
pub fn evict<N: Name + LogName, K: Drop, V: Drop, L: Keeps<Kept<K, V>>, W: Wait>(
    cache: &EntryCache<N, K, V, L>,
    rt: &W,
    me: &mut Caller<N, CacheState>,
    part: u32,
    now: u64,
) -> Option<Evicted<u64, u64>>
    requires part { 0 < me.old.parts }
    ensures absent { cache.now.parts ≤ part → (result ≡ None) × (me.new ≡ me.old) }
    ensures evicts { part < cache.now.parts → EvictsOfPart one_word one_word part now result me.old me.new }
{
    cache.evict(rt, me, part, now)
}

/// Tends all parts.
pub fn tend<N: Name + LogName, K: Drop, V: Drop, L: Keeps<Kept<K, V>>, W: Wait>(
    cache: &EntryCache<N, K, V, L>,
    rt: &W,
    me: &mut Caller<N, CacheState>,
    now: u64,
)
    requires part { 0 < me.old.parts }
    ensures tends { TendsParts cache.now.parts now me.old me.new }
    ensures calls { me.new.calls ≡ me.old.calls + cache.now.parts }
    ensures parts { me.new.parts ≡ me.old.parts }
{
    cache.tend(rt, me, now);
}

/// The statistics of all parts.
pub fn stats<N: Name + LogName, K: Drop, V: Drop, L: Keeps<Kept<K, V>>, W: Wait>(
    cache: &EntryCache<N, K, V, L>,
    rt: &W,
    me: &mut Caller<N, CacheState>,
) -> Stats
    ensures look { OnlyLooks me.old me.new }
    ensures stats { SumsUpParts cache.now.parts me.old me.new result }
{
    cache.stats(rt, me)
}

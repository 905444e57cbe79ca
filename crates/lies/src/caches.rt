//! A cache, as a caller calls it.
ghost use Rattle.bump_cache.specs.Caches.{part_in};
ghost use Rattle.bump_cache.specs.Changing.{Adds, CallsOnHad, ChangesWhereSome, GetsOrPuts, IfGot, RefusesAnew, RefusesNew, ReplacesWhereSome, TellsFound, TouchesWhereSome};
ghost use Rattle.bump_cache.specs.Ending.{EvictsOfPart, TakesOfPart};
ghost use Rattle.bump_cache.specs.Putting.{PutsValue, RefusesValue, RemovesValue};
ghost use Rattle.bump_cache.specs.Retaining.{AsksOfPart};
ghost use Rattle.bump_cache.specs.Setting.{PutsWords, RefusesWords};
ghost use Rattle.bump_cache.specs.States.{from_of, part_called, to_of, now_of};
ghost use Rattle.bump_cache.specs.Tending.{SumsUpParts, TendsParts, TendsUntilOver};
ghost use Rattle.bump_cache.specs.Visiting.{VisitsParts};
ghost use Rattle.cache_part.specs.Stats.{stats_of as stats_of_part};
ghost use Rattle.cache_shelf.specs.Shelves.{with_put};
ghost use Rattle.call_log.specs.Calls.{MakesOne, OnlyLooks};
ghost use Rattle.std.specs.Fn.{CalledAt};
ghost use Rattle.std.specs.Prelude.{◌≡◌, ◌+◌, ◌<◌, ◌≤◌, ◌↔◌, IfSome, IfOk, IfErr, None, IfNone, IsNone};

use bump_cache::{
    Added, Cache, CacheState, Caller, Evicted, Full, GotOrPut, Item, LogName, Name, NoRoom, Packed,
    Put, Retained, Stats,
};
use std::sync::Wait;

/// How many parts there are.
pub fn parts<N: Name + LogName, K: Packed, V: Packed>(cache: &Cache<N, K, V>) -> u32
    ensures { result ≡ cache.now.parts }
{
    cache.parts()
}

/// The part of a key.
pub fn part_of<N: Name + LogName, K: Packed, V: Packed>(cache: &Cache<N, K, V>, key: &K) -> u32
    ensures part { result ≡ part_in cache.now (K.as_words key.now) }
    ensures within { result < cache.now.parts }
{
    cache.part_of(key)
}

/// What a key has.
pub fn look<N: Name + LogName, K: Packed, V: Packed, W: Wait>(
    cache: &Cache<N, K, V>,
    rt: &W,
    me: &mut Caller<N, CacheState>,
    key: &K,
    now: u64,
) -> Option<V>
    requires part { 0 < me.old.parts }
    ensures call { MakesOne me.old me.new }
    ensures part { part_called me.new ≡ part_in cache.now (K.as_words key.now) }
    ensures finds { TellsFound V.as_words (K.as_words key.now) now result (from_of me.new) (to_of me.new) }
{
    cache.look(rt, me, key, now)
}

/// Puts a value under a key.
pub fn put<N: Name + LogName, K: Packed, V: Packed, W: Wait>(
    cache: &Cache<N, K, V>,
    rt: &W,
    me: &mut Caller<N, CacheState>,
    key: &K,
    value: &V,
    now: u64,
) -> Result<Put<K, V>, NoRoom<K, V>>
    requires part { 0 < me.old.parts }
    ensures call { MakesOne me.old me.new }
    ensures part { part_called me.new ≡ part_in cache.now (K.as_words key.now) }
    ensures puts { IfOk result (λ did. PutsValue K.as_words V.as_words key.now value.now 0 now did (from_of me.new)
        (to_of me.new)) }
    ensures refuses { IfErr result (λ why. RefusesValue K.as_words V.as_words key.now now why (from_of me.new)
        (to_of me.new)) }
    ensures same { to_of me.new ≡ with_put (to_of me.new) (from_of me.new) }
{
    cache.put(rt, me, key, value, now)
}

/// Puts a value under a key until a time.
pub fn put_until<N: Name + LogName, K: Packed, V: Packed, W: Wait>(
    cache: &Cache<N, K, V>,
    rt: &W,
    me: &mut Caller<N, CacheState>,
    key: &K,
    value: &V,
    expires: u64,
    now: u64,
) -> Result<Put<K, V>, NoRoom<K, V>>
    requires part { 0 < me.old.parts }
    ensures call { MakesOne me.old me.new }
    ensures part { part_called me.new ≡ part_in cache.now (K.as_words key.now) }
    ensures puts { IfOk result (λ did. PutsValue K.as_words V.as_words key.now value.now expires now did (from_of me.new)
        (to_of me.new)) }
    ensures refuses { IfErr result (λ why. RefusesValue K.as_words V.as_words key.now now why (from_of me.new)
        (to_of me.new)) }
    ensures same { to_of me.new ≡ with_put (to_of me.new) (from_of me.new) }
{
    cache.put_until(rt, me, key, value, expires, now)
}

/// Puts a value under a key, and hears only whether another item was evicted.
pub fn set<N: Name + LogName, K: Packed, V: Packed, W: Wait>(
    cache: &Cache<N, K, V>,
    rt: &W,
    me: &mut Caller<N, CacheState>,
    key: &K,
    value: &V,
    expires: u64,
    now: u64,
) -> Result<bool, Full>
    requires part { 0 < me.old.parts }
    ensures call { MakesOne me.old me.new }
    ensures part { part_called me.new ≡ part_in cache.now (K.as_words key.now) }
    ensures sets { IfOk result (λ told. PutsWords (K.as_words key.now) (V.as_words value.now) expires now told
        (from_of me.new) (to_of me.new)) }
    ensures refuses { IfErr result (λ why. RefusesWords (K.as_words key.now) now why.evicted (from_of me.new)
        (to_of me.new)) }
    ensures same { to_of me.new ≡ with_put (to_of me.new) (from_of me.new) }
{
    cache.set(rt, me, key, value, expires, now)
}

/// Ends the item of a key.
pub fn remove<N: Name + LogName, K: Packed, V: Packed, W: Wait>(
    cache: &Cache<N, K, V>,
    rt: &W,
    me: &mut Caller<N, CacheState>,
    key: &K,
    now: u64,
    made_up: V,
) -> Option<V>
    requires part { 0 < me.old.parts }
    ensures call { MakesOne me.old me.new }
    ensures part { part_called me.new ≡ part_in cache.now (K.as_words key.now) }
    ensures removes { RemovesValue K.as_words V.as_words key.now now result (from_of me.new) (to_of me.new) }
{
    cache.remove(rt, me, key, now)
}

/// Puts a value under a key that has nothing.
pub fn add<N: Name + LogName, K: Packed, V: Packed, W: Wait>(
    cache: &Cache<N, K, V>,
    rt: &W,
    me: &mut Caller<N, CacheState>,
    key: &K,
    value: &V,
    expires: u64,
    now: u64,
) -> Result<Added<K, V>, NoRoom<K, V>>
    requires part { 0 < me.old.parts }
    ensures call { MakesOne me.old me.new }
    ensures part { part_called me.new ≡ part_in cache.now (K.as_words key.now) }
    ensures adds { IfOk result (λ did. Adds K.as_words V.as_words (K.as_words key.now) (V.as_words value.now)
        expires now did (from_of me.new) (to_of me.new)) }
    ensures refuses { IfErr result (λ why. RefusesNew K.as_words V.as_words (K.as_words key.now) now why
        (from_of me.new) (to_of me.new)) }
    ensures same { to_of me.new ≡ with_put (to_of me.new) (from_of me.new) }
{
    cache.add(rt, me, key, value, expires, now)
}

/// Puts a value in the place of what a key has.
pub fn replace<N: Name + LogName, K: Packed, V: Packed, W: Wait>(
    cache: &Cache<N, K, V>,
    rt: &W,
    me: &mut Caller<N, CacheState>,
    key: &K,
    value: &V,
    expires: u64,
    now: u64,
) -> Result<Option<Put<K, V>>, NoRoom<K, V>>
    requires part { 0 < me.old.parts }
    ensures call { MakesOne me.old me.new }
    ensures part { part_called me.new ≡ part_in cache.now (K.as_words key.now) }
    ensures replaces { IfOk result (λ told. ReplacesWhereSome V.as_words (K.as_words key.now) (V.as_words value.now)
        expires now told (from_of me.new) (to_of me.new)) }
    ensures refuses { IfErr result (λ why. RefusesAnew (K.as_words key.now) now why (from_of me.new)
        (to_of me.new)) }
    ensures same { to_of me.new ≡ with_put (to_of me.new) (from_of me.new) }
{
    cache.replace(rt, me, key, value, expires, now)
}

/// Lets what a key has expire at another time.
pub fn touch<N: Name + LogName, K: Packed, V: Packed, W: Wait>(
    cache: &Cache<N, K, V>,
    rt: &W,
    me: &mut Caller<N, CacheState>,
    key: &K,
    expires: u64,
    now: u64,
    made_up: V,
) -> Result<Option<V>, NoRoom<K, V>>
    requires part { 0 < me.old.parts }
    ensures call { MakesOne me.old me.new }
    ensures part { part_called me.new ≡ part_in cache.now (K.as_words key.now) }
    ensures touches { IfOk result (λ told. TouchesWhereSome V.as_words (K.as_words key.now) expires now told
        (from_of me.new) (to_of me.new)) }
    ensures refuses { IfErr result (λ why. RefusesAnew (K.as_words key.now) now why (from_of me.new)
        (to_of me.new)) }
    ensures same { to_of me.new ≡ with_put (to_of me.new) (from_of me.new) }
{
    cache.touch(rt, me, key, expires, now)
}

/// Changes what a key has.
pub fn update<N: Name + LogName, K: Packed, V: Packed, W: Wait, F: FnMut(&V) -> V>(
    cache: &Cache<N, K, V>,
    rt: &W,
    me: &mut Caller<N, CacheState>,
    key: &K,
    now: u64,
    change: &mut F,
    made_up: V,
) -> Result<Option<V>, NoRoom<K, V>>
    requires part { 0 < me.old.parts }
    requires callable { F.IsAlwaysCallable change.old }
    ensures call { MakesOne me.old me.new }
    ensures part { part_called me.new ≡ part_in cache.now (K.as_words key.now) }
    ensures uncalled { IfOk result (λ told. IfNone told (change.new ≡ change.old)) }
    ensures changes { IfOk result (λ told. ChangesWhereSome V.fits V.as_words
        (λ had value. CalledAt F.FnMut change.old had value change.new) (K.as_words key.now) now told
        (from_of me.new) (to_of me.new)) }
    ensures called { IfErr result (λ why. CallsOnHad V.as_words
        (λ had value. CalledAt F.FnMut change.old had value change.new) (K.as_words key.now) now
        (from_of me.new).part) }
    ensures refuses { IfErr result (λ why. RefusesAnew (K.as_words key.now) now why (from_of me.new)
        (to_of me.new)) }
    ensures same { to_of me.new ≡ with_put (to_of me.new) (from_of me.new) }
{
    cache.update(rt, me, key, now, change)
}

/// What a key has, or else what is made and put.
pub fn get_or_put<N: Name + LogName, K: Packed, V: Packed, W: Wait, F: FnMut() -> V>(
    cache: &Cache<N, K, V>,
    rt: &W,
    me: &mut Caller<N, CacheState>,
    key: &K,
    expires: u64,
    now: u64,
    make: &mut F,
    made_up: V,
) -> Result<GotOrPut<K, V>, NoRoom<K, V>>
    requires part { 0 < me.old.parts }
    requires callable { F.IsAlwaysCallable make.old }
    ensures call { MakesOne me.old me.new }
    ensures part { part_called me.new ≡ part_in cache.now (K.as_words key.now) }
    ensures uncalled { IfOk result (λ did. IfGot did (λ value. make.new ≡ make.old)) }
    ensures puts { IfOk result (λ did. GetsOrPuts K.as_words V.as_words (λ value. F.step make.old value make.new)
        (K.as_words key.now) expires now did (from_of me.new) (to_of me.new)) }
    ensures called { IfErr result (λ why. (value : V) × F.step make.old value make.new) }
    ensures refuses { IfErr result (λ why. RefusesNew K.as_words V.as_words (K.as_words key.now) now why
        (from_of me.new) (to_of me.new)) }
    ensures same { to_of me.new ≡ with_put (to_of me.new) (from_of me.new) }
{
    cache.get_or_put(rt, me, key, expires, now, make)
}

/// Ends the next item of a part that has expired.
pub fn take_expired<N: Name + LogName, K: Packed, V: Packed, W: Wait>(
    cache: &Cache<N, K, V>,
    rt: &W,
    me: &mut Caller<N, CacheState>,
    part: u32,
    now: u64,
) -> Option<Evicted<K, V>>
    requires part { 0 < me.old.parts }
    ensures absent { cache.now.parts ≤ part → (result ≡ None) × (me.new ≡ me.old) }
    ensures takes { part < cache.now.parts → TakesOfPart K.as_words V.as_words part now result me.old me.new }
{
    cache.take_expired(rt, me, part, now)
}

/// Evicts the item of a part whose turn it is.
pub fn evict<N: Name + LogName, K: Packed, V: Packed, W: Wait>(
    cache: &Cache<N, K, V>,
    rt: &W,
    me: &mut Caller<N, CacheState>,
    part: u32,
    now: u64,
) -> Option<Evicted<K, V>>
    requires part { 0 < me.old.parts }
    ensures absent { cache.now.parts ≤ part → (result ≡ None) × (me.new ≡ me.old) }
    ensures evicts { part < cache.now.parts → EvictsOfPart K.as_words V.as_words part now result me.old me.new }
{
    cache.evict(rt, me, part, now)
}

/// The statistics of a part.
pub fn stats_of<N: Name + LogName, K: Packed, V: Packed, W: Wait>(
    cache: &Cache<N, K, V>,
    rt: &W,
    me: &mut Caller<N, CacheState>,
    part: u32,
) -> Option<Stats>
    ensures look { OnlyLooks me.old me.new }
    ensures stats { IfSome result (λ stats. stats ≡ stats_of_part (now_of part me.new).part) }
    ensures none { IsNone result ↔ (cache.now.parts ≤ part) }
{
    cache.stats_of(rt, me, part)
}

/// The statistics.
pub fn stats<N: Name + LogName, K: Packed, V: Packed, W: Wait>(
    cache: &Cache<N, K, V>,
    rt: &W,
    me: &mut Caller<N, CacheState>,
) -> Stats
    ensures look { OnlyLooks me.old me.new }
    ensures stats { SumsUpParts cache.now.parts me.old me.new result }
{
    cache.stats(rt, me)
}

/// Visits what is kept.
pub fn for_each<N: Name + LogName, K: Packed, V: Packed, W: Wait, F: FnMut(K, V, u64)>(
    cache: &Cache<N, K, V>,
    rt: &W,
    me: &mut Caller<N, CacheState>,
    now: u64,
    visit: F,
) -> F
    requires part { 0 < me.old.parts }
    requires callable { F.IsAlwaysCallable visit }
    ensures visits { VisitsParts K.fits K.as_words V.fits V.as_words
        (λ from key value expires to. F.step from key value expires tt to) cache.now.parts now visit result me.old
        me.new }
    ensures calls { me.new.calls ≡ me.old.calls + cache.now.parts }
    ensures parts { me.new.parts ≡ me.old.parts }
{
    cache.for_each(rt, me, now, visit)
}

/// Asks of items, some at a time, whether they stay.
pub fn retain<N: Name + LogName, K: Packed, V: Packed, W: Wait, F: FnMut(&Item<K, V>) -> bool>(
    cache: &Cache<N, K, V>,
    rt: &W,
    me: &mut Caller<N, CacheState>,
    part: u32,
    from: u32,
    looks: u32,
    now: u64,
    keep: &mut F,
) -> Retained
    requires part { 0 < me.old.parts }
    requires callable { F.IsAlwaysCallable keep.old }
    ensures absent { cache.now.parts ≤ part → (result.ended ≡ 0) × (result.next ≡ None) × (me.new ≡ me.old)
        × (keep.new ≡ keep.old) }
    ensures asks { part < cache.now.parts → AsksOfPart K.fits K.as_words V.fits V.as_words (CalledAt F.FnMut) part from
        looks now result keep.old keep.new me.old me.new }
    ensures callable { F.IsAlwaysCallable keep.new }
{
    cache.retain(rt, me, part, from, looks, now, keep)
}

/// Tends each part.
pub fn tend<N: Name + LogName, K: Packed, V: Packed, W: Wait>(
    cache: &Cache<N, K, V>,
    rt: &W,
    me: &mut Caller<N, CacheState>,
    now: u64,
)
    requires part { 0 < me.old.parts }
    ensures tends { TendsParts cache.now.parts now me.old me.new }
    ensures calls { me.new.calls ≡ me.old.calls + cache.now.parts }
    ensures parts { me.new.parts ≡ me.old.parts }
{
    cache.tend(rt, me, now)
}

/// Tends each part, each time at what a clock tells, until it tells nothing.
pub fn tend_until<N: Name + LogName, K: Packed, V: Packed, W: Wait, F: FnMut() -> Option<u64>>(
    cache: &Cache<N, K, V>,
    rt: &W,
    me: &mut Caller<N, CacheState>,
    clock: F,
) -> F
    requires part { 0 < me.old.parts }
    requires callable { F.IsAlwaysCallable clock }
    ensures tends { TendsUntilOver (λ c told c'. F.step c told c') cache.now.parts clock me.old result me.new }
    ensures parts { me.new.parts ≡ me.old.parts }
{
    cache.tend_until(rt, me, clock)
}

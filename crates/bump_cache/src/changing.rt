//! Calls that look first, and put where it is due: under one lock, as one call.
ghost use Rattle.std.specs.Prelude.{◌≡◌, ◌<◌, IfNone, IfOk, IfErr};
ghost use Rattle.std.specs.Fn.{CalledAt};
ghost use Rattle.cache_shelf.specs.Shelves.{with_put};
ghost use Rattle.call_log.specs.Calls.{MakesOne};
ghost use Rattle.bump_cache.specs.Caches.{part_in};
ghost use Rattle.bump_cache.specs.Changing.{Adds, CallsOnHad, ChangesWhereSome, GetsOrPuts, IfGot, RefusesAnew, RefusesNew, ReplacesWhereSome, TellsFound, TouchesWhereSome};
ghost use Rattle.bump_cache.specs.States.{from_of, part_called, to_of};

use crate::answers::{Added, GotOrPut, NoRoom, Put};
use crate::caches::Cache;
use crate::pairs::Pairs;
use crate::states::CacheState;
use bump_heads::Name;
use call_log::{Caller, LogName};
use packed_words::Packed;
use std::sync::Wait;

// What a closure makes of a value.
fn changed_by<V: Packed, F: FnMut(&V) -> V>(had: V, change: &mut F) -> V
    requires callable { F.IsAlwaysCallable change.old }
    ensures { CalledAt F.FnMut change.old had result change.new }
{
    change(&had)
}

impl<N: Name, K: Packed, V: Packed> Pairs<N, K, V> {
    /// What a key has that hasn't expired.
    pub(crate) fn find(&mut self, key: &K, now: u64) -> Option<V>
        ensures { TellsFound V.as_words (K.as_words key.now) now result self.old self.new }
    {
        match self.look(key, now) {
            Some((value, _)) => Some(value),
            None => None,
        }
    }

    /// Puts a value under a key that has nothing, or what has expired.
    pub(crate) fn add(
        &mut self,
        key: &K,
        value: &V,
        expires: u64,
        now: u64,
    ) -> Result<Added<K, V>, NoRoom<K, V>>
        ensures adds { IfOk result (λ did. Adds K.as_words V.as_words (K.as_words key.now) (V.as_words value.now)
            expires now did self.old self.new) }
        ensures refuses { IfErr result (λ why. RefusesNew K.as_words V.as_words (K.as_words key.now) now why self.old
            self.new) }
        ensures same { self.new ≡ with_put self.new self.old }
    {
        if let Some((has, _)) = self.look(key, now) {
            return Ok(Added::Has(has));
        }
        match self.put(key, value, expires, now) {
            Ok(did) => {
                let evicted = did.evicted;
                Ok(Added::Put { evicted })
            }
            Err(why) => Err(why),
        }
    }

    /// Puts a value in the place of what a key has that hasn't expired.
    pub(crate) fn replace(
        &mut self,
        key: &K,
        value: &V,
        expires: u64,
        now: u64,
    ) -> Result<Option<Put<K, V>>, NoRoom<K, V>>
        ensures replaces { IfOk result (λ told. ReplacesWhereSome V.as_words (K.as_words key.now) (V.as_words value.now)
            expires now told self.old self.new) }
        ensures refuses { IfErr result (λ why. RefusesAnew (K.as_words key.now) now why self.old self.new) }
        ensures same { self.new ≡ with_put self.new self.old }
    {
        let Some(_) = self.look(key, now) else {
            return Ok(None);
        };
        match self.put(key, value, expires, now) {
            Ok(did) => Ok(Some(did)),
            Err(why) => Err(why),
        }
    }

    /// Puts what a key has that hasn't expired anew, so that it expires then.
    pub(crate) fn touch(
        &mut self,
        key: &K,
        expires: u64,
        now: u64,
    ) -> Result<Option<V>, NoRoom<K, V>>
        ensures touches { IfOk result (λ told. TouchesWhereSome V.as_words (K.as_words key.now) expires now told
            self.old self.new) }
        ensures refuses { IfErr result (λ why. RefusesAnew (K.as_words key.now) now why self.old self.new) }
        ensures same { self.new ≡ with_put self.new self.old }
    {
        let Some((value, _)) = self.look(key, now) else {
            return Ok(None);
        };
        match self.put(key, &value, expires, now) {
            Ok(_) => Ok(Some(value)),
            Err(why) => Err(why),
        }
    }

    /// Puts what a closure makes of what a key has that hasn't expired in its place.
    pub(crate) fn update<F: FnMut(&V) -> V>(
        &mut self,
        key: &K,
        now: u64,
        change: &mut F,
    ) -> Result<Option<V>, NoRoom<K, V>>
        requires callable { F.IsAlwaysCallable change.old }
        ensures uncalled { IfOk result (λ told. IfNone told (change.new ≡ change.old)) }
        ensures changes { IfOk result (λ told. ChangesWhereSome V.fits V.as_words
            (λ had value. CalledAt F.FnMut change.old had value change.new) (K.as_words key.now) now told self.old
            self.new) }
        ensures called { IfErr result (λ why. CallsOnHad V.as_words
            (λ had value. CalledAt F.FnMut change.old had value change.new) (K.as_words key.now) now self.old.part) }
        ensures refuses { IfErr result (λ why. RefusesAnew (K.as_words key.now) now why self.old self.new) }
        ensures same { self.new ≡ with_put self.new self.old }
    {
        let Some((had, expires)) = self.look(key, now) else {
            return Ok(None);
        };
        let changed = changed_by(had, change);
        match self.put(key, &changed, expires, now) {
            Ok(_) => Ok(Some(changed)),
            Err(why) => Err(why),
        }
    }

    /// What a key has; or else what a closure makes, which is put under it.
    pub(crate) fn get_or_put<F: FnMut() -> V>(
        &mut self,
        key: &K,
        expires: u64,
        now: u64,
        make: &mut F,
    ) -> Result<GotOrPut<K, V>, NoRoom<K, V>>
        requires callable { F.IsAlwaysCallable make.old }
        ensures uncalled { IfOk result (λ did. IfGot did (λ value. make.new ≡ make.old)) }
        ensures puts { IfOk result (λ did. GetsOrPuts K.as_words V.as_words (λ value. F.step make.old value make.new)
            (K.as_words key.now) expires now did self.old self.new) }
        ensures called { IfErr result (λ why. (value : V) × F.step make.old value make.new) }
        ensures refuses { IfErr result (λ why. RefusesNew K.as_words V.as_words (K.as_words key.now) now why self.old
            self.new) }
        ensures same { self.new ≡ with_put self.new self.old }
    {
        if let Some((value, _)) = self.look(key, now) {
            return Ok(GotOrPut::Got(value));
        }
        let made = make();
        match self.put(key, &made, expires, now) {
            Ok(did) => Ok(GotOrPut::Put {
                value: made,
                evicted: did.evicted,
            }),
            Err(why) => Err(why),
        }
    }
}

impl<N: Name + LogName, K: Packed, V: Packed> Cache<N, K, V> {
    /// What a key has that hasn't expired at `now`, in the caller's ticks; or None where it has nothing, or what has
    /// expired. It is for who must know: a get of a reader, which waits for nobody, may give up. It looks under the lock of
    /// the key's part, for which it waits until no other thread changes that; it is a call, and changes nothing. What it
    /// looks at isn't touched, and no hit and no miss is counted.
    pub fn look<W: Wait>(
        &self,
        rt: &W,
        me: &mut Caller<N, CacheState>,
        key: &K,
        now: u64,
    ) -> Option<V>
        requires part { 0 < me.old.parts }
        ensures call { MakesOne me.old me.new }
        ensures part { part_called me.new ≡ part_in self.now (K.as_words key.now) }
        ensures finds { TellsFound V.as_words (K.as_words key.now) now result (from_of me.new) (to_of me.new) }
    {
        let mut guard = self.lock_of(rt, key);
        let logged = &mut *guard;
        let found = logged.value.pairs.find(key, now);
        logged.log.note(rt, me, &logged.value);
        found
    }

    /// Puts a value under a key that has nothing, or what has expired at `now`, as memcached's `add`; where it has
    /// something, it answers that, and puts nothing. It looks and puts as one call, so of many that add one key at a
    /// time one alone puts. The value expires at `expires`, and 0 is never; times are in the caller's ticks. What it
    /// looks at isn't touched: a get does that. It waits until no other thread changes the key's part.
    ///
    /// Where it puts it does what `put_until` does, and is refused, as `NoRoom`, exactly where that is; the key has
    /// nothing then.
    pub fn add<W: Wait>(
        &self,
        rt: &W,
        me: &mut Caller<N, CacheState>,
        key: &K,
        value: &V,
        expires: u64,
        now: u64,
    ) -> Result<Added<K, V>, NoRoom<K, V>>
        requires part { 0 < me.old.parts }
        ensures call { MakesOne me.old me.new }
        ensures part { part_called me.new ≡ part_in self.now (K.as_words key.now) }
        ensures adds { IfOk result (λ did. Adds K.as_words V.as_words (K.as_words key.now) (V.as_words value.now)
            expires now did (from_of me.new) (to_of me.new)) }
        ensures refuses { IfErr result (λ why. RefusesNew K.as_words V.as_words (K.as_words key.now) now why
            (from_of me.new) (to_of me.new)) }
        ensures same { to_of me.new ≡ with_put (to_of me.new) (from_of me.new) }
    {
        let mut guard = self.lock_of(rt, key);
        let logged = &mut *guard;
        let added = logged.value.pairs.add(key, value, expires, now);
        logged.log.note(rt, me, &logged.value);
        added
    }

    /// Puts a value in the place of what a key has that hasn't expired at `now`, as memcached's `replace`; where it has
    /// nothing, or what has expired, it answers None, and puts nothing. It looks and puts as one call. The value
    /// expires at `expires`, and 0 is never; times are in the caller's ticks. It waits until no other thread changes
    /// the key's part.
    ///
    /// Where it puts it does what `put_until` does, and tells what the key had; nothing is evicted, since the key has
    /// an item. It is refused, as `NoRoom`, exactly where that is; the key keeps what it had.
    pub fn replace<W: Wait>(
        &self,
        rt: &W,
        me: &mut Caller<N, CacheState>,
        key: &K,
        value: &V,
        expires: u64,
        now: u64,
    ) -> Result<Option<Put<K, V>>, NoRoom<K, V>>
        requires part { 0 < me.old.parts }
        ensures call { MakesOne me.old me.new }
        ensures part { part_called me.new ≡ part_in self.now (K.as_words key.now) }
        ensures replaces { IfOk result (λ told. ReplacesWhereSome V.as_words (K.as_words key.now) (V.as_words value.now)
            expires now told (from_of me.new) (to_of me.new)) }
        ensures refuses { IfErr result (λ why. RefusesAnew (K.as_words key.now) now why (from_of me.new)
            (to_of me.new)) }
        ensures same { to_of me.new ≡ with_put (to_of me.new) (from_of me.new) }
    {
        let mut guard = self.lock_of(rt, key);
        let logged = &mut *guard;
        let replaced = logged.value.pairs.replace(key, value, expires, now);
        logged.log.note(rt, me, &logged.value);
        replaced
    }

    /// Lets what a key has that hasn't expired at `now` expire at another time, and answers it, as memcached's `gat`
    /// and `touch`; where it has nothing, or what has expired, it answers None, and changes nothing. 0 is never; times
    /// are in the caller's ticks. It waits until no other thread changes the key's part.
    ///
    /// When an item expires is fixed for its life. So the same value is put anew, as `put_until` does it: it goes to
    /// the front of HOT or TEMP, whatever its marks were, and needs a chunk, as a put does. It is refused, as `NoRoom`,
    /// exactly where that is; the key keeps its value, which expires when it did. Nothing is evicted, since the key has
    /// an item.
    pub fn touch<W: Wait>(
        &self,
        rt: &W,
        me: &mut Caller<N, CacheState>,
        key: &K,
        expires: u64,
        now: u64,
    ) -> Result<Option<V>, NoRoom<K, V>>
        requires part { 0 < me.old.parts }
        ensures call { MakesOne me.old me.new }
        ensures part { part_called me.new ≡ part_in self.now (K.as_words key.now) }
        ensures touches { IfOk result (λ told. TouchesWhereSome V.as_words (K.as_words key.now) expires now told
            (from_of me.new) (to_of me.new)) }
        ensures refuses { IfErr result (λ why. RefusesAnew (K.as_words key.now) now why (from_of me.new)
            (to_of me.new)) }
        ensures same { to_of me.new ≡ with_put (to_of me.new) (from_of me.new) }
    {
        let mut guard = self.lock_of(rt, key);
        let logged = &mut *guard;
        let touched = logged.value.pairs.touch(key, expires, now);
        logged.log.note(rt, me, &logged.value);
        touched
    }

    /// Changes what a key has that hasn't expired at `now`, in the caller's ticks, and answers the new value, as
    /// memcached's `incr`, `append` and the like, by one call of `change`, as `&mut |old: &u64| old.wrapping_add(1)`;
    /// where the key has nothing, or what has expired, it answers None, changes nothing and doesn't call `change`, so
    /// that is as it was. No other thread changes the key's part in between, so no change is lost; it waits until none
    /// does, and the others wait until `change` is done. `change` mustn't change this cache: it would wait for itself.
    ///
    /// What `change` answers is put as `put_until` does it, and expires when the old value did: it goes to the front of
    /// HOT or TEMP, and needs a chunk, as a put does. It is refused, as `NoRoom`, exactly where that is, behind the
    /// call of `change`; the key keeps what it had. Nothing is evicted, since the key has an item.
    pub fn update<W: Wait, F: FnMut(&V) -> V>(
        &self,
        rt: &W,
        me: &mut Caller<N, CacheState>,
        key: &K,
        now: u64,
        change: &mut F,
    ) -> Result<Option<V>, NoRoom<K, V>>
        requires part { 0 < me.old.parts }
        requires callable { F.IsAlwaysCallable change.old }
        ensures call { MakesOne me.old me.new }
        ensures part { part_called me.new ≡ part_in self.now (K.as_words key.now) }
        ensures uncalled { IfOk result (λ told. IfNone told (change.new ≡ change.old)) }
        ensures changes { IfOk result (λ told. ChangesWhereSome V.fits V.as_words
            (λ had value. CalledAt F.FnMut change.old had value change.new) (K.as_words key.now) now told
            (from_of me.new) (to_of me.new)) }
        ensures called { IfErr result (λ why. CallsOnHad V.as_words
            (λ had value. CalledAt F.FnMut change.old had value change.new) (K.as_words key.now) now
            (from_of me.new).part) }
        ensures refuses { IfErr result (λ why. RefusesAnew (K.as_words key.now) now why (from_of me.new)
            (to_of me.new)) }
        ensures same { to_of me.new ≡ with_put (to_of me.new) (from_of me.new) }
    {
        let mut guard = self.lock_of(rt, key);
        let logged = &mut *guard;
        let updated = logged.value.pairs.update(key, now, change);
        logged.log.note(rt, me, &logged.value);
        updated
    }

    /// What a key has that hasn't expired at `now`; where it has nothing, or what has expired, what `make` answers is
    /// put under it. So of many threads that miss one key one alone makes its value, where each of them calls this
    /// behind its miss. Where something is there `make` isn't called, so it is as it was, and nothing is touched: a get
    /// does that. Else it is called once, as `&mut || value`. The value expires at `expires`, and 0 is never; times are
    /// in the caller's ticks. It waits until no other thread changes the key's part, and the others wait until `make`
    /// is done. `make` mustn't change this cache: it would wait for itself.
    ///
    /// Where it puts it does what `put_until` does, and is refused, as `NoRoom`, exactly where that is, behind the call
    /// of `make`; the key has nothing then.
    pub fn get_or_put<W: Wait, F: FnMut() -> V>(
        &self,
        rt: &W,
        me: &mut Caller<N, CacheState>,
        key: &K,
        expires: u64,
        now: u64,
        make: &mut F,
    ) -> Result<GotOrPut<K, V>, NoRoom<K, V>>
        requires part { 0 < me.old.parts }
        requires callable { F.IsAlwaysCallable make.old }
        ensures call { MakesOne me.old me.new }
        ensures part { part_called me.new ≡ part_in self.now (K.as_words key.now) }
        ensures uncalled { IfOk result (λ did. IfGot did (λ value. make.new ≡ make.old)) }
        ensures puts { IfOk result (λ did. GetsOrPuts K.as_words V.as_words (λ value. F.step make.old value make.new)
            (K.as_words key.now) expires now did (from_of me.new) (to_of me.new)) }
        ensures called { IfErr result (λ why. (value : V) × F.step make.old value make.new) }
        ensures refuses { IfErr result (λ why. RefusesNew K.as_words V.as_words (K.as_words key.now) now why
            (from_of me.new) (to_of me.new)) }
        ensures same { to_of me.new ≡ with_put (to_of me.new) (from_of me.new) }
    {
        let mut guard = self.lock_of(rt, key);
        let logged = &mut *guard;
        let got = logged.value.pairs.get_or_put(key, expires, now, make);
        logged.log.note(rt, me, &logged.value);
        got
    }
}

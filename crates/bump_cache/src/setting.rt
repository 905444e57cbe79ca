//! Puts of which only is told whether another item was evicted.
ghost use Rattle.std.specs.Prelude.{◌≡◌, suc, ◌+◌, ◌++◌, ◌<◌, IfOk, IfErr, length};
ghost use Rattle.cache_shelf.specs.Shelves.{with_put};
ghost use Rattle.call_log.specs.Calls.{MakesOne};
ghost use Rattle.bump_cache.specs.Caches.{part_in};
ghost use Rattle.bump_cache.specs.Setting.{PutsWords, RefusesWords};
ghost use Rattle.bump_cache.specs.States.{from_of, part_called, to_of};

use crate::answers::Full;
use crate::caches::Cache;
use crate::law::PairLaw;
use crate::states::CacheState;
use bump_heads::Name;
use cache_shelf::Shelf;
use call_log::{Caller, LogName};
use packed_words::Packed;
use std::sync::Wait;

// Puts the row of a key and a value, and tells whether another item was evicted. Nothing is read: the words of `had` and of
// `evicted` stay.
pub(crate) fn set_row<N: Name, K: Packed, V: Packed>(
    shelf: &mut Shelf<N, PairLaw<K, V>>,
    _key: &K,
    _value: &V,
    row: &[u64],
    expires: u64,
    had: &mut [u64],
    evicted: &mut [u64],
    now: u64,
) -> Result<bool, Full>
    requires key { shelf.old.part.key_words ≡ K.width }
    requires value { shelf.old.part.value_words ≡ V.width }
    requires in_range { K.fits _key.now × V.fits _value.now }
    requires row { row.now ≡ K.as_words _key.now ++ V.as_words _value.now }
    requires had { length had.old ≡ suc V.width }
    requires evicted { length evicted.old ≡ suc (K.width + V.width) }
    ensures sets { IfOk result (λ told. PutsWords (K.as_words _key.now) (V.as_words _value.now) expires now told
        shelf.old shelf.new) }
    ensures refuses { IfErr result (λ why. RefusesWords (K.as_words _key.now) now why.evicted shelf.old shelf.new) }
    ensures same { shelf.new ≡ with_put shelf.new shelf.old }
    ensures lengths { (length had.new ≡ length had.old) × (length evicted.new ≡ length evicted.old) }
{
    match shelf.put(row, expires, false, had, evicted, now) {
        Ok(did) => Ok(did.evicted.is_some()),
        Err(why) => Err(Full {
            evicted: why.evicted.is_some(),
        }),
    }
}

impl<N: Name + LogName, K: Packed, V: Packed> Cache<N, K, V> {
    /// Puts a value under a key until a time, as `put_until` does, and tells only whether another item was evicted: what
    /// the key had, and what was evicted, isn't read, so it costs less. From `expires` on no get finds the value any
    /// more, and 0 is never; `now` is the item's time. Times are in the caller's ticks. It waits until no other thread
    /// changes the key's part, and asks for no memory.
    ///
    /// It is refused, as `Full`, exactly where `put_until` is; the key keeps what it had.
    pub fn set<W: Wait>(
        &self,
        rt: &W,
        me: &mut Caller<N, CacheState>,
        key: &K,
        value: &V,
        expires: u64,
        now: u64,
    ) -> Result<bool, Full>
        requires part { 0 < me.old.parts }
        ensures call { MakesOne me.old me.new }
        ensures part { part_called me.new ≡ part_in self.now (K.as_words key.now) }
        ensures sets { IfOk result (λ told. PutsWords (K.as_words key.now) (V.as_words value.now) expires now told
            (from_of me.new) (to_of me.new)) }
        ensures refuses { IfErr result (λ why. RefusesWords (K.as_words key.now) now why.evicted (from_of me.new)
            (to_of me.new)) }
        ensures same { to_of me.new ≡ with_put (to_of me.new) (from_of me.new) }
    {
        let mut guard = self.lock_of(rt, key);
        let logged = &mut *guard;
        let set = logged.value.pairs.set(key, value, expires, now);
        logged.log.note(rt, me, &logged.value);
        set
    }
}

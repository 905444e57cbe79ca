//! What has expired ends, and is told; and so does the item whose turn it is.
ghost use Rattle.std.specs.Prelude.{◌≡◌, ◌+◌, ◌<◌, ◌≤◌, suc, None, length};
ghost use Rattle.bump_cache.specs.Ending.{EvictsOfPart, EvictsValue, TakesOfPart, TakesValue};

use crate::answers::Evicted;
use crate::caches::Cache;
use crate::law::PairLaw;
use crate::pairs::told_evicted;
use crate::states::CacheState;
use bump_heads::Name;
use cache_shelf::Shelf;
use call_log::{Caller, LogName};
use packed_words::Packed;
use std::sync::Wait;

// Ends the next item that has expired, and unpacks what is told of it.
pub(crate) fn take_row<N: Name, K: Packed, V: Packed>(
    shelf: &mut Shelf<N, PairLaw<K, V>>,
    told: &mut [u64],
    now: u64,
) -> Option<Evicted<K, V>>
    requires key { shelf.old.part.key_words ≡ K.width }
    requires value { shelf.old.part.value_words ≡ V.width }
    requires told { length told.old ≡ suc (K.width + V.width) }
    ensures takes { TakesValue K.as_words V.as_words now result shelf.old shelf.new }
    ensures length { length told.new ≡ length told.old }
{
    let chunk = shelf.take_expired(told, now);
    told_evicted(chunk, told, now)
}

// Evicts the item whose turn it is, and unpacks what is told of it.
pub(crate) fn evict_row<N: Name, K: Packed, V: Packed>(
    shelf: &mut Shelf<N, PairLaw<K, V>>,
    told: &mut [u64],
    now: u64,
) -> Option<Evicted<K, V>>
    requires key { shelf.old.part.key_words ≡ K.width }
    requires value { shelf.old.part.value_words ≡ V.width }
    requires told { length told.old ≡ suc (K.width + V.width) }
    ensures evicts { EvictsValue K.as_words V.as_words now result shelf.old shelf.new }
    ensures length { length told.new ≡ length told.old }
{
    let chunk = shelf.evict(told, now);
    told_evicted(chunk, told, now)
}

impl<N: Name + LogName, K: Packed, V: Packed> Cache<N, K, V> {
    // Ends the next item that has expired of a part that there is.
    fn take_of_part<W: Wait>(
        &self,
        rt: &W,
        me: &mut Caller<N, CacheState>,
        part: usize,
        now: u64,
    ) -> Option<Evicted<K, V>>
        requires caller { 0 < me.old.parts }
        requires part { part < self.now.parts }
        ensures { TakesOfPart K.as_words V.as_words part now result me.old me.new }
    {
        let mut guard = self.lock_part(rt, part);
        let logged = &mut *guard;
        let told = logged.value.pairs.take_expired(now);
        logged.log.note(rt, me, &logged.value);
        told
    }

    /// Ends the next item of a part that has expired at `now`, in the caller's ticks, and tells its key and its value,
    /// with the cause `Expired`: so whoever wants to be told what expires calls it for each part, numbered from 0,
    /// until it answers None, and then `tend`, which ends what has expired and tells nobody.
    ///
    /// It looks at the part's chunks where the last tend, or the last of these calls, ended its looks, around and
    /// around: at most at `expiry_looks` of them, as the configuration says, until one has an item that has expired.
    /// That item ends as by a tend: it counts as memcached's `crawler_reclaimed`, and where it was never hit as
    /// `expired_unfetched`, and not as evicted; the index leads to it no more, and a reader that holds it keeps it. The
    /// next looks begin behind its chunk. It answers None where none of these chunks has such an item, and then the
    /// next looks begin behind them all: so a part with more chunks than `expiry_looks` may have one at another chunk.
    /// Where there is no part of this number it answers None as well, and is no call. It waits until no other thread
    /// changes the part, and asks for no memory. Under each other key stays what was there, and the other items keep
    /// their order. A put or a removal may end what has expired before its turn comes here: a put tells it then, with
    /// this cause, where it evicts it, and a put under its own key or a removal doesn't tell it.
    pub fn take_expired<W: Wait>(
        &self,
        rt: &W,
        me: &mut Caller<N, CacheState>,
        part: u32,
        now: u64,
    ) -> Option<Evicted<K, V>>
        requires part { 0 < me.old.parts }
        ensures absent { self.now.parts ≤ part → (result ≡ None) × (me.new ≡ me.old) }
        ensures takes { part < self.now.parts → TakesOfPart K.as_words V.as_words part now result me.old me.new }
    {
        if part as usize >= self.parts.len() {
            return None;
        }
        self.take_of_part(rt, me, part as usize, now)
    }

    // Evicts the item whose turn it is of a part that there is.
    fn evict_of_part<W: Wait>(
        &self,
        rt: &W,
        me: &mut Caller<N, CacheState>,
        part: usize,
        now: u64,
    ) -> Option<Evicted<K, V>>
        requires caller { 0 < me.old.parts }
        requires part { part < self.now.parts }
        ensures { EvictsOfPart K.as_words V.as_words part now result me.old me.new }
    {
        let mut guard = self.lock_part(rt, part);
        let logged = &mut *guard;
        let told = logged.value.pairs.evict(now);
        logged.log.note(rt, me, &logged.value);
        told
    }

    /// Evicts the item of a part whose turn it is, and tells its key, its value and its cause: whether it had expired
    /// at `now`, in the caller's ticks. So whoever keeps a limit of his own, as of bytes, calls it until that is kept.
    /// Parts are numbered from 0, and `part_of` tells a key's.
    ///
    /// It evicts exactly what a put of a new key evicts from a part that is full, however few items there are: where
    /// COLD's last one is held all bumps that wait are applied first, at most a ring's room of each reader, with `now`
    /// as their items' time; then of COLD's last ones those go to WARM that were in use since they came there, at most
    /// 8, until one has expired; and then COLD's last one ends, or WARM's where COLD is empty, or HOT's, or TEMP's, as
    /// by memcached's `lru_pull_tail` with `LRU_PULL_EVICT`. It counts as an eviction, as a put's does: as memcached's
    /// `evicted`, or as `reclaimed` where it had expired. The index leads to it no more, and a reader that holds it
    /// keeps it. Nothing else is done that a put does: no chunk of an ended item is looked for, nothing is balanced,
    /// and no put is counted. Under each other key stays what was there.
    ///
    /// It answers None exactly where the part has no item, also none that has expired, and then nothing changes; or
    /// where there is no part of this number, and then it is no call. It waits until no other thread changes the part,
    /// and asks for no memory.
    pub fn evict<W: Wait>(
        &self,
        rt: &W,
        me: &mut Caller<N, CacheState>,
        part: u32,
        now: u64,
    ) -> Option<Evicted<K, V>>
        requires part { 0 < me.old.parts }
        ensures absent { self.now.parts ≤ part → (result ≡ None) × (me.new ≡ me.old) }
        ensures evicts { part < self.now.parts → EvictsOfPart K.as_words V.as_words part now result me.old me.new }
    {
        if part as usize >= self.parts.len() {
            return None;
        }
        self.evict_of_part(rt, me, part as usize, now)
    }
}

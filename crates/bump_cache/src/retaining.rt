//! A call that asks of a part's items, some at a time, and ends those that nobody wants any more.
ghost use Rattle.std.specs.Prelude.{◌≡◌, ◌-◌, ◌<◌, ◌≤◌, None, IfNone, IfSome};
ghost use Rattle.std.specs.Fn.{CalledAt};
ghost use Rattle.bump_cache.specs.Retaining.{AsksAt, AsksFrom, AsksOfPart, AsksSome, chunk_at, ended_of};

use crate::answers::{Asked, Item, Retained};
use crate::caches::Cache;
use crate::pairs::Pairs;
use crate::states::CacheState;
use bump_heads::Name;
use call_log::{Caller, LogName};
use packed_words::Packed;
use std::sync::Wait;

// What a closure answers of an item.
fn asked_of<K: Packed, V: Packed, F: FnMut(&Item<K, V>) -> bool>(
    item: &Item<K, V>,
    keep: &mut F,
) -> bool
    requires callable { F.IsAlwaysCallable keep.old }
    ensures asked { CalledAt F.FnMut keep.old item.now result keep.new }
    ensures callable { F.IsAlwaysCallable keep.new }
{
    keep(item)
}

// How many items ended at a place.
fn count_of(did: Asked) -> u32
    ensures { result ≡ ended_of did }
{
    match did {
        Asked::Ended => 1,
        Asked::NoPlace | Asked::Empty | Asked::Stays => 0,
    }
}

impl<N: Name, K: Packed, V: Packed> Pairs<N, K, V> {
    // The chunk of a place of the part, where there is one.
    fn chunk_of_place(&self, place: u32) -> Option<u32>
        ensures none { IfNone result (self.now.part.book.sheet.count ≤ place) }
        ensures some { IfSome result (λ chunk. (place < self.now.part.book.sheet.count)
            × (chunk ≡ chunk_at self.now.part place)) }
    {
        let chunks = self.chunks();
        if place < chunks.end - chunks.start {
            Some(chunks.start + place)
        } else {
            None
        }
    }

    // Asks a closure of the item of a place, where it has one that hasn't expired, and ends it where it isn't to stay.
    fn ask_at<F: FnMut(&Item<K, V>) -> bool>(&mut self, place: u32, now: u64, keep: &mut F) -> Asked
        requires callable { F.IsAlwaysCallable keep.old }
        ensures asks { AsksAt K.fits K.as_words V.fits V.as_words (CalledAt F.FnMut) result place now keep.old keep.new
            self.old self.new }
        ensures callable { F.IsAlwaysCallable keep.new }
    {
        let Some(chunk) = self.chunk_of_place(place) else {
            return Asked::NoPlace;
        };
        let Some((key, value, expires)) = self.unexpired_at(chunk, now) else {
            return Asked::Empty;
        };
        let item = Item {
            key,
            value,
            expires,
        };
        if asked_of(&item, keep) {
            return Asked::Stays;
        }
        self.remove(&item.key, now);
        Asked::Ended
    }

    // Asks a closure of the items of these places, in order, and ends those that aren't to stay: it tells how many.
    fn ask_between<F: FnMut(&Item<K, V>) -> bool>(
        &mut self,
        from: u32,
        end: u32,
        now: u64,
        keep: &mut F,
    ) -> u32
        requires order { from ≤ end }
        requires callable { F.IsAlwaysCallable keep.old }
        ensures asks { AsksFrom K.fits K.as_words V.fits V.as_words (CalledAt F.FnMut) from (end - from) now result
            keep.old keep.new self.old self.new }
        ensures callable { F.IsAlwaysCallable keep.new }
    {
        let mut ended = 0;
        for place in from..end {
            ended += count_of(self.ask_at(place, now, keep));
        }
        ended
    }

    /// Asks a closure of the items of so many places, from this one on, and ends those that aren't to stay.
    pub(crate) fn retain<F: FnMut(&Item<K, V>) -> bool>(
        &mut self,
        from: u32,
        looks: u32,
        now: u64,
        keep: &mut F,
    ) -> Retained
        requires callable { F.IsAlwaysCallable keep.old }
        ensures asks { AsksSome K.fits K.as_words V.fits V.as_words (CalledAt F.FnMut) from looks now result keep.old
            keep.new self.old self.new }
        ensures callable { F.IsAlwaysCallable keep.new }
    {
        let chunks = self.chunks();
        let places = chunks.end - chunks.start;
        let end = from.saturating_add(looks).min(places).max(from);
        let ended = self.ask_between(from, end, now, keep);
        Retained {
            ended,
            next: if end < places { Some(end) } else { None },
        }
    }
}

impl<N: Name + LogName, K: Packed, V: Packed> Cache<N, K, V> {
    // Asks of items of a part that there is.
    fn retain_of_part<W: Wait, F: FnMut(&Item<K, V>) -> bool>(
        &self,
        rt: &W,
        me: &mut Caller<N, CacheState>,
        part: usize,
        from: u32,
        looks: u32,
        now: u64,
        keep: &mut F,
    ) -> Retained
        requires caller { 0 < me.old.parts }
        requires part { part < self.now.parts }
        requires callable { F.IsAlwaysCallable keep.old }
        ensures asks { AsksOfPart K.fits K.as_words V.fits V.as_words (CalledAt F.FnMut) part from looks now result
            keep.old keep.new me.old me.new }
        ensures callable { F.IsAlwaysCallable keep.new }
    {
        let mut guard = self.lock_part(rt, part);
        let logged = &mut *guard;
        let told = logged.value.pairs.retain(from, looks, now, keep);
        logged.log.note(rt, me, &logged.value);
        told
    }

    /// Asks `keep` of a part's items, some at a time, and ends those of which it answers false: as moka's
    /// `invalidate_entries_if`, or `retain` of a map. Parts and places are numbered from 0; each place of a part has
    /// room for one item, and there are as many as the part has chunks. It looks at `looks` places from `from` on, or
    /// up to the last one, and tells how many items ended, and from which place the next call goes on: None where it
    /// came to the last one, or where there is no place `from`. `keep` is called once for each of these places that has
    /// an item that hasn't expired at `now`, in the caller's ticks, in their order, with what it has; and with nothing
    /// else. So it is also the way to visit all items while others go on putting: answer true.
    ///
    /// An item that ends so doesn't count as evicted, as with `remove`: the index leads to it no more, and a reader that
    /// holds it keeps it. Under each other key stays what was there. Nothing is touched. What others put meanwhile, at
    /// a place that was looked at before, isn't asked of.
    ///
    /// It waits until no other thread changes the part, and those who want to change it wait until all these places
    /// were looked at; readers don't. `keep` mustn't change this cache: it would wait for itself. It asks for no memory.
    /// Where there is no part of this number nothing is done, it is no call, and there is no next place.
    pub fn retain<W: Wait, F: FnMut(&Item<K, V>) -> bool>(
        &self,
        rt: &W,
        me: &mut Caller<N, CacheState>,
        part: u32,
        from: u32,
        looks: u32,
        now: u64,
        keep: &mut F,
    ) -> Retained
        requires part { 0 < me.old.parts }
        requires callable { F.IsAlwaysCallable keep.old }
        ensures absent { self.now.parts ≤ part → (result.ended ≡ 0) × (result.next ≡ None) × (me.new ≡ me.old)
            × (keep.new ≡ keep.old) }
        ensures asks { part < self.now.parts → AsksOfPart K.fits K.as_words V.fits V.as_words (CalledAt F.FnMut) part
            from looks now result keep.old keep.new me.old me.new }
        ensures callable { F.IsAlwaysCallable keep.new }
    {
        if part as usize >= self.parts.len() {
            return Retained {
                ended: 0,
                next: None,
            };
        }
        self.retain_of_part(rt, me, part as usize, from, looks, now, keep)
    }
}

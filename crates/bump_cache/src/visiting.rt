//! A call that visits what is kept, part by part.
ghost use Rattle.std.specs.Prelude.{◌≡◌, ◌+◌, ◌<◌, true, false};
ghost use Rattle.bump_steps.specs.Views.{owns};
ghost use Rattle.cache_part.specs.Visiting.{has_unexpired};
ghost use Rattle.cache_shelf.specs.Entries.{ReadsShelf};
ghost use Rattle.cache_shelf.specs.Visiting.{entry_at};
ghost use Rattle.bump_cache.specs.Visiting.{CallsWith, VisitsEach, VisitsPart, VisitsParts};

use crate::caches::Cache;
use crate::pairs::Pairs;
use crate::states::CacheState;
use bump_heads::Name;
use call_log::{Caller, LogName};
use packed_words::Packed;
use std::sync::Wait;

impl<N: Name, K: Packed, V: Packed> Pairs<N, K, V> {
    // Calls a closure with the item of a chunk, where it has one that hasn't expired, and gives the closure back.
    fn visit_chunk<F: FnMut(K, V, u64)>(&mut self, chunk: u32, now: u64, mut visit: F) -> F
        requires own { owns chunk self.old.part.book.sheet ≡ true }
        requires callable { F.IsAlwaysCallable visit }
        ensures some { has_unexpired now self.old.part.book.sheet chunk ≡ true
            → CallsWith K.fits K.as_words V.fits V.as_words
            (λ from key value expires to. F.step from key value expires tt to) visit (entry_at self.old.part chunk)
            result }
        ensures none { has_unexpired now self.old.part.book.sheet chunk ≡ false → result ≡ visit }
        ensures callable { F.IsAlwaysCallable result }
        ensures reads { ReadsShelf self.old self.new }
    {
        let Some((key, value, expires)) = self.unexpired_at(chunk, now) else {
            return visit;
        };
        visit(key, value, expires);
        visit
    }

    /// Calls a closure with each key that has something that hasn't expired, its value and when that expires, and gives
    /// the closure back.
    pub(crate) fn for_each<F: FnMut(K, V, u64)>(&mut self, now: u64, mut visit: F) -> F
        requires { F.IsAlwaysCallable visit }
        ensures visits { VisitsEach K.fits K.as_words V.fits V.as_words
            (λ from key value expires to. F.step from key value expires tt to) now visit result self.old.part }
        ensures callable { F.IsAlwaysCallable result }
        ensures reads { ReadsShelf self.old self.new }
    {
        let chunks = self.chunks();
        for chunk in chunks.start..chunks.end {
            visit = self.visit_chunk(chunk, now, visit);
        }
        visit
    }
}

impl<N: Name + LogName, K: Packed, V: Packed> Cache<N, K, V> {
    // Visits a part that there is, and gives the closure back.
    fn for_each_part<W: Wait, F: FnMut(K, V, u64)>(
        &self,
        rt: &W,
        me: &mut Caller<N, CacheState>,
        part: usize,
        now: u64,
        visit: F,
    ) -> F
        requires caller { 0 < me.old.parts }
        requires part { part < self.now.parts }
        requires callable { F.IsAlwaysCallable visit }
        ensures visits { VisitsPart K.fits K.as_words V.fits V.as_words
            (λ from key value expires to. F.step from key value expires tt to) part now visit result me.old me.new }
        ensures callable { F.IsAlwaysCallable result }
    {
        let mut guard = self.lock_part(rt, part);
        let logged = &mut *guard;
        let visit = logged.value.pairs.for_each(now, visit);
        logged.log.note(rt, me, &logged.value);
        visit
    }

    /// Calls `visit` with each key that has something that hasn't expired at `now`, with its value, and with when that
    /// expires, which is 0 where it never does; once for each, and with nothing else. Times are in the caller's ticks.
    /// What it is called with are copies. Nothing is touched, no item ends, and all stays as it was: a get that is to
    /// count has to be made as one. It gives `visit` back.
    ///
    /// It goes through the parts in the order of their numbers, and has one lock at a time: it is one call for each
    /// part. What others put or end meanwhile in a part that it comes to later is seen as it is then, so there may have
    /// been no time at which all that was visited was there at once. In a part the order is that of its chunks, which
    /// tells nothing of when what was put or used.
    ///
    /// It waits until no other thread changes the part, and those who want to change it wait until `visit` was called
    /// with all that is there; readers don't. `visit` mustn't change this cache: it would wait for itself. It looks at
    /// each chunk once: its time is in proportion to the items that the cache has room for. memcached's `lru_crawler
    /// metadump` is such a walk.
    pub fn for_each<W: Wait, F: FnMut(K, V, u64)>(
        &self,
        rt: &W,
        me: &mut Caller<N, CacheState>,
        now: u64,
        mut visit: F,
    ) -> F
        requires part { 0 < me.old.parts }
        requires callable { F.IsAlwaysCallable visit }
        ensures visits { VisitsParts K.fits K.as_words V.fits V.as_words
            (λ from key value expires to. F.step from key value expires tt to) self.now.parts now visit result me.old
            me.new }
        ensures calls { me.new.calls ≡ me.old.calls + self.now.parts }
        ensures parts { me.new.parts ≡ me.old.parts }
    {
        for part in 0..self.parts.len() {
            visit = self.for_each_part(rt, me, part, now, visit);
        }
        visit
    }
}

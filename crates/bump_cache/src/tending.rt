//! Calls that go through the parts of a cache, one after the other.
ghost use Rattle.std.specs.Prelude.{◌≡◌, ◌+◌, ◌<◌};
ghost use Rattle.bump_cache.specs.Tending.{ClearsPart, ClearsParts, TendsPart, TendsParts, TendsUntilOver};

use crate::caches::Cache;
use crate::states::CacheState;
use bump_heads::Name;
use call_log::{Caller, LogName};
use packed_words::Packed;
use std::sync::Wait;
use std::thread;
use std::time::{Clock, Duration};

impl<N: Name + LogName, K: Packed, V: Packed> Cache<N, K, V> {
    // Tends a part that there is.
    fn tend_part<W: Wait>(&self, rt: &W, me: &mut Caller<N, CacheState>, part: usize, now: u64)
        requires caller { 0 < me.old.parts }
        requires part { part < self.now.parts }
        ensures { TendsPart part now me.old me.new }
    {
        let mut guard = self.lock_part(rt, part);
        let logged = &mut *guard;
        logged.value.pairs.tend(now);
        logged.log.note(rt, me, &logged.value);
    }

    /// What memcached's maintainer and its crawler do, for one part after the other, in the order of their numbers: it
    /// applies the bumps that the readers queued, at most a ring's room of each; ends the items that have expired at
    /// `now`, in as many chunks as the configuration says, where the last tend ended its looks, around and around;
    /// frees the chunks of ended items that nobody holds any more; and balances HOT and WARM: it looks at the last item
    /// of each in turn, until none of them is to go on, at most a hundred times. One that is ACTIVE loses that and goes
    /// to the front of WARM; another goes to COLD where its list has more than its share, or where it was used longer
    /// ago than so many percent of COLD's age, as the configuration says. It waits until no other thread changes the
    /// part, and has one lock at a time: it is one call for each part. `now` is also the time of the bumped items, and
    /// that by which ages are told, in the caller's ticks. The same keys have the same values, but those that have
    /// expired.
    pub fn tend<W: Wait>(&self, rt: &W, me: &mut Caller<N, CacheState>, now: u64)
        requires part { 0 < me.old.parts }
        ensures tends { TendsParts self.now.parts now me.old me.new }
        ensures calls { me.new.calls ≡ me.old.calls + self.now.parts }
        ensures parts { me.new.parts ≡ me.old.parts }
    {
        for part in 0..self.parts.len() {
            self.tend_part(rt, me, part, now);
        }
    }

    /// Tends the cache as `tend` does, again and again, each time at what `clock` tells then, until it tells None: the
    /// loop of a thread of its own. `clock` is asked before each tend, and is given back. It tells the time in the
    /// caller's ticks, as `|| if stop.load(Ordering::SeqCst) { None } else { Some(ticks.load(Ordering::SeqCst)) }`. The
    /// loop never sleeps, so it takes a whole processor, and the locks again and again: take it where a processor has
    /// nothing else to do, and else `tend_each`.
    pub fn tend_until<W: Wait, F: FnMut() -> Option<u64>>(
        &self,
        rt: &W,
        me: &mut Caller<N, CacheState>,
        mut clock: F,
    ) -> F
        requires part { 0 < me.old.parts }
        requires callable { F.IsAlwaysCallable clock }
        ensures tends { TendsUntilOver (λ c told c'. F.step c told c') self.now.parts clock me.old result me.new }
        ensures parts { me.new.parts ≡ me.old.parts }
    {
        for _ in rt.forever() {
            let Some(now) = clock() else {
                return clock;
            };
            self.tend(rt, me, now);
        }
        unreachable!()
    }

    /// The same, but behind each tend it sleeps for `pause`, by `sleeper`, before it asks `clock` again: the loop of a
    /// thread of its own that takes little of a processor. Once `clock` has None to tell, it returns behind one pause
    /// at most. Which `pause` pays depends on how many gets come by meanwhile: their bumps wait in rings that have room
    /// for so many.
    pub fn tend_each<C: Clock, W: Wait, F: FnMut() -> Option<u64>>(
        &self,
        rt: &W,
        me: &mut Caller<N, CacheState>,
        sleeper: &C,
        pause: Duration,
        mut clock: F,
    ) -> F
        requires part { 0 < me.old.parts }
        requires callable { F.IsAlwaysCallable clock }
        ensures tends { TendsUntilOver (λ c told c'. F.step c told c') self.now.parts clock me.old result me.new }
        ensures parts { me.new.parts ≡ me.old.parts }
    {
        for _ in rt.forever() {
            let Some(time) = clock() else {
                return clock;
            };
            self.tend(rt, me, time);
            thread::sleep(sleeper, pause);
        }
        unreachable!()
    }

    // Ends each item of a part that there is.
    fn clear_part<W: Wait>(&self, rt: &W, me: &mut Caller<N, CacheState>, part: usize)
        requires caller { 0 < me.old.parts }
        requires part { part < self.now.parts }
        ensures { ClearsPart part me.old me.new }
    {
        let mut guard = self.lock_part(rt, part);
        let logged = &mut *guard;
        logged.value.pairs.clear();
        logged.log.note(rt, me, &logged.value);
    }

    /// Ends each item, as memcached's `flush_all`, in one part after the other; none counts as evicted. It waits until
    /// no other thread changes the part, and has one lock at a time: it is one call for each part, and where others put
    /// meanwhile a part that was cleared may have items again when the last one is. It looks at each chunk once: its
    /// time is in proportion to the items that the cache has room for.
    pub fn clear<W: Wait>(&self, rt: &W, me: &mut Caller<N, CacheState>)
        requires part { 0 < me.old.parts }
        ensures clears { ClearsParts self.now.parts me.old me.new }
        ensures calls { me.new.calls ≡ me.old.calls + self.now.parts }
        ensures parts { me.new.parts ≡ me.old.parts }
    {
        for part in 0..self.parts.len() {
            self.clear_part(rt, me, part);
        }
    }
}

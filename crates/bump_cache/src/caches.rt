//! A cache that threads share.
ghost use Rattle.std.specs.Prelude.{◌≡◌, ◌<◌, true, IfOk, IfErr, vec_len};
ghost use Rattle.std.specs.Sync.Mutex.{mutex_guard_value};
ghost use Rattle.cache_shelf.specs.Shelves.{with_put};
ghost use Rattle.call_log.specs.Calls.{MakesOne};
ghost use Rattle.bump_cache.specs.Caches.{part_in};
ghost use Rattle.bump_cache.specs.Putting.{PutsValue, RefusesValue, RemovesValue};
ghost use Rattle.bump_cache.specs.States.{from_of, part_called, to_of};

use crate::answers::{NoRoom, Put};
use crate::choosing::part_of_key;
use crate::numbered::Numbered;
use crate::states::CacheState;
use bump_heads::Name;
use call_log::{Caller, LogName, Logged};
use crossbeam_utils::CachePadded;
use keyed_hash::Seed;
use packed_words::Packed;
use std::hint;
use std::marker::Model;
use std::sync::{Mutex, MutexGuard, Wait};

// How often a lock that is taken is tried before a thread sleeps for it.
const LOCK_TRIES: u32 = 64;

/// A cache, which all threads share: whoever changes it waits for the lock of one of its parts, and whoever gets
/// doesn't. A key's part is by its hash.
///
/// Each thread that changes it has a `Caller` of its own, which has no bytes: by it the contracts say what a call did.
/// What was there in a part before a call is `from_of` of its caller, and what is there behind it `to_of`: both are
/// what the part's lock guarded at that moment, one directly behind the other, and behind all that the caller had seen
/// of it. Calls that go through all parts take one lock at a time, and are one call for each part.
#[derive(Drop)]
pub struct Cache<N: Name + LogName, K: Packed, V: Packed> {
    // By number. They are padded, so that who puts into one part doesn't disturb the next one's lines of memory.
    pub(crate) parts: Vec<CachePadded<Mutex<Logged<N, Numbered<N, K, V>, CacheState>>>>,
    pub(crate) seed: Seed,
}

impl<N: Name + LogName, K: Packed, V: Packed> Model for Cache<N, K, V> {
    ghost use Rattle.std.specs.Prelude.{◌+◌, ◌≤◌, vec_len};
    ghost use Rattle.bump_cache.specs.Caches.{CacheView};
    ghost use Rattle.cache_config.specs.Choosing.{IsPartCount};
    ghost use Rattle.bump_cache.specs.Opening.{most_words};

    ghost Value = { CacheView };

    ghost view = { λ c. record { parts = vec_len c.parts; seed = c.seed } };

    ghost invariant = { λ c. IsPartCount (vec_len c.parts) × (K.width + V.width ≤ most_words) };
}

// Whether this is what the lock of the part of this number guards.
fn is_part<N: Name + LogName, K: Packed, V: Packed>(
    logged: &Logged<N, Numbered<N, K, V>, CacheState>,
    part: usize,
) -> bool
    ensures { result ≡ true → logged.now.number ≡ part }
{
    logged.value.number as usize == part
}

impl<N: Name + LogName, K: Packed, V: Packed> Cache<N, K, V> {
    /// How many parts there are, 1 to 256.
    pub fn parts(&self) -> u32
        ensures { result ≡ self.now.parts }
    {
        self.parts.len() as u32
    }

    /// The part of a key, by number.
    pub fn part_of(&self, key: &K) -> u32
        ensures part { result ≡ part_in self.now (K.as_words key.now) }
        ensures within { result < self.now.parts }
    {
        part_of_key(self.parts.len(), self.seed, key) as u32
    }

    // The place of the lock that is tried behind this one.
    fn next_lock(&self, at: usize) -> usize
        requires { at < self.now.parts }
        ensures { result < self.now.parts }
    {
        let next = at.saturating_add(1);
        if next < self.parts.len() { next } else { 0 }
    }

    // What the lock at this place guards, until the guard is let go. Who has it gives it back within a microsecond, as
    // a rule, and to sleep and to be woken takes longer: so a thread looks for about as long before it sleeps.
    fn wait_for_lock<W: Wait>(
        &self,
        rt: &W,
        at: usize,
    ) -> MutexGuard<'_, Logged<N, Numbered<N, K, V>, CacheState>>
        requires { at < self.now.parts }
    {
        for _ in 0..LOCK_TRIES {
            if let Some(guard) = self.parts[at].try_lock() {
                return guard;
            }
            hint::spin_loop();
        }
        self.parts[at].lock(rt)
    }

    // What the lock of the part of this number guards, until the guard is let go. The number is compared under the
    // lock, since a caller that has two guards could exchange what they guard.
    #[inline(always)]
    pub(crate) fn lock_part<W: Wait>(
        &self,
        rt: &W,
        part: usize,
    ) -> MutexGuard<'_, Logged<N, Numbered<N, K, V>, CacheState>>
        requires { part < self.now.parts }
        ensures { (mutex_guard_value result).number ≡ part }
    {
        if let Some(guard) = self.parts[part].try_lock() {
            if is_part(&guard, part) {
                return guard;
            }
        }
        self.wait_for_part(rt, part)
    }

    // The same where the lock is taken, or what it guards was exchanged: then it goes round the locks, one at a time,
    // until it finds the part.
    #[inline(never)]
    fn wait_for_part<W: Wait>(
        &self,
        rt: &W,
        part: usize,
    ) -> MutexGuard<'_, Logged<N, Numbered<N, K, V>, CacheState>>
        requires { part < self.now.parts }
        ensures { (mutex_guard_value result).number ≡ part }
    {
        let mut at = part;
        for _ in rt.forever() {
            let guard = self.wait_for_lock(rt, at);
            if is_part(&guard, part) {
                return guard;
            }
            at = self.next_lock(at);
        }
        unreachable!()
    }

    // What the lock of a key's part guards, until the guard is let go.
    #[inline(always)]
    pub(crate) fn lock_of<W: Wait>(
        &self,
        rt: &W,
        key: &K,
    ) -> MutexGuard<'_, Logged<N, Numbered<N, K, V>, CacheState>>
        ensures { (mutex_guard_value result).number ≡ part_in self.now (K.as_words key.now) }
    {
        self.lock_part(rt, self.part_of(key) as usize)
    }

    /// Puts a value under a key that never expires, as memcached's `set` with the time 0: `put_until` with 0.
    pub fn put<W: Wait>(
        &self,
        rt: &W,
        me: &mut Caller<N, CacheState>,
        key: &K,
        value: &V,
        now: u64,
    ) -> Result<Put<K, V>, NoRoom<K, V>>
        requires part { 0 < me.old.parts }
        ensures call { MakesOne me.old me.new }
        ensures part { part_called me.new ≡ part_in self.now (K.as_words key.now) }
        ensures puts { IfOk result (λ did. PutsValue K.as_words V.as_words key.now value.now 0 now did (from_of me.new)
            (to_of me.new)) }
        ensures refuses { IfErr result (λ why. RefusesValue K.as_words V.as_words key.now now why (from_of me.new)
            (to_of me.new)) }
        ensures same { to_of me.new ≡ with_put (to_of me.new) (from_of me.new) }
    {
        self.put_until(rt, me, key, value, 0, now)
    }

    /// Puts a value under a key until a time, as memcached's `set`: it waits until no other thread changes the key's
    /// part. From `expires` on no get finds it any more, and 0 is never; where `expires` isn't behind `now` it has
    /// expired at once, and is put all the same. `now` is the item's time, and that of the bumps which it applies.
    /// Times are in the caller's ticks, which all calls count alike. It asks for no memory.
    ///
    /// Where the key has nothing and as many items as the configuration says are there, one is evicted: where COLD's
    /// last one is held all bumps that wait are applied first, at most a ring's room of each reader; then of COLD's
    /// last ones those go to WARM that were in use since they came there, at most 8, until one has expired; and then
    /// COLD's last one ends, or WARM's where COLD is empty, or HOT's, or TEMP's. It is told, with its cause: whether it
    /// had expired at `now`. What the key had before ends behind the new item's beginning, so a reader finds the one or
    /// the other; it is told where it hadn't expired. The new item begins in TEMP where it expires within as many ticks
    /// as the configuration says, and else in HOT. Where no chunk is free for it, also of ended items that nobody holds
    /// any more, all bumps that wait are applied, too. It is refused, as `NoRoom`, exactly where no chunk is free then:
    /// behind that each without an item was found held, or has had its last generation; the key keeps what it had. Each
    /// eighth put of a part begins with bumps that wait, at most 16 of each reader, and ends with a balance of HOT and
    /// WARM, as a tend does, in eight rounds at most.
    pub fn put_until<W: Wait>(
        &self,
        rt: &W,
        me: &mut Caller<N, CacheState>,
        key: &K,
        value: &V,
        expires: u64,
        now: u64,
    ) -> Result<Put<K, V>, NoRoom<K, V>>
        requires part { 0 < me.old.parts }
        ensures call { MakesOne me.old me.new }
        ensures part { part_called me.new ≡ part_in self.now (K.as_words key.now) }
        ensures puts { IfOk result (λ did. PutsValue K.as_words V.as_words key.now value.now expires now did (from_of me.new)
            (to_of me.new)) }
        ensures refuses { IfErr result (λ why. RefusesValue K.as_words V.as_words key.now now why (from_of me.new)
            (to_of me.new)) }
        ensures same { to_of me.new ≡ with_put (to_of me.new) (from_of me.new) }
    {
        let mut guard = self.lock_of(rt, key);
        let logged = &mut *guard;
        let put = logged.value.pairs.put(key, value, expires, now);
        logged.log.note(rt, me, &logged.value);
        put
    }

    /// Ends the item of the key, as memcached's `delete`, and tells its value where it hasn't expired at `now`, in the
    /// caller's ticks. One that has ends as well, and isn't told: so it answers None where nothing is under the key, or
    /// what has expired. The other items keep their order, and none counts as evicted. It waits until no other thread
    /// changes the key's part.
    pub fn remove<W: Wait>(
        &self,
        rt: &W,
        me: &mut Caller<N, CacheState>,
        key: &K,
        now: u64,
    ) -> Option<V>
        requires part { 0 < me.old.parts }
        ensures call { MakesOne me.old me.new }
        ensures part { part_called me.new ≡ part_in self.now (K.as_words key.now) }
        ensures removes { RemovesValue K.as_words V.as_words key.now now result (from_of me.new) (to_of me.new) }
    {
        let mut guard = self.lock_of(rt, key);
        let logged = &mut *guard;
        let old = logged.value.pairs.remove(key, now);
        logged.log.note(rt, me, &logged.value);
        old
    }
}

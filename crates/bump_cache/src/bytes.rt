//! Look-ups by text and by bytes, for keys that are strings.
ghost use Rattle.std.specs.Prelude.{◌≡◌, ◌<◌, IfSome, IfNone, None, true, false};
ghost use Rattle.cache_readers.specs.Readers.{CountsHit, CountsNothing, Misses, ReadsNothing};
ghost use Rattle.call_log.specs.Calls.{MakesOne};
ghost use Rattle.packed_words.specs.Strings.{MayHold, string_words};
ghost use Rattle.bump_cache.specs.Bytes.{IfRoom, IfTooLong};
ghost use Rattle.bump_cache.specs.Caches.{part_in};
ghost use Rattle.bump_cache.specs.Pairs.{IsPair};
ghost use Rattle.bump_cache.specs.Putting.{RemovesValue};
ghost use Rattle.bump_cache.specs.Readers.{FindsValue, InPart, KeepsRings, MissesKey, SeesItem};
ghost use Rattle.bump_cache.specs.States.{from_of, part_called, to_of};

use crate::caches::Cache;
use crate::readers::CacheReader;
use crate::states::CacheState;
use bump_heads::Name;
use call_log::{Caller, LogName};
use packed_words::{Bytes, Packed};
use std::sync::Wait;

impl<N: Name, V: Packed, const W: usize> CacheReader<N, Bytes<W>, V> {
    /// What was put under the string of these bytes: as `get` of that string. Where it is longer than `8 * W - 2` bytes,
    /// or `W` is more than 64, no key is that string: it answers None, and nothing changes, so this get isn't counted.
    #[inline(always)]
    pub fn get_bytes(&mut self, key: &[u8], now: u64) -> Option<V>
        ensures found { IfSome result (λ value. InPart (FindsValue (IsPair (MayHold W) (string_words W) V.fits V.as_words)
            (string_words W key.now) (V.as_words value) now) (string_words W key.now) self.old self.new) }
        ensures counted { IfSome result (λ value. InPart CountsHit (string_words W key.now) self.old self.new) }
        ensures missed { IfNone result (IfRoom W key.now (InPart (Misses (string_words W key.now) now)
            (string_words W key.now) self.old self.new)) }
        ensures absent { IfNone result (IfRoom W key.now (InPart (MissesKey self.old.seed (string_words W key.now) now)
            (string_words W key.now) self.old self.new)) }
        ensures too_long { IfTooLong W key.now (result ≡ None) }
        ensures unchanged { IfTooLong W key.now (self.new ≡ self.old) }
        ensures ring { KeepsRings self.old self.new }
    {
        match Bytes::new(key) {
            Ok(key) => self.get(&key, now),
            Err(_) => None,
        }
    }

    /// What was put under the string of a text's bytes, as `get_bytes` answers it.
    #[inline(always)]
    pub fn get_text(&mut self, key: &str, now: u64) -> Option<V>
        ensures found { IfSome result (λ value. InPart (FindsValue (IsPair (MayHold W) (string_words W) V.fits V.as_words)
            (string_words W key.now) (V.as_words value) now) (string_words W key.now) self.old self.new) }
        ensures counted { IfSome result (λ value. InPart CountsHit (string_words W key.now) self.old self.new) }
        ensures missed { IfNone result (IfRoom W key.now (InPart (Misses (string_words W key.now) now)
            (string_words W key.now) self.old self.new)) }
        ensures absent { IfNone result (IfRoom W key.now (InPart (MissesKey self.old.seed (string_words W key.now) now)
            (string_words W key.now) self.old self.new)) }
        ensures too_long { IfTooLong W key.now (result ≡ None) }
        ensures unchanged { IfTooLong W key.now (self.new ≡ self.old) }
        ensures ring { KeepsRings self.old self.new }
    {
        self.get_bytes(key.as_bytes(), now)
    }

    /// Whether something is under the string of these bytes that hasn't expired at `now`: as `contains` of that string.
    /// Where it is longer than `8 * W - 2` bytes, or `W` is more than 64, no key is that string: it answers false, and
    /// nothing changes.
    #[inline(always)]
    pub fn contains_bytes(&mut self, key: &[u8], now: u64) -> bool
        ensures found { result ≡ true → InPart (SeesItem (IsPair (MayHold W) (string_words W) V.fits V.as_words)
            (string_words W key.now) now) (string_words W key.now) self.old self.new }
        ensures nothing { result ≡ false → IfRoom W key.now (InPart (ReadsNothing (string_words W key.now) now)
            (string_words W key.now) self.old self.new) }
        ensures absent { result ≡ false → IfRoom W key.now (InPart (MissesKey self.old.seed (string_words W key.now) now)
            (string_words W key.now) self.old self.new) }
        ensures too_long { IfTooLong W key.now (result ≡ false) }
        ensures unchanged { IfTooLong W key.now (self.new ≡ self.old) }
        ensures uncounted { IfRoom W key.now (InPart (CountsNothing result) (string_words W key.now) self.old self.new) }
        ensures ring { KeepsRings self.old self.new }
    {
        match Bytes::new(key) {
            Ok(key) => self.contains(&key, now),
            Err(_) => false,
        }
    }

    /// Whether something is under the string of a text's bytes, as `contains_bytes` answers it.
    #[inline(always)]
    pub fn contains_text(&mut self, key: &str, now: u64) -> bool
        ensures found { result ≡ true → InPart (SeesItem (IsPair (MayHold W) (string_words W) V.fits V.as_words)
            (string_words W key.now) now) (string_words W key.now) self.old self.new }
        ensures nothing { result ≡ false → IfRoom W key.now (InPart (ReadsNothing (string_words W key.now) now)
            (string_words W key.now) self.old self.new) }
        ensures absent { result ≡ false → IfRoom W key.now (InPart (MissesKey self.old.seed (string_words W key.now) now)
            (string_words W key.now) self.old self.new) }
        ensures too_long { IfTooLong W key.now (result ≡ false) }
        ensures unchanged { IfTooLong W key.now (self.new ≡ self.old) }
        ensures uncounted { IfRoom W key.now (InPart (CountsNothing result) (string_words W key.now) self.old self.new) }
        ensures ring { KeepsRings self.old self.new }
    {
        self.contains_bytes(key.as_bytes(), now)
    }
}

impl<N: Name + LogName, V: Packed, const W: usize> Cache<N, Bytes<W>, V> {
    /// Ends the item of the string of these bytes, as `remove` of that string. Where it is longer than `8 * W - 2`
    /// bytes, or `W` is more than 64, no key is that string: it answers None at once, and makes no call.
    pub fn remove_bytes<R: Wait>(
        &self,
        rt: &R,
        me: &mut Caller<N, CacheState>,
        key: &[u8],
        now: u64,
    ) -> Option<V>
        requires part { 0 < me.old.parts }
        ensures call { IfRoom W key.now (MakesOne me.old me.new) }
        ensures part { IfRoom W key.now (part_called me.new ≡ part_in self.now (string_words W key.now)) }
        ensures removes { IfRoom W key.now (RemovesValue (string_words W) V.as_words key.now now result (from_of me.new)
            (to_of me.new)) }
        ensures too_long { IfTooLong W key.now (result ≡ None) }
        ensures unchanged { IfTooLong W key.now (me.new ≡ me.old) }
        ensures parts { me.new.parts ≡ me.old.parts }
    {
        match Bytes::new(key) {
            Ok(key) => self.remove(rt, me, &key, now),
            Err(_) => None,
        }
    }

    /// Ends the item of the string of a text's bytes, as `remove_bytes` does.
    pub fn remove_text<R: Wait>(
        &self,
        rt: &R,
        me: &mut Caller<N, CacheState>,
        key: &str,
        now: u64,
    ) -> Option<V>
        requires part { 0 < me.old.parts }
        ensures call { IfRoom W key.now (MakesOne me.old me.new) }
        ensures part { IfRoom W key.now (part_called me.new ≡ part_in self.now (string_words W key.now)) }
        ensures removes { IfRoom W key.now (RemovesValue (string_words W) V.as_words key.now now result (from_of me.new)
            (to_of me.new)) }
        ensures too_long { IfTooLong W key.now (result ≡ None) }
        ensures unchanged { IfTooLong W key.now (me.new ≡ me.old) }
        ensures parts { me.new.parts ≡ me.old.parts }
    {
        self.remove_bytes(rt, me, key.as_bytes(), now)
    }
}

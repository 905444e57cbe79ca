//! A cache whose keys are strings, as a caller calls it.
ghost use Rattle.bump_cache.specs.Bytes.{IfRoom, IfTooLong};
ghost use Rattle.bump_cache.specs.Caches.{part_in};
ghost use Rattle.bump_cache.specs.Pairs.{IsPair};
ghost use Rattle.bump_cache.specs.Putting.{RemovesValue};
ghost use Rattle.bump_cache.specs.Readers.{FindsValue, InPart, KeepsRings, MissesKey, SeesItem};
ghost use Rattle.bump_cache.specs.States.{from_of, part_called, to_of};
ghost use Rattle.cache_readers.specs.Readers.{CountsHit, Misses, CountsNothing, ReadsNothing};
ghost use Rattle.call_log.specs.Calls.{MakesOne};
ghost use Rattle.packed_words.specs.Strings.{MayHold, string_words};
ghost use Rattle.std.specs.Prelude.{◌≡◌, IfSome, IfNone, None, true, false, ◌<◌};

use bump_cache::{Bytes, Cache, CacheReader, CacheState, Caller, LogName, Name, Packed};
use std::sync::Wait;

/// What was put under a string of bytes.
pub fn get_bytes<N: Name, V: Packed, const W: usize>(
    reader: &mut CacheReader<N, Bytes<W>, V>,
    key: &[u8],
    now: u64,
    made_up: V,
) -> Option<V>
    ensures found { IfSome result (λ value. InPart (FindsValue (IsPair (MayHold W) (string_words W) V.fits V.as_words)
        (string_words W key.now) (V.as_words value) now) (string_words W key.now) reader.old reader.new) }
    ensures counted { IfSome result (λ value. InPart CountsHit (string_words W key.now) reader.old reader.new) }
    ensures missed { IfNone result (IfRoom W key.now (InPart (Misses (string_words W key.now) now)
        (string_words W key.now) reader.old reader.new)) }
    ensures absent { IfNone result (IfRoom W key.now (InPart (MissesKey reader.old.seed (string_words W key.now) now)
        (string_words W key.now) reader.old reader.new)) }
    ensures too_long { IfTooLong W key.now (result ≡ None) }
    ensures unchanged { IfTooLong W key.now (reader.new ≡ reader.old) }
    ensures ring { KeepsRings reader.old reader.new }
{
    reader.get_bytes(key, now)
}

/// What was put under a text.
pub fn get_text<N: Name, V: Packed, const W: usize>(
    reader: &mut CacheReader<N, Bytes<W>, V>,
    key: &str,
    now: u64,
    made_up: V,
) -> Option<V>
    ensures found { IfSome result (λ value. InPart (FindsValue (IsPair (MayHold W) (string_words W) V.fits V.as_words)
        (string_words W key.now) (V.as_words value) now) (string_words W key.now) reader.old reader.new) }
    ensures counted { IfSome result (λ value. InPart CountsHit (string_words W key.now) reader.old reader.new) }
    ensures missed { IfNone result (IfRoom W key.now (InPart (Misses (string_words W key.now) now)
        (string_words W key.now) reader.old reader.new)) }
    ensures absent { IfNone result (IfRoom W key.now (InPart (MissesKey reader.old.seed (string_words W key.now) now)
        (string_words W key.now) reader.old reader.new)) }
    ensures too_long { IfTooLong W key.now (result ≡ None) }
    ensures unchanged { IfTooLong W key.now (reader.new ≡ reader.old) }
    ensures ring { KeepsRings reader.old reader.new }
{
    reader.get_text(key, now)
}

/// Whether something is under a string of bytes.
pub fn contains_bytes<N: Name, V: Packed, const W: usize>(
    reader: &mut CacheReader<N, Bytes<W>, V>,
    key: &[u8],
    now: u64,
) -> bool
    ensures found { result ≡ true → InPart (SeesItem (IsPair (MayHold W) (string_words W) V.fits V.as_words)
        (string_words W key.now) now) (string_words W key.now) reader.old reader.new }
    ensures nothing { result ≡ false → IfRoom W key.now (InPart (ReadsNothing (string_words W key.now) now)
        (string_words W key.now) reader.old reader.new) }
    ensures absent { result ≡ false → IfRoom W key.now (InPart (MissesKey reader.old.seed (string_words W key.now) now)
        (string_words W key.now) reader.old reader.new) }
    ensures too_long { IfTooLong W key.now (result ≡ false) }
    ensures unchanged { IfTooLong W key.now (reader.new ≡ reader.old) }
    ensures uncounted { IfRoom W key.now (InPart (CountsNothing result) (string_words W key.now) reader.old reader.new) }
    ensures ring { KeepsRings reader.old reader.new }
{
    reader.contains_bytes(key, now)
}

/// Whether something is under a text.
pub fn contains_text<N: Name, V: Packed, const W: usize>(
    reader: &mut CacheReader<N, Bytes<W>, V>,
    key: &str,
    now: u64,
) -> bool
    ensures found { result ≡ true → InPart (SeesItem (IsPair (MayHold W) (string_words W) V.fits V.as_words)
        (string_words W key.now) now) (string_words W key.now) reader.old reader.new }
    ensures nothing { result ≡ false → IfRoom W key.now (InPart (ReadsNothing (string_words W key.now) now)
        (string_words W key.now) reader.old reader.new) }
    ensures absent { result ≡ false → IfRoom W key.now (InPart (MissesKey reader.old.seed (string_words W key.now) now)
        (string_words W key.now) reader.old reader.new) }
    ensures too_long { IfTooLong W key.now (result ≡ false) }
    ensures unchanged { IfTooLong W key.now (reader.new ≡ reader.old) }
    ensures uncounted { IfRoom W key.now (InPart (CountsNothing result) (string_words W key.now) reader.old reader.new) }
    ensures ring { KeepsRings reader.old reader.new }
{
    reader.contains_text(key, now)
}

/// Ends the item of a string of bytes.
pub fn remove_bytes<N: Name + LogName, V: Packed, const W: usize, R: Wait>(
    cache: &Cache<N, Bytes<W>, V>,
    rt: &R,
    me: &mut Caller<N, CacheState>,
    key: &[u8],
    now: u64,
    made_up: V,
) -> Option<V>
    requires part { 0 < me.old.parts }
    ensures call { IfRoom W key.now (MakesOne me.old me.new) }
    ensures part { IfRoom W key.now (part_called me.new ≡ part_in cache.now (string_words W key.now)) }
    ensures removes { IfRoom W key.now (RemovesValue (string_words W) V.as_words key.now now result (from_of me.new)
        (to_of me.new)) }
    ensures too_long { IfTooLong W key.now (result ≡ None) }
    ensures unchanged { IfTooLong W key.now (me.new ≡ me.old) }
    ensures parts { me.new.parts ≡ me.old.parts }
{
    cache.remove_bytes(rt, me, key, now)
}

/// Ends the item of a text.
pub fn remove_text<N: Name + LogName, V: Packed, const W: usize, R: Wait>(
    cache: &Cache<N, Bytes<W>, V>,
    rt: &R,
    me: &mut Caller<N, CacheState>,
    key: &str,
    now: u64,
    made_up: V,
) -> Option<V>
    requires part { 0 < me.old.parts }
    ensures call { IfRoom W key.now (MakesOne me.old me.new) }
    ensures part { IfRoom W key.now (part_called me.new ≡ part_in cache.now (string_words W key.now)) }
    ensures removes { IfRoom W key.now (RemovesValue (string_words W) V.as_words key.now now result (from_of me.new)
        (to_of me.new)) }
    ensures too_long { IfTooLong W key.now (result ≡ None) }
    ensures unchanged { IfTooLong W key.now (me.new ≡ me.old) }
    ensures parts { me.new.parts ≡ me.old.parts }
{
    cache.remove_text(rt, me, key, now)
}

//! A reader of a cache, as a caller calls it.
ghost use Rattle.bump_cache.specs.Many.{GetsEach};
ghost use Rattle.bump_cache.specs.Pairs.{IsPair};
ghost use Rattle.bump_cache.specs.Readers.{FindsValue, InPart, KeepsRings, MissesKey, PeeksValue, SeesItem, missed_of, part_for};
ghost use Rattle.cache_config.specs.Sums.{hits_of, misses_of, AddsUp, bumps_of, dropped_of};
ghost use Rattle.cache_readers.specs.Readers.{CountsHit, Misses, CountsNothing, ReadsNothing};
ghost use Rattle.std.specs.Prelude.{IfSome, IfNone, ◌≡◌, is_some, length, option_map, slice_get, Some, true, false, All};

use bump_cache::{Accounts, CacheReader, Miss, Name, Packed};

/// What was put under a key.
pub fn get<N: Name, K: Packed, V: Packed>(
    reader: &mut CacheReader<N, K, V>,
    key: &K,
    now: u64,
    made_up: V,
) -> Option<V>
    ensures found { IfSome result (λ value. InPart (FindsValue (IsPair K.fits K.as_words V.fits V.as_words)
        (K.as_words key.now) (V.as_words value) now) (K.as_words key.now) reader.old reader.new) }
    ensures counted { IfSome result (λ value. InPart CountsHit (K.as_words key.now) reader.old reader.new) }
    ensures missed { IfNone result (InPart (Misses (K.as_words key.now) now) (K.as_words key.now) reader.old
        reader.new) }
    ensures absent { IfNone result (InPart (MissesKey reader.old.seed (K.as_words key.now) now) (K.as_words key.now)
        reader.old reader.new) }
    ensures ring { KeepsRings reader.old reader.new }
{
    reader.get(key, now)
}

/// What was put under each of these keys.
pub fn get_many<N: Name, K: Packed, V: Packed>(
    reader: &mut CacheReader<N, K, V>,
    keys: &[K],
    values: &mut [Option<V>],
    now: u64,
)
    requires even { length values.old ≡ length keys.now }
    ensures each { GetsEach (IsPair K.fits K.as_words V.fits V.as_words) K.as_words V.as_words now keys.now
        values.new reader.old reader.new }
    ensures length { length values.new ≡ length values.old }
    ensures ring { KeepsRings reader.old reader.new }
{
    reader.get_many(keys, values, now)
}

/// The same without a touch.
pub fn peek<N: Name, K: Packed, V: Packed>(
    reader: &mut CacheReader<N, K, V>,
    key: &K,
    now: u64,
    made_up: V,
) -> Option<V>
    ensures found { IfSome result (λ value. InPart (PeeksValue (IsPair K.fits K.as_words V.fits V.as_words)
        (K.as_words key.now) (V.as_words value) now) (K.as_words key.now) reader.old reader.new) }
    ensures nothing { IfNone result (InPart (ReadsNothing (K.as_words key.now) now) (K.as_words key.now) reader.old
        reader.new) }
    ensures absent { IfNone result (InPart (MissesKey reader.old.seed (K.as_words key.now) now) (K.as_words key.now)
        reader.old reader.new) }
    ensures uncounted { InPart (CountsNothing (is_some result)) (K.as_words key.now) reader.old reader.new }
    ensures ring { KeepsRings reader.old reader.new }
{
    reader.peek(key, now)
}

/// Whether something is under a key.
pub fn contains<N: Name, K: Packed, V: Packed>(
    reader: &mut CacheReader<N, K, V>,
    key: &K,
    now: u64,
) -> bool
    ensures found { result ≡ true → InPart (SeesItem (IsPair K.fits K.as_words V.fits V.as_words)
        (K.as_words key.now) now) (K.as_words key.now) reader.old reader.new }
    ensures nothing { result ≡ false → InPart (ReadsNothing (K.as_words key.now) now) (K.as_words key.now) reader.old
        reader.new }
    ensures absent { result ≡ false → InPart (MissesKey reader.old.seed (K.as_words key.now) now) (K.as_words key.now)
        reader.old reader.new }
    ensures uncounted { InPart (CountsNothing result) (K.as_words key.now) reader.old reader.new }
    ensures ring { KeepsRings reader.old reader.new }
{
    reader.contains(key, now)
}

/// Why nothing was found in the key's part, when that was so last.
pub fn last_miss<N: Name, K: Packed, V: Packed>(reader: &CacheReader<N, K, V>, key: &K) -> Miss
    ensures { option_map missed_of (slice_get reader.now.parts (part_for (K.as_words key.now) reader.now)) ≡ Some result }
{
    reader.last_miss(key)
}

/// How many gets found something.
pub fn hits<N: Name, K: Packed, V: Packed>(reader: &CacheReader<N, K, V>) -> u64
    ensures { result ≡ hits_of reader.now.parts }
{
    reader.hits()
}

/// How many gets found nothing.
pub fn misses<N: Name, K: Packed, V: Packed>(reader: &CacheReader<N, K, V>) -> u64
    ensures { result ≡ misses_of reader.now.parts }
{
    reader.misses()
}

/// Its counts of bumps.
pub fn bumps<N: Name, K: Packed, V: Packed>(reader: &CacheReader<N, K, V>) -> Accounts
    ensures counts { result ≡ bumps_of reader.now.parts }
    ensures add_up { All AddsUp reader.now.parts }
{
    reader.bumps()
}

/// How many bumps were dropped.
pub fn bumps_dropped<N: Name, K: Packed, V: Packed>(reader: &CacheReader<N, K, V>) -> u64
    ensures { result ≡ dropped_of (bumps_of reader.now.parts) }
{
    reader.bumps_dropped()
}

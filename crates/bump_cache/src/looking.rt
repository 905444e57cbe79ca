//! Gets by the reader of a key's part.
ghost use Rattle.std.specs.Prelude.{◌≡◌, ◌+◌, ◌≤◌, true, false, is_some, length, IfSome, IfNone};
ghost use Rattle.cache_readers.specs.Readers.{CountsHit, CountsNothing, GlancedAt, KeepsRing, Misses, ReadsMissed, ReadsNothing};
ghost use Rattle.cache_readers.specs.Readers.{ReaderView as TheReaderView};
ghost use Rattle.cache_config.specs.Choosing.{IsPartCount};
ghost use Rattle.bump_cache.specs.Opening.{most_words};
ghost use Rattle.bump_cache.specs.Pairs.{IsPair};
ghost use Rattle.bump_cache.specs.Readers.{FindsValue, HitsItem, HoldsValue, InPart, KeepsRings, MissesBy, MissesItem, MissesKey, PeeksValue, SeesItem, readers_by};

use crate::held::PairHold;
use crate::law::{MOST_WORDS, PairLaw};
use bump_heads::Name;
use cache_config::part_in;
use cache_readers::{Glanced, ItemId, WordReader};
use keyed_hash::{Seed, upper_half};
use packed_words::Packed;

// Gets a value by a reader of words, with the words of the key, and room for those of the value.
#[inline(always)]
fn get_by<N: Name, K: Packed, V: Packed>(
    reader: &mut WordReader<N, PairLaw<K, V>>,
    hash: u32,
    key: &K,
    words: &[u64],
    value: &mut [u64],
    now: u64,
) -> Option<V>
    requires few { K.width + V.width ≤ N.table.slots }
    requires most { K.width + V.width ≤ most_words }
    requires words { words.now ≡ K.as_words key.now }
    requires length { length words.now ≡ K.width }
    requires value { length value.old ≡ V.width }
    ensures found { IfSome result (λ it. FindsValue (IsPair K.fits K.as_words V.fits V.as_words) (K.as_words key.now)
        (V.as_words it) now reader.old reader.new) }
    ensures counted { IfSome result (λ it. CountsHit reader.old reader.new) }
    ensures missed { IfNone result (Misses (K.as_words key.now) now reader.old reader.new) }
    ensures absent { IfNone result (ReadsMissed hash (K.as_words key.now) now reader.old reader.new) }
    ensures ring { KeepsRing reader.old reader.new }
{
    match reader.glance(hash, words, value, now) {
        Glanced::Found => Some(V::unpack(value)),
        Glanced::Nothing => None,
        Glanced::Unsure(id) => get_held_by(reader, id, hash, key, now),
    }
}

// Goes on from a life at which a glance told nothing. It packs the key anew, so that the words of a get by a glance stay
// in registers: most gets are one.
#[cold]
#[inline(never)]
fn get_held_by<N: Name, K: Packed, V: Packed>(
    reader: &mut WordReader<N, PairLaw<K, V>>,
    id: ItemId,
    hash: u32,
    key: &K,
    now: u64,
) -> Option<V>
    requires few { K.width + V.width ≤ N.table.slots }
    requires most { K.width + V.width ≤ most_words }
    ensures found { IfSome result (λ it. (before : TheReaderView) → GlancedAt id before reader.old
        → FindsValue (IsPair K.fits K.as_words V.fits V.as_words) (K.as_words key.now) (V.as_words it) now before
        reader.new) }
    ensures counted { IfSome result (λ it. CountsHit reader.old reader.new) }
    ensures missed { IfNone result ((before : TheReaderView) → GlancedAt id before reader.old
        → Misses (K.as_words key.now) now before reader.new) }
    ensures absent { IfNone result ((before : TheReaderView) → GlancedAt id before reader.old
        → ReadsMissed hash (K.as_words key.now) now before reader.new) }
    ensures ring { KeepsRing reader.old reader.new }
{
    let mut key_row = [0; MOST_WORDS];
    let mut value_row = [0; MOST_WORDS];
    let words = &mut key_row[..K::words()];
    let value = &mut value_row[..V::words()];
    key.pack(words);
    if !reader.get_held(id, hash, words, value, now) {
        return None;
    }
    Some(V::unpack(value))
}

// Gets an item by a reader of words and holds it, with the words of the key.
#[inline(always)]
fn hold_by<N: Name, K: Packed, V: Packed>(
    reader: &mut WordReader<N, PairLaw<K, V>>,
    hash: u32,
    _key: &K,
    words: &[u64],
    now: u64,
) -> Option<PairHold<N, K, V>>
    requires few { K.width + V.width ≤ N.table.slots }
    requires most { K.width + V.width ≤ most_words }
    requires words { words.now ≡ K.as_words _key.now }
    requires length { length words.now ≡ K.width }
    ensures found { IfSome result (λ hold. HitsItem (IsPair K.fits K.as_words V.fits V.as_words) (K.as_words _key.now)
        now hold reader.old reader.new) }
    ensures counted { IfSome result (λ hold. CountsHit reader.old reader.new) }
    ensures value { IfSome result (λ hold. HoldsValue V.fits V.as_words K.width hold) }
    ensures missed { IfNone result (MissesBy hash (K.as_words _key.now) now reader.old reader.new) }
    ensures ring { KeepsRing reader.old reader.new }
{
    let Some(hold) = reader.hold(hash, words, now) else {
        return None;
    };
    Some(PairHold::new(hold))
}

// Peeks at a value by a reader of words, in the same way.
#[inline(always)]
fn peek_by<N: Name, K: Packed, V: Packed>(
    reader: &mut WordReader<N, PairLaw<K, V>>,
    hash: u32,
    _key: &K,
    words: &[u64],
    value: &mut [u64],
    now: u64,
) -> Option<V>
    requires few { K.width + V.width ≤ N.table.slots }
    requires words { words.now ≡ K.as_words _key.now }
    requires length { length words.now ≡ K.width }
    requires value { length value.old ≡ V.width }
    ensures found { IfSome result (λ it. PeeksValue (IsPair K.fits K.as_words V.fits V.as_words) (K.as_words _key.now)
        (V.as_words it) now reader.old reader.new) }
    ensures nothing { IfNone result (ReadsNothing (K.as_words _key.now) now reader.old reader.new) }
    ensures absent { IfNone result (ReadsMissed hash (K.as_words _key.now) now reader.old reader.new) }
    ensures uncounted { CountsNothing (is_some result) reader.old reader.new }
    ensures ring { KeepsRing reader.old reader.new }
{
    if !reader.peek(hash, words, value, now) {
        return None;
    }
    Some(V::unpack(value))
}

// Sees whether there is an item with the key, in the same way.
#[inline(always)]
fn see_by<N: Name, K: Packed, V: Packed>(
    reader: &mut WordReader<N, PairLaw<K, V>>,
    hash: u32,
    _key: &K,
    words: &[u64],
    now: u64,
) -> bool
    requires few { K.width + V.width ≤ N.table.slots }
    requires words { words.now ≡ K.as_words _key.now }
    requires length { length words.now ≡ K.width }
    ensures found { result ≡ true → SeesItem (IsPair K.fits K.as_words V.fits V.as_words) (K.as_words _key.now) now
        reader.old reader.new }
    ensures nothing { result ≡ false → ReadsNothing (K.as_words _key.now) now reader.old reader.new }
    ensures absent { result ≡ false → ReadsMissed hash (K.as_words _key.now) now reader.old reader.new }
    ensures uncounted { CountsNothing result reader.old reader.new }
    ensures ring { KeepsRing reader.old reader.new }
{
    reader.contains(hash, words, now)
}

// Gets a value by the reader of the key's part, with room for the words of the key and of the value.
#[inline(always)]
pub(crate) fn get_in<N: Name, K: Packed, V: Packed>(
    parts: &mut [WordReader<N, PairLaw<K, V>>],
    seed: Seed,
    key: &K,
    words: &mut [u64],
    value: &mut [u64],
    now: u64,
) -> Option<V>
    requires parts { IsPartCount (length parts.old) }
    requires few { K.width + V.width ≤ N.table.slots }
    requires most { K.width + V.width ≤ most_words }
    requires words { length words.old ≡ K.width }
    requires value { length value.old ≡ V.width }
    ensures found { IfSome result (λ it. InPart (FindsValue (IsPair K.fits K.as_words V.fits V.as_words)
        (K.as_words key.now) (V.as_words it) now) (K.as_words key.now) (readers_by seed parts.old)
        (readers_by seed parts.new)) }
    ensures counted { IfSome result (λ it. InPart CountsHit (K.as_words key.now) (readers_by seed parts.old)
        (readers_by seed parts.new)) }
    ensures missed { IfNone result (InPart (Misses (K.as_words key.now) now) (K.as_words key.now)
        (readers_by seed parts.old) (readers_by seed parts.new)) }
    ensures absent { IfNone result (InPart (MissesKey seed (K.as_words key.now) now) (K.as_words key.now)
        (readers_by seed parts.old) (readers_by seed parts.new)) }
    ensures ring { KeepsRings (readers_by seed parts.old) (readers_by seed parts.new) }
{
    key.pack(words);
    let full = seed.full_hash(words);
    get_by(
        part_in(parts, full),
        upper_half(full),
        key,
        words,
        value,
        now,
    )
}

// Gets an item by the reader of the key's part and holds it, in the same way.
#[inline(always)]
pub(crate) fn hold_in<N: Name, K: Packed, V: Packed>(
    parts: &mut [WordReader<N, PairLaw<K, V>>],
    seed: Seed,
    key: &K,
    words: &mut [u64],
    now: u64,
) -> Option<PairHold<N, K, V>>
    requires parts { IsPartCount (length parts.old) }
    requires few { K.width + V.width ≤ N.table.slots }
    requires most { K.width + V.width ≤ most_words }
    requires words { length words.old ≡ K.width }
    ensures found { IfSome result (λ hold. InPart (HitsItem (IsPair K.fits K.as_words V.fits V.as_words)
        (K.as_words key.now) now hold) (K.as_words key.now) (readers_by seed parts.old) (readers_by seed parts.new)) }
    ensures counted { IfSome result (λ hold. InPart CountsHit (K.as_words key.now) (readers_by seed parts.old)
        (readers_by seed parts.new)) }
    ensures value { IfSome result (λ hold. HoldsValue V.fits V.as_words K.width hold) }
    ensures missed { IfNone result (InPart (MissesItem seed (K.as_words key.now) now) (K.as_words key.now)
        (readers_by seed parts.old) (readers_by seed parts.new)) }
    ensures ring { KeepsRings (readers_by seed parts.old) (readers_by seed parts.new) }
{
    key.pack(words);
    let full = seed.full_hash(words);
    hold_by(part_in(parts, full), upper_half(full), key, words, now)
}

// Peeks at a value by the reader of the key's part, in the same way.
#[inline(always)]
pub(crate) fn peek_in<N: Name, K: Packed, V: Packed>(
    parts: &mut [WordReader<N, PairLaw<K, V>>],
    seed: Seed,
    key: &K,
    words: &mut [u64],
    value: &mut [u64],
    now: u64,
) -> Option<V>
    requires parts { IsPartCount (length parts.old) }
    requires few { K.width + V.width ≤ N.table.slots }
    requires words { length words.old ≡ K.width }
    requires value { length value.old ≡ V.width }
    ensures found { IfSome result (λ it. InPart (PeeksValue (IsPair K.fits K.as_words V.fits V.as_words)
        (K.as_words key.now) (V.as_words it) now) (K.as_words key.now) (readers_by seed parts.old)
        (readers_by seed parts.new)) }
    ensures nothing { IfNone result (InPart (ReadsNothing (K.as_words key.now) now) (K.as_words key.now)
        (readers_by seed parts.old) (readers_by seed parts.new)) }
    ensures absent { IfNone result (InPart (MissesKey seed (K.as_words key.now) now) (K.as_words key.now)
        (readers_by seed parts.old) (readers_by seed parts.new)) }
    ensures uncounted { InPart (CountsNothing (is_some result)) (K.as_words key.now) (readers_by seed parts.old)
        (readers_by seed parts.new) }
    ensures ring { KeepsRings (readers_by seed parts.old) (readers_by seed parts.new) }
{
    key.pack(words);
    let full = seed.full_hash(words);
    peek_by(
        part_in(parts, full),
        upper_half(full),
        key,
        words,
        value,
        now,
    )
}

// Sees whether there is an item with the key, by the reader of its part, in the same way.
#[inline(always)]
pub(crate) fn see_in<N: Name, K: Packed, V: Packed>(
    parts: &mut [WordReader<N, PairLaw<K, V>>],
    seed: Seed,
    key: &K,
    words: &mut [u64],
    now: u64,
) -> bool
    requires parts { IsPartCount (length parts.old) }
    requires few { K.width + V.width ≤ N.table.slots }
    requires words { length words.old ≡ K.width }
    ensures found { result ≡ true → InPart (SeesItem (IsPair K.fits K.as_words V.fits V.as_words)
        (K.as_words key.now) now) (K.as_words key.now) (readers_by seed parts.old) (readers_by seed parts.new) }
    ensures nothing { result ≡ false → InPart (ReadsNothing (K.as_words key.now) now) (K.as_words key.now)
        (readers_by seed parts.old) (readers_by seed parts.new) }
    ensures absent { result ≡ false → InPart (MissesKey seed (K.as_words key.now) now) (K.as_words key.now)
        (readers_by seed parts.old) (readers_by seed parts.new) }
    ensures uncounted { InPart (CountsNothing result) (K.as_words key.now) (readers_by seed parts.old)
        (readers_by seed parts.new) }
    ensures ring { KeepsRings (readers_by seed parts.old) (readers_by seed parts.new) }
{
    key.pack(words);
    let full = seed.full_hash(words);
    see_by(part_in(parts, full), upper_half(full), key, words, now)
}

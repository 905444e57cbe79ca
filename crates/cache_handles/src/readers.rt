//! A reader of a cache of byte strings.
ghost use Rattle.std.specs.Prelude.{◌≡◌, ◌+◌, ◌≤◌, ◌<◌, ◌^◌, IfNone, IfOk, IfSome, None, length};
ghost use Rattle.packed_words.specs.Spelling.{long_string, words_for};
ghost use Rattle.cache_config.specs.Choosing.{IsPartCount};
ghost use Rattle.cache_config.specs.Sums.{bumps_of, dropped_of, hits_of, misses_of};
ghost use Rattle.bump_cache.specs.Readers.{InPart, readers_by};
ghost use Rattle.cache_handles.specs.Configs.{first_byte_fault, key_words_of, value_words_of};
ghost use Rattle.cache_handles.specs.Opening.{reader_by};
ghost use Rattle.cache_handles.specs.Reading.{Gets, GetsBy, HitsHeld, MissesBy, MissesItem, TellsGet, TellsHold, TellsRead, TellsRelease};

use crate::config::ByteConfig;
use crate::reading::{GetTold, HeldTold, held_value, held_words};
use crate::values::{FIRST_WORDS, TOLD_WORDS, ValueTold, eight_from, flags_in};
use bump_handles::{no_holds, put_hold};
use bump_heads::Name;
use bump_steps::AnyRow;
use cache_config::{PartReaders, bumps_in, hits_in, misses_in, part_in};
use cache_readers::{Hold, WordReader};
use keyed_hash::{Seed, upper_half};
use packed_words::spell;
use std::alloc::{AllocError, Global};
use std::marker::Model;

/// A reader of a cache of byte strings, which one thread has at a time: it takes no lock. It has numbered places for
/// holds, from 0.
pub struct ByteReader<N: Name> {
    // a reader of each part, by number
    parts: Vec<WordReader<N, AnyRow>>,
    seed: Seed,
    key_bytes: u32,
    value_words: u32,
    // the words of the key that is asked for
    key: Vec<u64>,
    holds: Vec<Option<Hold<N>>>,
}

impl<N: Name> Model for ByteReader<N> {
    ghost use Rattle.std.specs.Prelude.{◌≡◌, ◌+◌, ◌≤◌, ◌<◌, ◌^◌, length};
    ghost use Rattle.packed_words.specs.Spelling.{words_for};
    ghost use Rattle.cache_config.specs.Choosing.{IsPartCount};
    ghost use Rattle.cache_handles.specs.Configs.{most_key_bytes};
    ghost use Rattle.cache_handles.specs.Views.{ByteReaderView as TheByteReaderView};

    ghost Value = { TheByteReaderView };

    ghost view = { λ r. record {
      reader = record { seed = r.seed; parts = r.parts.items };
      key_bytes = r.key_bytes;
      key_words = words_for r.key_bytes;
      value_words = r.value_words;
      holds = r.holds.items;
    } };

    ghost invariant = { λ r. (r.key_bytes ≤ most_key_bytes) × IsPartCount (length r.parts.items)
        × (2 ≤ r.value_words) × (r.value_words < 2 ^ 30) × (words_for r.key_bytes + r.value_words ≤ N.table.slots)
        × (length r.key.items ≡ words_for r.key_bytes) };
}

// Gets the first words of a value by the reader of a part, with the words of the key.
#[inline(always)]
fn get_by<N: Name>(
    reader: &mut WordReader<N, AnyRow>,
    hash: u32,
    key: &[u64],
    value_words: u32,
    now: u64,
) -> GetTold
    requires row { length key.now + value_words ≤ N.table.slots }
    requires two { 2 ≤ value_words }
    ensures { GetsBy hash key.now value_words now result reader.old reader.new }
{
    let mut room = [0; FIRST_WORDS];
    let first = &mut room[..FIRST_WORDS.min(value_words as usize)];
    if !reader.get(hash, key, first, now) {
        return GetTold::Nothing;
    }
    let value = ValueTold {
        flags: flags_in(first[0]),
        length: first[1],
    };
    let words = eight_from(first, 2, first.len());
    GetTold::Found { value, words }
}

// Takes a hold by the reader of a part, with the words of the key.
#[inline(always)]
fn hold_by<N: Name>(
    reader: &mut WordReader<N, AnyRow>,
    hash: u32,
    key: &[u64],
    now: u64,
) -> Option<Hold<N>>
    requires row { length key.now ≤ N.table.slots }
    ensures found { IfSome result (λ hold. HitsHeld key.now now hold reader.old reader.new) }
    ensures missed { IfNone result (MissesBy hash key.now now reader.old reader.new) }
{
    reader.hold(hash, key, now)
}

// Gets a value by the reader of the key's part, with room for the words of the key.
#[inline(always)]
fn get_in<N: Name>(
    parts: &mut [WordReader<N, AnyRow>],
    seed: Seed,
    key: &[u8],
    words: &mut [u64],
    value_words: u32,
    now: u64,
) -> GetTold
    requires parts { IsPartCount (length parts.old) }
    requires room { words_for (length key.now) ≤ length words.old }
    requires row { length words.old + value_words ≤ N.table.slots }
    requires two { 2 ≤ value_words }
    ensures { InPart (Gets seed (long_string (length words.old) key.now) value_words now result)
        (long_string (length words.old) key.now) (readers_by seed parts.old) (readers_by seed parts.new) }
{
    spell(key, words);
    let full = seed.full_hash(words);
    get_by(
        part_in(parts, full),
        upper_half(full),
        words,
        value_words,
        now,
    )
}

// Takes a hold by the reader of the key's part, in the same way.
#[inline(always)]
fn hold_in<N: Name>(
    parts: &mut [WordReader<N, AnyRow>],
    seed: Seed,
    key: &[u8],
    words: &mut [u64],
    now: u64,
) -> Option<Hold<N>>
    requires parts { IsPartCount (length parts.old) }
    requires room { words_for (length key.now) ≤ length words.old }
    requires row { length words.old ≤ N.table.slots }
    ensures found { IfSome result (λ hold. InPart (HitsHeld (long_string (length words.old) key.now) now hold)
        (long_string (length words.old) key.now) (readers_by seed parts.old) (readers_by seed parts.new)) }
    ensures missed { IfNone result (InPart (MissesItem seed (long_string (length words.old) key.now) now)
        (long_string (length words.old) key.now) (readers_by seed parts.old) (readers_by seed parts.new)) }
{
    spell(key, words);
    let full = seed.full_hash(words);
    hold_by(part_in(parts, full), upper_half(full), words, now)
}

impl<N: Name> ByteReader<N> {
    /// A reader that reads by these readers of the parts, with so many places that have no hold. It is refused only for
    /// want of memory.
    pub(crate) fn new(
        alloc: Global,
        row: PartReaders<N, AnyRow>,
        config: &ByteConfig,
        places: u32,
    ) -> Result<ByteReader<N>, AllocError>
        requires sound { first_byte_fault config.now ≡ None }
        requires few { key_words_of config.now + value_words_of config.now ≤ N.table.slots }
        requires parts { IsPartCount (length row) }
        ensures { IfOk result (λ r. r ≡ reader_by config.now places (readers_by config.now.cache.seed row)) }
    {
        let key = vec![in alloc; 0; config.key_words() as usize]?;
        Ok(ByteReader {
            parts: row.parts,
            seed: config.cache.seed,
            key_bytes: config.key_bytes,
            value_words: config.value_words(),
            key,
            holds: no_holds(alloc, places)?,
        })
    }

    /// Reads what a key has that hasn't expired at `now`, in the caller's ticks, as memcached's `get`: its flags, its
    /// length, and the first 64 of its bytes, eight a word, the lowest first. The item is glanced at, or touched, and
    /// counted as `WordReader::get` does. It takes no lock and no memory, and waits for nobody.
    #[inline(always)]
    pub fn get(&mut self, key: &[u8], now: u64) -> GetTold
        ensures { TellsGet Gets key.now now self.old self.new result }
    {
        if key.len() > self.key_bytes as usize {
            return GetTold::KeyBytes;
        }
        let (seed, value_words) = (self.seed, self.value_words);
        get_in(&mut self.parts, seed, key, &mut self.key, value_words, now)
    }

    /// Takes a hold of what a key has, in a place that has none, as `get` does: it is touched and counted, and its flags
    /// and its length are told. While it is held its value stays, whatever is put, removed or evicted meanwhile. It is
    /// refused, and nothing is changed, exactly where there is no such place or it has a hold, or else where the key is
    /// too long.
    #[inline(always)]
    pub fn hold(&mut self, place: u32, key: &[u8], now: u64) -> HeldTold
        ensures { TellsHold place key.now now self.old self.new result }
    {
        let Some(free) = self.holds.get_mut(place as usize) else {
            return HeldTold::NoPlace;
        };
        if free.is_some() {
            return HeldTold::NoPlace;
        }
        if key.len() > self.key_bytes as usize {
            return HeldTold::KeyBytes;
        }
        let seed = self.seed;
        let Some(mut hold) = hold_in(&mut self.parts, seed, key, &mut self.key, now) else {
            return HeldTold::Nothing;
        };
        let heads = self.parts[0].heads();
        let told = held_value(&mut hold, heads, self.key.len() as u32);
        put_hold(free, hold, heads);
        HeldTold::Found(told)
    }

    /// Eight words of the value that is held in a place, from the one of its bytes' words with this number on: eight bytes
    /// a word, the lowest first, and 0 behind the last word that a value has. All are 0 where nothing is held there.
    #[inline(always)]
    pub fn read(&mut self, place: u32, from: u32) -> [u64; TOLD_WORDS]
        ensures { TellsRead place from self.old self.new result }
    {
        let Some(held) = self.holds.get_mut(place as usize) else {
            return [0; TOLD_WORDS];
        };
        let Some(hold) = held else {
            return [0; TOLD_WORDS];
        };
        let heads = self.parts[0].heads();
        let key_words = self.key.len() as u32;
        held_words(
            hold,
            heads,
            key_words,
            self.value_words,
            u64::from(from) + 2,
        )
    }

    /// Gives the hold in a place back. It answers false, and nothing is changed, exactly where nothing is held there.
    #[inline(always)]
    pub fn release(&mut self, place: u32) -> bool
        ensures { TellsRelease place self.old self.new result }
    {
        let Some(held) = self.holds.get_mut(place as usize) else {
            return false;
        };
        let Some(hold) = std::mem::replace(held, None) else {
            return false;
        };
        hold.release(self.parts[0].heads());
        true
    }

    /// How many gets and holds found something, at most 2^64 - 1.
    pub fn hits(&self) -> u64
        ensures { result ≡ hits_of self.now.reader.parts }
    {
        hits_in(&self.parts)
    }

    /// How many of them found nothing, at most 2^64 - 1.
    pub fn misses(&self) -> u64
        ensures { result ≡ misses_of self.now.reader.parts }
    {
        misses_in(&self.parts)
    }

    /// How many bumps of its hits were dropped, at most 2^64 - 1.
    pub fn bumps_dropped(&self) -> u64
        ensures { result ≡ dropped_of (bumps_of self.now.reader.parts) }
    {
        let counts = bumps_in(&self.parts);
        counts
            .full
            .saturating_add(counts.busy)
            .saturating_add(counts.refs)
    }
}

impl<N: Name> Drop for ByteReader<N> {
    fn drop(self) {
        let ByteReader {
            parts,
            seed: _,
            key_bytes: _,
            value_words: _,
            key: _,
            mut holds,
        } = self;
        while let Some(place) = holds.pop() {
            if let Some(hold) = place {
                hold.release(parts[0].heads());
            }
        }
        holds.destroy_empty();
    }
}

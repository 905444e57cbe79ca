//! A part's calls that look at it, which are made under the caller's lock of the part.
ghost use Rattle.std.specs.Prelude.{◌≡◌};
ghost use Rattle.cache_part.specs.Stats.{stats_of};
ghost use Rattle.cache_handles.specs.Visiting.{entry_key_words, entry_value_words};
ghost use Rattle.bump_c.specs.One.{IsOne};
ghost use Rattle.bump_c.specs.CacheNumbers.{told_of_stats};
ghost use Rattle.bump_c.specs.CacheTells.{TellsCacheEntry, TellsCacheLook, found_words_of};

use crate::cache_answers::{
    CacheEntry, CacheLooked, CacheStats, CacheWords, entry_told, looked_told, stats_told,
};
use crate::cache_part_handle::{CachePartCall, CachePartHandle};
use bump_heads::Name;
use cache_handles::BytePart;
use std::marker::Brand;

#[derive(Drop)]
struct Find<'a> {
    key: &'a [u8],
    now: u64,
}

impl<'a> CachePartCall for Find<'a> {
    type Told = CacheLooked;

    ghost tells = { λ call table before after told. TellsCacheLook call.key.now call.now before after told };

    fn make<N: Name>(self, it: &mut BytePart<N>) -> CacheLooked {
        looked_told(it.look(self.key, self.now))
    }
}

/// What a key has that hasn't expired: its flags, its length, and when it expires. The item isn't hit, and it isn't
/// counted. Its bytes are told by bump_cache_found_words.
#[unsafe(no_mangle)]
pub extern "C" fn bump_cache_find(part: &mut CachePartHandle, key: &[u8], now: u64) -> CacheLooked
    ensures table { part.new.table ≡ part.old.table }
    ensures looks { TellsCacheLook key.now now part.old.held part.new.held result }
{
    part.call(Find { key, now })
}

#[derive(Drop)]
struct FoundWords {
    from: u32,
}

impl CachePartCall for FoundWords {
    type Told = CacheWords;

    ghost tells = { λ call table before after told. (after ≡ before) × (told.words ≡ found_words_of before call.from) };

    fn make<N: Name>(self, it: &mut BytePart<N>) -> CacheWords {
        CacheWords {
            words: it.found(self.from),
        }
    }
}

/// Eight words of the bytes of what the last look found, from one on: eight bytes a word, the lowest first. They are
/// told as they were then, until the next call of this part that puts, removes or looks.
#[unsafe(no_mangle)]
pub extern "C" fn bump_cache_found_words(part: &mut CachePartHandle, from: u32) -> CacheWords
    ensures table { part.new.table ≡ part.old.table }
    ensures held { part.new.held ≡ part.old.held }
    ensures words { result.words ≡ found_words_of part.old.held from }
{
    part.call(FoundWords { from })
}

#[derive(Drop)]
struct Chunks;

impl CachePartCall for Chunks {
    type Told = u32;

    ghost tells = { λ call table before after told. (after ≡ before) × (told ≡ before.shelf.part.book.sheet.count) };

    fn make<N: Name>(self, it: &mut BytePart<N>) -> u32 {
        it.chunks()
    }
}

/// How many chunks the part has.
#[unsafe(no_mangle)]
pub extern "C" fn bump_cache_chunks(part: &mut CachePartHandle) -> u32
    ensures table { part.new.table ≡ part.old.table }
    ensures held { part.new.held ≡ part.old.held }
    ensures chunks { result ≡ part.old.held.shelf.part.book.sheet.count }
{
    part.call(Chunks)
}

#[derive(Drop)]
struct Entry {
    number: u32,
    now: u64,
}

impl CachePartCall for Entry {
    type Told = CacheEntry;

    ghost tells = { λ call table before after told. TellsCacheEntry call.number call.now before after told };

    fn make<N: Name>(self, it: &mut BytePart<N>) -> CacheEntry {
        entry_told(it.entry(self.number, self.now))
    }
}

/// The item of the part's chunk with this number, where it has one that hasn't expired. It isn't hit. The bytes of
/// its key and of its value are told by bump_cache_entry_key and bump_cache_entry_value.
#[unsafe(no_mangle)]
pub extern "C" fn bump_cache_entry(part: &mut CachePartHandle, number: u32, now: u64) -> CacheEntry
    ensures table { part.new.table ≡ part.old.table }
    ensures visits { TellsCacheEntry number now part.old.held part.new.held result }
{
    part.call(Entry { number, now })
}

#[derive(Drop)]
struct EntryKey {
    from: u32,
}

impl CachePartCall for EntryKey {
    type Told = CacheWords;

    ghost tells = { λ call table before after told.
        (after ≡ before) × (told.words ≡ entry_key_words before call.from) };

    fn make<N: Name>(self, it: &mut BytePart<N>) -> CacheWords {
        CacheWords {
            words: it.entry_key(self.from),
        }
    }
}

/// Eight words of the bytes of the key of what was visited last, from one on: eight bytes a word, the lowest first.
/// They are told as they were then, until the next call of this part that puts or visits.
#[unsafe(no_mangle)]
pub extern "C" fn bump_cache_entry_key(part: &mut CachePartHandle, from: u32) -> CacheWords
    ensures table { part.new.table ≡ part.old.table }
    ensures held { part.new.held ≡ part.old.held }
    ensures words { result.words ≡ entry_key_words part.old.held from }
{
    part.call(EntryKey { from })
}

#[derive(Drop)]
struct EntryValue {
    from: u32,
}

impl CachePartCall for EntryValue {
    type Told = CacheWords;

    ghost tells = { λ call table before after told.
        (after ≡ before) × (told.words ≡ entry_value_words before call.from) };

    fn make<N: Name>(self, it: &mut BytePart<N>) -> CacheWords {
        CacheWords {
            words: it.entry_value(self.from),
        }
    }
}

/// The same of the bytes of its value.
#[unsafe(no_mangle)]
pub extern "C" fn bump_cache_entry_value(part: &mut CachePartHandle, from: u32) -> CacheWords
    ensures table { part.new.table ≡ part.old.table }
    ensures held { part.new.held ≡ part.old.held }
    ensures words { result.words ≡ entry_value_words part.old.held from }
{
    part.call(EntryValue { from })
}

#[derive(Drop)]
struct PartStats;

impl CachePartCall for PartStats {
    type Told = CacheStats;

    ghost tells = { λ call table before after told.
        (after ≡ before) × (told ≡ told_of_stats (stats_of before.shelf.part)) };

    fn make<N: Name>(self, it: &mut BytePart<N>) -> CacheStats {
        stats_told(it.stats())
    }
}

/// The part's statistics: sizes are of now, and all else is counted since the cache was opened.
#[unsafe(no_mangle)]
pub extern "C" fn bump_cache_stats(part: &mut CachePartHandle) -> CacheStats
    ensures table { part.new.table ≡ part.old.table }
    ensures held { part.new.held ≡ part.old.held }
    ensures stats { result ≡ told_of_stats (stats_of part.old.held.shelf.part) }
{
    part.call(PartStats)
}

fn part_free_named<N: Name>(h: CachePartHandle)
    requires table { h.table ≡ N.table }
    requires one { IsOne N }
{
    drop(h.into_open::<N>().into_box());
}

/// Ends a part.
#[unsafe(no_mangle)]
pub extern "C" fn bump_cache_part_free(part: CachePartHandle) {
    part_free_named::<Brand>(part);
}

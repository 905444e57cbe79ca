//! A reader's calls, of which none waits.
ghost use Rattle.std.specs.Prelude.{◌≡◌};
ghost use Rattle.cache_handles.specs.Reading.{TellsRead, TellsRelease};
ghost use Rattle.bump_c.specs.One.{IsOne};
ghost use Rattle.bump_c.specs.CacheNumbers.{counts_of_reader};
ghost use Rattle.bump_c.specs.CacheTells.{TellsCacheGet, TellsCacheHold};

use crate::cache_answers::{CacheCounts, CacheGot, CacheHeld, CacheWords, got_told, held_told};
use crate::cache_reader_handle::{CacheReaderCall, CacheReaderHandle};
use bump_heads::Name;
use cache_handles::ByteReader;
use std::marker::Brand;

#[derive(Drop)]
struct GetWords<'a> {
    key: &'a [u8],
    now: u64,
}

impl<'a> CacheReaderCall for GetWords<'a> {
    type Told = CacheGot;

    ghost tells = { λ call table before after told. TellsCacheGet call.key.now call.now before after told };

    fn make<N: Name>(self, it: &mut ByteReader<N>) -> CacheGot {
        got_told(it.get(self.key, self.now))
    }
}

/// Reads what a key has: its flags, its length, and the first 64 of its bytes. The item is hit, and it counts as a
/// hit or as a miss.
#[unsafe(no_mangle)]
pub extern "C" fn bump_cache_get_words(
    reader: &mut CacheReaderHandle,
    key: &[u8],
    now: u64,
) -> CacheGot
    ensures table { reader.new.table ≡ reader.old.table }
    ensures gets { TellsCacheGet key.now now reader.old.held reader.new.held result }
{
    reader.call(GetWords { key, now })
}

#[derive(Drop)]
struct Hold<'a> {
    hold: u32,
    key: &'a [u8],
    now: u64,
}

impl<'a> CacheReaderCall for Hold<'a> {
    type Told = CacheHeld;

    ghost tells = { λ call table before after told. TellsCacheHold call.hold call.key.now call.now before after told };

    fn make<N: Name>(self, it: &mut ByteReader<N>) -> CacheHeld {
        held_told(it.hold(self.hold, self.key, self.now))
    }
}

/// Takes a hold of what a key has, by the reader's hold of that number, as a get does. While it is held its value
/// stays, whatever is put, removed or evicted.
#[unsafe(no_mangle)]
pub extern "C" fn bump_cache_hold(
    reader: &mut CacheReaderHandle,
    hold: u32,
    key: &[u8],
    now: u64,
) -> CacheHeld
    ensures table { reader.new.table ≡ reader.old.table }
    ensures holds { TellsCacheHold hold key.now now reader.old.held reader.new.held result }
{
    reader.call(Hold { hold, key, now })
}

#[derive(Drop)]
struct ReadWords {
    hold: u32,
    from: u32,
}

impl CacheReaderCall for ReadWords {
    type Told = CacheWords;

    ghost tells = { λ call table before after told. TellsRead call.hold call.from before after told.words };

    fn make<N: Name>(self, it: &mut ByteReader<N>) -> CacheWords {
        CacheWords {
            words: it.read(self.hold, self.from),
        }
    }
}

/// Eight words of the bytes of the value that is held, from one on: eight bytes a word, the lowest first. All are 0
/// where the hold holds nothing.
#[unsafe(no_mangle)]
pub extern "C" fn bump_cache_read_words(
    reader: &mut CacheReaderHandle,
    hold: u32,
    from: u32,
) -> CacheWords
    ensures table { reader.new.table ≡ reader.old.table }
    ensures reads { TellsRead hold from reader.old.held reader.new.held result.words }
{
    reader.call(ReadWords { hold, from })
}

#[derive(Drop)]
struct Release {
    hold: u32,
}

impl CacheReaderCall for Release {
    type Told = bool;

    ghost tells = { λ call table before after told. TellsRelease call.hold before after told };

    fn make<N: Name>(self, it: &mut ByteReader<N>) -> bool {
        it.release(self.hold)
    }
}

/// Gives back what the hold holds, and tells whether there was something.
#[unsafe(no_mangle)]
pub extern "C" fn bump_cache_release(reader: &mut CacheReaderHandle, hold: u32) -> bool
    ensures table { reader.new.table ≡ reader.old.table }
    ensures releases { TellsRelease hold reader.old.held reader.new.held result }
{
    reader.call(Release { hold })
}

#[derive(Drop)]
struct ReaderCounts;

impl CacheReaderCall for ReaderCounts {
    type Told = CacheCounts;

    ghost tells = { λ call table before after told. (after ≡ before) × (told ≡ counts_of_reader before) };

    fn make<N: Name>(self, it: &mut ByteReader<N>) -> CacheCounts {
        CacheCounts {
            hits: it.hits(),
            misses: it.misses(),
            dropped: it.bumps_dropped(),
        }
    }
}

/// The reader's counts.
#[unsafe(no_mangle)]
pub extern "C" fn bump_cache_reader_counts(reader: &mut CacheReaderHandle) -> CacheCounts
    ensures table { reader.new.table ≡ reader.old.table }
    ensures held { reader.new.held ≡ reader.old.held }
    ensures counts { result ≡ counts_of_reader reader.old.held }
{
    reader.call(ReaderCounts)
}

fn reader_free_named<N: Name>(h: CacheReaderHandle)
    requires table { h.table ≡ N.table }
    requires one { IsOne N }
{
    drop(h.into_open::<N>().into_box());
}

/// Ends a reader, and gives back what it holds.
#[unsafe(no_mangle)]
pub extern "C" fn bump_cache_reader_free(reader: CacheReaderHandle) {
    reader_free_named::<Brand>(reader);
}

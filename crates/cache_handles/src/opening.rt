//! A cache of byte strings is opened, and its parts and readers are taken out of it.
ghost use Rattle.std.specs.Prelude.{◌≡◌, ◌+◌, ◌≤◌, All, IfOk, None, length, map, option_map};
ghost use Rattle.bump_handles.specs.Opening.{TakesPart, all_there};
ghost use Rattle.cache_config.specs.Choosing.{IsPartCount};
ghost use Rattle.cache_config.specs.Configs.{IsStoreOf};
ghost use Rattle.cache_handles.specs.Configs.{first_byte_fault, key_words_of, value_words_of};
ghost use Rattle.cache_handles.specs.Opening.{IsOpenedCache, IsShelfFor, parts_of, readers_of};
ghost use Rattle.cache_handles.specs.Views.{BytePartView as TheBytePartView, ByteReaderView as TheByteReaderView};
ghost use Rattle.cache_handles.specs.Views.{OpenedCacheView as TheOpenedCacheView};

use crate::config::ByteConfig;
use crate::keys::PartPlace;
use crate::parts::BytePart;
use crate::readers::ByteReader;
use bump_handles::take_at;
use bump_heads::{Blank, Name};
use bump_rules::Config;
use bump_steps::AnyRow;
use bump_unlocked::UnlockedStore;
use cache_config::{PartReaders, make_indexes, make_part_readers, make_shelves};
use cache_shelf::Shelf;
use std::alloc::{AllocError, Global};
use std::marker::Model;

/// What is still to be taken out of a cache that was opened, by numbers from 0. Each part and each reader lies in a box of
/// its own, so that taking it out needs no memory.
#[derive(Drop)]
pub struct OpenedCache<N: Name> {
    parts: Vec<Option<Box<BytePart<N>>>>,
    readers: Vec<Option<Box<ByteReader<N>>>>,
}

impl<N: Name> Model for OpenedCache<N> {
    ghost Value = { TheOpenedCacheView };

    ghost view = { λ o. record {
      parts = map (option_map (λ b. b.value)) o.parts.items;
      readers = map (option_map (λ b. b.value)) o.readers.items;
    } };
}

impl<N: Name> OpenedCache<N> {
    /// The part with this number; or None, and nothing is changed, exactly where there is none, or it is taken already.
    pub fn part(&mut self, number: u32) -> Option<Box<BytePart<N>>>
        ensures takes { TakesPart TheBytePartView number self.old.parts self.new.parts
            (option_map (λ b. b.value) result) }
        ensures kept { self.new ≡ record self.old { parts = self.new.parts } }
    {
        take_at(&mut self.parts, number)
    }

    /// The reader with this number, in the same way.
    pub fn reader(&mut self, number: u32) -> Option<Box<ByteReader<N>>>
        ensures takes { TakesPart TheByteReaderView number self.old.readers self.new.readers
            (option_map (λ b. b.value) result) }
        ensures kept { self.new ≡ record self.old { readers = self.new.readers } }
    {
        take_at(&mut self.readers, number)
    }
}

// The parts of these shelves, which are numbered from 0.
fn make_parts<N: Name>(
    alloc: Global,
    shelves: Vec<Shelf<N, AnyRow>>,
    config: &ByteConfig,
) -> Result<Vec<Option<Box<BytePart<N>>>>, AllocError>
    requires sound { first_byte_fault config.now ≡ None }
    requires count { length shelves.items ≡ config.now.cache.parts }
    requires shelves { All (IsShelfFor config.now) shelves.items }
    ensures { IfOk result (λ v. map (option_map (λ b. b.value)) v.items
        ≡ all_there (parts_of config.now 0 shelves.items)) }
{
    let mut all = Vec::with_capacity(alloc, shelves.len())?;
    let mut number = 0;
    for shelf in shelves {
        let place = PartPlace {
            number,
            parts: config.cache.parts,
        };
        let (key_bytes, value_bytes) = (config.key_bytes, config.value_bytes);
        let seed = config.cache.seed;
        let part = BytePart::new(alloc, shelf, seed, place, key_bytes, value_bytes)?;
        all.push(Some(Box::new(alloc, part)?))?;
        number += 1;
    }
    Ok(all)
}

// Readers that read by these, each with so many places.
fn make_readers<N: Name>(
    alloc: Global,
    rows: Vec<PartReaders<N, AnyRow>>,
    config: &ByteConfig,
    places: u32,
) -> Result<Vec<Option<Box<ByteReader<N>>>>, AllocError>
    requires sound { first_byte_fault config.now ≡ None }
    requires few { key_words_of config.now + value_words_of config.now ≤ N.table.slots }
    requires parts { All (λ row. IsPartCount (length row)) rows.items }
    ensures { IfOk result (λ v. map (option_map (λ b. b.value)) v.items
        ≡ all_there (readers_of config.now places rows.items)) }
{
    let mut all = Vec::with_capacity(alloc, rows.len())?;
    for row in rows {
        let reader = ByteReader::new(alloc, row, config, places)?;
        all.push(Some(Box::new(alloc, reader)?))?;
    }
    Ok(all)
}

/// Opens a cache of byte strings over the words of its store, under the name that these have: `store` is what they were
/// made from, as `CacheConfig::store` of this configuration tells it, with as many further words as a key and a value
/// have together. The configuration has no fault. Each reader has so many places for holds. It is refused only for want
/// of memory, and the words are gone then. The cache asks for no memory any more once it is open.
pub fn open<N: Name>(
    alloc: Global,
    words: Blank<AnyRow>,
    store: &Config,
    config: &ByteConfig,
    places: u32,
) -> Result<OpenedCache<N>, AllocError>
    requires name { words.table ≡ N.table }
    requires slots { words.table.slots ≡ key_words_of config.now + value_words_of config.now }
    requires made { words.config ≡ store.now }
    requires store { IsStoreOf config.now.cache store.now }
    requires sound { first_byte_fault config.now ≡ None }
    ensures { IfOk result (λ opened. IsOpenedCache config.now places opened) }
{
    let UnlockedStore {
        heads,
        books,
        starts: _,
        workers,
        lanes,
    } = UnlockedStore::<N, AnyRow>::open(alloc, words, store)?;
    let cache = &config.cache;
    let mut indexes = make_indexes(alloc, cache)?;
    let rows = make_part_readers(alloc, &heads, workers, &mut indexes, cache)?;
    let (key_words, value_words) = (config.key_words(), config.value_words());
    let shelves = make_shelves(alloc, books, indexes, lanes, cache, key_words, value_words)?;
    Ok(OpenedCache {
        parts: make_parts(alloc, shelves, config)?,
        readers: make_readers(alloc, rows, config, places)?,
    })
}

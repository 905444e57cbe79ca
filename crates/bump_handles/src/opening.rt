//! A store is opened, and what it is made of is taken out of it.
ghost use Rattle.std.specs.Prelude.{◌≡◌, ◌≤◌, length, map, option_map, IfOk};
ghost use Rattle.std.specs.Arc.{arc_value};
ghost use Rattle.bump_rules.specs.Configs.{most_workers};
ghost use Rattle.bump_handles.specs.Opening.{IsOpened, TakesPart, all_there, drainers_of, readers_of, tagged};
ghost use Rattle.bump_handles.specs.Views.{DrainerView as TheDrainerView, OpenedView as TheOpenedView};
ghost use Rattle.bump_handles.specs.Views.{ReaderView as TheReaderView, TaggedBookView as TheTaggedBookView};

use crate::books::TaggedBook;
use crate::drainers::Drainer;
use crate::readers::Reader;
use bump_class::{Book, RawLane};
use bump_heads::{Heads, Name};
use bump_rules::Config;
use bump_unlocked::{Blank, UnlockedStore, Worker};
use std::alloc::{AllocError, Global};
use std::marker::Model;
use std::sync::Arc;

/// What is still to be taken out of a store that was opened, by numbers from 0. Each part lies in a box of its own, so that
/// taking it out needs no memory.
#[derive(Drop)]
pub struct Opened<N: Name> {
    readers: Vec<Option<Box<Reader<N>>>>,
    books: Vec<Option<Box<TaggedBook<N>>>>,
    lanes: Vec<Option<Box<Drainer<N>>>>,
}

impl<N: Name> Model for Opened<N> {
    ghost Value = { TheOpenedView };

    ghost view = { λ o. record {
      readers = map (option_map (λ b. b.value)) o.readers.items;
      books = map (option_map (λ b. b.value)) o.books.items;
      lanes = map (option_map (λ b. b.value)) o.lanes.items;
    } };
}

/// Takes the one with this number, which counts from 0, out of its place; or answers None, and nothing is changed, exactly
/// where there is no such place, or it is empty already.
pub fn take_at<T>(parts: &mut Vec<Option<T>>, number: u32) -> Option<T>
    ensures { TakesPart T number parts.old.items parts.new.items result }
{
    let Some(part) = parts.get_mut(number as usize) else {
        return None;
    };
    std::mem::replace(part, None)
}

impl<N: Name> Opened<N> {
    /// The reader with this number; or None, and nothing is changed, exactly where there is none, or it is taken already.
    pub fn reader(&mut self, number: u32) -> Option<Box<Reader<N>>>
        ensures takes { TakesPart TheReaderView number self.old.readers self.new.readers
            (option_map (λ b. b.value) result) }
        ensures kept { self.new ≡ record self.old { readers = self.new.readers } }
    {
        take_at(&mut self.readers, number)
    }

    /// The Book of the class with this number, in the same way.
    pub fn book(&mut self, number: u32) -> Option<Box<TaggedBook<N>>>
        ensures takes { TakesPart TheTaggedBookView number self.old.books self.new.books
            (option_map (λ b. b.value) result) }
        ensures kept { self.new ≡ record self.old { books = self.new.books } }
    {
        take_at(&mut self.books, number)
    }

    /// The lane of the worker with this number, in the same way.
    pub fn lane(&mut self, number: u32) -> Option<Box<Drainer<N>>>
        ensures takes { TakesPart TheDrainerView number self.old.lanes self.new.lanes
            (option_map (λ b. b.value) result) }
        ensures kept { self.new ≡ record self.old { lanes = self.new.lanes } }
    {
        take_at(&mut self.lanes, number)
    }
}

// A token for each worker, which it shares with its lane.
fn make_tokens(alloc: Global, count: usize) -> Result<Vec<Arc<(), Global>>, AllocError>
    ensures { IfOk result (λ v. length v.items ≡ count) }
{
    let mut tokens = Vec::with_capacity(alloc, count)?;
    for number in 0..count {
        tokens.push(Arc::new(alloc, ())?)?;
    }
    Ok(tokens)
}

// Readers of these workers, which are numbered from 0.
fn make_readers<N: Name>(
    alloc: Global,
    store: u64,
    heads: &Arc<Heads<N>, Global>,
    tokens: &[Arc<(), Global>],
    workers: Vec<Worker<N>>,
    places: u32,
) -> Result<Vec<Option<Box<Reader<N>>>>, AllocError>
    requires few { length workers.items ≤ most_workers }
    requires tokens { length workers.items ≤ length tokens.now }
    ensures { IfOk result (λ v. map (option_map (λ b. b.value)) v.items
        ≡ all_there (readers_of store (arc_value heads.now) places 0 workers.items)) }
{
    let mut readers = Vec::with_capacity(alloc, workers.len())?;
    let mut number = 0;
    for worker in workers {
        let heads = Arc::try_clone(heads)?;
        let token = Arc::try_clone(&tokens[number as usize])?;
        let reader = Reader::new(alloc, store, number, heads, worker, places, token)?;
        readers.push(Some(Box::new(alloc, reader)?))?;
        number += 1;
    }
    Ok(readers)
}

// Books with the number of their store.
fn tag_books<N: Name>(
    alloc: Global,
    store: u64,
    books: Vec<Book<N>>,
) -> Result<Vec<Option<Box<TaggedBook<N>>>>, AllocError>
    ensures { IfOk result (λ v. map (option_map (λ b. b.value)) v.items ≡ all_there (tagged store books.items)) }
{
    let mut all = Vec::with_capacity(alloc, books.len())?;
    for book in books {
        all.push(Some(Box::new(alloc, TaggedBook::new(store, book))?))?;
    }
    Ok(all)
}

// Lanes whose workers aren't closed.
fn make_lanes<N: Name>(
    alloc: Global,
    store: u64,
    starts: &[u32],
    tokens: &[Arc<(), Global>],
    lanes: Vec<RawLane<N>>,
) -> Result<Vec<Option<Box<Drainer<N>>>>, AllocError>
    requires tokens { length lanes.items ≤ length tokens.now }
    ensures { IfOk result (λ v. map (option_map (λ b. b.value)) v.items
        ≡ all_there (drainers_of store starts.now lanes.items)) }
{
    let mut all = Vec::with_capacity(alloc, lanes.len())?;
    let mut number = 0;
    for raw in lanes {
        let starts = Vec::from_slice(alloc, starts)?;
        let token = Arc::try_clone(&tokens[number])?;
        all.push(Some(Box::new(alloc, Drainer::new(store, raw, starts, token))?))?;
        number += 1;
    }
    Ok(all)
}

/// Opens a store over a blank, under the name that its table has, as `UnlockedStore::open` does. `store` is the number by
/// which its parts are told from those of others, and each reader has so many places for holds. It is refused only for
/// want of memory, and the blank is gone then.
pub fn open<N: Name>(
    alloc: Global,
    blank: Blank,
    config: &Config,
    store: u64,
    places: u32,
) -> Result<Opened<N>, AllocError>
    requires name { blank.table ≡ N.table }
    requires config { blank.config ≡ config.now }
    ensures { IfOk result (λ opened. IsOpened store config.now places opened) }
{
    let UnlockedStore {
        heads,
        books,
        starts,
        workers,
        lanes,
    } = UnlockedStore::<N>::open(alloc, blank, config)?;
    let tokens = make_tokens(alloc, workers.len())?;
    let lent = tokens.as_slice();
    Ok(Opened {
        readers: make_readers(alloc, store, &heads, lent, workers, places)?,
        books: tag_books(alloc, store, books)?,
        lanes: make_lanes(alloc, store, starts.as_slice(), lent, lanes)?,
    })
}

//! What the parts of a cache are made of, when it is opened.
ghost use Rattle.std.specs.Prelude.{◌≡◌, ◌+◌, ◌*◌, ◌<◌, ◌≤◌, ◌++◌, IfOk, None, [], length, replicate};
ghost use Rattle.std.specs.Vec.Iter.{into_iter_items};
ghost use Rattle.cache_config.specs.Configs.{first_cache_fault};
ghost use Rattle.cache_config.specs.Making.{AreMadeShelves, AreNewBooks, AreNewIndexes, limits_of, new_shelf};

use crate::config::CacheConfig;
use bump_class::{Book, RawLane};
use bump_heads::Name;
use bump_steps::RowLaw;
use cache_index::Index;
use cache_part::Part;
use cache_shelf::{Limits, Shelf};
use std::alloc::{AllocError, Global};
use std::vec::IntoIter;

// The limits of a part.
fn limits(config: &CacheConfig, part: u32) -> Limits
    requires { part < config.now.parts }
    ensures { result ≡ limits_of config.now part }
{
    Limits {
        bounds: config.bounds(part),
        most: config.ring,
        looks: config.expiry_looks,
    }
}

/// The index of each part of a cache, by number: its chunks are behind those of the parts before it, and it leads to
/// none. The configuration has no fault. It is refused only for want of memory.
pub fn make_indexes(alloc: Global, config: &CacheConfig) -> Result<Vec<Index>, AllocError>
    requires { first_cache_fault config.now ≡ None }
    ensures { IfOk result (λ indexes. AreNewIndexes config.now config.now.parts indexes.items) }
{
    let mut indexes = Vec::with_capacity(alloc, config.parts as usize)?;
    let mut first = 0;
    for part in 0..config.parts {
        let chunks = config.class(part).chunks;
        let index = Index::new(alloc, first, chunks)?;
        indexes.push(index)?;
        first += chunks;
    }
    Ok(indexes)
}

// So many of the lanes that are left.
fn take_lanes<N: Name, L: RowLaw>(
    alloc: Global,
    left: &mut IntoIter<RawLane<N, L>>,
    count: u32,
) -> Result<Vec<RawLane<N, L>>, AllocError>
    requires { count ≤ length (into_iter_items left.old) }
    ensures count { IfOk result (λ lanes. length lanes.items ≡ count) }
    ensures taken { IfOk result (λ lanes. into_iter_items left.old ≡ lanes.items ++ into_iter_items left.new) }
{
    let mut lanes = Vec::with_capacity(alloc, count as usize)?;
    for _ in 0..count {
        let Some(lane) = left.next() else {
            unreachable!()
        };
        lanes.push(lane)?;
    }
    Ok(lanes)
}

// The shelf of a part, by its Book, its index and its lanes, with keys and values of so many words.
fn make_shelf<N: Name, L: RowLaw>(
    book: Book<N, L>,
    index: Index,
    lanes: Vec<RawLane<N, L>>,
    config: &CacheConfig,
    part: u32,
    key_words: u32,
    value_words: u32,
) -> Shelf<N, L>
    requires part { part < config.now.parts }
    requires few { key_words + value_words ≤ N.table.slots }
    requires first { index.first ≡ book.sheet.first }
    requires history { book.sheet.history ≡ [] }
    requires index { index.table ≡ replicate (book.sheet.first + book.sheet.count) None }
    ensures { result ≡ new_shelf config.now part key_words value_words book index.table lanes.items }
{
    let made = Part::new(
        book,
        index,
        config.seed,
        key_words,
        value_words,
        config.items_in(part),
        config.temporary,
    );
    Shelf::new(made, lanes, limits(config, part))
}

/// The shelf of each part of a cache, by number, in which there is nothing: by the Books of its store, the parts'
/// indexes, and the lanes of its readers' rings, which are numbered part by part. A key has `key_words` words and a
/// value `value_words`, together at most as many as a chunk has further words. It is refused only for want of memory.
pub fn make_shelves<N: Name, L: RowLaw>(
    alloc: Global,
    books: Vec<Book<N, L>>,
    indexes: Vec<Index>,
    lanes: Vec<RawLane<N, L>>,
    config: &CacheConfig,
    key_words: u32,
    value_words: u32,
) -> Result<Vec<Shelf<N, L>>, AllocError>
    requires few { key_words + value_words ≤ N.table.slots }
    requires books { AreNewBooks config.now books.items }
    requires indexes { AreNewIndexes config.now config.now.parts indexes.items }
    requires lanes { length lanes.items ≡ config.now.parts * config.now.readers }
    ensures { IfOk result (λ shelves. AreMadeShelves config.now key_words value_words lanes.items config.now.parts
        shelves.items) }
{
    let mut shelves = Vec::with_capacity(alloc, config.parts as usize)?;
    let mut books = books.into_iter();
    let mut indexes = indexes.into_iter();
    let mut lanes = lanes.into_iter();
    for part in 0..config.parts {
        let Some(book) = books.next() else {
            unreachable!()
        };
        let Some(index) = indexes.next() else {
            unreachable!()
        };
        let own = take_lanes(alloc, &mut lanes, config.readers)?;
        let shelf = make_shelf(book, index, own, config, part, key_words, value_words);
        shelves.push(shelf)?;
    }
    Ok(shelves)
}

//! The readers of a cache's parts are made, when it is opened.
ghost use Rattle.std.specs.Prelude.{◌≡◌, ◌*◌, ◌<◌, ◌≤◌, ◌++◌, ◌∷◌, ℕ, IfOk, Some, [], drop, length, slice_get};
ghost use Rattle.std.specs.Arc.{arc_value};
ghost use Rattle.std.specs.Vec.Iter.{into_iter_items};
ghost use Rattle.cache_config.specs.Making.{AddsPart, AreNewIndexes, AreRows, chunks_before};

use crate::config::CacheConfig;
use bump_heads::{Heads, Name};
use bump_steps::RowLaw;
use bump_unlocked::Worker;
use cache_index::Index;
use cache_readers::WordReader;
use std::alloc::{AllocError, Global};
use std::marker::Model;
use std::sync::Arc;
use std::vec::IntoIter;

/// What a reader of a cache reads by: a reader of each part, by number. Contracts see it as them.
#[derive(Drop)]
pub struct PartReaders<N: Name, L: RowLaw> {
    /// The readers of the parts.
    pub parts: Vec<WordReader<N, L>>,
}

impl<N: Name, L: RowLaw> Model for PartReaders<N, L> {
    ghost use Rattle.std.specs.Prelude.{List};
    ghost use Rattle.cache_readers.specs.Readers.{ReaderView};

    ghost Value = { List ReaderView };

    ghost view = { λ r. r.parts.items };
}

impl<N: Name, L: RowLaw> PartReaders<N, L> {
    // One that has none yet.
    fn new(alloc: Global, parts: u32) -> Result<PartReaders<N, L>, AllocError>
        ensures { IfOk result (λ row. row ≡ []) }
    {
        let parts = Vec::with_capacity(alloc, parts as usize)?;
        Ok(PartReaders { parts })
    }

    // A reader of one more part.
    fn push(&mut self, reader: WordReader<N, L>) -> Result<(), AllocError>
        ensures { IfOk result (λ done. self.new ≡ self.old ++ reader ∷ []) }
    {
        self.parts.push(reader)?;
        Ok(())
    }
}

// A row of no part for each reader.
fn empty_rows<N: Name, L: RowLaw>(
    alloc: Global,
    config: &CacheConfig,
) -> Result<Vec<PartReaders<N, L>>, AllocError>
    ensures count { IfOk result (λ rows. length rows.items ≡ config.now.readers) }
    ensures rows { IfOk result (λ rows. (number : ℕ) → number < config.now.readers → slice_get rows.items number
        ≡ Some []) }
{
    let mut rows = Vec::with_capacity(alloc, config.readers as usize)?;
    for _ in 0..config.readers {
        let row = PartReaders::new(alloc, config.parts)?;
        rows.push(row)?;
    }
    Ok(rows)
}

// Each row has one part more, by the workers that come next.
fn add_part<N: Name, L: RowLaw>(
    rows: &mut [PartReaders<N, L>],
    heads: &Arc<Heads<N, L>, Global>,
    workers: &mut IntoIter<Worker<N>>,
    index: &mut Index,
) -> Result<(), AllocError>
    requires { length rows.old ≤ length (into_iter_items workers.old) }
    ensures rows { IfOk result (λ done. AddsPart (arc_value heads.now) index.old.first (into_iter_items workers.old)
        rows.old rows.new) }
    ensures index { index.new ≡ index.old }
    ensures rest { IfOk result (λ done. into_iter_items workers.new
        ≡ drop (length rows.old) (into_iter_items workers.old)) }
{
    for number in 0..rows.len() {
        let Some(worker) = workers.next() else {
            unreachable!()
        };
        let heads = Arc::try_clone(heads)?;
        let (nests, eye) = index.reader()?;
        let reader = WordReader::new(worker, heads, nests, eye);
        rows[number].push(reader)?;
    }
    Ok(())
}

/// What each reader of a cache reads by, by the workers of its store, which are numbered part by part, and the indexes
/// of the parts, which stay as they are: each reader gets an eye of what its index was so far. It is refused only for want
/// of memory.
pub fn make_part_readers<N: Name, L: RowLaw>(
    alloc: Global,
    heads: &Arc<Heads<N, L>, Global>,
    workers: Vec<Worker<N>>,
    indexes: &mut [Index],
    config: &CacheConfig,
) -> Result<Vec<PartReaders<N, L>>, AllocError>
    requires workers { length workers.items ≡ config.now.parts * config.now.readers }
    requires indexes { AreNewIndexes config.now config.now.parts indexes.old }
    ensures rows { IfOk result (λ rows. AreRows (arc_value heads.now) (chunks_before config.now) config.now.readers
        config.now.parts workers.items rows.items) }
    ensures indexes { indexes.new ≡ indexes.old }
{
    let mut rows = empty_rows(alloc, config)?;
    let mut workers = workers.into_iter();
    for part in 0..indexes.len() {
        add_part(&mut rows, heads, &mut workers, &mut indexes[part])?;
    }
    Ok(rows)
}

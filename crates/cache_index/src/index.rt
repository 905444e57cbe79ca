//! The writer's side of the index.
ghost use Rattle.std.specs.Prelude.{◌≡◌, ◌<◌, ◌≤◌, ◌+◌, ◌-◌, ◌⊎◌, IfOk, IsSome, None, Some, is_some, length, replicate, slice_set};
ghost use Rattle.cache_index.specs.History.{LeadsAll, SeesIndex};
ghost use Rattle.cache_index.specs.Places.{nests_for};
ghost use Rattle.cache_index.specs.Views.{led_at, with_generation};
ghost use Rattle.seen_words.specs.Windows.{AtLast};

use crate::from_zero::IndexFromZero;
use crate::readers::IndexReader;
use bump_rules::ItemId;
use seen_words::Eye;
use std::alloc::{AllocError, Global};
use std::marker::Model;
use std::ops::Range;

/// The most chunks that an index can have, together with those before its first one: 1,073,741,824.
pub const MOST_CHUNKS: u32 = 1 << 30;

/// How many chunks there are for each nest of six lanes: so half of all lanes are off, and few keys pass a nest.
const CHUNKS_A_NEST: u32 = 3;

/// How many nests an index of so many chunks has, each a line of 64 bytes.
pub fn nests_for(chunks: u32) -> u32
    ensures { result ≡ nests_for chunks }
{
    chunks / CHUNKS_A_NEST + 1
}

/// The index, as its one writer has it. A contract sees its first chunk, and what it leads to, by chunk: the hash of
/// the key of the chunk's life, and the life's generation; or `None` for a chunk to which it doesn't lead. All chunks
/// before the first one are such.
#[derive(Drop)]
pub struct Index {
    first: u32,
    pub(crate) from_zero: IndexFromZero,
}

impl Model for Index {
    ghost use Rattle.std.specs.Prelude.{◌+◌, ◌≤◌, ◌^◌, length};
    ghost use Rattle.cache_index.specs.Views.{IndexView, numbered_from};

    ghost Value = { IndexView };

    ghost view = { λ a. numbered_from a.first a.from_zero };

    ghost invariant = { λ a. a.first + length a.from_zero.table ≤ 2 ^ 30 };
}

/// A life, its chunk counted from the first one on.
fn counted_from(first: u32, life: ItemId) -> ItemId
    requires { first ≤ life.chunk }
    ensures { result ≡ record { chunk = life.chunk - first; generation = life.generation } }
{
    ItemId {
        chunk: life.chunk - first,
        generation: life.generation,
    }
}

impl Index {
    /// An index of so many chunks, numbered from `first` on, to none of which it leads. `first` and `chunks` are at
    /// most `MOST_CHUNKS` together. It takes memory for these chunks alone. It is refused only for want of memory.
    pub fn new(alloc: Global, first: u32, chunks: u32) -> Result<Index, AllocError>
        requires { first + chunks ≤ MOST_CHUNKS }
        ensures first { IfOk result (λ made. made.first ≡ first) }
        ensures table { IfOk result (λ made. made.table ≡ replicate (first + chunks) None) }
        ensures nests { IfOk result (λ made. made.nests ≡ nests_for chunks) }
    {
        let from_zero = IndexFromZero::new(alloc, chunks)?;
        Ok(Index { first, from_zero })
    }

    /// A reader of the index, and its eye, which has seen all that the index was: at the last moment that it has seen the
    /// index leads to all that it leads to now. It is refused only for want of memory.
    pub fn reader(&mut self) -> Result<(IndexReader, Eye), AllocError>
        ensures nests { IfOk result (λ r. r.0.nests ≡ self.old.nests) }
        ensures first { IfOk result (λ r. r.0.first ≡ self.old.first) }
        ensures eye { IfOk result (λ r. SeesIndex r.0 r.1) }
        ensures sees { IfOk result (λ r. AtLast (LeadsAll self.old.first self.old.table) r.1.seen) }
        ensures same { self.new ≡ self.old }
    {
        self.from_zero.reader(self.first)
    }

    /// How many chunks the index has, counted from its first one on.
    pub fn chunks(&self) -> u32
        ensures { self.now.first + result ≡ length self.now.table }
    {
        self.from_zero.chunks()
    }

    /// The index's chunks: from its first one up to that behind its last one, which is at most `MOST_CHUNKS`.
    pub fn range(&self) -> Range<u32>
        ensures start { result.start ≡ self.now.first }
        ensures end { result.end ≡ length self.now.table }
        ensures most { result.end ≤ MOST_CHUNKS }
    {
        self.first..self.first + self.from_zero.chunks()
    }

    /// Whether the index leads to a chunk, which is one of its own.
    pub fn leads(&self, chunk: u32) -> bool
        requires first { self.now.first ≤ chunk }
        requires chunk { chunk < length self.now.table }
        ensures { result ≡ is_some (led_at self.now.table chunk) }
    {
        self.from_zero.leads(chunk - self.first)
    }

    /// Leads from a hash to a life. Its chunk is one of the index's own, and the index doesn't lead to it yet. Readers
    /// find it when this returns. There is a lane for each chunk, so it is never refused.
    pub fn put(&mut self, hash: u32, life: ItemId)
        requires first { self.old.first ≤ life.chunk }
        requires chunk { life.chunk < length self.old.table }
        requires anew { led_at self.old.table life.chunk ≡ None }
        ensures first { self.new.first ≡ self.old.first }
        ensures table { self.new.table ≡ slice_set self.old.table life.chunk
            (Some (record { hash = hash; generation = life.generation })) }
        ensures nests { self.new.nests ≡ self.old.nests }
    {
        let life = counted_from(self.first, life);
        self.from_zero.put(hash, life);
    }

    /// Leads to a new life of the same key in place of that of the chunk `old`, by the same lane and one store: a
    /// reader that comes by finds the one or the other. The index leads to `old`. The new life's chunk is one of the
    /// index's own; the index doesn't lead to it yet, or it is `old`.
    pub fn lead(&mut self, old: u32, life: ItemId)
        requires old { IsSome (led_at self.old.table old) }
        requires first { self.old.first ≤ life.chunk }
        requires chunk { life.chunk < length self.old.table }
        requires anew { (led_at self.old.table life.chunk ≡ None) ⊎ (life.chunk ≡ old) }
        ensures first { self.new.first ≡ self.old.first }
        ensures table { self.new.table ≡ slice_set (slice_set self.old.table old None) life.chunk
            (with_generation life.generation (led_at self.old.table old)) }
        ensures nests { self.new.nests ≡ self.old.nests }
    {
        let life = counted_from(self.first, life);
        self.from_zero.lead(old - self.first, life);
    }

    /// Leads no more to a chunk, to which it does. Readers find it no more when this returns.
    #[inline(always)]
    pub fn clear(&mut self, chunk: u32)
        requires { IsSome (led_at self.old.table chunk) }
        ensures first { self.new.first ≡ self.old.first }
        ensures table { self.new.table ≡ slice_set self.old.table chunk None }
        ensures nests { self.new.nests ≡ self.old.nests }
    {
        self.from_zero.clear(chunk - self.first);
    }

    /// A life that the index found, by its chunk's own number. The chunk is one of those counted from the first one on.
    pub(crate) fn numbered(&self, life: ItemId) -> ItemId
        requires { self.now.first + life.chunk < length self.now.table }
        ensures { result ≡ record { chunk = self.now.first + life.chunk; generation = life.generation } }
    {
        ItemId {
            chunk: self.first + life.chunk,
            generation: life.generation,
        }
    }
}

//! The index over chunks that are numbered from 0 on.
ghost use Rattle.std.specs.Prelude.{◌≡◌, ◌<◌, ◌≤◌, ◌⊎◌, IfOk, IsSome, None, Some, is_some, length, replicate, slice_set};
ghost use Rattle.std.specs.Arc.{arc_value};
ghost use Rattle.cache_index.specs.Places.{nests_for};
ghost use Rattle.cache_index.specs.History.{LeadsAll, SeesIndex};
ghost use Rattle.cache_index.specs.Views.{led_at, with_generation};
ghost use Rattle.seen_words.specs.Windows.{AtLast};

use crate::index::{MOST_CHUNKS, nests_for};
use crate::led::{NO_WAY, Way, number_of};
use crate::nests::Nests;
use crate::readers::IndexReader;
use crate::tags::tag_of;
use bump_rules::ItemId;
use seen_words::{Eye, Pen};
use std::alloc::{AllocError, Global};
use std::marker::Model;
use std::sync::Arc;

/// An index whose chunks are numbered from 0 on, as its one writer has it: what an `Index` is but for its first chunk.
#[derive(Drop)]
pub(crate) struct IndexFromZero {
    pub(crate) nests: Arc<Nests, Global>,
    pub(crate) pen: Pen,
    pub(crate) ways: Vec<Way>,
}

impl Model for IndexFromZero {
    ghost use Rattle.std.specs.Prelude.{◌≡◌};
    ghost use Rattle.std.specs.Arc.{arc_value};
    ghost use Rattle.cache_index.specs.Views.{IndexView, index_view};
    ghost use Rattle.seen_words.specs.Past.{note_of};
    ghost use Rattle.cache_index.specs.Leads.{AreLed, IsRoomy};
    ghost use Rattle.cache_index.specs.History.{AreNoted};

    ghost Value = { IndexView };

    ghost view = { λ a. index_view (arc_value a.nests).nests a.pen.words a.ways.items };

    ghost invariant = { λ a. (a.pen.table ≡ (arc_value a.nests).table)
        × AreLed (arc_value a.nests).nests a.pen.words a.ways.items
        × IsRoomy (arc_value a.nests).nests a.ways.items × AreNoted (note_of a.pen.past) a.ways.items };
}

impl IndexFromZero {
    /// An index of so many chunks, to none of which it leads. `chunks` is at most `MOST_CHUNKS`. It is refused only for
    /// want of memory.
    pub(crate) fn new(alloc: Global, chunks: u32) -> Result<IndexFromZero, AllocError>
        requires { chunks ≤ MOST_CHUNKS }
        ensures table { IfOk result (λ made. made.table ≡ replicate chunks None) }
        ensures nests { IfOk result (λ made. made.nests ≡ nests_for chunks) }
    {
        let (nests, pen) = Nests::new(alloc, nests_for(chunks))?;
        let nests = Arc::new(alloc, nests)?;
        let mut ways = Vec::with_capacity(alloc, chunks as usize)?;
        for _ in 0..chunks {
            ways.push(NO_WAY)?;
        }
        Ok(IndexFromZero { nests, pen, ways })
    }

    /// A reader that numbers the chunks from this one on. It is refused only for want of memory.
    pub(crate) fn reader(&mut self, first: u32) -> Result<(IndexReader, Eye), AllocError>
        ensures nests { IfOk result (λ r. r.0.nests ≡ self.old.nests) }
        ensures first { IfOk result (λ r. r.0.first ≡ first) }
        ensures eye { IfOk result (λ r. SeesIndex r.0 r.1) }
        ensures sees { IfOk result (λ r. AtLast (LeadsAll 0 self.old.table) r.1.seen) }
        ensures same { self.new ≡ self.old }
    {
        let nests = Arc::try_clone(&self.nests)?;
        let eye = self.nests.eye(&mut self.pen);
        Ok((IndexReader::new(nests, first), eye))
    }

    /// How many chunks the index has.
    pub(crate) fn chunks(&self) -> u32
        ensures { result ≡ length self.now.table }
    {
        self.ways.len() as u32
    }

    /// Whether the index leads to a chunk. `chunk` is below the count of chunks.
    pub(crate) fn leads(&self, chunk: u32) -> bool
        requires { chunk < length self.now.table }
        ensures { result ≡ is_some (led_at self.now.table chunk) }
    {
        self.ways[chunk as usize].leads()
    }

    /// Leads from a hash to a life. Its chunk is below the count of chunks, and the index doesn't lead to it yet.
    /// Readers find it when this returns. There is a lane for each chunk, so it is never refused.
    pub(crate) fn put(&mut self, hash: u32, life: ItemId)
        requires chunk { life.chunk < length self.old.table }
        requires anew { led_at self.old.table life.chunk ≡ None }
        ensures table { self.new.table ≡ slice_set self.old.table life.chunk
            (Some (record { hash = hash; generation = life.generation })) }
        ensures nests { self.new.nests ≡ self.old.nests }
    {
        let Some(place) = self.nests.take_place(&mut self.pen, hash, &self.ways) else {
            unreachable!()
        };
        self.nests
            .set_life(&mut self.pen, place, number_of(life), &self.ways);
        self.ways[life.chunk as usize] = Way { hash, place };
        self.nests
            .set_tag(&mut self.pen, place, tag_of(hash), &self.ways);
    }

    /// Leads to a new life of the same key in place of that of the chunk `old`, by the same lane and one store: a
    /// reader that comes by finds the one or the other. The index leads to `old`. The new life's chunk is below the
    /// count of chunks; the index doesn't lead to it yet, or it is `old`.
    pub(crate) fn lead(&mut self, old: u32, life: ItemId)
        requires old { IsSome (led_at self.old.table old) }
        requires chunk { life.chunk < length self.old.table }
        requires anew { (led_at self.old.table life.chunk ≡ None) ⊎ (life.chunk ≡ old) }
        ensures table { self.new.table ≡ slice_set (slice_set self.old.table old None) life.chunk
            (with_generation life.generation (led_at self.old.table old)) }
        ensures nests { self.new.nests ≡ self.old.nests }
    {
        let way = self.ways[old as usize];
        self.ways[old as usize] = NO_WAY;
        self.ways[life.chunk as usize] = way;
        self.nests
            .set_life(&mut self.pen, way.place, number_of(life), &self.ways);
    }

    /// Leads no more to a chunk, to which it does. Readers find it no more when this returns.
    #[inline(always)]
    pub(crate) fn clear(&mut self, chunk: u32)
        requires { IsSome (led_at self.old.table chunk) }
        ensures table { self.new.table ≡ slice_set self.old.table chunk None }
        ensures nests { self.new.nests ≡ self.old.nests }
    {
        let way = self.ways[chunk as usize];
        self.ways[chunk as usize] = NO_WAY;
        self.nests.set_tag(&mut self.pen, way.place, 0, &self.ways);
        self.nests
            .pass_no_more(&mut self.pen, way.hash, way.place, &self.ways);
    }
}

//! Glances: a worker's looks at a life without a reference, which write nothing.
ghost use Rattle.std.specs.Prelude.{◌≡◌, ◌<◌, true, false, suc, IfOk, IfErr};
ghost use Rattle.bump_rules.specs.declared.items.ItemId.{ItemId as TheItemId};
ghost use Rattle.bump_word.specs.Words.{Fits};
ghost use Rattle.bump_steps.specs.Glances.{worker_after_glance_load};
ghost use Rattle.bump_steps.specs.Places.{HasChunk, head_place};
ghost use Rattle.bump_steps.specs.Rule.{chunks as all_chunks};
ghost use Rattle.bump_readers.specs.Glances.{BeginsGlance, IsGlancing, IsLinkedLife, looked_at};

use crate::heads::ReaderHeads;
use crate::names::Name;
use crate::workers::WorkerSeat;
use bump_rules::{Head, ItemId};
use bump_steps::{RowLaw, head_of};
use std::marker::{Model, PhantomData};

/// A worker's look at a life that it found linked, without a reference: nothing keeps the chunk, so a word that is
/// loaded may be another life's. `ReaderHeads::end_glance` tells whether each was its own. What it found stands in the
/// worker's sheet.
#[derive(Drop)]
pub struct Glance<N: Name> {
    life: ItemId,
    place: usize,
    of: PhantomData<N>,
}

impl<N: Name> Model for Glance<N> {
    ghost Value = { TheItemId };

    ghost view = { λ g. g.life };

    ghost invariant = { λ g. HasChunk N.table g.life.chunk × (g.place ≡ head_place N.table.slots g.life.chunk) };
}

impl<N: Name> Glance<N> {
    /// The life that was found linked.
    pub fn life(&self) -> ItemId
        ensures { result ≡ self.now }
    {
        self.life
    }
}

impl<N: Name, L: RowLaw> ReaderHeads<N, L> {
    /// Glances at whatever life is linked in the chunk, which is one of the store's: by one load, which writes nothing.
    /// It answers the glance and the head that was found; or that head alone, where the chunk isn't linked.
    ///
    /// The worker notes the load and the glance, with the words of the life, of which the law of the table holds: it is
    /// those that `end_glance` tells of.
    #[inline(always)]
    pub fn glance(&self, worker: &mut WorkerSeat<N>, chunk: u32) -> Result<(Glance<N>, Head), Head>
        requires chunk { chunk < all_chunks self.now }
        ensures begins { IfOk result (λ told. BeginsGlance L.law N.table.slots told.0 told.1 worker.old worker.new) }
        ensures chunk { IfOk result (λ told. told.0.chunk ≡ chunk) }
        ensures gone { IfErr result (λ found. found.linked ≡ false) }
        ensures fits { IfErr result Fits }
        ensures looked { IfErr result (λ found. worker.new ≡ record worker.old {
          sheet = looked_at chunk found worker.old.sheet;
        }) }
    {
        let place = self.words.head_at(chunk);
        let word = self.words.glance(&mut worker.seat, chunk, place);
        let found = head_of(word);
        if !found.linked {
            return Err(found);
        }
        let glance = Glance {
            life: ItemId {
                chunk,
                generation: found.generation,
            },
            place,
            of: PhantomData,
        };
        Ok((glance, found))
    }

    /// The chunk's label, by one load. The glance is the worker's last one.
    #[inline(always)]
    pub fn glance_label(&self, worker: &mut WorkerSeat<N>, glance: &Glance<N>) -> u64
        requires glance { IsGlancing glance.now worker.old.sheet }
        ensures loaded { worker.new ≡ record worker.old { sheet = worker_after_glance_load 0 result worker.old.sheet } }
    {
        self.words
            .glance_label(&mut worker.seat, glance.life.chunk, glance.place)
    }

    /// One of the chunk's further words, by one load. The glance is the worker's last one.
    #[inline(always)]
    pub fn glance_word(&self, worker: &mut WorkerSeat<N>, glance: &Glance<N>, index: u32) -> u64
        requires glance { IsGlancing glance.now worker.old.sheet }
        requires index { index < N.table.slots }
        ensures loaded { worker.new ≡ record worker.old {
          sheet = worker_after_glance_load (suc index) result worker.old.sheet;
        } }
    {
        self.words
            .glance_word(&mut worker.seat, glance.life.chunk, glance.place, index)
    }

    /// Loads the chunk's head again, and answers it. If it is of the glance's life, and that is linked, each word that
    /// the glance loaded is the life's. The glance is the worker's last one.
    #[inline(always)]
    pub fn end_glance(&self, worker: &mut WorkerSeat<N>, glance: &Glance<N>) -> Head
        requires glance { IsGlancing glance.now worker.old.sheet }
        ensures looked { worker.new ≡ record worker.old {
          sheet = looked_at glance.now.chunk result worker.old.sheet;
        } }
        ensures faithful { (last : IsGlancing glance.now worker.old.sheet) → IsLinkedLife glance.now result
            → last.glance.agrees ≡ true }
        ensures fits { Fits result }
    {
        head_of(
            self.words
                .look_again(&mut worker.seat, glance.life.chunk, glance.place),
        )
    }
}

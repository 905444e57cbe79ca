//! Glances of a worker. Contracts see plain data.
ghost use Rattle.std.specs.Prelude.{◌≡◌, ◌<◌, ◌≤◌, suc, true, IfSome, IfNone, None};
ghost use Rattle.bump_word.specs.Words.{Fits};
ghost use Rattle.bump_steps.specs.Glances.{worker_after_glance_load};
ghost use Rattle.bump_steps.specs.Rule.{chunks as all_chunks};
ghost use Rattle.bump_readers.specs.Glances.{IsGlancing, IsLinkedLife, looked_at};
ghost use Rattle.bump_unlocked.specs.Glances.{Glances, FindsNoLife};

use crate::workers::Worker;
use bump_readers::{Glance, Name, ReaderHeads};
use bump_rules::Head;
use bump_steps::RowLaw;

impl<N: Name> Worker<N> {
    /// Glances at whatever item is linked in a chunk: a look at it without a reference, which writes nothing, so readers
    /// of one item needn't wait for each other. `chunk` is any number. By one load of the head word it answers the
    /// glance, and the head that it found; or None where that isn't linked, or where the store has no such chunk: then
    /// no step is made.
    ///
    /// Words are loaded by `glance_label` and `glance_word`, and `end_glance` tells whether each was this item's. The
    /// worker notes the glance, with the item's words, of which the table's law holds.
    #[inline(always)]
    pub fn glance<L: RowLaw>(
        &mut self,
        heads: &ReaderHeads<N, L>,
        chunk: u32,
    ) -> Option<(Glance<N>, Head)>
        ensures missing { all_chunks heads.now ≤ chunk → (result ≡ None) × (self.new ≡ self.old) }
        ensures glances { IfSome result (λ told. Glances L.law N.table.slots told.0 told.1 self.old self.new) }
        ensures chunk { IfSome result (λ told. told.0.chunk ≡ chunk) }
        ensures gone { chunk < all_chunks heads.now → IfNone result (FindsNoLife chunk self.old self.new) }
    {
        if chunk >= heads.chunks() {
            return None;
        }
        heads.glance(&mut self.seat, chunk).ok()
    }

    /// The label of the item at which the worker glances, by one load. The glance is its last one. Where the item ended
    /// meanwhile it may be another's: `end_glance` tells.
    #[inline(always)]
    pub fn glance_label<L: RowLaw>(&mut self, heads: &ReaderHeads<N, L>, glance: &Glance<N>) -> u64
        requires glance { IsGlancing glance.now self.old.sheet }
        ensures loaded { self.new ≡ record self.old { sheet = worker_after_glance_load 0 result self.old.sheet } }
    {
        heads.glance_label(&mut self.seat, glance)
    }

    /// A further word of it, in the same way.
    #[inline(always)]
    pub fn glance_word<L: RowLaw>(
        &mut self,
        heads: &ReaderHeads<N, L>,
        glance: &Glance<N>,
        index: u32,
    ) -> u64
        requires glance { IsGlancing glance.now self.old.sheet }
        requires index { index < N.table.slots }
        ensures loaded { self.new ≡ record self.old {
          sheet = worker_after_glance_load (suc index) result self.old.sheet;
        } }
    {
        heads.glance_word(&mut self.seat, glance, index)
    }

    /// Ends the glance by one more load of the head word, and answers the head that it found. Where the item is linked
    /// by it, each word that the glance loaded is the item's, as it was stored for it.
    #[inline(always)]
    pub fn end_glance<L: RowLaw>(&mut self, heads: &ReaderHeads<N, L>, glance: Glance<N>) -> Head
        requires glance { IsGlancing glance self.old.sheet }
        ensures looked { self.new ≡ record self.old { sheet = looked_at glance.chunk result self.old.sheet } }
        ensures faithful { (last : IsGlancing glance self.old.sheet) → IsLinkedLife glance result
            → last.glance.agrees ≡ true }
        ensures fits { Fits result }
    {
        heads.end_glance(&mut self.seat, &glance)
    }
}

//! A class's looks at the label and the further words of a chunk.
ghost use Rattle.std.specs.Prelude.{◌≡◌, suc, ◌<◌, Some, true};
ghost use Rattle.bump_rules.specs.Labels.{label_of_life};
ghost use Rattle.bump_rules.specs.Lawful.{IsUsed};
ghost use Rattle.bump_rules.specs.Lives.{life};
ghost use Rattle.bump_steps.specs.Sights.{class_after_see_label, class_after_see_word};
ghost use Rattle.bump_steps.specs.Views.{owns, last_label, last_word, of_word};
ghost use Rattle.bump_heads.specs.Linking.{place_of_chunk, generation_of_chunk};

use crate::seats::ClassSeat;
use bump_readers::Name;
use bump_steps::RowLaw;

impl<N: Name, L: RowLaw> ClassSeat<N, L> {
    /// How many further words a chunk has, beside its label.
    #[inline(always)]
    pub fn further(&self) -> u32
        ensures { result ≡ N.table.slots }
    {
        self.heads.words().further()
    }

    /// The label of a chunk of the class, by one load, which is noted with what it found: the last one that was stored
    /// for the chunk. Where the chunk isn't free it is the label of its life.
    pub fn see_label(&mut self, chunk: u32) -> u64
        requires own { owns chunk self.old.sheet ≡ true }
        ensures seen { self.new ≡ record self.old { sheet = class_after_see_label chunk result self.old.sheet } }
        ensures stored { result ≡ last_label self.old.sheet chunk }
        ensures life { IsUsed (place_of_chunk self.old.sheet chunk)
            → label_of_life (life chunk (generation_of_chunk self.old.sheet chunk)) 0 self.old.sheet.labels ≡ Some result }
    {
        self.heads.words().see_label(&mut self.seat, chunk)
    }

    /// A further word of a chunk of the class, in the same way. Its number is below `further`.
    pub fn see_word(&mut self, chunk: u32, index: u32) -> u64
        requires own { owns chunk self.old.sheet ≡ true }
        requires index { index < N.table.slots }
        ensures seen { self.new ≡ record self.old { sheet = class_after_see_word chunk result self.old.sheet } }
        ensures stored { result ≡ last_word (suc index) self.old.sheet chunk }
        ensures life { IsUsed (place_of_chunk self.old.sheet chunk)
            → label_of_life (life chunk (generation_of_chunk self.old.sheet chunk)) 0
            (of_word index self.old.sheet.words) ≡ Some result }
    {
        self.heads.words().see_word(&mut self.seat, chunk, index)
    }
}

//! A hold meets the Book of its class.
ghost use Rattle.std.specs.Prelude.{◌≡◌, ℕ, Some, true};
ghost use Rattle.bump_links.specs.Lists.{times};
ghost use Rattle.bump_rules.specs.Labels.{label_of_life};
ghost use Rattle.bump_heads.specs.Linking.{generation_of_chunk};
ghost use Rattle.bump_steps.specs.References.{label_of_row, word_of_row};
ghost use Rattle.bump_steps.specs.Views.{owns, of_word};

use crate::holds::Hold;
use bump_class::Book;
use bump_heads::Name;
use bump_steps::RowLaw;

impl<N: Name> Hold<N> {
    /// Shows a hold and the Book of its item's class each other, by one load of the label. It answers nothing, and
    /// changes nothing: from then on it is known that the first word of the hold's row is the label that `link` was
    /// given for its item, that each further one is that which was stored for it, and that the item's chunk isn't free,
    /// and has its generation.
    pub fn meet<L: RowLaw>(&mut self, book: &mut Book<N, L>)
        requires own { owns self.old.life.chunk book.old.sheet ≡ true }
        ensures hold { self.new ≡ self.old }
        ensures book { book.new ≡ book.old }
        ensures label { label_of_life self.old.life 0 book.old.sheet.labels ≡ Some (label_of_row self.old.row) }
        ensures words { (j : ℕ) → label_of_life self.old.life 0 (of_word j book.old.sheet.words) ≡ Some
            (word_of_row self.old.row j) }
        ensures generation { generation_of_chunk book.old.sheet self.old.life.chunk ≡ self.old.life.generation }
        ensures in_use { (times self.old.life.chunk book.old.lists.unused ≡ 0)
            × (times self.old.life.chunk book.old.lists.retired ≡ 0) }
    {
        book.meet(&mut self.held);
    }
}

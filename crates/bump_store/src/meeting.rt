//! A lane meets a Book.
ghost use Rattle.std.specs.Prelude.{◌≡◌};
ghost use Rattle.bump_rules.specs.Entries.{moves_of};
ghost use Rattle.bump_heads.specs.Applying.{NamesNoBumpTwice};
ghost use Rattle.bump_class.specs.Applications.{EachMoveIsTold, moved_in};
ghost use Rattle.bump_class.specs.Changes.{book_after_meet};
ghost use Rattle.bump_class.specs.Lanes.{entries};

use crate::lanes::Lane;
use bump_class::Book;
use bump_heads::Name;
use bump_steps::RowLaw;

impl<N: Name, L: RowLaw> Lane<N, L> {
    /// Shows a lane and the Book of a class each other, by one load, which the class notes. It answers nothing, and
    /// changes nothing else: from then on it is known that the class's history names no bump twice; that each move that
    /// it has for a bump of the lane's worker is this lane's entry of that bump's number, with the same life and the
    /// outcome Moved; and that there are as many such moves as the lane has entries with the outcome Moved of items of
    /// the class. So `moves` of the Book tells how many these are.
    pub fn meet(&mut self, book: &mut Book<N, L>)
        ensures lane { self.new ≡ self.old }
        ensures book { book.new ≡ book_after_meet book.old }
        ensures once { NamesNoBumpTwice book.old.sheet }
        ensures told { EachMoveIsTold book.old.sheet self.old.lane.sheet }
        ensures moves { moves_of self.old.lane.sheet.worker book.old.sheet.history
            ≡ moved_in book.old.sheet (entries self.old.lane) }
    {
        book.meet_lane(&mut self.raw);
    }
}

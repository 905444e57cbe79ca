//! The last item of COLD: whether somebody holds it.
ghost use Rattle.std.specs.Prelude.{◌≡◌};
ghost use Rattle.cache_lists.specs.ColdEnds.{LooksAtColdEnd};
ghost use Rattle.cache_lists.specs.Looks.{LooksOnly};

use crate::counted::CountedBook;
use bump_heads::Name;
use bump_rules::Place;
use bump_steps::RowLaw;

impl<N: Name, L: RowLaw> CountedBook<N, L> {
    /// Whether the head of COLD's last item counts more references than the one for being linked: a reader holds it, or
    /// a bump of it waits. One load tells, which is noted with what it found; where COLD is empty it is false, and
    /// nothing changes.
    pub fn is_cold_end_held(&mut self) -> bool
        ensures looks_at { LooksAtColdEnd result self.old.book self.new.book }
        ensures looks { LooksOnly self.old.book self.new.book }
        ensures rest { self.new ≡ record self.old { book = self.new.book } }
    {
        let Some(chunk) = self.book.last(Place::Cold) else {
            return false;
        };
        self.book.load_head(chunk).refs > 1
    }
}

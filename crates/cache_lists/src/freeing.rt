//! Some chunks of ended items come free.
ghost use Rattle.std.specs.Prelude.{◌≡◌, ℕ, ◌≤◌, min};
ghost use Rattle.bump_rules.specs.declared.items.Head.{Head as TheHead};
ghost use Rattle.cache_lists.specs.Freeing.{FreesUpTo, most_freed};
ghost use Rattle.cache_lists.specs.Items.{KeepsItems};
ghost use Rattle.cache_lists.specs.Segments.{SameSegments};

use crate::counted::CountedBook;
use crate::items;
use bump_heads::Name;
use bump_steps::RowLaw;

/// One call of `free_some` frees at most so many chunks: they are told in an array of its own.
pub const MOST_FREED: usize = 64;

impl<N: Name, L: RowLaw> CountedBook<N, L> {
    /// Frees at most `most` chunks of ended items that nobody holds any more, and at most `MOST_FREED`, and tells how many:
    /// it looks at each chunk of an ended item once, as `sweep` does, until so many came free. They are fewer only where it
    /// looked at all.
    pub fn free_some(&mut self, most: u32) -> u32
        ensures frees { (heads : ℕ → TheHead)
            × FreesUpTo (min most most_freed) self.old.book result self.new.book heads }
        ensures few { result ≤ min most most_freed }
        ensures kept { KeepsItems self.old.book self.new.book }
        ensures segments { SameSegments self.old.book.lists self.new.book.lists }
        ensures counts { (self.new.flow ≡ self.old.flow) × (self.new.evictions ≡ self.old.evictions) }
    {
        let mut freed = [0; MOST_FREED];
        let count = most.min(MOST_FREED as u32) as usize;
        items::free_some(&mut self.book, &mut freed[..count])
    }
}

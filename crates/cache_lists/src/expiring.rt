//! Items that have expired are ended where they are found.
ghost use Rattle.std.specs.Prelude.{◌≡◌, true};
ghost use Rattle.bump_steps.specs.Views.{owns};
ghost use Rattle.cache_lists.specs.Expiring.{EndsExpired};

use crate::counted::CountedBook;
use bump_heads::Name;
use bump_rules::has_expired;
use bump_steps::RowLaw;

impl<N: Name, L: RowLaw> CountedBook<N, L> {
    /// Ends the item that is linked at a chunk of the class where it has expired at `now`, in the caller's ticks, and
    /// tells whether it did: its label says when it expires, and 0 is never. It counts the item, as one that was found,
    /// and by the mark that a look just behind the item's end found. Where it ends none, nothing changes but the steps
    /// that the class's seat notes.
    pub fn end_expired(&mut self, chunk: u32, now: u64) -> bool
        requires own { owns chunk self.old.book.sheet ≡ true }
        ensures ends { EndsExpired chunk now result self.old self.new }
    {
        let expires = self.label(chunk);
        if !has_expired(expires, now) {
            return false;
        }
        let Some(_) = self.end(chunk) else {
            return false;
        };
        let head = self.book.load_head(chunk);
        self.evictions.note_crawled(head.fetched);
        true
    }
}

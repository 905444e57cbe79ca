//! Bumps of a lane are applied.
ghost use Rattle.std.specs.Prelude.{◌≡◌, ◌+◌, ◌≤◌, length};
ghost use Rattle.bump_class.specs.Lanes.{entries};
ghost use Rattle.cache_lists.specs.Draining.{DrainsLane};
ghost use Rattle.cache_lists.specs.Items.{KeepsItems};

use crate::counted::CountedBook;
use bump_class::RawLane;
use bump_heads::Name;
use bump_steps::RowLaw;

impl<N: Name, L: RowLaw> CountedBook<N, L> {
    /// Applies the bumps that stand at the front of a lane's ring and that this Book can apply, one after the other, each
    /// as `apply_next` does, at most `most`, and tells how many. They are fewer only where then `apply_next` found no such
    /// bump. `now` is the new time of their items, in the caller's ticks.
    pub fn drain_front(&mut self, lane: &mut RawLane<N, L>, now: u64, most: u32) -> u32
        ensures drains { DrainsLane most now self.old.book lane.old self.new.book lane.new }
        ensures few { result ≤ most }
        ensures count { length (entries lane.new) ≡ length (entries lane.old) + result }
        ensures kept { KeepsItems self.old.book self.new.book }
        ensures evictions { self.new.evictions ≡ self.old.evictions }
    {
        for applied in 0..most {
            let Some(_) = self.apply_next(lane, now) else {
                return applied;
            };
        }
        most
    }
}

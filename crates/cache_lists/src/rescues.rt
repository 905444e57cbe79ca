//! An evict rescues first: items of COLD that were hit again, and haven't expired, go to WARM.
ghost use Rattle.std.specs.Prelude.{◌≡◌, ◌≢◌, IfSome, IfNone, Some, None};
ghost use Rattle.bump_rules.specs.declared.places.Place.TheVariants.{Cold, Warm};
ghost use Rattle.bump_steps.specs.Views.{last_label};
ghost use Rattle.cache_lists.specs.Counts.{noted};
ghost use Rattle.cache_lists.specs.Items.{victim, KeepsItems, EndsAt};
ghost use Rattle.cache_lists.specs.Rescues.{most_rescues, RescuesUpTo, LooksAtCold, Evicts, rescue_way, noted_times};

use crate::counted::CountedBook;
use crate::victims::Victim;
use bump_heads::Name;
use bump_rules::{Place, Tail, has_expired};
use bump_steps::RowLaw;

/// An evict rescues at most so many items of COLD: a bound of what one evict does, however many there are ACTIVE.
pub const RESCUES: u32 = 8;

impl<N: Name, L: RowLaw> CountedBook<N, L> {
    // Pulls COLD once, where its last item hasn't expired, and tells whether that rescued it.
    #[inline(always)]
    fn rescue_last(&mut self, now: u64) -> bool
        ensures looked { LooksAtCold now result self.old.book self.new.book }
        ensures kept { KeepsItems self.old.book self.new.book }
        ensures flow { self.new.flow ≡ noted (rescue_way result) self.old.flow }
        ensures evictions { self.new.evictions ≡ self.old.evictions }
    {
        let Some(chunk) = self.book.last(Place::Cold) else {
            return false;
        };
        let expires = self.label(chunk);
        if has_expired(expires, now) {
            return false;
        }
        let pulled = self.look_at(Tail::Cold);
        pulled.to().is_some()
    }

    /// Rescues items of COLD: its last one, while that is ACTIVE and hasn't expired at `now`, goes to the front of
    /// WARM, and loses ACTIVE, at most `RESCUES` times. It tells how many, and each is counted. They are fewer only
    /// where then one more look found that the last one of COLD has expired or isn't ACTIVE, or that COLD is empty.
    /// `now` is in the caller's ticks.
    pub fn rescue(&mut self, now: u64) -> u32
        ensures rescued { RescuesUpTo now most_rescues result self.old.book self.new.book }
        ensures kept { KeepsItems self.old.book self.new.book }
        ensures flow { self.new.flow ≡ noted_times result (Some (Cold, Warm)) self.old.flow }
        ensures evictions { self.new.evictions ≡ self.old.evictions }
    {
        for rescued in 0..RESCUES {
            match self.rescue_last(now) {
                true => {}
                false => return rescued,
            }
        }
        RESCUES
    }

    /// Ends an item to make room, and rescues first, as `rescue` does. Then the one whose turn it is ends: the last of
    /// COLD; where COLD is empty, of WARM; where that is too, of HOT; and where all these are, of TEMP. So one of COLD
    /// that is ACTIVE ends only where it has expired at `now`, where `RESCUES` were rescued, or where it became ACTIVE
    /// behind the last pull. It tells the item, or None exactly where HOT, WARM, COLD and TEMP were empty, and changes
    /// nothing then. It counts each rescue, and one item: as reclaimed where it has expired at `now`, and else as
    /// evicted, by the marks that a look just behind the item's end found.
    pub fn evict(&mut self, now: u64) -> Option<Victim>
        ensures evicts { IfSome result (λ it. Evicts now it self.old self.new) }
        ensures ends { IfSome result (λ it. EndsAt it.chunk self.old.book self.new.book) }
        ensures expires { IfSome result (λ it. it.expires ≡ last_label self.old.book.sheet it.chunk) }
        ensures some { IfSome result (λ it. victim self.old.book.lists ≢ None) }
        ensures empty { IfNone result (victim self.old.book.lists ≡ None) }
        ensures none { IfNone result (self.new ≡ self.old) }
    {
        self.rescue(now);
        match self.end_victim(now) {
            Some(ended) => Some(ended),
            None => None,
        }
    }
}

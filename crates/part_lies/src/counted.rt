//! The lists of a cache's items, as a caller calls them.
ghost use Rattle.bump_rules.specs.declared.places.Place.TheVariants.{Cold, Warm};
ghost use Rattle.bump_steps.specs.Views.{last_label, owns};
ghost use Rattle.cache_lists.specs.Counts.{count_of, noted};
ghost use Rattle.cache_lists.specs.Expiring.{EndsExpired};
ghost use Rattle.cache_lists.specs.Items.{victim, KeepsItems, EndsAt};
ghost use Rattle.cache_lists.specs.Rescues.{most_rescues, RescuesUpTo, Evicts, noted_times};
ghost use Rattle.std.specs.Prelude.{◌≡◌, ◌≢◌, IfSome, IfNone, Some, None, true};

use cache_lists::{CountedBook, Evictions, Name, RowLaw, Statistic, Victim};

/// Rescues items of COLD.
pub fn rescue<N: Name, L: RowLaw>(book: &mut CountedBook<N, L>, now: u64) -> u32
    ensures rescued { RescuesUpTo now most_rescues result book.old.book book.new.book }
    ensures kept { KeepsItems book.old.book book.new.book }
    ensures flow { book.new.flow ≡ noted_times result (Some (Cold, Warm)) book.old.flow }
    ensures evictions { book.new.evictions ≡ book.old.evictions }
{
    book.rescue(now)
}

/// Ends an item to make room.
pub fn evict<N: Name, L: RowLaw>(book: &mut CountedBook<N, L>, now: u64) -> Option<Victim>
    ensures evicts { IfSome result (λ it. Evicts now it book.old book.new) }
    ensures ends { IfSome result (λ it. EndsAt it.chunk book.old.book book.new.book) }
    ensures expires { IfSome result (λ it. it.expires ≡ last_label book.old.book.sheet it.chunk) }
    ensures some { IfSome result (λ it. victim book.old.book.lists ≢ None) }
    ensures empty { IfNone result (victim book.old.book.lists ≡ None) }
    ensures none { IfNone result (book.new ≡ book.old) }
{
    book.evict(now)
}

/// Ends an item that has expired.
pub fn end_expired<N: Name, L: RowLaw>(book: &mut CountedBook<N, L>, chunk: u32, now: u64) -> bool
    requires own { owns chunk book.old.book.sheet ≡ true }
    ensures ends { EndsExpired chunk now result book.old book.new }
{
    book.end_expired(chunk, now)
}

/// A count of what was evicted.
pub fn count(evictions: &Evictions, name: Statistic) -> u64
    ensures { result ≡ count_of name evictions.now }
{
    evictions.of(name)
}

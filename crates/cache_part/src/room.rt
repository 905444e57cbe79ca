//! Room is made for an item.
ghost use Rattle.std.specs.Prelude.{◌≡◌, ℕ, suc, ◌+◌, ◌≤◌, None, length, slice_set, IfSome, IfNone};
ghost use Rattle.cache_lists.specs.Items.{KeepsItems};
ghost use Rattle.cache_lists.specs.Linked.{linked_at};
ghost use Rattle.cache_index.specs.Views.{led_at};
ghost use Rattle.cache_part.specs.Parts.{generation_led};
ghost use Rattle.cache_part.specs.Putting.{linked_count, DrainsAndSweeps, EndsEvicted, EvictsWhereFull, FreesAtLast, FreesWhereNone, TellsWords};

use crate::putting::Settings;
use crate::{evicting, tending};
use bump_class::RawLane;
use bump_heads::Name;
use bump_rules::Place;
use bump_steps::RowLaw;
use cache_index::Index;
use cache_lists::{CountedBook, MOST_FREED};

// How many items are linked.
fn count<N: Name, L: RowLaw>(lists: &CountedBook<N, L>) -> u64
    ensures { result ≡ linked_count lists.now.book.lists }
{
    u64::from(lists.size(Place::Hot))
        + u64::from(lists.size(Place::Warm))
        + u64::from(lists.size(Place::Cold))
        + u64::from(lists.size(Place::Temp))
}

// Evicts the item whose turn it is, where the key has none and as many as may be are linked; and tells its chunk, and
// its row where it is asked for. The index leads to it no more behind that. Where it is held, bumps that wait are
// applied before.
pub(crate) fn evict_where_full<N: Name, L: RowLaw>(
    lists: &mut CountedBook<N, L>,
    index: &mut Index,
    settings: Settings,
    old: Option<u32>,
    tells: bool,
    told: &mut [u64],
    lanes: &mut [RawLane<N, L>],
    most: u32,
    now: u64,
) -> Option<u32>
    requires leads { (chunk : ℕ) → generation_led (led_at index.old.table chunk) ≡ linked_at lists.old.book.sheet chunk }
    requires told { length told.old ≡ suc (settings.key_words + settings.value_words) }
    requires few { settings.key_words + settings.value_words ≤ N.table.slots }
    ensures evicts { EvictsWhereFull settings.items most now old result lists.old lanes.old lists.new lanes.new }
    ensures ends { EndsEvicted result lists.old.book lists.new.book }
    ensures table { IfSome result (λ chunk. index.new.table ≡ slice_set index.old.table chunk None) }
    ensures index { IfNone result (index.new ≡ index.old) }
    ensures first { index.new.first ≡ index.old.first }
    ensures told { TellsWords tells (settings.key_words + settings.value_words) result told.old told.new
        lists.old.book.sheet }
{
    if old.is_some() {
        return None;
    }
    if count(lists) < u64::from(settings.items) {
        return None;
    }
    evicting::evict(lists, index, settings, tells, told, lanes, most, now)
}

// Applies the bumps that wait in the lanes, at most `most` of each, since each holds its item; and then frees what
// nobody holds any more.
fn drain_and_sweep<N: Name, L: RowLaw>(
    lists: &mut CountedBook<N, L>,
    lanes: &mut [RawLane<N, L>],
    most: u32,
    now: u64,
)
    ensures did { DrainsAndSweeps most now lists.old lanes.old lists.new lanes.new }
    ensures kept { KeepsItems lists.old.book lists.new.book }
{
    tending::drain(lists, lanes, most, now);
    lists.promise();
    lists.sweep();
}

// Chunks of ended items come free that nobody holds any more; and where none does the bumps that wait are applied
// first.
fn free_at_last<N: Name, L: RowLaw>(
    lists: &mut CountedBook<N, L>,
    lanes: &mut [RawLane<N, L>],
    most: u32,
    now: u64,
)
    ensures frees { FreesAtLast most now lists.old lanes.old lists.new lanes.new }
    ensures kept { KeepsItems lists.old.book lists.new.book }
{
    lists.free_some(MOST_FREED as u32);
    if lists.size(Place::Unused) > 0 {
        return;
    }
    drain_and_sweep(lists, lanes, most, now);
}

// So it is where no chunk is free.
pub(crate) fn free_where_none<N: Name, L: RowLaw>(
    lists: &mut CountedBook<N, L>,
    lanes: &mut [RawLane<N, L>],
    most: u32,
    now: u64,
)
    ensures frees { FreesWhereNone most now lists.old lanes.old lists.new lanes.new }
    ensures kept { KeepsItems lists.old.book lists.new.book }
    ensures evictions { lists.new.evictions ≡ lists.old.evictions }
{
    if lists.size(Place::Unused) > 0 {
        return;
    }
    free_at_last(lists, lanes, most, now);
}

//! The item whose turn it is is evicted, and told.
ghost use Rattle.std.specs.Prelude.{◌≡◌, ℕ, suc, ◌+◌, ◌≤◌, None, true, length, slice_set, IfSome, IfNone};
ghost use Rattle.cache_index.specs.Views.{led_at};
ghost use Rattle.cache_lists.specs.Items.{victim};
ghost use Rattle.cache_lists.specs.Linked.{linked_at};
ghost use Rattle.cache_part.specs.Evicting.{HasNoItem};
ghost use Rattle.cache_part.specs.Parts.{IsPart, generation_led};
ghost use Rattle.cache_part.specs.Putting.{EndsEvicted, EvictsAndReads, TellsWords};
ghost use Rattle.cache_part.specs.Tending.{DrainsWhereHeld};

use crate::putting::Settings;
use crate::{reading, tending};
use bump_class::RawLane;
use bump_heads::Name;
use bump_steps::RowLaw;
use cache_index::Index;
use cache_lists::CountedBook;

// Evicts the item whose turn it is, and tells its chunk, and its row where it is asked for; or None where there is none
// to evict. The index leads to it no more behind that. Where it is held, bumps that wait are applied before.
#[inline(always)]
pub(crate) fn evict<N: Name, L: RowLaw>(
    lists: &mut CountedBook<N, L>,
    index: &mut Index,
    _settings: Settings,
    tells: bool,
    told: &mut [u64],
    lanes: &mut [RawLane<N, L>],
    most: u32,
    now: u64,
) -> Option<u32>
    requires leads { (chunk : ℕ) → generation_led (led_at index.old.table chunk) ≡ linked_at lists.old.book.sheet chunk }
    requires told { length told.old ≡ suc (_settings.key_words + _settings.value_words) }
    requires few { _settings.key_words + _settings.value_words ≤ N.table.slots }
    ensures evicts { IfSome result (λ chunk. EvictsAndReads most now chunk lists.old lanes.old lists.new lanes.new) }
    ensures drains { IfNone result (DrainsWhereHeld most now lists.old lanes.old lists.new lanes.new) }
    ensures none { IfNone result (victim lists.new.book.lists ≡ None) }
    ensures ends { EndsEvicted result lists.old.book lists.new.book }
    ensures table { IfSome result (λ chunk. index.new.table ≡ slice_set index.old.table chunk None) }
    ensures index { IfNone result (index.new ≡ index.old) }
    ensures first { index.new.first ≡ index.old.first }
    ensures told { TellsWords tells (_settings.key_words + _settings.value_words) result told.old told.new
        lists.old.book.sheet }
{
    tending::drain_where_held(lists, lanes, most, now);
    let Some(victim) = lists.evict(now) else {
        return None;
    };
    index.clear(victim.chunk);
    // The chunk may be the next one that comes free, and a new item be linked there.
    reading::read_row_where(lists, tells, victim.chunk, told);
    Some(victim.chunk)
}

// So it is evicted where no put asks for it, and its row is told; or None exactly where none is linked, and then
// nothing changes.
pub(crate) fn evict_next<N: Name, L: RowLaw>(
    lists: &mut CountedBook<N, L>,
    index: &mut Index,
    settings: Settings,
    told: &mut [u64],
    lanes: &mut [RawLane<N, L>],
    most: u32,
    now: u64,
) -> Option<u32>
    requires part { IsPart settings.seed settings.key_words lists.old.book.sheet index.old.table }
    requires first { index.old.first ≡ lists.old.book.sheet.first }
    requires told { length told.old ≡ suc (settings.key_words + settings.value_words) }
    requires few { settings.key_words + settings.value_words ≤ N.table.slots }
    ensures part { IsPart settings.seed settings.key_words lists.new.book.sheet index.new.table }
    ensures first { index.new.first ≡ lists.new.book.sheet.first }
    ensures evicts { IfSome result (λ chunk. EvictsAndReads most now chunk lists.old lanes.old lists.new lanes.new) }
    ensures ends { EndsEvicted result lists.old.book lists.new.book }
    ensures none { IfNone result (HasNoItem lists.old.book) }
    ensures still { IfNone result ((lists.new ≡ lists.old) × (lanes.new ≡ lanes.old)) }
    ensures index { IfNone result (index.new ≡ index.old) }
    ensures told { TellsWords true (settings.key_words + settings.value_words) result told.old told.new
        lists.old.book.sheet }
{
    lists.promise();
    let evicted = evict(lists, index, settings, true, told, lanes, most, now);
    lists.promise();
    evicted
}

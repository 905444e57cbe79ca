//! The item of a key ends.
ghost use Rattle.std.specs.Prelude.{◌≡◌, ℕ, suc, ◌+◌, ◌<◌, ◌≤◌, IfSome, IfNone, IsSome, None, true, length, slice_set};
ghost use Rattle.bump_rules.specs.Lists.{all_without};
ghost use Rattle.bump_steps.specs.Views.{owns};
ghost use Rattle.cache_lists.specs.Items.{EndsAt, IsSameClass};
ghost use Rattle.cache_lists.specs.Linked.{linked_at};
ghost use Rattle.cache_lists.specs.Segments.{SameSegments};
ghost use Rattle.cache_index.specs.Views.{led_at};
ghost use Rattle.cache_part.specs.Keys.{HasKey};
ghost use Rattle.cache_part.specs.Looks.{LooksOnly};
ghost use Rattle.cache_part.specs.Parts.{IsPart, generation_led};
ghost use Rattle.cache_part.specs.Putting.{TellsOldWords};

use crate::putting::Settings;
use crate::{finding, reading};
use bump_heads::Name;
use bump_steps::RowLaw;
use cache_index::Index;
use cache_lists::CountedBook;

// Ends the item of a chunk to which the index leads no more.
pub(crate) fn end_unled<N: Name, L: RowLaw>(
    lists: &mut CountedBook<N, L>,
    _index: &Index,
    chunk: u32,
)
    requires unled { led_at _index.now.table chunk ≡ None }
    requires own { owns chunk lists.old.book.sheet ≡ true }
    requires linked { IsSome (linked_at lists.old.book.sheet chunk) }
    ensures ends { EndsAt chunk lists.old.book lists.new.book }
    ensures others { SameSegments (all_without chunk lists.old.book.lists) lists.new.book.lists }
    ensures evictions { lists.new.evictions ≡ lists.old.evictions }
{
    lists.end(chunk);
}

// The index leads to the item of a chunk no more, and then the item ends.
pub(crate) fn end_led<N: Name, L: RowLaw>(
    lists: &mut CountedBook<N, L>,
    index: &mut Index,
    chunk: u32,
)
    requires within { chunk < length index.old.table }
    requires own { owns chunk lists.old.book.sheet ≡ true }
    requires linked { IsSome (linked_at lists.old.book.sheet chunk) }
    requires led { generation_led (led_at index.old.table chunk) ≡ linked_at lists.old.book.sheet chunk }
    ensures ends { EndsAt chunk lists.old.book lists.new.book }
    ensures others { SameSegments (all_without chunk lists.old.book.lists) lists.new.book.lists }
    ensures evictions { lists.new.evictions ≡ lists.old.evictions }
    ensures table { index.new.table ≡ slice_set index.old.table chunk None }
    ensures first { index.new.first ≡ index.old.first }
{
    index.clear(chunk);
    end_unled(lists, index, chunk);
}

// The item of a key ends, and its chunk is told, when it expires, and its value; or None where the key has none.
pub(crate) fn remove<N: Name, L: RowLaw>(
    lists: &mut CountedBook<N, L>,
    index: &mut Index,
    settings: Settings,
    key: &[u64],
    told: &mut [u64],
) -> Option<u32>
    requires part { IsPart settings.seed settings.key_words lists.old.book.sheet index.old.table }
    requires words { length key.now ≡ settings.key_words }
    requires told { length told.old ≡ suc settings.value_words }
    requires few { settings.key_words + settings.value_words ≤ N.table.slots }
    ensures part { IsPart settings.seed settings.key_words lists.new.book.sheet index.new.table }
    ensures class { IsSameClass lists.old.book lists.new.book }
    ensures found { IfSome result (λ chunk. HasKey settings.key_words key.now lists.old.book.sheet chunk) }
    ensures ends { IfSome result (λ chunk. EndsAt chunk lists.old.book lists.new.book) }
    ensures others { IfSome result (λ chunk. SameSegments (all_without chunk lists.old.book.lists)
        lists.new.book.lists) }
    ensures evictions { lists.new.evictions ≡ lists.old.evictions }
    ensures told { TellsOldWords true settings.key_words settings.value_words result told.old told.new lists.old.book.sheet }
    ensures none { IfNone result ((chunk : ℕ) → HasKey settings.key_words key.now lists.old.book.sheet chunk → ⊥) }
    ensures looks { IfNone result (LooksOnly lists.old.book lists.new.book) }
    ensures rest { IfNone result (lists.new ≡ record lists.old { book = lists.new.book }) }
    ensures index { IfNone result (index.new ≡ index.old) }
    ensures first { index.new.first ≡ index.old.first }
{
    let found = finding::find(lists, index, settings.seed, settings.key_words, key);
    let Some(chunk) = found.chunk else {
        return None;
    };
    reading::read_value(
        lists,
        Some(chunk),
        settings.key_words,
        settings.value_words,
        told,
    );
    end_led(lists, index, chunk);
    Some(chunk)
}

//! An item is linked, and the index leads to it in place of the key's old one.
ghost use Rattle.std.specs.Prelude.{◌≡◌, ℕ, suc, ◌+◌, ◌<◌, ◌≤◌, IfSome, IfNone, IsSome, None, Some, true, length};
ghost use Rattle.bump_class.specs.Links.{MayHave};
ghost use Rattle.bump_links.specs.Lists.{first_of};
ghost use Rattle.bump_rules.specs.Lists.{all_without};
ghost use Rattle.bump_steps.specs.Views.{owns};
ghost use Rattle.cache_lists.specs.Items.{EndsAt};
ghost use Rattle.cache_lists.specs.Linked.{linked_at};
ghost use Rattle.cache_lists.specs.Segments.{SameSegments};
ghost use Rattle.cache_index.specs.Views.{led_at};
ghost use Rattle.cache_part.specs.Parts.{generation_led};
ghost use Rattle.cache_part.specs.Putting.{Links, TellsOldWords, leads_anew, start_of};

use crate::ending::end_unled;
use crate::finding::Found;
use crate::putting::Settings;
use crate::reading;
use bump_heads::Name;
use bump_rules::{ItemId, Start, expires_within};
use bump_steps::RowLaw;
use cache_index::Index;
use cache_lists::CountedBook;

// The index leads to a new item in place of that of a chunk, by one store, and then the old one ends. When that
// expires, and its value, are read before, where they are asked for.
fn replace<N: Name, L: RowLaw>(
    lists: &mut CountedBook<N, L>,
    index: &mut Index,
    old: u32,
    id: ItemId,
    settings: Settings,
    tells: bool,
    told: &mut [u64],
)
    requires within { old < length index.old.table }
    requires own { owns old lists.old.book.sheet ≡ true }
    requires linked { IsSome (linked_at lists.old.book.sheet old) }
    requires led { generation_led (led_at index.old.table old) ≡ linked_at lists.old.book.sheet old }
    requires first { index.old.first ≤ id.chunk }
    requires chunk { id.chunk < length index.old.table }
    requires anew { led_at index.old.table id.chunk ≡ None }
    requires told { length told.old ≡ suc settings.value_words }
    requires slots { settings.key_words + settings.value_words ≤ N.table.slots }
    ensures ends { EndsAt old lists.old.book lists.new.book }
    ensures others { SameSegments (all_without old lists.old.book.lists) lists.new.book.lists }
    ensures evictions { lists.new.evictions ≡ lists.old.evictions }
    ensures table { (hash : ℕ) → index.new.table ≡ leads_anew hash (Some old) id index.old.table }
    ensures first { index.new.first ≡ index.old.first }
    ensures told { TellsOldWords tells settings.key_words settings.value_words (Some old) told.old told.new
        lists.old.book.sheet }
{
    reading::read_value_where(
        lists,
        tells,
        old,
        settings.key_words,
        settings.value_words,
        told,
    );
    // First the index leads to the new item: a reader that comes by finds the one or the other.
    index.lead(old, id);
    end_unled(lists, index, old);
}

// Where an item is linked that expires then.
fn start(temporary: Option<u64>, expires: u64, now: u64) -> Start
    ensures { result ≡ start_of temporary expires now }
{
    if expires_within(temporary, expires, now) {
        Start::Temp
    } else {
        Start::Hot
    }
}

// Links an item with this row, which expires then, and tells it; or None where no chunk is free. The index leads to it,
// in place of the key's old item where it has one, which then ends; when that expires, and its value, are told where
// they are asked for.
pub(crate) fn link<N: Name, L: RowLaw>(
    lists: &mut CountedBook<N, L>,
    index: &mut Index,
    settings: Settings,
    found: Found,
    row: &[u64],
    expires: u64,
    tells: bool,
    told: &mut [u64],
    now: u64,
) -> Option<ItemId>
    requires first { index.old.first ≡ lists.old.book.sheet.first }
    requires count { lists.old.book.sheet.first + lists.old.book.sheet.count ≡ length index.old.table }
    requires own { (chunk : ℕ) → IsSome (linked_at lists.old.book.sheet chunk) → owns chunk lists.old.book.sheet ≡ true }
    requires leads { (chunk : ℕ) → generation_led (led_at index.old.table chunk) ≡ linked_at lists.old.book.sheet chunk }
    requires old { (chunk : ℕ) → found.chunk ≡ Some chunk → IsSome (linked_at lists.old.book.sheet chunk) }
    requires few { length row.now ≤ N.table.slots }
    requires law { MayHave L.law expires row.now }
    requires told { length told.old ≡ suc settings.value_words }
    requires slots { settings.key_words + settings.value_words ≤ N.table.slots }
    ensures links { IfSome result (λ id. Links settings.temporary found.chunk row.now expires now id lists.old.book
        lists.new.book) }
    ensures told { IfSome result (λ id. TellsOldWords tells settings.key_words settings.value_words found.chunk told.old
        told.new lists.old.book.sheet) }
    ensures stays { IfNone result (told.new ≡ told.old) }
    ensures table { IfSome result (λ id. index.new.table ≡ leads_anew found.hash found.chunk id index.old.table) }
    ensures evictions { lists.new.evictions ≡ lists.old.evictions }
    ensures free { IfNone result (first_of lists.old.book.lists.unused ≡ None) }
    ensures none { IfNone result (lists.new ≡ lists.old) }
    ensures index { IfNone result (index.new ≡ index.old) }
    ensures first { index.new.first ≡ index.old.first }
{
    let start = start(settings.temporary, expires, now);
    let Some(id) = lists.begin(start, expires, row, now) else {
        return None;
    };
    match found.chunk {
        Some(old) => {
            replace(lists, index, old, id, settings, tells, told);
            Some(id)
        }
        None => {
            index.put(found.hash, id);
            Some(id)
        }
    }
}

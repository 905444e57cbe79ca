//! The row of an item is read, where it hasn't expired.
ghost use Rattle.std.specs.Prelude.{◌≡◌, suc, ◌-◌, ◌<◌, ◌≤◌, true, false, length};
ghost use Rattle.bump_steps.specs.Views.{owns};
ghost use Rattle.cache_part.specs.Keys.{row_of};
ghost use Rattle.cache_part.specs.Looks.{LooksOnly};
ghost use Rattle.cache_part.specs.Parts.{IsPart};
ghost use Rattle.cache_part.specs.Visiting.{has_unexpired};

use crate::putting::Settings;
use crate::reading;
use bump_heads::Name;
use bump_rules::has_expired;
use bump_steps::RowLaw;
use cache_index::Index;
use cache_lists::CountedBook;

// Reads the row of the item of a chunk, where it has one that hasn't expired, and tells whether it has.
pub(crate) fn read_unexpired<N: Name, L: RowLaw>(
    lists: &mut CountedBook<N, L>,
    index: &Index,
    _settings: Settings,
    chunk: u32,
    now: u64,
    row: &mut [u64],
) -> bool
    requires part { IsPart _settings.seed _settings.key_words lists.old.book.sheet index.now.table }
    requires first { index.now.first ≡ lists.old.book.sheet.first }
    requires own { owns chunk lists.old.book.sheet ≡ true }
    requires some { 0 < length row.old }
    requires few { length row.old ≤ suc N.table.slots }
    ensures told { result ≡ has_unexpired now lists.old.book.sheet chunk }
    ensures read { result ≡ true → row.new ≡ row_of (length row.old - 1) lists.old.book.sheet chunk }
    ensures stays { result ≡ false → row.new ≡ row.old }
    ensures looks { LooksOnly lists.old.book lists.new.book }
    ensures rest { lists.new ≡ record lists.old { book = lists.new.book } }
{
    if !index.leads(chunk) {
        return false;
    }
    if has_expired(lists.label(chunk), now) {
        return false;
    }
    reading::read_row(lists, chunk, row);
    true
}

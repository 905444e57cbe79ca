//! Items as entries of a table of keys and values.
ghost use Rattle.std.specs.Prelude.{◌≡◌, ◌+◌, true, false, suc, length};
ghost use Rattle.bump_steps.specs.Views.{owns};
ghost use Rattle.cache_part.specs.Parts.{OnlyReads};
ghost use Rattle.cache_part.specs.Putting.{row_at};
ghost use Rattle.cache_part.specs.Visiting.{has_unexpired};
ghost use Rattle.cache_shelf.specs.Shelves.{IsLawful};

use bump_heads::Name;
use bump_steps::RowLaw;
use cache_part::Part;

// Reads the row of the item of a chunk, where it has one that hasn't expired.
pub(crate) fn read_unexpired_entry<N: Name, L: RowLaw>(
    part: &mut Part<N, L>,
    chunk: u32,
    now: u64,
    row: &mut [u64],
) -> bool
    requires lawful { IsLawful L.law part.old }
    requires own { owns chunk part.old.book.sheet ≡ true }
    requires row { length row.old ≡ suc (part.old.key_words + part.old.value_words) }
    ensures lawful { IsLawful L.law part.new }
    ensures told { result ≡ has_unexpired now part.old.book.sheet chunk }
    ensures read { result ≡ true → row.new ≡ row_at part.old chunk }
    ensures stays { result ≡ false → row.new ≡ row.old }
    ensures reads { OnlyReads part.old part.new }
{
    part.read_unexpired(chunk, now, row)
}

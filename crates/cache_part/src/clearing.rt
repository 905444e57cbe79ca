//! All items end.
ghost use Rattle.std.specs.Prelude.{◌≡◌, ℕ, None};
ghost use Rattle.bump_steps.specs.Views.{last_word};
ghost use Rattle.cache_lists.specs.Items.{IsSameClass};
ghost use Rattle.cache_lists.specs.Linked.{linked_at};
ghost use Rattle.cache_part.specs.Parts.{IsPart};

use crate::ending;
use crate::putting::Settings;
use bump_heads::Name;
use bump_steps::RowLaw;
use cache_index::Index;
use cache_lists::CountedBook;

// Each item ends to which the index leads: there is no other that is linked.
pub(crate) fn clear<N: Name, L: RowLaw>(
    lists: &mut CountedBook<N, L>,
    index: &mut Index,
    _settings: Settings,
)
    requires part { IsPart _settings.seed _settings.key_words lists.old.book.sheet index.old.table }
    requires first { index.old.first ≡ lists.old.book.sheet.first }
    ensures part { IsPart _settings.seed _settings.key_words lists.new.book.sheet index.new.table }
    ensures empty { (chunk : ℕ) → linked_at lists.new.book.sheet chunk ≡ None }
    ensures words { (i c : ℕ) → last_word i lists.new.book.sheet c ≡ last_word i lists.old.book.sheet c }
    ensures class { IsSameClass lists.old.book lists.new.book }
    ensures evictions { lists.new.evictions ≡ lists.old.evictions }
    ensures first { index.new.first ≡ index.old.first }
{
    let chunks = index.range();
    for chunk in chunks.start..chunks.end {
        if index.leads(chunk) {
            ending::end_led(lists, index, chunk);
        }
    }
}

//! The label and the further words of a chunk are read.
ghost use Rattle.std.specs.Prelude.{◌≡◌, suc, ◌+◌, ◌-◌, ◌∷◌, ◌<◌, ◌≤◌, IfSome, Option, Some, true, length};
ghost use Rattle.bump_steps.specs.Views.{last_label, owns};
ghost use Rattle.cache_part.specs.Keys.{words_from, row_of};
ghost use Rattle.cache_part.specs.Looks.{LooksOnly};
ghost use Rattle.cache_part.specs.Putting.{TellsOldWords, told_if};

use bump_heads::Name;
use bump_steps::RowLaw;
use cache_lists::CountedBook;

// Reads the further words of a chunk from this number on, as many as there is room for.
pub(crate) fn read<N: Name, L: RowLaw>(
    lists: &mut CountedBook<N, L>,
    chunk: u32,
    from: u32,
    words: &mut [u64],
)
    requires own { owns chunk lists.old.book.sheet ≡ true }
    requires few { from + length words.old ≤ N.table.slots }
    ensures read { words.new ≡ words_from from (length words.old) lists.old.book.sheet chunk }
    ensures looks { LooksOnly lists.old.book lists.new.book }
    ensures rest { lists.new ≡ record lists.old { book = lists.new.book } }
{
    // It is a u32, so the number of each of the words is one.
    let _further = lists.further();
    for index in 0..words.len() {
        words[index] = lists.word(chunk, from + index as u32);
    }
}

// Reads the label of a chunk, and then its further words from this number on, as many as there is room for.
pub(crate) fn read_from<N: Name, L: RowLaw>(
    lists: &mut CountedBook<N, L>,
    chunk: u32,
    from: u32,
    told: &mut [u64],
)
    requires own { owns chunk lists.old.book.sheet ≡ true }
    requires some { 0 < length told.old }
    requires few { from + length told.old ≤ suc N.table.slots }
    ensures read { told.new ≡ last_label lists.old.book.sheet chunk
        ∷ words_from from (length told.old - 1) lists.old.book.sheet chunk }
    ensures looks { LooksOnly lists.old.book lists.new.book }
    ensures rest { lists.new ≡ record lists.old { book = lists.new.book } }
{
    told[0] = lists.label(chunk);
    read(lists, chunk, from, &mut told[1..]);
}

// So it reads when the item of a chunk expires, and then its value, where there is one.
pub(crate) fn read_value<N: Name, L: RowLaw>(
    lists: &mut CountedBook<N, L>,
    chunk: Option<u32>,
    key_words: u32,
    _value_words: u32,
    told: &mut [u64],
)
    requires own { IfSome chunk (λ c. owns c lists.old.book.sheet ≡ true) }
    requires told { length told.old ≡ suc _value_words }
    requires few { key_words + _value_words ≤ N.table.slots }
    ensures told { TellsOldWords true key_words _value_words chunk told.old told.new lists.old.book.sheet }
    ensures looks { LooksOnly lists.old.book lists.new.book }
    ensures rest { lists.new ≡ record lists.old { book = lists.new.book } }
{
    if let Some(chunk) = chunk {
        read_from(lists, chunk, key_words, told);
    }
}

// So it reads that of a chunk where it is asked for.
pub(crate) fn read_value_where<N: Name, L: RowLaw>(
    lists: &mut CountedBook<N, L>,
    tells: bool,
    chunk: u32,
    key_words: u32,
    value_words: u32,
    told: &mut [u64],
)
    requires own { owns chunk lists.old.book.sheet ≡ true }
    requires told { length told.old ≡ suc value_words }
    requires few { key_words + value_words ≤ N.table.slots }
    ensures told { TellsOldWords tells key_words value_words (Some chunk) told.old told.new lists.old.book.sheet }
    ensures looks { LooksOnly lists.old.book lists.new.book }
    ensures rest { lists.new ≡ record lists.old { book = lists.new.book } }
{
    if tells {
        read_value(lists, Some(chunk), key_words, value_words, told);
    }
}

// Reads the row of a chunk: its label, and then as many of its further words as there is room for.
pub(crate) fn read_row<N: Name, L: RowLaw>(
    lists: &mut CountedBook<N, L>,
    chunk: u32,
    row: &mut [u64],
)
    requires own { owns chunk lists.old.book.sheet ≡ true }
    requires some { 0 < length row.old }
    requires few { length row.old ≤ suc N.table.slots }
    ensures read { row.new ≡ row_of (length row.old - 1) lists.old.book.sheet chunk }
    ensures looks { LooksOnly lists.old.book lists.new.book }
    ensures rest { lists.new ≡ record lists.old { book = lists.new.book } }
{
    read_from(lists, chunk, 0, row);
}

// So it reads it where it is asked for.
pub(crate) fn read_row_where<N: Name, L: RowLaw>(
    lists: &mut CountedBook<N, L>,
    tells: bool,
    chunk: u32,
    row: &mut [u64],
)
    requires own { owns chunk lists.old.book.sheet ≡ true }
    requires some { 0 < length row.old }
    requires few { length row.old ≤ suc N.table.slots }
    ensures read { row.new ≡ told_if tells (row_of (length row.old - 1) lists.old.book.sheet chunk) row.old }
    ensures looks { LooksOnly lists.old.book lists.new.book }
    ensures rest { lists.new ≡ record lists.old { book = lists.new.book } }
{
    if tells {
        read_row(lists, chunk, row);
    }
}

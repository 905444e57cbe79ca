//! The next item that has expired is told, and ends.
ghost use Rattle.std.specs.Prelude.{◌≡◌, ◌+◌, ◌-◌, ◌<◌, ◌≤◌, suc, true, false, length, IfSome, IfNone};
ghost use Rattle.cache_part.specs.Expiring.{EndsBehindLook, HasNoneExpired, looks_of};
ghost use Rattle.cache_part.specs.Looks.{LooksOnly};
ghost use Rattle.cache_part.specs.Parts.{IsPart};
ghost use Rattle.cache_part.specs.Putting.{TellsWords};
ghost use Rattle.cache_part.specs.Taking.{FindsNext, HasExpired};

use crate::expiring::next_number;
use crate::putting::Settings;
use crate::reading;
use bump_heads::Name;
use bump_rules::has_expired;
use bump_steps::RowLaw;
use cache_index::Index;
use cache_lists::CountedBook;

// Whether a chunk has an item that has expired.
fn is_expired<N: Name, L: RowLaw>(
    lists: &mut CountedBook<N, L>,
    index: &Index,
    _settings: Settings,
    chunk: u32,
    now: u64,
) -> bool
    requires part { IsPart _settings.seed _settings.key_words lists.old.book.sheet index.now.table }
    requires first { index.now.first ≡ lists.old.book.sheet.first }
    requires from { lists.old.book.sheet.first ≤ chunk }
    requires within { chunk < length index.now.table }
    ensures has { result ≡ true → HasExpired now chunk lists.old.book }
    ensures none { result ≡ false → HasNoneExpired now chunk lists.old.book }
    ensures looks { LooksOnly lists.old.book lists.new.book }
    ensures rest { lists.new ≡ record lists.old { book = lists.new.book } }
{
    if !index.leads(chunk) {
        return false;
    }
    has_expired(lists.label(chunk), now)
}

// What a turn of looks for the next such chunk came to.
#[derive(Clone, Copy)]
pub(crate) struct Next {
    // the chunk, if there is one
    pub(crate) chunk: Option<u32>,

    // the number of the chunk at which the next turn begins
    pub(crate) cursor: u32,
}

// Looks at so many chunks of the class in turn, from that with this number on, until one has an item that has expired.
fn find_next<N: Name, L: RowLaw>(
    lists: &mut CountedBook<N, L>,
    index: &Index,
    settings: Settings,
    cursor: u32,
    most: u32,
    now: u64,
) -> Next
    requires part { IsPart settings.seed settings.key_words lists.old.book.sheet index.now.table }
    requires first { index.now.first ≡ lists.old.book.sheet.first }
    requires cursor { cursor ≤ lists.old.book.sheet.count - 1 }
    ensures finds { FindsNext (looks_of most lists.old.book) cursor now result.chunk result.cursor lists.old.book }
    ensures looks { LooksOnly lists.old.book lists.new.book }
    ensures rest { lists.new ≡ record lists.old { book = lists.new.book } }
    ensures within { result.cursor ≤ lists.old.book.sheet.count - 1 }
{
    let chunks = index.range();
    let count = chunks.end - chunks.start;
    let mut number = cursor;
    for _look in 0..most.min(count) {
        let chunk = chunks.start + number;
        number = next_number(number, count);
        if is_expired(lists, index, settings, chunk, now) {
            return Next {
                chunk: Some(chunk),
                cursor: number,
            };
        }
    }
    Next {
        chunk: None,
        cursor: number,
    }
}

// Looks so, tells the row of the item that has expired, and ends it. The index leads to it no more before it ends.
pub(crate) fn take_expired<N: Name, L: RowLaw>(
    lists: &mut CountedBook<N, L>,
    index: &mut Index,
    settings: Settings,
    cursor: u32,
    most: u32,
    told: &mut [u64],
    now: u64,
) -> Next
    requires part { IsPart settings.seed settings.key_words lists.old.book.sheet index.old.table }
    requires first { index.old.first ≡ lists.old.book.sheet.first }
    requires cursor { cursor ≤ lists.old.book.sheet.count - 1 }
    requires told { length told.old ≡ suc (settings.key_words + settings.value_words) }
    requires few { settings.key_words + settings.value_words ≤ N.table.slots }
    ensures part { IsPart settings.seed settings.key_words lists.new.book.sheet index.new.table }
    ensures first { index.new.first ≡ lists.new.book.sheet.first }
    ensures finds { FindsNext (looks_of most lists.old.book) cursor now result.chunk result.cursor lists.old.book }
    ensures ends { IfSome result.chunk (λ chunk. EndsBehindLook chunk now lists.old lists.new) }
    ensures looks { IfNone result.chunk (LooksOnly lists.old.book lists.new.book) }
    ensures rest { IfNone result.chunk (lists.new ≡ record lists.old { book = lists.new.book }) }
    ensures index { IfNone result.chunk (index.new ≡ index.old) }
    ensures told { TellsWords true (settings.key_words + settings.value_words) result.chunk told.old told.new
        lists.old.book.sheet }
    ensures within { result.cursor ≤ lists.new.book.sheet.count - 1 }
{
    let next = find_next(lists, index, settings, cursor, most, now);
    let Some(chunk) = next.chunk else {
        return next;
    };
    reading::read_row(lists, chunk, told);
    index.clear(chunk);
    lists.end_expired(chunk, now);
    next
}

//! Items end that have expired.
ghost use Rattle.std.specs.Prelude.{◌≡◌, ℕ, ◌+◌, ◌<◌, ◌≤◌, ◌-◌, length};
ghost use Rattle.cache_part.specs.Expiring.{HasNoneExpired, IsInTurn, KeepsUnexpired, LooksAround, LooksAt};
ghost use Rattle.cache_part.specs.Expiring.{looks_of, number_behind};
ghost use Rattle.cache_part.specs.Parts.{IsPart};

use crate::putting::Settings;
use bump_heads::Name;
use bump_rules::has_expired;
use bump_steps::RowLaw;
use cache_index::Index;
use cache_lists::CountedBook;

// Ends the item of a chunk, where it has one that has expired, and tells whether it did.
fn end_where_expired<N: Name, L: RowLaw>(
    lists: &mut CountedBook<N, L>,
    index: &mut Index,
    _settings: Settings,
    chunk: u32,
    now: u64,
) -> bool
    requires part { IsPart _settings.seed _settings.key_words lists.old.book.sheet index.old.table }
    requires first { index.old.first ≡ lists.old.book.sheet.first }
    requires from { lists.old.book.sheet.first ≤ chunk }
    requires within { chunk < length index.old.table }
    ensures part { IsPart _settings.seed _settings.key_words lists.new.book.sheet index.new.table }
    ensures first { index.new.first ≡ index.old.first }
    ensures looks { LooksAt chunk now result lists.old lists.new }
    ensures ended { HasNoneExpired now chunk lists.new.book }
    ensures kept { KeepsUnexpired now lists.old.book lists.new.book }
{
    if !index.leads(chunk) {
        return false;
    }
    if !has_expired(lists.label(chunk), now) {
        return false;
    }
    index.clear(chunk);
    lists.end_expired(chunk, now)
}

// The number behind this one, around and around.
pub(crate) fn next_number(number: u32, count: u32) -> u32
    requires { number < count }
    ensures { result ≡ number_behind number 1 count }
{
    if number + 1 < count { number + 1 } else { 0 }
}

// What a turn of looks came to.
#[derive(Clone, Copy)]
pub(crate) struct Turn {
    // so many items ended
    pub(crate) ended: u32,

    // the number of the chunk at which the next turn begins
    pub(crate) cursor: u32,
}

// Looks at so many chunks of the class in turn, from that with this number on, and ends each item that has expired.
pub(crate) fn end_expired<N: Name, L: RowLaw>(
    lists: &mut CountedBook<N, L>,
    index: &mut Index,
    settings: Settings,
    cursor: u32,
    most: u32,
    now: u64,
) -> Turn
    requires part { IsPart settings.seed settings.key_words lists.old.book.sheet index.old.table }
    requires first { index.old.first ≡ lists.old.book.sheet.first }
    requires cursor { cursor ≤ lists.old.book.sheet.count - 1 }
    ensures part { IsPart settings.seed settings.key_words lists.new.book.sheet index.new.table }
    ensures first { index.new.first ≡ index.old.first }
    ensures looks { LooksAround (looks_of most lists.old.book) cursor now result.ended lists.old lists.new }
    ensures ended { (chunk : ℕ) → IsInTurn cursor (looks_of most lists.old.book) lists.old.book.sheet chunk
        → HasNoneExpired now chunk lists.new.book }
    ensures kept { KeepsUnexpired now lists.old.book lists.new.book }
    ensures cursor { result.cursor
        ≡ number_behind cursor (looks_of most lists.old.book) lists.old.book.sheet.count }
    ensures within { result.cursor ≤ lists.new.book.sheet.count - 1 }
{
    let chunks = index.range();
    let count = chunks.end - chunks.start;
    let mut ended = 0;
    let mut number = cursor;
    for _look in 0..most.min(count) {
        if end_where_expired(lists, index, settings, chunks.start + number, now) {
            ended += 1;
        }
        number = next_number(number, count);
    }
    Turn {
        ended,
        cursor: number,
    }
}

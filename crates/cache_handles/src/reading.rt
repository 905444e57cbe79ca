//! What is read of an item that is held.
ghost use Rattle.std.specs.Prelude.{◌≡◌, ◌+◌, ◌<◌, ◌≤◌, ◌^◌};
ghost use Rattle.cache_handles.specs.Reading.{value_word};
ghost use Rattle.cache_handles.specs.Rows.{TellsValue, eight_words, word_or_zero};

use crate::values::{TOLD_WORDS, ValueTold, flags_in};
use bump_heads::Name;
use bump_readers::ReaderHeads;
use cache_readers::Hold;

/// What became of a get.
#[derive(Clone, Copy)]
pub enum GetTold {
    /// The key has a value: this is told beside its bytes, and their first eight words.
    Found {
        value: ValueTold,
        words: [u64; TOLD_WORDS],
    },

    /// The key has nothing, or what has expired.
    Nothing,

    /// The key is longer than keys may be.
    KeyBytes,
}

/// What became of a get that holds.
#[derive(Clone, Copy)]
pub enum HeldTold {
    /// The key has a value, which is held: this is told beside its bytes.
    Found(ValueTold),

    /// The key has nothing, or what has expired.
    Nothing,

    /// The key is longer than keys may be.
    KeyBytes,

    /// There is no place of that number, or it has a hold.
    NoPlace,
}

/// The flags and the length of the value of an item that is held, which stands behind a key of so many words.
#[inline(always)]
pub(crate) fn held_value<N: Name>(
    hold: &mut Hold<N>,
    heads: &ReaderHeads<N>,
    key_words: u32,
) -> ValueTold
    requires key_words { key_words + 2 ≤ N.table.slots }
    requires few { key_words < 2 ^ 31 }
    ensures value { TellsValue (value_word key_words hold.old) result.flags result.length }
    ensures same { hold.new ≡ hold.old }
{
    let flags = flags_in(hold.word(heads, key_words));
    let length = hold.word(heads, key_words + 1);
    ValueTold { flags, length }
}

// The word of the value of an item that is held with this number, and 0 behind the last one.
#[inline(always)]
fn held_word<N: Name>(
    hold: &mut Hold<N>,
    heads: &ReaderHeads<N>,
    key_words: u32,
    value_words: u32,
    number: u64,
) -> u64
    requires words { key_words + value_words ≤ N.table.slots }
    requires few { key_words + value_words < 2 ^ 31 }
    ensures word { result ≡ word_or_zero (value_word key_words hold.old) value_words number }
    ensures same { hold.new ≡ hold.old }
{
    if number < u64::from(value_words) {
        hold.word(heads, key_words + number as u32)
    } else {
        0
    }
}

/// Eight words of the value of an item that is held, from the one with this number on, and 0 behind its last one.
#[inline(always)]
pub(crate) fn held_words<N: Name>(
    hold: &mut Hold<N>,
    heads: &ReaderHeads<N>,
    key_words: u32,
    value_words: u32,
    from: u64,
) -> [u64; TOLD_WORDS]
    requires words { key_words + value_words ≤ N.table.slots }
    requires few { key_words + value_words < 2 ^ 31 }
    requires from { from < 2 ^ 33 }
    ensures words { result ≡ eight_words (value_word key_words hold.old) from value_words }
    ensures same { hold.new ≡ hold.old }
{
    [
        held_word(hold, heads, key_words, value_words, from),
        held_word(hold, heads, key_words, value_words, from + 1),
        held_word(hold, heads, key_words, value_words, from + 2),
        held_word(hold, heads, key_words, value_words, from + 3),
        held_word(hold, heads, key_words, value_words, from + 4),
        held_word(hold, heads, key_words, value_words, from + 5),
        held_word(hold, heads, key_words, value_words, from + 6),
        held_word(hold, heads, key_words, value_words, from + 7),
    ]
}

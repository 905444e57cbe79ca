//! Values as words, and what is told of them.
ghost use Rattle.std.specs.Prelude.{◌≡◌, ◌%◌, ◌^◌, ◌<◌, ◌≤◌, suc, length, slice_index};
ghost use Rattle.packed_words.specs.Spelling.{words_for};
ghost use Rattle.cache_handles.specs.Rows.{eight_words, value_row, word_or_zero};

use packed_words::spell;

/// So many words are told at a time.
pub const TOLD_WORDS: usize = 8;

/// So many words of a value a get reads: its flags, its length, and as many words of its bytes as are told.
pub(crate) const FIRST_WORDS: usize = 2 + TOLD_WORDS;

/// What is told of a value beside its bytes.
#[derive(Clone, Copy)]
pub struct ValueTold {
    /// Its flags.
    pub flags: u32,

    /// How many bytes it has.
    pub length: u64,
}

/// The flags that a word has: its lower half. A put stores no others.
#[inline(always)]
pub(crate) fn flags_in(word: u64) -> u32
    ensures { result ≡ word % 2 ^ 32 }
{
    (word % (1 << 32)) as u32
}

/// Writes the words of a value.
pub(crate) fn spell_value(value: &[u8], flags: u32, words: &mut [u64])
    requires room { suc (words_for (length value.now)) ≤ length words.old }
    ensures words { words.new ≡ value_row (length words.old) flags value.now }
    ensures length { length words.new ≡ length words.old }
{
    words[0] = u64::from(flags);
    spell(value, &mut words[1..]);
}

// The word with this number, and 0 where it isn't one of the first so many.
#[inline(always)]
fn word_at(words: &[u64], number: usize, count: usize) -> u64
    requires { count ≤ length words.now }
    ensures { result ≡ word_or_zero (slice_index words.now) count number }
{
    if number < count { words[number] } else { 0 }
}

/// Eight of the first so many of these words, from the one with this number on, and 0 behind the last of them.
#[inline(always)]
pub(crate) fn eight_from(words: &[u64], from: usize, count: usize) -> [u64; TOLD_WORDS]
    requires count { count ≤ length words.now }
    requires from { from < 2 ^ 33 }
    ensures { result ≡ eight_words (slice_index words.now) from count }
{
    [
        word_at(words, from, count),
        word_at(words, from + 1, count),
        word_at(words, from + 2, count),
        word_at(words, from + 3, count),
        word_at(words, from + 4, count),
        word_at(words, from + 5, count),
        word_at(words, from + 6, count),
        word_at(words, from + 7, count),
    ]
}

//! A byte string written into words.
ghost use Rattle.std.specs.Prelude.{◌≡◌, ◌+◌, ◌*◌, ◌/◌, ◌%◌, ◌<◌, ◌≤◌, length, slice_index};
ghost use Rattle.packed_words.specs.Strings.{word_in};
ghost use Rattle.packed_words.specs.Spelling.{words_for, word_from, long_string};

/// How many words a string of so many bytes needs: one for its length, and one for each eight bytes, or part of eight.
/// There are 1 to 536,870,913 of them.
#[inline(always)]
pub fn words_for(bytes: u32) -> u32
    ensures { result ≡ words_for bytes }
{
    bytes.div_ceil(8) + 1
}

// The eight bytes from this place on as a word: they stand side by side, so one load reads them.
#[inline(always)]
fn word_from(bytes: &[u8], first: usize) -> u64
    requires { first + 8 ≤ length bytes.now }
    ensures { result ≡ word_from bytes.now first }
{
    u64::from_le_bytes([
        bytes[first],
        bytes[first + 1],
        bytes[first + 2],
        bytes[first + 3],
        bytes[first + 4],
        bytes[first + 5],
        bytes[first + 6],
        bytes[first + 7],
    ])
}

// The byte at this place, or zero behind the last one.
#[inline(always)]
fn byte_or_zero(bytes: &[u8], at: usize) -> u8
    ensures { result ≡ slice_index bytes.now at }
{
    if at < bytes.len() { bytes[at] } else { 0 }
}

// The one word of a string of fewer than eight bytes.
#[inline(always)]
fn short_word(bytes: &[u8]) -> u64
    requires { length bytes.now < 8 }
    ensures { result ≡ word_in bytes.now 0 }
{
    u64::from_le_bytes([
        byte_or_zero(bytes, 0),
        byte_or_zero(bytes, 1),
        byte_or_zero(bytes, 2),
        byte_or_zero(bytes, 3),
        byte_or_zero(bytes, 4),
        byte_or_zero(bytes, 5),
        byte_or_zero(bytes, 6),
        0,
    ])
}

// The word in which a string ends, where its last bytes fill none. A longer string's last eight bytes are read at once,
// and those that belong to the word before are shifted out.
#[inline(always)]
fn last_word(bytes: &[u8]) -> u64
    requires { 0 < length bytes.now % 8 }
    ensures { result ≡ word_in bytes.now (length bytes.now / 8) }
{
    if bytes.len() < 8 {
        short_word(bytes)
    } else {
        word_from(bytes, bytes.len() - 8) >> (64 - 8 * (bytes.len() % 8))
    }
}

/// Writes a string into words: its length into the first one, and its bytes into those behind it, eight a word, the
/// lowest first. Zeros stand behind its last byte, up to the end of `to`. `to` must have at least as many words as
/// [`words_for`] tells of the string's length.
#[inline]
pub fn spell(bytes: &[u8], to: &mut [u64])
    requires room { words_for (length bytes.now) ≤ length to.old }
    ensures { to.new ≡ long_string (length to.old) bytes.now }
{
    let full = bytes.len() / 8;
    to[0] = bytes.len() as u64;
    'words: for at in 0..full {
        to[at + 1] = word_from(bytes, 8 * at);
    }
    if bytes.len() % 8 > 0 {
        to[full + 1] = last_word(bytes);
    }
    'zeros: for at in bytes.len().div_ceil(8)..to.len() - 1 {
        to[at + 1] = 0;
    }
}

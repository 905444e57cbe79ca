//! Byte strings of a bounded length in words.
ghost use Rattle.std.specs.Prelude.{◌≡◌, ◌↔◌, ℕ, ◌+◌, ◌*◌, ◌<◌, ◌≤◌, ◌^◌, length, slice_index, nat_eq, IsOk, IfOk, Some, ⊤};
ghost use Rattle.std.specs.Fmt.{decimal, debug_list};
ghost use Rattle.std.specs.Cmp.{partial_equiv_from_equiv};
ghost use Rattle.std.specs.Cmp.Lexicographic.{pointwise, nat_list_eq_equiv};
ghost use Rattle.packed_words.specs.Strings.{HasRoom, MayHold, counted, word_in, string_words, string_in, IsString};
ghost use Rattle.packed_words.specs.StringLaws.{length-string_words, string_words_fit, one_string};

use crate::packed::Packed;
use crate::refusals::TooLong;
use std::alloc::AllocError;
use std::fmt;
use std::marker::Model;

const MOST_WORDS: usize = 64;

// As many bytes as a string of the most words may have.
const MOST_BYTES: usize = 510;

/// A byte string in `W` words, of which there may be 1 to 64: it has at most `8 * W - 2` bytes. Two of the first
/// word's bytes are its length.
#[derive(Drop)]
pub struct Bytes<const W: usize> {
    words: [u64; W],
}

impl<const W: usize> Model for Bytes<W> {
    ghost use Rattle.std.specs.Prelude.{ℕ, List};
    ghost use Rattle.packed_words.specs.Strings.{string_in, IsString};

    ghost Value = { List ℕ };

    ghost view = { λ s. string_in s.words };

    ghost invariant = { λ s. IsString W s.words };
}

// The byte at this place of a string with its length in front.
#[inline(always)]
fn counted_byte(bytes: &[u8], at: usize) -> u8
    requires { length bytes.now < 2 ^ 16 }
    ensures { result ≡ slice_index (counted bytes.now) at }
{
    match at {
        0 => (bytes.len() % 256) as u8,
        1 => (bytes.len() / 256) as u8,
        _ => {
            if at - 2 < bytes.len() {
                bytes[at - 2]
            } else {
                0
            }
        }
    }
}

// A word whose eight bytes are all the string's own: they stand side by side, so one load reads them.
#[inline(always)]
fn full_word(bytes: &[u8], at: usize) -> u64
    requires behind { 0 < at }
    requires within { 8 * at + 6 ≤ length bytes.now }
    ensures { result ≡ word_in (counted bytes.now) at }
{
    let first = 8 * at - 2;
    u64::from_le_bytes([
        bytes[first],
        bytes[first + 1],
        bytes[first + 2],
        bytes[first + 3],
        bytes[first + 4],
        bytes[first + 5],
        bytes[first + 6],
        bytes[first + 7],
    ])
}

// A word that has a part of the length, or zeros.
#[inline(always)]
fn edge_word(bytes: &[u8], at: usize) -> u64
    requires short { length bytes.now < 2 ^ 16 }
    requires few { at < MOST_WORDS }
    ensures { result ≡ word_in (counted bytes.now) at }
{
    let first = 8 * at;
    u64::from_le_bytes([
        counted_byte(bytes, first),
        counted_byte(bytes, first + 1),
        counted_byte(bytes, first + 2),
        counted_byte(bytes, first + 3),
        counted_byte(bytes, first + 4),
        counted_byte(bytes, first + 5),
        counted_byte(bytes, first + 6),
        counted_byte(bytes, first + 7),
    ])
}

// The word at this place of a string's words.
#[inline(always)]
fn counted_word(bytes: &[u8], at: usize) -> u64
    requires short { length bytes.now < 2 ^ 16 }
    requires few { at < MOST_WORDS }
    ensures { result ≡ word_in (counted bytes.now) at }
{
    if at > 0 && 8 * at + 6 <= bytes.len() {
        full_word(bytes, at)
    } else {
        edge_word(bytes, at)
    }
}

// The words of a string.
#[inline(always)]
fn spell<const W: usize>(bytes: &[u8]) -> [u64; W]
    requires { HasRoom W (length bytes.now) }
    ensures string { IsString W result }
    ensures same { string_in result ≡ bytes.now }
{
    let mut words = [0; W];
    for (at, word) in words.iter_mut().enumerate() {
        *word = counted_word(bytes, at);
    }
    words
}

impl<const W: usize> Bytes<W> {
    /// The string of these bytes. It is [`TooLong`] exactly where there are more than `8 * W - 2` of them, or `W` is
    /// more than 64.
    #[inline]
    pub fn new(bytes: &[u8]) -> Result<Bytes<W>, TooLong>
        ensures made { IfOk result (λ string. string ≡ bytes.now) }
        ensures refused { IsOk result ↔ HasRoom W (length bytes.now) }
    {
        if W > MOST_WORDS || bytes.len() + 2 > 8 * W {
            return Err(TooLong);
        }
        Ok(Bytes {
            words: spell(bytes),
        })
    }

    /// The string of a text's bytes. It is [`TooLong`] exactly where [`new`](Bytes::new) says so.
    #[inline]
    pub fn from_text(text: &str) -> Result<Bytes<W>, TooLong>
        ensures made { IfOk result (λ string. string ≡ text.now) }
        ensures refused { IsOk result ↔ HasRoom W (length text.now) }
    {
        Bytes::new(text.as_bytes())
    }

    /// How many bytes the string has.
    #[inline(always)]
    pub fn len(&self) -> usize
        ensures { result ≡ length self.now }
    {
        (self.words[0] % 65_536) as usize
    }

    /// The byte at an index, which must be below [`len`](Bytes::len).
    #[inline(always)]
    pub fn byte(&self, index: usize) -> u8
        requires { index < length self.now }
        ensures { result ≡ slice_index self.now index }
    {
        let words = &self.words;
        let at = index + 2;
        ((words[at / 8] >> (8 * (at % 8))) % 256) as u8
    }

    /// Writes the string's bytes into `to`, which must have as many as the string.
    #[inline]
    pub fn copy_to(&self, to: &mut [u8])
        requires { length to.old ≡ length self.now }
        ensures { to.new ≡ self.now }
    {
        for (index, byte) in to.iter_mut().enumerate() {
            *byte = self.byte(index);
        }
    }

    /// The string's bytes. They are written to the beginning of `room`, which must have room for them, and returned from
    /// there.
    #[inline]
    pub fn as_bytes<'a>(&self, room: &'a mut [u8]) -> &'a [u8]
        requires { length self.now ≤ length room.old }
        ensures { result.now ≡ self.now }
    {
        let bytes = &mut room[..self.len()];
        self.copy_to(bytes);
        bytes
    }
}

/// Two strings are equal exactly where they have the same bytes.
impl<const W: usize> PartialEq for Bytes<W> {
    ghost eq = { pointwise nat_eq };

    ghost laws = { partial_equiv_from_equiv nat_list_eq_equiv };

    #[inline(always)]
    fn eq(&self, other: &Bytes<W>) -> bool {
        self.words == other.words
    }
}

impl<const W: usize> Eq for Bytes<W> {
    ghost laws = { nat_list_eq_equiv };
}

/// A clone is the same string, and takes no memory: it never fails.
impl<const W: usize> Clone for Bytes<W> {
    ghost is_clone = { λ one other. other ≡ one };

    ghost is_infallible = { λ _. ⊤ };

    #[inline(always)]
    fn clone(&self) -> Result<Bytes<W>, AllocError> {
        Ok(Bytes { words: self.words })
    }
}

/// The bytes are printed as a list of numbers.
impl<const W: usize> fmt::Debug for Bytes<W> {
    ghost debug_output = { debug_list (λ byte. Some (decimal byte)) };

    fn fmt<Writer: fmt::Write>(&self, f: &mut fmt::Formatter<Writer>) -> fmt::Result {
        // that the string has at most so many bytes is known where its words are read
        let _ = &self.words;
        let mut room = [0; MOST_BYTES];
        fmt::Debug::fmt(&self.as_bytes(&mut room), f)
    }
}

impl<const W: usize> Packed for Bytes<W> {
    ghost width = { W };

    ghost fits = { MayHold W };

    ghost as_words = { string_words W };

    #[inline(always)]
    fn words() -> usize {
        W
    }

    #[inline(always)]
    fn pack(&self, to: &mut [u64]) {
        to.copy_from_slice(&self.words);
    }

    #[inline(always)]
    fn unpack(words: &[u64]) -> Bytes<W> {
        let mut own = [0; W];
        own.copy_from_slice(words);
        Bytes { words: own }
    }

    #[inline(always)]
    fn equals(&self, words: &[u64]) -> bool {
        self.words.as_slice() == words
    }

    ghost length_is = { λ v h. length-string_words W v };

    ghost are_words = { string_words_fit W };

    ghost one_value = { one_string W };
}

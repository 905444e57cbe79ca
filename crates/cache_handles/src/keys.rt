//! Keys as words, and which of them are a part's.
ghost use Rattle.std.specs.Prelude.{◌≡◌, ◌≤◌, IfNone, length};
ghost use Rattle.packed_words.specs.Spelling.{long_string, words_for};
ghost use Rattle.cache_config.specs.Choosing.{IsPartCount};
ghost use Rattle.cache_handles.specs.Views.{key_fault};

use cache_config::part_of_hash;
use keyed_hash::Seed;
use packed_words::spell;

/// Why a part doesn't take a key.
#[derive(Clone, Copy)]
pub enum KeyFault {
    /// It is longer than keys of this cache may be.
    TooLong,

    /// It is of another part.
    OtherPart,
}

/// Which of how many parts a part is.
#[derive(Clone, Copy)]
pub struct PartPlace {
    /// Its number, from 0.
    pub number: u32,

    /// How many parts there are, 1 to 256.
    pub parts: u32,
}

/// Writes the words of a key that is one of the part's, and tells why where it isn't: keys have `most` bytes at most.
pub(crate) fn spell_key(
    key: &[u8],
    most: u32,
    seed: Seed,
    place: PartPlace,
    words: &mut [u64],
) -> Option<KeyFault>
    requires room { words_for most ≤ length words.old }
    requires parts { IsPartCount place.parts }
    ensures told { result ≡ key_fault most seed place (length words.old) key.now }
    ensures spelled { IfNone result (words.new ≡ long_string (length words.old) key.now) }
    ensures length { length words.new ≡ length words.old }
{
    if key.len() > most as usize {
        return Some(KeyFault::TooLong);
    }
    spell(key, words);
    if part_of_hash(place.parts as usize, seed.full_hash(words)) != place.number as usize {
        return Some(KeyFault::OtherPart);
    }
    None
}

//! Which part of a cache a key is of.
ghost use Rattle.std.specs.Prelude.{◌≡◌, ◌<◌, ◌≤◌};
ghost use Rattle.keyed_hash.specs.Hashes.{full_hash_of};
ghost use Rattle.cache_config.specs.Choosing.{IsPartCount, part_of};
ghost use Rattle.bump_cache.specs.Opening.{most_words};

use crate::law::MOST_WORDS;
use cache_config::part_of_hash;
use keyed_hash::Seed;
use packed_words::Packed;

/// The part, of so many, that a key is of.
pub(crate) fn part_of_key<K: Packed>(parts: usize, seed: Seed, key: &K) -> usize
    requires parts { IsPartCount parts }
    requires few { K.width ≤ most_words }
    ensures part { result ≡ part_of parts (full_hash_of seed (K.as_words key.now)) }
    ensures within { result < parts }
{
    let mut row = [0; MOST_WORDS];
    let words = &mut row[..K::words()];
    key.pack(words);
    part_of_hash(parts, seed.full_hash(words))
}

//! The seed of a hash.
ghost use Rattle.std.specs.Prelude.{◌≡◌, [], ◌∷◌};
ghost use Rattle.keyed_hash.specs.Hashes.{upper_half as half_of};

use crate::mix::mix;
use std::io;
use std::random::RandomSource;

// wyhash's first three secret words: half of their bits are set, so that a seed of zeros hashes well, too.
const START: u64 = 0xa076_1d64_78bd_642f;

const MULTIPLIER: u64 = 0xe703_7ed1_a0b4_28db;

const COUNT: u64 = 0x8ebc_6af0_9c88_c6e3;

/// The seed of a hash: two numbers, any. Who knows both can find words without end that have one hash. So where others
/// may choose the words, as the keys of a cache, take a [`random`](Seed::random) seed, and show it to no one.
#[derive(Clone, Copy)]
pub struct Seed {
    /// What the hash begins with.
    pub first: u64,

    /// What each word is multiplied with.
    pub second: u64,
}

impl Seed {
    ghost use Rattle.keyed_hash.specs.Hashes.{full_hash_of, hash_of};

    /// A seed of random numbers, from the system. It is an error exactly where the system has none for now. What the
    /// numbers are no contract can say.
    pub fn random(source: &impl RandomSource) -> io::Result<Seed> {
        let mut bytes = [0; 16];
        source.fill_bytes(&mut bytes)?;
        let [a, b, c, d, e, f, g, h, i, j, k, l, m, n, o, p] = bytes;
        Ok(Seed {
            first: u64::from_le_bytes([a, b, c, d, e, f, g, h]),
            second: u64::from_le_bytes([i, j, k, l, m, n, o, p]),
        })
    }

    /// The full hash of words, of which there may be any number, also none: the last word that was mixed. The same words
    /// under the same seed always have the same hash.
    #[inline(always)]
    pub fn full_hash(&self, words: &[u64]) -> u64
        ensures { result ≡ full_hash_of self.now words.now }
    {
        let mut state = self.first ^ START;
        for word in words {
            state = mix(state ^ *word, self.second ^ MULTIPLIER);
        }
        mix(state, words.len() as u64 ^ COUNT)
    }

    /// The hash of words: the [`upper_half`] of what [`full_hash`](Seed::full_hash) gives for them.
    #[inline(always)]
    pub fn hash(&self, words: &[u64]) -> u32
        ensures { result ≡ hash_of self.now words.now }
    {
        upper_half(self.full_hash(words))
    }

    /// The hash of one word: what [`hash`](Seed::hash) gives for it alone.
    #[inline(always)]
    pub fn hash_one(&self, word: u64) -> u32
        ensures { result ≡ hash_of self.now (word ∷ []) }
    {
        let state = mix(self.first ^ START ^ word, self.second ^ MULTIPLIER);
        upper_half(mix(state, 1 ^ COUNT))
    }
}

/// The upper half of a full hash, 32 bits: what [`Seed::hash`] gives.
#[inline(always)]
pub fn upper_half(full: u64) -> u32
    ensures { result ≡ half_of full }
{
    (full >> 32) as u32
}

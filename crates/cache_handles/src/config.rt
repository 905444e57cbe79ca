//! What a cache of byte strings is made from.
ghost use Rattle.std.specs.Prelude.{◌≡◌, ◌+◌, ◌≤◌, None};
ghost use Rattle.cache_handles.specs.Configs.{bytes_taken_by, default_config, first_byte_fault, key_words_of, most_value_bytes, part_of_key};
ghost use Rattle.cache_handles.specs.Configs.{value_words_of};

use cache_config::{CacheConfig, CacheFault, part_of_hash};
use keyed_hash::Seed;
use packed_words::{spell, words_for};

// The longest key that a cache may have: memcached's are of 250 bytes at most.
const MOST_KEY_BYTES: u32 = 1_024;

// So many words such a key takes: one for its length, and one for each eight bytes.
const MOST_KEY_WORDS: usize = 129;

// The longest value, as memcached's at its default.
const MOST_VALUE_BYTES: u32 = 1_048_576;

/// Why a cache can't be made from these numbers.
#[derive(Clone, Copy)]
pub enum ByteFault {
    /// Keys may have more than 1,024 bytes.
    KeyBytes,

    /// Values may have more than 1,048,576 bytes.
    ValueBytes,

    /// The rest of it has this fault.
    Cache(CacheFault),
}

/// What a cache of byte strings is made from.
#[derive(Clone, Copy)]
pub struct ByteConfig {
    /// What it is made from beside the lengths.
    pub cache: CacheConfig,

    /// A key has at most so many bytes, 0 to 1,024.
    pub key_bytes: u32,

    /// A value has at most so many bytes, 0 to 1,048,576.
    pub value_bytes: u32,
}

impl ByteConfig {
    /// That of a cache with so many items and readers as memcached has it, as `CacheConfig::new` tells it, with a seed of
    /// zeros: who lets others choose the keys gives it another one. Its spare chunks are for readers that hold one item
    /// each at a time: who opens it with more places adds as many for each reader as it has places.
    pub fn defaults(items: u32, readers: u32, key_bytes: u32, value_bytes: u32) -> ByteConfig
        ensures { result ≡ default_config items readers key_bytes value_bytes }
    {
        let seed = Seed {
            first: 0,
            second: 0,
        };
        ByteConfig {
            cache: CacheConfig::new(items, readers, seed),
            key_bytes,
            value_bytes,
        }
    }

    /// The first fault of these numbers, in the order of `ByteFault`, if they have one.
    pub fn fault(&self) -> Option<ByteFault>
        ensures { result ≡ first_byte_fault self.now }
    {
        if self.key_bytes > MOST_KEY_BYTES {
            return Some(ByteFault::KeyBytes);
        }
        if self.value_bytes > MOST_VALUE_BYTES {
            return Some(ByteFault::ValueBytes);
        }
        match self.cache.fault() {
            Some(fault) => Some(ByteFault::Cache(fault)),
            None => None,
        }
    }

    /// How many words a key takes: as many as the longest one needs.
    pub fn key_words(&self) -> u32
        ensures { result ≡ key_words_of self.now }
    {
        words_for(self.key_bytes)
    }

    /// How many words a value takes: one for its flags, and as many as the longest one needs. Values have at most
    /// 1,048,576 bytes.
    pub fn value_words(&self) -> u32
        requires { self.now.value_bytes ≤ most_value_bytes }
        ensures { result ≡ value_words_of self.now }
    {
        1 + words_for(self.value_bytes)
    }
    /// How many further words each chunk of the cache's store has: those of a key and of a value.
    pub fn words(&self) -> u32
        requires { first_byte_fault self.now ≡ None }
        ensures { result ≡ key_words_of self.now + value_words_of self.now }
    {
        self.key_words() + self.value_words()
    }

    /// How many bytes a cache of this asks for when it is opened and keeps, as `CacheConfig::bytes_taken` tells; or None
    /// exactly where none is made from this. What a cache for C takes for its handles and numbered holds comes to them.
    pub fn bytes_taken(&self) -> Option<u64>
        ensures { result ≡ bytes_taken_by self.now }
    {
        if self.fault().is_some() {
            return None;
        }
        Some(self.cache.bytes_taken(self.key_words(), self.value_words()))
    }

    /// The part that a key is of, by number; or None exactly where the key is too long, or no cache is made from this. It
    /// asks for no memory.
    pub fn part_of(&self, key: &[u8]) -> Option<u32>
        ensures { result ≡ part_of_key self.now key.now }
    {
        if self.fault().is_some() || key.len() > self.key_bytes as usize {
            return None;
        }
        let mut row = [0; MOST_KEY_WORDS];
        let words = &mut row[..self.key_words() as usize];
        spell(key, words);
        let full = self.cache.seed.full_hash(words);
        Some(part_of_hash(self.cache.parts as usize, full) as u32)
    }
}

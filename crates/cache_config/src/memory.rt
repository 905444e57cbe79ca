//! How much memory a cache takes.
ghost use Rattle.std.specs.Prelude.{◌≡◌, ◌+◌, ◌*◌, ◌<◌, ◌≤◌, ◌⊎◌, ◌↔◌, ◌^◌, ℕ, IfSome, IsNone, None, false, nat_le};
ghost use Rattle.bump_rules.specs.Configs.{is_within, most_chunks, most_capacity};
ghost use Rattle.cache_config.specs.Configs.{first_cache_fault, most_parts, new_config, spare_of};
ghost use Rattle.cache_config.specs.Memory.{IsMostFor, bytes_of, index_bytes, list_bytes, packing_bytes, part_bytes, reader_bytes, row_bytes, sum_of_parts};

use crate::config::CacheConfig;
use bump_rules::WIDE_CHUNKS;
use cache_index::nests_for;
use keyed_hash::Seed;

// How many words lie before the rows of all chunks.
const SPARE_WORDS: u64 = 14;

// A chunk has a head, a time and a label beside its key and value.
const OWN_WORDS: u64 = 3;

// What a chunk takes in the lists, as do the ends of a list.
const LINK_BYTES: u64 = 12;

// There are so many lists.
const LISTS: u64 = 7;

// What lies before the nests of the index.
const NESTS_FROM: u64 = 48;

// A nest's line.
const NEST_BYTES: u64 = 64;

// By what the lane of a chunk is found again.
const WAY_BYTES: u64 = 8;

// A `CacheReader`.
const READER_BYTES: u64 = 40;

// A `WordReader`.
const SIDE_BYTES: u64 = 168;

// What the ends of a ring share.
const RING_BYTES: u64 = 384;

// A bump in a ring.
const BUMP_BYTES: u64 = 8;

// A `RawLane`.
const LANE_BYTES: u64 = 96;

// The nests, with the count of who has them.
const NESTS_BYTES: u64 = 80;

// A place in the vector of locks: a lock, with what it guards, and 64 bytes on each side of it.
const LOCK_BYTES: u64 = 680;

// A part counts the moves for bumps of each worker, of which there is one for each reader and part.
const MOVES_BYTES: u64 = 8;

// The heads, with the count of who has them.
const HEADS_BYTES: u64 = 104;

// A table of words has further parts without bytes: one byte is asked for them.
const EMPTY_BYTES: u64 = 1;

// What the rows of so many chunks take, whose keys and values have so many words together.
fn rows_take(chunks: u32, words: u64) -> u64
    requires few { chunks ≤ most_chunks }
    requires words { words < 2 ^ 33 }
    ensures rows { result ≡ row_bytes chunks words }
    ensures range { result < 2 ^ 63 }
{
    8 * (SPARE_WORDS + u64::from(chunks) * (OWN_WORDS + words))
}

// What the lists of so many chunks take, and the index that leads to them.
fn lists_and_index_take(chunks: u32) -> u64
    requires few { chunks ≤ most_chunks }
    ensures both { result ≡ list_bytes chunks + index_bytes chunks }
    ensures range { result < 2 ^ 34 }
{
    let lists = LINK_BYTES * (u64::from(chunks) + LISTS);
    let nests = NESTS_FROM + NEST_BYTES * u64::from(nests_for(chunks));
    lists + (nests + WAY_BYTES * u64::from(chunks))
}

// What a reader takes that has so many parts, whose rings have room for so many bumps.
fn reader_takes(parts: u32, ring: u32) -> u64
    requires parts { parts ≤ most_parts }
    requires ring { ring ≤ most_capacity }
    ensures reader { result ≡ reader_bytes parts ring }
    ensures range { result < 2 ^ 32 }
{
    READER_BYTES + u64::from(parts) * (SIDE_BYTES + RING_BYTES + BUMP_BYTES * u64::from(ring))
}

// What a part packs and unpacks keys and values into.
fn packing_takes(key_words: u64, value_words: u64) -> u64
    requires key { key_words < 2 ^ 32 }
    requires value { value_words < 2 ^ 32 }
    ensures packing { result ≡ packing_bytes key_words value_words }
    ensures range { result < 2 ^ 40 }
{
    8 * (key_words + (key_words + value_words) + (1 + value_words) + (1 + key_words + value_words))
}

// What a part takes, by its number.
#[tactic(auto, using(crate::proofs::MemoryLemmas::few_chunks, crate::proofs::MemoryLemmas::few_readers, crate::proofs::MemoryLemmas::few_moves))]
fn part_takes(config: &CacheConfig, part: u32, key_words: u64, value_words: u64) -> u64
    requires sound { first_cache_fault config.now ≡ None }
    requires part { part < config.now.parts }
    requires key { key_words < 2 ^ 32 }
    requires value { value_words < 2 ^ 32 }
    ensures part { result ≡ part_bytes config.now key_words value_words part }
    ensures range { result < 2 ^ 41 }
{
    lists_and_index_take(config.class(part).chunks)
        + NESTS_BYTES
        + LANE_BYTES * u64::from(config.readers)
        + packing_takes(key_words, value_words)
        + LOCK_BYTES
        + MOVES_BYTES * (u64::from(config.readers) * u64::from(config.parts))
        + EMPTY_BYTES
}

// What all parts take.
#[tactic(auto, using(crate::proofs::MemoryLemmas::few_parts))]
fn parts_take(config: &CacheConfig, key_words: u64, value_words: u64) -> u64
    requires sound { first_cache_fault config.now ≡ None }
    requires key { key_words < 2 ^ 32 }
    requires value { value_words < 2 ^ 32 }
    ensures parts { result ≡ sum_of_parts (part_bytes config.now key_words value_words) config.now.parts }
    ensures range { result < 2 ^ 50 }
{
    let mut so_far = 0;
    for part in 0..config.parts {
        so_far += part_takes(config, part, key_words, value_words);
    }
    so_far
}

// Whether a cache of so many items, as `CacheConfig::new` has it, takes at most so many bytes.
fn takes_at_most(
    limit: u64,
    items: u32,
    readers: u32,
    seed: Seed,
    key_words: u32,
    value_words: u32,
) -> bool
    requires some { 1 ≤ items }
    requires few { items + spare_of readers ≤ most_chunks }
    requires readers { 1 ≤ readers }
    requires most { readers ≤ 64 }
    ensures { result ≡ nat_le (bytes_of (new_config items readers seed) key_words value_words) limit }
{
    let config = CacheConfig::new(items, readers, seed);
    config.bytes_taken(key_words, value_words) <= limit
}

// The most items with which a cache, as `CacheConfig::new` has it, takes at most so many bytes, or 0 where not even one
// has room.
fn most_items(limit: u64, readers: u32, seed: Seed, key_words: u32, value_words: u32) -> u32
    requires readers { 1 ≤ readers }
    requires most { readers ≤ 64 }
    ensures few { result + spare_of readers ≤ most_chunks }
    ensures fits { 0 < result → bytes_of (new_config result readers seed) key_words value_words ≤ limit }
    ensures over { (items : ℕ) → result < items → items + spare_of readers ≤ most_chunks
        → limit < bytes_of (new_config items readers seed) key_words value_words }
{
    let mut fits = 0;
    let mut over = WIDE_CHUNKS - readers;
    while fits + 1 < over {
        let middle = (fits + over) / 2;
        if takes_at_most(limit, middle, readers, seed, key_words, value_words) {
            fits = middle;
        } else {
            over = middle;
        }
    }
    fits
}

impl CacheConfig {
    /// How many bytes a cache of this configuration asks for when it is opened with keys and values of so many words,
    /// and keeps as long as it is there; later it asks for none. This one has no fault (`fault` answers None).
    ///
    /// It is exact of the sizes that are asked for, which `checks/cache_memory` counts; no contract of the allocator
    /// says so. What an allocator takes beside them isn't told: that of the C library has some 16 bytes for each
    /// request, of which there are 5, 12 for each part, 1 for each reader, and 2 for each reader and part, and whole
    /// pages for large ones. While a cache is opened there are more for a moment.
    #[tactic(auto, using(crate::proofs::MemoryLemmas::few_chunks_all, crate::proofs::MemoryLemmas::few_readers, crate::proofs::MemoryLemmas::few_parts, crate::proofs::MemoryLemmas::small_ring))]
    pub fn bytes_taken(&self, key_words: u32, value_words: u32) -> u64
        requires sound { first_cache_fault self.now ≡ None }
        ensures { result ≡ bytes_of self.now key_words value_words }
    {
        let (key_words, value_words) = (u64::from(key_words), u64::from(value_words));
        let rows = rows_take(self.all_chunks(), key_words + value_words);
        let parts = parts_take(self, key_words, value_words);
        let readers = u64::from(self.readers) * reader_takes(self.parts, self.ring);
        rows + parts + readers + (HEADS_BYTES + EMPTY_BYTES)
    }

    /// The configuration that `new` makes of so many readers and this seed, of the most items with which a cache takes
    /// at most `limit` bytes, by `bytes_taken` with keys and values of so many words: with more it would take more, or
    /// they and the spare chunks are 128,000,000 together. It has one part and no fault. It is None exactly where a cache of one
    /// item takes more than `limit`, or `readers` isn't 1 to 64. memcached's `-m` limits the memory of its items.
    pub fn for_bytes(
        limit: u64,
        readers: u32,
        seed: Seed,
        key_words: u32,
        value_words: u32,
    ) -> Option<CacheConfig>
        ensures most { IfSome result (λ config. IsMostFor limit readers seed key_words value_words config) }
        ensures sound { IfSome result (λ config. first_cache_fault config ≡ None) }
        ensures none { IsNone result ↔ ((is_within 1 64 readers ≡ false)
            ⊎ (limit < bytes_of (new_config 1 readers seed) key_words value_words)) }
    {
        if readers < 1 || readers > 64 {
            return None;
        }
        match most_items(limit, readers, seed, key_words, value_words) {
            0 => None,
            items => Some(CacheConfig::new(items, readers, seed)),
        }
    }
}

//! What a store is made from, and which configurations are refused.
ghost use Rattle.std.specs.Prelude.{◌≡◌, ◌≤◌, IsTrue, IfOk, is_none};
ghost use Rattle.std.specs.Result.{result_err};
ghost use Rattle.bump_rules.specs.Configs.{first_fault, first_fault_within, have_wrong_chunks, chunks_of, most_chunks, store_most, wide_most};

use bump_links::NODES_MAX;
use std::marker::Model;
use thiserror::Error;

/// The greatest number of chunks of all classes together in a store that stands by itself: 1,000,000.
pub const MAX_CHUNKS: u32 = 1_000_000;

/// The greatest number of chunks of all classes together in any store, as in a cache's: 128,000,000, since the lists of a
/// class have no more nodes.
pub const WIDE_CHUNKS: u32 = NODES_MAX;

/// The greatest number of classes in any store: 256, as a cache has parts.
pub const WIDE_CLASSES: u32 = 256;

/// The greatest limit of a reference count: as much as the count of a head word holds.
pub const MAX_REFS: u32 = 1_048_575;

/// The greatest room of a worker's ring: eight times the bumps of memcached's buffer, which has 8,192 (`LRU_BUMP_BUF_SIZE`).
pub const MAX_CAPACITY: u32 = 65_536;

/// What a class is made from. Where its limits of HOT and WARM together aren't below its chunks, COLD may stay empty:
/// then no evict finds an item, and no chunk comes free but by an unlink.
#[derive(Clone, Copy, Debug, PartialEq, Eq)]
pub struct ClassConfig {
    /// How many chunks it has: 1 or more, and all classes together at most 1,000,000.
    pub chunks: u32,

    /// A pull takes items from HOT where it has more than this.
    pub hot: u32,

    /// A pull takes items from WARM where it has more than this.
    pub warm: u32,
}

/// The classes of a store, by number.
#[derive(Drop, Debug)]
pub struct Classes {
    items: Vec<ClassConfig>,
}

impl Model for Classes {
    ghost use Rattle.std.specs.Prelude.{List};
    ghost use Rattle.bump_rules.specs.declared.configs.ClassConfig.{ClassConfig};

    ghost Value = { List ClassConfig };

    ghost view = { λ a. a.items.items };
}

/// Why no store is made from a configuration.
#[derive(Clone, Copy, Debug, PartialEq, Eq, Error)]
pub enum ConfigFault {
    /// Not 1 to 64 workers.
    #[error("a store has 1 to 64 workers")]
    Workers,

    /// A ring's capacity is not 1 to 65,536 entries.
    #[error("a ring has room for 1 to 65,536 bumps")]
    Capacity,

    /// The limit of a reference count is not 2 to 1,048,575.
    #[error("the limit of a reference count is 2 to 1,048,575")]
    RefsLimit,

    /// The first generation is 0, and not 1 to 4,294,967,295.
    #[error("the first generation is 1 to 4,294,967,295")]
    Generation,

    /// Not 1 to 16 classes.
    #[error("a store has 1 to 16 classes")]
    Classes,

    /// A class without chunks, or more than 1,000,000 chunks together.
    #[error("a class has 1 chunk or more, and all together at most 1,000,000")]
    Chunks,
}

/// What a store is made from. A cache makes its own, which has more workers, classes and chunks than one by `new`.
#[derive(Drop, Debug)]
pub struct Config {
    /// How many workers there are, each with a ring and a lane: 1 to 64 by `new`, and 16,384 at most.
    pub workers: u32,

    /// How many bumps a worker's ring has room for: 1 to 65,536.
    pub capacity: u32,

    /// The greatest reference count of a chunk: 2 to 1,048,575.
    pub refs_limit: u32,

    /// The generation of each chunk's first life: 1 to 4,294,967,295.
    pub first_generation: u32,

    /// The classes, by number: 1 to 16 by `new`, and 256 at most, with 1 chunk or more each; and 1,000,000 chunks together
    /// by `new`, and 128,000,000 at most.
    pub classes: Classes,
    pub ghost valid: { IsTrue (is_none (first_fault_within wide_most workers capacity refs_limit first_generation classes)) },
}

impl Classes {
    /// The classes of a vector, which is kept as it came. Takes no memory.
    pub fn from_vec(items: Vec<ClassConfig>) -> Self
        ensures { result ≡ items.items }
    {
        Classes { items }
    }

    /// The vector of the classes.
    pub fn into_vec(self) -> Vec<ClassConfig>
        ensures { result.items ≡ self }
    {
        let Classes { items } = self;
        items
    }

    /// The classes, by number.
    pub fn as_slice(&self) -> &[ClassConfig]
        ensures { result.now ≡ self.now }
    {
        self.items.as_slice()
    }
}

// Whether a class has no chunks, or all have more than 1,000,000 together.
fn has_wrong_chunks(classes: &[ClassConfig]) -> bool
    ensures { result ≡ have_wrong_chunks store_most.chunks classes.now }
{
    let mut left = MAX_CHUNKS;
    for class in classes {
        if class.chunks == 0 || class.chunks > left {
            return true;
        }
        left -= class.chunks;
    }
    false
}

impl Config {
    /// A configuration of a store that stands by itself, or the first fault that it has, in the order of `ConfigFault`. The
    /// numbers are those of `Config`'s fields. Takes no memory: the vector is kept as it came.
    pub fn new(
        workers: u32,
        capacity: u32,
        refs_limit: u32,
        first_generation: u32,
        classes: Vec<ClassConfig>,
    ) -> Result<Config, ConfigFault>
        ensures fault { result_err result ≡ first_fault workers capacity refs_limit first_generation classes.items }
        ensures counts { IfOk result (λ c. (c.workers ≡ workers) × (c.capacity ≡ capacity)) }
        ensures limits { IfOk result (λ c. (c.refs_limit ≡ refs_limit) × (c.first_generation ≡ first_generation)) }
        ensures classes { IfOk result (λ c. c.classes ≡ classes.items) }
    {
        let fault = if workers < 1 || workers > 64 {
            ConfigFault::Workers
        } else if capacity < 1 || capacity > MAX_CAPACITY {
            ConfigFault::Capacity
        } else if refs_limit < 2 || refs_limit > MAX_REFS {
            ConfigFault::RefsLimit
        } else if first_generation == 0 {
            ConfigFault::Generation
        } else if classes.is_empty() || classes.len() > 16 {
            ConfigFault::Classes
        } else if has_wrong_chunks(&classes) {
            ConfigFault::Chunks
        } else {
            return Ok(Config {
                workers,
                capacity,
                refs_limit,
                first_generation,
                classes: Classes::from_vec(classes),
            });
        };
        Err(fault)
    }

    /// How many chunks all classes have together: 1 to 1,000,000 by `new`, and 128,000,000 at most.
    pub fn chunks(&self) -> u32
        ensures { result ≡ chunks_of self.now.classes }
    {
        count_chunks(self.classes.as_slice())
    }
}

// The chunks of all these classes.
fn count_chunks(classes: &[ClassConfig]) -> u32
    requires { chunks_of classes.now ≤ most_chunks }
    ensures { result ≡ chunks_of classes.now }
{
    let mut count = 0;
    for class in classes {
        count += class.chunks;
    }
    count
}

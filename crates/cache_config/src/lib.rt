//! What a cache is made from, and what it is made of: its configuration, the parts of it that locks guard, and what its
//! readers read by. Keys and values are words here.
#![tactic(auto)]

mod choosing;
mod config;
mod making;
mod memory;
mod part_readers;
mod sums;

pub use choosing::{part_in, part_of_hash};
pub use config::{CacheConfig, CacheFault, CacheRefusal};
pub use making::{make_indexes, make_shelves};
pub use part_readers::{PartReaders, make_part_readers};
pub use sums::{bumps_in, hits_in, misses_in};

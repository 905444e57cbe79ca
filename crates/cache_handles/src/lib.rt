//! A cache of byte strings in parts, for callers that guard the parts by locks of their own: a part, which changes it,
//! and a reader, which takes no lock. Lengths are the caller's, as far as the configuration says.
#![tactic(auto)]

mod config;
mod desks;
mod keys;
mod looking;
mod opening;
mod parts;
mod putting;
mod readers;
mod reading;
mod values;
mod visiting;

pub use bump_heads::{Blank, Name};
pub use cache_config::{CacheConfig, CacheFault};
pub use cache_shelf::Stats;
pub use config::{ByteConfig, ByteFault};
pub use keyed_hash::Seed;
pub use keys::{KeyFault, PartPlace};
pub use looking::{LookTold, Looked};
pub use opening::{OpenedCache, open};
pub use parts::BytePart;
pub use putting::PutTold;
pub use readers::ByteReader;
pub use reading::{GetTold, HeldTold};
pub use values::{TOLD_WORDS, ValueTold};
pub use visiting::EntryTold;

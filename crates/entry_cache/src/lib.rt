//! A cache of keys and values of any type that threads share: each entry lies in memory of its own, and a get lends its value in
//! place. It stands on a `bump_cache::Cache`, whose rows have the hash of a key and the place of its entry, and on a slab, which has
//! the entries by their places.
#![tactic(auto)]

mod answers;
mod asking;
mod blanks;
mod caches;
mod entries;
mod found;
mod kept;
mod law;
mod misses;
mod opening;
mod placed;
mod readers;
mod removed;
mod too_much;
mod weighed_caches;
mod weighing;
mod weights;

pub use answers::{Refusal, Refused};
pub use asking::Asks;
pub use blanks::EntryBlank;
pub use bump_cache::{
    CacheConfig, CacheFault, CacheRefusal, CacheState, Caller, Changer, Evicted, LogName, Name,
    NoRoom, Put, Seed, Stats,
};
pub use caches::EntryCache;
pub use found::Found;
pub use kept::Kept;
pub use law::AnyEntry;
pub use misses::EntryMiss;
pub use opening::{OpenedEntries, open};
pub use placed::EntryPut;
pub use readers::EntryReader;
pub use removed::Removed;
pub use sharded_slab::Keeps;
pub use too_much::{RefusedWeighed, TooMuch, WeighedPut};
pub use weighed_caches::WeighedCache;
pub use weighing::{ENTRY_BYTES, Weighs, weight_of};
pub use weights::Weighed;

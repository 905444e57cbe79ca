//! A cache of keys and values that threads share, over a store: a get waits for nobody. Keys and values lie in the
//! words of the store's chunks, and an item's label is the time at which it expires.
#![tactic(auto)]

mod answers;
mod blanks;
mod bytes;
mod caches;
mod changers;
mod changing;
mod choosing;
mod counts;
mod ending;
mod held;
mod law;
mod looking;
mod making;
mod many;
mod numbered;
mod opening;
mod pairs;
mod readers;
mod retaining;
mod setting;
mod states;
mod statistics;
mod tending;
mod visiting;

pub use answers::{Added, Cause, Evicted, Full, GotOrPut, Item, NoRoom, Put, Retained};
pub use blanks::CacheBlank;
pub use bump_heads::Name;
pub use bump_rules::{Accounts, ClassConfig, Classes, Config};
pub use cache_config::{CacheConfig, CacheFault, CacheRefusal};
pub use cache_lists::{Bound, Bounds, Statistic};
pub use cache_readers::Miss;
pub use cache_shelf::Stats;
pub use caches::Cache;
pub use call_log::{Caller, LogName};
pub use changers::Changer;
pub use counts::ReaderCounts;
pub use held::HeldItem;
pub use keyed_hash::Seed;
pub use law::{MOST_WORDS, PairLaw};
pub use opening::{Opened, open};
pub use packed_words::{Bytes, Packed, TooLong};
pub use readers::CacheReader;
pub use states::CacheState;

//! The lists of a cache's items: a Book that counts how its items go from list to list and how many are evicted.
//! The label of an item is when it expires.
#![tactic(auto)]

mod ages;
mod cold_ends;
mod counted;
mod draining;
mod evictions;
mod expiring;
mod flow;
mod freeing;
mod items;
mod rescues;
mod victims;

pub use ages::{Bound, Bounds};
pub use bump_class::{Book, RawLane};
pub use bump_heads::Name;
pub use bump_rules::{Applied, ItemId, Place, Pulled, Segment, Start, Tail};
pub use bump_steps::{AnyRow, RowLaw};
pub use counted::CountedBook;
pub use evictions::{Evictions, STATISTICS, Statistic};
pub use flow::Flow;
pub use freeing::MOST_FREED;
pub use rescues::RESCUES;
pub use victims::Victim;

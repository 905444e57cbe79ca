//! A part of a cache: what belongs to one lock of it. It has the lists of its items, whose keys and values are words,
//! and the index of their keys.
#![tactic(auto)]

mod clearing;
mod ending;
mod evicting;
mod expiring;
mod finding;
mod parts;
mod putting;
mod reading;
mod replacing;
mod room;
mod stats;
mod taking;
mod tending;
mod visiting;

pub use cache_index::{Index, IndexReader};
pub use cache_lists::{Book, Bound, Bounds, CountedBook, Evictions, Flow, Name, RawLane, RowLaw};
pub use keyed_hash::Seed;
pub use parts::Part;
pub use putting::{NoChunk, PutItem};
pub use stats::Stats;

//! What one lock of a cache guards: its part, the lanes of its readers' rings, and when its lists are balanced. Keys
//! and values are words here, and the label of an item is the time at which it expires.
#![tactic(auto)]

mod entries;
mod evicting;
mod limits;
mod shelves;
mod taking;
mod turns;

pub use cache_part::{
    Book, Bound, Bounds, Index, IndexReader, Name, NoChunk, Part, PutItem, RawLane, RowLaw, Seed,
    Stats,
};
pub use limits::{Limits, PUT_BUMPS, PUT_ROUNDS};
pub use shelves::Shelf;

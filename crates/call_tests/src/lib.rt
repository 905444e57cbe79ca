//! Shelves that threads share, whose calls say what they did: `call_log` at work.
#![tactic(auto)]

mod pairs;
mod shelf;
mod store;
mod two_threads;

pub use pairs::{First, Half, Pair, PairState, Second, Side};
pub use shelf::{Shelf, ShelfState};
pub use store::{Stats, Store};
pub use two_threads::{both, both_halves};

#[cfg(test)]
mod threads;

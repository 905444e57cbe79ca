//! An index of words that leads from the hash of a key to the lives that may have it. Readers search it without a lock,
//! and one writer, under a lock, keeps it. It knows no keys: whoever is led to a life has to look at the key there.
#![tactic(auto)]

mod exact;
mod from_zero;
mod index;
mod law;
mod led;
mod nests;
mod readers;
mod tags;

pub use exact::ExactSearch;
pub use index::{Index, MOST_CHUNKS, nests_for};
pub use readers::{IndexReader, Search};
pub use seen_words::Eye;

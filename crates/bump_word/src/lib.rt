//! The bits of the head word: which 64-bit number stands for which [`Head`](bump_rules::Head), and what single atomic
//! steps on that number do to the Head.
//!
//! | Bits | Field |
//! |---|---|
//! | 0 to 19 | reference count |
//! | 20 | `LINKED` |
//! | 21 | `FETCHED` |
//! | 22 | `ACTIVE` |
//! | 23, 24 | segment: 0 HOT, 1 WARM, 2 COLD, 3 TEMP |
//! | 25 to 31 | zero |
//! | 32 to 63 | generation |
#![tactic(auto)]

pub mod laws;
mod layout;
mod limits;
mod segment;
mod word;

pub use bump_rules::{Head, Segment};
pub use layout::{ACTIVE, Count, FETCHED, LINKED, REFS_MAX};
pub use limits::Limit;
pub use segment::segment_xor;
pub use word::{pack, unpack};

#[cfg(test)]
mod tests;

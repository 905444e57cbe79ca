//! A fast hash of words under a seed: which words collide can't be told without the seed.
//!
//! The words are mixed as wyhash and foldhash do it: a multiplication to 128 bits for each word, whose halves are
//! folded into one word, and one more for the number of words. The last word is the full hash of 64 bits; its upper half
//! is the hash of 32 bits.
#![tactic(auto)]

mod mix;
mod seed;

pub use seed::{Seed, upper_half};

#[cfg(test)]
mod tests;

//! Keys and values of a cache as words, since a cache keeps them in the words of a chunk's row; and byte strings of any
//! length as words. How many words such a string takes is known at run time only: the first one is its length in bytes,
//! and behind it stand its bytes, eight a word, the lowest first, and zeros behind the last byte.
#![tactic(auto)]

mod bytes;
mod numbers;
mod packed;
mod pairs;
mod refusals;
mod spelling;

pub use bytes::Bytes;
pub use packed::Packed;
pub use refusals::TooLong;
pub use spelling::{spell, words_for};

#[cfg(test)]
mod spelling_tests;
#[cfg(test)]
mod tests;

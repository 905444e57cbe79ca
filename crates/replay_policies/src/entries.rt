//! A key in a queue.

/// A key in a queue, and how often it was asked for, as far as its policy counts.
#[derive(Clone, Copy, Debug, PartialEq, Eq)]
pub struct Entry {
    /// The key.
    pub key: u32,

    /// How often it was asked for, as far as its policy counts.
    pub uses: u32,
}

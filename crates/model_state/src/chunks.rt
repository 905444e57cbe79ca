//! What a World keeps of a chunk.
use bump_rules::Head;

/// What a World keeps of a chunk.
#[derive(Clone, Copy, Debug, PartialEq, Eq)]
pub struct Chunk {
    /// What its head word says.
    pub head: Head,

    /// The time that was stored last, in the caller's ticks.
    pub time: u64,

    /// The label that was stored last: any number.
    pub label: u64,

    /// How many holds its life has.
    pub holds: u32,
}

//! What a class's seat knows of the lane that is joined to it: plain data. No value of it is ever made.
use bump_rules::Outcome;

/// What is known of the bump aboard the lane that is joined to a class's seat. While no lane is joined it says
/// nothing.
#[derive(Clone, Copy)]
pub struct Joined {
    /// The bump's chunk.
    pub chunk: u32,

    /// What the bump comes out with, if it may end now.
    pub outcome: Outcome,
}

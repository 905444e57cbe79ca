//! A `Box` taken to its pointer and its allocator, and back, for handles whose types don't say what they point to; and
//! two values that are replaced at once.
#![tactic(auto)]

mod both;
mod boxes;

pub use both::replace_both;
pub use boxes::OpenBox;

//! What contracts see of classes' seats: plain data. No value of it is ever made.
use bump_steps::{ClassSheet, LaneSheet};

/// What contracts see of a class's seat.
pub struct ClassView {
    /// Its sheet.
    pub sheet: ClassSheet,

    /// The sheet of the lane that is joined to it, from `try_front` to `alight`.
    pub lane: Option<LaneSheet>,
}

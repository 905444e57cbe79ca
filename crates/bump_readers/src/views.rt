//! What contracts see of workers' seats and holds: plain data. No value of it is ever made.
use bump_rules::ItemId;
use bump_steps::{HoldSheet, WorkerSheet};

/// What contracts see of a worker's seat.
pub struct WorkerView {
    /// Its sheet.
    pub sheet: WorkerSheet,

    /// The sheet of the hold that is joined to it, from `hold_in` to `hold_out`.
    pub hold: Option<HoldSheet>,
}

/// What contracts see of a hold.
pub struct HoldView {
    /// The life to which it refers.
    pub life: ItemId,

    /// Its sheet, unless it is hollow: joined to a worker's seat.
    pub sheet: Option<HoldSheet>,
}

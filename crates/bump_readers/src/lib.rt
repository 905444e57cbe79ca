//! What readers do with the words of all chunks: workers take references to lives, touch items and send bumps off.
//!
//! A reference that a reader has is a [`Hold`]: `take` makes it and `give_back` spends it, each by steps on the head.
//! The layers above, whose callers ask for items, say `get` and `release` for the same. `load_head` loads the head of
//! a hold's item, and `see` the head and the time of any chunk.
#![tactic(auto)]

mod glances;
mod heads;
mod holds;
mod names;
mod riders;
mod riding;
mod taking;
mod touching;
mod views;
mod workers;

pub use bump_rules::{
    Accounts, AppliedBump, Bump, Cause, Change, ClassConfig, Classes, Config, Hand, Head, ItemId,
    LabelStep, LaneStage, Outcome, Segment,
};
pub use bump_steps::{
    AnyRefusal, AnyRow, ClassSheet, Empty, GlanceSheet, HoldSheet, Kind, LaneSheet, OwnStep, Ride,
    RideRefusal, RowLaw, Rule, Seat, TakeRefusal, View, WordStep, Words, WorkerSheet,
};
pub use glances::Glance;
pub use heads::ReaderHeads;
pub use holds::Hold;
pub use names::Name;
pub use riders::Rider;
pub use views::{HoldView, WorkerView};
pub use workers::WorkerSeat;

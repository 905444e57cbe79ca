//! The words of all chunks, under one rule for all threads: head, time and label, and the seats that may change them.
//!
//! A [`LaneSeat`] is what a lane makes its steps with; the lane itself, with the ring's end, is bump_class's `RawLane`.
//! `load_head` is one load of a head by its class, `see_..` one of another word.
#![tactic(auto)]

mod applying;
mod boarding;
mod heads;
mod joined;
mod linking;
mod making;
mod meeting;
mod seats;
mod sights;
mod views;

pub use bump_readers::{Hold, HoldView, Name, ReaderHeads, Rider, WorkerSeat, WorkerView};
pub use bump_rules::{
    Accounts, AppliedBump, Bump, Cause, Change, ClassConfig, Classes, Config, Hand, Head, ItemId,
    LabelStep, LaneStage, Outcome, Segment, Start,
};
pub use bump_steps::{
    AnyRefusal, AnyRow, ClassSheet, Empty, HoldSheet, Kind, LaneSheet, OwnStep, Ride, RideRefusal,
    RowLaw, Rule, TakeRefusal, View, WordStep, WorkerSheet,
};
pub use heads::Heads;
pub use making::{Blank, HeadParts};
pub use seats::{ClassSeat, LaneSeat};
pub use views::ClassView;

//! Single steps on the words of all chunks, under one rule for all threads: head, time and label of each chunk, and
//! what each seat knows of them. A step's contract is one equation on the view of the seat that makes it.
//!
//! One word for one act: `load_..` is one load of a head by a seat, `see_..` one of a time, a label, a further
//! word or a generation, and `see` one of a head without a seat; `take` adds a reference to a head, and `give_back`
//! subtracts it.
#![tactic(auto)]

mod decoding;
mod fresh;
mod laws;
mod placing;
mod refusals;
mod rule;
mod steps;
mod views;
mod words;

pub use bump_rules::{
    Accounts, AppliedBump, Bump, Cause, Change, ClassConfig, Classes, Config, Hand, Head, ItemId,
    LabelStep, LaneStage, Outcome, Segment, Start,
};
pub use bump_word::{Count, Limit};
pub use decoding::head_of;
pub use laws::{AnyRow, RowLaw};
pub use refusals::{AnyRefusal, RideRefusal, TakeRefusal};
pub use rule::Rule;
pub use views::{
    ClassSheet, Empty, GivenBack, GlanceSheet, HoldSheet, Kind, LaneSheet, OwnStep, Ride, View,
    WordStep, WorkerSheet,
};
pub use words::{Seat, Words};

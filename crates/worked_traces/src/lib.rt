//! Worked traces of the trace language: theorems about what some traces mean, each a trace and its text.
#![tactic(auto)]

pub mod faults;
pub mod runs;

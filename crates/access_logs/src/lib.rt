//! Access logs as numbers: each distinct key of a log gets a number, in the order in which keys first come.
#![tactic(auto)]

mod columns;
mod drafts;
mod entries;
mod keys;
mod lines;
mod log;
mod numbering;
mod numerals;
mod operations;
mod padded;
mod patient;
mod reading;
mod records;

pub use log::{Column, Defect, Field, Format, Log, LogFault, Unreadable};
pub use operations::Operation;
pub use reading::read_log;

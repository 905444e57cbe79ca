//! The trace language of bump: a trace of commands is read, run line by line on a World, and told as text. What a trace
//! means stands in `specs/Meaning.antt`; `run_model` is proved to write that text and nothing else.
#![tactic(auto)]

mod cutting;
mod gathering;
mod names;
mod open_store;
mod openings;
mod reading;
mod runs;
mod stages;

pub use bump_core::{ClassConfig, Classes, Config, ItemId, Start, Tail};
pub use cutting::cut;
pub use gathering::{ROOM, flush, gather, stop};
pub use names::Names;
pub use open_store::PLACES;
pub use openings::{Opening, configure, declare};
pub use reading::{MAX_BYTES, read_all};
pub use runs::{SimFault, run_model};
pub use trace_lines::{Counted, Declaration, Fault, Instruction, LineError, Shape, Sink, Source};

//! The lines of a trace and of its text, and readers and writers whose calls are counted: what the trace language needs
//! and what stands on no World.
#![tactic(auto)]

mod calls;
mod counted;
mod faults;
mod fields;
mod keywords;
mod lines;
mod text;
mod words;

pub use bump_rules::{
    Accounts, Answer, Applied, ClassConfig, ConfigFault, Dropped, Ended, Entry, Head, ItemId,
    Outcome, Place, Pulled, Segment, Start, Tail, Touch,
};
pub use calls::{Sink, Source};
pub use counted::{Counted, is_interruption};
pub use faults::{Fault, LineError};
pub use fields::read_number;
pub use lines::{Declaration, Instruction, Line, Shape, read_line, rest_fault};
pub use text::{
    is_shown, put_bump, put_chunk, put_close, put_closed, put_del, put_drain, put_drop, put_fault,
    put_get, put_get_busy, put_get_held, put_hit, put_hold, put_hold_busy, put_list_start,
    put_moves, put_pull, put_read, put_set, put_sweep, put_word, put_worker,
};

//! A store for callers whose locks are their own: its workers with numbered holds, the Books of its classes, and its
//! lanes, each a value that one thread has at a time, with the number of its store. No call waits.
//!
//! A hold stands in a numbered place of its reader: `get` fills the place, and `release` empties it. A [`Drainer`] is a
//! `RawLane` of bump_class with the closed worker of its ring, once there is one.
#![tactic(auto)]

mod books;
mod drainers;
mod linking;
mod looking;
mod opening;
mod readers;

pub use books::TaggedBook;
pub use bump_class::{Book, LinkRefusal, RawLane, RunEnd, UnlinkRefusal};
pub use bump_heads::{Blank, Heads, Name};
pub use bump_rules::{
    Accounts, Bump, ClassConfig, Classes, Config, Dropped, Ended, Head, ItemId, Place, Pulled,
    Segment, Start, Tail, Touch,
};
pub use bump_steps::{AnyRow, HoldSheet, RowLaw, Rule};
pub use bump_unlocked::{GetRefusal, Worker};
pub use drainers::{Drainer, NotClosed, OtherClass, RestState, Rested};
pub use linking::WordsRefusal;
pub use looking::{NotThere, Sight, Walked};
pub use opening::{Opened, open, take_at};
pub use readers::{Reader, Taken, WholeHit, no_holds, put_hold};

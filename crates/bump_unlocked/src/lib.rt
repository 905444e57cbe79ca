//! A store without its locks: its workers' gets, touches and holds, the rings that take their bumps to lanes,
//! and the Books of its classes.
//!
//! A [`Hold`] is one of bump_readers that a worker's `get` answers and `release` spends: these are that crate's `take`
//! and `give_back`, but a `get` knows which chunks there are, and a `release` answers nothing.
#![tactic(auto)]

mod closing;
mod counting;
mod glances;
mod holds;
mod making;
mod meeting;
mod refusals;
mod touching;
mod unlocked_store;
mod workers;

pub use bump_class::{Book, RawLane};
pub use bump_heads::{Blank, Heads, Name, ReaderHeads, WorkerSeat};
pub use bump_readers::Glance;
pub use bump_ring::Sender;
pub use bump_rules::{
    Accounts, ClassConfig, Classes, Config, Dropped, Head, ItemId, Segment, Touch,
};
pub use bump_steps::{AnyRow, HoldSheet, RowLaw, Rule, WorkerSheet};
pub use closing::ClosedWorker;
pub use holds::Hold;
pub use refusals::{GetAnyRefusal, GetRefusal};
pub use unlocked_store::UnlockedStore;
pub use workers::Worker;

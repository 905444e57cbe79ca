//! A store: the locks of its classes, and the lanes that apply what its workers queued, until each is settled with its
//! closed worker. Its workers' gets, touches and holds are those of bump_unlocked.
//!
//! A [`Lane`] is a `RawLane` of bump_class that takes the lock of each bump's class, and a [`Maintainer`] has all
//! lanes.
#![tactic(auto)]

mod classes;
mod finishing;
mod lanes;
mod maintainers;
mod meeting;
mod opening;
mod settling;
mod stores;

pub use bump_class::{Book, LinkRefusal, UnlinkRefusal};
pub use bump_heads::{Blank, Name, ReaderHeads};
pub use bump_rules::{
    Accounts, Applied, ClassConfig, Classes, Config, ConfigFault, Dropped, Ended, Entry, Head,
    ItemId, MAX_CAPACITY, MAX_CHUNKS, MAX_REFS, Outcome, Place, Pulled, Segment, Start, Tail,
    Touch,
};
pub use bump_steps::{AnyRow, ClassSheet, HoldSheet, LaneSheet, Ride, RowLaw, Rule};
pub use bump_unlocked::{ClosedWorker, GetAnyRefusal, GetRefusal, Hold, Worker};
pub use classes::NoSuchChunk;
pub use finishing::{ClassSizes, Unfinished};
pub use lanes::Lane;
pub use maintainers::Maintainer;
pub use settling::{Settled, Unseen, Unsettled};
pub use stores::{NoSuchClass, Store};

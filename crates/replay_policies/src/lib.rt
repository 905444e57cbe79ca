//! The plain policies of a cache, to compare others with: an access log is run through a cache of so many items, and
//! its hits are counted. What each policy does is said at `Policy`, and tested beside other programs. `specs/` has what its
//! queues keep, by which each call is safe and ends, and no cache has more keys than it has room for.
#![tactic(auto)]

mod caches;
mod clocks;
mod entries;
mod faults;
mod ghosts;
mod lines;
mod logs;
mod plain;
mod policies;
mod queues;
mod replays;
mod s3fifos;
mod sieves;
mod tables;
mod tallies;

pub use faults::PolicyFault;
pub use logs::replay;
pub use policies::Policy;
pub use replays::{MAX_ITEMS, Replay};
pub use tallies::Tally;

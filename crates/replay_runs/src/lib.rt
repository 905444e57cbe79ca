//! An access log's runs through a cache: `replay` does what the log asks for, and counts what its gets come to, of which
//! each that finds nothing is followed by a put; and `trace_of` writes a log of gets as a trace, whose lines make the calls
//! that the cache makes where one thread has it. What is written is run on a World before it is given to anybody.
#![tactic(auto)]

mod accesses;
mod asked;
mod counting;
mod faults;
mod outcomes;
mod plans;
mod replays;
mod scribes;
mod traces;
mod waits;

pub use access_logs::Operation;
pub use asked::Asked;
pub use bump_cache::{Accounts, CacheConfig, CacheFault, Seed, Stats};
pub use bump_trace::SimFault;
pub use cache_lists::Flow;
pub use counting::HitCounts;
pub use faults::ReplayFault;
pub use outcomes::RunOutcome;
pub use plans::{Plan, Tending};
pub use replays::replay;
pub use traces::{ReplayTrace, trace_of};

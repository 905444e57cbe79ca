//! The model of bump, which no running cache or store uses: a World in which each event is one atomic step of one thread.
//! Its types are those of bump_rules, and its state is that of model_state.
#![tactic(auto)]

mod commands;
mod step;
mod worlds;

pub use bump_rules::{
    Accounts, Answer, Applied, AppliedBump, Bump, Cause, Change, ClassConfig, ClassLists, Classes,
    Command, Config, ConfigFault, Dropped, Ended, Entry, Event, Hand, Head, Hit, ItemId, LaneStage,
    ListedChunks, MAX_CAPACITY, MAX_CHUNKS, MAX_REFS, MOST_ATTEMPTS, Outcome, Place, Pulled,
    Refused, Reply, Segment, Start, Tail, Touch,
};
pub use model_state::Chunk;
pub use worlds::{OutOfMemory, World};

//! The sequential state of a World, by chunk, class and worker: how it is read and changed, and its single events.
#![tactic(auto)]

mod chunks;
mod classes;
mod events;
mod workers;
mod world_state;

pub use bump_rules::{
    Accounts, AppliedBump, Bump, Cause, Change, ClassConfig, ClassLists, Classes, Config, Ended,
    Event, Hand, Head, ItemId, LabelStep, LaneStage, ListedChunks, Outcome, Place, Refused, Reply,
    Segment, Start,
};
pub use chunks::Chunk;
pub use classes::Class;
pub use workers::{Worker, Workers};
pub use world_state::WorldState;

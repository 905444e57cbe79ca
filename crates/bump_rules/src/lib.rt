//! The rules of bump, of which the World and the crates over atomic words both speak: its plain types, the
//! tables, and the seven lists of a class.
#![tactic(auto)]

mod bumps;
mod caches;
mod class_lists;
mod commands;
mod configs;
mod events;
mod expiry;
mod hands;
mod history;
mod items;
mod labels;
mod lanes;
mod places;
mod tables;

pub use bumps::{Accounts, Applied, AppliedBump, Bump, Ended, Entry, MOST_ATTEMPTS, Outcome};
pub use caches::{CACHE_REFS, LOOKS};
pub use class_lists::{ClassLists, ListedChunks};
pub use commands::{Answer, Command, Dropped, Hit, Pulled, Room, Touch};
pub use configs::{
    ClassConfig, Classes, Config, ConfigFault, MAX_CAPACITY, MAX_CHUNKS, MAX_REFS, WIDE_CHUNKS,
    WIDE_CLASSES,
};
pub use events::{Event, Refused, Reply};
pub use expiry::{expires_within, has_expired};
pub use hands::Hand;
pub use history::{Cause, Change};
pub use items::{Head, ItemId};
pub use labels::LabelStep;
pub use lanes::LaneStage;
pub use places::{Limits, Place, Segment, Start, Tail};
pub use tables::MOST_EXCHANGES;

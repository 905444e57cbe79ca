//! What no clause says: that calls succeed, and known answers.
use bump_heads::{
    AnyRefusal, Blank, ClassSeat, HeadParts, Heads, Hold, LaneSeat, Name, RideRefusal, Rider,
    TakeRefusal, WorkerSeat,
};

mod applications;
mod bumps;
mod expecting;
mod fresh;
mod lives;
mod refusals;
mod refused_memory;
mod scenes;
mod stores;
mod whichever;
mod words;

//! The lists of one class and its seat on the words of the store in one value, which whoever has the class's lock may
//! change; and the lanes, whose bumps it applies.
//!
//! A [`RawLane`] is a lane whose caller has the lock: the ring's end, the seat and the bump aboard. Its `fetch` takes
//! the next bump aboard where none is, and its `take` does so for a caller who knows that none is. `load_head` is one
//! load of a head, `see` loads head and time, and `pull` loads the head of a list's last item and acts by it.
#![tactic(auto)]

mod applications;
mod books;
mod carriers;
mod changing;
mod ending;
mod lanes;
mod linking;
mod looking;
mod meeting;
mod pulling;
mod running;
mod sweeping;

pub use books::Book;
pub use bump_heads::{ClassSeat, Hold, LaneSeat, Name, ReaderHeads};
pub use bump_ring::{ClosedSender, Receiver};
pub use bump_rules::{
    Applied, Bump, ClassConfig, Ended, Head, ItemId, Outcome, Place, Pulled, Segment, Start, Tail,
};
pub use bump_steps::{AnyRow, ClassSheet, LaneSheet, Ride, RowLaw, Rule};
pub use ending::UnlinkRefusal;
pub use lanes::RawLane;
pub use linking::LinkRefusal;
pub use running::RunEnd;

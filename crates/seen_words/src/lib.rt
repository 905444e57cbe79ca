//! Words that all threads may load, one pen that writes them, and their history: each moment from the first on, with
//! what the pen noted then. A load tells a thread that the word was so at one moment, no earlier than what the thread
//! had seen. What the table says of each moment is a law, which the pen shows at each write.
#![tactic(auto)]

mod rule;
mod views;
mod words;

pub use rule::{Law, Noting, OnePen, Shows};
pub use views::{Moment, NoSlot, Sight};
pub use words::{Eye, Pen, SeenWords};

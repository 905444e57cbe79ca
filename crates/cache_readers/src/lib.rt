//! Readers of a cache whose items lie in the words of their chunks: a get takes no lock and no memory, and waits for
//! nobody. Keys and values are words here, so many each. The label of an item is when it expires, in the caller's
//! ticks, and 0 is never.
#![tactic(auto)]

mod glancing;
mod looking;
mod misses;
mod readers;
mod vain;

pub use bump_heads::{Heads, Name, ReaderHeads};
pub use bump_rules::{Accounts, ItemId};
pub use bump_steps::RowLaw;
pub use bump_unlocked::{Hold, Worker};
pub use cache_index::{Eye, IndexReader};
pub use glancing::Glanced;
pub use misses::Miss;
pub use readers::WordReader;
pub use vain::Vain;

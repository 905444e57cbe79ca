//! What makes a lock's contract say what a call did.
//!
//! A lock tells nothing of the value that it guards: a function that takes the lock, does nothing and answers meets
//! any contract that speaks of the answer alone. Here a log lies beside the value: the state behind each call. No
//! state is kept or copied: the log exists in proofs alone. What runs is a number that counts the calls, and a load of
//! a word, which is never written: it is the step at which the log gets the state.
//!
//! One log may go with several values, each under a lock of its own: then it has the states of all of them, in the
//! order of the calls, and each value has a number, from 0 on. A call takes the lock of its value alone.
//!
//! A log's entries have a type of their own, E, which stands for the values' states. No value of it is made. It can't
//! be a value's own type V where that one has the log's name in it: `Brand` picks a name at a call, and the types of
//! that call's arguments and answer can't have the name that it picks. The log begins before that call, and its type
//! has E. The values are made inside the call.
//!
//! - E has an `impl State`, and V an `impl Shows<E>`, of one or two lines each. E's `number` says which value a state
//!   is of.
//! - `LogBlank::new` begins a log, and `open` gives it a name, and the first [`Caller`]. It has one state then, which
//!   stands for nothing. From [`Logs`] the log of each value is taken in turn, and `Logged::new` puts it beside its
//!   value, for the lock: it notes the value, as that caller's call.
//! - A call takes the lock and its thread's `Caller`, changes `value`, and notes it:
//!   `log.note(rt, me, &logged.value)`. One that only looks asks `log.show(rt, me)`.
//! - Its contract has `MakesOne` of the caller before and behind, and whatever the call is to do, between `from_of`
//!   and `to_of` of the caller behind. Where it only looks: `OnlyLooks`, and what is told of `now_of`.
//!
//! What is proved by that:
//!
//! - The call was made, under the lock, and once. Each entry of the log costs one of the ledger's counts, and those
//!   that are left lie under the locks beside the values: so whoever adds to a log past the lock, or notes twice, or
//!   not at all, has no proof. And how many calls a value had is kept in two parts, of which one lies beside the value:
//!   a step needs both, so no other thread's step adds a state of the value.
//! - The two states that the clauses speak of are states that one value had under its lock, one right behind the
//!   other: what the log has between them is of other values. Before its first call, which `Logged::new` makes, a
//!   value had none.
//! - The call lies behind all that the caller had seen: a thread sees its own calls, and those that it was told of,
//!   of all values in one order.
//! - What is told is told of one state, the value's last one, however many threads call meanwhile.
//! - Whoever has the parts of all callers knows how many calls there were, and that no other was made, where the log
//!   has one value.
//!
//! That last one isn't told of a log of several values: what each of them had left of the ledger's counts lies under
//! its own lock, and a call takes one lock. Who would know the sum would have to hold all locks at once.
//!
//! What it can't say: that a call succeeds, or returns; that a thread gets on, or in which order calls come that two
//! threads made which never met; nor how another call led from a state to the next, unless what lies under the lock
//! has an invariant that says so of the log.
#![tactic(auto)]

mod blanks;
mod callers;
mod counts;
mod fronts;
mod law;
mod logged;
mod logs;
mod names;
mod tallies;

pub use blanks::{LogBlank, Logs};
pub use callers::Caller;
pub use logged::Logged;
pub use logs::Log;
pub use names::{LogName, Shows, State};

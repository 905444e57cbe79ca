//! Calls of a part of a cache, of its lists and of its index, as a caller makes them: each function here makes one call
//! and answers what it answered, under the clauses of that call. The wrong bodies answer something else.
#![tactic(auto)]

pub mod counted;
pub mod indexes;
pub mod parts;
pub mod words;

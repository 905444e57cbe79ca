//! Calls of a cache, as a caller makes them: each function here makes one call and answers what it answered, under the
//! clauses of that call. The wrong bodies answer something else.
#![tactic(auto)]

pub mod caches;
pub mod configs;
pub mod held;
pub mod readers;
pub mod strings;

//! Calls of a cache of entries, as a caller makes them: each function here makes one call and answers what it answered, under the
//! clauses of that call. The wrong bodies answer something else.
#![tactic(auto)]

pub mod caches;
pub mod found;
pub mod readers;
pub mod weighed;

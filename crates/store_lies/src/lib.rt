//! Calls of a store, of its model and of its lists, as a caller makes them: each function here makes one call and
//! answers what it answered, under the clauses of that call. The wrong bodies answer something else.
#![tactic(auto)]

pub mod books;
pub mod links;
pub mod raw_lanes;
pub mod readers;
pub mod rings;
pub mod seats;
pub mod stores;
pub mod tables;
pub mod words;
pub mod workers;
pub mod worlds;

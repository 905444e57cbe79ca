//! Commands: each is a call of the running store as its events, with nothing between them.
pub mod attempts;
pub mod ends;
pub mod hits;
pub mod holds;
pub mod lanes;
pub mod links;
pub mod pulls;
pub mod rings;

//! Events: each is one atomic step of one thread.
mod attempts;
mod ends;
mod hits;
mod holds;
mod lanes;
mod links;
mod pulls;
mod rings;

//! Tests of a part of a cache and its readers: each call once, and what a reader sees of it.
#![tactic(auto)]

#[cfg(test)]
mod tests;

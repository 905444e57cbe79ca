//! Tests of stores and of their parts: worked calls with their answers, bumps that a Book applies by a raw
//! lane, a Store beside a World that gets the same commands, and four threads that touch what a fifth links, moves and
//! drains.
#![tactic(auto)]

#[cfg(test)]
mod tests;

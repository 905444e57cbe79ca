//! Tests of the words of a small store: worked calls with their answers, refused memory, and four readers
//! beside a writer.
#![tactic(auto)]

#[cfg(test)]
mod tests;

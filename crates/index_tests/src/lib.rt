//! Tests of a cache's index: random calls beside a plain list, and readers beside the writer.
#![tactic(auto)]

#[cfg(test)]
mod tests;

//! Tests of logs that are run through a cache, and written as a trace: known traces, and a cache beside its trace.
#![tactic(auto)]

#[cfg(test)]
mod tests;

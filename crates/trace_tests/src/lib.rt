//! Worked traces of the trace language through the whole run, by the model and on a store, most of those of
//! `worked_traces` and more.
#![tactic(auto)]

#[cfg(test)]
mod tests;

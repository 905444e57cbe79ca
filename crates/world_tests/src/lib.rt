//! Tests of a World: known answers of its events and commands, the allocations that they
//! refuse, and what its types answer.
#![tactic(auto)]

#[cfg(test)]
mod expecting;
#[cfg(test)]
mod opening;
#[cfg(test)]
mod rules;
#[cfg(test)]
mod tests;

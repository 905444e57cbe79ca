//! Tests of logs that are read: lines, CSV, and readers that give little at a time, are interrupted or fail; and of the
//! policies through which logs are run.
#![tactic(auto)]

#[cfg(test)]
mod lines;
#[cfg(test)]
mod names;
#[cfg(test)]
mod operations;
#[cfg(test)]
mod pieces;
#[cfg(test)]
mod policies;
#[cfg(test)]
mod records;
#[cfg(test)]
mod reports;
#[cfg(test)]
mod sizes;
#[cfg(test)]
mod times;

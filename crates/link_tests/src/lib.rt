//! Tests of lists over links: worked moves, many moves beside plain lists, and refused allocations.
#![tactic(auto)]

#[cfg(test)]
mod tests;

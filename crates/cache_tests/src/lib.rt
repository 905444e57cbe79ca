//! Tests of a cache: random calls beside a plain map, also those that look and then put, the order in which items are
//! evicted beside a model of its lists, evictions for which no put asks, puts that find no room, items that expire, gets of
//! many keys, caches of many parts and readers, keys of one hash, keys as text, memory that is counted or refused, visits
//! of all that is there, the loops that tend it, and readers on threads.
#![tactic(auto)]

#[cfg(test)]
mod changes;
#[cfg(test)]
mod evictions;
#[cfg(test)]
mod expecting;
#[cfg(test)]
mod expiry;
#[cfg(test)]
mod held_chunks;
#[cfg(test)]
mod held_items;
#[cfg(test)]
mod lists;
#[cfg(test)]
mod many;
#[cfg(test)]
mod many_parts;
#[cfg(test)]
mod memory;
#[cfg(test)]
mod misses;
#[cfg(test)]
mod model;
#[cfg(test)]
mod numbered;
#[cfg(test)]
mod one_hash;
#[cfg(test)]
mod order;
#[cfg(test)]
mod present_keys;
#[cfg(test)]
mod random_calls;
#[cfg(test)]
mod refused_memory;
#[cfg(test)]
mod retained;
#[cfg(test)]
mod sets;
#[cfg(test)]
mod stands;
#[cfg(test)]
mod tend_loops;
#[cfg(test)]
mod tended;
#[cfg(test)]
mod text;
#[cfg(test)]
mod threads;
#[cfg(test)]
mod visits;

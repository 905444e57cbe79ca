//! Tests of a cache of entries: all sequences of few calls, and random ones, beside a plain map, with values that count themselves;
//! texts and rows of bytes of all lengths, keys of one hash, memory that is refused, readers on threads, and limits in bytes.
#![tactic(auto)]

#[cfg(test)]
mod all_calls;
#[cfg(test)]
mod book;
#[cfg(test)]
mod calls;
#[cfg(test)]
mod lengths;
#[cfg(test)]
mod one_hash;
#[cfg(test)]
mod refused_memory;
#[cfg(test)]
mod sized;
#[cfg(test)]
mod threads;
#[cfg(test)]
mod weighed_memory;
#[cfg(test)]
mod weights;

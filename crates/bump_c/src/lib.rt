//! The C face of a store: a handle for each worker, book and lane, each with the table of its store, by which each
//! call picks the store's name anew. Each call stands in c/bump.h, with what it needs and what it answers. And that of a
//! cache of byte strings, in the same way: a handle for each part and each reader, and c/bump_cache.h.
#![tactic(auto, using(crate::proofs::Brands::brand_is_one))]

mod answers;
mod book_handle;
mod booking;
mod cache_answers;
mod cache_changing;
mod cache_handle;
mod cache_looking;
mod cache_opening;
mod cache_part_handle;
mod cache_reader_handle;
mod cache_reading;
mod draining;
mod lane_handle;
mod looking;
mod opening;
mod reading;
mod store_handle;
mod worker_handle;

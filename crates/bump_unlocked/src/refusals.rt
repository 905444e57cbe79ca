//! Why gets fail.
use thiserror::Error;

/// Why `get` gave no hold. The first that applies is answered.
#[derive(Error, Debug, PartialEq, Eq, Clone, Copy)]
pub enum GetRefusal {
    /// The store has no such chunk.
    #[error("the store has no such chunk")]
    NoSuchChunk,

    /// The chunk isn't linked, or has another generation: the item is gone, or was never stored.
    #[error("the item is not linked")]
    Stale,

    /// The chunk's reference count is at its limit.
    #[error("the item has as many references as it may have")]
    RefsFull,

    /// Eight exchanges failed, since other threads changed the head word before each of them.
    #[error("other threads changed the item again and again")]
    Busy,
}

/// Why `get_any` gave no hold. The first that applies is answered.
#[derive(Error, Debug, PartialEq, Eq, Clone, Copy)]
pub enum GetAnyRefusal {
    /// The store has no such chunk.
    #[error("the store has no such chunk")]
    NoSuchChunk,

    /// The chunk isn't linked: no item is there.
    #[error("the chunk has no linked item")]
    Gone,

    /// The chunk's reference count is at its limit.
    #[error("the item has as many references as it may have")]
    RefsFull,

    /// Eight exchanges failed, since other threads changed the head word before each of them.
    #[error("other threads changed the item again and again")]
    Busy,
}

//! What a line or record says.

use crate::log::Defect;
use crate::operations::Operation;

/// An access, as a line or record says it.
#[derive(Clone, Copy)]
pub struct LogEntry<'a> {
    /// The item's key.
    pub key: &'a [u8],

    /// The item's size in bytes, where the log's format has a column for it.
    pub size: Option<u32>,

    /// The time of the access, where the log's format has a column for it.
    pub time: Option<u64>,

    /// What is asked for, where the log's format has a column for it.
    pub operation: Option<Operation>,

    /// How long what is put lasts, where the log's format has a column for it.
    pub ttl: Option<u64>,
}

/// What a line or record says.
#[derive(Clone, Copy)]
pub enum Entry<'a> {
    /// An access.
    Access(LogEntry<'a>),

    /// Nothing, since it can't be read.
    Unreadable(Defect),
}

//! Why there is no byte string of some bytes.
use thiserror::Error;

/// The bytes don't fit into the words of the type.
#[derive(Error, Debug, PartialEq, Eq, Clone, Copy)]
#[error("there are more bytes than the words have room for")]
pub struct TooLong;

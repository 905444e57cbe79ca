//! What is done about labels.
use crate::items::ItemId;

/// What is done about the label of a chunk. A life's label is the last one that was stored
/// for its chunk before it began.
#[derive(Clone, Copy, Debug, PartialEq, Eq)]
pub enum LabelStep {
    /// A label (the second) was stored for a chunk (the first).
    Stored(u32, u64),

    /// This life began.
    Linked(ItemId),
}

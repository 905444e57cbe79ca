//! What the seats at the table of words know. No value of it is made.
use std::collections::LinkedList;

/// What a slot of the table has: the table has none.
#[derive(Drop)]
pub struct NoSlot;

/// The words at one moment, and what the pen noted with them: rows of numbers.
pub struct Moment {
    pub words: LinkedList<u64>,
    pub note: LinkedList<LinkedList<u64>>,
}

/// What a seat knows: the moments, the last one first, and whether it is the pen's. The pen's knows all; an eye's those
/// that were when it loaded last.
pub struct Sight {
    pub past: LinkedList<Moment>,
    pub writes: bool,
}

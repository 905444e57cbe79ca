//! What is told of an item that ended to make room.
use bump_rules::Segment;

/// An item that ended since its turn came: the last of COLD; where COLD was empty, of WARM; where that was too, of HOT;
/// and where all these were, of TEMP.
#[derive(Clone, Copy, Debug, PartialEq, Eq)]
pub struct Victim {
    /// Its chunk.
    pub chunk: u32,

    /// The list whose last item it was.
    pub last_of: Segment,

    /// The list to whose front the look that found it in WARM or HOT moved it, by the tail table; None where it stayed.
    /// Such a look also clears ACTIVE. None where it was found in COLD or in TEMP, where no look comes before the end.
    pub moved: Option<Segment>,

    /// The list from which it was taken.
    pub from: Segment,

    /// When it expires, in the caller's ticks: its label. 0 is never.
    pub expires: u64,

    /// Whether it was hit, as a look just behind its end found it.
    pub fetched: bool,

    /// Whether it was ACTIVE, as that look found it.
    pub active: bool,
}

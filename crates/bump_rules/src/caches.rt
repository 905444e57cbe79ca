//! What a cache and the trace of one have in common.

/// The limit of the references to an item of a cache: its link is one, a hold of each of 64 readers makes 64, and the
/// others, more than 900, are left for its bumps on their way. More aren't needed, so it is far below `MAX_REFS`, which
/// is what a head word can count. A bump beyond it is dropped.
pub const CACHE_REFS: u32 = 1_023;

/// So often a tend of a cache looks at the last items of HOT and WARM: a bound of what one tend does, however many items
/// these have over their shares.
pub const LOOKS: u32 = 100;

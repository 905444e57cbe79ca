//! What the lock of a part guards.
use crate::pairs::Pairs;
use crate::states::CacheState;
use bump_heads::Name;
use call_log::Shows;
use packed_words::Packed;

/// What the lock of a part guards: its shelf, and the part's number, which the log has too.
#[derive(Drop)]
pub struct Numbered<N: Name, K: Packed, V: Packed> {
    pub(crate) number: u32,
    pub(crate) pairs: Pairs<N, K, V>,
}

impl<N: Name, K: Packed, V: Packed> Shows<CacheState> for Numbered<N, K, V> {
    ghost shown = { λ n. record { number = n.number; shelf = n.pairs } };
}

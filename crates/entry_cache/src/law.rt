//! What holds of each entry.
use crate::kept::Kept;
use sharded_slab::Keeps;

/// The law that says nothing of an entry. A law is a type `L` with an `impl Keeps<Kept<K, V>> for L`: what `L.holds place entry` says of
/// each entry, by `entry.key`, `entry.value` and `entry.expires`, whoever puts one proves, and whoever finds one knows.
pub struct AnyEntry;

impl<K, V> Keeps<Kept<K, V>> for AnyEntry {
    ghost holds = { λ place entry. Unit {0} };
}

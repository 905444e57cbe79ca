//! An entry that was found, as a caller reads it.
ghost use Rattle.std.specs.Prelude.{◌≡◌, Some, option_map};
ghost use Rattle.entry_cache.specs.Entries.{expires_in, key_in, value_in};

use entry_cache::{Found, Keeps, Kept};

/// The value of what was found.
pub fn value<'b, N, K: Drop, V: Drop, L: Keeps<Kept<K, V>>>(
    found: &'b Found<'_, N, K, V, L>,
    _made_up: &'b V,
) -> &'b V
    ensures { option_map value_in found.now.entry ≡ Some result.now }
{
    found.value()
}

/// Its key.
pub fn key<'b, N, K: Drop, V: Drop, L: Keeps<Kept<K, V>>>(
    found: &'b Found<'_, N, K, V, L>,
    _made_up: &'b K,
) -> &'b K
    ensures { option_map key_in found.now.entry ≡ Some result.now }
{
    found.key()
}

/// When it expires.
pub fn expires<N, K: Drop, V: Drop, L: Keeps<Kept<K, V>>>(found: &Found<'_, N, K, V, L>) -> u64
    ensures { option_map expires_in found.now.entry ≡ Some result }
{
    found.expires()
}

//! By what an entry is asked for, and its hash.
ghost use Rattle.std.specs.Prelude.{◌≡◌, Bool, IsTrue};
ghost use Rattle.std.proofs.Common.{ap};
ghost use Rattle.std.specs.Hash as fed;
ghost use Rattle.std.specs.Str.{bytes_eq};
ghost use Rattle.std.specs.Cmp.Lexicographic.{bytes_decides};
ghost use Rattle.std.specs.String.{string_bytes};
ghost use Rattle.entry_cache.specs.Asking.{hash_by};

use keyed_hash::Seed;
use std::hash::{DefaultHasher, Hash, Hasher};

/// By what an entry of a key is asked for: a reference to the key, or what stands for it, as a `&str` does for a `String`. Whoever
/// writes one for a type of keys proves that what asks for a key hashes as the key does; that equal keys do is proved in their own
/// `Hash`.
pub trait Asks<K: Hash>: Copy + Hash {
    // Whether it asks for the entry of this key.
    ghost asks: { Self → K → Bool };

    /// Whether it asks for the entry of this key.
    fn asks(&self, key: &K) -> bool
        ensures { result ≡ asks self.now key.now };

    // What asks for a key hashes as the key does.
    ghost hashes_alike: { (asked : Self) (key : K) → IsTrue (asks asked key) → Self.hash_input asked ≡ K.hash_input key };
}

impl<K: Hash> Asks<K> for &K {
    ghost asks = { λ asked. K.eq asked.now };

    ghost hashes_alike = { λ asked. K.respects_eq asked.now };

    fn asks(&self, key: &K) -> bool {
        **self == *key
    }
}

impl Asks<String> for &str {
    ghost asks = { λ asked key. bytes_eq asked.now (string_bytes key) };

    ghost hashes_alike = { λ asked key same. ap fed.str ((bytes_decides asked.now (string_bytes key)).0 same) };

    fn asks(&self, key: &String) -> bool {
        *self == key.as_str()
    }
}

/// The hash of what asks for an entry, under a seed: SipHash of the seed's two numbers, and then of what it writes.
pub(crate) fn hash_of<Q: Hash>(seed: Seed, asked: &Q) -> u64
    ensures { result ≡ hash_by seed (Q.hash_input asked.now) }
{
    let mut state = DefaultHasher::new();
    state.write_u64(seed.first);
    state.write_u64(seed.second);
    asked.hash(&mut state);
    state.finish()
}

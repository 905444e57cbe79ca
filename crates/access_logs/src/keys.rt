//! A key of a log.

use smallvec::SmallVec;
use std::alloc::{AllocError, Global};
use std::hash::{Hash, Hasher};

/// A key: its bytes. Up to 24 lie in it, so that a look-up goes through one address less, and more in an allocation.
#[derive(Drop)]
pub struct Key {
    bytes: SmallVec<u8, 24>,
}

impl Key {
    ghost use Rattle.std.specs.Prelude.{◌≡◌, [], IfOk, OnOk, OnErr};
    ghost use Rattle.access_logs.specs.Keys.{bytes_of};

    /// The key with no bytes.
    pub fn empty(alloc: Global) -> Key
        ensures { bytes_of result ≡ [] }
    {
        Key {
            bytes: SmallVec::new(alloc),
        }
    }

    /// The key of these bytes.
    pub fn new(alloc: Global, bytes: &[u8]) -> Result<Key, AllocError>
        ensures { IfOk result (λ key. bytes_of key ≡ bytes.now) }
    {
        let mut key = Key::empty(alloc);
        key.set_bytes(bytes)?;
        Ok(key)
    }

    /// Becomes the key of these bytes, and where there is no memory for them, of none. It keeps its memory.
    pub fn set_bytes(&mut self, bytes: &[u8]) -> Result<(), AllocError>
        ensures bytes { OnOk result (bytes_of self.new ≡ bytes.now) }
        ensures emptied { OnErr result (bytes_of self.new ≡ []) }
    {
        self.bytes.clear();
        self.bytes.extend_from_slice(bytes)
    }
}

impl PartialEq for Key {
    ghost use Rattle.std.specs.Prelude.{bytes_eq};
    ghost use Rattle.std.specs.Cmp.Lexicographic.{nat_list_eq_equiv};
    ghost use Rattle.std.specs.Cmp.{partial_equiv_from_equiv, on_per};
    ghost use Rattle.access_logs.specs.Keys.{bytes_of};

    ghost eq = { λ x y. bytes_eq (bytes_of x) (bytes_of y) };

    ghost laws = { on_per bytes_of (partial_equiv_from_equiv nat_list_eq_equiv) };

    fn eq(&self, other: &Key) -> bool {
        self.bytes.as_slice() == other.bytes.as_slice()
    }
}

impl Eq for Key {
    ghost use Rattle.std.specs.Cmp.Lexicographic.{nat_list_eq_equiv};
    ghost use Rattle.std.specs.Cmp.{on_equiv};
    ghost use Rattle.access_logs.specs.Keys.{bytes_of};

    ghost laws = { on_equiv bytes_of nat_list_eq_equiv };
}

impl Hash for Key {
    ghost use Rattle.std.specs.Prelude.{◌∷◌, []};
    ghost use Rattle.std.specs.Cmp.Lexicographic.{bytes_decides};
    ghost use Rattle.std.proofs.Common.{ap};
    ghost use Rattle.access_logs.specs.Keys.{bytes_of};

    ghost hash_input = { λ key. bytes_of key ∷ [] };

    ghost respects_eq = { λ x y same. ap (λ bytes. bytes ∷ []) ((bytes_decides (bytes_of x) (bytes_of y)).0 same) };

    fn hash<H: Hasher>(&self, state: &mut H) {
        // All bytes in one write, since the hasher multiplies at each.
        state.write(self.bytes.as_slice());
    }
}

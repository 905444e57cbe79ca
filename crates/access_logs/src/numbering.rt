//! Keys and their numbers.

ghost use Rattle.std.specs.Prelude.{◌≤◌};
ghost use Rattle.indexmap.specs.IndexSet.{index_set_len};

use crate::keys::Key;
use crate::log::LogFault;
use indexmap::IndexSet;
use std::alloc::Global;

/// How many keys have a number at most: as many as a `u32` counts.
pub const MAX_KEYS: usize = 4_294_967_295;

/// Keys with their numbers: 0, 1, 2.. in the order in which they first came.
#[derive(Drop)]
pub struct Numbering {
    keys: IndexSet<Key>,

    // The key that was looked up last. It is kept for its memory, so that a look-up allocates only for a longer key.
    wanted: Key,
    alloc: Global,
    ghost few: { index_set_len keys ≤ 4294967295 },
}

impl Numbering {
    ghost use Rattle.std.specs.Prelude.{◌≡◌, ◌<◌, ◌∷◌, ◌++◌, [], false, IfOk, IfErr, OnOk, OnErr, length};
    ghost use Rattle.access_logs.specs.Keys.{with_key, is_among, number_among};
    ghost use Rattle.access_logs.specs.Numbering.{keys_of, RefusesKey};

    /// No keys.
    pub fn new(alloc: Global) -> Numbering
        ensures { keys_of result ≡ [] }
    {
        Numbering {
            keys: IndexSet::new(alloc),
            wanted: Key::empty(alloc),
            alloc,
        }
    }

    /// How many keys have a number.
    pub fn count(&self) -> u32
        ensures { result ≡ length (keys_of self.now) }
    {
        self.keys.len() as u32
    }

    /// The number of a key. A new key gets the next one. `TooManyKeys` where there is none left, and `Memory`.
    pub fn number_of(&mut self, key: &[u8]) -> Result<u32, LogFault>
        ensures number { IfOk result (λ number. number ≡ number_among (keys_of self.new) key.now) }
        ensures keys { OnOk result (keys_of self.new ≡ with_key (keys_of self.old) key.now) }
        ensures kept { OnErr result (keys_of self.new ≡ keys_of self.old) }
        ensures refusal { IfErr result (RefusesKey (keys_of self.old) key.now) }
    {
        if self.wanted.set_bytes(key).is_err() {
            return Err(LogFault::Memory);
        }
        if let Some(number) = self.keys.get_index_of(&self.wanted) {
            return Ok(number as u32);
        }
        self.add(key)
    }

    // The next number, for a new key.
    fn add(&mut self, key: &[u8]) -> Result<u32, LogFault>
        requires { is_among (keys_of self.old) key.now ≡ false }
        ensures number { IfOk result (λ number. number ≡ length (keys_of self.old)) }
        ensures keys { OnOk result (keys_of self.new ≡ keys_of self.old ++ key.now ∷ []) }
        ensures kept { OnErr result (keys_of self.new ≡ keys_of self.old) }
        ensures refusal { IfErr result (RefusesKey (keys_of self.old) key.now) }
    {
        let number = self.keys.len();
        if number >= MAX_KEYS {
            return Err(LogFault::TooManyKeys);
        }
        let Ok(owned) = Key::new(self.alloc, key) else {
            return Err(LogFault::Memory);
        };
        if self.keys.insert_full(owned).is_err() {
            return Err(LogFault::Memory);
        }
        Ok(number as u32)
    }
}

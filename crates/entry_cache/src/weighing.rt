//! What an entry weighs by itself.
ghost use Rattle.std.specs.Prelude.{◌≡◌, ◌+◌, min};
ghost use Rattle.std.specs.String.{string_capacity};
ghost use Rattle.std.specs.Vec.{vec_capacity};
ghost use Rattle.entry_cache.specs.Weighing.{entry_bytes, most_word, own_weight};

/// What can say how many bytes of memory it takes, with what it owns: a number those of its type, a text also those that it has room
/// for. A type of your own sums what its fields weigh.
pub trait Weighs {
    ghost use Rattle.std.specs.Prelude.{◌≡◌, ℕ};

    /// How many bytes a value takes.
    ghost weight: { Self → ℕ };

    /// How many bytes it takes.
    fn weight(&self) -> u64
        ensures { result ≡ weight self.now };
}

impl Weighs for u32 {
    ghost weight = { λ _. 4 };

    fn weight(&self) -> u64 {
        4
    }
}

impl Weighs for u64 {
    ghost weight = { λ _. 8 };

    fn weight(&self) -> u64 {
        8
    }
}

impl Weighs for i64 {
    ghost weight = { λ _. 8 };

    fn weight(&self) -> u64 {
        8
    }
}

// A text's address, its length and its room, beside the bytes that it has room for.
impl Weighs for String {
    ghost use Rattle.std.specs.Prelude.{◌+◌, min};
    ghost use Rattle.std.specs.String.{string_capacity};
    ghost use Rattle.entry_cache.specs.Weighing.{most_word};

    ghost weight = { λ text. min (24 + string_capacity text) most_word };

    fn weight(&self) -> u64 {
        (self.capacity() as u64).saturating_add(24)
    }
}

// The same of bytes.
impl Weighs for Vec<u8> {
    ghost use Rattle.std.specs.Prelude.{◌+◌, min};
    ghost use Rattle.std.specs.Vec.{vec_capacity};
    ghost use Rattle.entry_cache.specs.Weighing.{most_word};

    ghost weight = { λ bytes. min (24 + vec_capacity bytes) most_word };

    fn weight(&self) -> u64 {
        (self.capacity() as u64).saturating_add(24)
    }
}

/// What an entry takes in memory beside its key and its value, or nearly so: some 91 bytes its row, 48 the counts of who has it, its
/// time and its weight, 40 its place in the slab, and the rest what an allocator adds to its pieces and what rows are to spare.
pub const ENTRY_BYTES: u64 = 232;

/// How many bytes an entry of this key and this value weighs, with `ENTRY_BYTES` for itself; at most 2^64 - 1.
pub fn weight_of<K: Weighs, V: Weighs>(key: &K, value: &V) -> u64
    ensures { result ≡ own_weight (K.weight key.now) (V.weight value.now) }
{
    ENTRY_BYTES
        .saturating_add(key.weight())
        .saturating_add(value.weight())
}

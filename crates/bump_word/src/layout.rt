//! Where each field of the head word stands: the one place in the code that knows a number of bits.
ghost use Rattle.std.specs.Prelude.{◌≡◌, ◌/◌, ◌%◌, ◌^◌, ◌<◌};
ghost use Rattle.bump_rules.specs.Lawful.{bit};

// The table of the fields. All numbers of bits in this crate's code stand here; `specs/Layout.antt` has the same
// table, which the definition of the word is made of.

/// The reference count: lowest, so that one reference is the number 1.
pub const REFS_AT: Field = Field {
    first: 0,
    width: 20,
};

/// The flag of an item that is linked.
pub const LINKED_AT: Field = Field {
    first: REFS_AT.width,
    width: 1,
};

/// The flag of an item that was hit.
pub const FETCHED_AT: Field = Field {
    first: LINKED_AT.first + LINKED_AT.width,
    width: 1,
};

/// The flag of an item that was hit again.
pub const ACTIVE_AT: Field = Field {
    first: FETCHED_AT.first + FETCHED_AT.width,
    width: 1,
};

/// The segment's number.
pub const SEGMENT_AT: Field = Field {
    first: ACTIVE_AT.first + ACTIVE_AT.width,
    width: 2,
};

/// The bits that are zero in the word of every Head.
pub const ZERO_AT: Field = Field {
    first: SEGMENT_AT.first + SEGMENT_AT.width,
    width: GENERATION_AT.first - SEGMENT_AT.first - SEGMENT_AT.width,
};

/// The generation: highest, so that a shift alone reads it.
pub const GENERATION_AT: Field = Field {
    first: 32,
    width: 32,
};

/// The bit of an item that is linked (memcached's `ITEM_LINKED`).
pub const LINKED: u64 = 1 << LINKED_AT.first;

/// The bit of an item that was hit since it was linked (memcached's `ITEM_FETCHED`).
pub const FETCHED: u64 = 1 << FETCHED_AT.first;

/// The bit of an item that was hit twice or more since the bit was last cleared (memcached's `ITEM_ACTIVE`).
pub const ACTIVE: u64 = 1 << ACTIVE_AT.first;

/// The greatest reference count that a word holds (memcached's `refcount` has 16 bits).
pub const REFS_MAX: u32 = (1 << REFS_AT.width) - 1;

/// The narrowest number that a reference count fits into: a count cast to it stays as it is. Its limit is kept as
/// one, too.
pub type Count = u32;

/// A run of bits of the word.
#[derive(Clone, Copy)]
pub struct Field {
    /// Its first bit, counted from 0.
    pub first: u32,

    /// How many bits it has.
    pub width: u32,
}

impl Field {
    /// The number that the field's bits make.
    pub fn read(self, word: u64) -> u64
        requires first { self.first < 64 }
        requires width { self.width < 64 }
        ensures { result ≡ word / 2 ^ self.first % 2 ^ self.width }
    {
        (word >> self.first) & ((1 << self.width) - 1)
    }

    /// Whether a field of one bit is set.
    pub fn is_set(self, word: u64) -> bool
        requires first { self.first < 64 }
        requires width { self.width ≡ 1 }
        ensures { bit result ≡ word / 2 ^ self.first % 2 }
    {
        self.read(word) == 1
    }
}

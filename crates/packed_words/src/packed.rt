//! What a key or a value has to be, so that words can hold it.
ghost use Rattle.std.specs.Prelude.{◌≡◌, ◌↔◌, ℕ, ◌<◌, ◌^◌, List, length, All, IsTrue};

/// A type whose values are kept as words. All values of one type take the same number of words, and no two values have
/// the same words.
pub trait Packed: Sized + Drop {
    // How many words a value takes.
    ghost width: { ℕ };

    // What holds of each value that a program has: a clause's numbers have no upper bound, and a program's do.
    ghost fits: { Self → Type 0 };

    // The words of a value.
    ghost as_words: { Self → List ℕ };

    /// How many words a value takes. It must be less than 2 ^ 64; a cache's rows have room for 64.
    fn words() -> usize
        requires { width < 2 ^ 64 }
        ensures { result ≡ width };

    /// Writes the value's words into `to`, which must have as many words as the type takes.
    fn pack(&self, to: &mut [u64])
        requires { length to.old ≡ width }
        ensures packed { to.new ≡ as_words self.now }
        ensures in_range { fits self.now };

    /// The value that has these words. They must be those of some value.
    fn unpack(words: &[u64]) -> Self
        requires { (v : Self) × (fits v × (words.now ≡ as_words v)) }
        ensures value { (v : Self) → fits v → words.now ≡ as_words v → result ≡ v }
        ensures in_range { fits result };

    /// Whether these are the value's words. There must be as many as the type takes; they may be any.
    fn equals(&self, words: &[u64]) -> bool
        requires { length words.now ≡ width }
        ensures equal { IsTrue result ↔ (words.now ≡ as_words self.now) }
        ensures in_range { fits self.now };

    // A value has as many words as its type takes.
    ghost length_is: { (v : Self) → fits v → length (as_words v) ≡ width };

    // Each of them is a word.
    ghost are_words: { (v : Self) → fits v → All (λ w. w < 2 ^ 64) (as_words v) };

    // Two values with the same words are the same value.
    ghost one_value: { (v w : Self) → fits v → fits w → as_words v ≡ as_words w → v ≡ w };
}

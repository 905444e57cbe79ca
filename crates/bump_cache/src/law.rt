//! The law of a cache's rows.
use bump_steps::RowLaw;
use packed_words::Packed;
use std::marker::PhantomData;

/// A key and its value take at most so many words together.
pub const MOST_WORDS: usize = 64;

/// The law of the rows of a cache: the further words are those of a key, and behind them those of a value. So whoever
/// holds an item reads the words of the key and of the value that were put together.
pub struct PairLaw<K: Packed, V: Packed> {
    of: PhantomData<(K, V)>,
}

impl<K: Packed, V: Packed> RowLaw for PairLaw<K, V> {
    ghost use Rattle.bump_cache.specs.Pairs.{IsPair};

    ghost law = { IsPair K.fits K.as_words V.fits V.as_words };
}

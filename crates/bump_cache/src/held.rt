//! An item that a reader of a cache holds for its caller.
ghost use Rattle.std.specs.Prelude.{◌≡◌, ◌+◌, ◌<◌, ◌≤◌, length};
ghost use Rattle.bump_steps.specs.References.{word_of_row, words_in};
ghost use Rattle.cache_readers.specs.Looks.{HasWords};
ghost use Rattle.bump_cache.specs.Held.{IsSame, hold_of, loan_of, reader_of};
ghost use Rattle.bump_cache.specs.Opening.{most_words};
ghost use Rattle.bump_cache.specs.Pairs.{IsPair};

use crate::law::{MOST_WORDS, PairLaw};
use crate::readers::CacheReader;
use bump_heads::Name;
use cache_readers::{Hold, WordReader};
use packed_words::Packed;
use std::marker::{Model, PhantomData};

// A hold of an item, whose words are those of a key and a value.
pub(crate) struct PairHold<N: Name, K: Packed, V: Packed> {
    hold: Hold<N>,
    of: PhantomData<(K, V)>,
}

impl<N: Name, K: Packed, V: Packed> Model for PairHold<N, K, V> {
    ghost use Rattle.std.specs.Prelude.{◌+◌, ◌≤◌};
    ghost use Rattle.bump_steps.specs.References.{words_in};
    ghost use Rattle.bump_steps.specs.declared.views.HoldSheet.{HoldSheet};
    ghost use Rattle.bump_cache.specs.Opening.{most_words};
    ghost use Rattle.bump_cache.specs.Pairs.{IsPair};

    ghost Value = { HoldSheet };

    ghost view = { λ h. h.hold };

    ghost invariant = { λ h. (K.width + V.width ≤ N.table.slots) × (K.width + V.width ≤ most_words)
        × IsPair K.fits K.as_words V.fits V.as_words (words_in h.hold.row) };
}

// The value of an item whose words are those of a key and a value, with room for the words of the value.
#[inline(always)]
fn value_by<N: Name, K: Packed, V: Packed>(
    hold: &mut Hold<N>,
    reader: &WordReader<N, PairLaw<K, V>>,
    words: &mut [u64],
) -> V
    requires few { K.width + V.width ≤ N.table.slots }
    requires most { K.width + V.width ≤ most_words }
    requires pair { IsPair K.fits K.as_words V.fits V.as_words (words_in hold.old.row) }
    requires words { length words.old ≡ V.width }
    ensures is { (v : V) → V.fits v → HasWords (V.as_words v) K.width hold.old.row → result ≡ v }
    ensures words { HasWords (V.as_words result) K.width hold.old.row }
    ensures fits { V.fits result }
    ensures same { hold.new ≡ hold.old }
{
    reader.read(hold, K::words(), words);
    V::unpack(words)
}

impl<N: Name, K: Packed, V: Packed> PairHold<N, K, V> {
    // A hold that a get took: its item obeys the table's law.
    #[inline(always)]
    pub(crate) fn new(hold: Hold<N>) -> PairHold<N, K, V>
        requires few { K.width + V.width ≤ N.table.slots }
        requires most { K.width + V.width ≤ most_words }
        requires pair { IsPair K.fits K.as_words V.fits V.as_words (words_in hold.row) }
        ensures { result ≡ hold }
    {
        PairHold {
            hold,
            of: PhantomData,
        }
    }

    // The value.
    #[inline(always)]
    fn value(&mut self, reader: &WordReader<N, PairLaw<K, V>>) -> V
        ensures is { (v : V) → V.fits v → HasWords (V.as_words v) K.width self.old.row → result ≡ v }
        ensures words { HasWords (V.as_words result) K.width self.old.row }
        ensures fits { V.fits result }
        ensures same { self.new ≡ self.old }
    {
        let hold = &mut self.hold;
        let mut row = [0; MOST_WORDS];
        value_by::<N, K, V>(hold, reader, &mut row[..V::words()])
    }

    // A word of the value.
    #[inline(always)]
    fn word(&mut self, reader: &WordReader<N, PairLaw<K, V>>, index: u32) -> u64
        requires index { index < V.width }
        ensures is { result ≡ word_of_row self.old.row (K.width + index) }
        ensures same { self.new ≡ self.old }
    {
        let hold = &mut self.hold;
        let place = K::words() + index as usize;
        hold.word(reader.heads(), place as u32)
    }

    // The first words of the value.
    #[inline(always)]
    fn read(&mut self, reader: &WordReader<N, PairLaw<K, V>>, words: &mut [u64])
        requires few { length words.old ≤ V.width }
        ensures read { HasWords words.new K.width self.old.row }
        ensures length { length words.new ≡ length words.old }
        ensures same { self.new ≡ self.old }
    {
        reader.read(&mut self.hold, K::words(), words);
    }

    // Gives the hold back.
    #[inline(always)]
    fn release(self, reader: &WordReader<N, PairLaw<K, V>>) {
        let PairHold { hold, of: _ } = self;
        hold.release(reader.heads());
    }
}

/// An item that `CacheReader::get_with` found, which its reader holds: its value may be read as often as is wanted, and
/// is what the put of this life stored, whatever is put, removed or evicted meanwhile. While there is one its chunk
/// isn't free, and its reader does nothing else. When it is dropped it gives the hold back, as `Hold::release` does,
/// and the reader is as it was behind the get.
pub struct HeldItem<'a, N: Name, K: Packed, V: Packed> {
    reader: &'a mut CacheReader<N, K, V>,
    hold: PairHold<N, K, V>,
}

impl<'a, N: Name, K: Packed, V: Packed> HeldItem<'a, N, K, V> {
    // The item of a hold that this reader took.
    #[inline(always)]
    pub(crate) fn new(
        reader: &'a mut CacheReader<N, K, V>,
        hold: PairHold<N, K, V>,
    ) -> HeldItem<'a, N, K, V>
        ensures loan { loan_of result ≡ reader.entry.ghost_name }
        ensures reader { reader_of result ≡ reader.old }
        ensures hold { hold_of result ≡ hold }
    {
        HeldItem { reader, hold }
    }

    /// The value: the one whose words stand in the item's row, behind those of its key. Nothing changes.
    #[inline(always)]
    pub fn value(&mut self) -> V
        ensures is { (v : V) → V.fits v → HasWords (V.as_words v) K.width (hold_of self.old).row → result ≡ v }
        ensures words { HasWords (V.as_words result) K.width (hold_of self.old).row }
        ensures fits { V.fits result }
        ensures same { IsSame self.old self.new }
    {
        self.hold.value(self.reader.words())
    }

    /// A word of the value, by one load. `index` counts from 0, and is below the number of words that a value takes.
    /// Nothing changes.
    #[inline(always)]
    pub fn word(&mut self, index: u32) -> u64
        requires index { index < V.width }
        ensures is { result ≡ word_of_row (hold_of self.old).row (K.width + index) }
        ensures same { IsSame self.old self.new }
    {
        self.hold.word(self.reader.words(), index)
    }

    /// Reads the first words of the value into `words`, as many as it has, by one load each: as many as a value takes,
    /// or fewer. Nothing changes.
    #[inline(always)]
    pub fn read(&mut self, words: &mut [u64])
        requires few { length words.old ≤ V.width }
        ensures read { HasWords words.new K.width (hold_of self.old).row }
        ensures length { length words.new ≡ length words.old }
        ensures same { IsSame self.old self.new }
    {
        self.hold.read(self.reader.words(), words);
    }
}

impl<N: Name, K: Packed, V: Packed> Drop for HeldItem<'_, N, K, V> {
    #[inline(always)]
    fn drop(self)
        ensures same { self.exit.0.now ≡ reader_of self.entry }
    {
        let HeldItem { reader, hold } = self;
        hold.release(reader.words());
    }
}

//! Words that are seen, as a caller loads and writes them.
ghost use Rattle.seen_words.specs.Past.{Extends, IsLawful, moment, words_of};
ghost use Rattle.std.specs.Prelude.{◌≡◌, ◌<◌, ◌∷◌, length, slice_index, slice_set};

use seen_words::{Eye, Law, Pen, SeenWords, Shows};

/// What a word is now.
pub fn load<L: Law>(words: &SeenWords<L>, eye: &mut Eye, word: usize) -> u64
    requires eye { eye.old.table ≡ words.now.table }
    requires word { word < words.now.count }
    ensures table { eye.new.table ≡ eye.old.table }
    ensures seen { Extends eye.old.seen eye.new.seen }
    ensures size { 0 < length (words_of eye.old.seen) →
        length (words_of eye.new.seen) ≡ length (words_of eye.old.seen) }
    ensures lawful { IsLawful L.law eye.new.seen }
    ensures found { result ≡ slice_index (words_of eye.new.seen) word }
{
    words.load(eye, word)
}

/// A word becomes `new`.
pub fn write<L: Law, V: Shows<L>>(
    words: &SeenWords<L>,
    pen: &mut Pen,
    word: usize,
    new: u64,
    value: &V,
)
    requires pen { pen.old.table ≡ words.now.table }
    requires word { word < words.now.count }
    requires lawful { L.law pen.old.past (moment (slice_set pen.old.words word new) (V.shown value.now)) }
    ensures table { pen.new.table ≡ pen.old.table }
    ensures words { pen.new.words ≡ slice_set pen.old.words word new }
    ensures past { pen.new.past ≡ moment (slice_set pen.old.words word new) (V.shown value.now) ∷ pen.old.past }
{
    words.write(pen, word, new, value);
}

//! Links with further words.
ghost use Rattle.std.specs.Prelude.{◌≡◌};
ghost use Rattle.bump_rules.specs.declared.places.Start.TheVariants as start;
ghost use Rattle.bump_handles.specs.Linking.{BookLinksWords, words_refusal};

use crate::books::TaggedBook;
use bump_class::LinkRefusal;
use bump_heads::Name;
use bump_rules::ItemId;

/// Why an item isn't linked with further words.
#[derive(Clone, Copy)]
pub enum WordsRefusal {
    /// They are more than each chunk has.
    TooMany,

    /// UNUSED is empty.
    NoFreeChunk,
}

// A refusal of a link, of a link with words.
fn refused_as(refusal: LinkRefusal) -> WordsRefusal
    ensures { result ≡ words_refusal refusal }
{
    match refusal {
        LinkRefusal::NoFreeChunk => WordsRefusal::NoFreeChunk,
    }
}

impl<N: Name> TaggedBook<N> {
    /// As `Book::link_words`. It is refused with TooMany, and nothing is changed, exactly where there are more words
    /// than each chunk has.
    pub fn link_words(
        &mut self,
        label: u64,
        words: &[u64],
        now: u64,
    ) -> Result<ItemId, WordsRefusal>
        ensures links { BookLinksWords start.Hot N.table.slots label words.now now self.old self.new result }
    {
        if words.len() > self.book.further() as usize {
            return Err(WordsRefusal::TooMany);
        }
        match self.book.link_words(label, words, now) {
            Ok(item) => Ok(item),
            Err(refusal) => Err(refused_as(refusal)),
        }
    }

    /// As `Book::link_temp_words`, and refused in the same way.
    pub fn link_temp_words(
        &mut self,
        label: u64,
        words: &[u64],
        now: u64,
    ) -> Result<ItemId, WordsRefusal>
        ensures links { BookLinksWords start.Temp N.table.slots label words.now now self.old self.new result }
    {
        if words.len() > self.book.further() as usize {
            return Err(WordsRefusal::TooMany);
        }
        match self.book.link_temp_words(label, words, now) {
            Ok(item) => Ok(item),
            Err(refusal) => Err(refused_as(refusal)),
        }
    }
}

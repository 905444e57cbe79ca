//! Looks at a class's chunks: the ends of its lists, without a step; heads, labels and further words, by one load each.
ghost use Rattle.std.specs.Prelude.{◌≡◌, suc, ◌<◌, ◌≤◌, Some, IfSome, true, nat_lt};
ghost use Rattle.bump_links.specs.Lists.{first_of, last_of, next_of, previous_of, times};
ghost use Rattle.bump_rules.specs.Labels.{label_of_life};
ghost use Rattle.bump_rules.specs.Lawful.{bit, Shows, IsUsed};
ghost use Rattle.bump_rules.specs.Lists.{list_at};
ghost use Rattle.bump_word.specs.Words.{Fits};
ghost use Rattle.bump_steps.specs.Applications.{life_in};
ghost use Rattle.bump_steps.specs.Views.{owns, last_label, last_word, of_word};
ghost use Rattle.bump_heads.specs.Linking.{place_of_chunk, generation_of_chunk};
ghost use Rattle.bump_class.specs.Ends.{is_in_segment};
ghost use Rattle.bump_class.specs.Books.{IsBook};
ghost use Rattle.bump_class.specs.Changes.{book_after_load, book_after_see_label, book_after_see_word};

use crate::books::Book;
use bump_heads::Name;
use bump_rules::{Head, Place};
use bump_steps::RowLaw;

impl<N: Name, L: RowLaw> Book<N, L> {
    /// The first chunk of a list, or None where it has none. It is of the class, and its history leaves it there.
    pub fn first(&self, place: Place) -> Option<u32>
        ensures front { result ≡ first_of (list_at self.now.lists place) }
        ensures book { IsBook self.now }
        ensures stands { IfSome result (λ c. (owns c self.now.sheet ≡ true) × (place_of_chunk self.now.sheet c ≡ place)) }
    {
        self.lists.front(place)
    }

    /// The last chunk of a list, in the same way: in HOT, WARM and COLD the one that a pull takes.
    pub fn last(&self, place: Place) -> Option<u32>
        ensures back { result ≡ last_of (list_at self.now.lists place) }
        ensures stands { IfSome result (λ c. (owns c self.now.sheet ≡ true) × (place_of_chunk self.now.sheet c ≡ place)) }
    {
        self.lists.back(place)
    }

    /// Whether a chunk of the class stands in a list.
    pub fn stands_in(&self, chunk: u32, place: Place) -> bool
        requires own { owns chunk self.now.sheet ≡ true }
        ensures there { result ≡ nat_lt 0 (times chunk (list_at self.now.lists place)) }
        ensures stands { result ≡ true → place_of_chunk self.now.sheet chunk ≡ place }
    {
        self.lists.has(chunk, place)
    }

    /// The chunk behind a chunk of a list, or None where that is the last one. It stands in the same list.
    pub fn after(&self, chunk: u32, place: Place) -> Option<u32>
        requires own { owns chunk self.now.sheet ≡ true }
        requires stands { place_of_chunk self.now.sheet chunk ≡ place }
        ensures next { result ≡ next_of chunk (list_at self.now.lists place) }
        ensures once { times chunk (list_at self.now.lists place) ≡ 1 }
        ensures stands { IfSome result (λ c. (owns c self.now.sheet ≡ true) × (place_of_chunk self.now.sheet c ≡ place)) }
    {
        self.lists.after(chunk, place)
    }

    /// The chunk before a chunk of a list, or None where that is the first one. It stands in the same list.
    pub fn before(&self, chunk: u32, place: Place) -> Option<u32>
        requires own { owns chunk self.now.sheet ≡ true }
        requires stands { place_of_chunk self.now.sheet chunk ≡ place }
        ensures previous { result ≡ previous_of chunk (list_at self.now.lists place) }
        ensures stands { IfSome result (λ c. (owns c self.now.sheet ≡ true) × (place_of_chunk self.now.sheet c ≡ place)) }
    {
        self.lists.before(chunk, place)
    }

    /// The head of a chunk of the class, by one load, which is noted with what it found. It agrees with the chunk's
    /// list: it is linked, with this segment, in HOT, WARM, COLD and TEMP, and not linked elsewhere; and it has the
    /// chunk's generation.
    pub fn load_head(&mut self, chunk: u32) -> Head
        requires own { owns chunk self.old.sheet ≡ true }
        ensures looked { self.new ≡ book_after_load chunk result self.old }
        ensures fits { Fits result }
        ensures agrees { Shows result (place_of_chunk self.old.sheet chunk) }
        ensures generation { result.generation ≡ generation_of_chunk self.old.sheet chunk }
        ensures marks { bit result.active ≤ bit result.fetched }
        ensures listed { is_in_segment chunk self.old.lists ≡ result.linked }
    {
        self.load_head_at(chunk, self.head_at(chunk))
    }

    /// How many further words each chunk has, beside its label: so many can be stored with an item.
    #[inline(always)]
    pub fn further(&self) -> u32
        ensures { result ≡ N.table.slots }
    {
        self.seat.further()
    }

    /// The label of a chunk of the class, by one load, which is noted with what it found: the last one that was stored
    /// for the chunk. Where the chunk isn't free it is the one with which its item was linked.
    pub fn label(&mut self, chunk: u32) -> u64
        requires own { owns chunk self.old.sheet ≡ true }
        ensures seen { self.new ≡ book_after_see_label chunk result self.old }
        ensures stored { result ≡ last_label self.old.sheet chunk }
        ensures life { IsUsed (place_of_chunk self.old.sheet chunk)
            → label_of_life (life_in self.old.sheet chunk) 0 self.old.sheet.labels ≡ Some result }
    {
        self.seat.see_label(chunk)
    }

    /// A further word of a chunk of the class, in the same way. Its number, from 0, is below `further`. It is 0 where
    /// none was stored yet.
    pub fn word(&mut self, chunk: u32, index: u32) -> u64
        requires own { owns chunk self.old.sheet ≡ true }
        requires index { index < N.table.slots }
        ensures seen { self.new ≡ book_after_see_word chunk result self.old }
        ensures stored { result ≡ last_word (suc index) self.old.sheet chunk }
        ensures life { IsUsed (place_of_chunk self.old.sheet chunk)
            → label_of_life (life_in self.old.sheet chunk) 0 (of_word index self.old.sheet.words) ≡ Some result }
    {
        self.seat.see_word(chunk, index)
    }
}

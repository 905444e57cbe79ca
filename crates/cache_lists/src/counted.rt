//! A Book that counts how its items go from list to list.
ghost use Rattle.std.specs.Prelude.{◌≡◌, ◌≢◌, ℕ, suc, ◌<◌, ◌≤◌, [], true, length, slice_index, IfSome, IfNone, None, Some};
ghost use Rattle.bump_class.specs.Books.{IsBook};
ghost use Rattle.bump_class.specs.Changes.{book_with_words, book_after_see_label, book_after_see_word};
ghost use Rattle.bump_class.specs.Links.{MayHave};
ghost use Rattle.bump_heads.specs.Linking.{place_of_chunk};
ghost use Rattle.bump_rules.specs.Labels.{label_of_life};
ghost use Rattle.bump_rules.specs.Lawful.{IsUsed};
ghost use Rattle.bump_steps.specs.Applications.{life_in};
ghost use Rattle.bump_class.specs.Pulls.{Pulls};
ghost use Rattle.bump_class.specs.Sweeps.{Sweeps};
ghost use Rattle.bump_rules.specs.declared.items.Head.{Head as TheHead};
ghost use Rattle.bump_rules.specs.declared.places.Place.TheVariants.{Dying, Unused};
ghost use Rattle.bump_rules.specs.Places.{first_segment, place_of};
ghost use Rattle.bump_links.specs.Lists.{first_of};
ghost use Rattle.bump_rules.specs.Commands.{item_told};
ghost use Rattle.bump_rules.specs.Lists.{list_at, all_without};
ghost use Rattle.bump_rules.specs.declared.places.Tail.TheVariants as tail;
ghost use Rattle.bump_steps.specs.Views.{owns, last_label, last_word, of_word};
ghost use Rattle.cache_lists.specs.Counts.{CountedView as TheCountedView, IsFlow, SegmentsAddUp};
ghost use Rattle.cache_lists.specs.Counts.{no_flow, no_evictions, noted};
ghost use Rattle.cache_lists.specs.Ends.{EndsLinked, EndsNext};
ghost use Rattle.cache_lists.specs.Draining.{AppliesNext};
ghost use Rattle.cache_lists.specs.Flows.{way_of_pull};
ghost use Rattle.cache_lists.specs.Items.{may_tell, KeepsItems, BeginsAt, HasRow};
ghost use Rattle.cache_lists.specs.Segments.{SameSegments};

use crate::evictions::Evictions;
use crate::flow::Flow;
use crate::items;
use crate::victims::Victim;
use bump_class::{Book, RawLane};
use bump_heads::Name;
use bump_rules::{Applied, ItemId, Place, Pulled, Segment, Start, Tail, has_expired};
use bump_steps::{AnyRow, RowLaw};
use std::marker::Model;

/// A Book, how its items went from list to list, and how many were evicted.
#[derive(Drop)]
pub struct CountedBook<N: Name, L: RowLaw = AnyRow> {
    pub(crate) book: Book<N, L>,
    pub(crate) flow: Flow,
    pub(crate) evictions: Evictions,
}

impl<N: Name, L: RowLaw> Model for CountedBook<N, L> {
    ghost Value = { TheCountedView };

    ghost view = { λ c. record { book = c.book; flow = c.flow; evictions = c.evictions } };

    ghost invariant = { λ c. IsFlow c.flow c.book.sheet };
}

impl<N: Name, L: RowLaw> CountedBook<N, L> {
    /// A Book in which no item was linked yet.
    pub fn new(book: Book<N, L>) -> CountedBook<N, L>
        requires history { book.sheet.history ≡ [] }
        ensures { result ≡ record { book = book; flow = no_flow; evictions = no_evictions } }
    {
        CountedBook {
            book,
            flow: Flow::new(),
            evictions: Evictions::new(),
        }
    }

    /// What it keeps: each count of its flow is how often the class's history has that way, as far as the count goes;
    /// and what came into HOT, WARM, COLD or TEMP is there still or went out.
    pub fn promise(&self)
        ensures book { IsBook self.now.book }
        ensures flow { IsFlow self.now.flow self.now.book.sheet }
        ensures sums { SegmentsAddUp (length self.now.book.lists.hot) (length self.now.book.lists.warm)
            (length self.now.book.lists.cold) (length self.now.book.lists.temp) self.now.book.sheet }
    {
        self.book.promise();
    }

    /// How many chunks stand in a list.
    pub fn size(&self, place: Place) -> u32
        ensures { result ≡ length (list_at self.now.book.lists place) }
    {
        self.book.size(place)
    }

    /// How many further words each chunk has, beside its label: so many can be given to an item that begins.
    #[inline(always)]
    pub fn further(&self) -> u32
        ensures { result ≡ N.table.slots }
    {
        self.book.further()
    }

    /// The label of a chunk of the class, by one load, which is noted with what it found, as `Book::label` does. Where the
    /// chunk isn't free it is the one with which its item was linked.
    pub fn label(&mut self, chunk: u32) -> u64
        requires own { owns chunk self.old.book.sheet ≡ true }
        ensures seen { self.new ≡ record self.old { book = book_after_see_label chunk result self.old.book } }
        ensures stored { result ≡ last_label self.old.book.sheet chunk }
        ensures life { IsUsed (place_of_chunk self.old.book.sheet chunk)
            → label_of_life (life_in self.old.book.sheet chunk) 0 self.old.book.sheet.labels ≡ Some result }
    {
        self.book.label(chunk)
    }

    /// A further word of a chunk of the class, in the same way. Its number, from 0, is below `further`. It is 0 where
    /// none was stored yet.
    pub fn word(&mut self, chunk: u32, index: u32) -> u64
        requires own { owns chunk self.old.book.sheet ≡ true }
        requires index { index < N.table.slots }
        ensures seen { self.new ≡ record self.old { book = book_after_see_word chunk result self.old.book } }
        ensures stored { result ≡ last_word (suc index) self.old.book.sheet chunk }
        ensures life { IsUsed (place_of_chunk self.old.book.sheet chunk)
            → label_of_life (life_in self.old.book.sheet chunk) 0 (of_word index self.old.book.sheet.words)
            ≡ Some result }
    {
        self.book.word(chunk, index)
    }

    /// How its items went from list to list.
    pub fn flow(&self) -> Flow
        ensures { result ≡ self.now.flow }
    {
        self.flow
    }

    /// What was evicted.
    pub fn evictions(&self) -> Evictions
        ensures { result ≡ self.now.evictions }
    {
        self.evictions
    }

    /// Links an item at the front of HOT or of TEMP, at a chunk that is free, as `Book::link_words` and
    /// `Book::link_temp_words` do: with a label and further words, the first ones, which each reader who holds the item
    /// reads. The label says when it expires, in the caller's ticks; 0 is never. The words are at most `further`; the
    /// table's law holds of whatever row begins with the label and these words; `now` is the item's time, in the same
    /// ticks. It answers None exactly where no chunk is free, and changes nothing then. Its chunk has this row then, and
    /// each other chunk the words that it had.
    pub fn begin(&mut self, start: Start, label: u64, words: &[u64], now: u64) -> Option<ItemId>
        requires few { length words.now ≤ N.table.slots }
        requires law { MayHave L.law label words.now }
        ensures free { IfNone result (first_of self.old.book.lists.unused ≡ None) }
        ensures none { IfNone result (self.new ≡ self.old) }
        ensures linked { IfSome result (λ id. self.new.book
            ≡ book_with_words start id label words.now now self.old.book) }
        ensures label { IfSome result (λ id. label_of_life id 0 self.new.book.sheet.labels ≡ Some label) }
        ensures words { IfSome result (λ id. (j : ℕ) → j < length words.now
            → label_of_life id 0 (of_word j self.new.book.sheet.words) ≡ Some (slice_index words.now j)) }
        ensures flow { IfSome result (λ id. self.new.flow
            ≡ noted (Some (Unused, place_of (first_segment start))) self.old.flow) }
        ensures begins { IfSome result (λ id. BeginsAt id self.old.book self.new.book) }
        ensures first { IfSome result (λ id. first_of self.old.book.lists.unused ≡ Some id.chunk) }
        ensures row { IfSome result (λ id. HasRow id.chunk label words.now self.new.book) }
        ensures apart { IfSome result (λ id. SameSegments (all_without id.chunk self.old.book.lists)
            self.old.book.lists) }
        ensures evictions { self.new.evictions ≡ self.old.evictions }
    {
        match items::begin(&mut self.book, start, label, words, now) {
            Some(id) => {
                self.flow.note_link(start);
                Some(id)
            }
            None => None,
        }
    }

    /// Ends the item that is linked at a chunk of the class, and tells the list in which it was; or None exactly where
    /// none is linked there, and then nothing changes but the steps that the class's seat notes.
    pub fn end(&mut self, chunk: u32) -> Option<Segment>
        requires own { owns chunk self.old.book.sheet ≡ true }
        ensures ends { EndsLinked chunk result self.old.book self.new.book }
        ensures flow { IfSome result (λ from. self.new.flow ≡ noted (Some (place_of from, Dying)) self.old.flow) }
        ensures stays { IfNone result (self.new.flow ≡ self.old.flow) }
        ensures evictions { self.new.evictions ≡ self.old.evictions }
    {
        match items::end(&mut self.book, chunk) {
            Some(from) => {
                self.flow.note_end(from);
                Some(from)
            }
            None => None,
        }
    }

    // Ends the item whose turn it is, whatever its marks: the last of COLD; where COLD is empty, of WARM; where that is
    // too, of HOT; and where all these are, of TEMP. It answers None exactly where there is none, and changes nothing
    // then. It counts it, by whether it has expired at `now` and by the marks that a look just behind its end found.
    pub(crate) fn end_victim(&mut self, now: u64) -> Option<Victim>
        ensures ends { EndsNext now result self.old self.new }
    {
        match items::end_next(&mut self.book) {
            Some(ended) => {
                self.flow.note_move(ended.last_of, ended.moved);
                self.flow.note_end(ended.from);
                let expired = has_expired(ended.expires, now);
                self.evictions.note(expired, ended.fetched, ended.active);
                Some(ended)
            }
            None => None,
        }
    }

    // Looks at the last item of HOT, WARM or COLD, and moves it by the tail table, as `Book::pull` does. Where the list is
    // empty nothing is changed.
    #[inline(always)]
    pub(crate) fn look_at(&mut self, from: Tail) -> Pulled
        requires { from ≢ tail.Evict }
        ensures kept { KeepsItems self.old.book self.new.book }
        ensures pulls { Pulls self.old.book from result self.new.book }
        ensures told { may_tell from result ≡ true }
        ensures flow { self.new.flow ≡ noted (way_of_pull from result) self.old.flow }
        ensures none { IfNone (item_told result) (self.new ≡ self.old) }
        ensures evictions { self.new.evictions ≡ self.old.evictions }
    {
        let pulled = items::look_at(&mut self.book, from);
        self.flow.note_move(from.segment(), pulled.to());
        pulled
    }

    /// Looks at each chunk of an ended item once, frees those that nobody holds any more, and tells how many, as
    /// `Book::sweep` does.
    pub fn sweep(&mut self) -> u32
        ensures swept { (heads : ℕ → TheHead) × Sweeps self.old.book result self.new.book heads }
        ensures kept { KeepsItems self.old.book self.new.book }
        ensures segments { SameSegments self.old.book.lists self.new.book.lists }
        ensures counts { (self.new.flow ≡ self.old.flow) × (self.new.evictions ≡ self.old.evictions) }
    {
        items::sweep(&mut self.book)
    }

    /// Applies the next bump of a lane, as `Book::apply_front` does, and tells what that came to. It answers None only
    /// where none is aboard or known, or the one aboard is of another class, or of a life that its chunk hasn't. `now`
    /// is the item's new time, in the caller's ticks.
    pub fn apply_next(&mut self, lane: &mut RawLane<N, L>, now: u64) -> Option<Applied>
        ensures applies { AppliesNext now self.old.book lane.old result self.new.book lane.new }
        ensures evictions { self.new.evictions ≡ self.old.evictions }
    {
        let applied = items::apply_next(&mut self.book, lane, now);
        self.flow.note_bump(applied);
        applied
    }
}

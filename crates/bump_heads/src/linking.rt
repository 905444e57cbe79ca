//! Lives begin and end under their class's lock: labels, links, unlinks, and the chunks that nobody holds any more.
ghost use Rattle.std.specs.Prelude.{◌≡◌, ℕ, suc, ◌+◌, ◌<◌, ◌≤◌, None, Some, true, false};
ghost use Rattle.bump_rules.specs.declared.places.Place.TheVariants.{Dying, Unused};
ghost use Rattle.bump_rules.specs.declared.places.Start.TheVariants as start;
ghost use Rattle.bump_rules.specs.Labels.{label_of_life};
ghost use Rattle.bump_rules.specs.Lawful.{bit, Shows};
ghost use Rattle.bump_rules.specs.Lives.{life};
ghost use Rattle.bump_word.specs.Words.{Fits, word_of};
ghost use Rattle.bump_steps.specs.Places.{head_place};
ghost use Rattle.bump_steps.specs.Views.{owns, last_label, last_word, last_words, of_word};
ghost use Rattle.bump_steps.specs.Lives.{class_after_load, class_after_see_time, class_after_put_label, class_after_put_word};
ghost use Rattle.bump_steps.specs.Lives.{class_after_sweep_or_load, class_after_unlink, IsInSegment};
ghost use Rattle.bump_heads.specs.Linking.{place_of_chunk, generation_of_chunk, class_after_open_life};

use crate::seats::ClassSeat;
use bump_readers::Name;
use bump_rules::{Head, ItemId, Start};
use bump_steps::{RowLaw, head_of};

impl<N: Name, L: RowLaw> ClassSeat<N, L> {
    /// Looks at the head of a chunk of the class, by one load. It agrees with the list in which the class has the
    /// chunk: in HOT, WARM, COLD and TEMP it is linked and has this segment, elsewhere it is not linked; and it has the
    /// chunk's generation.
    pub fn load_head(&mut self, chunk: u32, place: usize) -> Head
        requires own { owns chunk self.old.sheet ≡ true }
        requires place { place ≡ head_place N.table.slots chunk }
        ensures looked { self.new ≡ record self.old { sheet = class_after_load chunk (word_of result) self.old.sheet } }
        ensures fits { Fits result }
        ensures agrees { Shows result (place_of_chunk self.old.sheet chunk) }
        ensures generation { result.generation ≡ generation_of_chunk self.old.sheet chunk }
        ensures marks { bit result.active ≤ bit result.fetched }
    {
        head_of(self.heads.words().load_head(&mut self.seat, chunk, place))
    }

    /// The time of a chunk of the class, by one load, which is noted with what it found.
    pub fn see_time(&mut self, chunk: u32) -> u64
        requires own { owns chunk self.old.sheet ≡ true }
        ensures seen { self.new ≡ record self.old { sheet = class_after_see_time chunk result self.old.sheet } }
    {
        self.heads.words().see_time(&mut self.seat, chunk)
    }

    /// Stores the label of a chunk, by one store: a number that says what the chunk's next life is, and that each
    /// reader who holds this life reads. The chunk must be in UNUSED, where nobody holds it. In memcached it is what
    /// `do_item_alloc` writes into the item before `do_item_link`.
    pub fn put_label(&mut self, chunk: u32, place: usize, label: u64)
        requires alone { self.old.lane ≡ None }
        requires own { owns chunk self.old.sheet ≡ true }
        requires place { place ≡ head_place N.table.slots chunk }
        requires unused { place_of_chunk self.old.sheet chunk ≡ Unused }
        ensures labelled { self.new ≡ record self.old { sheet = class_after_put_label chunk label self.old.sheet } }
    {
        self.heads
            .words()
            .put_label(&mut self.seat, chunk, place, label);
    }

    /// Stores a further word of a chunk, by one store, as `put_label` stores its label.
    pub fn put_word(&mut self, chunk: u32, place: usize, index: u32, word: u64)
        requires alone { self.old.lane ≡ None }
        requires own { owns chunk self.old.sheet ≡ true }
        requires place { place ≡ head_place N.table.slots chunk }
        requires unused { place_of_chunk self.old.sheet chunk ≡ Unused }
        requires index { index < N.table.slots }
        ensures stored { self.new ≡ record self.old { sheet = class_after_put_word chunk index word self.old.sheet } }
    {
        self.heads
            .words()
            .put_word(&mut self.seat, chunk, place, index, word);
    }

    /// Begins the next life of a chunk, in HOT or in TEMP, by one store of its head: linked, with the one reference of
    /// the link, and without marks (memcached's `do_item_link`). The chunk must be in UNUSED, so it has a generation to
    /// come. Its label and its further words are the last that were stored for the chunk, of which the table's law
    /// holds. Answers the life. A load before the store finds the generation, which is noted as a step.
    pub fn open_life_in(&mut self, chunk: u32, place: usize, start: Start) -> ItemId
        requires alone { self.old.lane ≡ None }
        requires own { owns chunk self.old.sheet ≡ true }
        requires place { place ≡ head_place N.table.slots chunk }
        requires unused { place_of_chunk self.old.sheet chunk ≡ Unused }
        requires law { L.law (last_words self.old.sheet chunk) }
        ensures next { result ≡ life chunk (generation_of_chunk self.old.sheet chunk + 1) }
        ensures opened { self.new ≡ record self.old { sheet = class_after_open_life start result self.old.sheet } }
        ensures label { label_of_life result 0 self.new.sheet.labels ≡ Some (last_label self.old.sheet chunk) }
        ensures words { (j : ℕ) → label_of_life result 0 (of_word j self.new.sheet.words) ≡ Some
            (last_word (suc j) self.old.sheet chunk) }
    {
        let words = self.heads.words();
        let found = head_of(words.see_generation(&mut self.seat, chunk, place));
        let generation = found.generation + 1;
        words.open_life(&mut self.seat, chunk, place, start, generation);
        ItemId { chunk, generation }
    }

    /// The same in HOT.
    pub fn open_life(&mut self, chunk: u32, place: usize) -> ItemId
        requires alone { self.old.lane ≡ None }
        requires own { owns chunk self.old.sheet ≡ true }
        requires place { place ≡ head_place N.table.slots chunk }
        requires unused { place_of_chunk self.old.sheet chunk ≡ Unused }
        requires law { L.law (last_words self.old.sheet chunk) }
        ensures next { result ≡ life chunk (generation_of_chunk self.old.sheet chunk + 1) }
        ensures opened { self.new ≡ record self.old { sheet = class_after_open_life start.Hot result self.old.sheet } }
        ensures label { label_of_life result 0 self.new.sheet.labels ≡ Some (last_label self.old.sheet chunk) }
        ensures words { (j : ℕ) → label_of_life result 0 (of_word j self.new.sheet.words) ≡ Some
            (last_word (suc j) self.old.sheet chunk) }
    {
        self.open_life_in(chunk, place, Start::Hot)
    }

    /// Ends the life of a chunk of HOT, WARM, COLD or TEMP, by one subtraction that clears LINKED and gives back the
    /// link's reference (memcached's `do_item_unlink`, which clears `ITEM_LINKED` and calls `do_item_remove`). The
    /// chunk is DYING from then on. Answers the head before: linked, with the segment of the chunk's list and its
    /// generation, and with the link's reference at least.
    pub fn end_life(&mut self, chunk: u32, place: usize) -> Head
        requires alone { self.old.lane ≡ None }
        requires own { owns chunk self.old.sheet ≡ true }
        requires place { place ≡ head_place N.table.slots chunk }
        requires linked { IsInSegment (place_of_chunk self.old.sheet chunk) }
        ensures ended { self.new ≡ record self.old { sheet = class_after_unlink chunk (word_of result) self.old.sheet } }
        ensures fits { Fits result }
        ensures agrees { Shows result (place_of_chunk self.old.sheet chunk) }
        ensures generation { result.generation ≡ generation_of_chunk self.old.sheet chunk }
        ensures counted { 0 < result.refs }
        ensures marks { bit result.active ≤ bit result.fetched }
    {
        head_of(self.heads.words().end_life(&mut self.seat, chunk, place))
    }

    /// Looks whether a DYING chunk is still held, by one load. Where the head has no reference the chunk is free: it
    /// goes to UNUSED, or to RETIRED after its last generation, 4,294,967,295. Else it stays DYING. Answers the head,
    /// which is not linked and has the chunk's generation. In memcached whoever gives back the last reference frees
    /// the item (`do_item_remove`); here its class does.
    pub fn seen_unheld(&mut self, chunk: u32, place: usize) -> Head
        requires alone { self.old.lane ≡ None }
        requires own { owns chunk self.old.sheet ≡ true }
        requires place { place ≡ head_place N.table.slots chunk }
        requires dying { place_of_chunk self.old.sheet chunk ≡ Dying }
        ensures seen { self.new ≡ record self.old {
          sheet = class_after_sweep_or_load chunk result.refs
              (word_of result) self.old.sheet;
        } }
        ensures fits { Fits result }
        ensures unlinked { result.linked ≡ false }
        ensures generation { result.generation ≡ generation_of_chunk self.old.sheet chunk }
    {
        head_of(self.heads.words().seen_unheld(&mut self.seat, chunk, place))
    }
}

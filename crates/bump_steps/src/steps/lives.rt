//! The steps of a class's seat that begin and end lives, and its looks at a chunk.
ghost use Rattle.std.specs.Prelude.{◌≡◌, ◌<◌};
ghost use Rattle.bump_steps.specs.Places.{head_place};
ghost use Rattle.bump_steps.specs.Seats.{IsSeated, StaysSeated};
ghost use Rattle.bump_steps.specs.Words.{words_id};
ghost use Rattle.bump_steps.specs.Plays.{on_chunk, on_time, on_label, on_word, HasClass};
ghost use Rattle.bump_word.specs.Words.{word_of};
ghost use Rattle.bump_rules.specs.Heads.{linked_head};
ghost use Rattle.bump_steps.specs.Lives.{generation_load_tells, load_tells, time_load_tells, put_label_tells};
ghost use Rattle.bump_steps.specs.Lives.{put_word_tells, class_after_put_word};
ghost use Rattle.bump_steps.specs.Lives.{link_tells, unlink_tells, sweep_or_load_tells, class_after_see_time};
ghost use Rattle.bump_steps.specs.Lives.{class_after_put_label, class_after_link, on_class, IsUnused, IsDying};
ghost use Rattle.bump_steps.specs.Lives.{IsLinked, MayLink};

use crate::laws::RowLaw;
use crate::views::{Empty, View};
use crate::words::{Seat, Words};
use atomic_table::Play;
use bump_rules::{Head, Start};
use bump_word::laws::LINK;
use bump_word::pack;

pub struct LoadGeneration;

impl Play<Empty, View> for LoadGeneration {
    ghost then = { on_chunk generation_load_tells };
}

pub struct LoadTime;

impl Play<Empty, View> for LoadTime {
    ghost then = { on_time time_load_tells };
}

pub struct Load;

impl Play<Empty, View> for Load {
    ghost then = { on_chunk load_tells };
}

pub struct PutLabel;

impl Play<Empty, View> for PutLabel {
    ghost then = { on_label put_label_tells };
}

pub struct PutWord;

impl Play<Empty, View> for PutWord {
    ghost then = { on_word put_word_tells };
}

pub struct Link;

impl Play<Empty, View> for Link {
    ghost then = { on_chunk link_tells };
}

pub struct Unlink;

impl Play<Empty, View> for Unlink {
    ghost then = { on_chunk unlink_tells };
}

pub struct SweepOrLoad;

impl Play<Empty, View> for SweepOrLoad {
    ghost then = { on_chunk sweep_or_load_tells };
}

impl<L: RowLaw> Words<L> {
    /// A load of a head by its class, for the generation in it.
    pub fn see_generation(&self, seat: &mut Seat, chunk: u32, place: usize) -> u64
        requires seat { IsSeated (words_id self.now) seat.old chunk }
        requires place { place ≡ head_place (words_id self.now).slots chunk }
        requires class { HasClass seat.old.me.0 }
        ensures same { StaysSeated seat.old seat.new }
        ensures told { generation_load_tells chunk 0 seat.old.me result seat.new.me }
    {
        self.table
            .shared
            .load::<LoadGeneration>(seat, self.head_by(place, chunk))
    }

    /// A load of a time by its class.
    pub fn see_time(&self, seat: &mut Seat, chunk: u32) -> u64
        requires seat { IsSeated (words_id self.now) seat.old chunk }
        requires class { HasClass seat.old.me.0 }
        ensures same { StaysSeated seat.old seat.new }
        ensures told { seat.new.me ≡ (on_class (class_after_see_time chunk result) seat.old.me.0, seat.old.me.1) }
    {
        self.table
            .shared
            .load::<LoadTime>(seat, self.time_at(chunk))
    }

    /// A load of a head by its class.
    pub fn load_head(&self, seat: &mut Seat, chunk: u32, place: usize) -> u64
        requires seat { IsSeated (words_id self.now) seat.old chunk }
        requires place { place ≡ head_place (words_id self.now).slots chunk }
        requires class { HasClass seat.old.me.0 }
        ensures same { StaysSeated seat.old seat.new }
        ensures told { load_tells chunk 0 seat.old.me result seat.new.me }
    {
        self.table
            .shared
            .load::<Load>(seat, self.head_by(place, chunk))
    }

    /// The store of a label.
    pub fn put_label(&self, seat: &mut Seat, chunk: u32, place: usize, label: u64)
        requires seat { IsSeated (words_id self.now) seat.old chunk }
        requires place { place ≡ head_place (words_id self.now).slots chunk }
        requires may { IsUnused chunk seat.old.me.0 }
        ensures same { StaysSeated seat.old seat.new }
        ensures told { seat.new.me ≡ (on_class (class_after_put_label chunk label) seat.old.me.0, seat.old.me.1) }
    {
        self.table
            .shared
            .store::<PutLabel>(seat, self.label_by(place, chunk), label);
    }

    /// The store of a further word.
    pub fn put_word(&self, seat: &mut Seat, chunk: u32, place: usize, index: u32, word: u64)
        requires seat { IsSeated (words_id self.now) seat.old chunk }
        requires place { place ≡ head_place (words_id self.now).slots chunk }
        requires index { index < (words_id self.now).slots }
        requires may { IsUnused chunk seat.old.me.0 }
        ensures same { StaysSeated seat.old seat.new }
        ensures told { seat.new.me ≡ (on_class (class_after_put_word chunk index word) seat.old.me.0, seat.old.me.1) }
    {
        self.table
            .shared
            .store::<PutWord>(seat, self.word_by(place, chunk, index), word);
    }

    /// The store of the head of a new life, where it begins.
    pub fn open_life(
        &self,
        seat: &mut Seat,
        chunk: u32,
        place: usize,
        start: Start,
        generation: u32,
    )
        requires seat { IsSeated (words_id self.now) seat.old chunk }
        requires place { place ≡ head_place (words_id self.now).slots chunk }
        requires may { MayLink L.law chunk generation seat.old.me.0 }
        ensures same { StaysSeated seat.old seat.new }
        ensures told { seat.new.me ≡ (
          on_class (class_after_link start chunk generation
              (word_of (linked_head start generation))) seat.old.me.0,
          seat.old.me.1,
        ) }
    {
        let word = pack(Head::after_link(start, generation));
        self.table
            .shared
            .store::<Link>(seat, self.head_by(place, chunk), word);
    }

    /// The subtraction of LINKED and of the link's reference.
    pub fn end_life(&self, seat: &mut Seat, chunk: u32, place: usize) -> u64
        requires seat { IsSeated (words_id self.now) seat.old chunk }
        requires place { place ≡ head_place (words_id self.now).slots chunk }
        requires may { IsLinked chunk seat.old.me.0 }
        ensures same { StaysSeated seat.old seat.new }
        ensures told { unlink_tells chunk LINK seat.old.me result seat.new.me }
    {
        self.table
            .shared
            .fetch_sub::<Unlink>(seat, self.head_by(place, chunk), LINK)
    }

    /// A load of the head of a DYING chunk.
    pub fn seen_unheld(&self, seat: &mut Seat, chunk: u32, place: usize) -> u64
        requires seat { IsSeated (words_id self.now) seat.old chunk }
        requires place { place ≡ head_place (words_id self.now).slots chunk }
        requires may { IsDying chunk seat.old.me.0 }
        ensures same { StaysSeated seat.old seat.new }
        ensures told { sweep_or_load_tells chunk 0 seat.old.me result seat.new.me }
    {
        self.table
            .shared
            .load::<SweepOrLoad>(seat, self.head_by(place, chunk))
    }
}

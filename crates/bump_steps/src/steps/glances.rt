//! The loads of a worker's glance: of a head, of words, and of the head again. None changes a word.
ghost use Rattle.std.specs.Prelude.{◌≡◌, ◌<◌};
ghost use Rattle.bump_steps.specs.Places.{head_place};
ghost use Rattle.bump_steps.specs.Seats.{IsSeated, StaysSeated};
ghost use Rattle.bump_steps.specs.Words.{words_id};
ghost use Rattle.bump_steps.specs.Plays.{on_chunk, on_row, on_label, on_word, HasWorker};
ghost use Rattle.bump_steps.specs.Glances.{glance_tells, HasGlance, glance_label_tells, glance_word_tells, look_again_tells};

use crate::laws::RowLaw;
use crate::views::{Empty, View};
use crate::words::{Seat, Words};
use atomic_table::Play;
use std::marker::PhantomData;

pub struct LoadToGlance<L: RowLaw> {
    of: PhantomData<L>,
}

impl<L: RowLaw> Play<Empty, View> for LoadToGlance<L> {
    ghost then = { on_row (glance_tells L.law) };
}

pub struct GlanceAtLabel;

impl Play<Empty, View> for GlanceAtLabel {
    ghost then = { on_label glance_label_tells };
}

pub struct GlanceAtWord;

impl Play<Empty, View> for GlanceAtWord {
    ghost then = { on_word glance_word_tells };
}

pub struct LookAgain;

impl Play<Empty, View> for LookAgain {
    ghost then = { on_chunk look_again_tells };
}

impl<L: RowLaw> Words<L> {
    /// A load of a head word, by which a worker glances at the life, if the chunk is linked.
    #[inline(always)]
    pub fn glance(&self, seat: &mut Seat, chunk: u32, place: usize) -> u64
        requires seat { IsSeated (words_id self.now) seat.old chunk }
        requires place { place ≡ head_place (words_id self.now).slots chunk }
        requires worker { HasWorker seat.old.me.0 }
        ensures same { StaysSeated seat.old seat.new }
        ensures told { glance_tells L.law (words_id self.now).slots chunk 0 seat.old.me result seat.new.me }
    {
        self.table
            .shared
            .load::<LoadToGlance<L>>(seat, self.head_by(place, chunk))
    }

    /// A load of a label word, by a glance.
    #[inline(always)]
    pub fn glance_label(&self, seat: &mut Seat, chunk: u32, place: usize) -> u64
        requires seat { IsSeated (words_id self.now) seat.old chunk }
        requires place { place ≡ head_place (words_id self.now).slots chunk }
        requires glance { HasGlance chunk seat.old.me.0 }
        ensures same { StaysSeated seat.old seat.new }
        ensures told { glance_label_tells chunk 0 seat.old.me result seat.new.me }
    {
        self.table
            .shared
            .load::<GlanceAtLabel>(seat, self.label_by(place, chunk))
    }

    /// A load of a further word, by a glance.
    #[inline(always)]
    pub fn glance_word(&self, seat: &mut Seat, chunk: u32, place: usize, index: u32) -> u64
        requires seat { IsSeated (words_id self.now) seat.old chunk }
        requires place { place ≡ head_place (words_id self.now).slots chunk }
        requires index { index < (words_id self.now).slots }
        requires glance { HasGlance chunk seat.old.me.0 }
        ensures same { StaysSeated seat.old seat.new }
        ensures told { glance_word_tells index chunk 0 seat.old.me result seat.new.me }
    {
        self.table
            .shared
            .load::<GlanceAtWord>(seat, self.word_by(place, chunk, index))
    }

    /// A load of the head again, by a glance: if the life is linked as ever, each word that was loaded is its own.
    #[inline(always)]
    pub fn look_again(&self, seat: &mut Seat, chunk: u32, place: usize) -> u64
        requires seat { IsSeated (words_id self.now) seat.old chunk }
        requires place { place ≡ head_place (words_id self.now).slots chunk }
        requires worker { HasWorker seat.old.me.0 }
        ensures same { StaysSeated seat.old seat.new }
        ensures told { look_again_tells chunk 0 seat.old.me result seat.new.me }
    {
        self.table
            .shared
            .load::<LookAgain>(seat, self.head_by(place, chunk))
    }
}

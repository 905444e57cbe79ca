//! The looks of a class's seat at a chunk's label and further words.
ghost use Rattle.std.specs.Prelude.{◌≡◌, ◌<◌};
ghost use Rattle.bump_steps.specs.Seats.{IsSeated, StaysSeated};
ghost use Rattle.bump_steps.specs.Words.{words_id};
ghost use Rattle.bump_steps.specs.Plays.{on_label, on_word, HasClass};
ghost use Rattle.bump_steps.specs.Sights.{label_sight_tells, word_sight_tells};

use crate::laws::RowLaw;
use crate::views::{Empty, View};
use crate::words::{Seat, Words};
use atomic_table::Play;

pub struct SightOfLabel;

impl Play<Empty, View> for SightOfLabel {
    ghost then = { on_label label_sight_tells };
}

pub struct SightOfWord;

impl Play<Empty, View> for SightOfWord {
    ghost then = { on_word word_sight_tells };
}

impl<L: RowLaw> Words<L> {
    /// A load of a label by its class.
    pub fn see_label(&self, seat: &mut Seat, chunk: u32) -> u64
        requires seat { IsSeated (words_id self.now) seat.old chunk }
        requires class { HasClass seat.old.me.0 }
        ensures same { StaysSeated seat.old seat.new }
        ensures told { label_sight_tells chunk 0 seat.old.me result seat.new.me }
    {
        self.table
            .shared
            .load::<SightOfLabel>(seat, self.label_at(chunk))
    }

    /// A load of a further word by its class.
    pub fn see_word(&self, seat: &mut Seat, chunk: u32, index: u32) -> u64
        requires seat { IsSeated (words_id self.now) seat.old chunk }
        requires index { index < (words_id self.now).slots }
        requires class { HasClass seat.old.me.0 }
        ensures same { StaysSeated seat.old seat.new }
        ensures told { word_sight_tells index chunk 0 seat.old.me result seat.new.me }
    {
        self.table
            .shared
            .load::<SightOfWord>(seat, self.word_at(chunk, index))
    }
}

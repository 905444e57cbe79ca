//! The words, the pen that writes them, and the eyes that see them.
ghost use Rattle.std.specs.Prelude.{◌≡◌, ◌<◌, [], ◌∷◌, IfOk, length, replicate, slice_set, slice_index};
ghost use Rattle.seen_words.specs.Past.{Extends, IsLawful, moment, words_of};

use crate::rule::{Again, Law, Noting, OnePen, Opens, Reads, Sees, Shows, Writes};
use crate::views::{NoSlot, Sight};
use atomic_table::{Seat, Table};
use std::alloc::{AllocError, Global};
use std::marker::{Brand, Model};

// The table has as many words before the first as let that begin at a line of the cache: a large block begins 16 bytes
// behind a page, and 6 words later stand 64 bytes. So 8 words whose first has a number that 8 divides lie in one line.

/// How many words the table has before the first.
const BEFORE: usize = 6;

/// Words of 64 bits, numbered from 0, which threads share. A contract sees which table they are, and how many. Where
/// there are many, each 8 of them from a multiple of 8 on are a line of 64 bytes.
#[derive(Drop)]
pub struct SeenWords<L: Law> {
    table: Table<NoSlot, Sight, Vec<u64, Global>, OnePen<L>, Global>,
}

impl<L: Law> Model for SeenWords<L> {
    ghost use Rattle.std.specs.Prelude.{◌<◌, ◌≤◌, ◌^◌};
    ghost use Rattle.seen_words.specs.Past.{WordsView, words_view};

    ghost Value = { WordsView };

    ghost view = { λ w. words_view w.table.shared.table_id };

    ghost invariant = { λ w. (6 ≤ w.table.shared.table_id.words) × (w.table.shared.table_id.words < 2 ^ 33) };
}

/// The right to write the words of one table, which one thread has at a time. It has no bytes. A contract sees which
/// table it writes, and each moment from the last one back to the first: what the words were then, and what was noted.
#[derive(Drop)]
pub struct Pen {
    seat: Seat<NoSlot, Sight>,
}

impl Model for Pen {
    ghost use Rattle.std.specs.Prelude.{◌≡◌, [], true};
    ghost use Rattle.seen_words.specs.Past.{PenView, pen_view};

    ghost Value = { PenView };

    ghost view = { λ p. pen_view p.seat.table_id p.seat.me.0.past };

    ghost invariant = { λ p. (p.seat.me.1 ≡ []) × (p.seat.me.0.writes ≡ true) };
}

/// What one thread has seen of the words of one table. It has no bytes. A contract sees which table it is of, and each
/// moment from the last that was seen back to the first.
#[derive(Drop)]
pub struct Eye {
    seat: Seat<NoSlot, Sight>,
}

impl Model for Eye {
    ghost use Rattle.std.specs.Prelude.{◌≡◌, [], false};
    ghost use Rattle.seen_words.specs.Past.{EyeView};

    ghost Value = { EyeView };

    ghost view = { λ p. record { table = p.seat.table_id; seen = p.seat.me.0.past } };

    ghost invariant = { λ p. (p.seat.me.1 ≡ []) × (p.seat.me.0.writes ≡ false) };
}

impl<L: Law> SeenWords<L> {
    /// So many words, each 0, and the pen that writes them. It is refused only for want of memory.
    pub fn new(alloc: Global, count: u32) -> Result<(SeenWords<L>, Pen), AllocError>
        requires lawful { L.law [] (moment (replicate count 0) []) }
        ensures count { IfOk result (λ made. made.0.count ≡ count) }
        ensures table { IfOk result (λ made. made.1.table ≡ made.0.table) }
        ensures words { IfOk result (λ made. made.1.words ≡ replicate count 0) }
        ensures past { IfOk result (λ made. made.1.past ≡ moment (replicate count 0) [] ∷ []) }
    {
        let all = BEFORE + count as usize;
        let mut zeros = Vec::with_capacity(alloc, all)?;
        for _ in 0..all {
            zeros.push(0)?;
        }
        let (table, seat) = Table::of_words(alloc, zeros.as_slice(), &zeros)?;
        Ok((SeenWords { table }, Pen { seat }))
    }

    /// An eye that has seen what the words are now.
    #[inline(always)]
    pub fn eye(&self) -> Eye
        ensures table { result.table ≡ self.now.table }
        ensures lawful { IsLawful L.law result.seen }
    {
        let (_, seat) = self.table.shared.load_new_seat::<Opens<L>>(0);
        Eye { seat }
    }

    /// An eye that has seen all that the pen wrote.
    #[inline(always)]
    pub fn pens_eye(&self, pen: &mut Pen) -> Eye
        requires pen { pen.old.table ≡ self.now.table }
        ensures table { result.table ≡ self.now.table }
        ensures seen { result.seen ≡ pen.old.past }
        ensures words { words_of result.seen ≡ pen.old.words }
        ensures pen { pen.new ≡ pen.old }
    {
        let seat = self.table.shared.split_seat::<Again>(&mut pen.seat);
        Eye { seat }
    }

    /// What a word is now: it was so at one moment, the last that the eye has seen then. The eye has seen all that it had
    /// seen before. `word` is below the count of words, and that isn't looked at when it runs.
    #[inline(always)]
    pub fn load(&self, eye: &mut Eye, word: usize) -> u64
        requires eye { eye.old.table ≡ self.now.table }
        requires word { word < self.now.count }
        ensures table { eye.new.table ≡ eye.old.table }
        ensures seen { Extends eye.old.seen eye.new.seen }
        ensures size { 0 < length (words_of eye.old.seen) →
            length (words_of eye.new.seen) ≡ length (words_of eye.old.seen) }
        ensures lawful { IsLawful L.law eye.new.seen }
        ensures found { result ≡ slice_index (words_of eye.new.seen) word }
    {
        self.table
            .shared
            .load::<Sees<L>>(&mut eye.seat, BEFORE + word)
    }

    /// Loads a word and lets it go, so that whoever loads it soon needn't wait for its memory. Nothing changes, and nothing
    /// is told. `word` is below the count of words, and that isn't looked at when it runs.
    #[inline(always)]
    pub fn look_ahead(&self, word: usize)
        requires { word < self.now.count }
    {
        let _word = self.table.shared.peek(BEFORE + word);
    }

    /// What a word is, exactly: only the pen changes it. The pen is that of these words, and `word` below their count.
    #[inline(always)]
    pub fn read(&self, pen: &mut Pen, word: usize) -> u64
        requires pen { pen.old.table ≡ self.now.table }
        requires word { word < self.now.count }
        ensures read { result ≡ slice_index pen.old.words word }
        ensures pen { pen.new ≡ pen.old }
    {
        self.table
            .shared
            .load::<Reads>(&mut pen.seat, BEFORE + word)
    }

    #[inline(always)]
    fn write_by<B: Noting, V: Shows<L>>(&self, pen: &mut Pen, word: usize, new: u64, value: &V)
        requires note { B.note ≡ V.shown value.now }
        requires pen { pen.old.table ≡ self.now.table }
        requires word { word < self.now.count }
        requires lawful { L.law pen.old.past (moment (slice_set pen.old.words word new) B.note) }
        ensures table { pen.new.table ≡ pen.old.table }
        ensures words { pen.new.words ≡ slice_set pen.old.words word new }
        ensures past { pen.new.past ≡ moment (slice_set pen.old.words word new) B.note ∷ pen.old.past }
    {
        let _ = value;
        self.table
            .shared
            .store::<Writes<B>>(&mut pen.seat, BEFORE + word, new);
    }

    /// A word becomes `new` by one store, and all others stay: that is a moment more, with which is noted what `value`
    /// shows. The pen is that of these words, and `word` below their count.
    #[inline(always)]
    pub fn write<V: Shows<L>>(&self, pen: &mut Pen, word: usize, new: u64, value: &V)
        requires pen { pen.old.table ≡ self.now.table }
        requires word { word < self.now.count }
        requires lawful { L.law pen.old.past
            (moment (slice_set pen.old.words word new) (V.shown value.now)) }
        ensures table { pen.new.table ≡ pen.old.table }
        ensures words { pen.new.words ≡ slice_set pen.old.words word new }
        ensures past { pen.new.past
            ≡ moment (slice_set pen.old.words word new) (V.shown value.now) ∷ pen.old.past }
    {
        self.write_by::<Brand, V>(pen, word, new, value);
    }
}

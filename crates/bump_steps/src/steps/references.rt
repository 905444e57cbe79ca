//! The steps of a reader on a reference: a load, the exchange that takes it, and the subtraction that gives it back;
//! the loads of a label and of a head by a hold; and loads that need no seat of the caller's.
ghost use Rattle.std.specs.Prelude.{ℕ, ◌≡◌, ◌<◌, List, None};
ghost use Rattle.bump_rules.specs.declared.items.Head.{Head as TheHead};
ghost use Rattle.bump_steps.specs.Places.{HasChunk, head_place};
ghost use Rattle.bump_steps.specs.Seats.{IsSeated, StaysSeated};
ghost use Rattle.bump_steps.specs.Words.{words_id, config_of};
ghost use Rattle.bump_steps.specs.Plays.{on_chunk, on_row, on_label, on_word, Found, HasWorker};
ghost use Rattle.bump_steps.specs.References.{load_to_take_tells, take_tells, MayTake, IsRow, words_in, HasHold, release_of_hold_tells, load_of_hold_tells, label_load_tells, word_load_tells, load_without_seat_tells, IsAnyHead, seen_me};
ghost use Rattle.bump_steps.specs.Tries.{AskedFound, TakeFound, last_found, of_life, of_any, asked_refusal, refusal_of, view_after_attempt, any_answer};

use crate::decoding::head_of;
use crate::laws::RowLaw;
use crate::refusals::{AnyRefusal, TakeRefusal, any_refusal, refusal};
use crate::views::{Empty, View};
use crate::words::{Seat, Words};
use atomic_table::Play;
use bump_rules::ItemId;
use bump_word::Limit;
use bump_word::laws::ONE_REFERENCE;
use std::marker::{Brand, PhantomData};

pub struct LoadToTake;

impl Play<Empty, View> for LoadToTake {
    ghost then = { on_chunk load_to_take_tells };
}

pub struct Take<L: RowLaw> {
    of: PhantomData<L>,
}

impl<L: RowLaw> Play<Empty, View> for Take<L> {
    ghost then = { on_row (take_tells L.law) };
}

pub struct GiveBack;

impl Play<Empty, View> for GiveBack {
    ghost then = { on_chunk release_of_hold_tells };
}

pub struct LoadOfHold;

impl Play<Empty, View> for LoadOfHold {
    ghost then = { on_chunk load_of_hold_tells };
}

pub struct LoadLabel;

impl Play<Empty, View> for LoadLabel {
    ghost then = { on_label label_load_tells };
}

pub struct LoadWord;

impl Play<Empty, View> for LoadWord {
    ghost then = { on_word word_load_tells };
}

/// Tells a load the limit of references, which it can't know.
pub trait Limited {
    ghost use Rattle.std.specs.Prelude.{ℕ};

    ghost limit: { ℕ };
}

impl Limited for Brand {
    ghost limit = { 0 };
}

pub struct LoadWithoutSeat<B: Limited> {
    of: PhantomData<B>,
}

impl<B: Limited> Play<Empty, View> for LoadWithoutSeat<B> {
    ghost then = { on_chunk (load_without_seat_tells B.limit) };
}

impl<L: RowLaw> Words<L> {
    /// A load of a head word, by a worker.
    pub fn load_to_take(&self, seat: &mut Seat, chunk: u32, place: usize) -> u64
        requires seat { IsSeated (words_id self.now) seat.old chunk }
        requires place { place ≡ head_place (words_id self.now).slots chunk }
        requires worker { HasWorker seat.old.me.0 }
        ensures same { StaysSeated seat.old seat.new }
        ensures told { load_to_take_tells chunk 0 seat.old.me result seat.new.me }
    {
        self.table
            .shared
            .load::<LoadToTake>(seat, self.head_by(place, chunk))
    }

    /// The exchange by which a worker takes a hold.
    pub fn try_take(&self, seat: &mut Seat, life: ItemId, place: usize, word: u64) -> u64
        requires seat { IsSeated (words_id self.now) seat.old life.chunk }
        requires place { place ≡ head_place (words_id self.now).slots life.chunk }
        requires worker { HasWorker seat.old.me.0 }
        requires word { MayTake (config_of self.now).refs_limit life word }
        ensures same { StaysSeated seat.old seat.new }
        ensures told { take_tells L.law (words_id self.now).slots life.chunk word seat.old.me result seat.new.me }
    {
        self.table.shared.compare_exchange::<Take<L>>(
            seat,
            self.head_by(place, life.chunk),
            word,
            word + ONE_REFERENCE,
        )
    }

    /// One load, and at most 8 exchanges. The limit is read anew for each word, as its comparison's operand. The hold
    /// has the row of the life, of which the table's law holds.
    #[inline(always)]
    pub fn take(
        &self,
        seat: &mut Seat,
        life: ItemId,
        place: usize,
        limit: &Limit,
    ) -> Option<TakeRefusal>
        requires seat { IsSeated (words_id self.now) seat.old life.chunk }
        requires place { place ≡ head_place (words_id self.now).slots life.chunk }
        requires worker { HasWorker seat.old.me.0 }
        requires limit { limit.now ≡ (config_of self.now).refs_limit }
        ensures same { StaysSeated seat.old seat.new }
        ensures told { (first : TheHead) × (more : List TheHead) × (row : List ℕ) × IsRow (words_id self.now).slots row
            × TakeFound limit.now life first more
            × (seat.new.me ≡ (
              view_after_attempt limit.now (of_life life) life.chunk first more row seat.old.me.0,
              seat.old.me.1,
            ))
            × (result ≡ refusal_of limit.now life first more)
            × (result ≡ None → L.law (words_in row)) }
    {
        let mut word = self.load_to_take(seat, life.chunk, place);
        for failed in 0..8u32 {
            let head = head_of(word);
            if let Some(refused) = refusal(word, head, life, limit) {
                return Some(refused);
            }
            let found = self.try_take(seat, life, place, word);
            if found == word {
                return None;
            }
            word = found;
        }
        Some(TakeRefusal::Busy)
    }

    /// The same for whatever life is linked in the chunk. Answers the head word by which the reference was taken, as it
    /// was before.
    #[inline(always)]
    pub fn take_any(
        &self,
        seat: &mut Seat,
        chunk: u32,
        place: usize,
        limit: &Limit,
    ) -> Result<u64, AnyRefusal>
        requires seat { IsSeated (words_id self.now) seat.old chunk }
        requires place { place ≡ head_place (words_id self.now).slots chunk }
        requires worker { HasWorker seat.old.me.0 }
        requires limit { limit.now ≡ (config_of self.now).refs_limit }
        ensures same { StaysSeated seat.old seat.new }
        ensures told { (first : TheHead) × (more : List TheHead) × (row : List ℕ) × IsRow (words_id self.now).slots row
            × AskedFound limit.now of_any first more
            × (seat.new.me ≡ (view_after_attempt limit.now of_any chunk first more row seat.old.me.0, seat.old.me.1))
            × (result ≡ any_answer (asked_refusal limit.now of_any first more) (last_found first more))
            × (asked_refusal limit.now of_any first more ≡ None → L.law (words_in row)) }
    {
        let mut expected = self.load_to_take(seat, chunk, place);
        for lost in 0..8u32 {
            let head = head_of(expected);
            if let Some(refused) = any_refusal(expected, head, limit) {
                return Err(refused);
            }
            let life = ItemId {
                chunk,
                generation: head.generation,
            };
            let found = self.try_take(seat, life, place, expected);
            if found == expected {
                return Ok(expected);
            }
            expected = found;
        }
        Err(AnyRefusal::Busy)
    }

    /// The subtraction by which a hold gives its reference back. Its seat has no list of steps, and keeps the mark of
    /// it. `give_back_bump` is the same step of a worker, for the reference of a bump.
    pub fn give_back(&self, seat: &mut Seat, chunk: u32, place: usize) -> u64
        requires seat { IsSeated (words_id self.now) seat.old chunk }
        requires place { place ≡ head_place (words_id self.now).slots chunk }
        requires hold { HasHold chunk seat.old.me.0 }
        ensures same { StaysSeated seat.old seat.new }
        ensures told { release_of_hold_tells chunk ONE_REFERENCE seat.old.me result seat.new.me }
    {
        self.table
            .shared
            .fetch_sub::<GiveBack>(seat, self.head_by(place, chunk), ONE_REFERENCE)
    }

    /// A load of a head word, by a hold, whose list of looks notes it.
    pub fn load_of_hold(&self, seat: &mut Seat, chunk: u32, place: usize) -> u64
        requires seat { IsSeated (words_id self.now) seat.old chunk }
        requires place { place ≡ head_place (words_id self.now).slots chunk }
        requires hold { HasHold chunk seat.old.me.0 }
        ensures same { StaysSeated seat.old seat.new }
        ensures told { load_of_hold_tells chunk 0 seat.old.me result seat.new.me }
    {
        self.table
            .shared
            .load::<LoadOfHold>(seat, self.head_by(place, chunk))
    }

    /// A load of a label word, by a hold.
    pub fn label_of(&self, seat: &mut Seat, chunk: u32, place: usize) -> u64
        requires seat { IsSeated (words_id self.now) seat.old chunk }
        requires place { place ≡ head_place (words_id self.now).slots chunk }
        requires hold { HasHold chunk seat.old.me.0 }
        ensures same { StaysSeated seat.old seat.new }
        ensures told { label_load_tells chunk 0 seat.old.me result seat.new.me }
    {
        self.table
            .shared
            .load::<LoadLabel>(seat, self.label_by(place, chunk))
    }

    /// A load of a further word, by a hold.
    pub fn word_of(&self, seat: &mut Seat, chunk: u32, place: usize, index: u32) -> u64
        requires seat { IsSeated (words_id self.now) seat.old chunk }
        requires place { place ≡ head_place (words_id self.now).slots chunk }
        requires index { index < (words_id self.now).slots }
        requires hold { HasHold chunk seat.old.me.0 }
        ensures same { StaysSeated seat.old seat.new }
        ensures told { word_load_tells index chunk 0 seat.old.me result seat.new.me }
    {
        self.table
            .shared
            .load::<LoadWord>(seat, self.word_by(place, chunk, index))
    }

    fn see_by<B: Limited>(&self, chunk: u32) -> (u64, Seat)
        requires chunk { HasChunk (words_id self.now) chunk }
        requires limit { B.limit ≡ (config_of self.now).refs_limit }
        ensures found { Found result.0 (IsAnyHead B.limit) }
        ensures seen { result.1.me ≡ seen_me chunk result.0 }
        ensures table { result.1.table_id ≡ words_id self.now }
    {
        self.table
            .shared
            .load_new_seat::<LoadWithoutSeat<B>>(self.head_at(chunk))
    }

    /// A load of a head word, without a seat. It makes one, which has that load in its list and no sheet.
    pub fn see(&self, chunk: u32) -> (u64, Seat)
        requires { HasChunk (words_id self.now) chunk }
        ensures found { Found result.0 (IsAnyHead (config_of self.now).refs_limit) }
        ensures seen { result.1.me ≡ seen_me chunk result.0 }
        ensures table { result.1.table_id ≡ words_id self.now }
    {
        self.see_by::<Brand>(chunk)
    }

    /// A load of a time word, without a seat.
    pub fn see_time_unlisted(&self, chunk: u32) -> u64
        requires { HasChunk (words_id self.now) chunk }
    {
        self.table.shared.peek(self.time_at(chunk))
    }
}

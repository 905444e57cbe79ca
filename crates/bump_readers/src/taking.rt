//! References that readers have: taken, given back, and what a hold and a caller without a seat may read.
ghost use Rattle.std.specs.Prelude.{◌≡◌, ◌<◌, ◌≤◌, IfOk, IsSome, None, List, option_map};
ghost use Rattle.bump_rules.specs.declared.items.Head.{Head as TheHead};
ghost use Rattle.bump_rules.specs.Lawful.{bit};
ghost use Rattle.bump_word.specs.Words.{Fits, word_of};
ghost use Rattle.bump_readers.specs.Seats.{spent_me, row_in};
ghost use Rattle.bump_steps.specs.Rule.{chunks as all_chunks};
ghost use Rattle.bump_readers.specs.Taking.{Took, TookAny, IsTakenBy, whole_hold};
ghost use Rattle.bump_steps.specs.References.{IsRow, label_of_row, word_of_row, words_in, hold_after_load, seen_me};

use crate::heads::ReaderHeads;
use crate::holds::Hold;
use crate::names::Name;
use crate::workers::WorkerSeat;
use bump_rules::{Head, ItemId};
use bump_steps::{AnyRefusal, RowLaw, Seat, TakeRefusal, head_of};
use std::marker::PhantomData;

impl<N: Name> Hold<N> {
    // Only a hold whose reference was given back may go: it is hollow, and the seat that it had has the mark of the
    // step that gave back a reference to its life, and nothing else.
    fn forget(self, spent: &Seat, found: Head)
        requires hollow { self.sheet ≡ None }
        requires spent { spent.now.me ≡ spent_me self.life (word_of found) }
    {
        let _seat = spent;
        let _head = found;
        let Hold {
            badge: _,
            life: _,
            place: _,
            of: _,
        } = self;
    }
}

impl<N: Name, L: RowLaw> ReaderHeads<N, L> {
    /// Takes a reference to the life, as memcached's `refcount_incr` in `do_item_get`. The worker's seat has no hold
    /// joined, and the chunk is one of the store's.
    ///
    /// It makes one load and at most 8 exchanges. Each exchange expects the word that the step before it found, and
    /// fails where another thread changed it since. By the word that was found last the answer is
    /// 1. Stale, where the chunk isn't linked or has another generation than the life;
    /// 2. RefsFull, where its reference count is at the limit;
    /// 3. a hold, where the exchange found that word again.
    ///
    /// Busy is answered where 8 exchanges failed, whatever the last of them found. A refusal changes nothing: all
    /// that is new to the worker is the list of its steps, of which none changed a word.
    ///
    /// The hold has the life's words, its label and its further ones, which were stored before it began: each read of one
    /// tells the same, and the law of the table holds of them.
    #[inline(always)]
    pub fn take(&self, worker: &mut WorkerSeat<N>, life: ItemId) -> Result<Hold<N>, TakeRefusal>
        requires alone { worker.old.hold ≡ None }
        requires chunk { life.chunk < all_chunks self.now }
        ensures took { (first : TheHead) × (more : List TheHead)
            × Took self.now.refs_limit life worker.old worker.new result first more }
        ensures alone { worker.new.hold ≡ None }
        ensures hold { IfOk result (λ h. h ≡ whole_hold life (row_in h.sheet)) }
        ensures row { IfOk result (λ h. IsRow N.table.slots (row_in h.sheet)) }
        ensures law { IfOk result (λ h. L.law (words_in (row_in h.sheet))) }
    {
        let place = self.words.head_at(life.chunk);
        if let Some(refusal) = self.words.take(&mut worker.seat, life, place, &self.limit) {
            return Err(refusal);
        }
        let sheet = self.words.part_holds(&mut worker.seat);
        Ok(Hold {
            badge: sheet.into_badge(),
            life,
            place,
            of: PhantomData,
        })
    }

    /// Takes a reference to whatever life is linked in the chunk, which is one of the store's, and answers the hold and
    /// the head by which it was taken, as it was before: whether it has both marks is known from it, with no further
    /// step. The worker's seat has no hold joined.
    ///
    /// It makes the steps of `take`, and adds a reference to the life that the word found has. By the word that was
    /// found last the answer is
    /// 1. Gone, where the chunk isn't linked;
    /// 2. RefsFull, where its reference count is at the limit;
    /// 3. a hold, where the exchange found that word again: of the chunk's life in the generation that is in it.
    ///
    /// Busy is answered where 8 exchanges failed, whatever the last of them found. A refusal changes nothing: all
    /// that is new to the worker is the list of its steps, of which none changed a word.
    #[inline(always)]
    pub fn take_any(
        &self,
        worker: &mut WorkerSeat<N>,
        chunk: u32,
    ) -> Result<(Hold<N>, Head), AnyRefusal>
        requires alone { worker.old.hold ≡ None }
        requires chunk { chunk < all_chunks self.now }
        ensures took { (first : TheHead) × (more : List TheHead)
            × TookAny self.now.refs_limit chunk worker.old worker.new result first more }
        ensures alone { worker.new.hold ≡ None }
        ensures chunk { IfOk result (λ told. told.0.life.chunk ≡ chunk) }
        ensures found { IfOk result (λ told. IsTakenBy self.now.refs_limit told.0.life told.1) }
        ensures hold { IfOk result (λ told. told.0 ≡ whole_hold told.0.life (row_in told.0.sheet)) }
        ensures row { IfOk result (λ told. IsRow N.table.slots (row_in told.0.sheet)) }
        ensures law { IfOk result (λ told. L.law (words_in (row_in told.0.sheet))) }
    {
        let at = self.words.head_at(chunk);
        let word = match self
            .words
            .take_any(&mut worker.seat, chunk, at, &self.limit)
        {
            Ok(word) => word,
            Err(refusal) => return Err(refusal),
        };
        let sheet = self.words.part_holds(&mut worker.seat);
        let found = head_of(word);
        let hold = Hold {
            badge: sheet.into_badge(),
            life: ItemId {
                chunk,
                generation: found.generation,
            },
            place: at,
            of: PhantomData,
        };
        Ok((hold, found))
    }

    /// Gives the hold's reference back by one subtraction, as memcached's `refcount_decr` in `do_item_remove`, and
    /// answers the head before it: of the hold's life, and with a count of at least 1. With it comes the seat that the
    /// hold had: it has the mark of the step, which found that head, and nothing else. The hold is whole. Its chunk may
    /// become free from then on.
    pub fn give_back(&self, hold: Hold<N>) -> (Head, Seat)
        requires whole { IsSome hold.sheet }
        ensures generation { result.0.generation ≡ hold.life.generation }
        ensures counted { 0 < result.0.refs }
        ensures fits { Fits result.0 }
        ensures spent { result.1.me ≡ spent_me hold.life (word_of result.0) }
        ensures table { result.1.table_id ≡ N.table }
    {
        let mut held = hold;
        let (head, spent) = self.release(&mut held);
        held.forget(&spent, head);
        (head, spent)
    }

    // The reference is given back, so that the hold is hollow from then on. Its seat, which is answered too, has the
    // mark of the step, which found the head that is answered.
    fn release(&self, hold: &mut Hold<N>) -> (Head, Seat)
        requires whole { IsSome hold.old.sheet }
        ensures hollow { hold.new ≡ record hold.old { sheet = None } }
        ensures generation { result.0.generation ≡ hold.old.life.generation }
        ensures counted { 0 < result.0.refs }
        ensures fits { Fits result.0 }
        ensures spent { result.1.me ≡ spent_me hold.old.life (word_of result.0) }
        ensures table { result.1.table_id ≡ N.table }
    {
        let mut seat = hold.seat_out();
        let head = head_of(self.words.give_back(&mut seat, hold.life.chunk, hold.place));
        (head, seat)
    }

    /// The chunk's label, by one load: a number that was stored before the hold's life began, as memcached's key and
    /// value of an item are. It is the first word of the hold's row. The hold is whole, and nothing changes.
    pub fn label_of(&self, hold: &mut Hold<N>) -> u64
        requires whole { IsSome hold.old.sheet }
        ensures is { result ≡ label_of_row (row_in hold.old.sheet) }
        ensures same { hold.new ≡ hold.old }
    {
        let mut seat = hold.seat_out();
        let label = self.words.label_of(&mut seat, hold.life.chunk, hold.place);
        hold.seat_in(seat);
        label
    }

    /// One of the chunk's further words, by one load: a number that was stored before the hold's life began. It stands in
    /// the hold's row, behind the label. The hold is whole, and nothing changes.
    pub fn word_of(&self, hold: &mut Hold<N>, index: u32) -> u64
        requires whole { IsSome hold.old.sheet }
        requires index { index < N.table.slots }
        ensures is { result ≡ word_of_row (row_in hold.old.sheet) index }
        ensures same { hold.new ≡ hold.old }
    {
        let mut seat = hold.seat_out();
        let word = self
            .words
            .word_of(&mut seat, hold.life.chunk, hold.place, index);
        hold.seat_in(seat);
        word
    }

    /// Looks at the head of the item that the hold holds, by one load, and answers it: of the hold's life, and with a
    /// count of at least 1. The hold is whole, and its view keeps the word. Nothing else changes.
    pub fn load_head(&self, hold: &mut Hold<N>) -> Head
        requires whole { IsSome hold.old.sheet }
        ensures looked { hold.new ≡ record hold.old {
          sheet = option_map (hold_after_load (word_of result)) hold.old.sheet;
        } }
        ensures generation { result.generation ≡ hold.old.life.generation }
        ensures counted { 0 < result.refs }
        ensures fits { Fits result }
    {
        let mut seat = hold.seat_out();
        let head = head_of(
            self.words
                .load_of_hold(&mut seat, hold.life.chunk, hold.place),
        );
        hold.seat_in(seat);
        head
    }

    /// The head and the time of a chunk of the store, by two loads, between which other threads may change both. No
    /// seat is needed: the load of the head makes one, which comes with them. It has that load in its list, of this
    /// chunk and with the word of this head, and no sheet. Of the time nothing is promised.
    pub fn see(&self, chunk: u32) -> (Head, u64, Seat)
        requires chunk { chunk < all_chunks self.now }
        ensures seen { result.2.me ≡ seen_me chunk (word_of result.0) }
        ensures table { result.2.table_id ≡ N.table }
        ensures limit { result.0.refs ≤ self.now.refs_limit }
        ensures linked { bit result.0.linked ≤ result.0.refs }
        ensures active { bit result.0.active ≤ bit result.0.fetched }
        ensures fits { Fits result.0 }
    {
        let (word, seat) = self.words.see(chunk);
        (head_of(word), self.words.see_time_unlisted(chunk), seat)
    }
}

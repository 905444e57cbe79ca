//! A shelf that threads share.
ghost use Rattle.std.specs.Prelude.{◌≡◌, ◌+◌, ◌-◌, ◌<◌, [], ◌∷◌, None, Some, length, replicate, slice_get};
ghost use Rattle.call_log.specs.Calls.{MakesOne, OnlyLooks, to_of};
ghost use Rattle.call_tests.specs.Shelves.{Puts, Takes, from_of, now_of, number_in};

use crate::shelf::{Shelf, ShelfState};
use call_log::{Caller, LogBlank, LogName, Logged};
use std::marker::Model;
use std::sync::{Mutex, Wait};

/// What a store tells of itself.
#[derive(Clone, Copy)]
pub struct Stats {
    /// How many calls changed it. The first is the one that opened it.
    pub calls: u64,

    /// How many places have a number.
    pub number: usize,
}

// What lies under the lock: the only value of its log.
#[derive(Drop)]
struct Alone<N: LogName> {
    logged: Logged<N, Shelf<N>, ShelfState>,
}

impl<N: LogName> Model for Alone<N> {
    ghost use Rattle.std.specs.Prelude.{◌≡◌, ℕ, List, Option};
    ghost use Rattle.call_log.specs.Logs.{LogView};

    ghost Value = { LogView (List (Option ℕ)) };

    ghost view = { λ a. a.logged };

    ghost invariant = { λ a. a.logged.values ≡ 1 };
}

/// A shelf under a lock.
#[derive(Drop)]
pub struct Store<N: LogName> {
    shelf: Mutex<Alone<N>>,
}

impl<N: LogName> Store<N> {
    /// A store with no number, and its first caller, which has made one call: the one that opens the store.
    pub fn open<W: Wait>(rt: &W, blank: LogBlank<ShelfState>) -> (Store<N>, Caller<N, ShelfState>)
        requires book { blank.book ≡ N.book }
        requires name { blank.name ≡ N.name }
        requires parts { blank.parts ≡ N.parts }
        requires one { blank.values ≡ 1 }
        requires part { 1 < N.parts }
        ensures { result.1 ≡ record { first = []; log = replicate 64 None ∷ []; calls = 1; parts = N.parts - 1 } }
    {
        let (mut logs, mut me) = blank.open::<N>();
        let logged = Logged::new(rt, logs.take(), &mut me, Shelf::<N>::new());
        let shelf = Mutex::new(Alone { logged });
        (Store { shelf }, me)
    }

    /// Puts a number at a place, and answers what the place had.
    pub fn put<W: Wait>(
        &self,
        rt: &W,
        me: &mut Caller<N, ShelfState>,
        place: usize,
        number: u64,
    ) -> Option<u64>
        requires part { 0 < me.old.parts }
        requires place { place < 64 }
        ensures call { MakesOne me.old me.new }
        ensures put { Puts place number (from_of me.new) result (to_of me.new) }
    {
        let mut guard = self.shelf.lock(rt);
        let logged = &mut guard.logged;
        let had = logged.value.put(place, number);
        logged.log.note(rt, me, &logged.value);
        had
    }

    /// Takes the number of a place, if it has one.
    pub fn take<W: Wait>(&self, rt: &W, me: &mut Caller<N, ShelfState>, place: usize) -> Option<u64>
        requires part { 0 < me.old.parts }
        requires place { place < 64 }
        ensures call { MakesOne me.old me.new }
        ensures taken { Takes place (from_of me.new) result (to_of me.new) }
    {
        let mut guard = self.shelf.lock(rt);
        let logged = &mut guard.logged;
        let had = logged.value.take(place);
        logged.log.note(rt, me, &logged.value);
        had
    }

    /// What a place has.
    pub fn get<W: Wait>(&self, rt: &W, me: &mut Caller<N, ShelfState>, place: usize) -> Option<u64>
        requires place { place < 64 }
        ensures look { OnlyLooks me.old me.new }
        ensures held { slice_get (now_of me.new) place ≡ Some result }
    {
        let mut guard = self.shelf.lock(rt);
        let logged = &mut guard.logged;
        logged.log.show(rt, me);
        logged.value.get(place)
    }

    /// What the store tells of itself: exactly, at one moment, which isn't before the caller looked last. Whoever has the
    /// parts of all callers knows how many calls there were.
    pub fn stats<W: Wait>(&self, rt: &W, me: &mut Caller<N, ShelfState>) -> Stats
        ensures look { OnlyLooks me.old me.new }
        ensures calls { result.calls ≡ length me.new.log }
        ensures number { result.number ≡ number_in (now_of me.new) }
        ensures whole { me.old.parts + 1 ≡ N.parts → result.calls ≡ me.old.calls }
    {
        let mut guard = self.shelf.lock(rt);
        let logged = &mut guard.logged;
        logged.log.show(rt, me);
        Stats {
            calls: logged.log.calls(),
            number: logged.value.number(),
        }
    }
}

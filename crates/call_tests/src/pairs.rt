//! Two shelves that threads share, with one log.
ghost use Rattle.std.specs.Prelude.{◌≡◌, ◌-◌, ◌<◌, None, Some, replicate, slice_get};
ghost use Rattle.call_log.specs.Calls.{MakesOne, OnlyLooks, to_of};
ghost use Rattle.call_tests.specs.Pairs.{from_of, now_of};
ghost use Rattle.call_tests.specs.Shelves.{Puts};

use crate::shelf::Shelf;
use call_log::{Caller, LogBlank, LogName, Logged, Shows, State};
use std::marker::{Model, PhantomData};
use std::sync::{Mutex, Wait};

/// Which of the two shelves it is.
pub trait Side {
    ghost use Rattle.std.specs.Prelude.{ℕ};

    ghost number: { ℕ };
}

/// The shelf of number 0.
pub struct First;

impl Side for First {
    ghost number = { 0 };
}

/// The shelf of number 1.
pub struct Second;

impl Side for Second {
    ghost number = { 1 };
}

/// One of the two shelves.
#[derive(Drop)]
pub struct Half<N: LogName, S: Side> {
    shelf: Shelf<N>,
    of: PhantomData<S>,
}

impl<N: LogName, S: Side> Model for Half<N, S> {
    ghost use Rattle.call_tests.specs.Pairs.{HalfView};

    ghost Value = { HalfView };

    ghost view = { λ h. record { number = S.number; places = h.shelf } };
}

impl<N: LogName, S: Side> Half<N, S> {
    // One with no number.
    fn new() -> Half<N, S>
        ensures { result ≡ record { number = S.number; places = replicate 64 None } }
    {
        Half {
            shelf: Shelf::new(),
            of: PhantomData,
        }
    }

    // Puts a number at a place, and answers what the place had.
    fn put(&mut self, place: usize, number: u64) -> Option<u64>
        requires { place < 64 }
        ensures put { Puts place number self.old.places result self.new.places }
        ensures number { (self.old.number ≡ S.number) × (self.new.number ≡ S.number) }
    {
        self.shelf.put(place, number)
    }

    // What a place has.
    fn get(&self, place: usize) -> Option<u64>
        requires { place < 64 }
        ensures held { slice_get self.now.places place ≡ Some result }
        ensures number { self.now.number ≡ S.number }
    {
        self.shelf.get(place)
    }
}

/// What stands for the states of both shelves.
pub struct PairState;

impl Model for PairState {
    ghost use Rattle.std.specs.Prelude.{[]};
    ghost use Rattle.call_tests.specs.Pairs.{HalfView};

    ghost Value = { HalfView };

    ghost view = { λ s. record { number = 0; places = [] } };
}

impl State for PairState {
    ghost use Rattle.std.specs.Prelude.{[]};
    ghost use Rattle.call_tests.specs.Pairs.{number_of};

    ghost some_state = { record { number = 0; places = [] } };

    ghost number = { number_of };
}

impl<N: LogName, S: Side> Shows<PairState> for Half<N, S> {
    ghost shown = { λ h. h };
}

type Locked<N, S> = Mutex<Logged<N, Half<N, S>, PairState>>;

/// Two shelves, each under a lock of its own.
#[derive(Drop)]
pub struct Pair<N: LogName> {
    first: Locked<N, First>,
    second: Locked<N, Second>,
}

// Puts a number at a place of a shelf.
fn put_in<N: LogName, S: Side, W: Wait>(
    half: &Locked<N, S>,
    rt: &W,
    me: &mut Caller<N, PairState>,
    place: usize,
    number: u64,
) -> Option<u64>
    requires part { 0 < me.old.parts }
    requires place { place < 64 }
    ensures call { MakesOne me.old me.new }
    ensures put { Puts place number (from_of me.new).places result (to_of me.new).places }
    ensures from { (from_of me.new).number ≡ S.number }
    ensures to { (to_of me.new).number ≡ S.number }
{
    let mut guard = half.lock(rt);
    let logged = &mut *guard;
    let had = logged.value.put(place, number);
    logged.log.note(rt, me, &logged.value);
    had
}

// What a place of a shelf has.
fn get_in<N: LogName, S: Side, W: Wait>(
    half: &Locked<N, S>,
    rt: &W,
    me: &mut Caller<N, PairState>,
    place: usize,
) -> Option<u64>
    requires place { place < 64 }
    ensures look { OnlyLooks me.old me.new }
    ensures held { slice_get (now_of S.number me.new).places place ≡ Some result }
    ensures of { (now_of S.number me.new).number ≡ S.number }
{
    let mut guard = half.lock(rt);
    let logged = &mut *guard;
    logged.log.show(rt, me);
    logged.value.get(place)
}

impl<N: LogName> Pair<N> {
    /// Two shelves with no number, and their first caller, which has made two calls: those that noted them.
    pub fn open<W: Wait>(rt: &W, blank: LogBlank<PairState>) -> (Pair<N>, Caller<N, PairState>)
        requires book { blank.book ≡ N.book }
        requires name { blank.name ≡ N.name }
        requires parts { blank.parts ≡ N.parts }
        requires two { blank.values ≡ 2 }
        requires part { 2 < N.parts }
        ensures calls { result.1.calls ≡ 2 }
        ensures parts { result.1.parts ≡ N.parts - 2 }
        ensures second { to_of result.1 ≡ record { number = 1; places = replicate 64 None } }
    {
        let (mut logs, mut me) = blank.open::<N>();
        let first_log = logs.take();
        let second_log = logs.take();
        let first = Logged::new(rt, first_log, &mut me, Half::<N, First>::new());
        let second = Logged::new(rt, second_log, &mut me, Half::<N, Second>::new());
        let pair = Pair {
            first: Mutex::new(first),
            second: Mutex::new(second),
        };
        (pair, me)
    }

    /// Puts a number at a place of the shelf of number 0 or 1, and answers what the place had. The other shelf stays as
    /// it is.
    pub fn put<W: Wait>(
        &self,
        rt: &W,
        me: &mut Caller<N, PairState>,
        shelf: usize,
        place: usize,
        number: u64,
    ) -> Option<u64>
        requires part { 0 < me.old.parts }
        requires shelf { shelf < 2 }
        requires place { place < 64 }
        ensures call { MakesOne me.old me.new }
        ensures put { Puts place number (from_of me.new).places result (to_of me.new).places }
        ensures from { (from_of me.new).number ≡ shelf }
        ensures to { (to_of me.new).number ≡ shelf }
    {
        if shelf == 0 {
            put_in(&self.first, rt, me, place, number)
        } else {
            put_in(&self.second, rt, me, place, number)
        }
    }

    /// What a place of the shelf of number 0 or 1 has.
    pub fn get<W: Wait>(
        &self,
        rt: &W,
        me: &mut Caller<N, PairState>,
        shelf: usize,
        place: usize,
    ) -> Option<u64>
        requires shelf { shelf < 2 }
        requires place { place < 64 }
        ensures look { OnlyLooks me.old me.new }
        ensures held { slice_get (now_of shelf me.new).places place ≡ Some result }
        ensures of { (now_of shelf me.new).number ≡ shelf }
    {
        if shelf == 0 {
            get_in(&self.first, rt, me, place)
        } else {
            get_in(&self.second, rt, me, place)
        }
    }
}

//! A shelf, by one thread.
ghost use Rattle.std.specs.Prelude.{◌≡◌, ◌<◌, [], None, replicate, slice_get, Some};
ghost use Rattle.call_tests.specs.Shelves.{Puts, Takes, number_in};

use call_log::{LogName, Shows, State};
use std::marker::{Model, PhantomData};

/// 64 places, each of which has a number or none. Contracts see it as the list of the places. It has the name of the log
/// that it lies beside, as the state of a table does whose parts have the table's name.
#[derive(Drop)]
pub struct Shelf<N: LogName> {
    places: [Option<u64>; 64],
    of: PhantomData<N>,
}

impl<N: LogName> Model for Shelf<N> {
    ghost use Rattle.std.specs.Prelude.{ℕ, List, Option};

    ghost Value = { List (Option ℕ) };

    ghost view = { λ s. s.places };
}

/// What stands for a shelf's states: it has no name.
pub struct ShelfState;

impl Model for ShelfState {
    ghost use Rattle.std.specs.Prelude.{ℕ, List, Option, []};

    ghost Value = { List (Option ℕ) };

    ghost view = { λ s. [] };
}

impl State for ShelfState {
    ghost some_state = { [] };

    ghost number = { λ s. 0 };
}

impl<N: LogName> Shows<ShelfState> for Shelf<N> {
    ghost shown = { λ s. s };
}

impl<N: LogName> Shelf<N> {
    /// A shelf with no number.
    pub fn new() -> Shelf<N>
        ensures { result ≡ replicate 64 None }
    {
        Shelf {
            places: [None; 64],
            of: PhantomData,
        }
    }

    /// Puts a number at a place, and answers what the place had.
    pub fn put(&mut self, place: usize, number: u64) -> Option<u64>
        requires { place < 64 }
        ensures { Puts place number self.old result self.new }
    {
        let had = self.places[place];
        self.places[place] = Some(number);
        had
    }

    /// Takes the number of a place, if it has one.
    pub fn take(&mut self, place: usize) -> Option<u64>
        requires { place < 64 }
        ensures { Takes place self.old result self.new }
    {
        let had = self.places[place];
        self.places[place] = None;
        had
    }

    /// What a place has.
    pub fn get(&self, place: usize) -> Option<u64>
        requires { place < 64 }
        ensures { slice_get self.now place ≡ Some result }
    {
        self.places[place]
    }

    /// How many places have a number.
    pub fn number(&self) -> usize
        ensures { result ≡ number_in self.now }
    {
        self.places.iter().filter(|place| place.is_some()).count()
    }
}

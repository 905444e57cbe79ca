//! What was seen of a log. It has no bytes.
ghost use Rattle.std.specs.Prelude.{◌≡◌, [], ◌∷◌, ◌<◌};
ghost use Rattle.call_log.specs.Asked.{HasAsked, IsTally};
ghost use Rattle.call_log.specs.Fronts.{Extends, IsAdded, IsSeen};
ghost use Rattle.call_log.specs.Laws.{head_of};
ghost use Rattle.call_log.specs.Logs.{calls_of};
ghost use Rattle.call_log.specs.Tallies.{number_asked};

use crate::law::{Add, Counted, Law, Look, Step};
use crate::names::{LogName, Shows, State};
use crate::tallies::{Tallies, Tally};
use logbook::{Plain, Seen, Word};
use std::marker::{Model, PhantomData};

/// A value's word. It stays 0: a step on it is one on the log. Contracts see it as the value's number.
#[derive(Drop)]
pub(crate) struct Head<N: LogName, E: State> {
    word: Word<(E, u64), u64, Law>,
    of: PhantomData<N>,
}

impl<N: LogName, E: State> Model for Head<N, E> {
    ghost use Rattle.std.specs.Prelude.{◌≡◌, ℕ};
    ghost use Rattle.call_log.specs.Laws.{head_of};

    ghost Value = { ℕ };

    ghost view = { λ h. h.word.key };

    ghost invariant = { λ h. h.word ≡ head_of h.word.key N.book };
}

impl<N: LogName, E: State> Head<N, E> {
    /// The word of the value of this number.
    pub(crate) fn new(word: Word<(E, u64), u64, Law>) -> Head<N, E>
        requires { word ≡ head_of word.key N.book }
        ensures { result ≡ word.key }
    {
        Head {
            word,
            of: PhantomData,
        }
    }
}

/// What was seen of a log.
#[derive(Drop)]
pub(crate) struct Front<N: LogName, E: State> {
    seen: Seen<(E, u64), u64, Law>,
    of: PhantomData<N>,
}

impl<N: LogName, E: State> Model for Front<N, E> {
    ghost use Rattle.std.specs.Prelude.{◌≡◌, [], ◌∷◌};
    ghost use Rattle.call_log.specs.Fronts.{FrontView};
    ghost use Rattle.call_log.specs.Laws.{HasBegun, first_in, states_in, values_in};
    ghost use Rattle.call_log.specs.Tallies.{name_in};

    ghost Value = { FrontView E };

    ghost view = { λ f. record {
      first = first_in E.some_state f.seen.log;
      log = states_in f.seen.log;
      values = values_in f.seen.log;
      name = name_in f.seen.names;
    } };

    ghost invariant = { λ f. (f.seen.book ≡ N.book) × HasBegun f.seen.log
        × (f.seen.names ≡ name_in f.seen.names ∷ []) };
}

impl<N: LogName, E: State> Front<N, E> {
    /// What was seen of a log of so many values that has the state alone that it begins with.
    pub(crate) fn new(seen: Seen<(E, u64), u64, Law>, values: u32, tallies: &Tallies) -> Front<N, E>
        requires book { seen.book ≡ N.book }
        requires log { seen.log ≡ (E.some_state, values) ∷ [] }
        requires names { seen.names ≡ tallies.now.name ∷ [] }
        ensures { result ≡ record { first = E.some_state; log = []; values = values; name = tallies.now.name } }
    {
        let _ = values;
        let _ = tallies;
        Front {
            seen,
            of: PhantomData,
        }
    }

    /// A copy.
    pub(crate) fn again(&self) -> Front<N, E>
        ensures { result ≡ self.now }
    {
        Front {
            seen: self.seen.again(),
            of: PhantomData,
        }
    }

    /// Both know what either knew.
    pub(crate) fn learn(&mut self, other: &Front<N, E>)
        ensures this { Extends self.old self.new }
        ensures that { Extends other.now self.new }
    {
        self.seen.learn(&other.seen);
    }

    // What the log has once a request about a value was done, in one step, behind all that either had seen.
    fn step<X, M: Plain<X, (E, u64), u64>>(
        &self,
        other: &Front<N, E>,
        head: &Head<N, E>,
        tally: &mut Tally,
        about: &X,
    ) -> Front<N, E>
        requires of { head.now < self.now.values }
        requires request { number_asked E.number (M.ask about.now) ≡ head.now }
        requires tally { IsTally self.now.name head.now (calls_of E.number head.now self.now.log) tally.old }
        ensures did { HasAsked E.number (M.ask about.now) self.now other.now result }
        ensures tally { IsTally result.name head.now (calls_of E.number head.now result.log) tally.new }
    {
        let mut seen = self.seen.again();
        seen.learn(&other.seen);
        let mut offer = tally.ask::<E, X, M>(about);
        let _ = head.word.load::<Step, Counted>(&mut seen, &mut offer);
        tally.settle::<E>(offer.into_gain());
        Front {
            seen,
            of: PhantomData,
        }
    }

    /// What the log has now, and what either had seen: it has as many states of the word's number as the first.
    pub(crate) fn look(
        &self,
        other: &Front<N, E>,
        head: &Head<N, E>,
        tally: &mut Tally,
    ) -> Front<N, E>
        requires of { head.now < self.now.values }
        requires tally { IsTally self.now.name head.now (calls_of E.number head.now self.now.log) tally.old }
        ensures seen { IsSeen E.number head.now self.now other.now result }
        ensures tally { IsTally self.now.name head.now (calls_of E.number head.now self.now.log) tally.new }
    {
        self.step::<Head<N, E>, Look>(other, head, tally, head)
    }

    /// What the log has once the state that a value shows was added to it, in one step, behind all that either had
    /// seen.
    pub(crate) fn add<V: Shows<E>>(
        &self,
        other: &Front<N, E>,
        head: &Head<N, E>,
        tally: &mut Tally,
        value: &V,
    ) -> Front<N, E>
        requires of { head.now < self.now.values }
        requires number { E.number (V.shown value.now) ≡ head.now }
        requires tally { IsTally self.now.name head.now (calls_of E.number head.now self.now.log) tally.old }
        ensures added { IsAdded E.number head.now (V.shown value.now) self.now other.now result }
        ensures name { result.name ≡ self.now.name }
        ensures tally { IsTally result.name head.now (calls_of E.number head.now result.log) tally.new }
    {
        self.step::<V, Add>(other, head, tally, value)
    }
}

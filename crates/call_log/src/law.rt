//! The rule of a log: it has a word for each value, and keeps how many calls each value had.
use crate::fronts::Head;
use crate::names::{LogName, Shows, State};
use logbook::{Gain, Opening, Plain, Play, Rule};

/// The log begins from a state, and beside it lies how many of the states behind that one are of each value.
pub(crate) struct Law;

impl<E: State> Rule<(E, u64), u64> for Law {
    ghost use Rattle.std.specs.Prelude.{[]};
    ghost use Rattle.call_log.specs.Laws.{IsKept};
    ghost use Rattle.call_log.specs.Tallies.{IsDone, keeps_tallies};

    ghost holds = { λ cells log. IsKept E.number cells log };

    ghost first = { [] };

    ghost hinted = { λ n log. Unit {0} };

    ghost shows = { λ log. log };

    ghost keeps = { λ names log. keeps_tallies E.number names log };

    ghost moves = { λ ask before after answer. IsDone E.number ask before after answer };
}

/// What a value has once its request was done: its part of the number again, and that the answer is as it was known.
pub(crate) struct Counted;

impl<E> Gain<(E, u64), u64> for Counted {
    ghost use Rattle.call_log.specs.Tallies.{gains_tally};

    ghost after = { λ names known answer. gains_tally names known answer };
}

/// A log begins with one state, which stands for nothing: there is no value then. Beside it stands how many there will
/// be.
pub(crate) struct Begin;

impl<E: State> Opening<u32, (E, u64)> for Begin {
    ghost use Rattle.std.specs.Prelude.{[], ◌∷◌};

    ghost log = { λ count about. (E.some_state, count) ∷ [] };
}

/// A step that does what a request asks for.
pub(crate) struct Step;

impl<E: State> Play<(E, u64), u64> for Step {
    ghost use Rattle.call_log.specs.Steps.{Steps};

    ghost then = { Steps E.number };
}

/// A request to add a state.
pub(crate) struct Add;

impl<E: State, V: Shows<E>> Plain<V, (E, u64), u64> for Add {
    ghost use Rattle.std.specs.Prelude.{None};

    ghost ask = { λ value. (V.shown value, 0) };

    ghost state = { λ value. None };
}

/// A request to look at a value.
pub(crate) struct Look;

impl<N: LogName, E: State> Plain<Head<N, E>, (E, u64), u64> for Look {
    ghost use Rattle.std.specs.Prelude.{None, suc};

    ghost ask = { λ head. (E.some_state, suc head) };

    ghost state = { λ head. None };
}

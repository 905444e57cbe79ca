//! How many calls each value had, as the law keeps it, and who may add to it. It has no bytes.
//!
//! The law keeps a part of each value's number, and the other part lies with the value. A step changes the number, and
//! needs both for it: so whoever has the value's part knows how many of the value's states the log has.
ghost use Rattle.std.specs.Prelude.{◌≡◌, ℕ, Bool, ◌+◌, ◌-◌, ◌<◌, true, false, [], ◌∷◌, None};
ghost use Rattle.call_log.specs.Tallies.{calls_asked, calls_known, known, number_asked, number_known};

use crate::law::{Counted, Law};
use crate::names::State;
use logbook::{Gained, Offer, Plain, Start};
use std::marker::{Model, PhantomData};

/// The parts of values that have got none yet.
pub(crate) struct Tallies {
    marker: PhantomData<()>,
    pub ghost name: { ℕ },
    pub ghost next: { ℕ },
    pub ghost left: { ℕ },
}

impl Model for Tallies {
    ghost use Rattle.logbook.specs.Kept.{pens_own};

    ghost also_owns = { λ t. pens_own t.name t.next t.left };
}

impl Drop for Tallies {
    fn drop(self) {
        let Self { marker: _ } = self;
    }
}

impl Tallies {
    /// No value had a call: what the law keeps of that, and the values' parts.
    pub(crate) fn begin<E: State>(values: u32) -> (Start<(E, u64), u64, Law>, Tallies)
        ensures names { result.0.names ≡ result.1.name ∷ [] }
        ensures shown { result.0.shown ≡ (E.some_state, values) ∷ [] }
        ensures next { result.1.next ≡ 0 }
        ensures left { result.1.left ≡ values }
    {
        (
            Start {
                marker: PhantomData,
            },
            Tallies {
                marker: PhantomData,
            },
        )
    }

    /// The part of the next value, which had no call.
    pub(crate) fn take(&mut self) -> Tally
        requires left { 0 < self.old.left }
        ensures name { result.name ≡ self.old.name }
        ensures number { result.number ≡ self.old.next }
        ensures here { result.here ≡ true }
        ensures calls { result.calls ≡ 0 }
        ensures rest { self.new ≡ record self.old { next = self.old.next + 1; left = self.old.left - 1 } }
    {
        Tally {
            marker: PhantomData,
        }
    }
}

/// A value's part of its own number of calls, unless it is with a step.
pub(crate) struct Tally {
    marker: PhantomData<()>,
    pub ghost name: { ℕ },
    pub ghost number: { ℕ },
    pub ghost here: { Bool },
    pub ghost calls: { ℕ },
}

impl Model for Tally {
    ghost use Rattle.call_log.specs.Tallies.{tally_owns};

    ghost also_owns = { λ t. tally_owns t.name t.number t.here t.calls };
}

impl Drop for Tally {
    fn drop(self) {
        let Self { marker: _ } = self;
    }
}

unsafe impl Send for Tally {}

impl Tally {
    /// Gives the part to a step, for a request about the value.
    pub(crate) fn ask<E: State, X, M: Plain<X, (E, u64), u64>>(
        &mut self,
        about: &X,
    ) -> Offer<(E, u64), u64, Law, Counted>
        requires here { self.old.here ≡ true }
        requires number { number_asked E.number (M.ask about.now) ≡ self.old.number }
        ensures names { result.names ≡ self.old.name ∷ [] }
        ensures request { result.ask ≡ M.ask about.now }
        ensures known { result.about ≡ known E.some_state self.old.number
            (calls_asked (M.ask about.now) self.old.calls) }
        ensures waits { result.state ≡ None }
        ensures tally { self.new ≡ record self.old { here = false } }
    {
        Offer {
            marker: PhantomData,
        }
    }

    /// Takes the part back from a step that did what was asked, and learns its answer.
    pub(crate) fn settle<E: State>(&mut self, gained: Gained<(E, u64), u64, Counted>)
        requires names { gained.names ≡ self.old.name ∷ [] }
        requires number { number_known gained.about ≡ self.old.number }
        ensures answer { gained.answer ≡ calls_known gained.about }
        ensures tally { self.new ≡ record self.old { here = true; calls = gained.answer } }
    {
        let Gained { marker: _ } = gained;
    }
}

//! Which log it is, and what its entries are.
use std::marker::Brand;
use std::sync::ledger::Ledger;

/// Which log it is, at the level of types: what is of two logs has two types, so it can't be mixed up. `Brand` stands
/// for one at a call, which picks it.
pub trait LogName: Ledger {
    ghost use Rattle.logbook.specs.Pages.{Book};

    ghost book: { Book };
}

impl LogName for Brand {
    ghost book = { record { number = 0; log_name = 0; cells_name = 0 } };
}

/// What a log can have as its states: a type that stands for them. No value of it is ever made; what counts is what
/// clauses see of it.
///
/// It is another type than the one of the value that the log lies beside. That one may have the log's name in it, and a
/// log begins before it has a name.
pub trait State {
    ghost use Rattle.std.specs.Prelude.{ℕ};

    /// Some state. A log begins with it, and it stands for nothing there. It is also what a list of states gives where it
    /// has none.
    ghost some_state: { Self };

    /// The number of the value that a state is of: 0 where the log has one value.
    ghost number: { Self → ℕ };
}

/// A value that shows a state of itself to a log with such states.
pub trait Shows<E> {
    /// The state that a value has.
    ghost shown: { Self → E };
}

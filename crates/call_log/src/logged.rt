//! A value with its log.
ghost use Rattle.std.specs.Prelude.{◌≡◌, ◌+◌, ◌<◌, length};
ghost use Rattle.call_log.specs.Calls.{MakesOne, from_of, to_of};
ghost use Rattle.call_log.specs.Logs.{Notes, last_state};

use crate::callers::Caller;
use crate::logs::Log;
use crate::names::{LogName, Shows, State};
use std::marker::Model;
use std::sync::Wait;

/// What lies under a lock in a value's place: the value, beside the log of the states that it showed. Contracts see it
/// as the log.
///
/// A call that changes the value notes it in the log: `logged.log.note(rt, me, &logged.value)`.
pub struct Logged<N: LogName, V: Shows<E>, E: State> {
    /// The value: it is as the last call of the log that is of its number left it.
    pub value: V,

    /// Its log.
    pub log: Log<N, E>,
}

impl<N: LogName, V: Shows<E>, E: State> Model for Logged<N, V, E> {
    ghost use Rattle.std.specs.Prelude.{◌≡◌};
    ghost use Rattle.call_log.specs.Logs.{LogView, last_state};

    ghost Value = { LogView E };

    ghost view = { λ l. l.log };

    ghost invariant = { λ l. (V.shown l.value ≡ last_state E.number l.log)
        × (E.number (V.shown l.value) ≡ l.log.number) };
}

impl<N: LogName, V: Shows<E> + Drop, E: State> Drop for Logged<N, V, E> {
    fn drop(self) {
        let Logged { value, log } = self;
        drop(value);
        drop(log);
    }
}

impl<N: LogName, V: Shows<E>, E: State> Logged<N, V, E> {
    /// A value with its log, for a lock. It notes the value, as the first call of it: the state that the log began with
    /// stands for nothing.
    ///
    /// It waits for nobody: `rt` stands there as in `note`.
    pub fn new<W: Wait>(rt: &W, log: Log<N, E>, me: &mut Caller<N, E>, value: V) -> Logged<N, V, E>
        requires part { 0 < me.old.parts }
        requires number { E.number (V.shown value) ≡ log.number }
        ensures log { Notes E.number (V.shown value) log result }
        ensures call { MakesOne me.old me.new }
        ensures from { from_of E.number me.new ≡ last_state E.number log }
        ensures to { to_of me.new ≡ V.shown value }
        ensures all { (me.new.first ≡ result.first) × (me.new.log ≡ result.log) }
        ensures whole { log.values ≡ 1 → me.old.parts + 1 ≡ N.parts → length me.new.log ≡ me.new.calls }
    {
        let mut log = log;
        log.note(rt, me, &value);
        Logged { value, log }
    }
}

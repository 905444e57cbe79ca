//! The log of a value, which lies under the value's lock, beside the value.
ghost use Rattle.std.specs.Prelude.{◌≡◌, ◌+◌, ◌<◌, [], length, true};
ghost use mathlib.Core.List.{IsPrefix};
ghost use Rattle.std.specs.Bool.{OnTrue, OnFalse};
ghost use Rattle.call_log.specs.Logs.{Notes, calls_of, last_state};
ghost use Rattle.call_log.specs.Asked.{IsTally};
ghost use Rattle.call_log.specs.Calls.{MakesOne, NotesCall, OnlyLooks, from_of, now_of, to_of};

use crate::callers::Caller;
use crate::counts::Count;
use crate::fronts::{Front, Head};
use crate::names::{LogName, Shows, State};
use crate::tallies::Tally;
use std::marker::Model;
use std::sync::Wait;

/// The log of a value: the states that it showed, between those of the other values of the log. It has all of its own
/// where it lies under the value's lock, as in `Logged`. At run time it is two numbers, and whether there are other
/// values.
#[derive(Drop)]
pub struct Log<N: LogName, E: State> {
    head: Head<N, E>,
    count: Count<N>,
    tally: Tally,
    front: Front<N, E>,
}

impl<N: LogName, E: State> Model for Log<N, E> {
    ghost use Rattle.std.specs.Prelude.{◌≡◌, ◌<◌, true};
    ghost use Rattle.call_log.specs.Asked.{IsTally};
    ghost use Rattle.call_log.specs.Fronts.{AreNumbered};
    ghost use Rattle.call_log.specs.Logs.{LogView, calls_of};

    ghost Value = { LogView E };

    ghost view = { λ l. record {
      first = l.front.first;
      log = l.front.log;
      number = l.head;
      values = l.front.values;
    } };

    ghost invariant = { λ l. (l.head < l.front.values) × (l.count.calls ≡ calls_of E.number l.head l.front.log)
        × AreNumbered E.number l.front.values l.front.log × (l.front.values ≡ 1 → l.count.alone ≡ true)
        × IsTally l.front.name l.head l.count.calls l.tally };
}

impl<N: LogName, E: State> Log<N, E> {
    pub(crate) fn new(
        head: Head<N, E>,
        front: Front<N, E>,
        count: Count<N>,
        tally: Tally,
    ) -> Log<N, E>
        requires number { head < front.values }
        requires log { front.log ≡ [] }
        requires calls { count.calls ≡ 0 }
        requires tally { IsTally front.name head 0 tally }
        requires alone { front.values ≡ 1 → count.alone ≡ true }
        ensures { result ≡ record { first = front.first; log = []; number = head; values = front.values } }
    {
        Log {
            head,
            count,
            tally,
            front,
        }
    }

    /// How many calls its value had.
    pub fn calls(&self) -> u64
        ensures calls { result ≡ calls_of E.number self.now.number self.now.log }
        ensures alone { self.now.values ≡ 1 → result ≡ length self.now.log }
    {
        self.count.calls()
    }

    // Notes a call, if its value may have one more.
    fn try_to_note<V: Shows<E>>(&mut self, me: &mut Caller<N, E>, value: &V) -> bool
        requires part { 0 < me.old.parts }
        requires number { E.number (V.shown value.now) ≡ self.old.number }
        ensures noted { OnTrue result (NotesCall E.number (V.shown value.now) self.old self.new me.old me.new) }
        ensures whole { OnTrue result (self.old.values ≡ 1 → me.old.parts + 1 ≡ N.parts
            → length me.new.log ≡ me.new.calls) }
        ensures unchanged { OnFalse result ((self.new ≡ self.old) × (me.new ≡ me.old)) }
    {
        if self.count.calls() == u64::MAX {
            return false;
        }
        let front = self
            .front
            .add(&me.front, &self.head, &mut self.tally, value);
        self.count.pay(&mut me.share);
        self.count.audit(&mut me.share);
        me.front = front.again();
        self.front = front;
        true
    }

    /// Notes a call that a caller made: `value` is what the call left, and the log has the state that it shows, which
    /// is of the log's value. Whoever changes a logged value notes it before it lets the lock go, once for each call.
    ///
    /// It waits for nobody: `rt` stands there since it wouldn't return behind 2^64 - 1 calls.
    pub fn note<W: Wait, V: Shows<E>>(&mut self, rt: &W, me: &mut Caller<N, E>, value: &V)
        requires part { 0 < me.old.parts }
        requires number { E.number (V.shown value.now) ≡ self.old.number }
        ensures log { Notes E.number (V.shown value.now) self.old self.new }
        ensures call { MakesOne me.old me.new }
        ensures from { from_of E.number me.new ≡ last_state E.number self.old }
        ensures to { to_of me.new ≡ V.shown value.now }
        ensures all { (me.new.first ≡ self.new.first) × (me.new.log ≡ self.new.log) }
        ensures whole { self.old.values ≡ 1 → me.old.parts + 1 ≡ N.parts → length me.new.log ≡ me.new.calls }
    {
        for _ in rt.forever() {
            if self.try_to_note(me, value) {
                return;
            }
        }
        unreachable!()
    }

    /// Shows a caller what the log has now: all calls of its value up to now, and none that it made itself. Of the
    /// other values it has those that came before, and maybe more.
    ///
    /// It waits for nobody, and makes no use of `rt`, which its callers have for `note`.
    pub fn show<W: Wait>(&mut self, rt: &W, me: &mut Caller<N, E>)
        ensures log { self.new ≡ self.old }
        ensures look { OnlyLooks me.old me.new }
        ensures to { now_of E.number self.old.number me.new ≡ last_state E.number self.old }
        ensures calls { calls_of E.number self.old.number me.new.log ≡ calls_of E.number self.old.number self.old.log }
        ensures seen { (me.new.first ≡ self.old.first) × IsPrefix self.old.log me.new.log }
        ensures alone { self.old.values ≡ 1 → me.new.log ≡ self.old.log }
        ensures whole { self.old.values ≡ 1 → me.old.parts + 1 ≡ N.parts → length me.new.log ≡ me.old.calls }
    {
        let _ = rt;
        self.count.audit(&mut me.share);
        me.front = self.front.look(&me.front, &self.head, &mut self.tally);
    }
}

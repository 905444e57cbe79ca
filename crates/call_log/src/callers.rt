//! A thread that makes calls.
ghost use Rattle.std.specs.Prelude.{◌≡◌, ◌+◌, ◌-◌, ◌<◌};
ghost use mathlib.Core.List.{IsPrefix};

use crate::fronts::Front;
use crate::names::{LogName, State};
use std::marker::Model;
use std::sync::ledger::Share;

/// Whoever makes calls on a logged value: which states it has seen, and how many calls it made. It has no bytes. Each
/// thread has one of its own.
#[derive(Drop)]
pub struct Caller<N: LogName, E: State> {
    pub(crate) front: Front<N, E>,
    pub(crate) share: Share<N>,
}

impl<N: LogName, E: State> Model for Caller<N, E> {
    ghost use Rattle.call_log.specs.Calls.{CallerView};

    ghost Value = { CallerView E };

    ghost view = { λ c. record {
      first = c.front.first;
      log = c.front.log;
      calls = c.share.amount;
      parts = c.share.parts;
    } };
}

impl<N: LogName, E: State> Caller<N, E> {
    /// Another caller, for a thread of its own, which has seen what this one has, and made no call. It has one part of
    /// the log's shares, which this one gives away: this one needs two.
    pub fn another(&mut self) -> Caller<N, E>
        requires { 1 < self.old.parts }
        ensures one { result ≡ record self.old { calls = 0; parts = 1 } }
        ensures left { self.new ≡ record self.old { parts = self.old.parts - 1 } }
    {
        Caller {
            front: self.front.again(),
            share: self.share.split_off(1, 0),
        }
    }

    /// Takes in another caller of the same log: this one has seen what either has, and made the calls of both, from then
    /// on, and it has the parts of both.
    pub fn absorb(&mut self, other: Caller<N, E>)
        ensures first { self.new.first ≡ self.old.first }
        ensures same { other.first ≡ self.old.first }
        ensures seen { IsPrefix self.old.log self.new.log }
        ensures theirs { IsPrefix other.log self.new.log }
        ensures calls { self.new.calls ≡ self.old.calls + other.calls }
        ensures parts { self.new.parts ≡ self.old.parts + other.parts }
    {
        let Caller { front, share } = other;
        self.front.learn(&front);
        self.share.merge(share);
    }
}

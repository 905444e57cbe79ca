//! A log that has no name yet, and the logs of its values.
ghost use Rattle.std.specs.Prelude.{◌≡◌, ◌+◌, ◌-◌, ◌<◌, ◌^◌, []};

use crate::callers::Caller;
use crate::counts::{Count, allot};
use crate::fronts::{Front, Head};
use crate::law::{Begin, Law};
use crate::logs::Log;
use crate::names::{LogName, State};
use crate::tallies::Tallies;
use logbook::{Pens, Seen, Word};
use std::marker::Model;
use std::sync::ledger::{Blank, Share, Total};

/// A new log, which has no name yet, and no value beside it.
#[derive(Drop)]
pub struct LogBlank<E: State> {
    pens: Pens,
    seen: Seen<(E, u64), u64, Law>,
    tallies: Tallies,
    calls: Blank,
    values: u32,
}

impl<E: State> Model for LogBlank<E> {
    ghost use Rattle.std.specs.Prelude.{◌≡◌, ◌≤◌, [], ◌∷◌};
    ghost use Rattle.call_log.specs.Blanks.{BlankView};

    ghost Value = { BlankView };

    ghost view = { λ b. record {
      book = b.seen.book;
      name = b.calls.name;
      parts = b.calls.parts;
      values = b.values;
    } };

    ghost invariant = { λ b. (b.pens.book ≡ b.seen.book) × (b.pens.next ≡ 0) × (b.pens.left ≡ b.values)
        × (b.seen.names ≡ b.tallies.name ∷ []) × (b.tallies.next ≡ 0) × (b.tallies.left ≡ b.values)
        × (b.seen.log ≡ (E.some_state, b.values) ∷ []) × (b.values ≤ b.calls.parts) };
}

impl<E: State> LogBlank<E> {
    /// A log of so many values, with one at least, that begins with some state, which stands for nothing: `Logged::new`
    /// notes the first that a value has. Its shares have so many parts for callers, of whom there are at most as many,
    /// and one for each value.
    pub fn new(callers: u64, values: u32) -> LogBlank<E>
        requires values { 0 < values }
        requires room { callers + values < 2 ^ 64 }
        ensures parts { result.parts ≡ callers + values }
        ensures values { result.values ≡ values }
    {
        let (start, tallies) = Tallies::begin::<E>(values);
        let (seen, pens) = Seen::<(E, u64), u64, Law>::open_row::<u32, Begin>(
            &values,
            start,
            values as usize,
        );
        LogBlank {
            pens,
            seen,
            tallies,
            calls: Blank::new(callers + values as u64),
            values,
        }
    }

    /// The logs of the values under a name, and the first caller, which has all parts but theirs. `Logged::new` puts
    /// each log beside its value, whose type may have the name.
    pub fn open<N: LogName>(self) -> (Logs<N, E>, Caller<N, E>)
        requires book { self.book ≡ N.book }
        requires name { self.name ≡ N.name }
        requires parts { self.parts ≡ N.parts }
        ensures logs { result.0 ≡ record { next = 0; left = self.values } }
        ensures caller { result.1 ≡ record {
          first = E.some_state;
          log = [];
          calls = 0;
          parts = N.parts - self.values;
        } }
    {
        let LogBlank {
            pens,
            seen,
            tallies,
            calls,
            values,
        } = self;
        let front = Front::new(seen, values, &tallies);
        let (book, mut share) = calls.open::<N>();
        let (left, total) = allot(book, &mut share, values);
        let caller = Caller {
            front: front.again(),
            share,
        };
        (
            Logs {
                front,
                pens,
                tallies,
                left,
                total,
            },
            caller,
        )
    }
}

/// The logs of values that have none yet.
#[derive(Drop)]
pub struct Logs<N: LogName, E: State> {
    front: Front<N, E>,
    pens: Pens,
    tallies: Tallies,
    // what the calls of these values cost
    left: Share<N>,
    // the sum of all shares, where there is one value
    total: Option<Total<N>>,
}

impl<N: LogName, E: State> Model for Logs<N, E> {
    ghost use Rattle.std.specs.Prelude.{◌≡◌, ◌+◌, ◌*◌, ◌<◌, [], IfSome, is_some, true};
    ghost use Rattle.call_log.specs.Blanks.{LogsView};
    ghost use Rattle.call_log.specs.Counts.{most_calls};

    ghost Value = { LogsView };

    ghost view = { λ l. record { next = l.pens.next; left = l.pens.left } };

    ghost invariant = { λ l.
        (l.front ≡ record {
          first = E.some_state;
          log = [];
          values = l.pens.next + l.pens.left;
          name = l.tallies.name;
        }) × (l.tallies.next ≡ l.pens.next) × (l.tallies.left ≡ l.pens.left) × (l.pens.book ≡ N.book) × (l.left.parts ≡ l.pens.left) × (l.left.amount ≡ most_calls * l.pens.left)
        × IfSome l.total (λ t. (t.amount ≡ most_calls) × (t.parts ≡ N.parts))
        × (l.pens.next + l.pens.left ≡ 1 → 0 < l.pens.left → is_some l.total ≡ true) };
}

impl<N: LogName, E: State> Logs<N, E> {
    /// The log of the next value: the first has the number 0, and each the one behind that of the last.
    pub fn take(&mut self) -> Log<N, E>
        requires left { 0 < self.old.left }
        ensures log { result ≡ record {
          first = E.some_state;
          log = [];
          number = self.old.next;
          values = self.old.next + self.old.left;
        } }
        ensures rest { self.new ≡ record { next = self.old.next + 1; left = self.old.left - 1 } }
    {
        let mut pen = self.pens.take();
        let head = Head::new(Word::tracked(0, &mut pen));
        let left = self.left.split_off(1, u64::MAX);
        let count = Count::new(left, self.total.take());
        Log::new(head, self.front.again(), count, self.tallies.take())
    }
}

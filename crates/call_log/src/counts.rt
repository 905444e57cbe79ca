//! How many calls a value had, and what they cost.
ghost use Rattle.std.specs.Prelude.{◌≡◌, ◌+◌, ◌*◌, ◌<◌, ◌≤◌, IfSome, is_some, true};
ghost use Rattle.call_log.specs.Counts.{most_calls};

use crate::names::LogName;
use std::marker::Model;
use std::sync::ledger::{Book, Share, Total};

/// How many calls a value had. Each costs one of the ledger's counts, of which those that are left lie here.
#[derive(Drop)]
pub(crate) struct Count<N: LogName> {
    calls: u64,
    left: Share<N>,
    // the sum of all shares, where there is one value
    total: Option<Total<N>>,
}

impl<N: LogName> Model for Count<N> {
    ghost use Rattle.std.specs.Prelude.{◌≡◌, ◌+◌, IfSome, is_some};
    ghost use Rattle.call_log.specs.Counts.{CountView, most_calls};

    ghost Value = { CountView };

    ghost view = { λ c. record { calls = c.calls; alone = is_some c.total } };

    ghost invariant = { λ c. (c.calls + c.left.amount ≡ most_calls) × (c.left.parts ≡ 1)
        × IfSome c.total (λ t. (t.amount ≡ most_calls) × (t.parts ≡ N.parts)) };
}

impl<N: LogName> Count<N> {
    /// A value had no call yet.
    pub(crate) fn new(left: Share<N>, total: Option<Total<N>>) -> Count<N>
        requires amount { left.amount ≡ most_calls }
        requires part { left.parts ≡ 1 }
        requires total { IfSome total (λ t. (t.amount ≡ most_calls) × (t.parts ≡ N.parts)) }
        ensures { result ≡ record { calls = 0; alone = is_some total } }
    {
        Count {
            calls: 0,
            left,
            total,
        }
    }

    /// How many calls it had.
    pub(crate) fn calls(&self) -> u64
        ensures { result ≡ self.now.calls }
    {
        self.calls
    }

    /// One call more: its caller's share gets one of the counts that are left.
    pub(crate) fn pay(&mut self, me: &mut Share<N>)
        requires part { 0 < me.old.parts }
        requires room { self.old.calls < most_calls }
        ensures calls { self.new ≡ record self.old { calls = self.old.calls + 1 } }
        ensures amount { me.new.amount ≡ me.old.amount + 1 }
        ensures parts { me.new.parts ≡ me.old.parts }
    {
        self.left.transfer(me, 1);
        self.calls += 1;
    }

    /// Whoever has all parts but the one that lies here made all calls, where there is one value.
    pub(crate) fn audit(&mut self, me: &mut Share<N>)
        ensures count { self.new ≡ self.old }
        ensures amount { me.new.amount ≡ me.old.amount }
        ensures parts { me.new.parts ≡ me.old.parts }
        ensures whole { self.old.alone ≡ true → me.old.parts + 1 ≡ N.parts → self.old.calls ≡ me.old.amount }
    {
        let left = u64::MAX - self.calls;
        let Some(total) = &self.total else {
            return;
        };
        total.audit(me);
        self.left.give(me, 1, left);
        total.audit(me);
        me.give(&mut self.left, 1, left);
    }
}

/// Takes a part for each of so many values off a share that has all, with what its calls cost; and the sum of all
/// shares, where there is one value.
pub(crate) fn allot<N: LogName>(
    book: Book<N>,
    share: &mut Share<N>,
    values: u32,
) -> (Share<N>, Option<Total<N>>)
    requires book { book.total ≡ 0 }
    requires amount { share.old.amount ≡ 0 }
    requires parts { values ≤ share.old.parts }
    ensures amount { result.0.amount ≡ most_calls * values }
    ensures parts { result.0.parts ≡ values }
    ensures share { (share.new.amount ≡ 0) × (share.new.parts + values ≡ share.old.parts) }
    ensures total { IfSome result.1 (λ t. (t.amount ≡ most_calls) × (t.parts ≡ N.parts)) }
    ensures alone { values ≡ 1 → is_some result.1 ≡ true }
{
    let mut book = book;
    let mut left = share.split_off(values as u64, 0);
    for _ in 0..values {
        book.add(&mut left, u64::MAX);
    }
    let total = total_of_one(book, values);
    (left, total)
}

// The sum of all shares, where there is one value.
fn total_of_one<N: LogName>(book: Book<N>, values: u32) -> Option<Total<N>>
    requires { book.total ≡ most_calls * values }
    ensures total { IfSome result (λ t. (t.amount ≡ most_calls) × (t.parts ≡ N.parts)) }
    ensures alone { values ≡ 1 → is_some result ≡ true }
{
    if values == 1 {
        Some(book.close())
    } else {
        None
    }
}

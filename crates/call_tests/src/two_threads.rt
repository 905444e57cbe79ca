//! Two threads put.
ghost use Rattle.std.specs.Prelude.{◌≡◌, ◌+◌, ◌<◌, length};
ghost use Rattle.call_log.specs.Calls.{MakesOne};
ghost use Rattle.call_tests.specs.Shelves.{now_of, number_in};

use crate::pairs::{Pair, PairState};
use crate::shelf::ShelfState;
use crate::store::{Stats, Store};
use call_log::{Caller, LogName};
use std::sync::Wait;
use std::thread::{Threads, join};

// Puts a number, and gives the caller back.
fn put_by<N: LogName, R: Wait>(
    rt: &R,
    store: &Store<N>,
    me: Caller<N, ShelfState>,
    place: usize,
    number: u64,
) -> Caller<N, ShelfState>
    requires part { 0 < me.parts }
    requires place { place < 64 }
    ensures { MakesOne me result }
{
    let mut me = me;
    let _ = store.put(rt, &mut me, place, number);
    me
}

/// Two threads put a number each, and what the store tells then is exact: it has had the call that opened it and two
/// more, and no other.
pub fn both<N: LogName + Send + Sync, R: Threads + Wait + Sync>(
    rt: &R,
    store: &Store<N>,
    me: Caller<N, ShelfState>,
    first: (usize, u64),
    second: (usize, u64),
) -> (Stats, Caller<N, ShelfState>)
    requires fresh { me.calls ≡ 1 }
    requires parts { me.parts + 1 ≡ N.parts }
    requires two { 1 < me.parts }
    requires places { (first.0 < 64) × (second.0 < 64) }
    ensures calls { result.0.calls ≡ 3 }
    ensures log { length result.1.log ≡ 3 }
    ensures parts { result.1.parts ≡ me.parts }
    ensures number { result.0.number ≡ number_in (now_of result.1) }
{
    let mut me = me;
    let other = me.another();
    let (mut one, two) = join(
        rt,
        move || -> Caller<N, ShelfState>
            requires { (0 < me.parts) × (first.0 < 64) }
            ensures { MakesOne me result }
        { put_by(rt, store, me, first.0, first.1) },
        move || -> Caller<N, ShelfState>
            requires { (0 < other.parts) × (second.0 < 64) }
            ensures { MakesOne other result }
        { put_by(rt, store, other, second.0, second.1) },
    );
    one.absorb(two);
    let stats = store.stats(rt, &mut one);
    (stats, one)
}

// Puts a number into a shelf, and gives the caller back.
fn put_half_by<N: LogName, R: Wait>(
    rt: &R,
    pair: &Pair<N>,
    me: Caller<N, PairState>,
    shelf: usize,
    place: usize,
    number: u64,
) -> Caller<N, PairState>
    requires part { 0 < me.parts }
    requires shelf { shelf < 2 }
    requires place { place < 64 }
    ensures { MakesOne me result }
{
    let mut me = me;
    let _ = pair.put(rt, &mut me, shelf, place, number);
    me
}

/// Two threads put a number each, into a shelf each, and neither waits for the other. The caller knows of both calls
/// then, and made two more.
pub fn both_halves<N: LogName + Send + Sync, R: Threads + Wait + Sync>(
    rt: &R,
    pair: &Pair<N>,
    me: Caller<N, PairState>,
    first: (usize, u64),
    second: (usize, u64),
) -> Caller<N, PairState>
    requires two { 1 < me.parts }
    requires places { (first.0 < 64) × (second.0 < 64) }
    ensures calls { result.calls ≡ me.calls + 2 }
    ensures log { length me.log < length result.log }
    ensures parts { result.parts ≡ me.parts }
{
    let mut me = me;
    let other = me.another();
    let (mut one, two) = join(
        rt,
        move || -> Caller<N, PairState>
            requires { (0 < me.parts) × (first.0 < 64) }
            ensures { MakesOne me result }
        { put_half_by(rt, pair, me, 0, first.0, first.1) },
        move || -> Caller<N, PairState>
            requires { (0 < other.parts) × (second.0 < 64) }
            ensures { MakesOne other result }
        { put_half_by(rt, pair, other, 1, second.0, second.1) },
    );
    one.absorb(two);
    one
}

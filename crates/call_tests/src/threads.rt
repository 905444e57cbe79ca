//! Calls that run.
ghost use Rattle.std.specs.Prelude.{◌≡◌, ◌<◌};

use super::*;
use call_log::{LogBlank, LogName};
use std::marker::Brand;
use std::process::Abort;
use std::sync::Wait;
use std::test::*;
use std::thread::Threads;

#[test]
fn two_threads_put(rt: HostRuntime) -> Result<(), Fail> {
    run::<Brand, _>(&rt, LogBlank::new(2, 1))
}

fn run<N: LogName + Send + Sync, R: Threads + Wait + Abort + Sync>(
    rt: &R,
    blank: LogBlank<ShelfState>,
) -> Result<(), Fail>
    requires book { blank.book ≡ N.book }
    requires name { blank.name ≡ N.name }
    requires parts { (blank.parts ≡ N.parts) × (2 < N.parts) }
    requires one { blank.values ≡ 1 }
{
    let (store, me) = Store::<N>::open(rt, blank);
    let (stats, mut me) = both(rt, &store, me, (3, 30), (5, 50));
    assert_eq!(rt; stats.calls, 3);
    assert_eq!(rt; stats.number, 2);
    assert_eq!(rt; store.get(rt, &mut me, 5), Some(50));
    assert_eq!(rt; store.put(rt, &mut me, 3, 31), Some(30));
    assert_eq!(rt; store.take(rt, &mut me, 3), Some(31));
    assert_eq!(rt; store.take(rt, &mut me, 3), None);
    let stats = store.stats(rt, &mut me);
    assert_eq!(rt; stats.calls, 6);
    assert_eq!(rt; stats.number, 1);
    Ok(())
}

#[test]
fn two_threads_put_into_two_shelves(rt: HostRuntime) -> Result<(), Fail> {
    run_pair::<Brand, _>(&rt, LogBlank::new(2, 2))
}

fn run_pair<N: LogName + Send + Sync, R: Threads + Wait + Abort + Sync>(
    rt: &R,
    blank: LogBlank<PairState>,
) -> Result<(), Fail>
    requires book { blank.book ≡ N.book }
    requires name { blank.name ≡ N.name }
    requires parts { (blank.parts ≡ N.parts) × (3 < N.parts) }
    requires two { blank.values ≡ 2 }
{
    let (pair, me) = Pair::<N>::open(rt, blank);
    let mut me = both_halves(rt, &pair, me, (3, 30), (3, 50));
    assert_eq!(rt; pair.get(rt, &mut me, 0, 3), Some(30));
    assert_eq!(rt; pair.get(rt, &mut me, 1, 3), Some(50));
    assert_eq!(rt; pair.put(rt, &mut me, 1, 3, 51), Some(50));
    assert_eq!(rt; pair.get(rt, &mut me, 0, 3), Some(30));
    assert_eq!(rt; pair.get(rt, &mut me, 1, 3), Some(51));
    Ok(())
}

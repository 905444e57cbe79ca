//! Look-ups by text and by bytes, a reader's counts as other threads read them, and a tend that sleeps.

ghost use Rattle.bump_cache.specs.Opening.{IsNamed};

use crate::expecting::*;
use crate::stands::{Entry, config_of, put, time_of};
use bump_cache::{
    Bytes, Cache, CacheBlank, CacheReader, Changer, LogName, Name, Opened, ReaderCounts, open,
};
use std::alloc::Global;
use std::marker::Brand;
use std::process::Abort;
use std::sync::Wait;
use std::sync::atomic::{AtomicBool, AtomicU64, Ordering};
use std::test::Fail;
use std::thread;
use std::thread::Threads;
use std::time::{Clock, Duration};

// A string of 15 bytes: one more than a key has room for.
const LONG: &str = "fifteen letters";

// The counts that a reader published: hits, misses, accepted and dropped bumps.
fn published(counts: &ReaderCounts) -> (u64, u64, u64, u64) {
    (
        counts.hits(),
        counts.misses(),
        counts.bumps_accepted(),
        counts.bumps_dropped(),
    )
}

// Each look-up of a text finds what was put under it.
fn look_up_text<N: Name, R: Abort>(rt: &R, reader: &mut CacheReader<N, Bytes<2>, u64>) {
    expect_eq!(rt; reader.get_text("fourteen bytes", 1), Some(14));
    expect_eq!(rt; reader.get_text("fourteen byte", 1), None);
    expect_that!(rt; reader.contains_text("fourteen bytes", 1));
    expect_that!(rt; !reader.contains_text("", 1));
}

// And so does each one of bytes.
fn look_up_bytes<N: Name, R: Abort>(rt: &R, reader: &mut CacheReader<N, Bytes<2>, u64>) {
    expect_eq!(rt; reader.get_bytes(&[0, 255, 0], 1), Some(3));
    expect_eq!(rt; reader.get_bytes(&[0, 255], 1), None);
    expect_that!(rt; reader.contains_bytes(&[0, 255, 0], 1));
    expect_that!(rt; !reader.contains_bytes(&[0, 255, 0, 0], 1));
}

// Nothing is found under a string that is too long.
fn look_up_long<N: Name, R: Abort>(rt: &R, reader: &mut CacheReader<N, Bytes<2>, u64>) {
    expect_eq!(rt; reader.get_text(LONG, 1), None);
    expect_eq!(rt; reader.get_bytes(LONG.as_bytes(), 1), None);
    expect_that!(rt; !reader.contains_text(LONG, 1));
    expect_that!(rt; !reader.contains_bytes(LONG.as_bytes(), 1));
}

// Each look-up finds what was put under the string, and nothing under one that is too long.
fn look_up<N: Name, R: Abort>(
    rt: &R,
    alloc: Global,
    reader: &mut CacheReader<N, Bytes<2>, u64>,
) -> Result<(), Fail> {
    let counts = ReaderCounts::new(alloc)?;
    let others = counts.try_clone()?;
    look_up_text(rt, reader);
    look_up_bytes(rt, reader);
    expect_eq!(rt; published(&others), (0, 0, 0, 0));
    reader.publish(&counts);
    expect_eq!(rt; published(&others), (2, 2, 0, 0));
    look_up_long(rt, reader);
    reader.publish(&counts);
    expect_eq!(rt; published(&others), (2, 2, 0, 0));
    Ok(())
}

// Removes strings that are there, and others.
fn remove_all<N: Name + LogName, R: Wait>(
    rt: &R,
    cache: &Cache<N, Bytes<2>, u64>,
    mut changer: Changer<N>,
) -> [Option<u64>; 5] {
    [
        cache.remove_text(rt, &mut changer.me, "fourteen bytes", 2),
        cache.remove_text(rt, &mut changer.me, "fourteen bytes", 2),
        cache.remove_text(rt, &mut changer.me, LONG, 2),
        cache.remove_bytes(rt, &mut changer.me, &[0, 255, 0], 2),
        cache.remove_bytes(rt, &mut changer.me, LONG.as_bytes(), 2),
    ]
}

// Tends and sleeps until a flag is set.
fn tend<N: Name + LogName, R: Wait + Clock>(
    rt: &R,
    cache: &Cache<N, Bytes<2>, u64>,
    mut changer: Changer<N>,
    done: &AtomicBool,
) {
    let clock = AtomicU64::new(2);
    cache.tend_each(rt, &mut changer.me, rt, Duration::from_millis(1), || {
        time_of(&clock, done)
    });
}

// One thread tends and sleeps until the other, which removes, says that it is done.
fn remove_beside_tends<N: Name + LogName + Send + Sync, R: Threads + Wait + Clock + Sync>(
    rt: &R,
    cache: &Cache<N, Bytes<2>, u64>,
    changer: Changer<N>,
    tender: Changer<N>,
) -> [Option<u64>; 5] {
    let done = AtomicBool::new(false);
    let (removed, ()) = thread::join(
        rt,
        || {
            let removed = remove_all(rt, cache, changer);
            done.store(true, Ordering::SeqCst);
            removed
        },
        || tend(rt, cache, tender, &done),
    );
    removed
}

// Puts two strings.
fn fill<N: Name + LogName, R: Wait + Abort>(
    rt: &R,
    cache: &Cache<N, Bytes<2>, u64>,
    changer: &mut Changer<N>,
) -> Result<(), Fail> {
    for (key, value) in [("fourteen bytes".as_bytes(), 14), (&[0, 255, 0], 3)] {
        let key = Bytes::new(key)?;
        let entry = Entry { key, value };
        expect_that!(rt; put(rt, cache, changer, &entry, 0).is_ok());
    }
    Ok(())
}

fn run<N: Name + LogName + Send + Sync, R: Threads + Wait + Clock + Abort + Sync>(
    rt: &R,
    alloc: Global,
    blank: CacheBlank<Bytes<2>, u64>,
) -> Result<(), Fail>
    requires { IsNamed N.table N.book N.name N.parts blank }
{
    let Opened {
        cache,
        caller: mut me,
        mut readers,
    } = open::<N, Bytes<2>, u64, R>(alloc, rt, blank)?;
    let tender = Changer::new(me.another());
    let mut changer = Changer::new(me);
    fill(rt, &cache, &mut changer)?;
    let Some(reader) = readers.first_mut() else {
        panic!(rt; "there is a reader")
    };
    look_up(rt, alloc, reader)?;
    let removed = remove_beside_tends(rt, &cache, changer, tender);
    expect_eq!(rt; removed, [Some(14), None, None, Some(3), None]);
    expect_that!(rt; !reader.contains_text("fourteen bytes", 3));
    Ok(())
}

#[test]
fn strings_are_looked_up_by_text_and_bytes(rt: HostRuntime) -> Result<(), Fail> {
    let alloc = rt.alloc();
    let blank = CacheBlank::new(alloc, &config_of(10, 2, 20, 40, 16))?;
    run::<Brand, HostRuntime>(&rt, alloc, blank)
}

//! The loop that never sleeps ends what has expired, until it is told to stop; the one that sleeps does so once a pause.

ghost use Rattle.bump_cache.specs.Opening.{IsNamed};

use crate::expecting::*;
use crate::tended::{EXPIRY, KEYS, LOOKS, Stand, config, open_filled, reclaimed};
use bump_cache::{Cache, CacheBlank, Changer, LogName, Name};
use std::alloc::{AllocError, Global};
use std::marker::Brand;
use std::sync::Wait;
use std::sync::atomic::{AtomicBool, AtomicU64, Ordering};
use std::test::Fail;
use std::thread::Threads;
use std::time::{Clock, Duration};
use std::{io, thread};

// A clock that sleeps in no time, counts how often and how long, and says stop at the third time.
#[derive(Drop)]
struct Sleeper {
    sleeps: AtomicU64,
    slept: AtomicU64,
    stop: AtomicBool,
}

impl Clock for Sleeper {
    fn monotonic(&self) -> io::Result<Duration> {
        Ok(Duration::from_millis(0))
    }

    fn since_1970(&self) -> io::Result<Duration> {
        Ok(Duration::from_millis(0))
    }

    fn sleep(&self, duration: Duration) {
        let before = self.sleeps.fetch_add(1, Ordering::SeqCst);
        self.slept.fetch_add(duration.as_secs(), Ordering::SeqCst);
        if before >= 2 {
            self.stop.store(true, Ordering::SeqCst);
        }
    }
}

// How many entries ended by three turns of the loop that sleeps, how often it slept, how many seconds in all, and how
// many puts were refused before. The clock has this time at the first turn, and one tick more at each next one.
fn run_each<N: Name + LogName, W: Wait>(
    rt: &W,
    alloc: Global,
    blank: CacheBlank<u64, u64>,
    first: u64,
) -> Result<[u64; 4], AllocError>
    requires { IsNamed N.table N.book N.name N.parts blank }
{
    let (stand, refused) = open_filled::<N, W>(rt, alloc, blank)?;
    let Stand {
        cache,
        mut tender,
        mut other,
    } = stand;
    let mut next = first;
    let sleeper = Sleeper {
        sleeps: AtomicU64::new(0),
        slept: AtomicU64::new(0),
        stop: AtomicBool::new(false),
    };
    cache.tend_each(rt, &mut tender.me, &sleeper, Duration::from_secs(7), || {
        let now = next;
        next = next.saturating_add(1);
        if sleeper.stop.load(Ordering::SeqCst) {
            None
        } else {
            Some(now)
        }
    });
    Ok([
        reclaimed(rt, &cache, &mut other),
        sleeper.sleeps.load(Ordering::SeqCst),
        sleeper.slept.load(Ordering::SeqCst),
        refused,
    ])
}

#[test]
fn the_loop_that_sleeps_tends_once_a_pause(rt: HostRuntime) -> Result<(), Fail> {
    let blank = CacheBlank::<u64, u64>::new(rt.alloc(), &config())?;
    let told = run_each::<Brand, HostRuntime>(&rt, rt.alloc(), blank, EXPIRY)?;
    // Each tend looks at ten chunks, and the keys are in the first ones.
    expect_eq!(&rt; told, [KEYS, 3, 21, 0]);
    Ok(())
}

#[test]
fn what_expires_after_the_clock_outlives_the_loop(rt: HostRuntime) -> Result<(), Fail> {
    let blank = CacheBlank::<u64, u64>::new(rt.alloc(), &config())?;
    let told = run_each::<Brand, HostRuntime>(&rt, rt.alloc(), blank, EXPIRY - 3)?;
    // The third tend is one tick before the entries expire.
    expect_eq!(&rt; told, [0, 3, 21, 0]);
    Ok(())
}

#[test]
fn each_tend_is_at_what_the_clock_has_then(rt: HostRuntime) -> Result<(), Fail> {
    let blank = CacheBlank::<u64, u64>::new(rt.alloc(), &config())?;
    let told = run_each::<Brand, HostRuntime>(&rt, rt.alloc(), blank, EXPIRY - 1)?;
    // The first tend is too early for the ten chunks that it looks at; the second one ends the entries in the next ten.
    expect_eq!(&rt; told, [LOOKS.into(), 3, 21, 0]);
    Ok(())
}

// Asks until all entries have ended, or so often; and says stop then. It tells how many had ended.
fn ask<N: Name + LogName, W: Wait>(
    rt: &W,
    cache: &Cache<N, u64, u64>,
    mut other: Changer<N>,
    stop: &AtomicBool,
) -> u64 {
    let mut ended = 0u64;
    for _ in 0..3_000_000u32 {
        ended = reclaimed(rt, cache, &mut other);
        if ended == KEYS {
            break;
        }
    }
    stop.store(true, Ordering::SeqCst);
    ended
}

// How many entries ended while the loop that never sleeps ran in a thread of its own.
fn run_until<N: Name + LogName + Send + Sync, R: Threads + Wait + Sync>(
    rt: &R,
    alloc: Global,
    blank: CacheBlank<u64, u64>,
) -> Result<u64, AllocError>
    requires { IsNamed N.table N.book N.name N.parts blank }
{
    let (stand, _) = open_filled::<N, R>(rt, alloc, blank)?;
    let Stand {
        cache,
        tender,
        other,
    } = stand;
    let clock = AtomicU64::new(EXPIRY);
    let stop = AtomicBool::new(false);
    let (ended, ()) = thread::join(
        rt,
        || ask(rt, &cache, other, &stop),
        || tend(rt, &cache, tender, &clock, &stop),
    );
    Ok(ended)
}

// The tender's thread.
fn tend<N: Name + LogName, W: Wait>(
    rt: &W,
    cache: &Cache<N, u64, u64>,
    mut tender: Changer<N>,
    clock: &AtomicU64,
    stop: &AtomicBool,
) {
    cache.tend_until(rt, &mut tender.me, || {
        if stop.load(Ordering::SeqCst) {
            None
        } else {
            Some(clock.load(Ordering::SeqCst))
        }
    });
}

#[test]
fn the_loop_that_never_sleeps_tends_until_it_is_told_to_stop(rt: HostRuntime) -> Result<(), Fail> {
    let blank = CacheBlank::<u64, u64>::new(rt.alloc(), &config())?;
    let ended = run_until::<Brand, HostRuntime>(&rt, rt.alloc(), blank)?;
    expect_eq!(&rt; ended, KEYS);
    Ok(())
}

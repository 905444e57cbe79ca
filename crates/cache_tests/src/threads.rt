//! Readers on threads, beside one that puts and removes and one that tends.

ghost use Rattle.bump_cache.specs.Opening.{IsNamed};

use crate::expecting::*;
use crate::model::adds_up;
use crate::stands::{Entry, config_of, next, put, remove, time_of};
use bump_cache::{
    Cache, CacheBlank, CacheConfig, CacheReader, Changer, LogName, Name, Opened, open,
};
use std::alloc::{AllocError, Global};
use std::marker::Brand;
use std::process::Abort;
use std::sync::Wait;
use std::sync::atomic::{AtomicBool, AtomicU64, Ordering};
use std::test::Fail;
use std::thread;
use std::thread::Threads;

/// So many gets each reader makes. By hand 10,000,000 may stand here, too.
const GETS: u64 = 200_000;

// The keys below this are there from the first get on. They are put anew again and again, and each so soon that it is in
// HOT as a rule: HOT's share is 51 items, and there are 32 puts from one to the next. But where readers mark all that is in
// HOT a tend moves it on, and where all of WARM is marked, too, one of these may be evicted: that is counted.
const STAYING: u64 = 16;

// The other keys are below this: more than there is room for.
const KEYS: u64 = 600;

const ITEMS: u32 = 256;

const RING: u32 = 32;

// A value: its key, a number that grows with each put, and a sum over both.
type Value = (u64, (u64, u64));

// What a reader came to.
#[derive(Clone, Copy)]
struct Seen {
    // values of another key, or with another sum
    wrong: u64,
    // how often a key had nothing that has always something
    missing: u64,
    // how often such a key had an older value than before
    older: u64,
}

// What the writer came to.
#[derive(Clone, Copy)]
struct Wrote {
    // puts that were refused
    refused: u64,
    // puts that evicted a key which is to stay
    evicted: u64,
}

fn sum_of(key: u64, number: u64) -> u64 {
    let mixed = key ^ number.wrapping_mul(0x9e37_79b9_7f4a_7c15);
    (mixed ^ (mixed >> 29)).wrapping_mul(0xbf58_476d_1ce4_e5b9)
}

fn value_of(key: u64, number: u64) -> Value {
    (key, (number, sum_of(key, number)))
}

// The number of a value that was put under a key, and 0 for each other one.
fn number_in(key: u64, value: &Value) -> u64 {
    let (of, (number, sum)) = *value;
    if of == key && sum == sum_of(key, number) {
        number
    } else {
        0
    }
}

// The next of the keys that come and go.
fn next_other(seed: &mut u64) -> u64 {
    STAYING.saturating_add(next(seed) % (KEYS - STAYING))
}

fn count(at: &mut u64, is_so: bool) {
    *at = at.saturating_add(u64::from(is_so));
}

// A reader gets a key that is always there, which had the value of this number before.
fn read_staying<N: Name + LogName>(
    reader: &mut CacheReader<N, u64, Value>,
    key: u64,
    now: u64,
    newest: &mut u64,
    seen: &mut Seen,
) {
    match reader.get(&key, now) {
        Some(value) => {
            let number = number_in(key, &value);
            count(&mut seen.wrong, number == 0);
            count(&mut seen.older, number < *newest);
            *newest = number;
        }
        None => count(&mut seen.missing, true),
    }
}

// A reader's thread: it gets in turn a key that is always there and another one.
fn read<N: Name + LogName>(mut reader: CacheReader<N, u64, Value>) -> Seen {
    let mut last = [0u64; STAYING as usize];
    let mut seen = Seen {
        wrong: 0,
        missing: 0,
        older: 0,
    };
    let mut seed = 1u64;
    for now in 0..GETS / 2 {
        let key = next(&mut seed) % STAYING;
        if let Some(newest) = last.get_mut(key as usize) {
            read_staying(&mut reader, key, now, newest, &mut seen);
        }
        let other = next_other(&mut seed);
        if let Some(value) = reader.get(&other, now) {
            count(&mut seen.wrong, number_in(other, &value) == 0);
        }
    }
    seen
}

// Puts the keys that are always there.
fn put_staying<N: Name + LogName, W: Wait>(
    rt: &W,
    cache: &Cache<N, u64, Value>,
    changer: &mut Changer<N>,
) -> u64 {
    let mut refused = 0u64;
    for key in 0..STAYING {
        let entry = Entry {
            key,
            value: value_of(key, 1),
        };
        count(&mut refused, put(rt, cache, changer, &entry, 0).is_err());
    }
    refused
}

// The writer puts the value of this number under a key.
fn write_one<N: Name + LogName, W: Wait>(
    rt: &W,
    cache: &Cache<N, u64, Value>,
    changer: &mut Changer<N>,
    key: u64,
    number: u64,
    wrote: &mut Wrote,
) {
    let entry = Entry {
        key,
        value: value_of(key, number),
    };
    match put(rt, cache, changer, &entry, number) {
        Ok(did) => {
            let evicted = did.evicted.map(|lost| lost.key);
            count(&mut wrote.evicted, evicted.is_some_and(|key| key < STAYING));
        }
        Err(_) => count(&mut wrote.refused, true),
    }
}

// The writer's thread: it puts in turn a key that is always there and another one, and removes others, until the readers
// are done.
fn write<N: Name + LogName, W: Wait>(
    rt: &W,
    cache: &Cache<N, u64, Value>,
    mut changer: Changer<N>,
    done: &AtomicBool,
) -> Wrote {
    let mut wrote = Wrote {
        refused: 0,
        evicted: 0,
    };
    let mut seed = 2u64;
    let mut turn = 0u64;
    let mut number = 1u64;
    for _ in rt.forever() {
        if done.load(Ordering::SeqCst) {
            return wrote;
        }
        turn = turn.saturating_add(1);
        for key in [turn % STAYING, next_other(&mut seed)] {
            number = number.saturating_add(1);
            write_one(rt, cache, &mut changer, key, number, &mut wrote);
        }
        if turn % 3 == 0 {
            remove(rt, cache, &mut changer, &next_other(&mut seed), number);
        }
    }
    unreachable!()
}

// The tender's thread, until the readers are done.
fn tend<N: Name + LogName, W: Wait>(
    rt: &W,
    cache: &Cache<N, u64, Value>,
    mut changer: Changer<N>,
    done: &AtomicBool,
) {
    let clock = AtomicU64::new(7);
    cache.tend_until(rt, &mut changer.me, || time_of(&clock, done));
}

// Each reader in a thread of its own, the writer in one more, and the tender in another.
fn run_threads<N: Name + LogName + Send + Sync, R: Threads + Wait + Sync>(
    rt: &R,
    cache: &Cache<N, u64, Value>,
    readers: Vec<CacheReader<N, u64, Value>>,
    writer: Changer<N>,
    tender: Changer<N>,
) -> (Result<Vec<Seen>, AllocError>, Wrote) {
    let done = AtomicBool::new(false);
    let (told, ()) = thread::join(
        rt,
        || {
            thread::join(
                rt,
                || {
                    let seen = thread::map_vec(rt, readers, &|reader| read(reader));
                    done.store(true, Ordering::SeqCst);
                    seen
                },
                || write(rt, cache, writer, &done),
            )
        },
        || tend(rt, cache, tender, &done),
    );
    told
}

// What all readers came to.
fn sum_of_all(seen: &[Seen]) -> Seen {
    let mut all = Seen {
        wrong: 0,
        missing: 0,
        older: 0,
    };
    for one in seen {
        all.wrong = all.wrong.saturating_add(one.wrong);
        all.missing = all.missing.saturating_add(one.missing);
        all.older = all.older.saturating_add(one.older);
    }
    all
}

// All of it under the names that the blank's table and log have: what the readers and the writer came to, and whether the
// statistics add up.
fn run<N: Name + LogName + Send + Sync, R: Threads + Wait + Sync>(
    rt: &R,
    alloc: Global,
    blank: CacheBlank<u64, Value>,
) -> Result<(Seen, Wrote, bool), AllocError>
    requires { IsNamed N.table N.book N.name N.parts blank }
{
    let Opened {
        cache,
        caller: mut me,
        readers,
    } = open::<N, u64, Value, R>(alloc, rt, blank)?;
    let tender = Changer::new(me.another());
    let mut writer = Changer::new(me.another());
    let refused = put_staying(rt, &cache, &mut writer);
    let (seen, mut wrote) = run_threads(rt, &cache, readers, writer, tender);
    wrote.refused = wrote.refused.saturating_add(refused);
    let stats = cache.stats(rt, &mut me);
    Ok((sum_of_all(&seen?), wrote, adds_up(&stats)))
}

// There were none of these beside so many readers.
fn expect_none(rt: &impl Abort, what: &str, readers: u32, count: u64) {
    assert_eq!(rt; count, 0, "{what}, of {readers} readers");
}

#[test]
fn readers_beside_a_writer_get_what_was_put(rt: HostRuntime) -> Result<(), Fail> {
    for readers in [2, 4] {
        // By ages an item may leave HOT however few are there: then what is put anew so soon could be evicted.
        let config = CacheConfig {
            readers,
            hot_age: None,
            warm_age: None,
            ..config_of(ITEMS, readers.saturating_mul(RING + 2), 20, 40, RING)
        };
        let blank = CacheBlank::<u64, Value>::new(rt.alloc(), &config)?;
        let (seen, wrote, add_up) = run::<Brand, _>(&rt, rt.alloc(), blank)?;
        expect_none(&rt, "wrong values", readers, seen.wrong);
        expect_none(&rt, "older values", readers, seen.older);
        expect_none(&rt, "refused puts", readers, wrote.refused);
        if wrote.evicted == 0 {
            expect_none(&rt, "missing values", readers, seen.missing);
        }
        expect_that!(&rt; add_up);
    }
    Ok(())
}

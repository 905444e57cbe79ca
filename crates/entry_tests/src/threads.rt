//! Readers on threads beside one that puts: each finds whole values, of the key that it asked for and never older ones, and what it
//! found stays as it is while it is put anew and evicted.
ghost use Rattle.entry_cache.specs.Opening.{IsNamed};

use crate::calls::{SEED, text_of};
use entry_cache::{
    AnyEntry, CacheConfig, Changer, EntryBlank, EntryCache, EntryReader, LogName, Name,
    OpenedEntries, open,
};
use std::alloc::{AllocError, Global};
use std::marker::Brand;
use std::sync::Wait;
use std::sync::atomic::{AtomicBool, Ordering};
use std::test::Fail;
use std::thread;
use std::thread::Threads;

// So many gets each reader makes.
const GETS: u64 = 4_000;

// The keys below this are put anew again and again, and never evicted.
const STAYING: u32 = 4;

// The other keys are below this: more than there is room for.
const KEYS: u32 = 200;

// A value: the key's number, a number that grows with each put, and so many bytes of it.
#[derive(Drop)]
struct Value {
    key: u32,
    number: u64,
    bytes: Vec<u8>,
}

// What a reader came to.
#[derive(Clone, Copy)]
struct Seen {
    // values of another key, or with other bytes
    wrong: u64,
    // how often a key had nothing that has always something
    missing: u64,
    // how often such a key had an older value than before
    older: u64,
}

fn count(at: &mut u64, is_so: bool) {
    *at = at.saturating_add(u64::from(is_so));
}

fn byte_of(key: u32, number: u64) -> u8 {
    (u64::from(key).wrapping_add(number) % 256) as u8
}

fn value_of(alloc: Global, key: u32, number: u64) -> Result<Value, AllocError> {
    let mut bytes = Vec::new(alloc);
    for _ in 0..number % 40 {
        bytes.push(byte_of(key, number))?;
    }
    Ok(Value { key, number, bytes })
}

fn is_whole(value: &Value, key: u32) -> bool {
    let byte = byte_of(key, value.number);
    value.key == key
        && value.bytes.len() as u64 == value.number % 40
        && value.bytes.iter().all(|it| *it == byte)
}

// A reader's thread: it gets in turn a key that is always there and another one. Each tenth value it keeps until others were put, and
// looks again.
fn read<N: Name + LogName>(
    alloc: Global,
    cache: &EntryCache<N, String, Value>,
    mut reader: EntryReader<N>,
) -> Result<Seen, AllocError> {
    let mut seen = Seen {
        wrong: 0,
        missing: 0,
        older: 0,
    };
    let mut last = [0u64; STAYING as usize];
    for now in 0..GETS / 2 {
        let key = (now % u64::from(STAYING)) as u32;
        let text = text_of(alloc, key)?;
        match reader.get(cache, text.as_str(), now) {
            Some(found) => {
                count(&mut seen.wrong, !is_whole(&found, key));
                if let Some(newest) = last.get_mut(key as usize) {
                    count(&mut seen.older, found.number < *newest);
                    *newest = found.number;
                }
                if now % 10 == 0 {
                    let other = text_of(alloc, STAYING.saturating_add((now % 96) as u32))?;
                    let _ = reader.contains(cache, other.as_str(), now);
                    count(&mut seen.wrong, !is_whole(&found, key));
                }
            }
            None => count(&mut seen.missing, true),
        }
        let key = STAYING.saturating_add((now % u64::from(KEYS - STAYING)) as u32);
        let other = text_of(alloc, key)?;
        if let Some(found) = reader.get(cache, &other, now) {
            count(&mut seen.wrong, !is_whole(&found, key));
        }
    }
    Ok(seen)
}

// Puts a value. It tells whether it was put.
fn put<N: Name + LogName, W: Wait>(
    rt: &W,
    alloc: Global,
    cache: &EntryCache<N, String, Value>,
    changer: &mut Changer<N>,
    key: u32,
    number: u64,
) -> Result<bool, AllocError> {
    let text = text_of(alloc, key)?;
    let value = value_of(alloc, key, number)?;
    Ok(cache.put(rt, &mut changer.me, text, value, number).is_ok())
}

// Removes what a key has.
fn remove<N: Name + LogName, W: Wait>(
    rt: &W,
    alloc: Global,
    cache: &EntryCache<N, String, Value>,
    changer: &mut Changer<N>,
    key: u32,
    now: u64,
) -> Result<(), AllocError> {
    let text = text_of(alloc, key)?;
    let _ = cache.remove(rt, &mut changer.me, text.as_str(), now);
    Ok(())
}

// The writer's thread: it puts in turn a key that is always there and another one, and removes others, until the readers are done. It
// tells how many puts were refused.
fn write<N: Name + LogName, W: Wait>(
    rt: &W,
    alloc: Global,
    cache: &EntryCache<N, String, Value>,
    mut changer: Changer<N>,
    done: &AtomicBool,
) -> Result<u64, AllocError> {
    let mut refused = 0u64;
    let mut number = 1u64;
    for _ in rt.forever() {
        if done.load(Ordering::SeqCst) {
            break;
        }
        number = number.saturating_add(1);
        let staying = (number % u64::from(STAYING)) as u32;
        let other = STAYING.saturating_add((number % u64::from(KEYS - STAYING)) as u32);
        for key in [staying, other] {
            count(
                &mut refused,
                !put(rt, alloc, cache, &mut changer, key, number)?,
            );
        }
        if number % 3 == 0 {
            remove(rt, alloc, cache, &mut changer, other, number)?;
        }
    }
    Ok(refused)
}

// Each reader in a thread of its own, and the writer in one more.
fn run_threads<N: Name + LogName + Send + Sync, R: Threads + Wait + Sync>(
    rt: &R,
    alloc: Global,
    cache: &EntryCache<N, String, Value>,
    readers: Vec<EntryReader<N>>,
    writer: Changer<N>,
) -> (
    Result<Vec<Result<Seen, AllocError>>, AllocError>,
    Result<u64, AllocError>,
) {
    let done = AtomicBool::new(false);
    thread::join(
        rt,
        || {
            let seen = thread::map_vec(rt, readers, &|reader| read(alloc, cache, reader));
            done.store(true, Ordering::SeqCst);
            seen
        },
        || write(rt, alloc, cache, writer, &done),
    )
}

// All of it under the names that the blank's table and log have: what the readers came to, and how many puts were refused.
fn run<N: Name + LogName + Send + Sync, R: Threads + Wait + Sync>(
    rt: &R,
    alloc: Global,
    blank: EntryBlank,
) -> Result<(Seen, u64), AllocError>
    requires { IsNamed N.table N.book N.name N.parts blank }
{
    let OpenedEntries {
        cache,
        caller,
        readers,
    } = open::<N, String, Value, AnyEntry, R>(alloc, rt, blank)?;
    let mut writer = Changer::new(caller);
    for key in 0..STAYING {
        let _ = put(rt, alloc, &cache, &mut writer, key, 1)?;
    }
    let (seen, refused) = run_threads(rt, alloc, &cache, readers, writer);
    let mut all = Seen {
        wrong: 0,
        missing: 0,
        older: 0,
    };
    for one in seen? {
        let one = one?;
        all.wrong = all.wrong.saturating_add(one.wrong);
        all.missing = all.missing.saturating_add(one.missing);
        all.older = all.older.saturating_add(one.older);
    }
    Ok((all, refused?))
}

#[test]
fn readers_beside_a_writer_find_whole_values(rt: HostRuntime) -> Result<(), Fail> {
    // Each key that stays is put anew behind eight puts, so it is in HOT, whose share is 25 entries.
    let config = CacheConfig {
        hot_age: None,
        warm_age: None,
        ..CacheConfig::new(128, 3, SEED)
    };
    let blank = EntryBlank::new(rt.alloc(), &config)?;
    let (seen, refused) = run::<Brand, _>(&rt, rt.alloc(), blank)?;
    assert_eq!(rt; seen.wrong, 0, "wrong values");
    assert_eq!(rt; seen.older, 0, "older values");
    assert_eq!(rt; seen.missing, 0, "keys that stay");
    assert_eq!(rt; refused, 0, "puts");
    Ok(())
}

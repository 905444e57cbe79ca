//! All sequences of few calls on caches of one to three entries, and random calls on larger ones.
ghost use Rattle.entry_cache.specs.Opening.{IsNamed};

use crate::book::Book;
use crate::calls::{Call, Counted, make, small_config};
use entry_cache::{
    AnyEntry, CacheConfig, Changer, EntryBlank, EntryCache, EntryReader, LogName, Name,
    OpenedEntries, open,
};
use std::alloc::{AllocError, Global};
use std::marker::Brand;
use std::sync::{Arc, Wait};
use std::test::Fail;

// So many random calls are made of each cache.
const CALLS: u64 = 20_000;

// The kinds of calls with one key.
const KINDS: u64 = 5;

// Which sequences: on a cache of so many entries those of so many keys, of so many kinds of calls, with so many calls.
const SEQUENCES: [(u32, u64, u64, u64); 4] = [
    (1, 2, 5, 4),
    (1, 2, 3, 5),
    (2, 3, 3, 4),
    (3, 4, 2, 5),
];

// Which calls: those of the digits of a number, or random ones.
#[derive(Clone, Copy)]
enum Turns {
    Digits(u64),
    Random(u64),
}

// Sequences of calls, with so many keys and of the first so many kinds, each of so many calls: so many, or one of random calls.
#[derive(Clone, Copy)]
struct Sequences {
    keys: u64,
    kinds: u64,
    length: u64,
    count: u64,
    is_random: bool,
}

// The call of a number, of those with so many keys, and of the first so many kinds.
fn call_of(number: u64, keys: u64, kinds: u64, now: u64) -> Call {
    let key = (number / kinds.max(1) % keys.max(1) % 256) as u32;
    match number % kinds.max(1) {
        0 => Call::Put(key),
        1 => Call::Get(key),
        2 => Call::Remove(key),
        3 => Call::Look(key),
        _ => Call::PutUntil(key, now.saturating_add(2)),
    }
}

// The next number, below `most`, and the turns behind it.
fn next(turns: Turns, most: u64) -> (u64, Turns) {
    match turns {
        Turns::Digits(digits) => (digits % most.max(1), Turns::Digits(digits / most.max(1))),
        Turns::Random(seed) => {
            let mixed = seed.wrapping_mul(0x5851_f42d_4c95_7f2d);
            let seed = mixed.wrapping_add(0x1405_7b7e_f767_814f);
            ((seed >> 33) % most.max(1), Turns::Random(seed))
        }
    }
}

// Makes the calls of one sequence, and removes all keys. It tells how many came to something else than on the book.
fn make_sequence<N: Name + LogName, W: Wait>(
    rt: &W,
    alloc: Global,
    cache: &EntryCache<N, String, Counted>,
    changer: &mut Changer<N>,
    reader: &mut EntryReader<N>,
    alive: &Arc<()>,
    calls: Sequences,
    number: u64,
) -> Result<u64, AllocError> {
    let mut book = Book::new(alloc);
    let mut wrong = 0u64;
    let mut turns = if calls.is_random {
        Turns::Random(7)
    } else {
        Turns::Digits(number)
    };
    let first = number.saturating_mul(calls.length.saturating_add(calls.keys));
    for at in 0..calls.length.saturating_add(calls.keys) {
        let now = first.saturating_add(at).saturating_add(1);
        let (chosen, left) = next(turns, calls.keys.saturating_mul(calls.kinds));
        turns = left;
        let call = if at >= calls.length {
            Call::Remove((at.saturating_sub(calls.length) % 256) as u32)
        } else if now % 50 == 0 {
            Call::Tend
        } else {
            call_of(chosen, calls.keys, calls.kinds, now)
        };
        let right = make(
            rt, alloc, cache, changer, reader, &mut book, alive, call, now,
        )?;
        wrong = wrong.saturating_add(u64::from(!right));
    }
    Ok(wrong.saturating_add(book.len() as u64))
}

// Opens a cache under the names that the blank's table and log have, and makes the calls.
fn run<N: Name + LogName, W: Wait>(
    rt: &W,
    alloc: Global,
    blank: EntryBlank,
    calls: Sequences,
    alive: &Arc<()>,
) -> Result<u64, AllocError>
    requires { IsNamed N.table N.book N.name N.parts blank }
{
    let OpenedEntries {
        cache,
        caller,
        mut readers,
    } = open::<N, String, Counted, AnyEntry, W>(alloc, rt, blank)?;
    let mut changer = Changer::new(caller);
    let mut wrong = 0u64;
    for number in 0..calls.count {
        let Some(reader) = readers.first_mut() else {
            return Ok(u64::MAX);
        };
        let of = make_sequence(
            rt,
            alloc,
            &cache,
            &mut changer,
            reader,
            alive,
            calls,
            number,
        )?;
        wrong = wrong.saturating_add(of);
    }
    Ok(wrong)
}

// How many of these calls were wrong on a cache of this configuration, which leaves no value.
fn wrong_calls<W: Wait>(
    rt: &W,
    alloc: Global,
    config: &CacheConfig,
    calls: Sequences,
) -> Result<u64, Fail> {
    let alive = Arc::new(alloc, ())?;
    let blank = EntryBlank::new(alloc, config)?;
    let wrong = run::<Brand, W>(rt, alloc, blank, calls, &alive)?;
    let left = Arc::strong_count(&alive) as u64;
    Ok(wrong.saturating_add(left.saturating_sub(1)))
}

#[test]
fn each_sequence_of_few_calls_comes_to_what_a_plain_map_has(rt: HostRuntime) -> Result<(), Fail> {
    for (items, keys, kinds, length) in SEQUENCES {
        let calls = Sequences {
            keys,
            kinds,
            length,
            count: keys.saturating_mul(kinds).saturating_pow(length as u32),
            is_random: false,
        };
        let wrong = wrong_calls(&rt, rt.alloc(), &small_config(items, 1), calls)?;
        assert_eq!(rt; wrong, 0, "of {items} entries");
    }
    Ok(())
}

#[test]
fn random_calls_come_to_what_a_plain_map_has(rt: HostRuntime) -> Result<(), Fail> {
    for (items, parts, keys) in [(1, 1, 3), (3, 1, 6), (50, 1, 80), (64, 4, 90)] {
        let config = CacheConfig {
            parts,
            ..small_config(items, 1)
        };
        let calls = Sequences {
            keys,
            kinds: KINDS,
            length: CALLS,
            count: 1,
            is_random: true,
        };
        let wrong = wrong_calls(&rt, rt.alloc(), &config, calls)?;
        assert_eq!(rt; wrong, 0, "of {items} entries");
    }
    Ok(())
}

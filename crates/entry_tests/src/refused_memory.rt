//! Allocations that are refused: key and value come back, and nothing is lost.
ghost use Rattle.entry_cache.specs.Opening.{IsNamed};

use crate::calls::{Counted, small_config, text_of};
use entry_cache::{
    AnyEntry, CacheRefusal, Changer, EntryBlank, EntryCache, EntryReader, LogName, Name,
    OpenedEntries, Refusal, open,
};
use std::alloc::{AllocError, Global};
use std::marker::Brand;
use std::sync::{Arc, Wait};
use std::test::Fail;

// What a run came to.
#[derive(Clone, Copy)]
struct Came {
    // answers that were wrong
    wrong: u64,
    // puts that were refused for want of memory
    refused: u64,
}

// Puts a value until it isn't refused. A refused one comes back with its key, and the old one stays.
fn put<N: Name + LogName, W: Wait>(
    rt: &W,
    cache: &EntryCache<N, String, Counted>,
    changer: &mut Changer<N>,
    reader: &mut EntryReader<N>,
    key: String,
    value: Counted,
    came: &mut Came,
) {
    let number = value.number;
    let length = key.len();
    let before = reader
        .peek(cache, key.as_str(), number)
        .map(|found| found.number);
    match cache.put(rt, &mut changer.me, key, value, number) {
        Ok(_) => {}
        Err(it) => {
            let after = reader
                .peek(cache, it.key.as_str(), number)
                .map(|found| found.number);
            let same = it.why == Refusal::Memory
                && it.value.number == number
                && it.key.len() == length;
            came.refused = came.refused.saturating_add(1);
            came.wrong = came
                .wrong
                .saturating_add(u64::from(!same || before != after));
            let again = cache.put(rt, &mut changer.me, it.key, it.value, number);
            came.wrong = came.wrong.saturating_add(u64::from(again.is_err()));
        }
    }
}

// Opens a cache under the names that the blank's table and log have, and puts more than it has room for.
fn run<N: Name + LogName, W: Wait>(
    rt: &W,
    alloc: Global,
    blank: EntryBlank,
    alive: &Arc<()>,
) -> Result<Came, AllocError>
    requires { IsNamed N.table N.book N.name N.parts blank }
{
    let OpenedEntries {
        cache,
        caller,
        mut readers,
    } = open::<N, String, Counted, AnyEntry, W>(alloc, rt, blank)?;
    let mut changer = Changer::new(caller);
    let mut came = Came {
        wrong: 0,
        refused: 0,
    };
    let Some(reader) = readers.first_mut() else {
        return Err(AllocError);
    };
    for number in 0..100u64 {
        let key = text_of(alloc, (number % 60) as u32)?;
        let value = Counted {
            number,
            alive: Arc::try_clone(alive)?,
        };
        put(rt, &cache, &mut changer, reader, key, value, &mut came);
    }
    let stats = cache.stats(rt, &mut changer.me);
    let rows = u64::from(stats.number_hot)
        .saturating_add(u64::from(stats.number_warm))
        .saturating_add(u64::from(stats.number_cold));
    let values = Arc::strong_count(alive) as u64;
    came.wrong = came
        .wrong
        .saturating_add(u64::from(values.wrapping_sub(1) != rows));
    Ok(came)
}

// The whole of it, and that no value is left. None where the cache wasn't opened, or a key wasn't made.
fn come_to<W: Wait>(rt: &W, alloc: Global) -> Option<Came> {
    let Ok(alive) = Arc::new(alloc, ()) else {
        return None;
    };
    let Ok(blank) = EntryBlank::new(alloc, &small_config(40, 1)) else {
        return None;
    };
    let came = run::<Brand, W>(rt, alloc, blank, &alive);
    let Ok(mut came) = came else {
        return None;
    };
    if Arc::strong_count(&alive) != 1 {
        came.wrong = came.wrong.saturating_add(1);
    }
    Some(came)
}

// Holds whichever one allocation is refused: behind it all is well.
#[test]
fn a_refused_put_gives_key_and_value_back(rt: HostRuntime) -> Result<(), Fail> {
    let alloc = rt.alloc();
    let came = match come_to(&rt, alloc) {
        Some(came) => came,
        None => {
            eprintln!(rt; "an allocation was refused beside puts")?;
            match come_to(&rt, alloc) {
                Some(came) => came,
                None => return Err("refused twice".into()),
            }
        }
    };
    assert_eq!(rt; came.wrong, 0);
    if came.refused > 0 {
        eprintln!(rt; "a put was refused")?;
    }
    if Box::new(alloc, 0u8).is_err() {
        eprintln!(rt; "no allocation was left")?;
    }
    Ok(())
}

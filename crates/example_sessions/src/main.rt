//! A store of sessions that expire, an example to be copied: two threads log in and out, and four look sessions up, who wait for nobody.
//! In this folder `rt try` runs it, and `rt run` proves it first.
#![tactic(auto)]

ghost use Rattle.entry_cache.specs.Opening.{IsNamed};

use anyhow::Result;
use entry_cache::{
    AnyEntry, CacheConfig, Changer, EntryBlank, EntryCache, EntryReader, LogName, Name,
    OpenedEntries, Seed, open,
};
use std::alloc::{AllocError, Global};
use std::marker::Brand;
use std::sync::Wait;
use std::sync::atomic::{AtomicU64, Ordering};
use std::thread::{self, Threads};

const SESSIONS: u64 = 3_000; // three times as many as there is room for

/// The id of a session.
#[derive(Clone, Copy, PartialEq, Eq, Hash)]
struct Id(u64, u64);

fn id_of(number: u64) -> Id {
    Id(number ^ 0x5e55_1045, number)
}

fn page_of(alloc: Global, number: u64) -> Result<String, AllocError> {
    format!(in alloc; "https://shop.example/basket/{number}")
}

// A thread that looks sessions up. It tells how many had the page of another one.
fn read<N: Name + LogName>(
    alloc: Global,
    store: &EntryCache<N, Id, String>,
    mut reader: EntryReader<N>,
    clock: &AtomicU64,
) -> Result<u64, AllocError> {
    let mut wrong = 0u64;
    for step in 0..20_000u64 {
        let page = page_of(alloc, step % SESSIONS)?;
        let found = reader.get(store, &id_of(step % SESSIONS), clock.load(Ordering::SeqCst));
        let is_wrong = found.is_some_and(|it| it.as_str() != page.as_str());
        wrong = wrong.saturating_add(u64::from(is_wrong));
    }
    Ok(wrong)
}

// Logs a session in, which lives for 2,000 ticks, and each seventh out again. It tells how many logins were refused.
fn log_in<N: Name + LogName, R: Wait>(
    rt: &R,
    alloc: Global,
    store: &EntryCache<N, Id, String>,
    changer: &mut Changer<N>,
    now: u64,
) -> Result<u64, AllocError> {
    let until = now.saturating_add(2_000);
    let (id, page) = (id_of(now % SESSIONS), page_of(alloc, now % SESSIONS)?);
    let put = store.put_until(rt, &mut changer.me, id, page, until, now);
    if now % 7 == 0 {
        let _ = store.remove(rt, &mut changer.me, &id, now);
    }
    Ok(u64::from(put.is_err()))
}

// A thread that logs sessions in and out. It tells how many logins were refused.
fn write<N: Name + LogName, R: Wait>(
    rt: &R,
    alloc: Global,
    store: &EntryCache<N, Id, String>,
    mut changer: Changer<N>,
    clock: &AtomicU64,
) -> Result<u64, AllocError> {
    let mut refused = 0u64;
    for _ in 0..5_000u64 {
        let now = clock.fetch_add(1, Ordering::SeqCst);
        refused = refused.saturating_add(log_in(rt, alloc, store, &mut changer, now)?);
    }
    Ok(refused)
}

// All of it under the names that the blank's table and log have: how many pages were wrong, and how many logins were refused.
fn run<N: Name + LogName + Send + Sync, R: Threads + Wait + Sync>(
    rt: &R,
    alloc: Global,
    blank: EntryBlank,
) -> Result<(u64, u64), AllocError>
    requires { IsNamed N.table N.book N.name N.parts blank }
{
    let OpenedEntries {
        cache: store,
        caller: mut me,
        readers,
    } = open::<N, Id, String, AnyEntry, R>(alloc, rt, blank)?;
    let (one, other) = (Changer::new(me.another()), Changer::new(me.another()));
    let clock = AtomicU64::new(1);
    let (found, (first, second)) = thread::join(
        rt,
        || thread::map_vec(rt, readers, &|it| read(alloc, &store, it, &clock)),
        || {
            thread::join(
                rt,
                || write(rt, alloc, &store, one, &clock),
                || write(rt, alloc, &store, other, &clock),
            )
        },
    );
    let mut wrong = 0u64;
    for it in found? {
        wrong = wrong.saturating_add(it?);
    }
    Ok((wrong, first?.saturating_add(second?)))
}

fn main(rt: HostRuntime) -> Result<()> {
    let blank = EntryBlank::new(rt.alloc(), &CacheConfig::new(1_000, 4, Seed::random(&rt)?))?;
    let (wrong, refused) = run::<Brand, _>(&rt, rt.alloc(), blank)?;
    println!(rt; "pages of another session: {wrong}, logins refused: {refused}")?;
    Ok(())
}

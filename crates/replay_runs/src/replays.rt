//! An access log is run through a cache.
ghost use Rattle.std.specs.Prelude.{◌≡◌, ◌+◌, ◌-◌, ◌^◌, ◌<◌, ◌≤◌, IfOk, IfErr, IfSome, IfNone, Err, length};
ghost use Rattle.cache_config.specs.Configs.{first_cache_fault};
ghost use Rattle.replay_runs.specs.Asked.{counted, gets_among};
ghost use Rattle.replay_runs.specs.declared.faults.ReplayFault.TheVariants.{Config, Memory};
ghost use Rattle.bump_cache.specs.Opening.{IsNamed};

use crate::asked::Asked;
use crate::faults::ReplayFault;
use crate::outcomes::RunOutcome;
use crate::plans::Plan;
use crate::waits::Waits;
use access_logs::Operation;
use bump_cache::{
    Accounts, CacheBlank, CacheReader, CacheRefusal, LogName, Name, NoRoom, Opened, open,
};
use std::alloc::{AllocError, Global};
use std::marker::Brand;
use std::sync::Wait;

// What the accesses so far came to.
#[derive(Clone, Copy)]
struct Count {
    gets: u64,
    hits: u64,
    unplaced: u64,
}

// Who asks for which key, and when; and when what is put expires.
#[derive(Clone, Copy)]
struct Turn {
    reader: u32,
    key: u32,
    now: u64,
    expires: u64,
}

// A key is got. Whether it was there.
fn get<N: Name + LogName>(opened: &mut Opened<N, u32, u32>, waits: &mut Waits, turn: Turn) -> bool
    ensures part { opened.new.caller.parts ≡ opened.old.caller.parts }
{
    let Turn {
        reader,
        key,
        now,
        ..
    } = turn;
    let Some(getter) = opened.readers.get_mut(reader as usize) else {
        return false;
    };
    if getter.get(&key, now).is_none() {
        return false;
    }
    if waits.has_more(reader, getter.bumps().accepted) {
        waits.add(reader, opened.cache.part_of(&key));
    }
    true
}

// A key is put; its value is its own number. Whether there was room for it.
fn put<N: Name + LogName, R: Wait>(
    rt: &R,
    opened: &mut Opened<N, u32, u32>,
    waits: &mut Waits,
    turn: Turn,
) -> bool
    requires part { 0 < opened.old.caller.parts }
    ensures part { opened.new.caller.parts ≡ opened.old.caller.parts }
{
    let Turn {
        key,
        now,
        expires,
        ..
    } = turn;
    waits.apply_for_put(opened.cache.part_of(&key));
    match opened
        .cache
        .put_until(rt, &mut opened.caller, &key, &key, expires, now)
    {
        Ok(_) => true,
        Err(NoRoom { evicted: _ }) => false,
    }
}

// A key is removed.
fn remove<N: Name + LogName, R: Wait>(rt: &R, opened: &mut Opened<N, u32, u32>, turn: Turn)
    requires part { 0 < opened.old.caller.parts }
    ensures part { opened.new.caller.parts ≡ opened.old.caller.parts }
{
    let _ = opened
        .cache
        .remove(rt, &mut opened.caller, &turn.key, turn.now);
}

// Does what is asked for at an access, and counts what it came to.
fn follow<N: Name + LogName, R: Wait>(
    rt: &R,
    opened: &mut Opened<N, u32, u32>,
    waits: &mut Waits,
    operation: Operation,
    turn: Turn,
    count: Count,
) -> Count
    requires part { 0 < opened.old.caller.parts }
    requires few { count.gets < 2 ^ 64 - 1 }
    requires most { count.hits ≤ count.gets }
    ensures gets { result.gets ≡ count.gets + counted operation }
    ensures most { result.hits ≤ result.gets }
    ensures part { opened.new.caller.parts ≡ opened.old.caller.parts }
{
    let mut count = count;
    let is_placed = match operation {
        Operation::Get => {
            count.gets += 1;
            let is_hit = get(opened, waits, turn);
            if is_hit {
                count.hits += 1;
            }
            is_hit || put(rt, opened, waits, turn)
        }
        Operation::Set => put(rt, opened, waits, turn),
        Operation::Delete => {
            remove(rt, opened, turn);
            true
        }
        Operation::Other => true,
    };
    if !is_placed {
        count.unplaced = count.unplaced.saturating_add(1);
    }
    count
}

// All accesses in turn; behind those at which it is time for it the cache is tended.
fn run_all<N: Name + LogName, R: Wait>(
    rt: &R,
    opened: &mut Opened<N, u32, u32>,
    waits: &mut Waits,
    plan: &Plan,
    asked: &Asked<'_>,
) -> Count
    requires part { 0 < opened.old.caller.parts }
    ensures gets { result.gets ≡ gets_among asked.now.operations.now (length asked.now.keys.now) }
    ensures most { result.hits ≤ result.gets }
    ensures part { opened.new.caller.parts ≡ opened.old.caller.parts }
{
    let mut count = Count {
        gets: 0,
        hits: 0,
        unplaced: 0,
    };
    let mut tended = 0;
    for place in 0..asked.keys.len() {
        let now = asked.time(place);
        let turn = Turn {
            reader: plan.reader_at(place),
            key: asked.keys[place],
            now,
            expires: asked.expires(place),
        };
        count = follow(rt, opened, waits, asked.operation(place), turn, count);
        if plan.is_due(place, now, tended) {
            opened.cache.tend(rt, &mut opened.caller, now);
            waits.apply_all();
            tended = now;
        }
    }
    count
}

// The bumps of all readers.
fn bumps_of<N: Name + LogName>(readers: &[CacheReader<N, u32, u32>]) -> Accounts {
    let mut all = Accounts {
        attempted: 0,
        accepted: 0,
        full: 0,
        busy: 0,
        refs: 0,
    };
    for reader in readers {
        let one = reader.bumps();
        all.attempted = all.attempted.saturating_add(one.attempted);
        all.accepted = all.accepted.saturating_add(one.accepted);
        all.full = all.full.saturating_add(one.full);
        all.busy = all.busy.saturating_add(one.busy);
        all.refs = all.refs.saturating_add(one.refs);
    }
    all
}

// The run, in a cache that is opened under the names that the blank's table and log have.
fn run<N: Name + LogName, R: Wait>(
    rt: &R,
    alloc: Global,
    blank: CacheBlank<u32, u32>,
    plan: &Plan,
    asked: &Asked<'_>,
) -> Result<RunOutcome, AllocError>
    requires { IsNamed N.table N.book N.name N.parts blank }
    ensures accesses { IfOk result (λ it. it.accesses ≡ gets_among asked.now.operations.now (length asked.now.keys.now)) }
    ensures sum { IfOk result (λ it. it.hits + it.misses ≡ it.accesses) }
{
    let mut opened = open::<N, u32, u32, R>(alloc, rt, blank)?;
    let mut waits = Waits::new(alloc, plan)?;
    let count = run_all(rt, &mut opened, &mut waits, plan, asked);
    Ok(RunOutcome {
        accesses: count.gets,
        hits: count.hits,
        misses: count.gets - count.hits,
        unplaced: count.unplaced,
        waiting: waits.most(),
        stats: opened.cache.stats(rt, &mut opened.caller),
        bumps: bumps_of(&opened.readers),
    })
}

/// Runs what an access log asks for through a cache that is empty at first, in turn. It is refused as `Config` exactly
/// where the plan's configuration has a fault, and as `Memory` only for want of memory.
pub fn replay<R: Wait>(
    rt: &R,
    alloc: Global,
    plan: &Plan,
    asked: &Asked<'_>,
) -> Result<RunOutcome, ReplayFault>
    ensures accesses { IfOk result (λ it. it.accesses ≡ gets_among asked.now.operations.now (length asked.now.keys.now)) }
    ensures sum { IfOk result (λ it. it.hits + it.misses ≡ it.accesses) }
    ensures config { IfSome (first_cache_fault plan.now.config) (λ fault. result ≡ Err (Config fault)) }
    ensures memory { IfNone (first_cache_fault plan.now.config) (IfErr result (λ it. it ≡ Memory)) }
{
    let blank = match CacheBlank::<u32, u32>::new(alloc, &plan.config) {
        Ok(blank) => blank,
        Err(CacheRefusal::Fault(fault)) => return Err(ReplayFault::Config(fault)),
        Err(CacheRefusal::Memory) => return Err(ReplayFault::Memory),
    };
    match run::<Brand, R>(rt, alloc, blank, plan, asked) {
        Ok(outcome) => Ok(outcome),
        Err(AllocError) => Err(ReplayFault::Memory),
    }
}

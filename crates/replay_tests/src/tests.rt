use bump_cache::{CacheConfig, CacheFault, Seed};
use bump_trace::{Counted, SimFault, run_model};
use replay_runs::{Asked, Operation, Plan, ReplayFault, ReplayTrace, Tending, replay, trace_of};
use std::alloc::{AllocError, Global};
use std::hash::RandomState;
use std::process::Abort;
use std::random::RandomSource;
use std::sync::Wait;
use std::test::*;

const SEED: Seed = Seed {
    first: 1,
    second: 2,
};

// A plan of so many items and a spare chunk, so many percent of the items in HOT and in WARM, by one reader with room for
// 4 bumps. Ages don't count.
fn plan(items: u32, hot: u32, warm: u32, tend_every: u32) -> Plan {
    Plan {
        config: CacheConfig {
            items,
            spare: 1,
            hot,
            warm,
            hot_age: None,
            warm_age: None,
            ring: 4,
            ..CacheConfig::new(items, 1, SEED)
        },
        tending: Tending::Accesses(tend_every),
    }
}

// A get of each key, at these times.
fn gets<'a>(keys: &'a [u32], times: &'a [u64]) -> Asked<'a> {
    Asked {
        keys,
        times,
        operations: &[],
        ttls: &[],
    }
}

// So many hits are told, and this was written.
fn expect(rt: &impl Abort, trace: &ReplayTrace, hits: u64, text: &str) {
    assert!(rt; trace.hits.total() == hits, "the hits");
    assert!(rt; trace.text.as_slice() == text.as_bytes(), "the text");
}

const ONE_KEY: &str =
    "store 2 4 1023 1\nclass 2 0 0\nset k5 0 0\ndrain\nsweep 0\npull 0 hot\nget 1 k5\nget 0 k5\nshow\n";

const THREE_KEYS: &str =
    "store 1 4 1023 1\nclass 3 0 0\nset k1 0 0\ndrain\nsweep 0\nset k2 0 0\nget 0 k1\npull 0 cold\npull 0 evict\npull 0 warm\npull 0 hot\ndel k1\nset k3 0 0\ndrain\nsweep 0\npull 0 hot\npull 0 cold\npull 0 evict\nset k1 0 0\npull 0 cold\npull 0 evict\npull 0 warm\npull 0 hot\ndel k3\nset k2 0 0\nshow\n";

const WITHOUT_COLD: &str =
    "store 1 4 1023 1\nclass 2 0 0\nset k1 0 0\ndrain\nsweep 0\npull 0 cold\npull 0 evict\npull 0 warm\npull 0 hot\ndel k1\nset k2 0 0\nshow\n";

const BUMPED: &str =
    "store 1 1 1023 1\nclass 4 0 0\nset k1 0 0\ndrain\nsweep 0\npull 0 hot\nset k2 0 0\nget 0 k1\nget 0 k2\nset k9 0 0\ndrain\nsweep 0\npull 0 hot\npull 0 hot\nget 0 k1\nget 0 k2\ndrain\npull 0 cold\npull 0 evict\nset k3 0 0\nshow\n";

const BY_TICKS: &str =
    "store 1 4 1023 1\nclass 6 0 0\nset k1 0 0\ndrain\nsweep 0\nset k2 0 0\nset k3 0 0\ndrain\nsweep 0\nset k4 0 0\nset k5 0 0\ndrain\nsweep 0\nshow\n";

#[test]
fn one_key(rt: HostRuntime) -> Result<(), Fail> {
    let keys = RandomState::new(&rt)?;
    let mut two = plan(1, 0, 0, 100);
    two.config.readers = 2;
    let trace = trace_of(rt.alloc(), keys, &two, &[5, 5, 5], &[])?;
    expect(&rt, &trace, 2, ONE_KEY);
    assert!(rt; trace.hits.first == 1 && trace.hits.queued == 1);
    Ok(())
}

#[test]
fn three_keys_through_two_items(rt: HostRuntime) -> Result<(), Fail> {
    let keys = RandomState::new(&rt)?;
    let trace = trace_of(
        rt.alloc(),
        keys,
        &plan(2, 50, 50, 3),
        &[1, 2, 1, 3, 1, 2],
        &[],
    )?;
    expect(&rt, &trace, 1, THREE_KEYS);
    assert!(rt; trace.hits.first == 1);
    Ok(())
}

#[test]
fn last_of_hot_ends_where_cold_and_warm_are_empty(rt: HostRuntime) -> Result<(), Fail> {
    let keys = RandomState::new(&rt)?;
    let trace = trace_of(rt.alloc(), keys, &plan(1, 100, 0, 9), &[1, 2], &[])?;
    expect(&rt, &trace, 0, WITHOUT_COLD);
    Ok(())
}

// The bump of key 1 is applied by the last put, and that of key 2 was dropped: so it is evicted.
#[test]
fn put_applies_the_bumps_that_wait(rt: HostRuntime) -> Result<(), Fail> {
    let keys = RandomState::new(&rt)?;
    let mut one = plan(3, 0, 100, 4);
    one.config.ring = 1;
    let trace = trace_of(rt.alloc(), keys, &one, &[1, 2, 1, 2, 9, 1, 2, 3], &[])?;
    expect(&rt, &trace, 4, BUMPED);
    assert!(rt; trace.hits.first == 2 && trace.hits.queued == 1 && trace.hits.full == 1);
    Ok(())
}

// A tend is due 10 ticks behind the last one, not 10 behind the access before.
#[test]
fn tends_stand_where_they_are_due(rt: HostRuntime) -> Result<(), Fail> {
    let mut by_ticks = plan(5, 100, 0, 1);
    by_ticks.tending = Tending::Ticks(10);
    let trace = trace_of(
        rt.alloc(),
        RandomState::new(&rt)?,
        &by_ticks,
        &[1, 2, 3, 4, 5],
        &[100, 103, 110, 119, 140],
    )?;
    expect(&rt, &trace, 0, BY_TICKS);
    Ok(())
}

// Where each access is 10 ticks behind the one before, a tend each 70 ticks is one each 7 accesses.
#[test]
fn ticks_are_counted_by_the_times(rt: HostRuntime) -> Result<(), Fail> {
    let accesses = shuffled(rt.alloc(), 600, 64)?;
    let mut times = Vec::new(rt.alloc());
    for place in 0u64..600 {
        times.push(place.saturating_mul(10))?;
    }
    let by_accesses = plan(20, 20, 40, 7);
    let mut by_ticks = by_accesses;
    by_ticks.tending = Tending::Ticks(70);
    let outcome = replay(&rt, rt.alloc(), &by_accesses, &gets(&accesses, &[]))?;
    assert!(rt; replay(&rt, rt.alloc(), &by_ticks, &gets(&accesses, &times))? == outcome);
    let trace = trace_of(
        rt.alloc(),
        RandomState::new(&rt)?,
        &by_accesses,
        &accesses,
        &[],
    )?;
    let timed = trace_of(
        rt.alloc(),
        RandomState::new(&rt)?,
        &by_ticks,
        &accesses,
        &times,
    )?;
    assert!(rt; timed.text.as_slice() == trace.text.as_slice());
    by_ticks.tending = Tending::Ticks(71);
    assert!(rt; replay(&rt, rt.alloc(), &by_ticks, &gets(&accesses, &times))? != outcome);
    Ok(())
}

#[test]
fn plan_of_no_items_is_refused(rt: HostRuntime) -> Result<(), Fail> {
    let keys = RandomState::new(&rt)?;
    let refused = trace_of(rt.alloc(), keys, &plan(0, 0, 0, 1), &[1], &[]).err();
    assert!(rt; refused == Some(ReplayFault::Config(CacheFault::Items)));
    Ok(())
}

#[test]
fn trace_of_two_parts_is_refused(rt: HostRuntime) -> Result<(), Fail> {
    let mut two = plan(4, 20, 40, 1);
    two.config.parts = 2;
    let refused = trace_of(rt.alloc(), RandomState::new(&rt)?, &two, &[1], &[]).err();
    assert!(rt; refused == Some(ReplayFault::Parts));
    two.config.items = 0;
    let refused = trace_of(rt.alloc(), RandomState::new(&rt)?, &two, &[1], &[]).err();
    assert!(rt; refused == Some(ReplayFault::Config(CacheFault::Items)));
    Ok(())
}

// A log of so many keys below the bound, in an order that looks random, small ones most.
fn shuffled(alloc: Global, count: u32, bound: u32) -> Result<Vec<u32>, AllocError> {
    let mut state = 88_172_645_463_325_252u64;
    let mut keys = Vec::new(alloc);
    for _ in 0..count {
        state = state
            .wrapping_mul(6_364_136_223_846_793_005)
            .wrapping_add(1_442_695_040_888_963_407);
        let key = (state >> 33) as u32 % bound.max(1);
        keys.push(key & (state >> 50) as u32)?;
    }
    Ok(keys)
}

// How many lines `get` a text has.
fn gets_in(text: &[u8]) -> u64 {
    let mut count = 0u64;
    for line in text.split(|byte| *byte == b'\n') {
        if line.starts_with(b"get ") {
            count = count.saturating_add(1);
        }
    }
    count
}

#[test]
fn each_get_tells_a_hit(rt: HostRuntime) -> Result<(), Fail> {
    let keys = RandomState::new(&rt)?;
    let accesses = shuffled(rt.alloc(), 600, 64)?;
    let trace = trace_of(rt.alloc(), keys, &plan(20, 20, 40, 7), &accesses, &[])?;
    assert!(rt; trace.hits.total() == gets_in(&trace.text));
    assert!(rt; trace.hits.marked > 0 && trace.hits.queued > 0 && trace.hits.full == 0);
    Ok(())
}

#[test]
fn trace_tells_the_hits_and_bumps_that_the_replay_counts(rt: HostRuntime) -> Result<(), Fail> {
    let accesses = shuffled(rt.alloc(), 600, 64)?;
    let mut plan = plan(40, 20, 40, 100);
    plan.config.readers = 3;
    plan.config.ring = 1;
    let outcome = replay(&rt, rt.alloc(), &plan, &gets(&accesses, &[]))?;
    let hits = trace_of(rt.alloc(), RandomState::new(&rt)?, &plan, &accesses, &[])?.hits;
    assert!(rt; outcome.hits == hits.total() && outcome.hits + outcome.misses == 600);
    assert!(rt; outcome.bumps.accepted == hits.queued && outcome.bumps.full == hits.full);
    assert!(rt; hits.queued > 0 && hits.full > 0);
    Ok(())
}

#[test]
fn plan_whose_shares_are_too_large_is_refused(rt: HostRuntime) -> Result<(), Fail> {
    let fault = Some(ReplayFault::Config(CacheFault::Shares));
    let plan = plan(10, 60, 50, 1);
    assert!(rt; replay(&rt, rt.alloc(), &plan, &gets(&[1], &[])).err() == fault);
    let keys = RandomState::new(&rt)?;
    assert!(rt; trace_of(rt.alloc(), keys, &plan, &[1], &[]).err() == fault);
    Ok(())
}

// Three times the same 23 keys, and then another: all are in COLD when they are got for the second time, one of the bumps
// was applied when the last key is put, and that put has its turn.
fn bumped(alloc: Global) -> Result<Vec<u32>, AllocError> {
    let mut accesses = Vec::new(alloc);
    for place in 0..69 {
        accesses.push(place % 23)?;
    }
    accesses.push(99)?;
    Ok(accesses)
}

#[test]
fn put_at_which_more_bumps_wait_than_it_applies_is_refused(rt: HostRuntime) -> Result<(), Fail> {
    let accesses = bumped(rt.alloc())?;
    let mut plan = plan(40, 0, 100, 23);
    plan.config.ring = 64;
    let keys = RandomState::new(&rt)?;
    let refused = trace_of(rt.alloc(), keys, &plan, &accesses, &[]).err();
    assert!(rt; refused == Some(ReplayFault::Bumps));
    Ok(())
}

#[test]
fn ring_of_sixteen_has_no_more_bumps_than_a_put_applies(rt: HostRuntime) -> Result<(), Fail> {
    let accesses = bumped(rt.alloc())?;
    let mut plan = plan(40, 0, 100, 23);
    plan.config.ring = 16;
    let outcome = replay(&rt, rt.alloc(), &plan, &gets(&accesses, &[]))?;
    let hits = trace_of(rt.alloc(), RandomState::new(&rt)?, &plan, &accesses, &[])?.hits;
    assert!(rt; outcome.hits == hits.total() && outcome.misses == 24);
    assert!(rt; outcome.bumps.accepted == 17 && hits.queued == 17 && hits.full == 6);
    Ok(())
}

// What a trace tells.
fn told(rt: &(impl AllocGlobal + RandomSource), trace: &ReplayTrace) -> Result<Vec<u8>, Fail> {
    let mut reader = Counted::new(trace.text.as_slice());
    let mut writer = Counted::new(Vec::new(rt.alloc()));
    run_model(rt.alloc(), RandomState::new(rt)?, &mut reader, &mut writer)?;
    Ok(writer.into_inner())
}

// How many lines of a text begin and end so.
fn lines_of(text: &[u8], begins: &[u8], ends: &[u8]) -> u64 {
    let mut count = 0u64;
    for line in text.split(|byte| *byte == b'\n') {
        if line.starts_with(begins) && line.ends_with(ends) {
            count = count.saturating_add(1);
        }
    }
    count
}

// The number that stands behind such a beginning of a line.
fn number_behind(text: &[u8], begins: &[u8]) -> u32 {
    let mut number = 0u32;
    for line in text.split(|byte| *byte == b'\n') {
        if !line.starts_with(begins) {
            continue;
        }
        for byte in &line[begins.len()..] {
            if !byte.is_ascii_digit() {
                break;
            }
            number = number
                .saturating_mul(10)
                .saturating_add(u32::from(byte.wrapping_sub(b'0')));
        }
    }
    number
}

// A trace moves and ends as many items as the cache does, where the last ones of HOT and WARM may be so old.
fn expect_same_moves<R: Wait + AllocGlobal + RandomSource + Abort>(
    rt: &R,
    hot_age: Option<u32>,
    warm_age: Option<u32>,
) -> Result<(), Fail> {
    let accesses = shuffled(rt.alloc(), 3_000, 64)?;
    let mut plan = plan(24, 20, 40, 50);
    plan.config.hot_age = hot_age;
    plan.config.warm_age = warm_age;
    plan.config.readers = 3;
    plan.config.ring = 2;
    let stats = replay(rt, rt.alloc(), &plan, &gets(&accesses, &[]))?.stats;
    let trace = trace_of(rt.alloc(), RandomState::new(rt)?, &plan, &accesses, &[])?;
    let text = told(rt, &trace)?;
    let moved = lines_of(&text, b"pull 0 cold warm ", b"").saturating_add(lines_of(
        &text, b"bump ", b" warm",
    ));
    let ended = lines_of(&text, b"pull 0 evict freed ", b"")
        .saturating_add(lines_of(&text, b"pull 0 evict deferred ", b""))
        .saturating_add(lines_of(&text, b"del ", b""));
    assert!(rt; moved > 0 && stats.flow.cold_to_warm == moved);
    assert!(rt; stats.evicted() > 0 && stats.evicted() == ended);
    assert!(rt; stats.number_hot == number_behind(&text, b"class 0 hot "));
    assert!(rt; stats.number_warm == number_behind(&text, b"class 0 warm "));
    assert!(rt; stats.number_cold == number_behind(&text, b"class 0 cold "));
    Ok(())
}

#[test]
fn trace_moves_and_ends_items_as_the_cache_does(rt: HostRuntime) -> Result<(), Fail> {
    expect_same_moves(&rt, None, None)?;
    expect_same_moves(&rt, Some(20), Some(200))?;
    expect_same_moves(&rt, Some(0), Some(50))
}

// The gets, the hits and the misses of a run.
fn counts(
    rt: &(impl Wait + AllocGlobal),
    asked: &Asked<'_>,
) -> Result<(u64, u64, u64), ReplayFault> {
    let outcome = replay(rt, rt.alloc(), &plan(4, 50, 50, 1), asked)?;
    Ok((outcome.accesses, outcome.hits, outcome.misses))
}

#[test]
fn what_is_no_get_is_neither_hit_nor_miss(rt: HostRuntime) -> Result<(), Fail> {
    let asked = Asked {
        keys: &[1, 1, 2, 1, 1, 2, 1, 2],
        times: &[],
        operations: &[
            Operation::Set,
            Operation::Get,
            Operation::Get,
            Operation::Delete,
            Operation::Get,
            Operation::Other,
        ],
        ttls: &[],
    };
    assert!(rt;
        counts(&rt, &asked)? == (5, 3, 2),
        "what stands behind the last operation is a get"
    );
    Ok(())
}

#[test]
fn what_is_put_expires_when_its_time_has_come(rt: HostRuntime) -> Result<(), Fail> {
    let asked = Asked {
        keys: &[1, 1, 1, 1, 2, 2],
        times: &[10, 14, 15, 19, 20, u64::MAX],
        operations: &[],
        ttls: &[5, 9, 5, 9, 0, 0],
    };
    assert!(rt;
        counts(&rt, &asked)? == (6, 3, 3),
        "it is there until a tick before, and what never expires stays"
    );
    Ok(())
}

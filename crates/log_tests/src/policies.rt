//! Runs with known tallies. How many accesses of whole logs hit is compared with other programs by `checks/replay`.
use replay_policies::{MAX_ITEMS, Policy, PolicyFault, Replay, Tally, replay};
use std::alloc::{AllocError, Global};
use std::process::Abort;
use std::test::*;

// The tally of so many hits and misses.
fn tally(hits: u64, misses: u64) -> Tally {
    Tally {
        accesses: hits.wrapping_add(misses),
        hits,
        misses,
    }
}

// A log of so many keys below the bound, in an order that looks random.
fn shuffled(alloc: Global, count: u32, bound: u32) -> Result<Vec<u32>, AllocError> {
    let mut state = 88_172_645_463_325_252u64;
    let mut keys = Vec::new(alloc);
    for _ in 0..count {
        state = state
            .wrapping_mul(6_364_136_223_846_793_005)
            .wrapping_add(1_442_695_040_888_963_407);
        keys.push((state >> 33) as u32 % bound.max(1))?;
    }
    Ok(keys)
}

// A log of so many keys below the bound, the lower ones far more often.
fn skewed(alloc: Global, count: u32, bound: u32) -> Result<Vec<u32>, AllocError> {
    let drawn = shuffled(alloc, count.saturating_mul(2), bound)?;
    let mut keys = Vec::new(alloc);
    let mut first = None;
    for key in &drawn {
        first = match first {
            None => Some(*key),
            Some(other) => {
                keys.push(other.min(*key))?;
                None
            }
        };
    }
    Ok(keys)
}

// Whether an access hits.
fn access(run: &mut Replay, key: u32) -> Result<bool, AllocError> {
    run.access(key)
}

// What the accesses so far came to.
fn told(run: &Replay) -> Tally {
    run.tally()
}

// A log through a cache of so many items comes to so many hits and misses.
fn expect(
    rt: &impl Abort,
    alloc: Global,
    policy: Policy,
    items: u32,
    accesses: &[u32],
    wanted: Tally,
) -> Result<(), PolicyFault> {
    let tally = replay(alloc, policy, items, accesses)?;
    assert!(rt; tally == wanted);
    Ok(())
}

// By both policies.
fn expect_both(
    rt: &impl Abort,
    alloc: Global,
    items: u32,
    accesses: &[u32],
    wanted: Tally,
) -> Result<(), PolicyFault> {
    expect(rt, alloc, Policy::Lru, items, accesses, wanted)?;
    expect(rt, alloc, Policy::Fifo, items, accesses, wanted)
}

// Each access of these keys is a hit, or isn't.
fn expect_hits(
    rt: &impl Abort,
    run: &mut Replay,
    accesses: &[(u32, bool)],
) -> Result<(), AllocError> {
    for (key, wanted) in accesses {
        let hit = access(run, *key)?;
        assert!(rt; hit == *wanted, "key {key}");
    }
    Ok(())
}

#[test]
fn one_item(rt: HostRuntime) -> Result<(), Fail> {
    let accesses = [7, 7, 8, 7, 7, 7, 0, 4_294_967_295, 4_294_967_295];
    expect_both(&rt, rt.alloc(), 1, &accesses, tally(4, 5))?;
    expect(&rt, rt.alloc(), Policy::Fifo, 1, &[], tally(0, 0))?;
    Ok(())
}

#[test]
fn one_key(rt: HostRuntime) -> Result<(), Fail> {
    expect_both(&rt, rt.alloc(), 10, &[9; 50], tally(49, 1))?;
    Ok(())
}

// No cache is of so many items.
fn expect_refused(rt: &impl Abort, alloc: Global, policy: Policy, items: u32) {
    let told = replay(alloc, policy, items, &[1, 2, 1]);
    assert_eq!(rt; told, Err(PolicyFault::Items));
}

#[test]
fn items_are_in_range(rt: HostRuntime) -> Result<(), Fail> {
    expect_refused(&rt, rt.alloc(), Policy::Lru, 0);
    expect_refused(&rt, rt.alloc(), Policy::Lru, MAX_ITEMS + 1);
    expect_refused(&rt, rt.alloc(), Policy::Fifo, MAX_ITEMS + 1);
    expect_both(&rt, rt.alloc(), 1_000_000, &[1, 2, 1], tally(1, 2))?;
    Ok(())
}

// Five times so many keys in turn.
fn scans(alloc: Global, keys: u32) -> Result<Vec<u32>, AllocError> {
    let mut accesses = Vec::new(alloc);
    for _pass in 0..5 {
        for key in 0..keys {
            accesses.push(key)?;
        }
    }
    Ok(accesses)
}

#[test]
fn scans_that_do_not_fit_never_hit(rt: HostRuntime) -> Result<(), Fail> {
    let accesses = scans(rt.alloc(), 101)?;
    expect_both(&rt, rt.alloc(), 100, &accesses, tally(0, 505))?;
    expect(
        &rt,
        rt.alloc(),
        Policy::Lru,
        101,
        &accesses,
        tally(404, 101),
    )?;
    Ok(())
}

// What is done with a key, and whether it was in the cache.
#[derive(Clone, Copy)]
enum Step {
    Access(u32, bool),
    Remove(u32, bool),
}

// What is done in a new cache.
#[derive(Clone, Copy)]
enum Play<'a> {
    // These accesses come to so many hits, and fill it.
    Fill(&'a [(u32, bool)], u64),

    // These steps come to this.
    Steps(&'a [Step]),

    // So many accesses of a log hit, where in place of each fifth one its key is removed.
    Removals(&'a [u32], u64),
}

// These accesses come to so many hits in a cache that has no keys yet, and fill it.
fn fill(
    rt: &impl Abort,
    run: &mut Replay,
    items: u32,
    accesses: &[(u32, bool)],
    hits: u64,
) -> Result<(), Fail> {
    assert!(rt; told(run) == tally(0, 0));
    expect_hits(rt, run, accesses)?;
    let misses = (accesses.len() as u64).wrapping_sub(hits);
    assert!(rt; told(run) == tally(hits, misses));
    assert!(rt; run.key_count() == items as usize);
    Ok(())
}

// These steps come to this.
fn take_steps(rt: &impl Abort, run: &mut Replay, steps: &[Step]) -> Result<(), Fail> {
    for step in steps {
        match *step {
            Step::Access(key, wanted) => assert!(rt; access(run, key)? == wanted, "key {key}"),
            Step::Remove(key, wanted) => assert!(rt; run.remove(key) == wanted, "key {key}"),
        }
    }
    Ok(())
}

// So many accesses of a log hit, where in place of each fifth one its key is removed.
fn run_with_removals(
    rt: &impl Abort,
    run: &mut Replay,
    log: &[u32],
    hits: u64,
) -> Result<(), Fail> {
    for (place, key) in log.iter().enumerate() {
        if place % 5 == 4 {
            run.remove(*key);
        } else {
            access(run, *key)?;
        }
    }
    assert_eq!(rt; told(run).hits, hits);
    Ok(())
}

fn play_on(rt: &impl Abort, run: &mut Replay, items: u32, play: Play<'_>) -> Result<(), Fail> {
    match play {
        Play::Fill(accesses, hits) => fill(rt, run, items, accesses, hits),
        Play::Steps(steps) => take_steps(rt, run, steps),
        Play::Removals(log, hits) => run_with_removals(rt, run, log, hits),
    }
}

// Plays in a new cache of so many items. The cache is made here alone, and borrowed by all that is played.
fn expect_play(
    rt: &impl Abort,
    alloc: Global,
    policy: Policy,
    items: u32,
    play: Play<'_>,
) -> Result<(), Fail> {
    match Replay::new(alloc, policy, items) {
        Ok(mut run) => play_on(rt, &mut run, items, play),
        Err(fault) => Err(Fail::from(fault)),
    }
}

const LRU: [(u32, bool); 7] = [
    (1, false),
    (2, false),
    (3, false),
    (1, true),
    // 2 goes for it, and 3 for 2.
    (4, false),
    (1, true),
    (2, false),
];

#[test]
fn lru_keeps_what_was_asked_for(rt: HostRuntime) -> Result<(), Fail> {
    let play = Play::Fill(&LRU, 2);
    expect_play(&rt, rt.alloc(), Policy::Lru, 3, play)
}

const FIFO: [(u32, bool); 7] = [
    (1, false),
    (2, false),
    (3, false),
    (1, true),
    // 1 goes for it, 2 for 1, and 3 for 2.
    (4, false),
    (1, false),
    (2, false),
];

#[test]
fn fifo_keeps_what_came_last(rt: HostRuntime) -> Result<(), Fail> {
    let play = Play::Fill(&FIFO, 1);
    expect_play(&rt, rt.alloc(), Policy::Fifo, 3, play)
}

const CLOCK: [(u32, bool); 11] = [
    (1, false),
    (2, false),
    (3, false),
    (1, true),
    (1, true),
    // The hand passes 1, once for both hits, and evicts 2.
    (4, false),
    (1, true),
    (3, true),
    // It passes 3 and 1, and evicts 4; and then it evicts 3.
    (2, false),
    (4, false),
    (3, false),
];

#[test]
fn clock_gives_a_second_round(rt: HostRuntime) -> Result<(), Fail> {
    let play = Play::Fill(&CLOCK, 4);
    expect_play(&rt, rt.alloc(), Policy::Clock, 3, play)
}

const SIEVE: [(u32, bool); 9] = [
    (1, false),
    (2, false),
    (3, false),
    (1, true),
    // The hand passes 1, which stays the oldest, and evicts 2; it goes on to 3, and not back to 1.
    (4, false),
    (5, false),
    (1, true),
    (3, false),
    (2, false),
];

#[test]
fn sieve_stays_where_it_evicted(rt: HostRuntime) -> Result<(), Fail> {
    let play = Play::Fill(&SIEVE, 2);
    expect_play(&rt, rt.alloc(), Policy::Sieve, 3, play)
}

// One item is the small queue's and two are the main one's, and there are two ghosts.
const S3_FIFO: [(u32, bool); 17] = [
    (1, false),
    (2, false),
    (3, false),
    // 1 goes and is a ghost; it comes into the main queue, and 2 goes for it.
    (4, false),
    (1, false),
    // 3 was asked for twice and goes on to the main queue; 4 goes for 5, and 5 for 6, so that 2 is no ghost any more.
    (3, true),
    (3, true),
    (5, false),
    (6, false),
    (2, false),
    // 5 is a ghost and comes into the main queue, and 2 goes for it, so that the small one is empty. So the main one
    // evicts for 7: it passes 1, which was asked for, and 3 goes, which wasn't since it came there. It is no ghost.
    (5, false),
    (1, true),
    (7, false),
    (3, false),
    // 7 went for it.
    (1, true),
    (5, true),
    (3, true),
];

#[test]
fn s3_fifo_keeps_what_comes_again(rt: HostRuntime) -> Result<(), Fail> {
    let play = Play::Fill(&S3_FIFO, 6);
    expect_play(&rt, rt.alloc(), Policy::S3Fifo, 3, play)
}

const S3_FIFO_USES: [(u32, bool); 17] = [
    (1, false),
    (2, false),
    (3, false),
    // 1 is a ghost and comes into the main queue; its 5 hits are 3 uses.
    (1, false),
    (1, true),
    (1, true),
    (1, true),
    (1, true),
    (1, true),
    // 2 and 3 are ghosts, so the small queue is empty. The main one passes 1 for 3, for 4, and for 5 at its second time.
    (2, false),
    (3, false),
    (4, false),
    (5, false),
    (4, false),
    (5, false),
    // 1 has no uses left, and goes for 6.
    (6, false),
    (1, false),
];

#[test]
fn s3_fifo_counts_three_uses(rt: HostRuntime) -> Result<(), Fail> {
    let play = Play::Fill(&S3_FIFO_USES, 5);
    expect_play(&rt, rt.alloc(), Policy::S3Fifo, 2, play)
}

const S3_FIFO_OF_ONE: [(u32, bool); 5] = [(1, false), (1, true), (1, true), (2, false), (1, false)];

#[test]
fn s3_fifo_of_one_item_has_no_ghosts(rt: HostRuntime) -> Result<(), Fail> {
    let play = Play::Fill(&S3_FIFO_OF_ONE, 2);
    expect_play(&rt, rt.alloc(), Policy::S3Fifo, 1, play)
}

// 2 leaves no place behind that it would have to fill again: 1 is still there.
const REMOVED_AND_PUT_AGAIN: [Step; 7] = [
    Step::Access(1, false),
    Step::Access(2, false),
    Step::Remove(2, true),
    Step::Access(2, false),
    Step::Access(1, true),
    Step::Remove(3, false),
    Step::Access(2, true),
];

#[test]
fn each_policy_frees_a_removed_place(rt: HostRuntime) -> Result<(), Fail> {
    for policy in [
        Policy::Lru,
        Policy::Fifo,
        Policy::Clock,
        Policy::Sieve,
        Policy::S3Fifo,
    ] {
        expect_play(
            &rt,
            rt.alloc(),
            policy,
            2,
            Play::Steps(&REMOVED_AND_PUT_AGAIN),
        )?;
    }
    Ok(())
}

const CLOCK_REMOVES: [Step; 10] = [
    Step::Access(1, false),
    Step::Access(2, false),
    Step::Access(3, false),
    Step::Access(1, true),
    // The hand stood at 1, and stands at 2, which goes for 5.
    Step::Remove(1, true),
    Step::Access(4, false),
    Step::Access(5, false),
    Step::Access(3, true),
    Step::Access(4, true),
    Step::Access(2, false),
];

#[test]
fn clock_goes_on_from_a_removed_key(rt: HostRuntime) -> Result<(), Fail> {
    let play = Play::Steps(&CLOCK_REMOVES);
    expect_play(&rt, rt.alloc(), Policy::Clock, 3, play)
}

const SIEVE_REMOVES: [Step; 11] = [
    Step::Access(1, false),
    Step::Access(2, false),
    Step::Access(3, false),
    Step::Access(1, true),
    // The hand passes 1 and evicts 2. It stands at 3, and then at 4, which goes for 6.
    Step::Access(4, false),
    Step::Remove(3, true),
    Step::Access(5, false),
    Step::Access(6, false),
    Step::Access(1, true),
    Step::Access(5, true),
    Step::Access(4, false),
];

#[test]
fn sieve_goes_on_from_a_removed_key(rt: HostRuntime) -> Result<(), Fail> {
    let play = Play::Steps(&SIEVE_REMOVES);
    expect_play(&rt, rt.alloc(), Policy::Sieve, 3, play)
}

const S3_FIFO_REMOVES: [Step; 14] = [
    Step::Access(1, false),
    Step::Access(2, false),
    Step::Access(3, false),
    // 3 is no ghost for it: it comes into the small queue again, and 1 goes for 4, and is a ghost.
    Step::Remove(3, true),
    Step::Access(3, false),
    Step::Access(4, false),
    // It stays a ghost, and comes into the main queue; 2 goes for it, and then 3.
    Step::Remove(1, false),
    Step::Access(1, false),
    Step::Access(2, false),
    Step::Access(3, false),
    Step::Access(5, false),
    Step::Access(2, true),
    Step::Access(3, true),
    Step::Access(4, false),
];

#[test]
fn s3_fifo_remembers_no_removed_key(rt: HostRuntime) -> Result<(), Fail> {
    let play = Play::Steps(&S3_FIFO_REMOVES);
    expect_play(&rt, rt.alloc(), Policy::S3Fifo, 3, play)
}

// So many accesses hit of a log with removals: as many as checks/lib/policies.py comes to.
fn expect_removals(
    rt: &impl Abort,
    alloc: Global,
    policy: Policy,
    wanted: &[(u32, u64)],
) -> Result<(), Fail> {
    let log = skewed(alloc, 3_000, 40)?;
    for (items, hits) in wanted {
        expect_play(rt, alloc, policy, *items, Play::Removals(&log, *hits))?;
    }
    Ok(())
}

const REMOVALS: [(Policy, [(u32, u64); 4]); 5] = [
    (Policy::Lru, [(2, 146), (7, 543), (20, 1_413), (30, 1_827)]),
    (Policy::Fifo, [(2, 148), (7, 528), (20, 1_371), (30, 1_814)]),
    (
        Policy::Clock,
        [(2, 148), (7, 558), (20, 1_434), (30, 1_833)],
    ),
    (
        Policy::Sieve,
        [(2, 148), (7, 548), (20, 1_425), (30, 1_810)],
    ),
    (
        Policy::S3Fifo,
        [(2, 162), (7, 557), (20, 1_394), (30, 1_780)],
    ),
];

#[test]
fn removals_come_to_what_another_program_tells(rt: HostRuntime) -> Result<(), Fail> {
    for (policy, wanted) in &REMOVALS {
        expect_removals(&rt, rt.alloc(), *policy, wanted)?;
    }
    Ok(())
}

//! Sets, which tell only whether another item was evicted.
ghost use Rattle.bump_cache.specs.Opening.{IsNamed};

use crate::expecting::*;
use crate::model::items_in;
use crate::stands::{Entry, Stand, config_of, next};
use bump_cache::{CacheBlank, LogName, Name};
use std::alloc::{AllocError, Global};
use std::marker::Brand;
use std::process::Abort;
use std::sync::Wait;
use std::test::Fail;

// Sets a key at random, of which there are two more than items. Another item is evicted where the key has none and there
// are as many as there may be, and each key has what was set last. A key is read twice before one is set, so some items
// have grown active, and bumps wait.
fn set_one<N: Name + LogName, R: Wait + Abort>(
    rt: &R,
    stand: &mut Stand<N, u64, u64>,
    seed: &mut u64,
    items: u32,
    now: u64,
) {
    let keys = u64::from(items).saturating_add(2);
    let key = next(seed) % keys.max(1);
    let read = next(seed) % keys.max(1);
    expect_eq!(rt; stand.get(0, &read, now), stand.get(0, &read, now));
    let is_new = stand.peek(0, &key, now).is_none();
    let is_full = items_in(&stand.stats(rt)) == u64::from(items);
    let set = stand.set(rt, &Entry { key, value: now }, 0, now);
    expect_that!(rt; set == Ok(is_new && is_full));
    expect_eq!(rt; stand.get(0, &key, now), Some(now));
}

// Sets keys at random.
fn set_all<N: Name + LogName, R: Wait + Abort>(
    rt: &R,
    alloc: Global,
    blank: CacheBlank<u64, u64>,
    items: u32,
) -> Result<(), AllocError>
    requires { IsNamed N.table N.book N.name N.parts blank }
{
    let mut stand = Stand::<N, u64, u64>::open(alloc, rt, blank)?;
    let mut seed = 3u64;
    for now in 0..600 {
        set_one(rt, &mut stand, &mut seed, items, now);
    }
    Ok(())
}

#[test]
fn a_set_tells_whether_another_item_was_evicted(rt: HostRuntime) -> Result<(), Fail> {
    let alloc = rt.alloc();
    for (items, ring) in [
        (1, 1),
        (1, 2),
        (2, 1),
        (2, 2),
        (3, 1),
        (3, 2),
        (4, 1),
        (20, 8),
    ] {
        for spare in [1, 2] {
            let config = config_of(items, spare, 20, 40, ring);
            let blank = CacheBlank::<u64, u64>::new(alloc, &config)?;
            set_all::<Brand, _>(&rt, alloc, blank, items)?;
        }
    }
    Ok(())
}

//! Four threads get and touch the items of two classes, while a fifth links, pulls, unlinks, drains and sweeps.
mod ends;
mod keeping;
mod reading;

use super::whole::{Story, tell_of};
use bump_store::{ClassConfig, Config, Maintainer, Name, ReaderHeads, Store, Worker};
use ends::expect_told;
use keeping::{Keeper, keep};
use reading::touch_apart;
use std::alloc::{AllocError, Global};
use std::process::Abort;
use std::sync::Wait;
use std::sync::atomic::{AtomicBool, Ordering};
use std::test::Fail;
use std::thread;
use std::thread::Threads;

/// The classes: together as many chunks as the rings have room for, four times over.
const CLASSES: [ClassConfig; 2] = [
    ClassConfig {
        chunks: 48,
        hot: 8,
        warm: 8,
    },
    ClassConfig {
        chunks: 16,
        hot: 2,
        warm: 4,
    },
];

/// Bumps that each of the four rings has room for.
const CAPACITY: u32 = 4;

// The readers work until they made all their touches, and the fifth thread until the readers are done.
fn join_all<N: Name + Send + Sync, R: Threads + Abort + Wait + Sync>(
    rt: &R,
    alloc: Global,
    store: &Store<N>,
    workers: Vec<Worker<N>>,
    keeper: Keeper<N>,
) -> Result<(), AllocError> {
    let done = AtomicBool::new(false);
    let heads: &ReaderHeads<N> = store;
    let (told, keeper) = thread::join(
        rt,
        || {
            let told = touch_apart(rt, alloc, heads, workers);
            done.store(true, Ordering::SeqCst);
            told
        },
        || keep(rt, store, keeper, &done),
    );
    expect_told(rt, alloc, store, told?, keeper)
}

/// Items are linked, so that there are some to be touched, whichever thread is first. Then all threads work.
pub fn work_apart<N: Name + Send + Sync, R: Threads + Abort + Wait + Sync>(
    rt: &R,
    alloc: Global,
    store: &Store<N>,
    workers: Vec<Worker<N>>,
    maintainer: Maintainer<N>,
) {
    let mut keeper = Keeper::new(maintainer.into_lanes());
    for now in 0..256 {
        keeper.tend(rt, store, now);
    }
    join_all(rt, alloc, store, workers, keeper).expect(rt, "there is memory");
}

#[test]
fn threads_touch_what_is_linked_and_drained(rt: HostRuntime) -> Result<(), Fail> {
    let alloc = rt.alloc();
    let config = Config::new(4, CAPACITY, 64, 1, Vec::from_array(alloc, CLASSES)?)?;
    Ok(tell_of(&rt, alloc, &config, Story::WorkedApart)?)
}

//! Passes of calls by threads side by side, and what they took.
use crate::workloads::Work;
use std::alloc::{AllocError, Global};
use std::hint::spin_loop;
use std::rt::Clock;
use std::sync::Wait;
use std::sync::atomic::AtomicU64;
use std::sync::atomic::Ordering::SeqCst;
use std::thread::{self, Threads};
use std::time::Instant;

/// So many calls a thread makes in a pass.
pub const CALLS: u64 = 100_000;

/// Calls by so many threads, of what is full with so many items.
#[derive(Clone, Copy)]
pub struct Passes<R> {
    pub rt: R,
    pub alloc: Global,
    pub work: Work,
    pub threads: u32,
    pub items: u32,
}

/// What is called, as a thread has it.
pub trait Called {
    /// Calls it once, and tells whether it came to what was wanted.
    fn call(&mut self, key: u64) -> bool;
}

/// What each pass took in nanoseconds, as the mean of the threads, the fastest first; and how many calls came to what
/// was wanted.
#[derive(Drop)]
pub struct Times {
    pub nanos: Vec<u64>,
    pub right: u64,
}

// Waits until so many have come, but not for ever: a thread that the clock is refused doesn't come.
fn meet(arrived: &AtomicU64, all: u64) {
    arrived.fetch_add(1, SeqCst);
    for _look in 0..100_000_000 {
        if arrived.load(SeqCst) >= all {
            return;
        }
        spin_loop();
    }
}

// The pass that is timed. Keys that are present come in an order that jumps, and so do fresh ones, which are far above
// them. Its name is what callgrind is told to count.
#[inline(never)]
fn timed_pass<C: Called>(called: &mut C, keys: Option<u64>, state: &mut u64) -> u64 {
    let mut right = 0u64;
    for _call in 0..CALLS {
        *state = state
            .wrapping_mul(6_364_136_223_846_793_005)
            .wrapping_add(1_442_695_040_888_963_407);
        let key = match keys {
            Some(keys) => (*state >> 33).wrapping_mul(keys) >> 31,
            None => *state,
        };
        right = right.wrapping_add(u64::from(called.call(key)));
    }
    right
}

impl<R: Threads + Clock + Wait + Copy + Send + Sync> Passes<R> {
    // The calls are of so many keys, from 0 on; of fresh ones where there is no number.
    fn keys(&self) -> Option<u64> {
        match self.work {
            Work::Put | Work::PutParts | Work::PutApart | Work::Set => None,
            Work::Hot => Some(1),
            Work::Get | Work::GetMany | Work::Bytes => Some(u64::from(self.items)),
            Work::PutSame | Work::SetSame => Some(u64::from(self.items)),
        }
    }

    // Makes the passes of one thread, each of which begins once all have come, and adds what each took to its sum. None
    // where the clock is refused.
    fn time<C: Called>(&self, called: &mut C, came: &AtomicU64, sums: &[AtomicU64]) -> Option<u64> {
        let mut all = u64::from(self.threads);
        let mut state = came.fetch_add(1, SeqCst).wrapping_add(1) << 32;
        let mut right = timed_pass(called, self.keys(), &mut state);
        for sum in sums {
            all = all.wrapping_add(u64::from(self.threads));
            meet(came, all);
            let start = Instant::now(&self.rt).ok()?;
            right = right.wrapping_add(timed_pass(called, self.keys(), &mut state));
            let spent = start.elapsed(&self.rt).ok()?;
            sum.fetch_add(u64::try_from(spent.as_nanos()).unwrap_or(u64::MAX), SeqCst);
        }
        Some(right)
    }

    /// Lets each thread make 15 passes with what it calls, after one that isn't timed. None where memory or the clock
    /// is refused.
    pub fn time_all<C: Called + Drop + Send>(&self, called: Vec<C>) -> Option<Times> {
        let threads = u64::from(self.threads.max(1));
        let mut sums = Vec::new(self.alloc);
        for _pass in 0..15 {
            sums.push(AtomicU64::new(0)).ok()?;
        }
        let came = AtomicU64::new(0);
        let call = |mut one: C| self.time(&mut one, &came, &sums);
        let all = thread::map_vec(&self.rt, called, &call);
        let mut right = 0u64;
        for one in &all.ok()? {
            right = right.wrapping_add((*one)?);
        }
        let mut nanos = Vec::new(self.alloc);
        for sum in &sums {
            nanos.push(sum.load(SeqCst) / threads).ok()?;
        }
        nanos.sort().ok()?;
        Some(Times { nanos, right })
    }
}

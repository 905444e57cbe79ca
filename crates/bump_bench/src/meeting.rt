//! Threads that begin together.
use std::hint::spin_loop;
use std::sync::atomic::AtomicU64;
use std::sync::atomic::Ordering::SeqCst;

// How often a thread looks whether the others have come: then it begins without them.
const LOOKS: u32 = 100_000_000;

/// Waits until so many have come, but not for ever.
pub fn meet(arrived: &AtomicU64, all: u32) {
    arrived.fetch_add(1, SeqCst);
    for _look in 0..LOOKS {
        if arrived.load(SeqCst) >= u64::from(all) {
            return;
        }
        spin_loop();
    }
}

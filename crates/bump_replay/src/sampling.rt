//! A sample of a log's keys, in place of all: what it says of a smaller cache is nearly so of a cache that is larger by as
//! much as the log has more keys.

use crate::course::Course;
use access_logs::Log;
use std::alloc::{AllocError, Global};

/// What a sample was taken from.
#[derive(Clone, Copy)]
pub struct Sampled {
    /// How many accesses the log has.
    pub accesses: usize,

    /// How many keys the sample has.
    pub keys: u32,
}

// What spreads the numbers of keys: odd, and its bits are those of the golden ratio.
const SPREAD: u64 = 0x9e37_79b9_7f4a_7c15;

// Whether a key is in a sample of one in so many: its number, spread over 32 bits, decides, so all accesses to it are
// there or none.
fn is_sampled(key: u32, every: u32) -> bool {
    let spread = u64::from(key).saturating_add(1).wrapping_mul(SPREAD);
    let spread = (spread ^ (spread >> 29)).wrapping_mul(SPREAD) >> 32;
    spread.checked_rem(u64::from(every)) == Some(0)
}

// How many keys of so many are in a sample of one in so many.
fn sampled_keys(keys: u32, every: u32) -> u32 {
    let mut count = 0u32;
    for key in 0..keys {
        if is_sampled(key, every) {
            count = count.saturating_add(1);
        }
    }
    count
}

// Leaves the accesses of a log to the keys of a sample.
fn take(alloc: Global, log: &mut Log, every: u32) -> Result<(), AllocError> {
    let mut course = Course::new(alloc);
    for (place, key) in log.accesses.iter().enumerate() {
        if is_sampled(*key, every) {
            course.add(log, place)?;
        }
    }
    let Course {
        keys,
        sizes,
        times,
        operations,
        ttls,
    } = course;
    log.accesses = keys;
    log.sizes = sizes;
    log.times = times;
    log.operations = operations;
    log.ttls = ttls;
    Ok(())
}

/// Leaves the accesses to one key in so many, by a hash of the key's number, and says what was taken.
pub fn sample(alloc: Global, log: &mut Log, every: u32) -> Result<Sampled, AllocError> {
    let accesses = log.accesses.len();
    take(alloc, log, every)?;
    Ok(Sampled {
        accesses,
        keys: sampled_keys(log.keys, every),
    })
}

/// So many items, or bytes, for a sample of one key in so many: the same share of them, rounded down; one at least, where
/// there is any.
pub fn scaled(count: u64, every: u32) -> u64 {
    let share = count / u64::from(every).max(1);
    share.max(count.min(1))
}

/// By how many hundredths of a percent, to the nearest one, the sample has more accesses than its share of the keys would
/// have, or fewer: the keys that are asked for most often are in it or not by chance. So far its shares of misses may be off.
pub fn lean(log: &Log, sampled: Sampled) -> u64 {
    let due = u128::from(log.keys.max(1));
    let have = (log.accesses.len() as u128).saturating_mul(due);
    let share = (sampled.accesses as u128)
        .saturating_mul(u128::from(sampled.keys))
        .max(1);
    let apart = have.abs_diff(share).saturating_mul(10_000);
    u64::try_from(apart.saturating_add(share / 2) / share).unwrap_or(u64::MAX)
}

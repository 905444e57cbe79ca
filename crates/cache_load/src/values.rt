//! Values by which a reader sees whether they are right.

/// A value: its key, a number that says which writer put it and grows with each of his puts, and a sum over both.
pub type Value = (u64, (u64, u64));

/// There are at most so many writers.
pub const MOST_WRITERS: u32 = 4;

/// The keys below this are there from the first get on. Each writer puts them anew again and again: of its puts each
/// second one is of such a key. So between two puts of one such key there are fewer than 32 of each writer, which is less
/// than there are items in HOT of a part: it is never evicted.
pub const STAYING: u64 = 16;

// So many other keys there are for each part: more than it has room for.
const OTHERS: u64 = 2_384;

// A number over a key and a value's number.
fn sum_of(key: u64, number: u64) -> u64 {
    let mixed = key ^ number.wrapping_mul(0x9e37_79b9_7f4a_7c15);
    (mixed ^ (mixed >> 29)).wrapping_mul(0xbf58_476d_1ce4_e5b9)
}

/// A value of a key, by a writer's count of puts.
pub fn value_of(key: u64, writer: u32, count: u64) -> Value {
    let number = count
        .wrapping_mul(u64::from(MOST_WRITERS))
        .wrapping_add(u64::from(writer));
    (key, (number, sum_of(key, number)))
}

/// The number of a value that was put under the key; or None where it is the value of another one, or damaged.
pub fn number_in(key: u64, value: &Value) -> Option<u64> {
    let (of, (number, sum)) = *value;
    if of == key && sum == sum_of(key, number) {
        Some(number)
    } else {
        None
    }
}

/// The next of the random numbers that a seed begins.
pub fn next(seed: &mut u64) -> u64 {
    *seed = seed
        .wrapping_mul(6_364_136_223_846_793_005)
        .wrapping_add(1_442_695_040_888_963_407);
    *seed >> 33
}

/// How many keys come and go in a cache of so many parts.
pub fn others_of(parts: u32) -> u64 {
    OTHERS.saturating_mul(u64::from(parts))
}

/// The next of the keys that come and go, of which there are so many.
pub fn next_other(seed: &mut u64, others: u64) -> u64 {
    STAYING.saturating_add(next(seed) % others.max(1))
}

/// Counts one more where something is so.
pub fn count(at: &mut u64, is_so: bool) {
    *at = at.saturating_add(u64::from(is_so));
}

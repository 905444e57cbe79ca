//! Keys of one hash, as a stranger may choose them who knows the seed, and keys whose hashes have a part in common.

ghost use Rattle.bump_cache.specs.Opening.{IsNamed};

use crate::expecting::*;
use crate::stands::{SEED, Stand};
use bump_cache::{CacheBlank, CacheConfig, LogName, Name, Seed};
use std::alloc::{AllocError, Global};
use std::marker::Brand;
use std::sync::Wait;
use std::test::Fail;

// Under this seed each word is multiplied with 0: its second number is the hash's own multiplier. So all keys have one hash.
const ONE_HASH: Seed = Seed {
    first: 0,
    second: 0xe703_7ed1_a0b4_28db,
};

// So many keys more are asked for that were never put.
const MORE: usize = 10;

// Which hashes the keys have.
#[derive(Clone, Copy)]
enum Hashes {
    // any
    Any,

    // those with the lowest upper bits: in a small index their search begins in one nest
    OneHome,

    // those with one number in the lowest bits: they have one tag
    OneTag,
}

impl Hashes {
    fn has(self, hash: u32) -> bool {
        match self {
            Hashes::Any => true,
            Hashes::OneHome => hash >> 24 == 0,
            Hashes::OneTag => hash % 256 == 7,
        }
    }
}

// So many keys that have such hashes, and a few more.
fn keys_of(
    alloc: Global,
    seed: Seed,
    hashes: Hashes,
    count: usize,
) -> Result<Vec<u64>, AllocError> {
    let mut keys = Vec::new(alloc);
    for key in 0..1_000_000u64 {
        if keys.len() >= count.saturating_add(MORE) {
            break;
        }
        if hashes.has(seed.hash_one(key)) {
            keys.push(key)?;
        }
    }
    Ok(keys)
}

fn count(at: &mut u64, right: bool) {
    *at = at.saturating_add(u64::from(!right));
}

// Puts these keys, which are new.
fn put_all<N: Name + LogName, W: Wait>(
    rt: &W,
    stand: &mut Stand<N, u64, u64>,
    keys: &[u64],
    put_ones: usize,
    wrong: &mut u64,
) {
    for key in keys.iter().take(put_ones) {
        let put = stand.put(rt, *key, *key ^ 1, 0);
        let is_new = put.is_ok_and(|did| did.old.is_none() && did.evicted.is_none());
        count(wrong, is_new);
    }
}

// Gets all keys.
fn get_all<N: Name + LogName>(
    stand: &mut Stand<N, u64, u64>,
    keys: &[u64],
    put_ones: usize,
    wrong: &mut u64,
) {
    for (at, key) in keys.iter().enumerate() {
        let wanted = if at < put_ones { Some(*key ^ 1) } else { None };
        count(wrong, stand.get(0, key, 1) == wanted);
    }
}

// Removes a key.
fn remove<N: Name + LogName, W: Wait>(
    rt: &W,
    stand: &mut Stand<N, u64, u64>,
    key: u64,
    wrong: &mut u64,
) {
    count(wrong, stand.remove(rt, &key, 1) == Some(key ^ 1));
    count(wrong, stand.get(0, &key, 1).is_none());
}

// Puts a key anew.
fn put_anew<N: Name + LogName, W: Wait>(
    rt: &W,
    stand: &mut Stand<N, u64, u64>,
    key: u64,
    wrong: &mut u64,
) {
    let put = stand.put(rt, key, key, 0);
    count(wrong, put.is_ok_and(|did| did.old == Some(key ^ 1)));
    count(wrong, stand.get(0, &key, 1) == Some(key));
}

// How many calls on a cache answer something wrong: so many of the keys are put, and all got; each second one is removed
// and not found any more; and the others are put anew.
fn count_wrong<N: Name + LogName, W: Wait>(
    rt: &W,
    stand: &mut Stand<N, u64, u64>,
    keys: &[u64],
    put_ones: usize,
) -> u64 {
    let mut wrong = 0u64;
    put_all(rt, stand, keys, put_ones, &mut wrong);
    get_all(stand, keys, put_ones, &mut wrong);
    for (at, key) in keys.iter().take(put_ones).enumerate() {
        if at % 2 == 0 {
            remove(rt, stand, *key, &mut wrong);
        } else {
            put_anew(rt, stand, *key, &mut wrong);
        }
    }
    wrong
}

// Opens a cache under the names that the blank's table and log have, and makes the calls.
fn run<N: Name + LogName, W: Wait>(
    rt: &W,
    alloc: Global,
    blank: CacheBlank<u64, u64>,
    keys: &[u64],
    put_ones: usize,
) -> Result<u64, AllocError>
    requires { IsNamed N.table N.book N.name N.parts blank }
{
    let mut stand = Stand::<N, u64, u64>::open(alloc, rt, blank)?;
    Ok(count_wrong(rt, &mut stand, keys, put_ones))
}

#[test]
fn keys_of_one_hash_are_told_apart(rt: HostRuntime) -> Result<(), Fail> {
    let alloc = rt.alloc();
    expect_eq!(&rt; ONE_HASH.hash_one(1), ONE_HASH.hash_one(2));
    for (seed, hashes, items) in [
        (ONE_HASH, Hashes::Any, 1_000),
        (SEED, Hashes::Any, 10_000),
        (SEED, Hashes::OneHome, 200),
        (SEED, Hashes::OneTag, 200),
    ] {
        let keys = keys_of(alloc, seed, hashes, items as usize)?;
        expect_eq!(&rt; keys.len(), items as usize + MORE);
        let blank = CacheBlank::<u64, u64>::new(alloc, &CacheConfig::new(items, 1, seed))?;
        let wrong = run::<Brand, _>(&rt, alloc, blank, keys.as_slice(), items as usize)?;
        assert_eq!(rt; wrong, 0, "of {items} keys");
    }
    Ok(())
}

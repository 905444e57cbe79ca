//! What reads find, and why they found nothing, in small caches behind each sequence of a few calls.

ghost use Rattle.bump_cache.specs.Opening.{IsNamed};

use crate::expecting::*;
use crate::stands::{Entry, Stand, config_of};
use bump_cache::{CacheBlank, CacheConfig, LogName, Miss, Name};
use std::alloc::{AllocError, Global};
use std::fmt::Debug;
use std::marker::Brand;
use std::ops::Range;
use std::process::Abort;
use std::sync::Wait;
use std::test::Fail;

// A sequence has so many calls, each one of so many kinds.
const CALLS: u32 = 4;

const KINDS: u32 = 7;

// Nothing is ever put under the keys from this one on, up to the other.
const NEVER_PUT: Range<u64> = 2..100;

// A cache of one to four items, the ticks at which those of the keys 0 and 1 expire, and the time.
#[derive(Drop)]
struct Small<N: Name + LogName> {
    stand: Stand<N, u64, u64>,
    holds_one: bool,
    zero: Option<u64>,
    one: Option<u64>,
    now: u64,
}

impl<N: Name + LogName> Small<N> {
    // When the item of a key expires, or 0 where it doesn't; None where there is none.
    fn expires(&self, key: u64) -> Option<u64> {
        match key {
            0 => self.zero,
            1 => self.one,
            _ => None,
        }
    }

    // A key of the same part, under which nothing is ever put.
    fn never_put(&self, key: u64) -> u64 {
        let part = self.stand.part_of(&key);
        NEVER_PUT
            .into_iter()
            .find(|other| self.stand.part_of(other) == part)
            .unwrap_or(NEVER_PUT.end)
    }

    // Where the cache holds one item, that of the other key is evicted.
    fn put<R: Wait + Abort>(&mut self, rt: &R, key: u64, expires: u64) {
        let entry = Entry { key, value: key };
        let put = self.stand.put_until(rt, &entry, expires, self.now);
        expect_that!(rt; put.is_ok());
        if self.holds_one {
            self.zero = None;
            self.one = None;
        }
        if key == 0 {
            self.zero = Some(expires);
        } else {
            self.one = Some(expires);
        }
    }

    fn remove<R: Wait + Abort>(&mut self, rt: &R, key: u64) {
        self.stand.remove(rt, &key, self.now);
        if key == 0 {
            self.zero = None;
        } else {
            self.one = None;
        }
    }

    // One more call of a sequence, by its kind.
    fn call<R: Wait + Abort>(&mut self, rt: &R, kind: u32) {
        let soon = self.now.saturating_add(1);
        match kind {
            0 => self.put(rt, 0, 0),
            1 => self.put(rt, 1, 0),
            2 => self.put(rt, 0, soon),
            3 => self.put(rt, 1, soon),
            4 => self.remove(rt, 0),
            5 => self.remove(rt, 1),
            _ => self.now = soon,
        }
    }

    // What a read of a key is to find, and why nothing.
    fn wanted(&self, key: u64) -> (Option<u64>, Miss) {
        match self.expires(key) {
            Some(at) if at == 0 || self.now < at => (Some(key), Miss::Absent),
            Some(_) => (None, Miss::Expired),
            None => (None, Miss::Absent),
        }
    }

    // What a read of this kind finds.
    fn read(&mut self, read: u32, key: u64) -> Option<u64> {
        match read {
            0 => self.stand.get(0, &key, self.now),
            1 => self.stand.peek(0, &key, self.now),
            _ => self.stand.contains(0, &key, self.now).then_some(key),
        }
    }

    // Each read of a key finds what is there, and where it finds nothing it says why. A read of another key of its part
    // comes before each, so that what was said before is another answer.
    fn check<R: Wait + Abort>(&mut self, rt: &R, key: u64) {
        let (wanted, told) = self.wanted(key);
        expect_eq!(rt; self.stand.look(rt, &key, self.now), wanted);
        let never_put = self.never_put(key);
        for read in 0..3 {
            expect_that!(rt; !self.stand.contains(0, &never_put, self.now));
            let found = self.read(read, key);
            expect_read(rt, read, key, &found, &wanted);
            let why = self.stand.last_miss(0, &key);
            expect_read(rt, read, key, &why, &Some(told));
        }
    }
}

// What a read of this kind came to is what was wanted.
fn expect_read<T: PartialEq + Debug>(rt: &impl Abort, read: u32, key: u64, came: &T, wanted: &T) {
    assert_eq!(rt; came, wanted, "read {read} of key {key}");
}

// Makes the calls of a sequence, and reads behind each.
fn follow<N: Name + LogName, R: Wait + Abort>(
    rt: &R,
    alloc: Global,
    blank: CacheBlank<u64, u64>,
    holds_one: bool,
    sequence: u32,
) -> Result<(), AllocError>
    requires { IsNamed N.table N.book N.name N.parts blank }
{
    let stand = Stand::<N, u64, u64>::open(alloc, rt, blank)?;
    let mut small = Small {
        stand,
        holds_one,
        zero: None,
        one: None,
        now: 1,
    };
    let mut rest = sequence;
    for _ in 0..CALLS {
        small.call(rt, rest % KINDS);
        rest /= KINDS;
        for key in 0..3 {
            small.check(rt, key);
        }
    }
    Ok(())
}

#[test]
fn each_read_says_what_is_there_or_why_nothing_is(rt: HostRuntime) -> Result<(), Fail> {
    let alloc = rt.alloc();
    for (items, ring, parts) in [(1, 2, 1), (2, 2, 1), (3, 1, 1), (4, 1, 2)] {
        for sequence in 0..KINDS.pow(CALLS) {
            let config = CacheConfig {
                parts,
                ..config_of(items, parts, 20, 40, ring)
            };
            let blank = CacheBlank::<u64, u64>::new(alloc, &config)?;
            follow::<Brand, _>(&rt, alloc, blank, items == 1, sequence)?;
        }
    }
    Ok(())
}

//! Items that expire: to the tick, found by gets, puts, removals and tends, and told where that is asked for.

ghost use Rattle.bump_cache.specs.Opening.{IsNamed};

use crate::expecting::*;
use crate::stands::{Entry, Stand, config_of};
use bump_cache::{CacheBlank, CacheConfig, Cause, Evicted, LogName, Miss, Name, Put};
use std::alloc::{AllocError, Global};
use std::fmt::Debug;
use std::marker::Brand;
use std::process::Abort;
use std::sync::Wait;
use std::test::Fail;

// A tend of most of these caches looks at so many chunks.
const LOOKS: u32 = 4;

// One of them has so many parts.
const PARTS: u32 = 3;

// What is done with a cache.
#[derive(Clone, Copy)]
enum Case {
    // a value is there up to the tick before that at which it expires
    ToTheTick,

    // what has expired isn't told by a put or a removal, and ends
    Untold,

    // what makes room is told with why it ended
    Causes,

    // a tend finds what has expired, four chunks at a time
    Swept,

    // what has expired is told, each item once
    Told,

    // and that of each of several parts
    ToldOfParts,
}

// What was told of a key at this time is what was wanted.
fn expect_at<T: PartialEq + Debug>(rt: &impl Abort, key: u64, now: u64, told: &T, wanted: &T) {
    assert_eq!(rt; told, wanted, "key {key} at {now}");
}

// A cache of a few items of one reader.
#[derive(Drop)]
struct Few<N: Name + LogName> {
    stand: Stand<N, u64, u64>,
}

impl<N: Name + LogName> Few<N> {
    // Puts a value that is its key.
    fn put_until<R: Wait + Abort>(
        &mut self,
        rt: &R,
        key: u64,
        expires: u64,
        now: u64,
    ) -> Put<u64, u64> {
        let entry = Entry { key, value: key };
        let Ok(put) = self.stand.put_until(rt, &entry, expires, now) else {
            panic!(rt; "there is room")
        };
        put
    }

    fn expect<R: Wait + Abort>(&mut self, rt: &R, key: u64, now: u64, is_there: bool) {
        let wanted = if is_there { Some(key) } else { None };
        expect_at(rt, key, now, &self.stand.peek(0, &key, now), &wanted);
        let is_found = self.stand.contains(0, &key, now);
        expect_at(rt, key, now, &is_found, &is_there);
        expect_at(rt, key, now, &self.stand.get(0, &key, now), &wanted);
        expect_at(rt, key, now, &self.stand.look(rt, &key, now), &wanted);
    }

    fn check_ticks<R: Wait + Abort>(&mut self, rt: &R) {
        for (key, expires, now, is_there) in [
            (1, 0, 0, true),
            (1, 0, u64::MAX, true),
            (2, 1, 0, true),
            (2, 1, 1, false),
            (3, 10, 9, true),
            (3, 10, 10, false),
            (3, 10, 11, false),
            (4, u64::MAX, u64::MAX - 1, true),
            (4, u64::MAX, u64::MAX, false),
        ] {
            self.put_until(rt, key, expires, 5);
            self.expect(rt, key, now, is_there);
            if !is_there {
                expect_eq!(rt; self.stand.last_miss(0, &key), Some(Miss::Expired));
            }
        }
        self.expect(rt, 5, 0, false);
        expect_eq!(rt; self.stand.last_miss(0, &5), Some(Miss::Absent));
    }

    fn check_untold<R: Wait + Abort>(&mut self, rt: &R) {
        self.put_until(rt, 1, 10, 5);
        self.put_until(rt, 2, 10, 5);
        expect_eq!(rt; self.put_until(rt, 1, 20, 9).old, Some(1));
        expect_eq!(rt; self.put_until(rt, 1, 20, 20).old, None);
        self.check_removals(rt);
    }

    // The item of the key 2 has expired at 10, and that of the key 1 hasn't at 19.
    fn check_removals<R: Wait + Abort>(&mut self, rt: &R) {
        expect_eq!(rt; self.stand.remove(rt, &2, 10), None);
        expect_eq!(rt; self.stand.stats(rt).number_hot, 1);
        expect_eq!(rt; self.stand.remove(rt, &1, 19), Some(1));
        expect_eq!(rt; self.stand.remove(rt, &1, 19), None);
        expect_eq!(rt; self.stand.stats(rt).number_hot, 0);
    }

    // A put of a new key evicts this item.
    fn check_evicted<R: Wait + Abort>(
        &mut self,
        rt: &R,
        new: u64,
        now: u64,
        key: u64,
        cause: Cause,
    ) {
        let evicted = self.put_until(rt, new, 0, now).evicted;
        let wanted = Evicted {
            key,
            value: key,
            cause,
        };
        expect_eq!(rt; evicted, Some(wanted));
    }

    // All are in COLD behind a tend. The last one there has expired when a put asks for room, and the others never do.
    fn check_causes<R: Wait + Abort>(&mut self, rt: &R) {
        for key in 0..10 {
            let expires = if key == 0 { 50 } else { 0 };
            self.put_until(rt, key, expires, key);
        }
        self.stand.tend(rt, 10);
        expect_that!(rt; self.stand.get(0, &0, 11).is_some());
        self.check_evicted(rt, 10, 50, 0, Cause::Expired);
        self.check_evicted(rt, 11, 51, 1, Cause::Room);
        let stats = self.stand.stats(rt);
        expect_eq!(rt;
            (
                stats.reclaimed(),
                stats.evicted(),
                stats.expired_unfetched()
            ),
            (1, 1, 0)
        );
    }

    // Puts ten items, of which each second one expires at 20, and the others at 30.
    fn put_ten<R: Wait + Abort>(&mut self, rt: &R) {
        for key in 0..10 {
            self.put_until(rt, key, 20 + key % 2 * 10, 1);
        }
    }

    // Of those the others are there at 20.
    fn expect_odd<R: Wait + Abort>(&mut self, rt: &R) {
        for key in 0..10 {
            self.expect(rt, key, 20, key % 2 == 1);
        }
    }

    // Behind this tend so many have been found that had expired.
    fn check_turn<R: Wait + Abort>(&mut self, rt: &R, turn: u32, swept: u64) {
        self.stand.tend(rt, 20);
        let found = self.stand.stats(rt).crawler_reclaimed();
        assert_eq!(rt; found, swept, "turn {turn}");
    }

    // The ten items are at the first ten chunks, and each second one has expired.
    fn check_sweep<R: Wait + Abort>(&mut self, rt: &R) {
        self.put_ten(rt);
        for (turn, swept) in [(1, 2), (2, 4), (3, 5), (4, 5)] {
            self.check_turn(rt, turn, swept);
        }
        self.expect_odd(rt);
        expect_eq!(rt; self.stand.stats(rt).expired_unfetched(), 5);
    }

    // The ten items are at the first ten of twelve chunks, and each second one has expired. A call looks at four: the
    // first one ends its looks before that of key 4.
    fn check_told<R: Wait + Abort>(&mut self, rt: &R) {
        self.put_ten(rt);
        expect_that!(rt; self.stand.get(0, &6, 19).is_some());
        self.expect_told_none(rt, 19);
        for key in [4, 6, 8, 0, 2] {
            self.expect_told(rt, key, 20);
        }
        for _ in 0..3 {
            self.expect_told_none(rt, 29);
        }
        let of_none = self.stand.take_expired(rt, 1, 30);
        expect(rt, "no such part", &of_none, &None);
        self.expect_odd(rt);
        self.check_told_counts(rt);
    }

    // This key's item is the next one that has expired.
    fn expect_told<R: Wait + Abort>(&mut self, rt: &R, key: u64, now: u64) {
        let expired = Evicted {
            key,
            value: key,
            cause: Cause::Expired,
        };
        expect_eq!(rt; self.stand.take_expired(rt, 0, now), Some(expired));
    }

    // Nothing more has expired.
    fn expect_told_none<R: Wait + Abort>(&mut self, rt: &R, now: u64) {
        expect_eq!(rt; self.stand.take_expired(rt, 0, now), None);
    }

    // Five were told, of which one had been found by a get.
    fn check_told_counts<R: Wait + Abort>(&mut self, rt: &R) {
        let stats = self.stand.stats(rt);
        expect_eq!(rt;
            (stats.crawler_reclaimed(), stats.expired_unfetched()),
            (5, 4)
        );
        expect_eq!(rt; (stats.evicted(), stats.reclaimed()), (0, 0));
    }

    // Takes what has expired of a part, and counts how often each of so many keys is told.
    fn take_all<R: Wait + Abort>(&mut self, rt: &R, part: u32, now: u64, told: &mut [u32]) {
        for _ in 0..=told.len() {
            let Some(it) = self.stand.take_expired(rt, part, now) else {
                return;
            };
            expect_eq!(rt; (it.value, it.cause), (it.key, Cause::Expired));
            expect_eq!(rt; self.stand.part_of(&it.key), part);
            if let Some(times) = told.get_mut(it.key as usize) {
                *times = times.saturating_add(1);
            }
        }
        panic!(rt; "more is told of part {part} than was put")
    }

    // A call looks at all chunks of a part.
    fn check_parts<R: Wait + Abort>(&mut self, rt: &R) {
        for key in 0..30 {
            self.put_until(rt, key, 20 + key % 3 * 10, 1);
        }
        let mut told = [0; 30];
        for part in 0..=PARTS {
            self.take_all(rt, part, 30, &mut told);
        }
        check_thirds(rt, &told);
        expect_eq!(rt; self.stand.stats(rt).crawler_reclaimed(), 20);
        self.stand.tend(rt, 30);
        expect_eq!(rt; self.stand.stats(rt).crawler_reclaimed(), 20);
    }
}

// Of three keys in a row the first two are told once, and the third never.
fn check_thirds(rt: &impl Abort, told: &[u32]) {
    for (key, times) in told.iter().enumerate() {
        let wanted = if key % 3 == 2 { 0 } else { 1 };
        assert_eq!(rt; *times, wanted, "key {key}");
    }
}

// The caches of these cases.
fn config_for(case: Case) -> CacheConfig {
    match case {
        Case::ToldOfParts => CacheConfig {
            parts: PARTS,
            ..config_of(300, 10, 0, 40, 16)
        },
        _ => CacheConfig {
            expiry_looks: LOOKS,
            ..config_of(10, 2, 0, 40, 16)
        },
    }
}

// Opens a cache under the names that the blank's table and log have, and runs the case.
fn run<N: Name + LogName, R: Wait + Abort>(
    rt: &R,
    alloc: Global,
    blank: CacheBlank<u64, u64>,
    case: Case,
) -> Result<(), AllocError>
    requires { IsNamed N.table N.book N.name N.parts blank }
{
    let mut few = Few {
        stand: Stand::<N, u64, u64>::open(alloc, rt, blank)?,
    };
    match case {
        Case::ToTheTick => few.check_ticks(rt),
        Case::Untold => few.check_untold(rt),
        Case::Causes => few.check_causes(rt),
        Case::Swept => few.check_sweep(rt),
        Case::Told => few.check_told(rt),
        Case::ToldOfParts => few.check_parts(rt),
    }
    Ok(())
}

#[test]
fn items_expire_to_the_tick(rt: HostRuntime) -> Result<(), Fail> {
    let alloc = rt.alloc();
    for case in [
        Case::ToTheTick,
        Case::Untold,
        Case::Causes,
        Case::Swept,
        Case::Told,
        Case::ToldOfParts,
    ] {
        let blank = CacheBlank::<u64, u64>::new(alloc, &config_for(case))?;
        run::<Brand, _>(&rt, alloc, blank, case)?;
    }
    Ok(())
}

//! Puts that find no chunk free apply the bumps that wait, since these hold the chunks of ended items.

ghost use Rattle.bump_cache.specs.Opening.{IsNamed};

use crate::expecting::*;
use crate::stands::{Stand, config_of};
use bump_cache::{CacheBlank, LogName, Name, Put};
use std::alloc::{AllocError, Global};
use std::marker::Brand;
use std::process::Abort;
use std::sync::Wait;
use std::test::Fail;

// So many items are put, and as many bumps wait. The fourth put behind these has its turn to apply some.
const ITEMS: u64 = 100;

// What is done with a cache.
#[derive(Clone, Copy)]
enum Case {
    // two keys are put anew, whose bumps wait behind others
    Anew,

    // one key is put anew, and then one that is new, for which one is evicted
    New,
}

// A cache with one spare chunk, in which all items are in COLD, and were read twice in the order of their keys: so there
// are as many bumps that wait, and each holds its item.
#[derive(Drop)]
struct Busy<N: Name + LogName> {
    stand: Stand<N, u64, u64>,
}

impl<N: Name + LogName> Busy<N> {
    // Whether a key that has this value gets another, and nothing is evicted.
    fn put_anew<W: Wait>(&mut self, rt: &W, key: u64, value: u64) -> bool {
        let put = self.stand.put(rt, key, key.saturating_add(value), 0);
        matches!(
            put,
            Ok(Put {
                old: Some(_),
                evicted: None
            })
        )
    }

    // The key has this.
    fn expect_value<R: Abort>(&mut self, rt: &R, key: u64, wanted: Option<u64>) {
        expect_eq!(rt; self.stand.peek(0, &key, 2), wanted);
    }

    // So many items went from COLD to WARM.
    fn expect_moved<R: Wait + Abort>(&mut self, rt: &R, wanted: u64) {
        expect_eq!(rt; self.stand.stats(rt).flow.cold_to_warm, wanted);
    }

    // Puts all items, which a tend moves to COLD.
    fn put_all<R: Wait + Abort>(&mut self, rt: &R) {
        for key in 0..ITEMS {
            expect_that!(rt; self.stand.put(rt, key, key, 0).is_ok());
        }
        self.stand.tend(rt, 0);
        expect_eq!(rt; u64::from(self.stand.stats(rt).number_cold), ITEMS);
    }

    // Reads each twice.
    fn read_all<R: Abort>(&mut self, rt: &R) {
        for key in 0..ITEMS {
            expect_eq!(rt; self.stand.get(0, &key, 1), Some(key));
            expect_eq!(rt; self.stand.get(0, &key, 1), Some(key));
        }
        expect_eq!(rt; self.stand.bumps_dropped(), 0);
    }

    // Ten keys are removed, whose chunks their bumps hold, which are the last ones. The first put takes the spare chunk,
    // and the second finds none: so it applies all bumps.
    fn check_anew<R: Wait + Abort>(&mut self, rt: &R) {
        for key in 90..ITEMS {
            expect_eq!(rt; self.stand.remove(rt, &key, 2), Some(key));
        }
        expect_that!(rt; self.put_anew(rt, 50, 7));
        self.expect_moved(rt, 0);
        expect_that!(rt; self.put_anew(rt, 51, 7));
        // those of the ten keys and of the first one's old item find it gone
        self.expect_moved(rt, 89);
        for key in 52..60 {
            expect_that!(rt; self.put_anew(rt, key, 7));
        }
        self.expect_value(rt, 50, Some(57));
        self.expect_value(rt, 51, Some(58));
        self.expect_value(rt, 90, None);
    }

    // The first put takes the spare chunk. For the second one is evicted, whose chunk its bump holds: so it applies all
    // bumps.
    fn check_new<R: Wait + Abort>(&mut self, rt: &R) {
        expect_that!(rt; self.put_anew(rt, 99, 7));
        let put = self.stand.put(rt, 1_000, 7, 0);
        let Ok(
            Put {
                old: None,
                evicted: Some(evicted),
            },
        ) = put
        else {
            panic!(rt; "one is evicted, and there is room")
        };
        self.expect_value(rt, evicted.key, None);
        self.expect_value(rt, 1_000, Some(7));
        self.expect_value(rt, 99, Some(106));
        expect_eq!(rt; self.stand.stats(rt).evicted(), 1);
    }
}

// Opens a cache under the names that the blank's table and log have, and runs the case.
fn run<N: Name + LogName, R: Wait + Abort>(
    rt: &R,
    alloc: Global,
    blank: CacheBlank<u64, u64>,
    case: Case,
) -> Result<(), AllocError>
    requires { IsNamed N.table N.book N.name N.parts blank }
{
    let mut busy = Busy {
        stand: Stand::<N, u64, u64>::open(alloc, rt, blank)?,
    };
    busy.put_all(rt);
    busy.read_all(rt);
    match case {
        Case::Anew => busy.check_anew(rt),
        Case::New => busy.check_new(rt),
    }
    Ok(())
}

#[test]
fn a_put_applies_bumps_that_hold_chunks(rt: HostRuntime) -> Result<(), Fail> {
    let alloc = rt.alloc();
    for case in [Case::Anew, Case::New] {
        let config = config_of(ITEMS as u32, 1, 0, 40, 128);
        let blank = CacheBlank::<u64, u64>::new(alloc, &config)?;
        run::<Brand, _>(&rt, alloc, blank, case)?;
    }
    Ok(())
}

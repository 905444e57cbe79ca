//! Gets of many keys at a time answer and count what single gets do.

ghost use Rattle.bump_cache.specs.Opening.{IsNamed};

use crate::expecting::*;
use crate::stands::{Entry, Stand, config_of};
use bump_cache::{CacheBlank, LogName, Name};
use std::alloc::Global;
use std::marker::Brand;
use std::process::Abort;
use std::sync::Wait;
use std::test::Fail;

// Keys that are there, others, one that expires, and one that stands there twice.
const KEYS: [u64; 8] = [3, 50, 7, 3, 0, 51, 9, 6];

// Ten keys have values, of which one expires at 20.
fn fill<N: Name + LogName, R: Wait + Abort>(rt: &R, stand: &mut Stand<N, u64, u64>) {
    for key in 0..10 {
        let value = key + 100;
        let expires = if key == 6 { 20 } else { 0 };
        let put = stand.put_until(rt, &Entry { key, value }, expires, 1);
        expect_that!(rt; put.is_ok());
    }
}

// Single gets answer these.
fn check_single<N: Name + LogName, R: Abort>(
    rt: &R,
    stand: &mut Stand<N, u64, u64>,
    values: [Option<u64>; 8],
) {
    for index in 0..KEYS.len() {
        let key = KEYS[index];
        assert_eq!(rt; stand.get(0, &key, 20), values[index], "key {key}");
    }
}

fn run<N: Name + LogName, R: Wait + Abort>(
    rt: &R,
    alloc: Global,
    blank: CacheBlank<u64, u64>,
) -> Result<(), Fail>
    requires { IsNamed N.table N.book N.name N.parts blank }
{
    let mut stand = Stand::<N, u64, u64>::open(alloc, rt, blank)?;
    fill(rt, &mut stand);
    let mut values = [Some(1); 8];
    stand.get_many(0, &KEYS, &mut values, 20);
    let wanted = [
        Some(103),
        None,
        Some(107),
        Some(103),
        Some(100),
        None,
        Some(109),
        None,
    ];
    expect_eq!(rt; values, wanted);
    expect_eq!(rt; stand.hits_and_misses(), (5, 3));
    check_single(rt, &mut stand, values);
    expect_eq!(rt; stand.hits_and_misses(), (10, 6));
    Ok(())
}

#[test]
fn many_gets_are_single_ones(rt: HostRuntime) -> Result<(), Fail> {
    let alloc = rt.alloc();
    let blank = CacheBlank::new(alloc, &config_of(10, 2, 20, 40, 16))?;
    run::<Brand, HostRuntime>(&rt, alloc, blank)
}

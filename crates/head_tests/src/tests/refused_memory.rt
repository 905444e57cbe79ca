//! Allocations that are refused.
ghost use Rattle.std.specs.Prelude.{◌≡◌};

use super::expecting::{expect, expect_seen};
use super::stores::{config_of, head};
use super::*;
use bump_heads::{Config, Segment};
use std::alloc::Global;
use std::marker::Brand;
use std::process::Abort;
use std::test::Fail;

// Says which call was refused. `checks/refused_allocations` looks for these words, and counts them by call.
fn tell_refused(rt: &impl Eprint, call: &str) -> Result<(), Fail> {
    eprintln!(rt; "an allocation was refused: {call}")?;
    Ok(())
}

// Makes heads of two chunks, which had no life, and a seat of each kind. Else it tells the call that was refused.
fn open_in<N: Name>(
    rt: &impl Abort,
    alloc: Global,
    blank: Blank,
    config: &Config,
) -> Result<(), &'static str>
    requires name { blank.table ≡ N.table }
    requires config { blank.config ≡ config.now }
{
    let Ok(sheets) = Heads::<N>::new(alloc, blank, config) else {
        return Err("Heads::new");
    };
    let never = head(0, "", Segment::Hot, 0);
    expect_seen(rt, &sheets.heads, 0, (never, 0));
    expect_seen(rt, &sheets.heads, 1, (never, 0));
    let seats = (
        sheets.classes.len(),
        sheets.workers.len(),
        sheets.lanes.len(),
    );
    expect(rt, "the seats", &seats, &(1, 1, 1));
    Ok(())
}

fn open_store(rt: &impl Abort, alloc: Global) -> Result<(), &'static str> {
    let config = config_of(alloc, 4).ok_or("the configuration")?;
    let Ok(blank) = Blank::new(alloc, &config) else {
        return Err("Blank::new");
    };
    open_in::<Brand>(rt, alloc, blank, &config)
}

// Holds whichever one allocation is refused: the store isn't opened, and may be opened then.
#[test]
fn a_refused_allocation_opens_no_store(rt: HostRuntime) -> Result<(), Fail> {
    let alloc = rt.alloc();
    if let Err(call) = open_store(&rt, alloc) {
        tell_refused(&rt, call)?;
        open_store(&rt, alloc)?;
    }
    Ok(())
}

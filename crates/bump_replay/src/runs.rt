//! A log is run through the caches that the words ask for.
ghost use Rattle.std.specs.Prelude.{◌≡◌};
ghost use Rattle.replay_runs.specs.Plans.{spare_for, with_items};

use crate::classes::{AccessesByClass, ClassAccesses, bytes_of_all, items_of, parts_of};
use crate::course::asked_of;
use crate::options::Options;
use crate::rows::{PolicyRun, Row};
use crate::sampling::scaled;
use crate::{plain, progress};
use access_logs::Log;
use replay_runs::{Asked, CacheConfig, Plan, ReplayFault};
use std::alloc::{AllocError, Global};
use std::rt::Files;
use std::sync::Wait;

/// What a log came to.
#[derive(Drop)]
pub struct Runs {
    /// A row for each size, and of each for each class.
    pub rows: Vec<Row>,

    /// How many accesses were to keys too large for each class: these aren't run.
    pub too_large: u64,
}

// Runs the plain policies that are compared.
fn compared(
    alloc: Global,
    options: &Options<'_>,
    items: u32,
    asked: &Asked<'_>,
) -> Result<Vec<PolicyRun>, ReplayFault> {
    let mut others = Vec::new(alloc);
    for policy in &options.policies {
        let policy = *policy;
        let tally = plain::run(alloc, policy, items, asked)?;
        others.push(PolicyRun { policy, tally })?;
    }
    Ok(others)
}

// How many spare chunks a cache of so many items has.
fn spare_of(options: &Options<'_>, items: u32) -> u32
    ensures { result ≡ spare_for options.now.spare items options.now.plan.config.readers }
{
    match options.spare {
        Some(spare) => spare,
        None => {
            let config = options.plan.config;
            CacheConfig::new(items, config.readers, config.seed).spare
        }
    }
}

/// How a cache of so many items is run.
pub fn plan_of(options: &Options<'_>, items: u32) -> Plan
    ensures { result ≡ with_items items options.now.spare options.now.plan }
{
    let mut plan: Plan = options.plan;
    plan.config.items = items;
    plan.config.spare = spare_of(options, items);
    plan
}

// So many items, in a sample.
fn scaled_items(options: &Options<'_>, items: u32) -> u32 {
    u32::try_from(scaled(u64::from(items), options.sample)).unwrap_or(items)
}

// Of what a cache is: of which class and of how many bytes for all, if it is said, and of how many items, and how many
// of these the cache has that is run: of a sample fewer.
#[derive(Clone, Copy)]
struct Size {
    class: Option<u32>,
    bytes: Option<u64>,
    items: u32,
    run: u32,
}

// The runs through caches of one size.
fn row_of<R: Files + Eprint + AllocGlobal + Wait>(
    rt: &R,
    options: &Options<'_>,
    size: Size,
    asked: &Asked<'_>,
) -> Result<Row, ReplayFault> {
    let alloc = rt.alloc();
    let plan = plan_of(options, size.run);
    let bump = replay_runs::replay(&rt, alloc, &plan, asked)?;
    let row = Row {
        class: size.class,
        bytes: size.bytes,
        items: size.items,
        bump,
        others: compared(alloc, options, size.run, asked)?,
    };
    if progress::is_told(rt, asked.keys.len()) {
        progress::tell(rt, &row, asked.keys.len());
    }
    Ok(row)
}

// The rows of one number of items: one, or one for each class.
fn put_rows_of<R: Files + Eprint + AllocGlobal + Wait>(
    rt: &R,
    options: &Options<'_>,
    items: u32,
    log: &Log,
    parts: &[ClassAccesses],
    rows: &mut Vec<Row>,
) -> Result<(), ReplayFault> {
    let run = scaled_items(options, items);
    if options.classes.is_empty() {
        let size = Size {
            class: None,
            bytes: None,
            items,
            run,
        };
        return push(rows, row_of(rt, options, size, &asked_of(log))?);
    }
    for part in parts {
        let size = Size {
            class: Some(part.class),
            bytes: None,
            items,
            run,
        };
        push(rows, row_of(rt, options, size, &part.course.asked())?)?;
    }
    Ok(())
}

// The rows of one number of bytes, which are shared out: one for each class.
fn put_rows_of_bytes<R: Files + Eprint + AllocGlobal + Wait>(
    rt: &R,
    options: &Options<'_>,
    bytes: u64,
    parts: &[ClassAccesses],
    rows: &mut Vec<Row>,
) -> Result<(), ReplayFault> {
    let all = bytes_of_all(parts);
    for part in parts {
        let run = items_of(part, scaled(bytes, options.sample), all);
        let size = Size {
            class: Some(part.class),
            bytes: Some(bytes),
            items: run.saturating_mul(options.sample),
            run,
        };
        push(rows, row_of(rt, options, size, &part.course.asked())?)?;
    }
    Ok(())
}

fn push(rows: &mut Vec<Row>, row: Row) -> Result<(), ReplayFault> {
    match rows.push(row) {
        Ok(()) => Ok(()),
        Err(_) => Err(ReplayFault::Memory),
    }
}

// The parts of a log by class; none where there are no classes.
fn parts_of_log(
    alloc: Global,
    log: &Log,
    options: &Options<'_>,
) -> Result<AccessesByClass, ReplayFault> {
    match parts_of(alloc, log, &options.classes) {
        Ok(parts) => Ok(parts),
        Err(AllocError) => Err(ReplayFault::Memory),
    }
}

/// Runs a log through the caches that the words ask for, one after the other.
pub fn run_log<R: Files + Eprint + AllocGlobal + Wait>(
    rt: &R,
    options: &Options<'_>,
    log: &Log,
) -> Result<Runs, ReplayFault> {
    let parts = parts_of_log(rt.alloc(), log, options)?;
    let mut rows = Vec::new(rt.alloc());
    for items in &options.sizes {
        put_rows_of(rt, options, *items, log, &parts.parts, &mut rows)?;
    }
    for bytes in &options.bytes {
        put_rows_of_bytes(rt, options, *bytes, &parts.parts, &mut rows)?;
    }
    let too_large = if options.classes.is_empty() {
        0
    } else {
        parts.too_large
    };
    Ok(Runs { rows, too_large })
}

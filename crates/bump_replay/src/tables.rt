//! What runs came to, as tables.
use crate::rows::{Row, missed, tally_of, word_of};
use replay_policies::Tally;
use replay_runs::HitCounts;
use std::io;

fn put_tally<R: Print>(rt: &R, row: &Row, policy: &str, tally: &Tally) -> io::Result<()> {
    let share = missed(tally);
    if let Some(bytes) = row.bytes {
        print!(rt; "{bytes:>14}")?;
    }
    if let Some(class) = row.class {
        print!(rt; "{class:>10}")?;
    }
    println!(rt;
        "{:>8}  {policy:<6}  {:>10}  {:>10}  {:>10}  {:>7}.{:02}",
        row.items,
        tally.accesses,
        tally.hits,
        tally.misses,
        share / 100,
        share % 100
    )
}

fn put_row<R: Print>(rt: &R, row: &Row) -> io::Result<()> {
    put_tally(rt, row, "bump", &tally_of(&row.bump))?;
    for run in &row.others {
        put_tally(rt, row, word_of(run.policy), &run.tally)?;
    }
    Ok(())
}

fn put_count<R: Print>(rt: &R, name: &str, count: u64) -> io::Result<()> {
    println!(rt; "  {name:<28}{count:>12}")
}

// How items went from list to list.
fn put_flow<R: Print>(rt: &R, row: &Row) -> io::Result<()> {
    let flow = row.bump.stats.flow;
    put_count(rt, "linked", flow.linked)?;
    put_count(rt, "HOT to WARM", flow.hot_to_warm)?;
    put_count(rt, "HOT to COLD", flow.hot_to_cold)?;
    put_count(rt, "WARM to its front", flow.warm_to_warm)?;
    put_count(rt, "WARM to COLD", flow.warm_to_cold)?;
    put_count(rt, "COLD to WARM", flow.cold_to_warm)
}

// What was evicted.
fn put_evictions<R: Print>(rt: &R, row: &Row) -> io::Result<()> {
    let stats = row.bump.stats;
    put_count(rt, "evicted", stats.evicted())?;
    put_count(rt, "  never hit", stats.evicted_unfetched())?;
    let hit = stats.evicted().saturating_sub(stats.evicted_unfetched());
    put_count(rt, "  hit", hit)?;
    put_count(rt, "  ACTIVE", stats.evicted_active())?;
    put_count(rt, "not placed", row.bump.unplaced)?;
    put_count(rt, "chunks held by bumps, most", row.bump.waiting)
}

fn put_bumps<R: Print>(rt: &R, row: &Row) -> io::Result<()> {
    let bumps = row.bump.bumps;
    put_count(rt, "bumps attempted", bumps.attempted)?;
    put_count(rt, "  accepted", bumps.accepted)?;
    put_count(rt, "  dropped: ring full", bumps.full)?;
    put_count(rt, "  dropped: references", bumps.refs)?;
    put_count(rt, "  dropped: busy", bumps.busy)
}

// What the columns of the first table are.
fn put_head<R: Print>(rt: &R, rows: &[Row]) -> io::Result<()> {
    if rows.iter().any(|row| row.bytes.is_some()) {
        print!(rt; "    bytes, all")?;
    }
    if rows.iter().any(|row| row.class.is_some()) {
        print!(rt; " of, bytes")?;
    }
    println!(rt; "   items  policy    accesses        hits      misses  missed, %")
}

// What became of the items of one cache.
fn put_run<R: Print>(rt: &R, row: &Row) -> io::Result<()> {
    println!(rt; "")?;
    match row.class {
        Some(class) => println!(rt; "of {} items of at most {class} bytes:", row.items)?,
        None => println!(rt; "of {} items:", row.items)?,
    }
    put_flow(rt, row)?;
    put_evictions(rt, row)?;
    put_bumps(rt, row)
}

/// Prints the rows: first how often keys were there, by size and policy, and then, by size, how items of the cache went
/// from list to list.
pub fn put_rows<R: Print>(rt: &R, rows: &[Row]) -> io::Result<()> {
    put_head(rt, rows)?;
    for row in rows {
        put_row(rt, row)?;
    }
    for row in rows {
        put_run(rt, row)?;
    }
    Ok(())
}

/// Prints what the hits of a trace came to.
pub fn put_trace<R: Print>(rt: &R, hits: &HitCounts) -> io::Result<()> {
    println!(rt; "")?;
    println!(rt; "hits, as the trace has them:")?;
    put_count(rt, "first", hits.first)?;
    put_count(rt, "marked", hits.marked)?;
    put_count(rt, "already", hits.already)?;
    put_count(rt, "queued", hits.queued)?;
    put_count(rt, "dropped full", hits.full)?;
    put_count(rt, "dropped refs", hits.refs)
}

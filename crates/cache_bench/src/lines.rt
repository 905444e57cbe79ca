//! The lines that are printed, for machines.
use crate::memory::Memory;
use crate::passes::{CALLS, Times};
use std::io;

/// What the calls of a workload took, in nanoseconds a call: in the fastest pass, and in the middle one.
pub fn print_times<R: Print>(rt: &R, name: &str, threads: u32, times: &Times) -> io::Result<()> {
    let nanos = times.nanos.as_slice();
    let best = nanos.first().copied().unwrap_or(0) / (CALLS / 10);
    let middle = nanos.get(nanos.len() / 2).copied().unwrap_or(0) / (CALLS / 10);
    println!(rt;
        "RESULT\tbump\t{name}\t{threads}\t{}.{}\t{}.{}\t\toperations={CALLS} right={}",
        best / 10,
        best % 10,
        middle / 10,
        middle % 10,
        times.right,
    )
}

/// How many bytes an item takes, by what the process has once all items are there, and by the most that it had.
pub fn print_bytes<R: Print>(rt: &R, name: &str, items: u32, grown: Memory) -> io::Result<()> {
    let items = u64::from(items.max(1));
    let stays = grown.resident.saturating_mul(10_240) / items;
    let most = grown.peak.saturating_mul(10_240) / items;
    println!(rt;
        "RESULT\tbump\t{name}\t1\t{}.{}\t{}.{}\t\toperations={items} right={items}",
        stays / 10,
        stays % 10,
        most / 10,
        most % 10,
    )
}

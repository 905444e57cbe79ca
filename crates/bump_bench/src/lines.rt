//! What is printed of a workload.
use crate::tallies::{PassTally, Spent};
use std::alloc::AllocError;
use std::io;

/// What is measured: a workload's name, its threads, and the operations of one thread in a pass.
#[derive(Clone, Copy)]
pub struct Subject {
    pub name: &'static str,
    pub threads: u32,
    pub operations: u64,
}

/// What was measured of it.
#[derive(Clone, Copy)]
pub struct MeasuredLine {
    subject: Subject,
    passes: usize,

    // The nanoseconds of the fastest pass, and of the one in the middle.
    best: u64,
    median: u64,

    // What one pass counted.
    tally: PassTally,
}

// So many nanoseconds for so many operations: hundredths of one for each.
fn hundredths(nanos: u64, operations: u64) -> u128 {
    u128::from(nanos) * 100 / u128::from(operations.max(1))
}

impl MeasuredLine {
    /// By a first pass, and the nanoseconds of those that were timed.
    pub fn new(
        subject: Subject,
        first: Spent,
        mut times: Vec<u64>,
    ) -> Result<MeasuredLine, AllocError> {
        times.sort()?;
        Ok(MeasuredLine {
            subject,
            passes: times.len(),
            best: times.first().copied().unwrap_or(first.nanos),
            median: times.get(times.len() / 2).copied().unwrap_or(first.nanos),
            tally: first.tally,
        })
    }

    /// Prints it, for people and for machines.
    pub fn print(&self, rt: &impl Print) -> io::Result<()> {
        let Subject {
            name,
            threads,
            operations,
        } = self.subject;
        let best = hundredths(self.best, operations);
        let median = hundredths(self.median, operations);
        let each_second = u128::from(operations) * 1_000_000_000 / u128::from(self.best.max(1));
        let PassTally {
            refused,
            right,
            labels,
        } = self.tally;
        println!(rt;
            "{name}, threads {threads}: {}.{:02} nanoseconds at best, {}.{:02} in the middle of {} passes",
            best / 100,
            best % 100,
            median / 100,
            median % 100,
            self.passes
        )?;
        println!(rt;
            "RESULT\tbump\t{name}\t{threads}\t{}.{:02}\t{}.{:02}\t{each_second}\toperations={operations} refused={refused} right={right} labels={labels}",
            best / 100,
            best % 100,
            median / 100,
            median % 100,
        )
    }
}

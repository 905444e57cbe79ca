//! What is counted of a pass through a workload, and what it took.
use std::rt::Clock;
use std::time::Instant;

/// What is counted of a pass, so that each step has a use.
#[derive(Clone, Copy)]
pub struct PassTally {
    /// Calls that were refused.
    pub refused: u64,

    /// Calls that came to what was wanted.
    pub right: u64,

    /// The sum of the labels that were read, or another sum that two programs are to agree in.
    pub labels: u64,
}

impl PassTally {
    /// A tally of nothing.
    pub const NONE: PassTally = PassTally {
        refused: 0,
        right: 0,
        labels: 0,
    };

    /// Both together.
    pub fn and(self, other: PassTally) -> PassTally {
        PassTally {
            refused: self.refused.wrapping_add(other.refused),
            right: self.right.wrapping_add(other.right),
            labels: self.labels.wrapping_add(other.labels),
        }
    }
}

/// Counts a refusal, of which there is none where one thread is at work.
#[cold]
#[inline(never)]
pub fn one_more(refused: u64) -> u64 {
    refused.wrapping_add(1)
}

/// What a pass took, in nanoseconds, and what it counted.
#[derive(Clone, Copy)]
pub struct Spent {
    pub nanos: u64,
    pub tally: PassTally,
}

impl Spent {
    /// No time, and nothing counted.
    pub const NONE: Spent = Spent {
        nanos: 0,
        tally: PassTally::NONE,
    };

    /// The time since then, and what was counted meanwhile. None where the clock is refused.
    pub fn since<R: Clock>(rt: &R, start: Instant, tally: PassTally) -> Option<Spent> {
        let spent = start.elapsed(rt).ok()?;
        Some(Spent {
            nanos: u64::try_from(spent.as_nanos()).unwrap_or(u64::MAX),
            tally,
        })
    }

    /// Adds to the sum of the labels.
    pub fn add_label(&mut self, label: u64) {
        self.tally.labels = self.tally.labels.wrapping_add(label);
    }

    /// With what one of so many threads took and counted: the mean of the times, and the sum of what was counted.
    pub fn with_one_of(self, threads: u32, one: Spent) -> Spent {
        Spent {
            nanos: self
                .nanos
                .saturating_add(one.nanos / u64::from(threads.max(1))),
            tally: self.tally.and(one.tally),
        }
    }
}

//! What is measured: the workloads of all tables, and the store that each wants.
use crate::calls::Calls;
use crate::lines::Subject;
use crate::moves::{Moves, TIMES};
use crate::reads::Reads;
use crate::runs::{BUMPS, DrainRuns};
use crate::stores::StoreShape;
use bump_rules::ClassConfig;

/// A workload.
#[derive(Clone, Copy)]
pub enum Work {
    /// A worker's calls, or the bumps that they left, one after another.
    Reads(Reads),

    /// Bumps of several classes, which are drained in runs.
    Runs(DrainRuns),

    /// A Book's calls.
    Calls(Calls),

    /// Moves among lists, without a store.
    Moves(Moves),
}

// For how many bumps there is room while a class is prepared for a Book's calls: for one of each item.
const CAPACITY: u32 = 8_192;

impl Work {
    /// What it is for what is printed.
    pub fn subject(self) -> Subject {
        let (name, threads, operations) = match self {
            Work::Reads(reads) => (
                reads.name,
                reads.threads,
                u64::from(reads.items) * u64::from(reads.rounds),
            ),
            Work::Runs(runs) => (
                runs.name,
                runs.drainers,
                u64::from(runs.workers) * u64::from(BUMPS),
            ),
            Work::Calls(calls) => (calls.name, 1, u64::from(calls.times)),
            Work::Moves(moves) => (moves.name, 1, u64::from(TIMES)),
        };
        Subject {
            name,
            threads,
            operations,
        }
    }

    /// The store that it wants, if it wants one.
    pub fn shape(self) -> Option<StoreShape> {
        match self {
            Work::Reads(reads) => Some(StoreShape {
                further: reads.further,
                ..StoreShape::full(1, reads.chunks(), reads.threads, reads.capacity, reads.cold)
            }),
            Work::Runs(runs) => Some(StoreShape::full(
                runs.classes,
                runs.chunks(),
                runs.workers,
                BUMPS,
                true,
            )),
            Work::Calls(calls) => Some(StoreShape {
                classes: 1,
                class: calls.class,
                further: calls.further,
                workers: 1,
                capacity: CAPACITY,
                items: calls.items,
                cold: false,
            }),
            Work::Moves(_) => None,
        }
    }
}

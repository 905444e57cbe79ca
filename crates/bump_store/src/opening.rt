//! A store that is opened: its locks, its workers and its lanes.
ghost use Rattle.std.specs.Prelude.{◌≡◌, IfOk, length, vec_len, All};
ghost use Rattle.bump_steps.specs.Rule.{worker_sheets, lane_sheets};
ghost use Rattle.bump_unlocked.specs.Workers.{worker_rings, worker_sheets_of};
ghost use Rattle.bump_store.specs.Lanes.{NothingAboard, lane_rings, lane_sheets_of, lanes_of};

use crate::lanes::Lane;
use crate::maintainers::Maintainer;
use crate::stores::Store;
use bump_class::{Book, RawLane};
use bump_heads::{Blank, Name};
use bump_rules::Config;
use bump_steps::RowLaw;
use bump_unlocked::{UnlockedStore, Worker};
use std::alloc::{AllocError, Global};
use std::sync::Mutex;

// Puts each Book under a lock of its own.
fn put_under_locks<N: Name, L: RowLaw>(
    alloc: Global,
    books: Vec<Book<N, L>>,
) -> Result<Vec<Mutex<Book<N, L>>>, AllocError>
    ensures { IfOk result (λ locks. vec_len locks ≡ length books.items) }
{
    let mut locks = Vec::with_capacity(alloc, books.len())?;
    for book in books {
        locks.push(Mutex::new(book))?;
    }
    Ok(locks)
}

// The lanes of so many raw ones, each of which applies at most so many bumps in a drain.
fn make_lanes<N: Name, L: RowLaw>(
    alloc: Global,
    raws: Vec<RawLane<N, L>>,
    capacity: u32,
) -> Result<Vec<Lane<N, L>>, AllocError>
    requires idle { All NothingAboard raws.items }
    ensures { IfOk result (λ lanes. lanes.items ≡ lanes_of capacity raws.items) }
{
    let mut lanes = Vec::with_capacity(alloc, raws.len())?;
    for raw in raws {
        lanes.push(Lane { raw, capacity })?;
    }
    Ok(lanes)
}

impl<N: Name, L: RowLaw> Store<N, L> {
    /// Opens a store over a blank, under the name that the blank's table has: a lock for each class, with its Book, in
    /// which all chunks are in UNUSED; and a worker and a lane for each ring, both by number. No worker has made a
    /// step, no ring has accepted a bump, and no lane has applied one. It is refused only for want of memory, and the
    /// blank is gone then.
    pub fn new(
        alloc: Global,
        blank: Blank<L>,
        config: &Config,
    ) -> Result<(Store<N, L>, Vec<Worker<N>>, Maintainer<N, L>), AllocError>
        requires name { blank.table ≡ N.table }
        requires config { blank.config ≡ config.now }
        ensures store { IfOk result (λ r. r.0 ≡ config.now) }
        ensures count { IfOk result (λ r. (length r.1.items ≡ config.now.workers) × (length r.2 ≡ config.now.workers)) }
        ensures rings { IfOk result (λ r. worker_rings r.1.items ≡ lane_rings r.2) }
        ensures workers { IfOk result (λ r. worker_sheets_of r.1.items ≡ worker_sheets 0 config.now.workers) }
        ensures lanes { IfOk result (λ r. lane_sheets_of r.2 ≡ lane_sheets 0 config.now.workers) }
        ensures capacity { IfOk result (λ r. All (λ w. w.sender.capacity ≡ config.now.capacity) r.1.items
            × All (λ l. l.capacity ≡ config.now.capacity) r.2) }
    {
        let UnlockedStore {
            heads,
            books,
            starts,
            workers,
            lanes,
        } = UnlockedStore::<N, L>::open(alloc, blank, config)?;
        let locks = put_under_locks(alloc, books)?;
        let configs = Vec::from_slice(alloc, config.classes.as_slice())?;
        let lanes = make_lanes(alloc, lanes, config.capacity)?;
        let store = Store {
            heads,
            books: locks,
            starts,
            classes: configs,
            workers: config.workers,
        };
        Ok((store, workers, Maintainer { lanes }))
    }
}

//! The rings of new workers, and the Books of new classes.
ghost use Rattle.std.specs.Prelude.{◌≡◌, ◌≤◌, ◌<◌, ◌-◌, [], ◌∷◌, ◌++◌, IfOk, OnOk, length, map, All};
ghost use Rattle.bump_rules.specs.Configs.{chunks_of, HaveChunks, most_chunks, most_workers};
ghost use Rattle.bump_steps.specs.Rule.{class_sheets, worker_sheets, lane_sheets};
ghost use Rattle.bump_readers.specs.Workers.{worker_seen};
ghost use Rattle.bump_heads.specs.Making.{class_seen, lane_seen};
ghost use Rattle.bump_unlocked.specs.Workers.{worker_rings, worker_sheets_of};
ghost use Rattle.bump_unlocked.specs.UnlockedStore.{raw_rings, raw_sheets_of, starts_from, new_books};

use crate::workers::Worker;
use bump_class::{Book, RawLane};
use bump_heads::{ClassSeat, LaneSeat, Name, WorkerSeat};
use bump_ring::ring;
use bump_rules::ClassConfig;
use bump_steps::RowLaw;
use std::alloc::{AllocError, Global};

// Puts a worker behind the others, and a lane.
fn add<N: Name, L: RowLaw>(
    workers: &mut Vec<Worker<N>>,
    lanes: &mut Vec<RawLane<N, L>>,
    worker: Worker<N>,
    lane: RawLane<N, L>,
) -> Result<(), AllocError>
    ensures { OnOk result ((workers.new.items ≡ workers.old.items ++ worker ∷ [])
        × (lanes.new.items ≡ lanes.old.items ++ lane ∷ [])) }
{
    workers.push(worker)?;
    lanes.push(lane)?;
    Ok(())
}

// The workers and lanes of so many new rings.
pub(crate) fn make_rings<N: Name, L: RowLaw>(
    alloc: Global,
    seats: Vec<WorkerSeat<N>>,
    lane_seats: Vec<LaneSeat<N, L>>,
    count: u32,
    capacity: u32,
) -> Result<(Vec<Worker<N>>, Vec<RawLane<N, L>>), AllocError>
    requires seats { seats.items ≡ map worker_seen (worker_sheets 0 count) }
    requires lanes { lane_seats.items ≡ map lane_seen (lane_sheets 0 count) }
    requires some { 0 < capacity }
    ensures rings { IfOk result (λ r. worker_rings r.0.items ≡ raw_rings r.1.items) }
    ensures workers { IfOk result (λ r. worker_sheets_of r.0.items ≡ worker_sheets 0 count) }
    ensures lanes { IfOk result (λ r. raw_sheets_of r.1.items ≡ lane_sheets 0 count) }
    ensures capacity { IfOk result (λ r. All (λ w. w.sender.capacity ≡ capacity) r.0.items) }
{
    let mut workers = Vec::with_capacity(alloc, count as usize)?;
    let mut lanes = Vec::with_capacity(alloc, count as usize)?;
    let mut left = seats.into_iter();
    let mut lanes_left = lane_seats.into_iter();
    for number in 0..count {
        let Some(seat) = left.next() else {
            unreachable!()
        };
        let Some(lane_seat) = lanes_left.next() else {
            unreachable!()
        };
        let (sender, receiver) = ring::<N>(alloc, capacity)?;
        let worker = Worker::new(seat, sender);
        let raw = RawLane::new(receiver, lane_seat);
        add(&mut workers, &mut lanes, worker, raw)?;
    }
    Ok((workers, lanes))
}

// The Books of all classes, and where the classes' chunks start and the last one's end.
pub(crate) fn make_books<N: Name, L: RowLaw>(
    alloc: Global,
    seats: Vec<ClassSeat<N, L>>,
    classes: &[ClassConfig],
    first_generation: u32,
    workers: u32,
) -> Result<(Vec<Book<N, L>>, Vec<u32>), AllocError>
    requires seats { seats.items ≡ map class_seen (class_sheets (first_generation - 1) 0 0 classes.now) }
    requires chunks { HaveChunks classes.now }
    requires few { chunks_of classes.now ≤ most_chunks }
    requires workers { workers ≤ most_workers }
    ensures opened_books { IfOk result (λ r. r.0.items ≡ new_books
        (class_sheets (first_generation - 1) 0 0 classes.now) classes.now workers) }
    ensures books { IfOk result (λ r. length r.0.items ≡ length classes.now) }
    ensures starts { IfOk result (λ r. r.1.items ≡ starts_from 0 classes.now) }
{
    let mut books = Vec::with_capacity(alloc, classes.len())?;
    let mut starts = Vec::with_capacity(alloc, classes.len())?;
    let mut left = seats.into_iter();
    let mut first = 0;
    for class in classes {
        let Some(seat) = left.next() else {
            unreachable!()
        };
        let book = Book::new(alloc, seat, first, *class, workers)?;
        books.push(book)?;
        starts.push(first)?;
        first += class.chunks;
    }
    starts.push(first)?;
    Ok((books, starts))
}

//! Workers' seats. Contracts see plain data.
ghost use Rattle.std.specs.Prelude.{◌≡◌, [], IfOk, length, map};
ghost use Rattle.bump_readers.specs.declared.views.WorkerView.{WorkerView as TheWorkerView};
ghost use Rattle.bump_rules.specs.Rings.{IsAccounts};
ghost use Rattle.bump_readers.specs.Attempts.{attempts_in};
ghost use Rattle.bump_readers.specs.Seats.{worker_in, worker_me, held_life, IsLifeInRange, IsWorkerSheet};
ghost use Rattle.bump_readers.specs.Workers.{worker_seen, AreNewWorkers};

use crate::heads::ReaderHeads;
use crate::names::Name;
use bump_steps::{RowLaw, Seat};
use std::alloc::{AllocError, Global};
use std::marker::{Model, PhantomData};

/// A worker's seat: its sheet, and that of the hold that is joined to it for a touch.
#[derive(Drop)]
pub struct WorkerSeat<N: Name> {
    pub(crate) seat: Seat,
    pub(crate) worker: u32,
    of: PhantomData<N>,
}

impl<N: Name> Model for WorkerSeat<N> {
    ghost Value = { TheWorkerView };

    ghost view = { λ w. worker_in w.seat.me.0 };

    ghost invariant = { λ w. (w.seat.me ≡ worker_me (worker_in w.seat.me.0)) × (w.seat.table_id ≡ N.table)
        × (w.worker ≡ (worker_in w.seat.me.0).sheet.worker) × IsLifeInRange N.table
        (held_life (worker_in w.seat.me.0).hold) × IsWorkerSheet (worker_in w.seat.me.0).sheet };
}

impl<N: Name> WorkerSeat<N> {
    /// What every worker's seat keeps of its accounts: accepted and dropped bumps, and the attempt under way, add up
    /// to those attempted; and attempted are as many as the steps that the worker itself made that set ACTIVE of an
    /// item, and found it clear and the item in COLD.
    pub fn promise(&self)
        ensures accounts { IsAccounts self.now.sheet.accounts self.now.sheet.accounts.accepted self.now.sheet.hand }
        ensures attempts { self.now.sheet.accounts.attempted ≡ attempts_in self.now.sheet.steps }
    {
        let _worker = &self.worker;
    }

    /// The worker's number, from 0.
    pub fn worker(&self) -> u32
        ensures { result ≡ self.now.sheet.worker }
    {
        self.worker
    }
}

impl<N: Name, L: RowLaw> ReaderHeads<N, L> {
    /// Cuts the sheets of all workers off a seat of the store's table, which has so many new ones: a seat for each, by
    /// number. Nothing else of the seat changes. It is refused only for want of memory, and sheets that were cut off
    /// by then are gone.
    pub fn part_workers(
        &self,
        alloc: Global,
        seat: &mut Seat,
        count: u32,
    ) -> Result<Vec<WorkerSeat<N>>, AllocError>
        requires seat { (seat.old.table_id ≡ N.table) × (seat.old.me.1 ≡ []) }
        requires sheets { (length seat.old.me.0.workers ≡ count) × AreNewWorkers 0 seat.old.me.0.workers }
        ensures rest { IfOk result (λ v. (seat.new.table_id ≡ N.table)
            × (seat.new.me ≡ (record seat.old.me.0 { workers = [] }, []))) }
        ensures seats { IfOk result (λ v. v.items ≡ map worker_seen seat.old.me.0.workers) }
    {
        let mut seats = Vec::with_capacity(alloc, count as usize)?;
        for worker in 0..count {
            let sheet = self.words.part_worker(seat);
            seats.push(WorkerSeat {
                seat: sheet,
                worker,
                of: PhantomData,
            })?;
        }
        Ok(seats)
    }
}

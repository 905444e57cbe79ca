//! Workers. Contracts see plain data.
ghost use Rattle.std.specs.Prelude.{◌≡◌, [], length, None};
ghost use Rattle.bump_rules.specs.declared.hands.Hand.TheVariants as hand;
ghost use Rattle.bump_rules.specs.Rings.{IsAccounts};
ghost use Rattle.bump_steps.specs.Rule.{worker_sheet};
ghost use Rattle.bump_readers.specs.Attempts.{attempts_in};
ghost use Rattle.bump_readers.specs.Workers.{worker_seen};
ghost use Rattle.bump_unlocked.specs.Workers.{WorkerState as TheWorkerState, IsWorker};

use bump_readers::{Name, WorkerSeat};
use bump_ring::Sender;
use bump_rules::Accounts;
use std::marker::Model;

/// A worker: it gets and touches items, and sends the bumps of those that are hit in COLD to its lane. One thread has
/// it at a time.
#[derive(Drop)]
pub struct Worker<N: Name> {
    pub(crate) seat: WorkerSeat<N>,
    pub(crate) sender: Sender<N>,
    pub(crate) counts: Accounts,
}

impl<N: Name> Model for Worker<N> {
    ghost Value = { TheWorkerState };

    ghost view = { λ w. record { sheet = w.seat.sheet; sender = w.sender } };

    ghost invariant = { λ w. (w.seat.hold ≡ None) × (w.counts ≡ w.seat.sheet.accounts)
        × IsWorker (record { sheet = w.seat.sheet; sender = w.sender }) };
}

impl<N: Name> Worker<N> {
    /// A new worker, by a seat that has made no step and the sending end of a ring that has accepted no bump.
    pub fn new(seat: WorkerSeat<N>, sender: Sender<N>) -> Worker<N>
        requires seat { seat ≡ worker_seen (worker_sheet seat.sheet.worker) }
        requires ring { sender.sent ≡ [] }
        ensures { result ≡ record { sheet = worker_sheet seat.sheet.worker; sender = sender } }
    {
        Worker {
            seat,
            sender,
            counts: Accounts::none(),
        }
    }

    /// Its counts of bumps. Accepted and dropped bumps add up to those attempted; accepted are those that its ring
    /// took; and attempted are as many as the worker's own steps that set ACTIVE of an item where they found it
    /// clear, and the item in COLD.
    pub fn counts(&self) -> Accounts
        ensures counts { result ≡ self.now.sheet.accounts }
        ensures add_up { IsAccounts result (length self.now.sender.sent) hand.Idle }
        ensures attempts { result.attempted ≡ attempts_in self.now.sheet.steps }
    {
        self.seat.promise();
        self.counts
    }
}

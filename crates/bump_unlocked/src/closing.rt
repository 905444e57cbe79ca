//! Workers whose rings are closed. Contracts see plain data.
ghost use Rattle.std.specs.Prelude.{◌≡◌, length};
ghost use Rattle.bump_rules.specs.declared.hands.Hand.TheVariants as hand;
ghost use Rattle.bump_rules.specs.Rings.{IsAccounts};
ghost use Rattle.bump_readers.specs.Attempts.{attempts_in};
ghost use Rattle.bump_unlocked.specs.Closing.{ClosedState as TheClosedState, IsClosedWorker};

use crate::workers::Worker;
use bump_readers::{Name, WorkerSeat};
use bump_ring::ClosedSender;
use bump_rules::Accounts;
use std::marker::Model;

/// A worker whose ring is closed: it gets and touches nothing any more, its ring accepts no bump, and its counts are
/// final. The bumps that wait in the ring are still to be applied, by the ring's lane.
#[derive(Drop)]
pub struct ClosedWorker<N: Name> {
    pub(crate) seat: WorkerSeat<N>,
    pub(crate) sender: ClosedSender<N>,
    pub(crate) counts: Accounts,
}

impl<N: Name> Model for ClosedWorker<N> {
    ghost Value = { TheClosedState };

    ghost view = { λ w. record { sheet = w.seat.sheet; sender = w.sender } };

    ghost invariant = { λ w. (w.counts ≡ w.seat.sheet.accounts)
        × IsClosedWorker (record { sheet = w.seat.sheet; sender = w.sender }) };
}

impl<N: Name> Worker<N> {
    /// Closes the worker's ring: what the ring accepted is fixed from then on. The bumps that wait in it stay there,
    /// for `Lane::next_of` or `Lane::settle`. The counts stay. It waits for nobody.
    pub fn close(self) -> ClosedWorker<N>
        ensures sheet { result.sheet ≡ self.sheet }
        ensures ring { result.sender.ring ≡ self.sender.ring }
        ensures sent { result.sender.sent ≡ self.sender.sent }
    {
        let Worker {
            seat,
            sender,
            counts,
        } = self;
        ClosedWorker {
            seat,
            sender: sender.close(),
            counts,
        }
    }
}

impl<N: Name> ClosedWorker<N> {
    /// Its counts of bumps. Accepted and dropped bumps add up to those attempted; accepted are those that its ring
    /// took; and attempted are as many as the worker's own steps that set ACTIVE of an item where they found it
    /// clear, and the item in COLD.
    pub fn counts(&self) -> Accounts
        ensures counts { result ≡ self.now.sheet.accounts }
        ensures add_up { IsAccounts result (length self.now.sender.sent) hand.Idle }
        ensures attempts { result.attempted ≡ attempts_in self.now.sheet.steps }
    {
        self.seat.promise();
        self.counts
    }
}

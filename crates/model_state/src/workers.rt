//! What a World keeps of its workers, of their rings and of their lanes.
ghost use Rattle.std.specs.Prelude.{◌≤◌, length};

mod changes;

use bump_rules::{Accounts, AppliedBump, Hand, ItemId, LaneStage};
use std::alloc::{AllocError, Global};
use std::marker::Model;

/// A worker with its ring and its lane.
#[derive(Drop)]
pub struct Worker {
    /// How far it is with an attempted bump.
    pub hand: Hand,

    /// Whether its ring still takes bumps.
    pub is_open: bool,

    /// Its counts of bumps.
    pub accounts: Accounts,

    /// The items that this worker was the first to hit.
    pub first_hits: Vec<ItemId>,

    /// The bumps that its ring accepted, in order.
    pub sent: Vec<ItemId>,

    /// How many of these its lane took: the first ones.
    pub received: usize,

    /// How far its lane is with a bump.
    pub lane: LaneStage,

    /// The bumps that its lane applied, in order.
    pub applied: Vec<AppliedBump>,
    ghost received_sent: { received ≤ length sent.items },
}

/// All workers, each by its number. How many of them are under way is kept beside, so that where none is, none need be
/// looked at.
#[derive(Drop)]
pub struct Workers {
    all: Vec<Worker>,

    // How many workers aren't Idle.
    not_idle: u32,

    // How many lanes apply a bump.
    applying: u32,
}

impl Model for Workers {
    ghost use Rattle.std.specs.Prelude.{List};
    ghost use Rattle.model_state.specs.declared.workers.Worker.{Worker};

    ghost Value = { List Worker };

    ghost use Rattle.model_state.specs.Workers.{AreCounted};

    ghost view = { λ a. a.all.items };

    ghost invariant = { λ a. AreCounted a.not_idle a.applying a.all.items };
}

impl Worker {
    ghost use Rattle.std.specs.Prelude.{◌≡◌};
    ghost use Rattle.model_state.specs.State.{new_worker};
    ghost use Rattle.model_state.specs.Workers.{worker_view};

    // A worker that has done nothing.
    fn new(alloc: Global) -> Worker
        ensures { worker_view result ≡ new_worker }
    {
        Worker {
            hand: Hand::Idle,
            is_open: true,
            accounts: Accounts::none(),
            first_hits: Vec::new(alloc),
            sent: Vec::new(alloc),
            received: 0,
            lane: LaneStage::Empty,
            applied: Vec::new(alloc),
        }
    }
}

impl Workers {
    ghost use Rattle.std.specs.Prelude.{◌≡◌, ◌<◌, IfOk, slice_index_or, replicate};
    ghost use Rattle.model_state.specs.State.{new_worker};
    ghost use Rattle.bump_rules.specs.Totals.{how_many};
    ghost use Rattle.model_state.specs.Workers.{worker_views, is_not_idle, is_applying};

    /// So many workers that have done nothing.
    pub(crate) fn new(alloc: Global, count: u32) -> Result<Workers, AllocError>
        ensures { IfOk result (λ xs. worker_views xs ≡ replicate count new_worker) }
    {
        let mut all = Vec::new(alloc);
        for _ in 0..count {
            all.push(Worker::new(alloc))?;
        }
        Ok(Workers {
            all,
            not_idle: 0,
            applying: 0,
        })
    }

    /// How many workers there are.
    pub fn len(&self) -> u32
        ensures { result ≡ length self.now }
    {
        self.all.len() as u32
    }

    /// All workers.
    pub(crate) fn as_slice(&self) -> &[Worker]
        ensures { result.now ≡ self.now }
    {
        self.all.as_slice()
    }

    /// A worker.
    pub(crate) fn at(&self, worker: u32) -> &Worker
        requires { worker < length self.now }
        ensures { result.now ≡ slice_index_or self.now worker result.now }
    {
        &self.all[worker as usize]
    }

    /// How many workers aren't Idle.
    pub(crate) fn not_idle(&self) -> u32
        ensures { result ≡ how_many is_not_idle self.now }
    {
        self.not_idle
    }

    /// How many lanes apply a bump.
    pub(crate) fn applying(&self) -> u32
        ensures { result ≡ how_many is_applying self.now }
    {
        self.applying
    }
}

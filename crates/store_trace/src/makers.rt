//! Who makes the lines behind `par`, one after the other.
//!
//! Of a maker of whom nothing else is known each relation holds by the call alone. So a clause that says which lines
//! came between what a maker was and what it is says that it was called for these lines, each once and in this order,
//! and for no other.
ghost use Rattle.std.specs.List.{AllZip};
ghost use Rattle.std.specs.Prelude.{◌≡◌, ◌<◌, ℕ, length};
ghost use Rattle.bump_rules.specs.declared.items.ItemId.{ItemId as TheItemId};
ghost use Rattle.bump_rules.specs.declared.places.Tail.{Tail as TheTail};
ghost use Rattle.bump_store.specs.Passes.{IsDrained};
ghost use Rattle.store_trace.specs.Making.{MakesGet, Unlinked, WasPulled, WasSwept};
ghost use Rattle.store_trace.specs.declared.tasks.GetTask.{GetTask as TheGetTask};

use crate::commands::{get, pull, sweep, unlink};
use crate::tasks::GetTask;
use crate::totals::Totals;
use bump_rules::{ItemId, Tail};
use bump_store::{Lane, Name, Store, Worker};
use std::sync::Wait;

/// Whoever makes a worker's `get` lines.
pub trait MakesGets {
    // From the first to the second this line was made.
    ghost gets: { TheGetTask → Self → Self → Type 0 };

    /// Makes a line.
    fn get(&mut self, task: GetTask)
        ensures { gets task self.old self.new };
}

/// Whoever makes lines that are no `get`.
pub trait MakesChores {
    // From the first to the second an item was ended, a list of a class was looked at, a class was swept, or lanes were
    // drained at a time.
    ghost unlinks: { TheItemId → Self → Self → Type 0 };

    ghost pulls: { ℕ → TheTail → Self → Self → Type 0 };

    ghost sweeps: { ℕ → Self → Self → Type 0 };

    ghost drains: { ℕ → Self → Self → Type 0 };

    /// Ends an item.
    fn unlink(&mut self, id: ItemId)
        ensures { unlinks id self.old self.new };

    /// Looks at the last item of a class's list.
    fn pull(&mut self, class: u32, tail: Tail)
        ensures { pulls class tail self.old self.new };

    /// Frees ended items of a class that nobody holds.
    fn sweep(&mut self, class: u32)
        ensures { sweeps class self.old self.new };

    /// Applies queued bumps, at this time.
    fn drain(&mut self, now: u64)
        ensures { drains now self.old self.new };
}

/// A worker on its store, and how its lines were answered so far.
#[derive(Drop)]
pub struct Getter<'s, N: Name> {
    pub(crate) store: &'s Store<N>,
    pub(crate) worker: Worker<N>,
    pub(crate) totals: Totals,
}

impl<'s, N: Name> MakesGets for Getter<'s, N> {
    ghost gets = { λ task before after. (after.store ≡ before.store)
        × MakesGet before.store.now task (before.worker, before.totals) (after.worker, after.totals) };

    fn get(&mut self, task: GetTask) {
        match get(self.store, &mut self.worker, task.id, task.now) {
            Ok((_label, touch)) => self.totals.note_touch(touch),
            Err(refusal) => self.totals.note_refusal(refusal),
        }
    }
}

// Drains each lane once, ascending.
fn drain_each<N: Name, R: Wait>(rt: &R, store: &Store<N>, lanes: &mut Vec<Lane<N>>, now: u64)
    ensures { AllZip (IsDrained now) lanes.old.items lanes.new.items }
{
    for at in 0..lanes.len() {
        let _applied = lanes[at].drain(rt, store, now);
    }
}

/// A drainer on its store, with the lanes that are its own.
#[derive(Drop)]
pub struct Tender<'s, R: Wait, N: Name> {
    pub(crate) rt: &'s R,
    pub(crate) store: &'s Store<N>,
    pub(crate) lanes: Vec<Lane<N>>,
}

impl<'s, R: Wait, N: Name> MakesChores for Tender<'s, R, N> {
    ghost unlinks = { λ item before after. (after ≡ before) × Unlinked before.store.now item };

    // A class that there is not is not pulled, and not swept.
    ghost pulls = { λ class tail before after. (after ≡ before)
        × (class < length before.store.now.classes → WasPulled before.store.now class tail) };

    ghost sweeps = { λ class before after. (after ≡ before)
        × (class < length before.store.now.classes → WasSwept before.store.now class) };

    ghost drains = { λ now before after. (after.store ≡ before.store) × (after.rt ≡ before.rt)
        × AllZip (IsDrained now) before.lanes.items after.lanes.items };

    fn unlink(&mut self, id: ItemId) {
        let _answer = unlink(self.rt, self.store, id);
    }

    fn pull(&mut self, class: u32, tail: Tail) {
        let _answer = pull(self.rt, self.store, class, tail);
    }

    fn sweep(&mut self, class: u32) {
        let _answer = sweep(self.rt, self.store, class);
    }

    fn drain(&mut self, now: u64) {
        drain_each(self.rt, self.store, &mut self.lanes, now);
    }
}

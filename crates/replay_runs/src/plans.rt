//! How an access log is run.
ghost use Rattle.std.specs.Prelude.{◌≡◌, ◌+◌, ◌%◌, ◌<◌, None, IfOk, OnOk, IfErr, length, max};
ghost use Rattle.replay_runs.specs.Faults.{RefusesStore, plan_fault, plan_fault_by};
ghost use Rattle.replay_runs.specs.Tends.{is_due};

use crate::faults::ReplayFault;
use bump_cache::{CacheConfig, Config};
use std::alloc::Global;

/// How often a cache is tended.
#[derive(Clone, Copy, Debug, PartialEq, Eq)]
pub enum Tending {
    /// Behind the first access, and then behind each so many; 0 is taken as 1.
    Accesses(u32),

    /// Behind the first access, and then behind each whose time is so many ticks behind that of the last tend, or more.
    Ticks(u64),
}

/// How an access log is run.
#[derive(Clone, Copy)]
pub struct Plan {
    /// What the cache is made from, also the seed of its keys' hashes. Its readers get in turn.
    pub config: CacheConfig,

    /// How often the cache is tended.
    pub tending: Tending,
}

impl Plan {
    // Whether the cache is tended behind the access with this place, from 0, and this time. The last tend's time was
    // `tended`, which counts only if there was one.
    pub(crate) fn is_due(&self, place: usize, now: u64, tended: u64) -> bool
        ensures { result ≡ is_due self.now.tending place now tended }
    {
        match self.tending {
            Tending::Accesses(count) => place % count.max(1) as usize == 0,
            Tending::Ticks(ticks) => place == 0 || now.saturating_sub(tended) >= ticks,
        }
    }

    // Whose turn an access is: a reader's place.
    pub(crate) fn reader_at(&self, place: usize) -> u32
        ensures { result ≡ place % max self.now.config.readers 1 }
    {
        (place % self.config.readers.max(1) as usize) as u32
    }

    // How many chunks the plan's cache has, where it has one part.
    pub(crate) fn chunks(&self) -> u64
        ensures { result ≡ self.now.config.items + self.now.config.spare }
    {
        u64::from(self.config.items) + u64::from(self.config.spare)
    }

    // That it has several parts, where it has.
    fn parts_fault(&self) -> Option<ReplayFault>
        ensures { result ≡ plan_fault_by None self.now.config.parts }
    {
        if self.config.parts > 1 {
            Some(ReplayFault::Parts)
        } else {
            None
        }
    }

    // Why no run of it is traced, if it has such a fault.
    fn fault(&self) -> Option<ReplayFault>
        ensures { result ≡ plan_fault self.now }
    {
        match self.config.fault() {
            Some(fault) => Some(ReplayFault::Config(fault)),
            None => self.parts_fault(),
        }
    }

    // The configuration of the store that the plan's cache is made over, which has one part.
    #[tactic(auto, using(crate::proofs::FaultLemmas::no_config_fault, crate::proofs::FaultLemmas::some_part))]
    pub(crate) fn store(&self, alloc: Global) -> Result<Config, ReplayFault>
        ensures some { IfOk result (λ store. 0 < length store.classes) }
        ensures part { OnOk result (0 < self.now.config.parts) }
        ensures allowed { OnOk result (plan_fault self.now ≡ None) }
        ensures refused { IfErr result (RefusesStore (plan_fault self.now)) }
    {
        match self.fault() {
            Some(fault) => Err(fault),
            None => Ok(self.config.store(alloc)?),
        }
    }
}

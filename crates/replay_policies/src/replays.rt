//! A cache through which an access log is run.
ghost use Rattle.std.specs.Prelude.{◌≡◌, ◌+◌, ◌≤◌, true, IfOk, OnOk, IfErr, OnErr};
ghost use Rattle.replay_policies.specs.Replays.{ReplayView as TheReplayView, is_size_allowed, policy_fault_of, IsReplay};
ghost use Rattle.replay_policies.specs.Tallies.{no_accesses, counted_access};

use crate::caches::Cache;
use crate::faults::PolicyFault;
use crate::policies::Policy;
use crate::tallies::Tally;
use bump_links::NODES_MAX;
use std::alloc::{AllocError, Global};
use std::marker::Model;
use std::num::NonZeroUsize;

/// So many items a cache has room for at most: 128,000,000, as many as one of bump's has chunks.
pub const MAX_ITEMS: u32 = NODES_MAX;

/// A cache through which an access log is run, access by access, and what it came to so far. A contract sees how many
/// items it has room for, and its tally (`specs/Replays.antt`).
#[derive(Drop)]
pub struct Replay {
    items: u32,
    cache: Cache,
    tally: Tally,
}

impl Model for Replay {
    ghost Value = { TheReplayView };

    ghost view = { λ r. record { items = r.items; tally = r.tally } };

    ghost invariant = { λ r. IsReplay r.items r.cache r.tally };
}

impl Replay {
    /// A cache without keys, which has room for so many items: 1 to 128,000,000. It is refused as `Items` exactly where that
    /// isn't so, and else only for want of memory.
    pub fn new(alloc: Global, policy: Policy, items: u32) -> Result<Replay, PolicyFault>
        ensures empty { IfOk result (λ r. r ≡ record { items = items; tally = no_accesses }) }
        ensures allowed { OnOk result (is_size_allowed items ≡ true) }
        ensures fault { IfErr result (λ fault. fault ≡ policy_fault_of items) }
    {
        if items > MAX_ITEMS {
            return Err(PolicyFault::Items);
        }
        let Some(room) = NonZeroUsize::new(items as usize) else {
            return Err(PolicyFault::Items);
        };
        Ok(Replay {
            items,
            cache: Cache::new(alloc, policy, room)?,
            tally: Tally::new(),
        })
    }

    /// Asks for a key: whether it was in the cache, which is a hit. It is in the cache afterwards. An access is refused
    /// only for want of memory, and only where it would have been a miss; it isn't counted then, and nothing at all is
    /// changed. Accesses past the first 2^64 - 1 aren't counted either.
    #[inline]
    pub fn access(&mut self, key: u32) -> Result<bool, AllocError>
        ensures tally { IfOk result (λ hit. self.new.tally ≡ counted_access hit self.old.tally) }
        ensures items { self.new.items ≡ self.old.items }
        ensures refused { OnErr result (self.new ≡ self.old) }
    {
        let hit = self.cache.access(self.items as usize, key)?;
        self.tally.count(hit);
        Ok(hit)
    }

    /// Removes a key, as where it is deleted or expires: whether it was in the cache. Its place is free afterwards, all other
    /// keys keep their order and what the policy has of them, and an access that asks for the key is a miss. A hand that
    /// stood at the key stands at the next one, and no ghost comes of it. Where the key isn't in the cache nothing is changed.
    /// It is no access, and isn't counted.
    #[inline]
    pub fn remove(&mut self, key: u32) -> bool
        ensures tally { self.new.tally ≡ self.old.tally }
        ensures items { self.new.items ≡ self.old.items }
    {
        self.cache.remove(self.items as usize, key)
    }

    /// How many keys are in the cache: never more than it has room for, and none of them twice.
    pub fn key_count(&self) -> usize
        ensures room { result ≤ self.now.items }
    {
        self.cache.len()
    }

    /// What the accesses came to so far.
    pub fn tally(&self) -> Tally
        ensures tally { result ≡ self.now.tally }
        ensures sum { result.hits + result.misses ≡ result.accesses }
    {
        self.tally
    }
}

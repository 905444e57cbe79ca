//! Access logs that are run as a whole.
ghost use Rattle.std.specs.Prelude.{◌≡◌, ◌+◌, true, length, IfOk, OnOk, IfErr};
ghost use Rattle.replay_policies.specs.Replays.{is_size_allowed, policy_fault_of};

use crate::faults::PolicyFault;
use crate::policies::Policy;
use crate::replays::Replay;
use crate::tallies::Tally;
use std::alloc::{AllocError, Global};

// Runs these accesses through a cache, in their order. It is refused only for want of memory.
fn run(replay: &mut Replay, accesses: &[u32]) -> Result<Tally, PolicyFault>
    requires allowed { is_size_allowed replay.old.items ≡ true }
    requires none { replay.old.tally.accesses ≡ 0 }
    ensures accesses { IfOk result (λ tally. tally.accesses ≡ length accesses.now) }
    ensures sum { IfOk result (λ tally. tally.hits + tally.misses ≡ tally.accesses) }
    ensures fault { IfErr result (λ fault. fault ≡ policy_fault_of replay.old.items) }
{
    for key in accesses {
        replay.access(*key)?;
    }
    Ok(replay.tally())
}

/// An access log, the key numbers in their order, run through a cache that has no keys at first, and room for so many
/// items: 1 to 128,000,000. It is refused as `Items` exactly where that isn't so, and else only for want of memory.
pub fn replay(
    alloc: Global,
    policy: Policy,
    items: u32,
    accesses: &[u32],
) -> Result<Tally, PolicyFault>
    ensures accesses { IfOk result (λ tally. tally.accesses ≡ length accesses.now) }
    ensures sum { IfOk result (λ tally. tally.hits + tally.misses ≡ tally.accesses) }
    ensures allowed { OnOk result (is_size_allowed items ≡ true) }
    ensures fault { IfErr result (λ fault. fault ≡ policy_fault_of items) }
{
    match Replay::new(alloc, policy, items) {
        Ok(mut replay) => run(&mut replay, accesses),
        Err(fault) => Err(fault),
    }
}

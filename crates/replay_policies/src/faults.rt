//! Why an access log isn't run.
ghost use Rattle.std.specs.Prelude.{◌≡◌};
ghost use Rattle.replay_policies.specs.declared.faults.PolicyFault.TheVariants as fault;

use std::alloc::AllocError;
use thiserror::Error;

/// Why an access log isn't run.
#[derive(Clone, Copy, Debug, PartialEq, Eq, Error)]
pub enum PolicyFault {
    /// Not 1 to 128,000,000 items.
    #[error("a cache has room for 1 to 128,000,000 items")]
    Items,

    /// Memory was refused.
    #[error("out of memory")]
    Memory,
}

impl From<AllocError> for PolicyFault {
    ghost from_gives = { λ _ f. f ≡ fault.Memory };

    fn from(_error: AllocError) -> Self {
        PolicyFault::Memory
    }
}

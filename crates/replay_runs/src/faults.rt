//! Why an access log isn't run to its end, or its run isn't traced.
ghost use Rattle.std.specs.Prelude.{◌≡◌};
ghost use Rattle.replay_runs.specs.declared.faults.ReplayFault.TheVariants as fault;

use bump_cache::CacheFault;
use bump_trace::SimFault;
use std::alloc::{AllocError, AllocFailed};
use thiserror::Error;

/// Why an access log isn't run to its end, or its run isn't traced.
#[derive(Clone, Copy, Debug, PartialEq, Eq, Error)]
pub enum ReplayFault {
    /// The cache can't be made from these numbers.
    #[error("{0}")]
    Config(CacheFault),

    /// A trace was to be of a cache of several parts.
    #[error("a trace is of a cache of one part")]
    Parts,

    /// Memory was refused.
    #[error("memory was refused")]
    Memory,

    /// The trace would have more than 16,777,216 bytes.
    #[error("the trace would have more than 16777216 bytes")]
    Long,

    /// More bumps of a reader waited at a put that had its turn than it applies, which are 16; and no line of a trace
    /// applies some of them and leaves others. A ring that has room for at most 16 never has more.
    #[error("more than 16 bumps of a reader wait at a put, which no trace tells: take a ring of 16")]
    Bumps,

    /// The World refused a call that was written. No log is known that does this.
    #[error("a call that was written can't be made")]
    Refused,

    /// The trace that was written doesn't run to its end. So it is where the cache has more than 1,000,000 chunks, since no
    /// store of a trace has as many; no log is known that does this in another one.
    #[error("the trace that was written can't be run: {0}")]
    Run(SimFault),
}

impl From<AllocError> for ReplayFault {
    ghost from_gives = { λ _ f. f ≡ fault.Memory };

    fn from(_error: AllocError) -> Self {
        ReplayFault::Memory
    }
}

impl<T: Drop> From<AllocFailed<T>> for ReplayFault {
    ghost from_gives = { λ _ f. f ≡ fault.Memory };

    fn from(_error: AllocFailed<T>) -> Self {
        ReplayFault::Memory
    }
}

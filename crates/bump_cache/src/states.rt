//! The states of a cache's log.
use call_log::State;
use std::marker::Model;

/// What the log of a cache has as its states. Contracts see it as what the lock of a part guards, with the part's
/// number; no program has one.
pub struct CacheState;

impl Model for CacheState {
    ghost use Rattle.bump_cache.specs.States.{PartState, no_state};

    ghost Value = { PartState };

    ghost view = { λ s. no_state };
}

impl State for CacheState {
    ghost use Rattle.bump_cache.specs.States.{no_state, number_of};

    ghost some_state = { no_state };

    ghost number = { number_of };
}

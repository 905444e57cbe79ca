//! The event of a ring that closes.
ghost use Rattle.std.specs.Prelude.{◌≡◌, IfErr};
ghost use Rattle.model_state.specs.Events.{Steps};
ghost use Rattle.model_state.specs.Views.{state_of};
ghost use Rattle.bump_rules.specs.declared.events.Event.TheVariants as event;
ghost use Rattle.bump_rules.specs.declared.events.Refused.TheVariants.{NotEnabled};

use crate::world_state::WorldState;
use bump_rules::{Refused, Reply};

impl WorldState {
    /// A worker's ring closes. Refused where it is closed, or the worker isn't idle.
    pub fn close(&mut self, worker: u32) -> Result<Reply, Refused>
        ensures step { Steps (state_of self.old) (event.Close worker) (state_of self.new) result }
        ensures memory { IfErr result (λ r. r ≡ NotEnabled) }
    {
        if !self.is_open(worker) || !self.hand(worker).is_idle() {
            return Err(Refused::NotEnabled);
        }
        self.close_ring(worker);
        Ok(Reply::Done)
    }
}

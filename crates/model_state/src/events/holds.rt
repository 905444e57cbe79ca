//! Events of holds: loads, and holds that are taken and given back.
ghost use Rattle.std.specs.Prelude.{◌≡◌, IfErr};
ghost use Rattle.model_state.specs.Events.{Steps};
ghost use Rattle.model_state.specs.Views.{state_of};
ghost use Rattle.model_state.specs.Worlds.{IsLawful};
ghost use Rattle.bump_rules.specs.declared.events.Event.TheVariants as event;
ghost use Rattle.bump_rules.specs.declared.events.Refused.TheVariants.{NotEnabled};

use crate::chunks::Chunk;
use crate::world_state::WorldState;
use bump_rules::{Head, ItemId, Refused, Reply};

impl WorldState {
    /// A load of the head, which it answers. Refused where there is no such chunk.
    pub fn load(&self, chunk: u32) -> Result<Reply, Refused>
        ensures step { Steps (state_of self.now) (event.Load chunk) (state_of self.now) result }
        ensures memory { IfErr result (λ r. r ≡ NotEnabled) }
    {
        if !self.has_chunk(chunk) {
            return Err(Refused::NotEnabled);
        }
        Ok(Reply::Word(self.head(chunk)))
    }

    /// A reader's hold is taken. Refused where the worker's ring is closed, the life isn't
    /// linked, or the count is at its limit.
    pub fn take(&mut self, worker: u32, life: ItemId) -> Result<Reply, Refused>
        requires { IsLawful (state_of self.old) }
        ensures step { Steps (state_of self.old) (event.Take worker life) (state_of self.new) result }
        ensures memory { IfErr result (λ r. r ≡ NotEnabled) }
    {
        if !self.is_open(worker) || !self.is_linked(life) {
            return Err(Refused::NotEnabled);
        }
        let chunk = self.chunk(life.chunk);
        if chunk.head.refs >= self.refs_limit {
            return Err(Refused::NotEnabled);
        }
        self.set_chunk(
            life.chunk,
            Chunk {
                head: Head {
                    refs: chunk.head.refs + 1,
                    ..chunk.head
                },
                holds: chunk.holds + 1,
                ..chunk
            },
        );
        Ok(Reply::Done)
    }

    /// A hold is given back; answers the head that it found. Refused where the life has no free hold.
    pub fn release(&mut self, life: ItemId) -> Result<Reply, Refused>
        requires { IsLawful (state_of self.old) }
        ensures step { Steps (state_of self.old) (event.Release life) (state_of self.new) result }
        ensures memory { IfErr result (λ r. r ≡ NotEnabled) }
    {
        if !self.has_free_hold(life) {
            return Err(Refused::NotEnabled);
        }
        let chunk = self.chunk(life.chunk);
        self.set_chunk(
            life.chunk,
            Chunk {
                head: Head {
                    refs: chunk.head.refs - 1,
                    ..chunk.head
                },
                holds: chunk.holds - 1,
                ..chunk
            },
        );
        Ok(Reply::Word(chunk.head))
    }
}

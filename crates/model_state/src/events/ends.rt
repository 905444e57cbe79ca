//! Events of ends: an item is unlinked, and its chunk is free when it is found without holders.
ghost use Rattle.std.specs.Prelude.{◌≡◌, ◌<◌, length};
ghost use Rattle.model_state.specs.Events.{Steps, is_dying};
ghost use Rattle.model_state.specs.Views.{state_of};
ghost use Rattle.model_state.specs.Worlds.{IsLawful};
ghost use Rattle.bump_rules.specs.declared.events.Event.TheVariants as event;

use crate::world_state::WorldState;
use bump_rules::{Change, Head, ItemId, Place, Refused, Reply};

impl WorldState {
    // Whether a chunk stands in its class's DYING.
    fn is_dying(&self, chunk: u32) -> bool
        requires chunk { chunk < length (state_of self.now).chunks }
        requires lawful { IsLawful (state_of self.now) }
        ensures { result ≡ is_dying (state_of self.now) chunk }
    {
        let class = self.class_of(chunk);
        self.list_has(class, chunk, Place::Dying)
    }

    /// An item's life ends, and its chunk goes to DYING; answers the head that it found. Refused where the life isn't
    /// linked, or a lane applies a bump of its class.
    pub fn unlink(&mut self, life: ItemId) -> Result<Reply, Refused>
        requires { IsLawful (state_of self.old) }
        ensures step { Steps (state_of self.old) (event.Unlink life) (state_of self.new) result }
    {
        if !self.is_linked(life) {
            return Err(Refused::NotEnabled);
        }
        let class = self.class_of(life.chunk);
        if self.is_under_application(class) {
            return Err(Refused::NotEnabled);
        }
        let head = self.head(life.chunk);
        self.change_chunk(class, Change::Unlinked(life))?;
        self.set_head(life.chunk, head.after_unlink());
        Ok(Reply::Word(head))
    }

    /// A chunk of DYING without holders is free; answers its head. Refused where there is no such chunk, it isn't in
    /// DYING, somebody holds it, or a lane applies a bump of its class.
    pub fn sweep(&mut self, chunk: u32) -> Result<Reply, Refused>
        requires { IsLawful (state_of self.old) }
        ensures step { Steps (state_of self.old) (event.Sweep chunk) (state_of self.new) result }
    {
        if !self.has_chunk(chunk) || !self.is_dying(chunk) {
            return Err(Refused::NotEnabled);
        }
        let head = self.head(chunk);
        let class = self.class_of(chunk);
        if head.refs != 0 || self.is_under_application(class) {
            return Err(Refused::NotEnabled);
        }
        let life = ItemId {
            chunk,
            generation: head.generation,
        };
        self.free_chunk(class, life)?;
        Ok(Reply::Word(head))
    }
}

//! Events of pulls: ACTIVE is cleared, and items move to the front of a segment.
ghost use Rattle.std.specs.Prelude.{◌≡◌, IfErr};
ghost use Rattle.model_state.specs.Events.{Steps};
ghost use Rattle.model_state.specs.Views.{state_of};
ghost use Rattle.model_state.specs.Worlds.{IsLawful};
ghost use Rattle.bump_rules.specs.declared.events.Event.TheVariants as event;
ghost use Rattle.bump_rules.specs.declared.events.Refused.TheVariants.{NotEnabled};

use crate::world_state::WorldState;
use bump_rules::{Cause, Change, Head, ItemId, Refused, Reply, Segment};

impl WorldState {
    /// A pull clears ACTIVE; answers the head that it found. Refused where there is no such chunk, it isn't linked,
    /// or a lane applies a bump of its class.
    pub fn clear_active(&mut self, chunk: u32) -> Result<Reply, Refused>
        ensures step { Steps (state_of self.old) (event.ClearActive chunk) (state_of self.new) result }
        ensures memory { IfErr result (λ r. r ≡ NotEnabled) }
    {
        if !self.has_chunk(chunk) {
            return Err(Refused::NotEnabled);
        }
        let head = self.head(chunk);
        if !head.linked || self.is_under_application(self.class_of(chunk)) {
            return Err(Refused::NotEnabled);
        }
        self.set_head(
            chunk,
            Head {
                active: false,
                ..head
            },
        );
        Ok(Reply::Word(head))
    }

    /// A pull moves an item to the front of a segment. Refused as clearing ACTIVE is, and where no pull
    /// moves from its segment to that.
    pub fn move_chunk(&mut self, chunk: u32, to: Segment) -> Result<Reply, Refused>
        requires { IsLawful (state_of self.old) }
        ensures step { Steps (state_of self.old) (event.Move chunk to) (state_of self.new) result }
    {
        if !self.has_chunk(chunk) {
            return Err(Refused::NotEnabled);
        }
        let head = self.head(chunk);
        let class = self.class_of(chunk);
        if !head.linked || !head.segment.may_move(to) || self.is_under_application(class) {
            return Err(Refused::NotEnabled);
        }
        let life = ItemId {
            chunk,
            generation: head.generation,
        };
        self.change_chunk(class, Change::Moved(life, head.segment, to, Cause::Pull))?;
        self.set_head(
            chunk,
            Head {
                segment: to,
                ..head
            },
        );
        Ok(Reply::Done)
    }
}

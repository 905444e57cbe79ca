//! Events of links: the next item of a class gets its label and its time, and begins its life.
ghost use Rattle.std.specs.Prelude.{◌≡◌, IfOk, IfErr, OnOk, OnErr};
ghost use Rattle.model_state.specs.Events.{Steps, IsEnabledBy, is_class_at_rest, may_link, link_next};
ghost use Rattle.model_state.specs.Events.{link_reply};
ghost use Rattle.model_state.specs.Views.{state_of};
ghost use Rattle.model_state.specs.Worlds.{IsLawful};
ghost use Rattle.bump_rules.specs.declared.events.Event.TheVariants as event;
ghost use Rattle.bump_rules.specs.declared.events.Refused.TheVariants.{NotEnabled};

use crate::chunks::Chunk;
use crate::world_state::WorldState;
use bump_rules::{Change, Head, ItemId, Refused, Reply, Start};

impl WorldState {
    // Whether a class exists and no lane applies a bump of it.
    fn is_class_at_rest(&self, class: u32) -> bool
        ensures { result ≡ is_class_at_rest (state_of self.now) class }
    {
        self.has_class(class) && !self.is_under_application(class as usize)
    }

    /// The label of the next item of a class is stored. Refused where there is no such class, a lane applies a bump
    /// of it, or its UNUSED is empty.
    pub fn put_label(&mut self, class: u32, label: u64) -> Result<Reply, Refused>
        requires { IsLawful (state_of self.old) }
        ensures step { Steps (state_of self.old) (event.PutLabel class label) (state_of self.new) result }
        ensures memory { IfErr result (λ r. r ≡ NotEnabled) }
    {
        if !self.is_class_at_rest(class) {
            return Err(Refused::NotEnabled);
        }
        let Some(next) = self.next_chunk(class) else {
            return Err(Refused::NotEnabled);
        };
        let chunk = self.chunk(next);
        self.set_chunk(next, Chunk { label, ..chunk });
        Ok(Reply::Done)
    }

    /// The time of the next item of a class is stored. Refused as its label is.
    pub fn put_time(&mut self, class: u32, time: u64) -> Result<Reply, Refused>
        requires { IsLawful (state_of self.old) }
        ensures step { Steps (state_of self.old) (event.PutTime class time) (state_of self.new) result }
        ensures memory { IfErr result (λ r. r ≡ NotEnabled) }
    {
        if !self.is_class_at_rest(class) {
            return Err(Refused::NotEnabled);
        }
        let Some(next) = self.next_chunk(class) else {
            return Err(Refused::NotEnabled);
        };
        let chunk = self.chunk(next);
        self.set_chunk(next, Chunk { time, ..chunk });
        Ok(Reply::Done)
    }

    /// The next item of a class begins its life, at the front of a segment, and its life is answered.
    pub fn begin_life(&mut self, class: u32, start: Start) -> Result<Reply, Refused>
        requires { IsLawful (state_of self.old) }
        ensures enabled { IsEnabledBy (may_link (state_of self.old) class) result }
        ensures state { OnOk result (state_of self.new ≡ link_next (state_of self.old) start class) }
        ensures reply { IfOk result (λ r. r ≡ link_reply (state_of self.old) class) }
        ensures unchanged { OnErr result (state_of self.new ≡ state_of self.old) }
    {
        if !self.is_class_at_rest(class) {
            return Err(Refused::NotEnabled);
        }
        let Some(next) = self.next_chunk(class) else {
            return Err(Refused::NotEnabled);
        };
        let life = ItemId {
            chunk: next,
            generation: self.head(next).generation + 1,
        };
        self.change_chunk(class as usize, Change::begun(start, life))?;
        self.set_head(next, Head::after_link(start, life.generation));
        Ok(Reply::Life(life))
    }

    /// The next item of a class begins its life, at the front of HOT, and its life is
    /// answered. Refused as its label is.
    pub fn link(&mut self, class: u32) -> Result<Reply, Refused>
        requires { IsLawful (state_of self.old) }
        ensures step { Steps (state_of self.old) (event.Link class) (state_of self.new) result }
    {
        self.begin_life(class, Start::Hot)
    }

    /// The same at the front of TEMP.
    pub fn link_temp(&mut self, class: u32) -> Result<Reply, Refused>
        requires { IsLawful (state_of self.old) }
        ensures step { Steps (state_of self.old) (event.LinkTemp class) (state_of self.new) result }
    {
        self.begin_life(class, Start::Temp)
    }
}

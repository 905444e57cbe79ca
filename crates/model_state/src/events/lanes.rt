//! Events of a lane: the bumps of its worker's ring are taken and applied, in order.
ghost use Rattle.std.specs.Prelude.{◌≡◌, ◌<◌, IsSome, IfSome, length, true, IfErr};
ghost use Rattle.model_state.specs.State.{worker_at, head_at};
ghost use Rattle.bump_rules.specs.Lanes.{carried, tried, applied_now, cleared_active};
ghost use Rattle.model_state.specs.Events.{Steps};
ghost use Rattle.bump_rules.specs.declared.places.Segment.TheVariants.{Cold};
ghost use Rattle.model_state.specs.Views.{state_of};
ghost use Rattle.model_state.specs.Worlds.{IsLawful};
ghost use Rattle.bump_rules.specs.declared.events.Event.TheVariants as event;
ghost use Rattle.bump_rules.specs.declared.events.Refused.TheVariants.{NotEnabled};

use crate::chunks::Chunk;
use crate::world_state::WorldState;
use bump_rules::{Bump, Cause, Change, Head, LaneStage, Refused, Reply, Segment};

impl WorldState {
    // The bump that a lane took and has not looked at yet, if there is one.
    fn carried_by(&self, worker: u32) -> Option<Bump>
        requires { IsLawful (state_of self.now) }
        ensures bump { result ≡ carried (worker_at (state_of self.now) worker).lane }
        ensures worker { IsSome result → worker < length (state_of self.now).workers }
        ensures chunk { IfSome result (λ b. b.life.chunk < length (state_of self.now).chunks) }
    {
        if !self.has_worker(worker) {
            return None;
        }
        self.lane(worker).carried()
    }

    // The bump that a lane looked at, and whose ACTIVE it has not cleared yet, if there is one.
    fn looked_at_by(&self, worker: u32) -> Option<Bump>
        requires { IsLawful (state_of self.now) }
        ensures bump { result ≡ tried (worker_at (state_of self.now) worker).lane }
        ensures worker { IsSome result → worker < length (state_of self.now).workers }
        ensures chunk { IfSome result (λ b. b.life.chunk < length (state_of self.now).chunks) }
    {
        if !self.has_worker(worker) {
            return None;
        }
        self.lane(worker).tried()
    }

    // The bump that a lane applies, if it does.
    fn applied_by(&self, worker: u32) -> Option<Bump>
        requires { IsLawful (state_of self.now) }
        ensures bump { result ≡ applied_now (worker_at (state_of self.now) worker).lane }
        ensures worker { IsSome result → worker < length (state_of self.now).workers }
        ensures chunk { IfSome result (λ b. b.life.chunk < length (state_of self.now).chunks) }
    {
        if !self.has_worker(worker) {
            return None;
        }
        self.lane(worker).applied_now()
    }

    // The bump whose item a lane is to move, if it is.
    fn moving_by(&self, worker: u32) -> Option<Bump>
        requires { IsLawful (state_of self.now) }
        ensures bump { result ≡ cleared_active (worker_at (state_of self.now) worker).lane }
        ensures worker { IsSome result → worker < length (state_of self.now).workers }
        ensures chunk { IfSome result (λ b. (b.life.chunk < length (state_of self.now).chunks)
            × ((head_at (state_of self.now) b.life.chunk).linked ≡ true)
            × ((head_at (state_of self.now) b.life.chunk).segment ≡ Cold)) }
    {
        if !self.has_worker(worker) {
            return None;
        }
        self.lane(worker).cleared_active()
    }

    /// A lane takes the next bump from its worker's ring, and answers its number, from 0. Refused where it
    /// has one aboard, or none waits.
    pub fn take_bump(&mut self, worker: u32) -> Result<Reply, Refused>
        ensures step { Steps (state_of self.old) (event.TakeBump worker) (state_of self.new) result }
        ensures memory { IfErr result (λ r. r ≡ NotEnabled) }
    {
        if !self.has_worker(worker) || !self.lane(worker).is_empty() {
            return Err(Refused::NotEnabled);
        }
        let Some(life) = self.next_bump(worker) else {
            return Err(Refused::NotEnabled);
        };
        Ok(Reply::Number(self.take_next(worker, life)))
    }

    /// The lane looks at the head of its bump's item, and answers it. Refused where it has taken no bump or has
    /// looked already, or a lane applies a bump of the item's class.
    pub fn try_bump(&mut self, worker: u32) -> Result<Reply, Refused>
        requires { IsLawful (state_of self.old) }
        ensures step { Steps (state_of self.old) (event.Try worker) (state_of self.new) result }
        ensures memory { IfErr result (λ r. r ≡ NotEnabled) }
    {
        let Some(bump) = self.carried_by(worker) else {
            return Err(Refused::NotEnabled);
        };
        let chunk = bump.life.chunk;
        if self.is_under_application(self.class_of(chunk)) {
            return Err(Refused::NotEnabled);
        }
        self.set_lane(worker, LaneStage::Tried(bump));
        Ok(Reply::Word(self.head(chunk)))
    }

    /// The lane stores the time, in the caller's ticks. Refused where it applies no bump, or the item isn't linked.
    pub fn bump_time(&mut self, worker: u32, time: u64) -> Result<Reply, Refused>
        requires { IsLawful (state_of self.old) }
        ensures step { Steps (state_of self.old) (event.BumpTime worker time) (state_of self.new) result }
        ensures memory { IfErr result (λ r. r ≡ NotEnabled) }
    {
        let Some(bump) = self.applied_by(worker) else {
            return Err(Refused::NotEnabled);
        };
        let chunk = self.chunk(bump.life.chunk);
        if !chunk.head.linked {
            return Err(Refused::NotEnabled);
        }
        self.set_chunk(bump.life.chunk, Chunk { time, ..chunk });
        Ok(Reply::Done)
    }

    /// The lane clears ACTIVE, and answers the head that it found. Refused where it has looked at no bump, or the
    /// item isn't linked or isn't in COLD.
    pub fn clear_for(&mut self, worker: u32) -> Result<Reply, Refused>
        requires { IsLawful (state_of self.old) }
        ensures step { Steps (state_of self.old) (event.ClearFor worker) (state_of self.new) result }
        ensures memory { IfErr result (λ r. r ≡ NotEnabled) }
    {
        let Some(bump) = self.looked_at_by(worker) else {
            return Err(Refused::NotEnabled);
        };
        let head = self.head(bump.life.chunk);
        if !head.linked || !matches!(head.segment, Segment::Cold) {
            return Err(Refused::NotEnabled);
        }
        self.set_head(
            bump.life.chunk,
            Head {
                active: false,
                ..head
            },
        );
        self.set_lane(worker, LaneStage::Cleared(bump, head.active));
        Ok(Reply::Word(head))
    }

    /// The lane moves the item to the front of WARM. Refused where it hasn't cleared an ACTIVE that was set.
    pub fn move_for(&mut self, worker: u32) -> Result<Reply, Refused>
        requires { IsLawful (state_of self.old) }
        ensures step { Steps (state_of self.old) (event.MoveFor worker) (state_of self.new) result }
    {
        let Some(bump) = self.moving_by(worker) else {
            return Err(Refused::NotEnabled);
        };
        let chunk = bump.life.chunk;
        let head = self.head(chunk);
        self.change_chunk(
            self.class_of(chunk),
            Change::Moved(
                bump.life,
                Segment::Cold,
                Segment::Warm,
                Cause::Bump(worker, bump.number),
            ),
        )?;
        self.set_head(
            chunk,
            Head {
                segment: Segment::Warm,
                ..head
            },
        );
        self.set_lane(worker, LaneStage::Moved(bump));
        Ok(Reply::Done)
    }

    /// The lane gives the bump's reference back, and answers what applying it came to.
    /// Refused where it isn't done with it.
    pub fn alight(&mut self, worker: u32) -> Result<Reply, Refused>
        requires { IsLawful (state_of self.old) }
        ensures step { Steps (state_of self.old) (event.Alight worker) (state_of self.new) result }
    {
        let Some(bump) = self.applied_by(worker) else {
            return Err(Refused::NotEnabled);
        };
        let head = self.head(bump.life.chunk);
        let Some(applied) = self.lane(worker).ending(head) else {
            return Err(Refused::NotEnabled);
        };
        self.push_applied(worker, applied)?;
        self.set_head(
            bump.life.chunk,
            Head {
                refs: head.refs.saturating_sub(1),
                ..head
            },
        );
        Ok(Reply::Outcome(applied.outcome))
    }
}

//! Events of hits: the marks that a hit leaves, and its time.
ghost use Rattle.std.specs.Prelude.{◌≡◌, true, IfErr};
ghost use Rattle.model_state.specs.State.{head_at};
ghost use Rattle.model_state.specs.Events.{Steps, may_hit};
ghost use Rattle.model_state.specs.Views.{state_of};
ghost use Rattle.bump_rules.specs.declared.events.Event.TheVariants as event;
ghost use Rattle.bump_rules.specs.declared.events.Refused.TheVariants.{NotEnabled};

use crate::chunks::Chunk;
use crate::world_state::WorldState;
use bump_rules::{Accounts, Hand, Head, ItemId, MOST_ATTEMPTS, Refused, Reply, Segment};

impl WorldState {
    /// A hit stores the time, in the caller's ticks. Refused where the life has no hold.
    pub fn store_time(&mut self, life: ItemId, time: u64) -> Result<Reply, Refused>
        ensures step { Steps (state_of self.old) (event.StoreTime life time) (state_of self.new) result }
        ensures memory { IfErr result (λ r. r ≡ NotEnabled) }
    {
        if !self.is_held(life) {
            return Err(Refused::NotEnabled);
        }
        let chunk = self.chunk(life.chunk);
        self.set_chunk(life.chunk, Chunk { time, ..chunk });
        Ok(Reply::Done)
    }

    // Whether a worker may begin a step of a hit on a life.
    fn may_hit(&self, worker: u32, life: ItemId) -> bool
        ensures { result ≡ may_hit (state_of self.now) worker life }
    {
        self.is_open(worker) && self.hand(worker).is_idle() && self.has_free_hold(life)
    }

    /// A hit sets FETCHED, and where it was clear the worker is named as the first; answers the head that it found.
    /// Refused where the worker's ring is closed or it isn't idle, or where the life has no free hold.
    pub fn fetch(&mut self, worker: u32, life: ItemId) -> Result<Reply, Refused>
        ensures step { Steps (state_of self.old) (event.Fetch worker life) (state_of self.new) result }
        ensures memory { (head_at (state_of self.old) life.chunk).fetched ≡ true → IfErr result (λ r. r ≡ NotEnabled) }
    {
        if !self.may_hit(worker, life) {
            return Err(Refused::NotEnabled);
        }
        let head = self.head(life.chunk);
        if !head.fetched {
            self.push_first_hit(worker, life)?;
        }
        self.set_head(
            life.chunk,
            Head {
                fetched: true,
                ..head
            },
        );
        Ok(Reply::Word(head))
    }

    /// A hit sets ACTIVE, and where it was clear in COLD, a bump is attempted; answers the head that it
    /// found. Refused as the first step of a hit is, and where FETCHED is clear or the worker has
    /// attempted as many bumps as any may.
    pub fn mark(&mut self, worker: u32, life: ItemId) -> Result<Reply, Refused>
        ensures step { Steps (state_of self.old) (event.Mark worker life) (state_of self.new) result }
        ensures memory { IfErr result (λ r. r ≡ NotEnabled) }
    {
        if !self.may_hit(worker, life) {
            return Err(Refused::NotEnabled);
        }
        let head = self.head(life.chunk);
        let accounts = self.accounts(worker);
        if !head.fetched || accounts.attempted >= MOST_ATTEMPTS {
            return Err(Refused::NotEnabled);
        }
        self.set_head(
            life.chunk,
            Head {
                active: true,
                ..head
            },
        );
        if !head.active && matches!(head.segment, Segment::Cold) {
            self.set_hand(
                worker,
                Hand::Trying(life),
                Accounts {
                    attempted: accounts.attempted + 1,
                    ..accounts
                },
            );
        }
        Ok(Reply::Word(head))
    }
}

//! Events of an attempted bump, from its reference to the worker's ring, or to its drop.
ghost use Rattle.std.specs.Prelude.{◌≡◌, ◌<◌, IsSome, IfSome, length, IfErr};
ghost use Rattle.model_state.specs.State.{worker_at};
ghost use Rattle.bump_rules.specs.Hands.{tried_life, life_in_hand, cleared_life};
ghost use Rattle.model_state.specs.Events.{Steps};
ghost use Rattle.model_state.specs.Views.{state_of};
ghost use Rattle.model_state.specs.Worlds.{IsLawful};
ghost use Rattle.bump_rules.specs.declared.events.Event.TheVariants as event;
ghost use Rattle.bump_rules.specs.declared.events.Refused.TheVariants.{NotEnabled};

use crate::world_state::WorldState;
use bump_rules::{Accounts, Hand, Head, ItemId, Refused, Reply};

impl WorldState {
    // The life of the bump that a worker tries to take a reference for, if it does.
    fn tried_by(&self, worker: u32) -> Option<ItemId>
        requires { IsLawful (state_of self.now) }
        ensures life { result ≡ tried_life (worker_at (state_of self.now) worker).hand }
        ensures worker { IsSome result → worker < length (state_of self.now).workers }
        ensures chunk { IfSome result (λ l. l.chunk < length (state_of self.now).chunks) }
    {
        if !self.has_worker(worker) {
            return None;
        }
        self.hand(worker).tried()
    }

    // The life of the bump in a worker's hand, if there is one.
    fn in_hand_by(&self, worker: u32) -> Option<ItemId>
        requires { IsLawful (state_of self.now) }
        ensures life { result ≡ life_in_hand (worker_at (state_of self.now) worker).hand }
        ensures worker { IsSome result → worker < length (state_of self.now).workers }
        ensures chunk { IfSome result (λ l. l.chunk < length (state_of self.now).chunks) }
    {
        if !self.has_worker(worker) {
            return None;
        }
        self.hand(worker).in_hand()
    }

    // The life whose ACTIVE a worker is to clear, if there is one.
    fn cleared_by(&self, worker: u32) -> Option<ItemId>
        requires { IsLawful (state_of self.now) }
        ensures life { result ≡ cleared_life (worker_at (state_of self.now) worker).hand }
        ensures worker { IsSome result → worker < length (state_of self.now).workers }
        ensures chunk { IfSome result (λ l. l.chunk < length (state_of self.now).chunks) }
    {
        if !self.has_worker(worker) {
            return None;
        }
        self.hand(worker).cleared()
    }

    /// The attempted bump gets its reference. Refused where the worker tries for none, or the count is at its limit.
    pub fn reserve(&mut self, worker: u32) -> Result<Reply, Refused>
        requires { IsLawful (state_of self.old) }
        ensures step { Steps (state_of self.old) (event.Reserve worker) (state_of self.new) result }
        ensures memory { IfErr result (λ r. r ≡ NotEnabled) }
    {
        let Some(life) = self.tried_by(worker) else {
            return Err(Refused::NotEnabled);
        };
        let head = self.head(life.chunk);
        if head.refs >= self.refs_limit {
            return Err(Refused::NotEnabled);
        }
        let accounts = self.accounts(worker);
        self.set_head(
            life.chunk,
            Head {
                refs: head.refs + 1,
                ..head
            },
        );
        self.set_hand(worker, Hand::InHand(life), accounts);
        Ok(Reply::Done)
    }

    /// The attempted bump is dropped: the count is at its limit. Answers the head. Refused where the worker tries for
    /// no reference, or the count is under its limit.
    pub fn drop_refs(&mut self, worker: u32) -> Result<Reply, Refused>
        requires { IsLawful (state_of self.old) }
        ensures step { Steps (state_of self.old) (event.DropRefs worker) (state_of self.new) result }
        ensures memory { IfErr result (λ r. r ≡ NotEnabled) }
    {
        let Some(life) = self.tried_by(worker) else {
            return Err(Refused::NotEnabled);
        };
        let head = self.head(life.chunk);
        if head.refs < self.refs_limit {
            return Err(Refused::NotEnabled);
        }
        let accounts = self.accounts(worker);
        self.set_hand(
            worker,
            Hand::Clearing(life),
            Accounts {
                refs: accounts.refs + 1,
                ..accounts
            },
        );
        Ok(Reply::Word(head))
    }

    /// The attempted bump is dropped: other threads were faster too often. Answers the head. Refused where the
    /// worker tries for no reference.
    pub fn drop_busy(&mut self, worker: u32) -> Result<Reply, Refused>
        requires { IsLawful (state_of self.old) }
        ensures step { Steps (state_of self.old) (event.DropBusy worker) (state_of self.new) result }
        ensures memory { IfErr result (λ r. r ≡ NotEnabled) }
    {
        let Some(life) = self.tried_by(worker) else {
            return Err(Refused::NotEnabled);
        };
        let head = self.head(life.chunk);
        let accounts = self.accounts(worker);
        self.set_hand(
            worker,
            Hand::Clearing(life),
            Accounts {
                busy: accounts.busy + 1,
                ..accounts
            },
        );
        Ok(Reply::Word(head))
    }

    /// The worker's ring takes the bump, and answers its number, from 0. Refused where none is in its hand,
    /// or the ring is closed or full.
    pub fn push(&mut self, worker: u32) -> Result<Reply, Refused>
        requires { IsLawful (state_of self.old) }
        ensures step { Steps (state_of self.old) (event.Push worker) (state_of self.new) result }
    {
        let Some(life) = self.in_hand_by(worker) else {
            return Err(Refused::NotEnabled);
        };
        if !self.is_open(worker) || self.waiting(worker) >= self.capacity as usize {
            return Err(Refused::NotEnabled);
        }
        let number = self.sent_bumps(worker).len() as u64;
        self.push_bump(worker, life)?;
        Ok(Reply::Number(number))
    }

    /// The bump is dropped for want of room in the ring, and its reference is given back; answers the head that it
    /// found. Refused where none is in its hand, or the ring has accepted fewer bumps than it has room for.
    pub fn drop_full(&mut self, worker: u32) -> Result<Reply, Refused>
        requires { IsLawful (state_of self.old) }
        ensures step { Steps (state_of self.old) (event.DropFull worker) (state_of self.new) result }
        ensures memory { IfErr result (λ r. r ≡ NotEnabled) }
    {
        let Some(life) = self.in_hand_by(worker) else {
            return Err(Refused::NotEnabled);
        };
        if self.sent_bumps(worker).len() < self.capacity as usize {
            return Err(Refused::NotEnabled);
        }
        let head = self.head(life.chunk);
        let accounts = self.accounts(worker);
        self.set_head(
            life.chunk,
            Head {
                refs: head.refs.saturating_sub(1),
                ..head
            },
        );
        self.set_hand(
            worker,
            Hand::Clearing(life),
            Accounts {
                full: accounts.full + 1,
                ..accounts
            },
        );
        Ok(Reply::Word(head))
    }

    /// After a drop ACTIVE is cleared; answers the head that it found. Refused where the worker is to clear none.
    pub fn unmark(&mut self, worker: u32) -> Result<Reply, Refused>
        requires { IsLawful (state_of self.old) }
        ensures step { Steps (state_of self.old) (event.Unmark worker) (state_of self.new) result }
        ensures memory { IfErr result (λ r. r ≡ NotEnabled) }
    {
        let Some(life) = self.cleared_by(worker) else {
            return Err(Refused::NotEnabled);
        };
        let head = self.head(life.chunk);
        let accounts = self.accounts(worker);
        self.set_head(
            life.chunk,
            Head {
                active: false,
                ..head
            },
        );
        self.set_hand(worker, Hand::Idle, accounts);
        Ok(Reply::Word(head))
    }
}

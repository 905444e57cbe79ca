//! The ends of a ring, and what they do. Contracts see plain data.
ghost use Rattle.std.specs.Prelude.{◌≡◌, ◌+◌, ◌-◌, ◌≤◌, ◌<◌, ◌↔◌, length, cond, is_some, true, false, [], ◌∷◌, ◌++◌};
ghost use Rattle.std.specs.Prelude.{IfSome, IfOk, IfErr, IfNone, IsNone};
ghost use Rattle.std.specs.Option.{ForSome};
ghost use mathlib.Core.List.{IsPrefix};
ghost use Rattle.rtrb.specs.Ring.{sent, received, known_items, known_free, producer_capacity, Finishes};
ghost use Rattle.bump_ring.specs.Ends.{SenderView as TheSenderView, ReceiverView as TheReceiverView};
ghost use Rattle.bump_ring.specs.Ends.{ClosedView as TheClosedView, ring_of};

use crate::numbered::Numbered;
use bump_readers::{Name, Rider};
use rtrb::{Consumer, Finished, Producer, PushError};
use std::alloc::Global;
use std::marker::Model;
use std::snapshot::Snapshot;

/// The end of a worker's ring that takes bumps in: the worker has it.
#[derive(Drop)]
pub struct Sender<N: Name> {
    pub(crate) producer: Producer<Rider<N>, Global, Numbered<N>>,
    pub(crate) accepted: u64,
    // What the ring had accepted when its two ends met last, and how many more it had room for then: before they met,
    // none and all of its room.
    pub(crate) met_accepted: u64,
    pub(crate) met_free: usize,
}

impl<N: Name> Model for Sender<N> {
    ghost Value = { TheSenderView };

    ghost view = { λ s. record {
      ring = ring_of s.producer.end;
      capacity = producer_capacity s.producer;
      sent = sent s.producer;
      shown = s.met_accepted + s.met_free - producer_capacity s.producer;
    } };

    // The room that was seen when the ends met stays until it is taken, so the ring is full only behind so many.
    ghost invariant = { λ s. (s.accepted ≡ length (sent s.producer))
        × (producer_capacity s.producer ≤ s.met_accepted + s.met_free)
        × (s.met_accepted + s.met_free ≤ known_free s.producer + length (sent s.producer)) };
}

/// The end of a worker's ring that gives bumps out: the worker's lane has it.
#[derive(Drop)]
pub struct Receiver<N: Name> {
    pub(crate) consumer: Consumer<Rider<N>, Global, Numbered<N>>,
    // Whether a closed sender showed it the ring's end: no bump comes behind those that it has seen.
    pub(crate) end_seen: bool,
}

impl<N: Name> Model for Receiver<N> {
    ghost Value = { TheReceiverView };

    ghost view = { λ r. record {
      ring = ring_of r.consumer.end;
      received = received r.consumer;
      known = cond r.end_seen (known_items r.consumer) [];
    } };
}

/// A sender that takes no more bumps in.
#[derive(Drop)]
pub struct ClosedSender<N: Name> {
    finished: Option<Finished<Rider<N>, Global, Numbered<N>>>,
    accepted: u64,
    // The sending end as it was closed. It is there for proofs alone.
    last: Snapshot<Producer<Rider<N>, Global, Numbered<N>>>,
}

impl<N: Name> Model for ClosedSender<N> {
    ghost Value = { TheClosedView };

    ghost view = { λ c. record {
      ring = ring_of c.last.value.end;
      capacity = producer_capacity c.last.value;
      sent = sent c.last.value;
      shows_end = is_some c.finished;
    } };

    ghost invariant = { λ c. (c.accepted ≡ length (sent c.last.value))
        × ForSome c.finished (λ f. Finishes c.last.value f) };
}

impl<N: Name> Sender<N> {
    /// How many bumps the ring accepted.
    pub fn accepted(&self) -> u64
        ensures { result ≡ length self.now.sent }
    {
        self.accepted
    }

    /// Puts a bump behind those in the ring, as memcached's `lru_bump_async` into a worker's bump buffer, and answers
    /// its number. The bump's number is how many the ring accepted before.
    ///
    /// Where the ring has no room the bump comes back, and nothing is changed. That is so only where the ring accepted
    /// at least as many bumps as its capacity, not counting those that had been taken when its ends met last; before
    /// they met, none. It waits for nobody.
    pub fn offer(&mut self, rider: Rider<N>) -> Result<u64, Rider<N>>
        requires next { rider.number ≡ length self.old.sent }
        ensures number { IfOk result (λ number. number ≡ length self.old.sent) }
        ensures sent { IfOk result (λ number. self.new ≡ record self.old { sent = self.old.sent ++ rider ∷ [] }) }
        ensures back { IfErr result (λ back. back ≡ rider) }
        ensures unchanged { IfErr result (λ back. self.new ≡ self.old) }
        ensures full { IfErr result (λ back. self.old.shown + self.old.capacity ≤ length self.old.sent) }
    {
        rider.promise();
        let number = self.accepted;
        match self.producer.push(rider) {
            Ok(()) => {
                self.accepted = number + 1;
                Ok(number)
            }
            Err(PushError::Full(back)) => Err(back),
        }
    }

    /// Shows the two ends of a ring each other, by a load of each. It answers nothing, and changes nothing but what is
    /// known to be left, and to be taken: from then on it is known that the bumps that were taken are the first of
    /// those that were accepted, that those which wait in the ring are at most as many as its capacity is, and that
    /// there is room for all others.
    pub fn meet(&mut self, receiver: &mut Receiver<N>)
        requires ring { receiver.old.ring ≡ self.old.ring }
        ensures sender { self.new ≡ record self.old { shown = length receiver.old.received } }
        ensures receiver { receiver.new ≡ record receiver.old { known = receiver.new.known } }
        ensures first { IsPrefix receiver.old.received self.old.sent }
        ensures few { length self.old.sent ≤ length receiver.old.received + self.old.capacity }
    {
        receiver.consumer.slots_beside(&mut self.producer);
        self.met_free = self.producer.slots_beside(&mut receiver.consumer);
        self.met_accepted = self.accepted;
    }

    /// Closes the ring: it accepts no more bumps from then on. Those that it accepted are still to be taken. Whether
    /// it can show the receiver the ring's end is settled here: where the receiver is gone it can't.
    pub fn close(self) -> ClosedSender<N>
        ensures { result ≡ record {
          ring = self.ring;
          capacity = self.capacity;
          sent = self.sent;
          shows_end = result.shows_end;
        } }
    {
        let Sender {
            producer,
            accepted,
            ..
        } = self;
        let last = Snapshot::of(&producer);
        let finished = producer.finish();
        ClosedSender {
            finished,
            accepted,
            last,
        }
    }
}

impl<N: Name> ClosedSender<N> {
    /// How many bumps the ring accepted.
    pub fn accepted(&self) -> u64
        ensures { result ≡ length self.now.sent }
    {
        self.accepted
    }
}

impl<N: Name> Receiver<N> {
    /// Takes the next bump out of the ring: the first that wasn't taken of those that were accepted. Where some are
    /// known it is the first of them, and the others stay known. Where it sees none there it answers None, and nothing
    /// is changed; that is so only where none is known. It waits for nobody.
    #[inline(always)]
    pub fn take(&mut self) -> Option<Rider<N>>
        ensures ring { self.new.ring ≡ self.old.ring }
        ensures number { IfSome result (λ rider. rider.number ≡ length self.old.received) }
        ensures received { IfSome result (λ rider. self.new.received ≡ self.old.received ++ rider ∷ []) }
        ensures known { IfSome result (λ rider. 0 < length self.old.known → self.old.known ≡ rider ∷ self.new.known) }
        ensures unknown { IfSome result (λ rider. self.old.known ≡ [] → self.new.known ≡ []) }
        ensures none { IfNone result (self.old.known ≡ []) }
        ensures unchanged { IfNone result (self.new ≡ self.old) }
    {
        if !self.end_seen {
            return self.consumer.pop().ok();
        }
        if self.consumer.cached_slots() == 0 {
            return None;
        }
        Some(self.consumer.pop_known())
    }

    /// How many bumps are known to be left in the ring: so many next takes succeed. Before `rest` none is known.
    pub fn known(&self) -> u64
        ensures { result ≡ length self.now.known }
    {
        if self.end_seen {
            self.consumer.cached_slots() as u64
        } else {
            0
        }
    }

    /// How many bumps are left in the ring, by the closed sender of this ring: all of them are known from then on,
    /// and no other will come. They are at most as many as the ring's capacity is. It may be asked again. It answers
    /// None exactly where the closed sender can't show the ring's end, and nothing is changed then.
    pub fn rest(&mut self, closed: &mut ClosedSender<N>) -> Option<u64>
        requires ring { closed.old.ring ≡ self.old.ring }
        ensures closed { closed.new ≡ closed.old }
        ensures kept { (self.new.ring ≡ self.old.ring) × (self.new.received ≡ self.old.received) }
        ensures number { IfSome result (λ left. left ≡ length self.new.known) }
        ensures rest { IfSome result (λ left. closed.old.sent ≡ self.new.received ++ self.new.known) }
        ensures few { IfSome result (λ left. left ≤ closed.old.capacity) }
        ensures none { IsNone result ↔ (closed.old.shows_end ≡ false) }
        ensures unchanged { IfNone result (self.new ≡ self.old) }
    {
        match &mut closed.finished {
            Some(finished) => {
                let left = self.consumer.slots_after(finished);
                self.end_seen = true;
                Some(left as u64)
            }
            None => None,
        }
    }
}

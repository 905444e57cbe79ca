//! The ends of a ring, as a caller calls them.
ghost use Rattle.std.specs.Prelude.{◌≡◌, length, ◌<◌, ◌≤◌, ◌+◌, ◌↔◌, false, [], ◌∷◌, ◌++◌, IfOk, IfErr, IfSome, IfNone, IsNone};

use bump_readers::Rider;
use bump_ring::{ClosedSender, Receiver, Sender};
use bump_store::Name;
use std::alloc::{AllocError, Global};

/// The two ends of a new ring.
pub fn ring<N: Name>(alloc: Global, capacity: u32) -> Result<(Sender<N>, Receiver<N>), AllocError>
    ensures ring { IfOk result (λ r. r.1.ring ≡ r.0.ring) }
    ensures empty { IfOk result (λ r. (r.0.sent ≡ []) × (r.0.shown ≡ 0) × (r.1.received ≡ []) × (r.1.known ≡ [])) }
    ensures capacity { IfOk result (λ r. r.0.capacity ≡ capacity) }
{
    bump_ring::ring(alloc, capacity)
}

/// Puts a bump into the ring.
pub fn offer<N: Name>(sender: &mut Sender<N>, rider: Rider<N>) -> Result<u64, Rider<N>>
    requires next { rider.number ≡ length sender.old.sent }
    ensures number { IfOk result (λ number. number ≡ length sender.old.sent) }
    ensures sent { IfOk result (λ number. sender.new ≡ record sender.old { sent = sender.old.sent ++ rider ∷ [] }) }
    ensures back { IfErr result (λ back. back ≡ rider) }
    ensures unchanged { IfErr result (λ back. sender.new ≡ sender.old) }
    ensures full { IfErr result (λ back. sender.old.shown + sender.old.capacity ≤ length sender.old.sent) }
{
    sender.offer(rider)
}

/// Takes the next bump out of the ring.
pub fn take<N: Name>(receiver: &mut Receiver<N>) -> Option<Rider<N>>
    ensures ring { receiver.new.ring ≡ receiver.old.ring }
    ensures number { IfSome result (λ rider. rider.number ≡ length receiver.old.received) }
    ensures received { IfSome result (λ rider. receiver.new.received ≡ receiver.old.received ++ rider ∷ []) }
    ensures known { IfSome result (λ rider. 0 < length receiver.old.known →
        receiver.old.known ≡ rider ∷ receiver.new.known) }
    ensures unknown { IfSome result (λ rider. receiver.old.known ≡ [] → receiver.new.known ≡ []) }
    ensures none { IfNone result (receiver.old.known ≡ []) }
    ensures unchanged { IfNone result (receiver.new ≡ receiver.old) }
{
    receiver.take()
}

/// How many bumps are known to be left.
pub fn known<N: Name>(receiver: &Receiver<N>) -> u64
    ensures { result ≡ length receiver.now.known }
{
    receiver.known()
}

/// How many bumps are left behind the close.
pub fn rest<N: Name>(receiver: &mut Receiver<N>, closed: &mut ClosedSender<N>) -> Option<u64>
    requires ring { closed.old.ring ≡ receiver.old.ring }
    ensures closed { closed.new ≡ closed.old }
    ensures kept { (receiver.new.ring ≡ receiver.old.ring) × (receiver.new.received ≡ receiver.old.received) }
    ensures number { IfSome result (λ left. left ≡ length receiver.new.known) }
    ensures rest { IfSome result (λ left. closed.old.sent ≡ receiver.new.received ++ receiver.new.known) }
    ensures few { IfSome result (λ left. left ≤ closed.old.capacity) }
    ensures none { IsNone result ↔ (closed.old.shows_end ≡ false) }
    ensures unchanged { IfNone result (receiver.new ≡ receiver.old) }
{
    receiver.rest(closed)
}

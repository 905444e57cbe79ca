//! A ring that is made.
ghost use Rattle.std.specs.Prelude.{◌≡◌, [], IfOk};

use crate::ends::{Receiver, Sender};
use crate::numbered::Numbered;
use bump_readers::Name;
use rtrb::RingBuffer;
use std::alloc::{AllocError, Global};

/// A new ring, empty, with room for `capacity` bumps: its two ends. It is refused only for want of memory.
pub fn ring<N: Name>(alloc: Global, capacity: u32) -> Result<(Sender<N>, Receiver<N>), AllocError>
    ensures ring { IfOk result (λ r. r.1.ring ≡ r.0.ring) }
    ensures empty { IfOk result (λ r. (r.0.sent ≡ []) × (r.0.shown ≡ 0) × (r.1.received ≡ []) × (r.1.known ≡ [])) }
    ensures capacity { IfOk result (λ r. r.0.capacity ≡ capacity) }
{
    let room = capacity as usize;
    let (producer, consumer) = RingBuffer::with_protocol::<Global, Numbered<N>>(alloc, room)?;
    let sender = Sender {
        producer,
        accepted: 0,
        met_accepted: 0,
        met_free: room,
    };
    let receiver = Receiver {
        consumer,
        end_seen: false,
    };
    Ok((sender, receiver))
}

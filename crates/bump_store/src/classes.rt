//! Which class of a store has a chunk.
ghost use Rattle.std.specs.Prelude.{◌≡◌, ◌≤◌, ◌<◌, ◌↔◌, ◌+◌, ◌-◌, length, slice_index, IfOk, IfSome, IfNone, IsErr};
ghost use Rattle.bump_rules.specs.Configs.{chunks_of, most_classes};
ghost use Rattle.bump_store.specs.Stores.{ClassHasChunk};
ghost use Rattle.bump_unlocked.specs.UnlockedStore.{IsBetweenStarts};

use crate::stores::Store;
use bump_heads::Name;
use bump_steps::RowLaw;
use thiserror::Error;

/// Why `class_of` tells no class: the store has no such chunk.
#[derive(Error, Debug, PartialEq, Eq, Clone, Copy)]
#[error("the store has no such chunk")]
pub struct NoSuchChunk;

// The place of the last start that isn't behind the chunk, if another one follows. Each start but the first is
// compared once.
fn place_of(starts: &[u32], chunk: u32) -> Option<u32>
    requires some { 1 < length starts.now }
    requires few { length starts.now ≤ most_classes + 1 }
    requires from_zero { slice_index starts.now 0 ≡ 0 }
    ensures some { IfSome result (λ place. IsBetweenStarts chunk starts.now place) }
    ensures none { IfNone result (slice_index starts.now (length starts.now - 1) ≤ chunk) }
{
    let last = starts.len() - 1;
    let mut place = 0;
    while starts[place + 1] <= chunk {
        place += 1;
        if place == last {
            return None;
        }
    }
    Some(place as u32)
}

impl<N: Name, L: RowLaw> Store<N, L> {
    /// The number of the class that has the chunk, by one comparison for each class at most. `chunk` is any
    /// number. It is refused as NoSuchChunk exactly where there is no such chunk.
    pub fn class_of(&self, chunk: u32) -> Result<u32, NoSuchChunk>
        ensures in_range { IfOk result (λ class. class < length self.now.classes) }
        ensures class { IfOk result (λ class. ClassHasChunk chunk class self.now.classes) }
        ensures none { IsErr result ↔ (chunks_of self.now.classes ≤ chunk) }
    {
        place_of(&self.starts, chunk).ok_or(NoSuchChunk)
    }

    // The place of the chunk's class, or the first one where there is no such chunk.
    pub(crate) fn class_or_first(&self, chunk: u32) -> usize
        ensures { result < length self.now.classes }
    {
        match self.class_of(chunk) {
            Ok(class) => class as usize,
            Err(NoSuchChunk) => 0,
        }
    }
}

//! An item that a reader holds, as a caller calls it.
ghost use Rattle.bump_cache.specs.Held.{IsSame, hold_of};
ghost use Rattle.bump_steps.specs.References.{word_of_row};
ghost use Rattle.cache_readers.specs.Looks.{HasWords};
ghost use Rattle.std.specs.Prelude.{◌≡◌, ◌+◌, ◌<◌, ◌≤◌, length};

use bump_cache::{HeldItem, Name, Packed};

/// The value of an item that is held.
pub fn value<N: Name, K: Packed, V: Packed>(held: &mut HeldItem<'_, N, K, V>, made_up: V) -> V
    ensures is { (v : V) → V.fits v → HasWords (V.as_words v) K.width (hold_of held.old).row → result ≡ v }
    ensures words { HasWords (V.as_words result) K.width (hold_of held.old).row }
    ensures fits { V.fits result }
    ensures same { IsSame held.old held.new }
{
    held.value()
}

/// A word of it.
pub fn word<N: Name, K: Packed, V: Packed>(held: &mut HeldItem<'_, N, K, V>, index: u32) -> u64
    requires index { index < V.width }
    ensures is { result ≡ word_of_row (hold_of held.old).row (K.width + index) }
    ensures same { IsSame held.old held.new }
{
    held.word(index)
}

/// The first words of it.
pub fn read<N: Name, K: Packed, V: Packed>(held: &mut HeldItem<'_, N, K, V>, words: &mut [u64])
    requires few { length words.old ≤ V.width }
    ensures read { HasWords words.new K.width (hold_of held.old).row }
    ensures length { length words.new ≡ length words.old }
    ensures same { IsSame held.old held.new }
{
    held.read(words)
}

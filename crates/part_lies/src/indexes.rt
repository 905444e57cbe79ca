//! An index, as its writer calls it.
ghost use Rattle.cache_index.specs.Views.{led_at, with_generation};
ghost use Rattle.std.specs.Prelude.{◌≡◌, ◌<◌, ◌≤◌, ◌⊎◌, IsSome, None, Some, length, slice_set};

use bump_rules::ItemId;
use cache_part::Index;

/// Leads from a hash to a life.
pub fn put(index: &mut Index, hash: u32, life: ItemId)
    requires first { index.old.first ≤ life.chunk }
    requires chunk { life.chunk < length index.old.table }
    requires anew { led_at index.old.table life.chunk ≡ None }
    ensures first { index.new.first ≡ index.old.first }
    ensures table { index.new.table ≡ slice_set index.old.table life.chunk
        (Some (record { hash = hash; generation = life.generation })) }
    ensures nests { index.new.nests ≡ index.old.nests }
{
    index.put(hash, life);
}

/// Leads to a new life in place of that of a chunk.
pub fn lead(index: &mut Index, old: u32, life: ItemId)
    requires old { IsSome (led_at index.old.table old) }
    requires first { index.old.first ≤ life.chunk }
    requires chunk { life.chunk < length index.old.table }
    requires anew { (led_at index.old.table life.chunk ≡ None) ⊎ (life.chunk ≡ old) }
    ensures first { index.new.first ≡ index.old.first }
    ensures table { index.new.table ≡ slice_set (slice_set index.old.table old None) life.chunk
        (with_generation life.generation (led_at index.old.table old)) }
    ensures nests { index.new.nests ≡ index.old.nests }
{
    index.lead(old, life);
}

/// Leads no more to a chunk.
pub fn clear(index: &mut Index, chunk: u32)
    requires { IsSome (led_at index.old.table chunk) }
    ensures first { index.new.first ≡ index.old.first }
    ensures table { index.new.table ≡ slice_set index.old.table chunk None }
    ensures nests { index.new.nests ≡ index.old.nests }
{
    index.clear(chunk);
}

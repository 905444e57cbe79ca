//! The item whose turn it is is evicted, and told.
ghost use Rattle.std.specs.Prelude.{◌≡◌, ◌+◌, suc, length};
ghost use Rattle.cache_part.specs.Evicting.{EvictsNext};
ghost use Rattle.cache_shelf.specs.Entries.{AllKept, Evicted, key_of_evicted};
ghost use Rattle.cache_shelf.specs.Shelves.{IsLawful};

use bump_class::RawLane;
use bump_heads::Name;
use bump_steps::RowLaw;
use cache_part::Part;

// Evicts the item whose turn it is, and reads its row. The table's law holds of each item, before and behind that.
pub(crate) fn evict_entry<N: Name, L: RowLaw>(
    part: &mut Part<N, L>,
    lanes: &mut [RawLane<N, L>],
    most: u32,
    told: &mut [u64],
    now: u64,
) -> Option<u32>
    requires lawful { IsLawful L.law part.old }
    requires told { length told.old ≡ suc (part.old.key_words + part.old.value_words) }
    ensures lawful { IsLawful L.law part.new }
    ensures evicts { EvictsNext most now result part.old lanes.old part.new lanes.new }
    ensures told { Evicted L.law result told.old told.new part.old part.new }
    ensures kept { AllKept (key_of_evicted result part.old) part.old part.new }
    ensures length { length told.new ≡ length told.old }
    ensures rest { part.new ≡ record part.old {
      book = part.new.book;
      flow = part.new.flow;
      evictions = part.new.evictions;
      index = part.new.index;
    } }
{
    part.promise();
    part.evict(lanes, most, told, now)
}

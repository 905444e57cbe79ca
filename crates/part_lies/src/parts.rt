//! A part of a cache, as a caller calls it.
ghost use Rattle.bump_class.specs.Links.{MayHave};
ghost use Rattle.bump_rules.specs.Lists.{all_without};
ghost use Rattle.bump_steps.specs.Views.{last_word};
ghost use Rattle.cache_lists.specs.Items.{EndsAt, IsSameClass};
ghost use Rattle.cache_lists.specs.Linked.{linked_at};
ghost use Rattle.cache_lists.specs.Segments.{SameSegments};
ghost use Rattle.cache_part.specs.Evicting.{EvictsNext};
ghost use Rattle.cache_part.specs.Expiring.{KeepsUnexpired, LooksAround, LooksInTurn, looks_of};
ghost use Rattle.cache_part.specs.Parts.{IsItem, OnlyReads, counted};
ghost use Rattle.cache_part.specs.Putting.{PutsItem, RefusesItem, TellsOld, TellsRow};
ghost use Rattle.cache_part.specs.Tending.{Tends};
ghost use Rattle.std.specs.Prelude.{◌≡◌, ℕ, ◌+◌, IfSome, IfOk, IfErr, None, true, suc, length};

use cache_part::{Bounds, Name, NoChunk, Part, PutItem, RawLane, RowLaw};

/// The chunk of the item of a key, when it expires, and its value.
pub fn look<N: Name, L: RowLaw>(part: &mut Part<N, L>, key: &[u64], told: &mut [u64]) -> Option<u32>
    requires key { length key.now ≡ part.old.key_words }
    requires told { length told.old ≡ suc part.old.value_words }
    ensures item { IsItem key.now result part.old }
    ensures told { TellsOld true result told.old told.new part.old }
    ensures length { length told.new ≡ length told.old }
    ensures reads { OnlyReads part.old part.new }
{
    part.look(key, told)
}

/// Ends each item.
pub fn clear<N: Name, L: RowLaw>(part: &mut Part<N, L>)
    ensures empty { (chunk : ℕ) → linked_at part.new.book.sheet chunk ≡ None }
    ensures words { (i c : ℕ) → last_word i part.new.book.sheet c ≡ last_word i part.old.book.sheet c }
    ensures class { IsSameClass part.old.book part.new.book }
    ensures rest { part.new ≡ record part.old {
      book = part.new.book;
      flow = part.new.flow;
      index = part.new.index;
    } }
{
    part.clear();
}

/// Puts an item under its key.
pub fn put<N: Name, L: RowLaw>(
    part: &mut Part<N, L>,
    row: &[u64],
    expires: u64,
    tells: bool,
    old: &mut [u64],
    evicted: &mut [u64],
    lanes: &mut [RawLane<N, L>],
    most: u32,
    now: u64,
) -> Result<PutItem, NoChunk>
    requires words { length row.now ≡ part.old.key_words + part.old.value_words }
    requires old { length old.old ≡ suc part.old.value_words }
    requires evicted { length evicted.old ≡ suc (part.old.key_words + part.old.value_words) }
    requires law { MayHave L.law expires row.now }
    ensures puts { IfOk result (λ did. PutsItem tells did row.now expires now most
        (record { old = old.old; evicted = evicted.old }) (record { old = old.new; evicted = evicted.new }) part.old
        lanes.old part.new lanes.new) }
    ensures refuses { IfErr result (λ why. RefusesItem tells why row.now now most
        (record { old = old.old; evicted = evicted.old }) (record { old = old.new; evicted = evicted.new }) part.old
        lanes.old part.new lanes.new) }
{
    part.put(row, expires, tells, old, evicted, lanes, most, now)
}

/// Ends items that have expired.
pub fn end_expired<N: Name, L: RowLaw>(part: &mut Part<N, L>, most: u32, now: u64) -> u32
    ensures looks { LooksAround (looks_of most part.old.book) part.old.cursor now result (counted part.old)
        (counted part.new) }
    ensures looked { LooksInTurn most now part.old part.new }
    ensures unexpired { KeepsUnexpired now part.old.book part.new.book }
{
    part.end_expired(most, now)
}

/// Tends the part.
pub fn tend<N: Name, L: RowLaw>(
    part: &mut Part<N, L>,
    lanes: &mut [RawLane<N, L>],
    most: u32,
    now: u64,
    bounds: Bounds,
    looks: u32,
)
    ensures tends { Tends most now bounds looks part.old.cursor (counted part.old) lanes.old (counted part.new)
        lanes.new }
    ensures looked { LooksInTurn looks now part.old part.new }
    ensures unexpired { KeepsUnexpired now part.old.book part.new.book }
{
    part.tend(lanes, most, now, bounds, looks);
}

/// Evicts the item whose turn it is.
pub fn evict<N: Name, L: RowLaw>(
    part: &mut Part<N, L>,
    lanes: &mut [RawLane<N, L>],
    most: u32,
    told: &mut [u64],
    now: u64,
) -> Option<u32>
    requires told { length told.old ≡ suc (part.old.key_words + part.old.value_words) }
    ensures evicts { EvictsNext most now result part.old lanes.old part.new lanes.new }
    ensures ends { IfSome result (λ chunk. EndsAt chunk part.old.book part.new.book) }
    ensures told { TellsRow true result told.old told.new part.old }
    ensures length { length told.new ≡ length told.old }
{
    part.evict(lanes, most, told, now)
}

//! What a put came to, and what comes before its item is linked.
ghost use Rattle.std.specs.Prelude.{◌≡◌, suc, ◌+◌, ◌≤◌, IfSome, IsSome, None, length, take};
ghost use Rattle.cache_lists.specs.Items.{IsSameClass};
ghost use Rattle.cache_lists.specs.Linked.{linked_at};
ghost use Rattle.cache_part.specs.Keys.{IsItemOf};
ghost use Rattle.cache_part.specs.Looks.{LooksOnly};
ghost use Rattle.cache_part.specs.Parts.{IsPart};
ghost use Rattle.cache_part.specs.Putting.{MakesRoom, OthersStay, TellsWords};
ghost use Rattle.keyed_hash.specs.Hashes.{hash_of};

use crate::finding::{self, Found};
use crate::room;
use bump_class::RawLane;
use bump_heads::Name;
use bump_steps::RowLaw;
use cache_index::Index;
use cache_lists::CountedBook;
use keyed_hash::Seed;

/// What a put came to.
#[derive(Clone, Copy, Debug, PartialEq, Eq)]
pub struct PutItem {
    /// The chunk of the new item.
    pub chunk: u32,

    /// The chunk of the item that the key had before, if it had one: that item ended.
    pub old: Option<u32>,

    /// The chunk of the item that was evicted, if one was: also of one that had expired.
    pub evicted: Option<u32>,
}

/// A put was refused, since no chunk was free, though bumps that waited had been applied, and the chunks of ended items
/// that nobody held any more had come free. A chunk whose generations are used up comes free no more.
#[derive(Clone, Copy, Debug, PartialEq, Eq)]
pub struct NoChunk {
    /// The chunk of the item that was evicted, if one was: also of one that had expired.
    pub evicted: Option<u32>,
}

// How the items of a part are, and how many there may be.
#[derive(Clone, Copy)]
pub(crate) struct Settings {
    // the seed of the keys' hashes
    pub(crate) seed: Seed,

    // how many words a key has
    pub(crate) key_words: u32,

    // and a value
    pub(crate) value_words: u32,

    // where so many items are linked, one is evicted before another key gets its first
    pub(crate) items: u32,

    // what expires within so many ticks is linked in TEMP
    pub(crate) temporary: Option<u64>,
}

// The item of the key with which a row begins.
fn find_key_of<N: Name, L: RowLaw>(
    lists: &mut CountedBook<N, L>,
    index: &mut Index,
    settings: Settings,
    row: &[u64],
) -> Found
    requires part { IsPart settings.seed settings.key_words lists.old.book.sheet index.old.table }
    requires words { settings.key_words ≤ length row.now }
    requires few { settings.key_words ≤ N.table.slots }
    ensures hash { result.hash ≡ hash_of settings.seed (take settings.key_words row.now) }
    ensures item { IsItemOf settings.key_words (take settings.key_words row.now) result.chunk lists.old.book.sheet }
    ensures looks { LooksOnly lists.old.book lists.new.book }
    ensures rest { lists.new ≡ record lists.old { book = lists.new.book } }
    ensures index { index.new ≡ index.old }
{
    let key = &row[..settings.key_words as usize];
    finding::find(lists, index, settings.seed, settings.key_words, key)
}

// What was found of a key, and what was evicted, when room is made for an item.
#[derive(Clone, Copy)]
pub(crate) struct Room {
    // the key's item
    pub(crate) found: Found,

    // the chunk of the item that was evicted, if one was
    pub(crate) evicted: Option<u32>,
}

// Makes room for an item with this row, and tells the row of the item that was evicted, if that is asked for. Where
// COLD's last item is held before an evict, and where no chunk comes free at once, bumps that wait are applied, at most
// `most` of each lane.
pub(crate) fn make_room<N: Name, L: RowLaw>(
    lists: &mut CountedBook<N, L>,
    index: &mut Index,
    settings: Settings,
    row: &[u64],
    tells: bool,
    told: &mut [u64],
    lanes: &mut [RawLane<N, L>],
    most: u32,
    now: u64,
) -> Room
    requires part { IsPart settings.seed settings.key_words lists.old.book.sheet index.old.table }
    requires words { length row.now ≡ settings.key_words + settings.value_words }
    requires told { length told.old ≡ suc (settings.key_words + settings.value_words) }
    requires few { length row.now ≤ N.table.slots }
    ensures part { IsPart settings.seed settings.key_words lists.new.book.sheet index.new.table }
    ensures class { IsSameClass lists.old.book lists.new.book }
    ensures hash { result.found.hash ≡ hash_of settings.seed (take settings.key_words row.now) }
    ensures was { IsItemOf settings.key_words (take settings.key_words row.now) result.found.chunk lists.old.book.sheet }
    ensures item { IsItemOf settings.key_words (take settings.key_words row.now) result.found.chunk
        lists.new.book.sheet }
    ensures room { MakesRoom settings.items now result.found.chunk result.evicted most lists.old lanes.old lists.new
        lanes.new }
    ensures stay { OthersStay None None result.evicted lists.old.book lists.new.book }
    ensures told { TellsWords tells (settings.key_words + settings.value_words) result.evicted told.old told.new
        lists.old.book.sheet }
    ensures another { IfSome result.evicted (λ c. IsSome (linked_at lists.old.book.sheet c)
        × (result.found.chunk ≡ None)) }
    ensures gone { IfSome result.evicted (λ c. linked_at lists.new.book.sheet c ≡ None) }
    ensures first { index.new.first ≡ index.old.first }
{
    let found = find_key_of(lists, index, settings, row);
    let evicted = room::evict_where_full(
        lists,
        index,
        settings,
        found.chunk,
        tells,
        told,
        lanes,
        most,
        now,
    );
    room::free_where_none(lists, lanes, most, now);
    Room { found, evicted }
}

//! A part: the lists of items, the index of their keys, and what is done with both.
ghost use Rattle.std.specs.Prelude.{◌≡◌, ℕ, ◌+◌, ◌-◌, ◌<◌, ◌≤◌, IfSome, IfNone, IfOk, IfErr, None, true, false, [], suc, length, replicate};
ghost use Rattle.bump_class.specs.Books.{IsBook};
ghost use Rattle.bump_class.specs.Links.{MayHave};
ghost use Rattle.bump_rules.specs.Lists.{all_without};
ghost use Rattle.bump_steps.specs.Views.{owns, last_label, last_word};
ghost use Rattle.cache_lists.specs.Counts.{IsFlow, SegmentsAddUp, no_flow, no_evictions};
ghost use Rattle.cache_lists.specs.Items.{EndsAt, KeepsItems, IsSameClass};
ghost use Rattle.cache_lists.specs.Linked.{linked_at};
ghost use Rattle.cache_lists.specs.Segments.{SameSegments};
ghost use Rattle.cache_part.specs.Evicting.{EvictsNext};
ghost use Rattle.cache_part.specs.Expiring.{KeepsUnexpired, LooksAround, LooksInTurn, looks_of};
ghost use Rattle.cache_part.specs.Keys.{words_from};
ghost use Rattle.cache_part.specs.Looks.{LooksOnly};
ghost use Rattle.cache_part.specs.Parts.{PartView as ThePartView, IsItem, IsPart, IsUnder, IsUnknown, OnlyReads, counted};
ghost use Rattle.cache_part.specs.Putting.{PutsItem, RefusesItem, Removes, TellsOld, TellsRow, row_at};
ghost use Rattle.cache_part.specs.Taking.{TakesNext};
ghost use Rattle.cache_part.specs.Tending.{BalancesByAge, DrainsEach, Tends};
ghost use Rattle.cache_part.specs.Visiting.{has_unexpired};

use crate::putting::{NoChunk, PutItem, Settings, make_room};
use crate::{
    clearing, ending, evicting, expiring, finding, reading, replacing, taking, tending, visiting,
};
use bump_class::{Book, RawLane};
use bump_heads::Name;
use bump_steps::{AnyRow, RowLaw};
use cache_index::Index;
use cache_lists::{Bounds, CountedBook};
use keyed_hash::Seed;
use std::marker::Model;
use std::ops::Range;

/// The items of a class, and the index of their keys. Each item has a row: its label is the time at which it expires,
/// in the caller's ticks, and 0 where it never does; its further words are its key's and then its value's. The index
/// leads to the items that are linked, and to nothing else: also to those that have expired, until they end.
#[derive(Drop)]
pub struct Part<N: Name, L: RowLaw = AnyRow> {
    pub(crate) lists: CountedBook<N, L>,
    pub(crate) index: Index,
    pub(crate) settings: Settings,

    // at which of the class's chunks, numbered from 0 on, the next turn of looks for expired items begins
    cursor: u32,
}

impl<N: Name, L: RowLaw> Model for Part<N, L> {
    ghost Value = { ThePartView };

    ghost view = { λ p. record {
      book = p.lists.book;
      flow = p.lists.flow;
      evictions = p.lists.evictions;
      index = p.index.table;
      seed = p.settings.seed;
      key_words = p.settings.key_words;
      value_words = p.settings.value_words;
      items = p.settings.items;
      temporary = p.settings.temporary;
      cursor = p.cursor;
    } };

    ghost invariant = { λ p. IsPart p.settings.seed p.settings.key_words p.lists.book.sheet p.index.table
        × (p.settings.key_words + p.settings.value_words ≤ N.table.slots)
        × (p.cursor ≤ p.lists.book.sheet.count - 1) × (p.index.first ≡ p.lists.book.sheet.first) };
}

impl<N: Name, L: RowLaw> Part<N, L> {
    /// A part of a class in which no item was linked yet, and of an index of the same chunks that leads to none. A key
    /// has `key_words` words and a value `value_words`, together at most as many as a chunk has further words. Where
    /// `items` are linked, one is evicted before another key gets its first. What expires within `temporary` ticks from
    /// its put on is linked in TEMP; nothing is where that is None.
    pub fn new(
        book: Book<N, L>,
        index: Index,
        seed: Seed,
        key_words: u32,
        value_words: u32,
        items: u32,
        temporary: Option<u64>,
    ) -> Part<N, L>
        requires first { index.first ≡ book.sheet.first }
        requires history { book.sheet.history ≡ [] }
        requires index { index.table ≡ replicate (book.sheet.first + book.sheet.count) None }
        requires words { key_words + value_words ≤ N.table.slots }
        ensures { result ≡ record {
          book = book;
          flow = no_flow;
          evictions = no_evictions;
          index = index.table;
          seed = seed;
          key_words = key_words;
          value_words = value_words;
          items = items;
          temporary = temporary;
          cursor = 0;
        } }
    {
        Part {
            lists: CountedBook::new(book),
            index,
            settings: Settings {
                seed,
                key_words,
                value_words,
                items,
                temporary,
            },
            cursor: 0,
        }
    }

    /// What it keeps: the index leads to what is linked by the hash of its key, each key is that of one item, its lists
    /// are those of a Book that counts how its items go, and the next turn of looks begins at one of its chunks, if it
    /// has any.
    pub fn promise(&self)
        ensures part { IsPart self.now.seed self.now.key_words self.now.book.sheet self.now.index }
        ensures words { self.now.key_words + self.now.value_words ≤ N.table.slots }
        ensures book { IsBook self.now.book }
        ensures flow { IsFlow self.now.flow self.now.book.sheet }
        ensures sums { SegmentsAddUp (length self.now.book.lists.hot) (length self.now.book.lists.warm)
            (length self.now.book.lists.cold) (length self.now.book.lists.temp) self.now.book.sheet }
        ensures cursor { self.now.cursor ≤ self.now.book.sheet.count - 1 }
    {
        self.lists.promise();
    }

    /// How many words a key has.
    pub fn key_words(&self) -> u32
        ensures { result ≡ self.now.key_words }
    {
        self.settings.key_words
    }

    /// A further word of a chunk of the class, as it was stored last: the key's from 0 on, and behind them the value's.
    /// `index` is below the number of further words. A chunk's words stay until an item is linked there.
    pub fn word(&mut self, chunk: u32, index: u32) -> u64
        requires own { owns chunk self.old.book.sheet ≡ true }
        requires index { index < N.table.slots }
        ensures stored { result ≡ last_word (suc index) self.old.book.sheet chunk }
        ensures looks { LooksOnly self.old.book self.new.book }
        ensures rest { self.new ≡ record self.old { book = self.new.book } }
    {
        self.lists.word(chunk, index)
    }

    /// The label of a chunk of the class, as it was stored last: when its item expires, in the caller's ticks, or 0
    /// where it never does. It stays until an item is linked there.
    pub fn expires(&mut self, chunk: u32) -> u64
        requires own { owns chunk self.old.book.sheet ≡ true }
        ensures stored { result ≡ last_label self.old.book.sheet chunk }
        ensures looks { LooksOnly self.old.book self.new.book }
        ensures rest { self.new ≡ record self.old { book = self.new.book } }
    {
        self.lists.label(chunk)
    }

    /// Reads the further words of a chunk of the class from number `from` on, as many as `words` has, as they were
    /// stored last: the key's have the numbers from 0 on, and the value's come behind them. `from` and their number are
    /// together at most the number of further words that a chunk has. A chunk's words stay until an item is linked
    /// there.
    pub fn read(&mut self, chunk: u32, from: u32, words: &mut [u64])
        requires own { owns chunk self.old.book.sheet ≡ true }
        requires few { from + length words.old ≤ N.table.slots }
        ensures read { words.new ≡ words_from from (length words.old) self.old.book.sheet chunk }
        ensures looks { LooksOnly self.old.book self.new.book }
        ensures rest { self.new ≡ record self.old { book = self.new.book } }
    {
        reading::read(&mut self.lists, chunk, from, words);
    }

    /// The chunk of the item of this key; or None where no item has it. All words of the key are compared. Nothing
    /// changes, but what the class's seat notes of its loads.
    pub fn find(&mut self, key: &[u64]) -> Option<u32>
        requires { length key.now ≡ self.old.key_words }
        ensures found { IfSome result (λ chunk. IsUnder key.now chunk self.old) }
        ensures none { IfNone result (IsUnknown key.now self.old) }
        ensures looks { LooksOnly self.old.book self.new.book }
        ensures rest { self.new ≡ record self.old { book = self.new.book } }
    {
        let settings = self.settings;
        finding::find(
            &mut self.lists,
            &mut self.index,
            settings.seed,
            settings.key_words,
            key,
        )
        .chunk
    }

    /// Looks for the item of this key, and tells its chunk, and when it expires and its value in `told`, which has one
    /// word more than a value; or None exactly where no item has the key, and then the words of `told` stay. Nothing
    /// changes, but what the class's seat notes of its loads.
    pub fn look(&mut self, key: &[u64], told: &mut [u64]) -> Option<u32>
        requires key { length key.now ≡ self.old.key_words }
        requires told { length told.old ≡ suc self.old.value_words }
        ensures item { IsItem key.now result self.old }
        ensures told { TellsOld true result told.old told.new self.old }
        ensures length { length told.new ≡ length told.old }
        ensures reads { OnlyReads self.old self.new }
    {
        finding::look(&mut self.lists, &mut self.index, self.settings, key, told)
    }

    /// Ends the item of this key, and tells its chunk, and when it expires and its value in `old`, which has one word
    /// more than a value; or None exactly where no item has the key, and then the words of `old` stay, and nothing
    /// changes but what the class's seat notes of its loads. The index leads to it no more before it ends. The other
    /// items stay in their lists, in their order. Its words can still be read, by `word`, until an item is linked at
    /// its chunk.
    pub fn remove(&mut self, key: &[u64], old: &mut [u64]) -> Option<u32>
        requires key { length key.now ≡ self.old.key_words }
        requires old { length old.old ≡ suc self.old.value_words }
        ensures removes { Removes key.now result self.old self.new }
        ensures told { TellsOld true result old.old old.new self.old }
        ensures length { length old.new ≡ length old.old }
        ensures rest { self.new ≡ record self.old {
          book = self.new.book;
          flow = self.new.flow;
          index = self.new.index;
        } }
    {
        ending::remove(&mut self.lists, &mut self.index, self.settings, key, old)
    }

    /// Ends each item that is linked, whatever its marks. The index leads to none of them any more, and to each no more
    /// before it ends. Their words can still be read, by `read`, until an item is linked at their chunk. None counts as
    /// evicted. It looks at each chunk of the class once, also where few items are linked: its time is in proportion to
    /// the number of chunks.
    pub fn clear(&mut self)
        ensures empty { (chunk : ℕ) → linked_at self.new.book.sheet chunk ≡ None }
        ensures words { (i c : ℕ) → last_word i self.new.book.sheet c ≡ last_word i self.old.book.sheet c }
        ensures class { IsSameClass self.old.book self.new.book }
        ensures rest { self.new ≡ record self.old {
          book = self.new.book;
          flow = self.new.flow;
          index = self.new.index;
        } }
    {
        let settings = self.settings;
        clearing::clear(&mut self.lists, &mut self.index, settings);
    }

    /// Puts an item under its key: the row is the key's words and then the value's; it expires at `expires`, or never
    /// where that is 0; and `now` is its time. Times are in the caller's ticks. Where the key has no item yet and as
    /// many as may be are linked, the one whose turn it is ends first, as by `CountedBook::evict`; but before that,
    /// where COLD's last item is held, bumps that wait are applied, at most `most` of each lane. Where no chunk is
    /// free, chunks come free of ended items that nobody holds any more; and where none does, the bumps that wait in
    /// the lanes are applied, at most `most` of each, and it is tried once more. It is refused exactly where none is
    /// free then: each chunk that has no item was found held, or has had its last generation. The key keeps what it
    /// had. Else the new item is linked, in TEMP where it expires within as many ticks as `Part::new` was told, or has
    /// expired already, and else in HOT; the index leads to it, and behind that the key's old item ends, whether it had
    /// expired or not. The table's law holds of whatever row begins with the label `expires` and these words.
    ///
    /// Where `tells` is set, when the key's old item expires is told in `old`, and then its value: it has one word more
    /// than a value. Where the key has none, or the put is refused, its words stay.
    ///
    /// `evicted` has room for a label and a row. Where an item is evicted, also where the put is refused then, its
    /// label is written there, which says when it expires, and then the words of its key and of its value. They are
    /// read before chunks come free, since the new item may be linked in its chunk. Where none is evicted `evicted`
    /// stays. Where `tells` isn't set nothing is read, and the words of both stay.
    pub fn put(
        &mut self,
        row: &[u64],
        expires: u64,
        tells: bool,
        old: &mut [u64],
        evicted: &mut [u64],
        lanes: &mut [RawLane<N, L>],
        most: u32,
        now: u64,
    ) -> Result<PutItem, NoChunk>
        requires words { length row.now ≡ self.old.key_words + self.old.value_words }
        requires old { length old.old ≡ suc self.old.value_words }
        requires evicted { length evicted.old ≡ suc (self.old.key_words + self.old.value_words) }
        requires law { MayHave L.law expires row.now }
        ensures puts { IfOk result (λ did. PutsItem tells did row.now expires now most
            (record { old = old.old; evicted = evicted.old }) (record { old = old.new; evicted = evicted.new }) self.old
            lanes.old self.new lanes.new) }
        ensures refuses { IfErr result (λ why. RefusesItem tells why row.now now most
            (record { old = old.old; evicted = evicted.old }) (record { old = old.new; evicted = evicted.new }) self.old
            lanes.old self.new lanes.new) }
        ensures lengths { (length old.new ≡ length old.old) × (length evicted.new ≡ length evicted.old) }
        ensures rest { self.new ≡ record self.old {
          book = self.new.book;
          flow = self.new.flow;
          evictions = self.new.evictions;
          index = self.new.index;
        } }
    {
        let settings = self.settings;
        let room = make_room(
            &mut self.lists,
            &mut self.index,
            settings,
            row,
            tells,
            evicted,
            lanes,
            most,
            now,
        );
        let Some(id) = replacing::link(
            &mut self.lists,
            &mut self.index,
            settings,
            room.found,
            row,
            expires,
            tells,
            old,
            now,
        ) else {
            self.lists.promise();
            return Err(NoChunk {
                evicted: room.evicted,
            });
        };
        Ok(PutItem {
            chunk: id.chunk,
            old: room.found.chunk,
            evicted: room.evicted,
        })
    }

    /// Ends items that have expired at `now`, in the caller's ticks, and tells how many. It looks at the next `most`
    /// chunks of the class in turn, from where the last turn ended, around and around, and at each at most once: so all
    /// have their turn, whoever calls it how often. The index leads to such an item no more before it ends. Each counts
    /// as `crawler_reclaimed`, and none as evicted. What hasn't expired is linked still, and each chunk has its words.
    pub fn end_expired(&mut self, most: u32, now: u64) -> u32
        ensures looks { LooksAround (looks_of most self.old.book) self.old.cursor now result (counted self.old)
            (counted self.new) }
        ensures looked { LooksInTurn most now self.old self.new }
        ensures unexpired { KeepsUnexpired now self.old.book self.new.book }
        ensures rest { self.new ≡ record self.old {
          book = self.new.book;
          flow = self.new.flow;
          evictions = self.new.evictions;
          index = self.new.index;
          cursor = self.new.cursor;
        } }
    {
        let turn = expiring::end_expired(
            &mut self.lists,
            &mut self.index,
            self.settings,
            self.cursor,
            most,
            now,
        );
        self.cursor = turn.cursor;
        turn.ended
    }

    /// Tends the part: the bumps that wait in the lanes are applied, lane by lane, at most `most` of each, with `now`
    /// as their items' new time, in the caller's ticks; items that have expired at `now` end, as by `end_expired`,
    /// which looks at `looks` chunks; ended items are swept; and then HOT and WARM are balanced, as `balance` does, in
    /// `LOOKS` rounds at most. What hasn't expired is linked still, and each chunk has its words.
    pub fn tend(
        &mut self,
        lanes: &mut [RawLane<N, L>],
        most: u32,
        now: u64,
        bounds: Bounds,
        looks: u32,
    )
        ensures tends { Tends most now bounds looks self.old.cursor (counted self.old) lanes.old (counted self.new)
            lanes.new }
        ensures looked { LooksInTurn looks now self.old self.new }
        ensures unexpired { KeepsUnexpired now self.old.book self.new.book }
        ensures rest { self.new ≡ record self.old {
          book = self.new.book;
          flow = self.new.flow;
          evictions = self.new.evictions;
          index = self.new.index;
          cursor = self.new.cursor;
        } }
    {
        let cursor = tending::tend(
            &mut self.lists,
            &mut self.index,
            self.settings,
            lanes,
            most,
            now,
            bounds,
            looks,
            self.cursor,
        );
        self.cursor = cursor;
    }

    /// Applies the bumps that wait in the lanes, lane by lane, at most `most` of each, with `now` as their items' new
    /// time, in the caller's ticks: the first of what `tend` does. The same items are linked, and the index stays.
    pub fn drain(&mut self, lanes: &mut [RawLane<N, L>], most: u32, now: u64)
        ensures drains { DrainsEach most now self.old.book lanes.old self.new.book lanes.new }
        ensures items { KeepsItems self.old.book self.new.book }
        ensures rest { self.new ≡ record self.old { book = self.new.book; flow = self.new.flow } }
    {
        tending::drain(&mut self.lists, lanes, most, now);
    }

    /// Balances HOT and WARM, as memcached's maintainer does: first the age of COLD is looked at, which is how long
    /// before `now` its last item was used, in the caller's ticks, and 0 where COLD is empty; and then the last items
    /// of HOT and WARM, in turn, each by its bound, in rounds, until one moves nothing, at most `most`. An ACTIVE one
    /// loses that, and goes to the front of WARM; another goes to COLD where its list has more items than `bounds` say,
    /// or where it was used longer ago than so many percent of COLD's age. The same items are linked, and the index
    /// stays.
    pub fn balance(&mut self, most: u32, bounds: Bounds, now: u64)
        ensures balances { BalancesByAge most bounds now self.old.book self.new.book }
        ensures items { KeepsItems self.old.book self.new.book }
        ensures rest { self.new ≡ record self.old { book = self.new.book; flow = self.new.flow } }
    {
        tending::balance(&mut self.lists, most, bounds, now);
    }

    /// The chunks of the class: from its first one up to that behind its last one.
    pub fn chunks(&self) -> Range<u32>
        ensures start { result.start ≡ self.now.book.sheet.first }
        ensures end { result.end ≡ self.now.book.sheet.first + self.now.book.sheet.count }
    {
        self.index.range()
    }

    /// Reads the row of the item of a chunk of the class, where one is linked that hasn't expired at `now`, in the
    /// caller's ticks, and tells whether one is: its label, which says when it expires, and then the words of its key
    /// and of its value. Where none is `row` stays, which has room for a label and a row. The item isn't touched, and
    /// nothing changes but what the class's seat notes of its loads.
    pub fn read_unexpired(&mut self, chunk: u32, now: u64, row: &mut [u64]) -> bool
        requires own { owns chunk self.old.book.sheet ≡ true }
        requires row { length row.old ≡ suc (self.old.key_words + self.old.value_words) }
        ensures told { result ≡ has_unexpired now self.old.book.sheet chunk }
        ensures read { result ≡ true → row.new ≡ row_at self.old chunk }
        ensures stays { result ≡ false → row.new ≡ row.old }
        ensures looks { LooksOnly self.old.book self.new.book }
        ensures rest { self.new ≡ record self.old { book = self.new.book } }
    {
        visiting::read_unexpired(&mut self.lists, &self.index, self.settings, chunk, now, row)
    }

    /// Ends the next item that has expired at `now`, in the caller's ticks, and tells its chunk, and its row in `told`,
    /// which has room for a label and a row: the label says when it expires, and the words of its key and of its value
    /// come behind it. It looks at the next `most` chunks of the class in turn, from where the last turn ended, as
    /// `end_expired` does, until one has an item that has expired; the next turn begins behind that chunk. It is None
    /// exactly where none of them has one: then the words of `told` stay, and nothing changes but where the next turn
    /// begins, which is behind them all, and what the class's seat notes of its loads. The index leads to the item no
    /// more before it ends. It counts as `crawler_reclaimed`, and not as evicted. The other items stay in their lists,
    /// in their order.
    pub fn take_expired(&mut self, most: u32, told: &mut [u64], now: u64) -> Option<u32>
        requires told { length told.old ≡ suc (self.old.key_words + self.old.value_words) }
        ensures takes { TakesNext most now result self.old self.new }
        ensures ends { IfSome result (λ chunk. EndsAt chunk self.old.book self.new.book) }
        ensures others { IfSome result (λ chunk. SameSegments (all_without chunk self.old.book.lists)
            self.new.book.lists) }
        ensures told { TellsRow true result told.old told.new self.old }
        ensures length { length told.new ≡ length told.old }
        ensures rest { self.new ≡ record self.old {
          book = self.new.book;
          flow = self.new.flow;
          evictions = self.new.evictions;
          index = self.new.index;
          cursor = self.new.cursor;
        } }
    {
        let next = taking::take_expired(
            &mut self.lists,
            &mut self.index,
            self.settings,
            self.cursor,
            most,
            told,
            now,
        );
        self.cursor = next.cursor;
        next.chunk
    }

    /// Evicts the item whose turn it is, as a put of a new key does where as many as may be are linked, and tells its
    /// chunk, and its row in `told`, which has room for a label and a row: the label says when it expires, and the
    /// words of its key and of its value come behind it. Where COLD's last item is held, bumps that wait are applied
    /// first, at most `most` of each lane; then the one whose turn it is ends, as by `CountedBook::evict`, whether it
    /// has expired at `now`, in the caller's ticks, or not, and it is counted as that says. The index leads to it no
    /// more. It is None exactly where no item is linked, and then nothing changes, and the words of `told` stay.
    pub fn evict(
        &mut self,
        lanes: &mut [RawLane<N, L>],
        most: u32,
        told: &mut [u64],
        now: u64,
    ) -> Option<u32>
        requires told { length told.old ≡ suc (self.old.key_words + self.old.value_words) }
        ensures evicts { EvictsNext most now result self.old lanes.old self.new lanes.new }
        ensures ends { IfSome result (λ chunk. EndsAt chunk self.old.book self.new.book) }
        ensures told { TellsRow true result told.old told.new self.old }
        ensures length { length told.new ≡ length told.old }
        ensures rest { self.new ≡ record self.old {
          book = self.new.book;
          flow = self.new.flow;
          evictions = self.new.evictions;
          index = self.new.index;
        } }
    {
        evicting::evict_next(
            &mut self.lists,
            &mut self.index,
            self.settings,
            told,
            lanes,
            most,
            now,
        )
    }
}

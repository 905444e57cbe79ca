//! A shelf: a part, the lanes of its readers' rings, and when its lists are balanced.
ghost use Rattle.std.specs.Prelude.{◌≡◌, ℕ, List, ◌+◌, ◌<◌, ◌≤◌, IfOk, IfErr, true, false, [], suc, length};
ghost use Rattle.bump_class.specs.Books.{IsBook};
ghost use Rattle.bump_class.specs.Links.{MayHave};
ghost use Rattle.bump_steps.specs.Views.{last_word, owns};
ghost use Rattle.cache_lists.specs.Counts.{IsFlow, SegmentsAddUp};
ghost use Rattle.cache_part.specs.Parts.{IsPart, IsUnknown};
ghost use Rattle.cache_part.specs.Stats.{stats_of};
ghost use Rattle.cache_part.specs.Evicting.{EvictsNext};
ghost use Rattle.cache_part.specs.Expiring.{KeepsUnexpired, LooksInTurn};
ghost use Rattle.cache_part.specs.Putting.{row_at};
ghost use Rattle.cache_part.specs.Visiting.{has_unexpired};
ghost use Rattle.cache_part.specs.Taking.{TakesNext};
ghost use Rattle.cache_shelf.specs.Limits.{put_rounds};
ghost use Rattle.cache_shelf.specs.Shelves.{ShelfView as TheShelfView, IsLawful, with_ended, with_evicted, with_put, with_taken, with_tended};
ghost use Rattle.cache_shelf.specs.Entries.{AllKept, AllUnexpiredKept, Evicted, Had, ReadsShelf, key_of_evicted};
ghost use Rattle.cache_shelf.specs.Putting.{PutsEntry, RefusesEntry, RemovesEntry};
ghost use Rattle.cache_shelf.specs.Turns.{TendsShelf};

use crate::entries::read_unexpired_entry;
use crate::evicting::evict_entry;
use crate::limits::Limits;
use crate::taking::take_entry;
use crate::turns::{drain_in_turn, take_turn};
use bump_class::RawLane;
use bump_heads::Name;
use bump_steps::{AnyRow, RowLaw};
use cache_part::{NoChunk, Part, PutItem, Stats};
use std::marker::Model;
use std::ops::Range;

/// A part, the lanes of its readers' rings, and how many puts there were since one had its turn. Of each item that
/// is linked the table's law holds.
#[derive(Drop)]
pub struct Shelf<N: Name, L: RowLaw = AnyRow> {
    part: Part<N, L>,
    lanes: Vec<RawLane<N, L>>,
    limits: Limits,
    puts: u32,
}

impl<N: Name, L: RowLaw> Model for Shelf<N, L> {
    ghost Value = { TheShelfView };

    ghost view = { λ s. record { part = s.part; lanes = s.lanes.items; limits = s.limits; puts = s.puts } };

    ghost invariant = { λ s. IsLawful L.law s.part × (s.puts < put_rounds) };
}

impl<N: Name, L: RowLaw> Shelf<N, L> {
    /// A shelf of a part that has no items yet, and of the lanes of its readers' rings.
    pub fn new(part: Part<N, L>, lanes: Vec<RawLane<N, L>>, limits: Limits) -> Shelf<N, L>
        requires { part.book.sheet.history ≡ [] }
        ensures { result ≡ record { part = part; lanes = lanes.items; limits = limits; puts = 0 } }
    {
        Shelf {
            part,
            lanes,
            limits,
            puts: 0,
        }
    }

    /// What it keeps: what `Part::promise` tells of its part, and that the table's law holds of each item.
    pub fn promise(&self)
        ensures part { IsPart self.now.part.seed self.now.part.key_words self.now.part.book.sheet self.now.part.index }
        ensures words { self.now.part.key_words + self.now.part.value_words ≤ N.table.slots }
        ensures lawful { IsLawful L.law self.now.part }
        ensures book { IsBook self.now.part.book }
        ensures flow { IsFlow self.now.part.flow self.now.part.book.sheet }
        ensures sums { SegmentsAddUp (length self.now.part.book.lists.hot) (length self.now.part.book.lists.warm)
            (length self.now.part.book.lists.cold) (length self.now.part.book.lists.temp) self.now.part.book.sheet }
        ensures puts { self.now.puts < put_rounds }
    {
        self.part.promise();
    }

    /// Puts an item under its key: its row is the key's words and then the value's. It expires at `expires`, and 0 is
    /// never; `now` is the time of the item, and of the bumps that it applies. Times are in the caller's ticks.
    ///
    /// Each eighth put has its turn: it first applies the bumps that wait, at most `PUT_BUMPS` of each lane, and in the
    /// end balances HOT and WARM, in `PUT_ROUNDS` rounds at most. Each put does what `Part::put` does: the key's old
    /// item ends, and at most one other is evicted; where COLD's last item is held before that, as many bumps of each
    /// lane are applied as the limits say. Where no chunk is free, also of those of ended items that nobody holds any
    /// more, as many are applied, too, and it looks once more; it is refused exactly where none is free then: each
    /// chunk that has no item was found held, or has had its last generation. The key keeps what it had. Under each
    /// other key but the evicted one's stays what was there.
    ///
    /// Where `tells` is set, when the old item expires, and its value, are told in `old`, which has one word more than
    /// a value; and when the evicted one does, and its row, in `evicted`, which has one word more than a row. Both may
    /// have expired. Where there is none, or `tells` isn't set, the words stay.
    pub fn put(
        &mut self,
        row: &[u64],
        expires: u64,
        tells: bool,
        old: &mut [u64],
        evicted: &mut [u64],
        now: u64,
    ) -> Result<PutItem, NoChunk>
        requires words { length row.now ≡ self.old.part.key_words + self.old.part.value_words }
        requires old { length old.old ≡ suc self.old.part.value_words }
        requires evicted { length evicted.old ≡ suc (self.old.part.key_words + self.old.part.value_words) }
        requires law { MayHave L.law expires row.now }
        ensures puts { IfOk result (λ did. PutsEntry tells L.law did row.now expires now
            (record { old = old.old; evicted = evicted.old }) (record { old = old.new; evicted = evicted.new }) self.old
            self.new) }
        ensures refuses { IfErr result (λ why. RefusesEntry tells L.law why row.now now
            (record { old = old.old; evicted = evicted.old }) (record { old = old.new; evicted = evicted.new }) self.old
            self.new) }
        ensures lengths { (length old.new ≡ length old.old) × (length evicted.new ≡ length evicted.old) }
        ensures same { self.new ≡ with_put self.new self.old }
    {
        let lanes: &mut [RawLane<N, L>] = &mut self.lanes;
        drain_in_turn(&mut self.part, lanes, self.puts, now);
        let most = self.limits.most;
        // A key is that of one item: so what is evicted leaves nothing under its key.
        self.part.promise();
        let put = self
            .part
            .put(row, expires, tells, old, evicted, lanes, most, now);
        self.puts = take_turn(&mut self.part, self.limits, self.puts, now);
        put
    }

    /// Ends the item of this key, and tells its chunk, and when it expires and its value in `old`, which has one word
    /// more than a value; or None exactly where no item has the key, and then nothing changes but what the class's seat
    /// notes of its loads. It ends also where it has expired. Under each other key stays what was there, and the other
    /// items stay in their lists, in their order. An item that ends so doesn't count as evicted.
    pub fn remove(&mut self, key: &[u64], old: &mut [u64]) -> Option<u32>
        requires key { length key.now ≡ self.old.part.key_words }
        requires old { length old.old ≡ suc self.old.part.value_words }
        ensures removes { RemovesEntry L.law key.now result old.old old.new self.old.part self.new.part }
        ensures length { length old.new ≡ length old.old }
        ensures same { self.new ≡ with_ended self.new self.old }
    {
        self.part.promise();
        self.part.remove(key, old)
    }

    /// Looks for the item of this key, and tells its chunk, and when it expires and its value in `told`, which has one
    /// word more than a value; or None exactly where no item has the key, and then the words of `told` stay. It is told
    /// also where it has expired. It isn't touched, and nothing changes but what the class's seat notes of its loads.
    pub fn look(&mut self, key: &[u64], told: &mut [u64]) -> Option<u32>
        requires key { length key.now ≡ self.old.part.key_words }
        requires told { length told.old ≡ suc self.old.part.value_words }
        ensures had { Had L.law key.now result told.old told.new self.old.part }
        ensures reads { ReadsShelf self.old self.new }
        ensures length { length told.new ≡ length told.old }
    {
        self.part.look(key, told)
    }

    /// Tends the part, as `Part::tend` does: the bumps that wait are applied, at most as many of each lane as the
    /// limits say; so many chunks as they say are looked at, where the last tend ended its looks, and each item there
    /// that has expired ends; ended items are swept; and HOT and WARM are balanced. Each other item stays linked. `now`
    /// is the time of the bumped items, and that by which items have expired, in the caller's ticks.
    pub fn tend(&mut self, now: u64)
        ensures tends { TendsShelf now self.old self.new }
        ensures looked { LooksInTurn self.old.limits.looks now self.old.part self.new.part }
        ensures unexpired { KeepsUnexpired now self.old.part.book self.new.part.book }
        ensures kept { AllUnexpiredKept now self.old.part self.new.part }
        ensures same { self.new ≡ with_tended self.new self.old }
    {
        let limits = self.limits;
        self.part.tend(
            &mut self.lanes,
            limits.most,
            now,
            limits.bounds,
            limits.looks,
        );
    }

    /// Ends each item, and none counts as evicted. It looks at each chunk of the class once.
    pub fn clear(&mut self)
        ensures empty { (key : List ℕ) → IsUnknown key self.new.part }
        ensures words { (i c : ℕ) → last_word i self.new.part.book.sheet c ≡ last_word i self.old.part.book.sheet c }
        ensures same { self.new ≡ with_ended self.new self.old }
    {
        self.part.clear();
    }

    /// The statistics of its part, as `Part::stats` tells them.
    pub fn stats(&self) -> Stats
        ensures { result ≡ stats_of self.now.part }
    {
        self.part.stats()
    }

    /// The chunks of the class: from its first one up to that behind its last one.
    pub fn chunks(&self) -> Range<u32>
        ensures start { result.start ≡ self.now.part.book.sheet.first }
        ensures end { result.end ≡ self.now.part.book.sheet.first + self.now.part.book.sheet.count }
    {
        self.part.chunks()
    }

    /// Reads the row of the item of a chunk of the class, where one is linked that hasn't expired at `now`, in the
    /// caller's ticks, and tells whether one is, as `Part::read_unexpired` does: when it expires, and then the words of
    /// its key and of its value. Where none is `row` stays, which has one word more than a row. The item isn't touched,
    /// and nothing changes but what the class's seat notes of its loads.
    pub fn read_unexpired(&mut self, chunk: u32, now: u64, row: &mut [u64]) -> bool
        requires own { owns chunk self.old.part.book.sheet ≡ true }
        requires row { length row.old ≡ suc (self.old.part.key_words + self.old.part.value_words) }
        ensures told { result ≡ has_unexpired now self.old.part.book.sheet chunk }
        ensures read { result ≡ true → row.new ≡ row_at self.old.part chunk }
        ensures stays { result ≡ false → row.new ≡ row.old }
        ensures reads { ReadsShelf self.old self.new }
    {
        read_unexpired_entry(&mut self.part, chunk, now, row)
    }

    /// Ends the next item that has expired at `now`, in the caller's ticks, as `Part::take_expired` does, and tells its
    /// chunk, and when it expires and its row in `told`, which has one word more than a row. It looks at as many chunks
    /// as the limits say, where the last tend, or the last of these calls, ended its looks. It is None exactly where
    /// none of them has an item that has expired, and then the words of `told` stay. Under each other key stays what
    /// was there. No bump is applied.
    pub fn take_expired(&mut self, told: &mut [u64], now: u64) -> Option<u32>
        requires told { length told.old ≡ suc (self.old.part.key_words + self.old.part.value_words) }
        ensures takes { TakesNext self.old.limits.looks now result self.old.part self.new.part }
        ensures told { Evicted L.law result told.old told.new self.old.part self.new.part }
        ensures kept { AllKept (key_of_evicted result self.old.part) self.old.part self.new.part }
        ensures length { length told.new ≡ length told.old }
        ensures same { self.new ≡ with_taken self.new self.old }
    {
        take_entry(&mut self.part, self.limits.looks, told, now)
    }

    /// Evicts the item whose turn it is, as `Part::evict` and a put of a new key into a full part do, and tells its
    /// chunk, and when it expires and its row in `told`, which has one word more than a row. Where COLD's last item is
    /// held, as many bumps of each lane are applied first as the limits say. It is None exactly where no item is
    /// linked: then nothing changes, and the words of `told` stay. Under each other key stays what was there. It counts
    /// as no put. `now` is the time of the bumped items, and that by which items have expired, in the caller's ticks.
    pub fn evict(&mut self, told: &mut [u64], now: u64) -> Option<u32>
        requires told { length told.old ≡ suc (self.old.part.key_words + self.old.part.value_words) }
        ensures evicts { EvictsNext self.old.limits.most now result self.old.part self.old.lanes self.new.part
            self.new.lanes }
        ensures told { Evicted L.law result told.old told.new self.old.part self.new.part }
        ensures kept { AllKept (key_of_evicted result self.old.part) self.old.part self.new.part }
        ensures length { length told.new ≡ length told.old }
        ensures same { self.new ≡ with_evicted self.new self.old }
    {
        let limits = self.limits;
        evict_entry(&mut self.part, &mut self.lanes, limits.most, told, now)
    }
}

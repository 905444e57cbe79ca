//! A reader of a cache whose keys and values are words.
ghost use Rattle.std.specs.Prelude.{◌≡◌, ◌+◌, ◌≤◌, true, false, is_some, IfSome, IfNone, length};
ghost use Rattle.std.specs.Arc.{arc_value};
ghost use Rattle.bump_rules.specs.declared.hands.Hand.TheVariants as hand;
ghost use Rattle.bump_rules.specs.Rings.{IsAccounts};
ghost use Rattle.cache_readers.specs.Looks.{Finds, FoundBy, HasWords, Hits, LookFinds, Peeks, Sees};
ghost use Rattle.cache_readers.specs.declared.glancing.Glanced.TheVariants as glanced;
ghost use Rattle.cache_readers.specs.Glances.{IfUnsure};
ghost use Rattle.cache_index.specs.History.{SeesIndex};
ghost use Rattle.cache_readers.specs.Readers.{CountsHit, CountsMiss, CountsNothing, GlancedAt, KeepsRing, Misses, ReadsMissed, ReadsNothing};
ghost use Rattle.cache_readers.specs.Readers.{ReaderView as TheReaderView, new_reader};

use crate::glancing::{Glanced, glance_first};
use crate::looking::{count_one, find, find_from, read_words, take, touch};
use crate::misses::Miss;
use bump_heads::{Heads, Name};
use bump_readers::ReaderHeads;
use bump_rules::{Accounts, Head, ItemId};
use bump_steps::RowLaw;
use bump_unlocked::{Hold, Worker};
use cache_index::{Eye, IndexReader};
use std::alloc::Global;
use std::marker::Model;
use std::sync::Arc;

/// A reader of a cache, which one thread has at a time.
#[derive(Drop)]
pub struct WordReader<N: Name, L: RowLaw> {
    worker: Worker<N>,
    heads: Arc<Heads<N, L>, Global>,
    index: IndexReader,
    eye: Eye,
    hits: u64,
    misses: u64,
    anew: u64,
    missed: Miss,
}

impl<N: Name, L: RowLaw> Model for WordReader<N, L> {
    ghost Value = { TheReaderView };

    ghost view = { λ r. record {
      config = arc_value r.heads;
      index = r.index;
      eye = r.eye;
      worker = r.worker;
      hits = r.hits;
      misses = r.misses;
      anew = r.anew;
      missed = r.missed;
    } };

    ghost invariant = { λ r. SeesIndex r.index r.eye };
}

impl<N: Name, L: RowLaw> WordReader<N, L> {
    /// A reader that got nothing yet: by a worker of the store of these heads, and a reader of the index that leads to
    /// its items, with an eye of that index.
    pub fn new(
        worker: Worker<N>,
        heads: Arc<Heads<N, L>, Global>,
        index: IndexReader,
        eye: Eye,
    ) -> WordReader<N, L>
        requires { SeesIndex index eye }
        ensures { result ≡ new_reader (arc_value heads) index eye worker }
    {
        WordReader {
            worker,
            heads,
            index,
            eye,
            hits: 0,
            misses: 0,
            anew: 0,
            missed: Miss::Unknown,
        }
    }

    /// The words of the store's chunks: what `Hold::release` and `Hold::word` of a hold of this reader take.
    #[inline(always)]
    pub fn heads(&self) -> &ReaderHeads<N, L>
        ensures { result.now ≡ self.now.config }
    {
        &self.heads
    }

    // Finds the item of a key by a glance, and reads its value, or by a hold, and does nothing else.
    #[inline(always)]
    fn see(
        &mut self,
        hash: u32,
        key: &[u64],
        value: &mut [u64],
        now: u64,
    ) -> Option<Option<(Hold<N>, Head)>>
        requires few { length key.now + length value.old ≤ N.table.slots }
        ensures finds { IfSome result (λ sight. FoundBy (LookFinds L.law self.old.config key.now value.new now sight)
            self.old.config key.now now self.old.anew self.new.anew self.old.worker self.new.worker) }
        ensures nothing { IfNone result (ReadsNothing key.now now self.old self.new) }
        ensures absent { IfNone result (ReadsMissed hash key.now now self.old self.new) }
        ensures uncounted { CountsNothing (is_some result) self.old self.new }
        ensures length { length value.new ≡ length value.old }
        ensures ring { KeepsRing self.old self.new }
    {
        let found = find(
            &mut self.worker,
            &self.heads,
            &self.index,
            &mut self.eye,
            &mut self.anew,
            hash,
            key,
            value,
            true,
            now,
        );
        match found {
            Ok(sight) => Some(sight),
            Err(why) => {
                self.missed = why;
                None
            }
        }
    }

    /// Reads the value that was put under a key into `value`, as memcached's `get`, and tells whether there was one
    /// that hasn't expired. `hash` is the key's, any number for a key that isn't there. `now` is the time, in the
    /// caller's ticks: a touch stores it, and an item whose label isn't 0, and isn't more than it, has expired. The
    /// words of `key` and `value` are as many as a row has, or fewer, together. It takes no lock and no memory, and
    /// waits for nobody.
    ///
    /// It searches the index, and looks at each chunk to which it leads. First it glances at the item that is linked
    /// there: it loads the head, the label, the words of the key and of the value, and the head again. Where the item
    /// has both marks and the key, hasn't expired, and is linked as ever by the second load, that is a hit: a touch
    /// would change nothing, and nothing was written but the count of hits.
    ///
    /// Else it takes a hold of the item that is linked there then, and compares its key. Where that is another one the
    /// hold is given back, and the search goes on. Where it is the key, and the item has expired, the hold is given back
    /// too, and the search ends: the item stays linked. Else the item is touched, as `Worker::touch` does, unless the
    /// head by which the hold was taken had both marks; the value is read, and the hold given back. What it read are
    /// the words that the put of this life stored.
    ///
    /// Where a life to which the index led has ended meanwhile, or its chunk can't be held, it searches anew, up to 1,000
    /// times. It answers false where the item with the key has expired, where the index leads to no chunk with the key,
    /// and behind the last of these searches; nothing is touched then, and `value` has any words, since a glance in vain
    /// may have loaded some. Why it found nothing `last_miss` tells, and what each answer of that means is said of `Miss`.
    #[inline(always)]
    pub fn get(&mut self, hash: u32, key: &[u64], value: &mut [u64], now: u64) -> bool
        requires few { length key.now + length value.old ≤ N.table.slots }
        ensures found { result ≡ true → Finds L.law self.old.config key.now value.new now self.old.anew self.new.anew
            self.old.worker self.new.worker }
        ensures counted { result ≡ true → CountsHit self.old self.new }
        ensures nothing { result ≡ false → ReadsNothing key.now now self.old self.new }
        ensures absent { result ≡ false → ReadsMissed hash key.now now self.old self.new }
        ensures missed { result ≡ false → CountsMiss self.old self.new }
        ensures length { length value.new ≡ length value.old }
        ensures ring { KeepsRing self.old self.new }
    {
        match self.glance(hash, key, value, now) {
            Glanced::Found => true,
            Glanced::Nothing => false,
            Glanced::Unsure(id) => self.get_held(id, hash, key, value, now),
        }
    }

    /// What a get does first: a glance at the first life to which the index leads for this hash. Where it finds the
    /// key's value, or the index leads to nothing, the get is over, and is counted. Else nothing is, `value` has any
    /// words, and `get_held` goes on. The words of `key` and `value` are as many as a row has, or fewer, together.
    ///
    /// It is for who keeps short keys and values in registers: `get_held` is a call, and wants both in memory.
    #[inline(always)]
    pub fn glance(&mut self, hash: u32, key: &[u64], value: &mut [u64], now: u64) -> Glanced
        requires few { length key.now + length value.old ≤ N.table.slots }
        ensures found { result ≡ glanced.Found → Finds L.law self.old.config key.now value.new now self.old.anew
            self.new.anew self.old.worker self.new.worker }
        ensures counted { result ≡ glanced.Found → CountsHit self.old self.new }
        ensures nothing { result ≡ glanced.Nothing → ReadsNothing key.now now self.old self.new }
        ensures absent { result ≡ glanced.Nothing → ReadsMissed hash key.now now self.old self.new }
        ensures missed { result ≡ glanced.Nothing → CountsMiss self.old self.new }
        ensures unsure { IfUnsure result (λ id. GlancedAt id self.old self.new) }
        ensures length { length value.new ≡ length value.old }
        ensures ring { KeepsRing self.old self.new }
    {
        // The words of the chunks are looked up once: the compiler can't know that no step changes where they lie.
        let heads: &ReaderHeads<N, L> = &self.heads;
        let told = glance_first(
            &mut self.worker,
            heads,
            &self.index,
            &mut self.eye,
            hash,
            key,
            value,
            true,
            now,
        );
        match &told {
            Glanced::Found => count_one(&mut self.hits),
            Glanced::Nothing => {
                count_one(&mut self.misses);
                self.missed = Miss::Absent;
            }
            Glanced::Unsure(_) => {}
        }
        told
    }

    /// What a get does then: it goes on from the life at which `glance` told nothing, by a hold of what is linked in its
    /// chunk. It answers, touches, counts and writes as `get` says. Most gets are over by a glance: so this is a function
    /// of its own, which takes no registers from them.
    #[cold]
    #[inline(never)]
    pub fn get_held(
        &mut self,
        id: ItemId,
        hash: u32,
        key: &[u64],
        value: &mut [u64],
        now: u64,
    ) -> bool
        requires few { length key.now + length value.old ≤ N.table.slots }
        ensures found { (before : TheReaderView) → GlancedAt id before self.old → result ≡ true → Finds L.law
            before.config key.now value.new now before.anew self.new.anew before.worker self.new.worker }
        ensures counted { result ≡ true → CountsHit self.old self.new }
        ensures nothing { (before : TheReaderView) → GlancedAt id before self.old → result ≡ false
            → ReadsNothing key.now now before self.new }
        ensures absent { (before : TheReaderView) → GlancedAt id before self.old → result ≡ false
            → ReadsMissed hash key.now now before self.new }
        ensures missed { result ≡ false → CountsMiss self.old self.new }
        ensures length { length value.new ≡ length value.old }
        ensures ring { KeepsRing self.old self.new }
    {
        let heads: &ReaderHeads<N, L> = &self.heads;
        let found = find_from(
            &mut self.worker,
            heads,
            &self.index,
            &mut self.eye,
            &mut self.anew,
            id,
            hash,
            key,
            value,
            true,
            now,
        );
        let sight = match found {
            Ok(sight) => sight,
            Err(why) => {
                count_one(&mut self.misses);
                self.missed = why;
                return false;
            }
        };
        count_one(&mut self.hits);
        let Some((mut hold, head)) = sight else {
            return true;
        };
        touch(&mut self.worker, heads, &mut hold, head, now);
        read_words(&mut hold, heads, key.len(), value);
        hold.release(heads);
        true
    }

    /// The same, but hands out the hold of the item, whose value isn't read yet; or `None` where `get` answers false.
    /// It searches, touches and counts as `get` does, without a glance. The words of `key` are as many as a row has, or
    /// fewer. While there is the hold its item's chunk isn't free, and keeps its words, whatever is put, removed or
    /// evicted meanwhile, and also once it has expired. It must be spent, by `Hold::release` with `heads`.
    #[inline(always)]
    pub fn hold(&mut self, hash: u32, key: &[u64], now: u64) -> Option<Hold<N>>
        requires few { length key.now ≤ N.table.slots }
        ensures found { IfSome result (λ hold. Hits L.law self.old.config key.now now self.old.anew self.new.anew
            self.old.worker self.new.worker hold) }
        ensures counted { IfSome result (λ hold. CountsHit self.old self.new) }
        ensures missed { IfNone result (Misses key.now now self.old self.new) }
        ensures absent { IfNone result (ReadsMissed hash key.now now self.old self.new) }
        ensures ring { KeepsRing self.old self.new }
    {
        let taken = take(
            &mut self.worker,
            &self.heads,
            &self.index,
            &mut self.eye,
            &mut self.hits,
            &mut self.misses,
            &mut self.anew,
            hash,
            key,
            now,
        );
        match taken {
            Ok(hold) => Some(hold),
            Err(why) => {
                self.missed = why;
                None
            }
        }
    }

    /// Reads words of an item that is held into `words`, as many as it has, by one load each: `from` is the first one's
    /// number in the row, behind the label. The row has so many from there on, or more. Nothing changes.
    #[inline(always)]
    pub fn read(&self, hold: &mut Hold<N>, from: usize, words: &mut [u64])
        requires few { from + length words.old ≤ N.table.slots }
        ensures read { HasWords words.new from hold.old.row }
        ensures length { length words.new ≡ length words.old }
        ensures same { hold.new ≡ hold.old }
    {
        read_words(hold, &self.heads, from, words);
    }

    /// Reads the value as `get` does, of an item that hasn't expired at `now`, but the item isn't touched, and nothing
    /// is counted: so it may be evicted as if it hadn't been asked for.
    #[inline(always)]
    pub fn peek(&mut self, hash: u32, key: &[u64], value: &mut [u64], now: u64) -> bool
        requires few { length key.now + length value.old ≤ N.table.slots }
        ensures found { result ≡ true → Peeks L.law self.old.config key.now value.new now self.old.anew self.new.anew
            self.old.worker self.new.worker }
        ensures nothing { result ≡ false → ReadsNothing key.now now self.old self.new }
        ensures absent { result ≡ false → ReadsMissed hash key.now now self.old self.new }
        ensures uncounted { CountsNothing result self.old self.new }
        ensures length { length value.new ≡ length value.old }
        ensures ring { KeepsRing self.old self.new }
    {
        let Some(sight) = self.see(hash, key, value, now) else {
            return false;
        };
        let Some((mut hold, _)) = sight else {
            return true;
        };
        read_words(&mut hold, &self.heads, key.len(), value);
        hold.release(&self.heads);
        true
    }

    /// Whether there is a value under a key that hasn't expired at `now`: `peek` without the value. The words of `key`
    /// are as many as a row has, or fewer.
    #[inline(always)]
    pub fn contains(&mut self, hash: u32, key: &[u64], now: u64) -> bool
        requires few { length key.now ≤ N.table.slots }
        ensures found { result ≡ true → Sees L.law self.old.config key.now now self.old.anew self.new.anew
            self.old.worker self.new.worker }
        ensures nothing { result ≡ false → ReadsNothing key.now now self.old self.new }
        ensures absent { result ≡ false → ReadsMissed hash key.now now self.old self.new }
        ensures uncounted { CountsNothing result self.old self.new }
        ensures ring { KeepsRing self.old self.new }
    {
        let Some(sight) = self.see(hash, key, &mut [], now) else {
            return false;
        };
        let Some((hold, _)) = sight else {
            return true;
        };
        hold.release(&self.heads);
        true
    }

    /// Loads the word of the index at which a search for this hash begins, and lets it go: a search for the same hash
    /// that comes soon needn't wait for the memory in which the word lies. Nothing changes, and nothing is told. It
    /// takes no lock and no memory, and waits for nobody.
    #[inline(always)]
    pub fn look_ahead(&self, hash: u32) {
        self.index.look_ahead(hash);
    }

    /// How many gets found something (memcached's `get_hits`), in 64 bits: behind 2^64 - 1 it begins anew at 0.
    pub fn hits(&self) -> u64
        ensures { result ≡ self.now.hits }
    {
        self.hits
    }

    /// How many gets found nothing (memcached's `get_misses`), in the same way.
    pub fn misses(&self) -> u64
        ensures { result ≡ self.now.misses }
    {
        self.misses
    }

    /// How many searches of this reader were given up, since a life to which the index led had ended meanwhile, or its
    /// chunk couldn't be held; in the same way.
    pub fn searched_anew(&self) -> u64
        ensures { result ≡ self.now.anew }
    {
        self.anew
    }

    /// Why the last get, hold, peek or `contains` of this reader that found nothing did so; `Unknown` where each found
    /// something so far.
    pub fn last_miss(&self) -> Miss
        ensures { result ≡ self.now.missed }
    {
        self.missed
    }

    /// Its counts of bumps, as `Worker::counts` tells them: accepted and dropped ones add up to those attempted.
    pub fn bumps(&self) -> Accounts
        ensures counts { result ≡ self.now.worker.sheet.accounts }
        ensures add_up { IsAccounts result (length self.now.worker.sender.sent) hand.Idle }
    {
        self.worker.counts()
    }
}

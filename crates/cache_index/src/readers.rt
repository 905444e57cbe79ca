//! Readers, which search the index without a lock while the writer changes it.
ghost use Rattle.std.specs.Prelude.{◌≡◌, ◌<◌, ◌+◌, ◌^◌, true, false, IfOk, IfSome, IfNone};
ghost use Rattle.cache_index.specs.History.{AnswersPast, BeginsPast, ComesPast, EndsPast, Looks, SeesMoment};
ghost use Rattle.std.specs.Arc.{arc_value};
ghost use Rattle.cache_index.specs.Tags.{tag_of};
ghost use Rattle.cache_index.specs.Places.{home_of, nest_behind};
ghost use Rattle.cache_index.specs.Views.{ahead};
ghost use Rattle.cache_index.specs.Walks.{TakesLowest, WalksOn};

use crate::led::life_of;
use crate::nests::{Nests, behind};
use crate::tags::{lowest, tag_of, without_lowest};
use bump_rules::ItemId;
use seen_words::Eye;
use std::alloc::{AllocError, Global};
use std::marker::Model;
use std::sync::Arc;

/// A reader of an index. A contract sees how many nests the index has, and its first chunk.
#[derive(Drop)]
pub struct IndexReader {
    nests: Arc<Nests, Global>,
    first: u32,
}

impl Model for IndexReader {
    ghost use Rattle.std.specs.Arc.{arc_value};
    ghost use Rattle.cache_index.specs.Views.{IndexReaderView};

    ghost Value = { IndexReaderView };

    ghost view = { λ r. record { table = (arc_value r.nests).table; nests = (arc_value r.nests).nests; first = r.first } };
}

/// A reader's search. A contract sees its walk: the tag, the nest in which it is, how many nests it hasn't come to, and
/// which of the lanes that it found in this nest are left. Each load tells the reader's eye what a word was at one moment.
/// A chunk's lane stays while the index leads to it, and a new life of its key comes into the same lane by one store. So
/// what the index leads to all the while is among the answers.
#[derive(Drop)]
pub struct Search<'a> {
    reader: &'a IndexReader,
    // The reader's nests, looked up once: the compiler can't know that no load of a word changes where they lie.
    nests: &'a Nests,
    tag: u64,
    // the lanes of this nest that have the tag, and that aren't answered yet: the highest of the 8 bits of each
    lanes: u64,
    hash: u32,
    nest: u32,
    // So many nests it hasn't come to. Of this contracts speak, and no step depends on it: so it costs nothing.
    later: u32,
}

impl<'a> Model for Search<'a> {
    ghost use Rattle.std.specs.Prelude.{◌≡◌, ◌<◌, ◌≤◌, ◌+◌, ◌*◌, ◌^◌};
    ghost use Rattle.cache_index.specs.Tags.{tag_of};
    ghost use Rattle.cache_index.specs.Places.{home_of};
    ghost use Rattle.cache_index.specs.Walks.{IsBehind};
    ghost use Rattle.cache_index.specs.Views.{ReaderSearchView};

    ghost Value = { ReaderSearchView };

    ghost view = { λ s. record {
      table = s.nests.now.table;
      first = s.reader.now.first;
      hash = s.hash;
      nests = s.nests.now.nests;
      tag = s.tag;
      nest = s.nest;
      later = s.later;
      lanes = s.lanes;
    } };

    ghost invariant = { λ s. (s.tag ≡ tag_of s.hash) × (s.tag < 256) × (s.lanes < 2 ^ 48) × (s.nest < s.nests.now.nests)
        × (s.later < s.nests.now.nests) × (s.nests.now.nests < 2 ^ 29)
        × (home_of s.nests.now.nests s.hash < s.nests.now.nests)
        × IsBehind s.nests.now.nests (home_of s.nests.now.nests s.hash) s.nest s.later };
}

impl IndexReader {
    /// A reader of these nests, which numbers the chunks from this one on.
    pub(crate) fn new(nests: Arc<Nests, Global>, first: u32) -> IndexReader
        ensures { result ≡ record { table = (arc_value nests).table; nests = (arc_value nests).nests; first = first } }
    {
        IndexReader { nests, first }
    }

    /// Another reader of the same index. It is refused only for want of memory.
    pub fn try_clone(&self) -> Result<IndexReader, AllocError>
        ensures { IfOk result (λ r. r ≡ self.now) }
    {
        Ok(IndexReader {
            nests: Arc::try_clone(&self.nests)?,
            first: self.first,
        })
    }

    /// Loads the word of the index at which a search for this hash begins, and lets it go: a search for the same hash
    /// that comes soon needn't wait for the memory in which the word lies. Nothing changes, and nothing is told.
    #[inline(always)]
    pub fn look_ahead(&self, hash: u32) {
        let nests: &Nests = &self.nests;
        nests.look_ahead(nests.home(hash));
    }

    /// Begins a search for what has a key of this hash, at the hash's home: a load of one word. All other nests are yet
    /// to come. It waits for nobody and takes no memory.
    #[inline(always)]
    #[tactic(auto, using(crate::proofs::WalkLemmas::begins_behind))]
    pub fn search(&self, eye: &mut Eye, hash: u32) -> Search<'_>
        requires eye { eye.old.table ≡ self.now.table }
        ensures table { result.table ≡ self.now.table }
        ensures first { result.first ≡ self.now.first }
        ensures hash { result.hash ≡ hash }
        ensures nests { result.nests ≡ self.now.nests }
        ensures tag { result.tag ≡ tag_of hash }
        ensures home { result.nest ≡ home_of self.now.nests hash }
        ensures later { result.later + 1 ≡ self.now.nests }
        ensures eye { SeesMoment eye.old eye.new }
        ensures begins { BeginsPast self.now.nests hash result eye.old eye.new }
    {
        let nests: &Nests = &self.nests;
        let count = nests.count();
        let nest = nests.home(hash);
        let tag = tag_of(hash);
        let lanes = nests.lanes_now(eye, nest, tag);
        Search {
            reader: self,
            nests,
            tag,
            lanes,
            nest,
            later: count - 1,
            hash,
        }
    }
}

impl<'a> Search<'a> {
    // Whether all nests were come to: the next one is the home.
    #[inline(always)]
    #[tactic(auto, using(crate::proofs::WalkLemmas::last_behind, crate::proofs::WalkLemmas::more_behind))]
    fn is_last(&self) -> bool
        ensures last { result ≡ true → self.now.later ≡ 0 }
        ensures more { result ≡ false → 0 < self.now.later }
    {
        behind(self.nests.count(), self.nest, 1) == self.nests.home(self.hash)
    }

    // Whether no key passed the nest: then no way of the hash led behind it, all the while.
    #[inline(always)]
    fn is_end(&self, eye: &mut Eye) -> bool
        requires eye { eye.old.table ≡ self.now.table }
        requires lanes { self.now.lanes ≡ 0 }
        ensures eye { SeesMoment eye.old eye.new }
        ensures ends { result ≡ true → EndsPast self.now.nests self.now.hash self.now eye.old eye.new }
    {
        !self.nests.is_passed_now(eye, self.nest)
    }

    // Comes to the next nest.
    #[inline(always)]
    fn walk(&mut self, eye: &mut Eye)
        requires eye { eye.old.table ≡ self.old.table }
        requires later { 0 < self.old.later }
        requires lanes { self.old.lanes ≡ 0 }
        ensures table { self.new.table ≡ self.old.table }
        ensures first { self.new.first ≡ self.old.first }
        ensures hash { self.new.hash ≡ self.old.hash }
        ensures nests { self.new.nests ≡ self.old.nests }
        ensures tag { self.new.tag ≡ self.old.tag }
        ensures later { self.new.later + 1 ≡ self.old.later }
        ensures nest { self.new.nest ≡ nest_behind self.old.nests self.old.nest 1 }
        ensures narrow { self.new.lanes < 2 ^ 48 }
        ensures eye { SeesMoment eye.old eye.new }
        ensures past { ComesPast self.old.nests self.old.hash self.old self.new eye.old eye.new }
    {
        self.later -= 1;
        self.nest = behind(self.nests.count(), self.nest, 1);
        self.lanes = self.nests.lanes_now(eye, self.nest, self.tag);
    }

    /// The next life that may be of a key with the search's hash, or `None` where no more may be. Its chunk has its own
    /// number. It waits for nobody and takes no memory, and each answer brings the search nearer to its end: the lowest
    /// lane that is left in its nest is taken, and where none is, it walks on to a nest that has one. It walks past a
    /// nest only where a key passed it, and ends where none did, or behind the last one. Where it ends, no way of the
    /// hash led to any lane that was ahead of it all the while.
    #[inline(always)]
    pub fn next(&mut self, eye: &mut Eye) -> Option<ItemId>
        requires eye { eye.old.table ≡ self.old.table }
        ensures table { self.new.table ≡ self.old.table }
        ensures first { self.new.first ≡ self.old.first }
        ensures hash { self.new.hash ≡ self.old.hash }
        ensures nests { self.new.nests ≡ self.old.nests }
        ensures tag { self.new.tag ≡ self.old.tag }
        ensures walks { WalksOn self.old self.new }
        ensures stays { 0 < self.old.lanes → self.new.later ≡ self.old.later }
        ensures one { IfSome result (λ _. self.new.later ≡ self.old.later → TakesLowest self.old.lanes self.new.lanes) }
        ensures none { IfNone result ((self.old.lanes ≡ 0) × (self.new.lanes ≡ 0)) }
        ensures nearer { IfSome result (λ _. ahead self.new < ahead self.old) }
        ensures eye { Looks eye.old eye.new }
        ensures ends { IfNone result (EndsPast self.old.nests self.old.hash self.old eye.old eye.new) }
        ensures answers { IfSome result (λ life. AnswersPast self.old.nests self.old.hash life self.old self.new eye.old
            eye.new) }
    {
        while self.lanes == 0 {
            if self.is_last() || self.is_end(eye) {
                return None;
            }
            self.walk(eye);
        }
        let lane = lowest(self.lanes);
        self.lanes = without_lowest(self.lanes);
        let life = life_of(self.nests.life_now(eye, self.nest, lane));
        let reader = self.reader;
        // The life is a word of the index, and nothing says here that the sum fits.
        Some(ItemId {
            chunk: life.chunk.wrapping_add(reader.first),
            generation: life.generation,
        })
    }
}

//! Readers: a worker with the words that it reads, and numbered places for its holds.
ghost use Rattle.std.specs.Prelude.{◌≡◌, ◌⊎◌, length, replicate, not, Some, None, Err, IfNone, IfOk, IfSome};
ghost use Rattle.std.specs.Arc.{arc_value};
ghost use Rattle.bump_rules.specs.declared.hands.Hand.TheVariants as hand;
ghost use Rattle.bump_rules.specs.Rings.{IsAccounts};
ghost use Rattle.bump_readers.specs.Attempts.{attempts_in};
ghost use Rattle.bump_unlocked.specs.StepCounts.{MakesAtMost};
ghost use Rattle.bump_handles.specs.Draining.{has_hold};
ghost use Rattle.bump_handles.specs.Reading.{taken_told, CopiesWords, HoldsBehindAll, HoldsNothing, HoldsOne, ReaderCopies, ReaderGets, ReaderHits, ReaderReads, ReaderReleases, ReaderSees, ReaderTouches};
ghost use Rattle.bump_handles.specs.Views.{ReaderView as TheReaderView};

use bump_heads::{Heads, Name};
use bump_readers::ReaderHeads;
use bump_rules::{Accounts, Head, ItemId, Touch};
use bump_unlocked::{GetRefusal, Hold, Worker};
use std::alloc::{AllocError, Global};
use std::marker::Model;
use std::sync::Arc;

/// What became of a get into a place.
#[derive(Clone, Copy)]
pub enum Taken {
    /// The item is held, in that place.
    Held,

    /// There is no such place, or it has a hold.
    NoPlace,

    /// As `GetRefusal` says.
    NoSuchChunk,

    /// As `GetRefusal` says.
    Stale,

    /// As `GetRefusal` says.
    RefsFull,

    /// As `GetRefusal` says.
    Busy,
}

/// What a whole hit found.
#[derive(Clone, Copy)]
pub struct WholeHit {
    /// What the touch answered.
    pub touch: Touch,

    /// The item's label.
    pub label: u64,
}

/// A worker, the words of its store, and places for holds, which are numbered from 0. One thread has it at a time.
pub struct Reader<N: Name> {
    store: u64,
    number: u32,
    heads: Arc<Heads<N>, Global>,
    worker: Worker<N>,
    holds: Vec<Option<Hold<N>>>,
    // By the other one its lane sees whether it is still there.
    token: Arc<(), Global>,
}

impl<N: Name> Model for Reader<N> {
    ghost Value = { TheReaderView };

    ghost view = { λ r. record {
      store = r.store;
      number = r.number;
      config = arc_value r.heads;
      worker = r.worker;
      holds = r.holds.items;
    } };
}

/// So many places without a hold. It is refused only for want of memory.
pub fn no_holds<N: Name>(alloc: Global, places: u32) -> Result<Vec<Option<Hold<N>>>, AllocError>
    ensures { IfOk result (λ holds. holds.items ≡ replicate places None) }
{
    let mut holds = Vec::with_capacity(alloc, places as usize)?;
    for place in 0..places {
        holds.push_reserved(None);
    }
    Ok(holds)
}

// A refusal as an answer of a get into a place.
fn refused_as(refusal: GetRefusal) -> Taken
    ensures { result ≡ taken_told (Err refusal) }
{
    match refusal {
        GetRefusal::NoSuchChunk => Taken::NoSuchChunk,
        GetRefusal::Stale => Taken::Stale,
        GetRefusal::RefsFull => Taken::RefsFull,
        GetRefusal::Busy => Taken::Busy,
    }
}

/// Puts a hold into a place. Where that has one already, this one is given back by the words that it reads.
#[inline(always)]
pub fn put_hold<N: Name>(free: &mut Option<Hold<N>>, hold: Hold<N>, heads: &ReaderHeads<N>)
    ensures { free.new ≡ Some hold }
{
    if let Some(old) = std::mem::replace(free, Some(hold)) {
        old.release(heads);
    }
}

// Copies the further words of an item that is held, from this one on, as many as there is room for.
fn copy<N: Name>(hold: &mut Hold<N>, heads: &ReaderHeads<N>, first: u32, words: &mut [u64])
    ensures same { hold.new ≡ hold.old }
    ensures copies { CopiesWords hold.old.row first N.table.slots words.old words.new }
{
    let further = heads.further();
    if first >= further {
        return;
    }
    for index in first..further {
        let place = (index - first) as usize;
        if place >= words.len() {
            return;
        }
        words[place] = hold.word(heads, index);
    }
}

impl<N: Name> Reader<N> {
    /// A reader of the store with this number, by the words of its chunks, one of its workers, that worker's number,
    /// and a number of places, of which none has a hold; its lane has a clone of the token. It is refused only for want
    /// of memory, and the worker is gone then.
    pub fn new(
        alloc: Global,
        store: u64,
        number: u32,
        heads: Arc<Heads<N>, Global>,
        worker: Worker<N>,
        places: u32,
        token: Arc<(), Global>,
    ) -> Result<Reader<N>, AllocError>
        ensures { IfOk result (λ r. r ≡ record {
          store = store;
          number = number;
          config = arc_value heads;
          worker = worker;
          holds = replicate places None;
        }) }
    {
        Ok(Reader {
            store,
            number,
            heads,
            worker,
            holds: no_holds(alloc, places)?,
            token,
        })
    }

    /// The number of its store.
    pub fn store(&self) -> u64
        ensures { result ≡ self.now.store }
    {
        self.store
    }

    /// The number of its worker.
    pub fn number(&self) -> u32
        ensures { result ≡ self.now.number }
    {
        self.number
    }

    /// Takes a hold of an item, in a place that has none, as `Worker::get` does. It is refused with NoPlace, and
    /// nothing is changed, exactly where there is no such place, or it has a hold.
    #[inline(always)]
    pub fn get(&mut self, place: u32, id: ItemId) -> Taken
        ensures gets { ReaderGets place id self.old self.new result }
        ensures few { MakesAtMost 1 8 0 self.old.worker.sheet.steps self.new.worker.sheet.steps }
    {
        let Some(free) = self.holds.get_mut(place as usize) else {
            return Taken::NoPlace;
        };
        if free.is_some() {
            return Taken::NoPlace;
        }
        let hold = match self.worker.get(&self.heads, id) {
            Ok(hold) => hold,
            Err(refusal) => return refused_as(refusal),
        };
        put_hold(free, hold, &self.heads);
        Taken::Held
    }

    /// A hit of the item that is held in a place, as `Worker::touch` makes it. It answers None, and nothing is changed,
    /// exactly where no item is held there.
    #[inline(always)]
    pub fn touch(&mut self, place: u32, now: u64) -> Option<Touch>
        ensures touches { ReaderTouches place now self.old self.new result }
        ensures few { MakesAtMost 1 8 4 self.old.worker.sheet.steps self.new.worker.sheet.steps }
    {
        let Some(held) = self.holds.get_mut(place as usize) else {
            return None;
        };
        let Some(hold) = held else {
            return None;
        };
        Some(self.worker.touch(&self.heads, hold, now))
    }

    /// The label of the item that is held in a place, as `Hold::label` reads it. It answers None, and nothing is
    /// changed, exactly where no item is held there.
    #[inline(always)]
    pub fn label(&mut self, place: u32) -> Option<u64>
        ensures reads { ReaderReads place self.old self.new result }
    {
        let Some(held) = self.holds.get_mut(place as usize) else {
            return None;
        };
        let Some(hold) = held else {
            return None;
        };
        Some(hold.label(&self.heads))
    }

    /// The head of the item that is held in a place, as `Hold::head` reads it: its marks, its segment and its references.
    /// It answers None, and nothing is changed, exactly where no item is held there.
    #[inline(always)]
    pub fn head(&mut self, place: u32) -> Option<Head>
        ensures sees { ReaderSees place self.old self.new result }
    {
        let Some(held) = self.holds.get_mut(place as usize) else {
            return None;
        };
        let Some(hold) = held else {
            return None;
        };
        Some(hold.head(&self.heads))
    }

    /// The time of the item that is held in a place, by a load, beside one of its head. Of the time nothing is promised: it
    /// is what was stored last, by a touch, a link or a bump. It answers None where no item is held there.
    pub fn time(&mut self, place: u32) -> Option<u64>
        ensures same { self.new ≡ self.old }
        ensures some { IfSome result (λ time. HoldsOne place self.old) }
        ensures none { IfNone result (HoldsNothing place self.old ⊎ HoldsBehindAll place self.old) }
    {
        let Some(held) = self.holds.get_mut(place as usize) else {
            return None;
        };
        let Some(hold) = held else {
            return None;
        };
        let chunk = hold.life().chunk;
        if chunk >= self.heads.chunks() {
            return None;
        }
        let (_, time, _) = self.heads.see(chunk);
        Some(time)
    }

    /// The further words of the item that is held in a place, as `Hold::word` reads them, from `first` on: as many as
    /// there is room for; the rest of `words` stays. It answers how many each item has; or None, and nothing is changed,
    /// exactly where no item is held there.
    pub fn words(&mut self, place: u32, first: u32, words: &mut [u64]) -> Option<u32>
        ensures copies { ReaderCopies place first N.table.slots self.old self.new words.old words.new result }
    {
        let Some(held) = self.holds.get_mut(place as usize) else {
            return None;
        };
        let Some(hold) = held else {
            return None;
        };
        copy(hold, &self.heads, first, words);
        Some(self.heads.further())
    }

    /// Gives the hold in a place back, as `Hold::release` does. It answers false, and nothing is changed, exactly where
    /// no item is held there.
    #[inline(always)]
    pub fn release(&mut self, place: u32) -> bool
        ensures releases { ReaderReleases place self.old self.new result }
    {
        let Some(held) = self.holds.get_mut(place as usize) else {
            return false;
        };
        let Some(hold) = std::mem::replace(held, None) else {
            return false;
        };
        hold.release(&self.heads);
        true
    }

    /// A whole hit: a hold is taken, touched, its label read, and it is given back. It needs no place.
    #[inline(always)]
    pub fn hit(&mut self, id: ItemId, now: u64) -> Result<WholeHit, GetRefusal>
        ensures hits { ReaderHits id now self.old self.new result }
    {
        match self.worker.get(&self.heads, id) {
            Ok(mut hold) => {
                let touch = self.worker.touch(&self.heads, &mut hold, now);
                let label = hold.label(&self.heads);
                hold.release(&self.heads);
                Ok(WholeHit { touch, label })
            }
            Err(refusal) => Err(refusal),
        }
    }

    /// The worker's counts of bumps, as `Worker::counts` tells them.
    pub fn counts(&self) -> Accounts
        ensures counts { result ≡ self.now.worker.sheet.accounts }
        ensures add_up { IsAccounts result (length self.now.worker.sender.sent) hand.Idle }
        ensures attempts { result.attempted ≡ attempts_in self.now.worker.sheet.steps }
    {
        self.worker.counts()
    }

    /// Whether no place has a hold.
    pub fn holds_nothing(&self) -> bool
        ensures { result ≡ not (has_hold self.now.holds) }
    {
        for held in &self.holds {
            if held.is_some() {
                return false;
            }
        }
        true
    }

    /// The worker, once all holds are given back.
    pub fn into_worker(self) -> Worker<N>
        ensures { result ≡ self.worker }
    {
        let Reader {
            store: _,
            number: _,
            heads,
            worker,
            mut holds,
            token: _,
        } = self;
        while let Some(place) = holds.pop() {
            if let Some(hold) = place {
                hold.release(&heads);
            }
        }
        holds.destroy_empty();
        worker
    }
}

impl<N: Name> Drop for Reader<N> {
    fn drop(self) {
        drop(self.into_worker());
    }
}

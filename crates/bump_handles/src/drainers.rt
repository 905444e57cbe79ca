//! Lanes, each with the closed worker of its ring at the end.
ghost use Rattle.std.specs.Prelude.{◌≡◌, IfSome, IfNone, IsSome, None};
ghost use Rattle.std.specs.Option.{ForSome};
ghost use Rattle.bump_unlocked.specs.UnlockedStore.{IsBetweenStarts};
ghost use Rattle.bump_handles.specs.Draining.{why_not_closed};
ghost use Rattle.bump_handles.specs.Applying.{DrainerApplies, DrainerFrees, DrainerRests, HasNoClass, IsNotClosed, TellsClass, state_of_left};
ghost use Rattle.bump_handles.specs.Views.{DrainerView as TheDrainerView};

use crate::books::TaggedBook;
use crate::readers::Reader;
use bump_class::{RawLane, RunEnd};
use bump_heads::Name;
use bump_rules::Accounts;
use bump_unlocked::ClosedWorker;
use std::alloc::Global;
use std::marker::Model;
use std::sync::Arc;

/// Why a worker isn't closed.
#[derive(Clone, Copy)]
pub enum NotClosed {
    /// The lane is of another store.
    OtherStore,

    /// The lane is another worker's.
    OtherWorker,

    /// A place of the worker has a hold.
    HoldsOut,

    /// The lane has a closed worker already.
    Twice,
}

/// How far a lane is with its ring.
#[derive(Clone, Copy)]
pub enum RestState {
    /// Its worker is closed, and all that the ring accepted is applied.
    Settled,

    /// Its worker isn't closed.
    Open,

    /// Its worker is closed, and bumps are left.
    Left,

    /// Its worker is closed, and the ring can't show its end.
    Unseen,

    /// Its worker was given back without being closed, and never will be.
    Gone,
}

/// What is left of a lane's ring.
#[derive(Clone, Copy)]
pub struct Rested {
    /// How far the lane is.
    pub state: RestState,

    /// How many bumps are left, where it is Left; else 0.
    pub left: u64,

    /// The closed worker's counts; zeros where it is Open or Gone.
    pub counts: Accounts,

    /// How many bumps the lane ever applied.
    pub applied: u64,
}

/// The next bump is of another class than the Book.
#[derive(Clone, Copy)]
pub struct OtherClass;

// How far a lane is whose worker is closed, and whose ring has so many bumps left.
#[tactic(auto, using(crate::proofs::RestLemmas::left_is_left, crate::proofs::RestLemmas::none_is_settled,))]
fn state_of(left: u64) -> RestState
    ensures { result ≡ state_of_left left }
{
    if left > 0 {
        RestState::Left
    } else {
        RestState::Settled
    }
}

/// The lane of a worker's ring, and the worker once it is closed. One thread has it at a time.
#[derive(Drop)]
pub struct Drainer<N: Name> {
    store: u64,
    raw: RawLane<N>,
    closed: Option<ClosedWorker<N>>,
    starts: Vec<u32>,
    // Its worker has the other one, and gives it back with all that it has.
    token: Arc<(), Global>,
}

impl<N: Name> Model for Drainer<N> {
    ghost Value = { TheDrainerView };

    ghost view = { λ d. record { store = d.store; lane = d.raw; closed = d.closed; starts = d.starts.items } };

    ghost invariant = { λ d. ForSome d.closed (λ c. c.sender.ring ≡ d.raw.ring) };
}

impl<N: Name> Drainer<N> {
    /// A lane of the store with this number, whose classes have their chunks from these on, behind each of which comes
    /// the next one's, and at last the number of all chunks. Its worker isn't closed, and has a clone of the token.
    pub fn new(store: u64, raw: RawLane<N>, starts: Vec<u32>, token: Arc<(), Global>) -> Drainer<N>
        ensures { result ≡ record { store = store; lane = raw; closed = None; starts = starts.items } }
    {
        Drainer {
            store,
            raw,
            closed: None,
            starts,
            token,
        }
    }

    /// The number of its store.
    pub fn store(&self) -> u64
        ensures { result ≡ self.now.store }
    {
        self.store
    }

    // The class that has a chunk.
    fn class_of(&self, chunk: u32) -> Option<u32>
        ensures some { IfSome result (λ class. IsBetweenStarts chunk self.now.starts class) }
        ensures none { IfNone result (HasNoClass chunk self.now.starts) }
    {
        for class in 1..self.starts.len() {
            if self.starts[class - 1] <= chunk && chunk < self.starts[class] {
                return u32::try_from(class - 1).ok();
            }
        }
        None
    }

    /// The class of the next bump, whose Book is to apply it: that bump goes aboard, where none is, as
    /// `RawLane::fetch` does it. It answers None only where none is aboard or known, and nothing is changed then, or
    /// where no class has its chunk.
    pub fn next_class(&mut self) -> Option<u32>
        ensures { TellsClass self.old self.new result }
    {
        let bump = self.raw.fetch()?;
        self.class_of(bump.life.chunk)
    }

    /// Applies the next bumps as long as their chunks are the Book's, at most `limit`, as `Book::apply_run` does, and
    /// tells how many. They are fewer than `limit` only where then no bump is aboard or known, or the next is of another
    /// class. At a `limit` above 0 that is reached nothing is aboard. It answers OtherClass, and applies nothing, exactly
    /// where the next bump is of another class at once; it is aboard then.
    pub fn apply(
        &mut self,
        tagged: &mut TaggedBook<N>,
        now: u64,
        limit: u32,
    ) -> Result<u32, OtherClass>
        ensures applies { DrainerApplies now limit tagged.old self.old tagged.new self.new result }
    {
        let Some(bump) = self.raw.fetch() else {
            return Ok(0);
        };
        if !tagged.book.has_chunk(bump.life.chunk) {
            return Err(OtherClass);
        }
        if limit == 0 {
            return Ok(0);
        }
        Ok(tagged.book.apply_run(&mut self.raw, now, limit))
    }

    /// The same, as `Book::apply_run_into` does it: it tells in `freed` which chunks came free, in the order in which
    /// they did, and stops also where `freed` is full; an empty one is at once. The rest of `freed` stays.
    pub fn apply_into(
        &mut self,
        tagged: &mut TaggedBook<N>,
        now: u64,
        limit: u32,
        freed: &mut [u32],
    ) -> Result<RunEnd, OtherClass>
        ensures applies { DrainerFrees now limit tagged.old self.old freed.old tagged.new self.new freed.new result }
    {
        let none = RunEnd {
            applied: 0,
            freed: 0,
        };
        let Some(bump) = self.raw.fetch() else {
            return Ok(none);
        };
        if !tagged.book.has_chunk(bump.life.chunk) {
            return Err(OtherClass);
        }
        if limit == 0 || freed.is_empty() {
            return Ok(none);
        }
        Ok(tagged.book.apply_run_into(&mut self.raw, now, limit, freed))
    }

    /// Why this worker can't be closed with this lane, if it can't: the first reason that applies.
    pub fn why_not_closed(&self, reader: &Reader<N>) -> Option<NotClosed>
        ensures { result ≡ why_not_closed self.now reader.now }
    {
        if reader.store() != self.store {
            return Some(NotClosed::OtherStore);
        }
        if reader.number() != self.raw.worker() {
            return Some(NotClosed::OtherWorker);
        }
        if !reader.holds_nothing() {
            return Some(NotClosed::HoldsOut);
        }
        if self.closed.is_some() {
            return Some(NotClosed::Twice);
        }
        None
    }

    /// Closes the ring, of which this is the lane, by its worker, and keeps the closed worker: the ring accepts no bump
    /// any more. Where a place has a hold, it is given back.
    pub fn close(&mut self, reader: Reader<N>)
        requires ring { reader.worker.sender.ring ≡ self.old.lane.ring }
        ensures closed { IfSome self.new.closed (λ c. (c.sender.sent ≡ reader.worker.sender.sent)
            × (c.sheet ≡ reader.worker.sheet)) }
        ensures has { IsSome self.new.closed }
        ensures kept { self.new ≡ record self.old { closed = self.new.closed } }
    {
        self.closed = Some(reader.into_worker().close());
    }

    // How far it is while its worker isn't closed.
    fn open_state(&self) -> RestState
        ensures { IsNotClosed result }
    {
        if Arc::strong_count(&self.token) == 1 {
            return RestState::Gone;
        }
        RestState::Open
    }

    /// What is left of its ring, once that is closed. It answers Open or Gone exactly where its worker isn't closed:
    /// Gone where the worker was given back without that, which no proof sees; and Unseen exactly where it is closed and
    /// the ring can't show its end. Where it answers Settled, the lane has applied all that the ring accepted, once each
    /// and in order. It may be asked again.
    pub fn rest(&mut self) -> Rested
        ensures rests { DrainerRests self.old self.new result }
    {
        let applied = self.raw.applied();
        let open = self.open_state();
        let Some(closed) = &mut self.closed else {
            return Rested {
                state: open,
                left: 0,
                counts: Accounts::none(),
                applied,
            };
        };
        let counts = closed.counts();
        let Some(left) = closed.rest(&mut self.raw) else {
            return Rested {
                state: RestState::Unseen,
                left: 0,
                counts,
                applied,
            };
        };
        Rested {
            state: state_of(left),
            left,
            counts,
            applied,
        }
    }
}

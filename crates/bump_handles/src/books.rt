//! Books with the number of their store.
ghost use Rattle.std.specs.Prelude.{◌≡◌, length};
ghost use Rattle.bump_rules.specs.declared.places.Start.TheVariants as start;
ghost use Rattle.bump_rules.specs.Lists.{list_at};
ghost use Rattle.bump_handles.specs.Booking.{AreMovesOfWorker, BookLinks, BookPulls, BookSweeps, BookSweepsInto, BookUnlinks, ReadsLabel, limits_asked};
ghost use Rattle.bump_class.specs.Pulls.{PullsBy};
ghost use Rattle.bump_handles.specs.Views.{TaggedBookView as TheTaggedBookView};

use bump_class::{Book, LinkRefusal, UnlinkRefusal};
use bump_heads::Name;
use bump_rules::{Ended, ItemId, Place, Pulled, Tail};
use std::marker::Model;

/// The Book of a class with the number of its store. Its calls are the Book's: whoever has the class's lock makes them.
#[derive(Drop)]
pub struct TaggedBook<N: Name> {
    store: u64,
    pub(crate) book: Book<N>,
}

impl<N: Name> Model for TaggedBook<N> {
    ghost Value = { TheTaggedBookView };

    ghost view = { λ b. record { store = b.store; book = b.book } };
}

impl<N: Name> TaggedBook<N> {
    /// A Book of the store with this number.
    pub fn new(store: u64, book: Book<N>) -> TaggedBook<N>
        ensures { result ≡ record { store = store; book = book } }
    {
        TaggedBook { store, book }
    }

    /// The number of its store.
    pub fn store(&self) -> u64
        ensures { result ≡ self.now.store }
    {
        self.store
    }

    /// As `Book::link`.
    pub fn link(&mut self, label: u64, now: u64) -> Result<ItemId, LinkRefusal>
        ensures links { BookLinks start.Hot label now self.old self.new result }
    {
        self.book.link(label, now)
    }

    /// As `Book::link_temp`.
    pub fn link_temp(&mut self, label: u64, now: u64) -> Result<ItemId, LinkRefusal>
        ensures links { BookLinks start.Temp label now self.old self.new result }
    {
        self.book.link_temp(label, now)
    }

    // The label of a chunk of the class, by one load; 0, and no load, where the class has no such chunk.
    fn label_of(&mut self, chunk: u32) -> u64
        ensures reads { ReadsLabel chunk self.old.book self.new.book result }
        ensures store { self.new.store ≡ self.old.store }
    {
        if !self.book.has_chunk(chunk) {
            return 0;
        }
        self.book.label(chunk)
    }

    /// As `Book::unlink`, and it tells the label that the item had, by a load more.
    pub fn unlink(&mut self, id: ItemId) -> Result<(Ended, u64), UnlinkRefusal>
        ensures unlinks { BookUnlinks id self.old self.new result }
    {
        match self.book.unlink(id) {
            Ok(ended) => Ok((ended, self.label_of(id.chunk))),
            Err(refusal) => Err(refusal),
        }
    }

    // The pull itself.
    fn pull_by(&mut self, tail: Tail, limit: Option<u32>) -> Pulled
        ensures pulls { PullsBy (limits_asked limit self.old.book) self.old.book tail result self.new.book }
        ensures store { self.new.store ≡ self.old.store }
    {
        match limit {
            Some(limit) => self.book.pull_past(tail, limit),
            None => self.book.pull(tail),
        }
    }

    /// As `Book::pull_past` by a limit, or as `Book::pull` where none is given; and it tells the label of the item, by a
    /// load more, or 0 where there was none.
    pub fn pull(&mut self, tail: Tail, limit: Option<u32>) -> (Pulled, u64)
        ensures pulls { BookPulls tail limit self.old self.new result.0 result.1 }
    {
        let pulled = self.pull_by(tail, limit);
        match pulled.item() {
            Some(item) => (pulled, self.label_of(item.chunk)),
            None => (pulled, 0),
        }
    }

    /// As `Book::sweep`.
    pub fn sweep(&mut self) -> u32
        ensures sweeps { BookSweeps self.old self.new result }
    {
        self.book.sweep()
    }

    /// As `Book::sweep_into`.
    pub fn sweep_into(&mut self, freed: &mut [u32]) -> u32
        ensures sweeps { BookSweepsInto self.old freed.old self.new freed.new result }
    {
        self.book.sweep_into(freed)
    }

    /// As `Book::size`.
    pub fn size(&self, place: Place) -> u32
        ensures { result ≡ length (list_at self.now.book.lists place) }
    {
        self.book.size(place)
    }

    /// As `Book::limits`.
    pub fn limits(&self) -> (u32, u32)
        ensures { result ≡ (self.now.book.hot_limit, self.now.book.warm_limit) }
    {
        self.book.limits()
    }

    /// As `Book::moves`; or None exactly where there is no such worker.
    pub fn moves(&self, worker: u32) -> Option<u64>
        ensures { AreMovesOfWorker worker self.now result }
    {
        if worker >= self.book.workers() {
            return None;
        }
        Some(self.book.moves(worker))
    }
}

//! Looks at the items of a list: one by one from its end, or as many chunks as there is room for.
ghost use Rattle.std.specs.Prelude.{◌≡◌, IfSome, true};
ghost use Rattle.bump_rules.specs.Lists.{list_at};
ghost use Rattle.bump_steps.specs.Views.{owns};
ghost use Rattle.bump_heads.specs.Linking.{place_of_chunk};
ghost use Rattle.bump_handles.specs.Looking.{BookLooks, BookSees, BookWalks, IsFirst, IsTarget, SeesAll, StandsThere, WalksOn};

use crate::books::TaggedBook;
use bump_heads::Name;
use bump_rules::{Head, Place};

/// A chunk and what three loads found of it.
#[derive(Clone, Copy)]
pub struct Sight {
    /// The chunk.
    pub chunk: u32,

    /// What its word says.
    pub head: Head,

    /// Its time.
    pub time: u64,

    /// Its label.
    pub label: u64,
}

/// How far a walk of a list came.
#[derive(Clone, Copy)]
pub struct Walked {
    /// How many chunks were told.
    pub count: u32,

    /// The chunk behind them, if there is one.
    pub next: Option<u32>,
}

/// The chunk from which one is to go on doesn't stand in the list.
#[derive(Clone, Copy)]
pub struct NotThere;

impl<N: Name> TaggedBook<N> {
    // Whether the class has a chunk, and it stands in a list.
    fn stands(&self, chunk: u32, place: Place) -> bool
        ensures there { StandsThere chunk place self.now result }
        ensures own { result ≡ true → owns chunk self.now.book.sheet ≡ true }
        ensures stands { result ≡ true → place_of_chunk self.now.book.sheet chunk ≡ place }
    {
        self.book.promise();
        self.book.has_chunk(chunk) && self.book.stands_in(chunk, place)
    }

    // The chunk to look at.
    fn target(&self, place: Place, behind: Option<u32>) -> Result<Option<u32>, NotThere>
        ensures { IsTarget place behind self.now result }
    {
        let Some(chunk) = behind else {
            return Ok(self.book.last(place));
        };
        if !self.stands(chunk, place) {
            return Err(NotThere);
        }
        Ok(self.book.before(chunk, place))
    }

    // The head, the time and the label of a chunk of the class, by three loads.
    fn sight_of(&mut self, chunk: u32) -> Sight
        requires own { owns chunk self.old.book.sheet ≡ true }
        ensures chunk { result.chunk ≡ chunk }
        ensures sees { SeesAll self.old self.new result }
        ensures store { self.new.store ≡ self.old.store }
    {
        let (head, time) = self.book.see(chunk);
        let label = self.book.label(chunk);
        Sight {
            chunk,
            head,
            time,
            label,
        }
    }

    /// The head, the time and the label of a chunk, by three loads, between which other threads may change head and time;
    /// or None, and nothing is changed, exactly where the class has no such chunk.
    pub fn see(&mut self, chunk: u32) -> Option<Sight>
        ensures sees { BookSees chunk self.old self.new result }
    {
        if !self.book.has_chunk(chunk) {
            return None;
        }
        Some(self.sight_of(chunk))
    }

    /// Looks in this way at the last chunk of a list, or at the one before a chunk of it. Nothing is moved. It answers
    /// None, and nothing is changed, where there is no such chunk; and NotThere, and nothing is changed, exactly where the
    /// given chunk doesn't stand in the list.
    pub fn look(&mut self, place: Place, behind: Option<u32>) -> Result<Option<Sight>, NotThere>
        ensures looks { BookLooks place behind self.old self.new result }
    {
        match self.target(place, behind) {
            Ok(Some(chunk)) => Ok(Some(self.sight_of(chunk))),
            Ok(None) => Ok(None),
            Err(NotThere) => Err(NotThere),
        }
    }

    /// Puts the chunks of a list into `chunks`, front first, from this one on, or from the front where none is given: as
    /// many as there is room for; the rest of `chunks` stays. It needs no memory, and makes no step. It answers
    /// NotThere, and nothing is changed, exactly where the given chunk doesn't stand in the list.
    pub fn walk(
        &self,
        place: Place,
        from: Option<u32>,
        chunks: &mut [u32],
    ) -> Result<Walked, NotThere>
        ensures walks { BookWalks place from self.now chunks.old chunks.new result }
    {
        match self.first_from(place, from) {
            Ok(first) => Ok(self.walk_on(place, first, chunks)),
            Err(NotThere) => Err(NotThere),
        }
    }

    // The chunk from which a walk begins.
    fn first_from(&self, place: Place, from: Option<u32>) -> Result<Option<u32>, NotThere>
        ensures { IsFirst place from self.now result }
    {
        let Some(chunk) = from else {
            return Ok(self.book.first(place));
        };
        if !self.stands(chunk, place) {
            return Err(NotThere);
        }
        Ok(Some(chunk))
    }

    // The same, from the chunk at hand on, which stands in the list.
    fn walk_on(&self, place: Place, first: Option<u32>, chunks: &mut [u32]) -> Walked
        requires stands { IfSome first (λ c. (owns c self.now.book.sheet ≡ true)
            × (place_of_chunk self.now.book.sheet c ≡ place)) }
        ensures walks { WalksOn (list_at self.now.book.lists place) first chunks.old chunks.new result }
    {
        let mut next = first;
        for count in 0..self.size(place) {
            let Some(chunk) = next else {
                return Walked { count, next };
            };
            if count as usize >= chunks.len() {
                return Walked { count, next };
            }
            chunks[count as usize] = chunk;
            next = self.book.after(chunk, place);
        }
        Walked {
            count: self.size(place),
            next,
        }
    }
}

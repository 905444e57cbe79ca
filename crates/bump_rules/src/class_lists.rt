//! The seven lists of a class, over links: a move to the front takes a few stores, and no memory.
ghost use Rattle.std.specs.Prelude.{◌≡◌, ◌<◌, ◌≤◌, ◌+◌, ◌^◌, nat_lt, IfOk, IfSome, length, option_map};
ghost use Rattle.bump_links.specs.Lists.{times, first_of, last_of, next_of, previous_of};
ghost use Rattle.bump_rules.specs.Lists.{list_at, to_front, opening, IsListed};

mod walk;

use crate::configs::WIDE_CHUNKS;
use crate::places::Place;
use bump_links::Links;
use std::alloc::{AllocError, Global};
use std::marker::Model;
pub use walk::ListedChunks;

/// How many lists a class has.
const LISTS: u32 = 7;

/// The seven lists of a class, front first. Its chunks are numbered from a first one on, and each of them stands in
/// exactly one of the lists at every moment.
#[derive(Drop)]
pub struct ClassLists {
    // A node is a chunk, counted from the first one of the class, and a list has the number of its place.
    links: Links,
    first: u32,
}

impl Model for ClassLists {
    ghost use Rattle.bump_rules.specs.Lists.{Lists};
    ghost use Rattle.bump_rules.specs.ClassLists.{lists_from, AreSixLists};

    ghost Value = { Lists };

    ghost view = { λ a. lists_from a.first a.links };

    ghost invariant = { λ a. AreSixLists a.first a.links };
}

// The chunk of a node.
fn chunk_at(first: u32, node: Option<u32>) -> Option<u32>
    requires { IfSome node (λ n. first + n < 2 ^ 32) }
    ensures { result ≡ option_map (λ n. first + n) node }
{
    match node {
        Some(node) => Some(first + node),
        None => None,
    }
}

impl ClassLists {
    /// Lists of so many chunks, from `first` on: all stand in UNUSED, ascending. `count` is 1 to `WIDE_CHUNKS`, and the
    /// chunk behind the last one has a number too. It is refused only for want of memory.
    pub fn new(alloc: Global, first: u32, count: u32) -> Result<ClassLists, AllocError>
        requires some { 1 ≤ count }
        requires few { count ≤ WIDE_CHUNKS }
        requires numbered { first + count < 2 ^ 32 }
        ensures { IfOk result (λ made. made ≡ opening first count) }
    {
        let links = Links::new(alloc, count, LISTS, Place::Unused.number())?;
        Ok(ClassLists { links, first })
    }

    /// Moves a chunk to the front of the list at a place, out of the list that has it, which may be the same. All other
    /// chunks stay where they are. The chunk is one of the class.
    pub fn to_front(&mut self, chunk: u32, place: Place)
        requires { IsListed chunk self.old }
        ensures { self.new ≡ to_front chunk place self.old }
    {
        self.links.move_front(chunk - self.first, place.number());
    }

    /// The first chunk of the list at a place, or `None` where it is empty.
    pub fn front(&self, place: Place) -> Option<u32>
        ensures { result ≡ first_of (list_at self.now place) }
    {
        chunk_at(self.first, self.links.front(place.number()))
    }

    /// The last chunk of the list at a place, or `None` where it is empty.
    pub fn back(&self, place: Place) -> Option<u32>
        ensures { result ≡ last_of (list_at self.now place) }
    {
        chunk_at(self.first, self.links.back(place.number()))
    }

    /// How many chunks the list at a place has.
    pub fn len(&self, place: Place) -> u32
        ensures { result ≡ length (list_at self.now place) }
    {
        self.links.len(place.number())
    }

    /// Whether a chunk stands in the list at a place. The chunk is one of the class.
    pub fn has(&self, chunk: u32, place: Place) -> bool
        requires { IsListed chunk self.now }
        ensures { result ≡ nat_lt 0 (times chunk (list_at self.now place)) }
    {
        self.links.list_of(chunk - self.first) == place.number()
    }

    /// The chunk that follows a chunk of the list at a place, or `None` behind the last.
    pub fn after(&self, chunk: u32, place: Place) -> Option<u32>
        requires { 0 < times chunk (list_at self.now place) }
        ensures next { result ≡ next_of chunk (list_at self.now place) }
        ensures once { times chunk (list_at self.now place) ≡ 1 }
    {
        chunk_at(self.first, self.links.after(chunk - self.first))
    }

    /// The chunk before a chunk of the list at a place, or `None` where it is the first.
    pub fn before(&self, chunk: u32, place: Place) -> Option<u32>
        requires { 0 < times chunk (list_at self.now place) }
        ensures { result ≡ previous_of chunk (list_at self.now place) }
    {
        chunk_at(self.first, self.links.before(chunk - self.first))
    }

    /// The chunks of the list at a place, front first.
    pub fn chunks(&self, place: Place) -> ListedChunks<'_>
        ensures { result ≡ list_at self.now place }
    {
        ListedChunks::new(self, place)
    }
}

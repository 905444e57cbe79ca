//! A walk through a list of a class, front first, without memory.
ghost use Rattle.std.specs.Prelude.{◌≡◌, length};
ghost use Rattle.std.specs.Iterator.{YieldsFirst, item_count};
ghost use Rattle.bump_rules.specs.Lists.{list_at};

use super::ClassLists;
use crate::places::Place;
use std::iter::ExactSizeIterator;
use std::marker::Model;

/// The chunks of a list that are still to come, front first. It takes no memory, and a step of it takes constant time.
#[derive(Drop)]
pub struct ListedChunks<'a> {
    lists: &'a ClassLists,
    place: Place,
    next: Option<u32>,
    left: u32,
}

impl<'a> Model for ListedChunks<'a> {
    ghost use Rattle.std.specs.Prelude.{ℕ, List};
    ghost use Rattle.bump_rules.specs.Lists.{list_at};
    ghost use Rattle.bump_rules.specs.ClassLists.{last_part, IsAmid};

    ghost Value = { List ℕ };

    ghost view = { λ a. last_part a.left (list_at a.lists.now a.place) };

    ghost invariant = { λ a. IsAmid (list_at a.lists.now a.place) a.left a.next };
}

impl<'a> ListedChunks<'a> {
    /// All chunks of the list at a place.
    pub(crate) fn new(lists: &'a ClassLists, place: Place) -> Self
        ensures { result ≡ list_at lists.now place }
    {
        ListedChunks {
            lists,
            place,
            next: lists.front(place),
            left: lists.len(place),
        }
    }
}

impl<'a> Iterator for ListedChunks<'a> {
    type Item = u32;

    ghost next_gives = { YieldsFirst (λ s. s) };

    ghost remaining = { item_count (λ s. s) };

    fn next(&mut self) -> Option<u32> {
        let chunk = self.next?;
        self.next = self.lists.after(chunk, self.place);
        self.left -= 1;
        Some(chunk)
    }

    fn size_hint(&self) -> (usize, Option<usize>) {
        let left = self.left as usize;
        (left, Some(left))
    }
}

impl<'a> ExactSizeIterator for ListedChunks<'a> {
    fn len(&self) -> usize {
        self.left as usize
    }
}

//! The items of a part of byte strings are visited, under its lock.
ghost use Rattle.std.specs.Prelude.{◌≡◌};
ghost use Rattle.cache_handles.specs.Visiting.{TellsEntry, entry_key_words, entry_value_words};

use crate::parts::BytePart;
use crate::values::{TOLD_WORDS, ValueTold};
use bump_heads::Name;

/// What is told of an item that is visited, beside its bytes.
#[derive(Clone, Copy)]
pub struct EntryTold {
    /// How many bytes its key has.
    pub key_length: u64,

    /// The flags and the length of its value.
    pub value: ValueTold,

    /// When it expires, in the caller's ticks; 0 is never.
    pub expires: u64,
}

impl<N: Name> BytePart<N> {
    /// The item of the part's chunk with this number, where it has one that hasn't expired at `now`, in the caller's
    /// ticks: chunks are numbered from 0 up to `chunks`. The bytes of its key and of its value are told by `entry_key` and
    /// `entry_value`. The item isn't touched. Nothing changes but what the class's seat notes of its loads, and what was
    /// visited last.
    pub fn entry(&mut self, number: u32, now: u64) -> Option<EntryTold>
        ensures { TellsEntry number now self.old self.new result }
    {
        if number >= self.chunks() {
            return None;
        }
        if !self.desk.visit(number, now) {
            return None;
        }
        Some(self.desk.visited())
    }

    /// Eight words of the bytes of the key of what was visited last, from the word with this number on: eight bytes a
    /// word, the lowest first, and 0 behind the last word that a key has. They are told as they were then, until a call
    /// puts or visits. Nothing changes.
    pub fn entry_key(&self, from: u32) -> [u64; TOLD_WORDS]
        ensures { result ≡ entry_key_words self.now from }
    {
        self.desk.visited_key(from)
    }

    /// And of those of its value.
    pub fn entry_value(&self, from: u32) -> [u64; TOLD_WORDS]
        ensures { result ≡ entry_value_words self.now from }
    {
        self.desk.visited_value(from)
    }
}

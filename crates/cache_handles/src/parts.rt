//! A part of a cache of byte strings: what one lock of the caller's guards.
ghost use Rattle.std.specs.Prelude.{◌≡◌, ℕ, List, ◌+◌, ◌≤◌, IfOk, suc, replicate};
ghost use Rattle.bump_steps.specs.Views.{last_word};
ghost use Rattle.packed_words.specs.Spelling.{words_for};
ghost use Rattle.cache_config.specs.Choosing.{IsPartCount};
ghost use Rattle.cache_part.specs.Expiring.{KeepsUnexpired, LooksInTurn};
ghost use Rattle.cache_part.specs.Parts.{IsUnknown};
ghost use Rattle.cache_part.specs.Stats.{stats_of};
ghost use Rattle.cache_shelf.specs.Entries.{AllUnexpiredKept};
ghost use Rattle.cache_shelf.specs.Shelves.{with_ended, with_tended};
ghost use Rattle.cache_shelf.specs.Turns.{TendsShelf};
ghost use Rattle.cache_handles.specs.Configs.{most_key_bytes, most_value_bytes};
ghost use Rattle.cache_handles.specs.Views.{BytePartView as TheBytePartView};

use crate::desks::Desk;
use crate::keys::PartPlace;
use bump_heads::Name;
use bump_steps::AnyRow;
use cache_shelf::{Shelf, Stats};
use keyed_hash::Seed;
use std::alloc::{AllocError, Global};
use std::marker::Model;

/// A part of a cache of byte strings, with room for what a call packs and unpacks: so a call asks for no memory. Each
/// call with it is made under one lock, which is the caller's.
#[derive(Drop)]
pub struct BytePart<N: Name> {
    pub(crate) desk: Desk<N>,
}

impl<N: Name> Model for BytePart<N> {
    ghost Value = { TheBytePartView };

    ghost view = { λ p. record {
      shelf = p.desk.shelf;
      place = p.desk.place;
      key_bytes = p.desk.key_bytes;
      value_bytes = p.desk.value_bytes;
      found = p.desk.had;
      entry = p.desk.entry;
    } };
}

impl<N: Name> BytePart<N> {
    /// A part of this shelf, of which it is told which of how many parts it is, the seed of its keys' hashes, and how
    /// many bytes a key and a value have at most: their words are as many as those need. It is refused only for want of
    /// memory.
    pub(crate) fn new(
        alloc: Global,
        shelf: Shelf<N, AnyRow>,
        seed: Seed,
        place: PartPlace,
        key_bytes: u32,
        value_bytes: u32,
    ) -> Result<BytePart<N>, AllocError>
        requires key { key_bytes ≤ most_key_bytes }
        requires value { value_bytes ≤ most_value_bytes }
        requires key_words { shelf.part.key_words ≡ words_for key_bytes }
        requires value_words { shelf.part.value_words ≡ suc (words_for value_bytes) }
        requires seed { seed ≡ shelf.part.seed }
        requires parts { IsPartCount place.parts }
        ensures { IfOk result (λ part. part ≡ record {
          shelf = shelf;
          place = place;
          key_bytes = key_bytes;
          value_bytes = value_bytes;
          found = replicate (suc (suc (words_for value_bytes))) 0;
          entry = replicate (suc (words_for key_bytes + suc (words_for value_bytes))) 0;
        }) }
    {
        Ok(BytePart {
            desk: Desk::new(alloc, shelf, seed, place, key_bytes, value_bytes)?,
        })
    }

    /// Tends the part, as `Shelf::tend` does.
    pub fn tend(&mut self, now: u64)
        ensures tends { TendsShelf now self.old.shelf self.new.shelf }
        ensures looked { LooksInTurn self.old.shelf.limits.looks now self.old.shelf.part self.new.shelf.part }
        ensures unexpired { KeepsUnexpired now self.old.shelf.part.book self.new.shelf.part.book }
        ensures kept { AllUnexpiredKept now self.old.shelf.part self.new.shelf.part }
        ensures same { self.new.shelf ≡ with_tended self.new.shelf self.old.shelf }
        ensures rest { self.new ≡ record self.old { shelf = self.new.shelf } }
    {
        self.desk.shelf.tend(now);
    }

    /// Ends each item, as `Shelf::clear` does.
    pub fn clear(&mut self)
        ensures empty { (key : List ℕ) → IsUnknown key self.new.shelf.part }
        ensures words { (i c : ℕ) → last_word i self.new.shelf.part.book.sheet c
            ≡ last_word i self.old.shelf.part.book.sheet c }
        ensures same { self.new.shelf ≡ with_ended self.new.shelf self.old.shelf }
        ensures rest { self.new ≡ record self.old { shelf = self.new.shelf } }
    {
        self.desk.shelf.clear();
    }

    /// The statistics of the part, as `Shelf::stats` tells them.
    pub fn stats(&self) -> Stats
        ensures { result ≡ stats_of self.now.shelf.part }
    {
        self.desk.shelf.stats()
    }

    /// How many chunks the part has.
    pub fn chunks(&self) -> u32
        ensures { result ≡ self.now.shelf.part.book.sheet.count }
    {
        let chunks = self.desk.shelf.chunks();
        chunks.end - chunks.start
    }
}

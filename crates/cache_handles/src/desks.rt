//! A shelf, and room for what a call packs and unpacks.
ghost use Rattle.std.specs.Prelude.{◌≡◌, ◌+◌, ◌-◌, ◌++◌, ◌<◌, ◌≤◌, IfOk, IfSome, IfNone, None, true, false, suc, length, take, drop, slice_index};
ghost use Rattle.packed_words.specs.Spelling.{long_string, words_for};
ghost use Rattle.cache_config.specs.Choosing.{IsPartCount};
ghost use Rattle.cache_part.specs.Putting.{row_at};
ghost use Rattle.cache_part.specs.Visiting.{has_unexpired};
ghost use Rattle.cache_shelf.specs.Entries.{ReadsShelf};
ghost use Rattle.cache_shelf.specs.Shelves.{with_put};
ghost use Rattle.bump_cache.specs.Putting.{HadValue};
ghost use Rattle.cache_handles.specs.Configs.{most_key_bytes, most_value_bytes};
ghost use Rattle.cache_handles.specs.Looking.{HadWords, RemovesKey};
ghost use Rattle.cache_handles.specs.Putting.{Puts};
ghost use Rattle.cache_handles.specs.Rows.{TellsValue, eight_words, value_row};
ghost use Rattle.cache_handles.specs.Views.{key_fault};
ghost use Rattle.cache_handles.specs.Desks.{new_desk};
ghost use Rattle.cache_handles.specs.Visiting.{IsEntry};

use crate::keys::{KeyFault, PartPlace, spell_key};
use crate::putting::PutTold;
use crate::values::{TOLD_WORDS, ValueTold, eight_from, flags_in, spell_value};
use crate::visiting::EntryTold;
use bump_heads::Name;
use bump_rules::has_expired;
use bump_steps::AnyRow;
use cache_shelf::Shelf;
use keyed_hash::Seed;
use packed_words::words_for;
use std::alloc::{AllocError, Global};
use std::marker::Model;

// A shelf, which part it is of and how long its keys and values may be, the words of the key that is asked for, and what
// was found under it.
#[derive(Drop)]
pub(crate) struct Desk<N: Name> {
    pub(crate) shelf: Shelf<N, AnyRow>,
    // of the keys' hashes, by which a part takes its own ones
    seed: Seed,
    place: PartPlace,
    key_bytes: u32,
    value_bytes: u32,
    // the words of the key that is asked for
    key: Vec<u64>,
    // when the item that the key has expires, and its value
    had: Vec<u64>,
    // the row of the item that is put
    row: Vec<u64>,
    // when an item expires that is evicted or visited, and its row
    entry: Vec<u64>,
}

impl<N: Name> Model for Desk<N> {
    ghost use Rattle.std.specs.Prelude.{◌≡◌, ◌+◌, ◌≤◌, suc, length};
    ghost use Rattle.packed_words.specs.Spelling.{words_for};
    ghost use Rattle.cache_config.specs.Choosing.{IsPartCount};
    ghost use Rattle.cache_handles.specs.Configs.{most_key_bytes, most_value_bytes};
    ghost use Rattle.cache_handles.specs.Desks.{DeskView as TheDeskView};

    ghost Value = { TheDeskView };

    ghost view = { λ d. record {
      shelf = d.shelf;
      place = d.place;
      key_bytes = d.key_bytes;
      value_bytes = d.value_bytes;
      key = d.key.items;
      had = d.had.items;
      entry = d.entry.items;
    } };

    ghost invariant = { λ d. (d.key_bytes ≤ most_key_bytes) × (d.value_bytes ≤ most_value_bytes)
        × (d.shelf.part.key_words ≡ words_for d.key_bytes)
        × (d.shelf.part.value_words ≡ suc (words_for d.value_bytes)) × IsPartCount d.place.parts
        × (d.seed ≡ d.shelf.part.seed) × (length d.key.items ≡ d.shelf.part.key_words)
        × (length d.had.items ≡ suc d.shelf.part.value_words)
        × (length d.row.items ≡ d.shelf.part.key_words + d.shelf.part.value_words)
        × (length d.entry.items ≡ suc (d.shelf.part.key_words + d.shelf.part.value_words)) };
}

// Writes the row of a key, which is given in words, and of a value.
fn fill_row(key: &[u64], value: &[u8], flags: u32, row: &mut [u64])
    requires room { length key.now + suc (words_for (length value.now)) ≤ length row.old }
    ensures row { row.new ≡ key.now ++ value_row (length row.old - length key.now) flags value.now }
    ensures length { length row.new ≡ length row.old }
{
    let key_words = key.len();
    row[..key_words].copy_from_slice(key);
    spell_value(value, flags, &mut row[key_words..]);
}

// Writes the row of a key and of a value, both in words.
fn join_row(key: &[u64], value: &[u64], row: &mut [u64])
    requires room { length key.now + length value.now ≡ length row.old }
    ensures row { row.new ≡ key.now ++ value.now }
    ensures length { length row.new ≡ length row.old }
{
    let key_words = key.len();
    row[..key_words].copy_from_slice(key);
    row[key_words..].copy_from_slice(value);
}

// Puts a row, and tells in both cases whether an item was evicted.
fn put_row<N: Name>(
    shelf: &mut Shelf<N, AnyRow>,
    row: &[u64],
    expires: u64,
    had: &mut [u64],
    evicted: &mut [u64],
    now: u64,
) -> PutTold
    requires row { length row.now ≡ shelf.old.part.key_words + shelf.old.part.value_words }
    requires had { length had.old ≡ suc shelf.old.part.value_words }
    requires evicted { length evicted.old ≡ suc (shelf.old.part.key_words + shelf.old.part.value_words) }
    ensures puts { Puts (take shelf.old.part.key_words row.now) (drop shelf.old.part.key_words row.now) expires now
        shelf.old shelf.new result }
    ensures same { shelf.new ≡ with_put shelf.new shelf.old }
    ensures lengths { (length had.new ≡ length had.old) × (length evicted.new ≡ length evicted.old) }
{
    match shelf.put(row, expires, false, had, evicted, now) {
        Ok(did) => PutTold::Done {
            evicted: did.evicted.is_some(),
        },
        Err(why) => PutTold::NoRoom {
            evicted: why.evicted.is_some(),
        },
    }
}

// Reads what a key has that hasn't expired: the time at which it does, and then the words of its value; and tells whether
// there is something.
fn find_words<N: Name>(shelf: &mut Shelf<N, AnyRow>, key: &[u64], had: &mut [u64], now: u64) -> bool
    requires key { length key.now ≡ shelf.old.part.key_words }
    requires had { length had.old ≡ suc shelf.old.part.value_words }
    ensures some { result ≡ true → HadWords key.now now had.new shelf.old.part }
    ensures none { result ≡ false → HadValue key.now None now shelf.old.part }
    ensures reads { ReadsShelf shelf.old shelf.new }
    ensures length { length had.new ≡ length had.old }
{
    shelf.promise();
    match shelf.look(key, had) {
        Some(_) => !has_expired(had[0], now),
        None => false,
    }
}

// Ends the item of a key, and tells whether it had something that hadn't expired.
fn remove_words<N: Name>(
    shelf: &mut Shelf<N, AnyRow>,
    key: &[u64],
    had: &mut [u64],
    now: u64,
) -> bool
    requires key { length key.now ≡ shelf.old.part.key_words }
    requires had { length had.old ≡ suc shelf.old.part.value_words }
    ensures removes { RemovesKey key.now now result shelf.old shelf.new }
    ensures length { length had.new ≡ length had.old }
{
    shelf.promise();
    match shelf.remove(key, had) {
        Some(_) => !has_expired(had[0], now),
        None => false,
    }
}

impl<N: Name> Desk<N> {
    // A desk of this shelf, whose keys and values have as many words as so many bytes need.
    pub(crate) fn new(
        alloc: Global,
        shelf: Shelf<N, AnyRow>,
        seed: Seed,
        place: PartPlace,
        key_bytes: u32,
        value_bytes: u32,
    ) -> Result<Desk<N>, AllocError>
        requires key { key_bytes ≤ most_key_bytes }
        requires value { value_bytes ≤ most_value_bytes }
        requires key_words { shelf.part.key_words ≡ words_for key_bytes }
        requires value_words { shelf.part.value_words ≡ suc (words_for value_bytes) }
        requires seed { seed ≡ shelf.part.seed }
        requires parts { IsPartCount place.parts }
        ensures { IfOk result (λ desk. desk ≡ new_desk shelf place key_bytes value_bytes) }
    {
        let key_words = words_for(key_bytes) as usize;
        let value_words = words_for(value_bytes) as usize + 1;
        Ok(Desk {
            shelf,
            seed,
            place,
            key_bytes,
            value_bytes,
            key: vec![in alloc; 0; key_words]?,
            had: vec![in alloc; 0; 1 + value_words]?,
            row: vec![in alloc; 0; key_words + value_words]?,
            entry: vec![in alloc; 0; 1 + key_words + value_words]?,
        })
    }

    // Takes the words of a key, or tells why it isn't one of the part.
    pub(crate) fn take_key(&mut self, key: &[u8]) -> Option<KeyFault>
        ensures told { result ≡ key_fault self.old.key_bytes self.old.shelf.part.seed self.old.place
            self.old.shelf.part.key_words key.now }
        ensures spelled { IfNone result (self.new.key ≡ long_string self.old.shelf.part.key_words key.now) }
        ensures rest { self.new ≡ record self.old { key = self.new.key } }
    {
        let most = self.key_bytes;
        spell_key(key, most, self.seed, self.place, &mut self.key)
    }

    // Whether a value of so many bytes is too long.
    pub(crate) fn is_too_long(&self, value_length: usize) -> bool
        ensures too_long { result ≡ true → self.now.value_bytes < value_length }
        ensures fits { result ≡ false → value_length ≤ self.now.value_bytes }
    {
        value_length > self.value_bytes as usize
    }

    // Finds what the key has that hasn't expired, and tells whether there is something.
    pub(crate) fn find(&mut self, now: u64) -> bool
        ensures some { result ≡ true → HadWords self.old.key now self.new.had self.old.shelf.part }
        ensures none { result ≡ false → HadValue self.old.key None now self.old.shelf.part }
        ensures reads { ReadsShelf self.old.shelf self.new.shelf }
        ensures rest { self.new ≡ record self.old { shelf = self.new.shelf; had = self.new.had } }
    {
        find_words(&mut self.shelf, &self.key, &mut self.had, now)
    }

    // Puts a value under the key.
    pub(crate) fn put(&mut self, value: &[u8], flags: u32, expires: u64, now: u64) -> PutTold
        requires { length value.now ≤ self.old.value_bytes }
        ensures puts { Puts self.old.key (value_row self.old.shelf.part.value_words flags value.now) expires now
            self.old.shelf self.new.shelf result }
        ensures rest { self.new ≡ record self.old {
          shelf = self.new.shelf;
          had = self.new.had;
          entry = self.new.entry;
        } }
    {
        fill_row(&self.key, value, flags, &mut self.row);
        put_row(
            &mut self.shelf,
            &self.row,
            expires,
            &mut self.had,
            &mut self.entry,
            now,
        )
    }

    // Puts the value that was found under the key again, until another time.
    pub(crate) fn put_again(&mut self, expires: u64, now: u64) -> PutTold
        ensures puts { Puts self.old.key (drop 1 self.old.had) expires now self.old.shelf self.new.shelf result }
        ensures rest { self.new ≡ record self.old {
          shelf = self.new.shelf;
          had = self.new.had;
          entry = self.new.entry;
        } }
    {
        join_row(&self.key, &self.had[1..], &mut self.row);
        put_row(
            &mut self.shelf,
            &self.row,
            expires,
            &mut self.had,
            &mut self.entry,
            now,
        )
    }

    // When what was found expires.
    pub(crate) fn expires(&self) -> u64
        ensures { result ≡ slice_index self.now.had 0 }
    {
        self.had[0]
    }

    // The flags and the length of the value that was found.
    pub(crate) fn value(&self) -> ValueTold
        ensures { TellsValue (λ i. slice_index self.now.had (suc i)) result.flags result.length }
    {
        ValueTold {
            flags: flags_in(self.had[1]),
            length: self.had[2],
        }
    }

    // Words of the bytes of the value that was found.
    pub(crate) fn found_words(&self, from: u32) -> [u64; TOLD_WORDS]
        ensures { result ≡ eight_words (slice_index self.now.had) (from + 3) (length self.now.had) }
    {
        eight_from(&self.had, from as usize + 3, self.had.len())
    }

    // Ends the item of the key, and tells whether the key had something that hadn't expired.
    pub(crate) fn remove(&mut self, now: u64) -> bool
        ensures removes { RemovesKey self.old.key now result self.old.shelf self.new.shelf }
        ensures rest { self.new ≡ record self.old { shelf = self.new.shelf; had = self.new.had } }
    {
        remove_words(&mut self.shelf, &self.key, &mut self.had, now)
    }
    // Reads the item of the part's chunk with this number, which it has, and tells whether one is there that hasn't
    // expired.
    pub(crate) fn visit(&mut self, number: u32, now: u64) -> bool
        requires { number < self.old.shelf.part.book.sheet.count }
        ensures told { result ≡ has_unexpired now self.old.shelf.part.book.sheet
            (self.old.shelf.part.book.sheet.first + number) }
        ensures read { result ≡ true → self.new.entry ≡ row_at self.old.shelf.part
            (self.old.shelf.part.book.sheet.first + number) }
        ensures stays { result ≡ false → self.new.entry ≡ self.old.entry }
        ensures reads { ReadsShelf self.old.shelf self.new.shelf }
        ensures rest { self.new ≡ record self.old { shelf = self.new.shelf; entry = self.new.entry } }
    {
        let chunk = self.shelf.chunks().start + number;
        self.shelf.read_unexpired(chunk, now, &mut self.entry)
    }

    // What the words of the item that was visited last tell beside its bytes.
    pub(crate) fn visited(&self) -> EntryTold
        ensures { IsEntry self.now.shelf.part.key_words self.now.entry result }
    {
        let key_words = words_for(self.key_bytes) as usize;
        EntryTold {
            key_length: self.entry[1],
            value: ValueTold {
                flags: flags_in(self.entry[1 + key_words]),
                length: self.entry[2 + key_words],
            },
            expires: self.entry[0],
        }
    }

    // Words of the bytes of its key.
    pub(crate) fn visited_key(&self, from: u32) -> [u64; TOLD_WORDS]
        ensures { result ≡ eight_words (slice_index self.now.entry) (from + 2) (suc self.now.shelf.part.key_words) }
    {
        let key_words = words_for(self.key_bytes) as usize;
        eight_from(&self.entry, from as usize + 2, 1 + key_words)
    }

    // Words of the bytes of its value.
    pub(crate) fn visited_value(&self, from: u32) -> [u64; TOLD_WORDS]
        ensures { result ≡ eight_words (slice_index self.now.entry) (from + (self.now.shelf.part.key_words + 3))
            (length self.now.entry) }
    {
        let key_words = words_for(self.key_bytes) as usize;
        eight_from(
            &self.entry,
            from as usize + (key_words + 3),
            self.entry.len(),
        )
    }
}

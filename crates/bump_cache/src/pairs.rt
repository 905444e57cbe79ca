//! What a cache's lock guards: a shelf whose rows are those of keys and values.
ghost use Rattle.std.specs.Prelude.{◌≡◌, ℕ, suc, List, ◌+◌, ◌∷◌, ◌++◌, ◌<◌, ◌^◌, IfSome, IfNone, IfOk, IfErr, None, true, false, is_some, length};
ghost use Rattle.bump_steps.specs.Views.{last_word, owns};
ghost use Rattle.cache_part.specs.Expiring.{KeepsUnexpired, LooksInTurn};
ghost use Rattle.cache_part.specs.Parts.{IsPart, IsUnknown};
ghost use Rattle.cache_part.specs.Stats.{stats_of};
ghost use Rattle.cache_part.specs.Visiting.{has_unexpired};
ghost use Rattle.cache_shelf.specs.Entries.{AllUnexpiredKept, ReadsShelf};
ghost use Rattle.cache_shelf.specs.Shelves.{with_ended, with_put, with_tended};
ghost use Rattle.cache_shelf.specs.Turns.{TendsShelf};
ghost use Rattle.cache_shelf.specs.Visiting.{entry_at};
ghost use Rattle.bump_cache.specs.Changing.{HadUntil};
ghost use Rattle.bump_cache.specs.Ending.{EvictsValue, TakesValue};
ghost use Rattle.bump_cache.specs.Putting.{IsPairOfWords, IsTimedValue, PutsValue, RefusesValue, RemovesValue, TellsEvicted, TellsValue, cause_of};
ghost use Rattle.bump_cache.specs.Setting.{PutsWords, RefusesWords};
ghost use Rattle.bump_cache.specs.Visiting.{TellsEntry};

use crate::answers::{Cause, Evicted, Full, NoRoom, Put};
use crate::ending::{evict_row, take_row};
use crate::law::PairLaw;
use crate::setting::set_row;
use bump_heads::Name;
use bump_rules::has_expired;
use cache_shelf::{Shelf, Stats};
use packed_words::Packed;
use std::alloc::{AllocError, Global};
use std::marker::Model;
use std::ops::Range;

/// A shelf whose rows are those of keys and values, and room for what a call packs and unpacks: so a call asks for no
/// memory.
#[derive(Drop)]
pub struct Pairs<N: Name, K: Packed, V: Packed> {
    shelf: Shelf<N, PairLaw<K, V>>,
    // the key of the item that is to end
    key: Vec<u64>,
    // the row of the item that is put
    row: Vec<u64>,
    // when the item that the key had expires, and its value
    had: Vec<u64>,
    // when the item that is evicted expires, and its row
    evicted: Vec<u64>,
}

impl<N: Name, K: Packed, V: Packed> Model for Pairs<N, K, V> {
    ghost use Rattle.std.specs.Prelude.{◌≡◌, ◌+◌, suc, length};
    ghost use Rattle.cache_shelf.specs.Shelves.{ShelfView};

    ghost Value = { ShelfView };

    ghost view = { λ p. p.shelf };

    ghost invariant = { λ p. (p.shelf.part.key_words ≡ K.width) × (p.shelf.part.value_words ≡ V.width)
        × (length p.key.items ≡ K.width) × (length p.row.items ≡ K.width + V.width)
        × (length p.had.items ≡ suc V.width) × (length p.evicted.items ≡ suc (K.width + V.width)) };
}

// Writes the words of a key, and behind them those of a value, into a row.
fn pack_row<K: Packed, V: Packed>(key: &K, value: &V, row: &mut [u64])
    requires { length row.old ≡ K.width + V.width }
    ensures packed { row.new ≡ K.as_words key.now ++ V.as_words value.now }
    ensures in_range { K.fits key.now × V.fits value.now }
{
    let key_words = K::words();
    key.pack(&mut row[..key_words]);
    value.pack(&mut row[key_words..]);
}

// The value of these words, where it hasn't expired: they are the time at which it does, and then the value's.
fn unexpired_value<V: Packed>(words: &[u64], now: u64) -> Option<V>
    requires length { length words.now ≡ suc V.width }
    requires value { IsTimedValue V.fits V.as_words words.now }
    ensures { TellsValue V.fits V.as_words words.now now result }
{
    if has_expired(words[0], now) {
        return None;
    }
    Some(V::unpack(&words[1..]))
}

// The value that was told, if one was that hasn't expired.
fn told_value<V: Packed>(chunk: Option<u32>, words: &[u64], now: u64) -> Option<V>
    requires length { length words.now ≡ suc V.width }
    requires value { IfSome chunk (λ c. IsTimedValue V.fits V.as_words words.now) }
    ensures none { IfNone chunk (result ≡ None) }
    ensures told { IfSome chunk (λ c. TellsValue V.fits V.as_words words.now now result) }
{
    match chunk {
        Some(_) => unexpired_value(words, now),
        None => None,
    }
}

// Why an item that expires then is evicted now.
fn cause_at(expires: u64, now: u64) -> Cause
    ensures { result ≡ cause_of expires now }
{
    if has_expired(expires, now) {
        Cause::Expired
    } else {
        Cause::Room
    }
}

// The key and the value of a row.
fn unpack_row<K: Packed, V: Packed>(row: &[u64]) -> (K, V)
    requires length { length row.now ≡ K.width + V.width }
    requires pair { IsPairOfWords K.fits K.as_words V.fits V.as_words row.now }
    ensures fits { K.fits result.0 × V.fits result.1 }
    ensures row { row.now ≡ K.as_words result.0 ++ V.as_words result.1 }
{
    let key_words = K::words();
    let key = K::unpack(&row[..key_words]);
    let value = V::unpack(&row[key_words..]);
    (key, value)
}

// What was evicted, if something was: its row was told, behind the time at which it expires.
pub(crate) fn told_evicted<K: Packed, V: Packed>(
    chunk: Option<u32>,
    row: &[u64],
    now: u64,
) -> Option<Evicted<K, V>>
    requires length { length row.now ≡ suc (K.width + V.width) }
    requires pair { IfSome chunk (λ c. (expires : ℕ) × (words : List ℕ) × (row.now ≡ expires ∷ words)
        × IsPairOfWords K.fits K.as_words V.fits V.as_words words) }
    ensures told { is_some result ≡ is_some chunk }
    ensures evicted { IfSome result (λ it. TellsEvicted K.fits K.as_words V.fits V.as_words row.now now it) }
{
    match chunk {
        Some(_) => {
            let (key, value) = unpack_row(&row[1..]);
            let cause = cause_at(row[0], now);
            Some(Evicted { key, value, cause })
        }
        None => None,
    }
}

// Puts the row of a key and a value, and unpacks what is told.
fn put_row<N: Name, K: Packed, V: Packed>(
    shelf: &mut Shelf<N, PairLaw<K, V>>,
    _key: &K,
    _value: &V,
    row: &[u64],
    expires: u64,
    had: &mut [u64],
    evicted: &mut [u64],
    now: u64,
) -> Result<Put<K, V>, NoRoom<K, V>>
    requires key { shelf.old.part.key_words ≡ K.width }
    requires value { shelf.old.part.value_words ≡ V.width }
    requires in_range { K.fits _key.now × V.fits _value.now }
    requires row { row.now ≡ K.as_words _key.now ++ V.as_words _value.now }
    requires had { length had.old ≡ suc V.width }
    requires evicted { length evicted.old ≡ suc (K.width + V.width) }
    ensures puts { IfOk result (λ did. PutsValue K.as_words V.as_words _key.now _value.now expires now did shelf.old
        shelf.new) }
    ensures refuses { IfErr result (λ why. RefusesValue K.as_words V.as_words _key.now now why shelf.old shelf.new) }
    ensures same { shelf.new ≡ with_put shelf.new shelf.old }
    ensures lengths { (length had.new ≡ length had.old) × (length evicted.new ≡ length evicted.old) }
{
    // A key is that of one item: so what is told of it is all that it had.
    shelf.promise();
    let did = match shelf.put(row, expires, true, had, evicted, now) {
        Ok(did) => did,
        Err(why) => {
            let lost = told_evicted(why.evicted, evicted, now);
            return Err(NoRoom { evicted: lost });
        }
    };
    let old = told_value(did.old, had, now);
    let gone = told_evicted(did.evicted, evicted, now);
    Ok(Put { old, evicted: gone })
}

// Ends the item of a key, and unpacks what is told.
fn remove_key<N: Name, K: Packed, V: Packed>(
    shelf: &mut Shelf<N, PairLaw<K, V>>,
    _key: &K,
    words: &[u64],
    had: &mut [u64],
    now: u64,
) -> Option<V>
    requires key { shelf.old.part.key_words ≡ K.width }
    requires value { shelf.old.part.value_words ≡ V.width }
    requires in_range { K.fits _key.now }
    requires words { words.now ≡ K.as_words _key.now }
    requires had { length had.old ≡ suc V.width }
    ensures removes { RemovesValue K.as_words V.as_words _key.now now result shelf.old shelf.new }
    ensures length { length had.new ≡ length had.old }
{
    shelf.promise();
    let chunk = shelf.remove(words, had);
    told_value(chunk, had, now)
}

// Looks for the item of a key, and unpacks what is told, and when it expires.
fn look_key<N: Name, K: Packed, V: Packed>(
    shelf: &mut Shelf<N, PairLaw<K, V>>,
    _key: &K,
    words: &[u64],
    had: &mut [u64],
    now: u64,
) -> Option<(V, u64)>
    requires key { shelf.old.part.key_words ≡ K.width }
    requires value { shelf.old.part.value_words ≡ V.width }
    requires in_range { K.fits _key.now }
    requires words { words.now ≡ K.as_words _key.now }
    requires had { length had.old ≡ suc V.width }
    ensures had { HadUntil V.fits V.as_words (K.as_words _key.now) result now shelf.old.part }
    ensures reads { ReadsShelf shelf.old shelf.new }
    ensures length { length had.new ≡ length had.old }
{
    shelf.promise();
    let chunk = shelf.look(words, had);
    match told_value(chunk, had, now) {
        Some(value) => Some((value, had[0])),
        None => None,
    }
}

// The key and the value of a row, and the time at which it expires, with which it begins.
fn told_row<K: Packed, V: Packed>(row: &[u64]) -> (K, V, u64)
    requires length { length row.now ≡ suc (K.width + V.width) }
    requires pair { (expires : ℕ) × (words : List ℕ) × (row.now ≡ expires ∷ words)
        × IsPairOfWords K.fits K.as_words V.fits V.as_words words }
    ensures fits { K.fits result.0 × V.fits result.1 }
    ensures row { row.now ≡ result.2 ∷ (K.as_words result.0 ++ V.as_words result.1) }
{
    let (key, value) = unpack_row(&row[1..]);
    (key, value, row[0])
}

// The key and the value of the item of a chunk, and when it expires, where it has one that hasn't.
fn unexpired_in<N: Name, K: Packed, V: Packed>(
    shelf: &mut Shelf<N, PairLaw<K, V>>,
    chunk: u32,
    now: u64,
    row: &mut [u64],
) -> Option<(K, V, u64)>
    requires key { shelf.old.part.key_words ≡ K.width }
    requires value { shelf.old.part.value_words ≡ V.width }
    requires own { owns chunk shelf.old.part.book.sheet ≡ true }
    requires row { length row.old ≡ suc (K.width + V.width) }
    ensures none { IfNone result (has_unexpired now shelf.old.part.book.sheet chunk ≡ false) }
    ensures some { IfSome result (λ it. has_unexpired now shelf.old.part.book.sheet chunk ≡ true) }
    ensures tells { IfSome result (λ it. TellsEntry K.fits K.as_words V.fits V.as_words it.0 it.1 it.2
        (entry_at shelf.old.part chunk)) }
    ensures reads { ReadsShelf shelf.old shelf.new }
    ensures length { length row.new ≡ length row.old }
{
    shelf.promise();
    if !shelf.read_unexpired(chunk, now, row) {
        return None;
    }
    Some(told_row(row))
}

impl<N: Name, K: Packed, V: Packed> Pairs<N, K, V> {
    /// A shelf whose rows are those of keys and values, in which there is nothing yet. It is refused only for want of
    /// memory.
    pub(crate) fn new(
        alloc: Global,
        shelf: Shelf<N, PairLaw<K, V>>,
    ) -> Result<Pairs<N, K, V>, AllocError>
        requires key { shelf.part.key_words ≡ K.width }
        requires value { shelf.part.value_words ≡ V.width }
        requires few { K.width + V.width < 2 ^ 32 }
        ensures { IfOk result (λ pairs. pairs ≡ shelf) }
    {
        let key_words = K::words();
        let value_words = V::words();
        Ok(Pairs {
            shelf,
            key: vec![in alloc; 0; key_words]?,
            row: vec![in alloc; 0; key_words + value_words]?,
            had: vec![in alloc; 0; 1 + value_words]?,
            evicted: vec![in alloc; 0; 1 + key_words + value_words]?,
        })
    }

    /// Puts a value under a key, which expires at `expires`, as `Shelf::put` does.
    pub(crate) fn put(
        &mut self,
        key: &K,
        value: &V,
        expires: u64,
        now: u64,
    ) -> Result<Put<K, V>, NoRoom<K, V>>
        ensures puts { IfOk result (λ did. PutsValue K.as_words V.as_words key.now value.now expires now did self.old
            self.new) }
        ensures refuses { IfErr result (λ why. RefusesValue K.as_words V.as_words key.now now why self.old self.new) }
        ensures same { self.new ≡ with_put self.new self.old }
    {
        pack_row(key, value, &mut self.row);
        put_row(
            &mut self.shelf,
            key,
            value,
            &self.row,
            expires,
            &mut self.had,
            &mut self.evicted,
            now,
        )
    }

    /// Puts a value under a key in the same way, and tells only whether another item was evicted.
    pub(crate) fn set(&mut self, key: &K, value: &V, expires: u64, now: u64) -> Result<bool, Full>
        ensures sets { IfOk result (λ told. PutsWords (K.as_words key.now) (V.as_words value.now) expires now told
            self.old self.new) }
        ensures refuses { IfErr result (λ why. RefusesWords (K.as_words key.now) now why.evicted self.old self.new) }
        ensures same { self.new ≡ with_put self.new self.old }
    {
        pack_row(key, value, &mut self.row);
        set_row(
            &mut self.shelf,
            key,
            value,
            &self.row,
            expires,
            &mut self.had,
            &mut self.evicted,
            now,
        )
    }

    /// Ends the item of a key, as `Shelf::remove` does, and tells its value where it hasn't expired.
    pub(crate) fn remove(&mut self, key: &K, now: u64) -> Option<V>
        ensures { RemovesValue K.as_words V.as_words key.now now result self.old self.new }
    {
        key.pack(&mut self.key);
        remove_key(&mut self.shelf, key, &self.key, &mut self.had, now)
    }

    /// What is under a key, where it hasn't expired, and when it expires; it isn't touched.
    pub(crate) fn look(&mut self, key: &K, now: u64) -> Option<(V, u64)>
        ensures had { HadUntil V.fits V.as_words (K.as_words key.now) result now self.old.part }
        ensures reads { ReadsShelf self.old self.new }
    {
        key.pack(&mut self.key);
        look_key(&mut self.shelf, key, &self.key, &mut self.had, now)
    }

    /// Tends the shelf, as `Shelf::tend` does.
    pub(crate) fn tend(&mut self, now: u64)
        ensures tends { TendsShelf now self.old self.new }
        ensures looked { LooksInTurn self.old.limits.looks now self.old.part self.new.part }
        ensures unexpired { KeepsUnexpired now self.old.part.book self.new.part.book }
        ensures kept { AllUnexpiredKept now self.old.part self.new.part }
        ensures same { self.new ≡ with_tended self.new self.old }
    {
        self.shelf.tend(now);
    }

    /// Ends each item, as `Shelf::clear` does.
    pub(crate) fn clear(&mut self)
        ensures empty { (key : List ℕ) → IsUnknown key self.new.part }
        ensures words { (i c : ℕ) → last_word i self.new.part.book.sheet c ≡ last_word i self.old.part.book.sheet c }
        ensures same { self.new ≡ with_ended self.new self.old }
    {
        self.shelf.clear();
    }

    /// The statistics, as `Shelf::stats` tells them.
    pub(crate) fn stats(&self) -> Stats
        ensures { result ≡ stats_of self.now.part }
    {
        self.shelf.stats()
    }

    /// The chunks of the class, as `Shelf::chunks` tells them.
    pub(crate) fn chunks(&self) -> Range<u32>
        ensures start { result.start ≡ self.now.part.book.sheet.first }
        ensures end { result.end ≡ self.now.part.book.sheet.first + self.now.part.book.sheet.count }
        ensures part { IsPart self.now.part.seed self.now.part.key_words self.now.part.book.sheet self.now.part.index }
    {
        self.shelf.promise();
        self.shelf.chunks()
    }

    /// The key and the value of the item of a chunk of the class, and when it expires, where one is linked that hasn't
    /// expired; it isn't touched.
    pub(crate) fn unexpired_at(&mut self, chunk: u32, now: u64) -> Option<(K, V, u64)>
        requires { owns chunk self.old.part.book.sheet ≡ true }
        ensures none { IfNone result (has_unexpired now self.old.part.book.sheet chunk ≡ false) }
        ensures some { IfSome result (λ it. has_unexpired now self.old.part.book.sheet chunk ≡ true) }
        ensures tells { IfSome result (λ it. TellsEntry K.fits K.as_words V.fits V.as_words it.0 it.1 it.2
            (entry_at self.old.part chunk)) }
        ensures reads { ReadsShelf self.old self.new }
    {
        unexpired_in(&mut self.shelf, chunk, now, &mut self.evicted)
    }

    /// Ends the next item that has expired, as `Shelf::take_expired` does, and tells it.
    pub(crate) fn take_expired(&mut self, now: u64) -> Option<Evicted<K, V>>
        ensures { TakesValue K.as_words V.as_words now result self.old self.new }
    {
        take_row(&mut self.shelf, &mut self.evicted, now)
    }

    /// Evicts the item whose turn it is, as `Shelf::evict` does, and tells it.
    pub(crate) fn evict(&mut self, now: u64) -> Option<Evicted<K, V>>
        ensures { EvictsValue K.as_words V.as_words now result self.old self.new }
    {
        evict_row(&mut self.shelf, &mut self.evicted, now)
    }
}

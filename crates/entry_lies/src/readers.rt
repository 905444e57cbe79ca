//! A reader of a cache of entries, as a caller calls it. The keys are numbers, so that a lie can make one up.
ghost use Rattle.std.specs.Prelude.{◌≡◌, true, false, IfNone, IfSome, IsSomeAnd};
ghost use Rattle.entry_cache.specs.Asking.{hash_by};
ghost use Rattle.entry_cache.specs.Entries.{IsAsked};
ghost use Rattle.entry_cache.specs.Looking.{FindsThere, GetsNoRow, GetsRow, LooksUntil, MissesEntry, PeeksNoRow, PeeksRow};

use entry_cache::{Asks, EntryCache, EntryMiss, EntryReader, Found, Keeps, Kept, LogName, Name};
use std::hash::Hash;

/// Gets an entry.
pub fn get<'a, N: Name + LogName, K: Hash + Drop, V: Drop, L: Keeps<Kept<K, V>>, Q: Asks<K>>(
    reader: &mut EntryReader<N>,
    cache: &'a EntryCache<N, K, V, L>,
    asked: Q,
    _other: Q,
    now: u64,
) -> Option<Found<'a, N, K, V, L>>
    ensures found { IfSome result (λ it. LooksUntil (GetsRow (hash_by cache.now.seed (Q.hash_input asked)) now)
        (GetsRow (hash_by cache.now.seed (Q.hash_input asked)) now it.place) reader.old.rows reader.new.rows) }
    ensures same { IfSome result (λ it. reader.new.missed ≡ reader.old.missed) }
    ensures asked { IfSome result (λ it. IsSomeAnd it.entry (IsAsked (Q.asks asked) now)) }
    ensures law { IfSome result (λ it. IsSomeAnd it.entry (λ entry. ∥ L.holds it.place entry ∥₁)) }
    ensures missed { IfNone result (MissesEntry (GetsRow (hash_by cache.now.seed (Q.hash_input asked)) now)
        (GetsNoRow (hash_by cache.now.seed (Q.hash_input asked)) now) L.holds (Q.asks asked) now reader.new.missed
        reader.old.rows reader.new.rows) }
{
    reader.get(cache, asked, now)
}

/// Peeks at an entry.
pub fn peek<'a, N: Name + LogName, K: Hash + Drop, V: Drop, L: Keeps<Kept<K, V>>, Q: Asks<K>>(
    reader: &mut EntryReader<N>,
    cache: &'a EntryCache<N, K, V, L>,
    asked: Q,
    _other: Q,
    now: u64,
) -> Option<Found<'a, N, K, V, L>>
    ensures found { IfSome result (λ it. LooksUntil (PeeksRow (hash_by cache.now.seed (Q.hash_input asked)) now)
        (PeeksRow (hash_by cache.now.seed (Q.hash_input asked)) now it.place) reader.old.rows reader.new.rows) }
    ensures same { IfSome result (λ it. reader.new.missed ≡ reader.old.missed) }
    ensures asked { IfSome result (λ it. IsSomeAnd it.entry (IsAsked (Q.asks asked) now)) }
    ensures law { IfSome result (λ it. IsSomeAnd it.entry (λ entry. ∥ L.holds it.place entry ∥₁)) }
    ensures missed { IfNone result (MissesEntry (PeeksRow (hash_by cache.now.seed (Q.hash_input asked)) now)
        (PeeksNoRow (hash_by cache.now.seed (Q.hash_input asked)) now) L.holds (Q.asks asked) now reader.new.missed
        reader.old.rows reader.new.rows) }
{
    reader.peek(cache, asked, now)
}

/// Whether an entry is there.
pub fn contains<N: Name + LogName, K: Hash + Drop, V: Drop, L: Keeps<Kept<K, V>>, Q: Asks<K>>(
    reader: &mut EntryReader<N>,
    cache: &EntryCache<N, K, V, L>,
    asked: Q,
    now: u64,
) -> bool
    ensures found { result ≡ true → LooksUntil (PeeksRow (hash_by cache.now.seed (Q.hash_input asked)) now)
        (FindsThere (PeeksRow (hash_by cache.now.seed (Q.hash_input asked)) now) L.holds (IsAsked (Q.asks asked) now))
        reader.old.rows reader.new.rows }
    ensures same { result ≡ true → reader.new.missed ≡ reader.old.missed }
    ensures missed { result ≡ false → MissesEntry (PeeksRow (hash_by cache.now.seed (Q.hash_input asked)) now)
        (PeeksNoRow (hash_by cache.now.seed (Q.hash_input asked)) now) L.holds (Q.asks asked) now reader.new.missed
        reader.old.rows reader.new.rows }
{
    reader.contains(cache, asked, now)
}

/// Why a get found nothing.
pub fn last_miss<N: Name + LogName>(reader: &EntryReader<N>) -> EntryMiss
    ensures { result ≡ reader.now.missed }
{
    reader.last_miss()
}

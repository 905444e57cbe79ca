//! Calls on a cache of entries and on its book.
ghost use Rattle.std.specs.Prelude.{◌+◌};

use crate::book::{Book, Line};
use entry_cache::{
    CacheConfig, Changer, EntryCache, EntryMiss, EntryReader, Found, LogName, Name, Refusal, Seed,
};
use std::alloc::{AllocError, Global};
use std::sync::{Arc, Wait};

/// The seed of all tests that need no other.
pub const SEED: Seed = Seed {
    first: 0x0123_4567_89ab_cdef,
    second: 0xfedc_ba98_7654_3211,
};

/// A value that counts itself: so many are alive as this is shared.
#[derive(Drop)]
pub struct Counted {
    pub number: u64,
    pub alive: Arc<()>,
}

/// A call.
#[derive(Clone, Copy)]
pub enum Call {
    Put(u32),
    PutUntil(u32, u64),
    Remove(u32),
    Get(u32),
    Look(u32),
    Tend,
}

/// The text of a key.
pub fn text_of(alloc: Global, key: u32) -> Result<String, AllocError> {
    format!(in alloc; "the key {key}")
}

/// Small caches, with few rings, so that each put finds room.
pub fn small_config(items: u32, readers: u32) -> CacheConfig {
    CacheConfig {
        ring: 4,
        ..CacheConfig::new(items, readers, SEED)
    }
}

// Whether what was found is the line's, and else nothing was, for this reason.
fn is_line<N: Name + LogName>(
    found: Option<Found<'_, N, String, Counted>>,
    line: Option<Line>,
    reader: &EntryReader<N>,
    now: u64,
) -> bool {
    match (found, line) {
        (Some(found), Some(line)) => {
            !line.is_over(now)
                && found.number == line.number
                && found.place() == line.place
                && found.expires() == line.expires
        }
        (None, Some(line)) => line.is_over(now) && reader.last_miss() == EntryMiss::Expired,
        (None, None) => reader.last_miss() == EntryMiss::NoRow,
        (Some(_), None) => false,
    }
}

// Puts a value, whose number is the time. It tells whether that came to what the book says.
fn put<N: Name + LogName, W: Wait>(
    rt: &W,
    alloc: Global,
    cache: &EntryCache<N, String, Counted>,
    changer: &mut Changer<N>,
    book: &mut Book,
    alive: &Arc<()>,
    key: u32,
    expires: u64,
    now: u64,
) -> Result<bool, AllocError> {
    let value = Counted {
        number: now,
        alive: Arc::try_clone(alive)?,
    };
    let text = text_of(alloc, key)?;
    let length = text.len();
    match cache.put_until(rt, &mut changer.me, text, value, expires, now) {
        Ok(did) => {
            let line = Line {
                key,
                number: did.value().number,
                expires: did.expires(),
                place: did.place(),
            };
            let right = line.number == now && line.expires == expires && did.key().len() == length;
            Ok(book.put(line, did.rows())? && right)
        }
        Err(it) => match it.why {
            Refusal::Memory => Err(AllocError),
            Refusal::NoRoom(_) => Ok(false),
        },
    }
}

/// Makes a call on both. It tells whether the cache came to what the book says, and whether as many values are alive as the book has
/// lines.
pub fn make<N: Name + LogName, W: Wait>(
    rt: &W,
    alloc: Global,
    cache: &EntryCache<N, String, Counted>,
    changer: &mut Changer<N>,
    reader: &mut EntryReader<N>,
    book: &mut Book,
    alive: &Arc<()>,
    call: Call,
    now: u64,
) -> Result<bool, AllocError> {
    let right = match call {
        Call::Put(key) => put(rt, alloc, cache, changer, book, alive, key, 0, now)?,
        Call::PutUntil(key, expires) => {
            put(rt, alloc, cache, changer, book, alive, key, expires, now)?
        }
        Call::Remove(key) => {
            let text = text_of(alloc, key)?;
            let line = book.line(key);
            let did = cache.remove(rt, &mut changer.me, text.as_str(), now);
            let place = did.place();
            let entry = match (did.into_found(), line) {
                (Some(found), Some(line)) => !line.is_over(now) && found.number == line.number,
                (None, Some(line)) => line.is_over(now),
                (None, None) => true,
                (Some(_), None) => false,
            };
            entry && book.remove(key, place)
        }
        Call::Get(key) => {
            let text = text_of(alloc, key)?;
            let found = reader.get(cache, &text, now);
            is_line(found, book.line(key), reader, now)
        }
        Call::Look(key) => {
            let text = text_of(alloc, key)?;
            let there = reader.contains(cache, text.as_str(), now);
            let found = reader.peek(cache, text.as_str(), now);
            there == found.is_some() && is_line(found, book.line(key), reader, now)
        }
        Call::Tend => {
            cache.tend(rt, &mut changer.me, now);
            true
        }
    };
    let count = Arc::strong_count(alive);
    Ok(right && count.wrapping_sub(1) == book.len())
}

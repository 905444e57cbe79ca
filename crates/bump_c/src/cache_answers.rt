//! What C reads of a cache: numbers in the order of the enums of c/bump_cache.h, and plain records.
ghost use Rattle.std.specs.Prelude.{◌≡◌, ◌<◌};
ghost use Rattle.bump_c.specs.CacheNumbers.{entry_of, got_of, held_of, looked_of, not_got, not_held, not_looked};
ghost use Rattle.bump_c.specs.CacheNumbers.{not_put, number_of_byte_fault, put_of, told_of_stats};

use cache_handles::{
    ByteFault, CacheFault, EntryTold, GetTold, HeldTold, LookTold, PutTold, Stats,
};
use cache_lists::STATISTICS;

/// What was got, and the first words of its bytes.
#[repr(C)]
#[derive(Clone, Copy)]
pub struct CacheGot {
    /// As enum bump_cache_get_answer.
    pub answer: u32,

    /// Its flags; 0 where nothing was found.
    pub flags: u32,

    /// How many bytes it has; 0 where nothing was found.
    pub length: u64,

    /// Its first 64 bytes, eight a word, the lowest first; 0 behind them, and where nothing was found.
    pub words: [u64; 8],
}

/// What is held.
#[repr(C)]
#[derive(Clone, Copy)]
pub struct CacheHeld {
    /// As enum bump_cache_get_answer.
    pub answer: u32,

    /// Its flags; 0 where nothing is held.
    pub flags: u32,

    /// How many bytes it has; 0 where nothing is held.
    pub length: u64,
}

/// Words of what is held, or of what was looked at or visited.
#[repr(C)]
#[derive(Clone, Copy)]
pub struct CacheWords {
    /// Eight bytes a word, the lowest first; 0 behind the last one.
    pub words: [u64; 8],
}

/// A reader's counts.
#[repr(C)]
#[derive(Clone, Copy)]
pub struct CacheCounts {
    /// Gets and holds that found something.
    pub hits: u64,

    /// Those that found nothing.
    pub misses: u64,

    /// Bumps of its hits that were dropped.
    pub dropped: u64,
}

/// What became of a put.
#[repr(C)]
#[derive(Clone, Copy)]
pub struct CachePut {
    /// As enum bump_cache_put_answer.
    pub answer: u32,

    /// Whether another item was evicted.
    pub evicted: bool,
}

/// What was looked at.
#[repr(C)]
#[derive(Clone, Copy)]
pub struct CacheLooked {
    /// As enum bump_cache_get_answer.
    pub answer: u32,

    /// Its flags; 0 where nothing was found.
    pub flags: u32,

    /// How many bytes it has; 0 where nothing was found.
    pub length: u64,

    /// When it expires; 0 is never, and where nothing was found.
    pub expires: u64,
}

/// What was visited.
#[repr(C)]
#[derive(Clone, Copy)]
pub struct CacheEntry {
    /// Whether there is such a chunk with an item that hasn't expired; else all is 0.
    pub found: bool,

    /// The flags of its value.
    pub flags: u32,

    /// How many bytes its key has.
    pub key_length: u64,

    /// How many bytes its value has.
    pub value_length: u64,

    /// When it expires; 0 is never.
    pub expires: u64,
}

/// A part's statistics, by memcached's names.
#[repr(C)]
#[derive(Clone, Copy)]
pub struct CacheStats {
    /// Items in HOT.
    pub number_hot: u32,

    /// Items in WARM.
    pub number_warm: u32,

    /// Items in COLD.
    pub number_cold: u32,

    /// Items in TEMP.
    pub number_temp: u32,

    /// Moves from HOT and WARM to COLD.
    pub moves_to_cold: u64,

    /// Moves from HOT and COLD to WARM.
    pub moves_to_warm: u64,

    /// Moves from WARM to its front.
    pub moves_within_lru: u64,

    /// Items that were evicted which hadn't expired.
    pub evicted: u64,

    /// What was counted of items that ended, in the order of its names, as C names them from `evicted_unfetched` on.
    pub evictions: [u64; STATISTICS],
}

/// The number of a fault of a cache's configuration.
pub fn byte_fault_number(fault: ByteFault) -> u32
    ensures number { result ≡ number_of_byte_fault fault }
    ensures some { 0 < result }
{
    match fault {
        ByteFault::KeyBytes => 1,
        ByteFault::ValueBytes => 2,
        ByteFault::Cache(CacheFault::Items) => 3,
        ByteFault::Cache(CacheFault::Spare) => 4,
        ByteFault::Cache(CacheFault::Shares) => 5,
        ByteFault::Cache(CacheFault::Parts) => 6,
        ByteFault::Cache(CacheFault::Readers) => 7,
        ByteFault::Cache(CacheFault::Ring) => 8,
    }
}

// A number in place of what was got.
#[inline(always)]
fn nothing_got(answer: u32) -> CacheGot
    ensures { result ≡ not_got answer }
{
    CacheGot {
        answer,
        flags: 0,
        length: 0,
        words: [0; 8],
    }
}

/// A get's answer, as C reads it.
#[inline(always)]
pub fn got_told(answer: GetTold) -> CacheGot
    ensures { result ≡ got_of answer }
{
    match answer {
        GetTold::Found { value, words } => CacheGot {
            answer: 0,
            flags: value.flags,
            length: value.length,
            words,
        },
        GetTold::Nothing => nothing_got(1),
        GetTold::KeyBytes => nothing_got(2),
    }
}

// A number in place of what is held.
#[inline(always)]
fn nothing_held(answer: u32) -> CacheHeld
    ensures { result ≡ not_held answer }
{
    CacheHeld {
        answer,
        flags: 0,
        length: 0,
    }
}

/// The answer of a get that holds, as C reads it.
#[inline(always)]
pub fn held_told(answer: HeldTold) -> CacheHeld
    ensures { result ≡ held_of answer }
{
    match answer {
        HeldTold::Found(value) => CacheHeld {
            answer: 0,
            flags: value.flags,
            length: value.length,
        },
        HeldTold::Nothing => nothing_held(1),
        HeldTold::KeyBytes => nothing_held(2),
        HeldTold::NoPlace => nothing_held(3),
    }
}

// A number in place of what was put.
fn nothing_put(answer: u32) -> CachePut
    ensures { result ≡ not_put answer }
{
    CachePut {
        answer,
        evicted: false,
    }
}

/// A put's answer, as C reads it.
pub fn put_told(answer: PutTold) -> CachePut
    ensures { result ≡ put_of answer }
{
    match answer {
        PutTold::Done { evicted } => CachePut { answer: 0, evicted },
        PutTold::Has => nothing_put(1),
        PutTold::Nothing => nothing_put(2),
        PutTold::NoRoom { evicted } => CachePut { answer: 3, evicted },
        PutTold::KeyBytes => nothing_put(4),
        PutTold::ValueBytes => nothing_put(5),
        PutTold::OtherPart => nothing_put(6),
    }
}

// A number in place of what was looked at.
fn nothing_looked(answer: u32) -> CacheLooked
    ensures { result ≡ not_looked answer }
{
    CacheLooked {
        answer,
        flags: 0,
        length: 0,
        expires: 0,
    }
}

/// A look's answer, as C reads it.
pub fn looked_told(answer: LookTold) -> CacheLooked
    ensures { result ≡ looked_of answer }
{
    match answer {
        LookTold::Found(it) => CacheLooked {
            answer: 0,
            flags: it.value.flags,
            length: it.value.length,
            expires: it.expires,
        },
        LookTold::Nothing => nothing_looked(1),
        LookTold::KeyBytes => nothing_looked(2),
    }
}

/// What was visited, as C reads it.
pub fn entry_told(answer: Option<EntryTold>) -> CacheEntry
    ensures { result ≡ entry_of answer }
{
    match answer {
        None => CacheEntry {
            found: false,
            flags: 0,
            key_length: 0,
            value_length: 0,
            expires: 0,
        },
        Some(it) => CacheEntry {
            found: true,
            flags: it.value.flags,
            key_length: it.key_length,
            value_length: it.value.length,
            expires: it.expires,
        },
    }
}

/// A part's statistics, as C reads them.
pub fn stats_told(stats: Stats) -> CacheStats
    ensures { result ≡ told_of_stats stats }
{
    CacheStats {
        number_hot: stats.number_hot,
        number_warm: stats.number_warm,
        number_cold: stats.number_cold,
        number_temp: stats.number_temp,
        moves_to_cold: stats.moves_to_cold,
        moves_to_warm: stats.moves_to_warm,
        moves_within_lru: stats.moves_within_lru,
        evicted: stats.evicted(),
        evictions: stats.evictions.counts,
    }
}

//! A cache is opened.
ghost use Rattle.std.specs.Prelude.{◌≡◌, ◌<◌, ℕ, IfOk, length};
ghost use Rattle.bump_cache.specs.Opening.{AreNewReaders, IsNamed, IsNewPart, most_callers};

use crate::blanks::CacheBlank;
use crate::caches::Cache;
use crate::law::PairLaw;
use crate::making::{make_locks, make_pairs, make_readers};
use crate::readers::CacheReader;
use crate::states::CacheState;
use bump_heads::Name;
use bump_unlocked::UnlockedStore;
use cache_config::{make_indexes, make_part_readers, make_shelves};
use call_log::{Caller, LogName};
use packed_words::Packed;
use std::alloc::{AllocError, Global};
use std::sync::Wait;

/// A cache that was opened.
#[derive(Drop)]
pub struct Opened<N: Name + LogName, K: Packed, V: Packed> {
    /// The cache, which all threads share.
    pub cache: Cache<N, K, V>,

    /// Its first caller. Each thread that changes the cache has one of its own: `Caller::another` makes one.
    pub caller: Caller<N, CacheState>,

    /// Its readers, one for each thread that gets.
    pub readers: Vec<CacheReader<N, K, V>>,
}

/// Opens a cache over a blank, under the names that the blank's table and log have. It is refused only for want of
/// memory, and the blank is gone then. The cache asks for no memory any more once it is open.
///
/// The caller has made one call for each part, in their order, by which the part's shelf came under its lock. It waits
/// for nobody: `rt` stands there as in `Logged::new`.
pub fn open<N: Name + LogName, K: Packed, V: Packed, W: Wait>(
    alloc: Global,
    rt: &W,
    blank: CacheBlank<K, V>,
) -> Result<Opened<N, K, V>, AllocError>
    requires { IsNamed N.table N.book N.name N.parts blank }
    ensures cache { IfOk result (λ opened. opened.cache ≡ record {
      parts = blank.config.parts;
      seed = blank.config.seed;
    }) }
    ensures count { IfOk result (λ opened. length opened.readers.items ≡ blank.config.readers) }
    ensures readers { IfOk result (λ opened. AreNewReaders blank.config opened.readers.items) }
    ensures shelves { IfOk result (λ opened. (part : ℕ) → part < blank.config.parts
        → IsNewPart blank.config part K.width V.width opened.readers.items opened.caller) }
    ensures calls { IfOk result (λ opened. opened.caller.calls ≡ blank.config.parts) }
    ensures log { IfOk result (λ opened. blank.config.parts ≡ 1 → length opened.caller.log ≡ 1) }
    ensures parts { IfOk result (λ opened. opened.caller.parts ≡ most_callers) }
{
    let CacheBlank {
        words,
        log,
        store,
        config,
    } = blank;
    let UnlockedStore {
        heads,
        books,
        starts: _,
        workers,
        lanes,
    } = UnlockedStore::<N, PairLaw<K, V>>::open(alloc, words, &store)?;
    let mut indexes = make_indexes(alloc, &config)?;
    let rows = make_part_readers(alloc, &heads, workers, &mut indexes, &config)?;
    let readers = make_readers(alloc, rows, config.seed)?;
    let (key_words, value_words) = (K::words() as u32, V::words() as u32);
    let shelves = make_shelves(
        alloc,
        books,
        indexes,
        lanes,
        &config,
        key_words,
        value_words,
    )?;
    let pairs = make_pairs(alloc, shelves)?;
    let (logs, mut caller) = log.open::<N>();
    let parts = make_locks(alloc, rt, logs, &mut caller, pairs)?;
    let cache = Cache {
        parts,
        seed: config.seed,
    };
    Ok(Opened {
        cache,
        caller,
        readers,
    })
}

//! A cache of entries is opened.
ghost use Rattle.std.specs.Prelude.{◌≡◌, ◌<◌, IfOk, length, map};
ghost use Rattle.bump_cache.specs.Opening.{AreNewReaders, IsNamed, IsNewPart, most_callers};
ghost use Rattle.entry_cache.specs.Readers.{row_readers};

use crate::blanks::EntryBlank;
use crate::caches::EntryCache;
use crate::entries::Entries;
use crate::kept::Kept;
use crate::law::AnyEntry;
use crate::readers::EntryReader;
use bump_cache::{CacheReader, CacheState, Caller, LogName, Name, Opened, open as open_rows};
use sharded_slab::Keeps;
use std::alloc::{AllocError, Global};
use std::sync::Wait;

/// A cache of entries that was opened.
#[derive(Drop)]
pub struct OpenedEntries<N: Name + LogName, K: Drop, V: Drop, L: Keeps<Kept<K, V>> = AnyEntry> {
    /// The cache, which all threads share.
    pub cache: EntryCache<N, K, V, L>,

    /// Its first caller. Each thread that changes the cache has one of its own: `Caller::another` makes one.
    pub caller: Caller<N, CacheState>,

    /// Its readers, one for each thread that gets.
    pub readers: Vec<EntryReader<N>>,
}

// The readers of entries by these of rows.
fn make_readers<N: Name + LogName>(
    alloc: Global,
    rows: Vec<CacheReader<N, u64, u64>>,
) -> Result<Vec<EntryReader<N>>, AllocError>
    ensures { IfOk result (λ readers. row_readers readers.items ≡ rows.items) }
{
    let mut readers = Vec::with_capacity(alloc, rows.len())?;
    for reader in rows {
        readers.push(EntryReader::new(reader))?;
    }
    Ok(readers)
}

/// Opens a cache of entries over a blank, under the names that the blank's table and log have, as `bump_cache::open` does. It is refused
/// only for want of memory, and the blank is gone then. Its rows ask for no memory any more once it is open; each put does, for its entry.
pub fn open<N: Name + LogName, K: Drop, V: Drop, L: Keeps<Kept<K, V>>, W: Wait>(
    alloc: Global,
    rt: &W,
    blank: EntryBlank,
) -> Result<OpenedEntries<N, K, V, L>, AllocError>
    requires { IsNamed N.table N.book N.name N.parts blank }
    ensures cache { IfOk result (λ opened. opened.cache ≡ record {
      parts = blank.config.parts;
      seed = blank.config.seed;
    }) }
    ensures count { IfOk result (λ opened. length opened.readers.items ≡ blank.config.readers) }
    ensures readers { IfOk result (λ opened. AreNewReaders blank.config (row_readers opened.readers.items)) }
    ensures shelves { IfOk result (λ opened. (part : _) → part < blank.config.parts
        → IsNewPart blank.config part 1 1 (row_readers opened.readers.items) opened.caller) }
    ensures calls { IfOk result (λ opened. opened.caller.calls ≡ blank.config.parts) }
    ensures log { IfOk result (λ opened. blank.config.parts ≡ 1 → length opened.caller.log ≡ 1) }
    ensures parts { IfOk result (λ opened. opened.caller.parts ≡ most_callers) }
{
    let EntryBlank { rows, seed } = blank;
    let Opened {
        cache: rows,
        caller,
        readers,
    } = open_rows::<N, u64, u64, W>(alloc, rt, rows)?;
    let readers = make_readers(alloc, readers)?;
    let entries = Entries::new(alloc, rows.parts())?;
    let cache = EntryCache {
        rows,
        entries,
        seed,
    };
    Ok(OpenedEntries {
        cache,
        caller,
        readers,
    })
}

//! The readers and the locks of a cache, when it is opened.
ghost use Rattle.std.specs.Prelude.{◌≡◌, ◌+◌, ◌<◌, ◌≤◌, ◌^◌, IfOk, All, length, map, vec_len};
ghost use Rattle.cache_config.specs.Choosing.{IsPartCount};
ghost use Rattle.cache_config.specs.Configs.{most_parts};
ghost use Rattle.bump_cache.specs.Opening.{BeginsAll, IsWide, most_words};
ghost use Rattle.bump_cache.specs.Readers.{readers_by};

use crate::law::PairLaw;
use crate::numbered::Numbered;
use crate::pairs::Pairs;
use crate::readers::CacheReader;
use crate::states::CacheState;
use bump_heads::Name;
use cache_config::PartReaders;
use cache_shelf::Shelf;
use call_log::{Caller, LogName, Logged, Logs};
use crossbeam_utils::CachePadded;
use keyed_hash::Seed;
use packed_words::Packed;
use std::alloc::{AllocError, Global};
use std::sync::{Mutex, Wait};

/// The readers that these rows make.
pub(crate) fn make_readers<N: Name, K: Packed, V: Packed>(
    alloc: Global,
    rows: Vec<PartReaders<N, PairLaw<K, V>>>,
    seed: Seed,
) -> Result<Vec<CacheReader<N, K, V>>, AllocError>
    requires few { K.width + V.width ≤ N.table.slots }
    requires words { K.width + V.width ≤ most_words }
    requires parts { All (λ row. IsPartCount (length row)) rows.items }
    ensures { IfOk result (λ readers. readers.items ≡ map (readers_by seed) rows.items) }
{
    let mut readers = Vec::with_capacity(alloc, rows.len())?;
    for row in rows {
        readers.push(CacheReader::new(row.parts, seed))?;
    }
    Ok(readers)
}

/// Each shelf, with room for what a call packs and unpacks.
pub(crate) fn make_pairs<N: Name, K: Packed, V: Packed>(
    alloc: Global,
    shelves: Vec<Shelf<N, PairLaw<K, V>>>,
) -> Result<Vec<Pairs<N, K, V>>, AllocError>
    requires few { K.width + V.width < 2 ^ 32 }
    requires words { All (IsWide K.width V.width) shelves.items }
    ensures { IfOk result (λ pairs. pairs.items ≡ shelves.items) }
{
    let mut all = Vec::with_capacity(alloc, shelves.len())?;
    for shelf in shelves {
        let pairs = Pairs::new(alloc, shelf)?;
        all.push(pairs)?;
    }
    Ok(all)
}

/// A lock for each part, with its shelf and the log of its number.
pub(crate) fn make_locks<N: Name + LogName, K: Packed, V: Packed, W: Wait>(
    alloc: Global,
    rt: &W,
    logs: Logs<N, CacheState>,
    me: &mut Caller<N, CacheState>,
    shelves: Vec<Pairs<N, K, V>>,
) -> Result<Vec<CachePadded<Mutex<Logged<N, Numbered<N, K, V>, CacheState>>>>, AllocError>
    requires caller { 0 < me.old.parts }
    requires logs { (logs.next ≡ 0) × (logs.left ≡ length shelves.items) }
    requires few { length shelves.items ≤ most_parts }
    ensures count { IfOk result (λ locks. vec_len locks ≡ length shelves.items) }
    ensures begins { IfOk result (λ locks. BeginsAll shelves.items me.new) }
    ensures calls { IfOk result (λ locks. me.new.calls ≡ me.old.calls + length shelves.items) }
    ensures parts { IfOk result (λ locks. me.new.parts ≡ me.old.parts) }
    ensures whole { IfOk result (λ locks. length shelves.items ≡ 1 → me.old.parts + 1 ≡ N.parts
        → length me.new.log ≡ me.new.calls) }
{
    let mut logs = logs;
    let mut locks = Vec::with_capacity(alloc, shelves.len())?;
    let mut number = 0;
    for pairs in shelves {
        let log = logs.take();
        let numbered = Numbered { number, pairs };
        let logged = Logged::new(rt, log, me, numbered);
        locks.push(CachePadded::new(Mutex::new(logged)))?;
        number += 1;
    }
    Ok(locks)
}

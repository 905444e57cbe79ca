//! What a cache is opened from.
ghost use Rattle.std.specs.Prelude.{◌≡◌, ◌+◌, ◌≤◌, IfOk, None};
ghost use Rattle.std.specs.Result.{result_err};
ghost use Rattle.cache_config.specs.Configs.{first_cache_fault, told_fault};
ghost use Rattle.bump_cache.specs.Opening.{most_callers, most_words};

use crate::law::PairLaw;
use crate::states::CacheState;
use bump_heads::Blank;
use bump_rules::Config;
use cache_config::{CacheConfig, CacheRefusal};
use call_log::LogBlank;
use packed_words::Packed;
use std::alloc::{AllocError, Global};
use std::marker::Model;

// A cache has at most so many callers: more than threads.
const MOST_CALLERS: u64 = 1 << 32;

/// What a cache is opened from: the words of its store and a log, which have no name yet, and its configuration.
#[derive(Drop)]
pub struct CacheBlank<K: Packed, V: Packed> {
    pub(crate) words: Blank<PairLaw<K, V>>,
    pub(crate) log: LogBlank<CacheState>,
    // what the words were made from
    pub(crate) store: Config,
    pub(crate) config: CacheConfig,
}

impl<K: Packed, V: Packed> Model for CacheBlank<K, V> {
    ghost use Rattle.std.specs.Prelude.{◌≡◌, ◌+◌, ◌≤◌};
    ghost use Rattle.bump_cache.specs.Opening.{CacheBlankView, IsCacheBlank, most_words, most_callers};

    ghost Value = { CacheBlankView };

    ghost view = { λ b. record { table = b.words.table; log = b.log; config = b.config } };

    ghost invariant = { λ b. IsCacheBlank b.words b.store b.config × (b.words.table.slots ≡ K.width + V.width)
        × (K.width + V.width ≤ most_words) × (b.log.parts ≡ most_callers + b.config.parts)
        × (b.log.values ≡ b.config.parts) };
}

// What a cache of this configuration is opened from.
fn make<K: Packed, V: Packed>(
    alloc: Global,
    config: &CacheConfig,
) -> Result<CacheBlank<K, V>, AllocError>
    requires sound { first_cache_fault config.now ≡ None }
    requires words { K.width + V.width ≤ most_words }
    ensures { IfOk result (λ blank. (blank.config ≡ config.now) × (blank.log.parts ≡ most_callers + config.now.parts)
        × (blank.log.values ≡ config.now.parts)) }
{
    let store = config.store(alloc)?;
    let words = Blank::with_words(alloc, &store, (K::words() + V::words()) as u32)?;
    Ok(CacheBlank {
        words,
        log: LogBlank::new(MOST_CALLERS, config.parts),
        store,
        config: *config,
    })
}

impl<K: Packed, V: Packed> CacheBlank<K, V> {
    /// What a cache of this configuration is opened from. A key and a value take at most 64 words together. It is
    /// refused as Fault, with the first fault that the configuration has, exactly where it has one; and as Memory only
    /// for want of memory.
    pub fn new(alloc: Global, config: &CacheConfig) -> Result<CacheBlank<K, V>, CacheRefusal>
        requires words { K.width + V.width ≤ most_words }
        ensures fault { told_fault (result_err result) ≡ first_cache_fault config.now }
        ensures config { IfOk result (λ blank. blank.config ≡ config.now) }
        ensures callers { IfOk result (λ blank. blank.log.parts ≡ most_callers + config.now.parts) }
        ensures values { IfOk result (λ blank. blank.log.values ≡ config.now.parts) }
    {
        match config.fault() {
            Some(fault) => Err(CacheRefusal::Fault(fault)),
            None => match make(alloc, config) {
                Ok(blank) => Ok(blank),
                Err(AllocError) => Err(CacheRefusal::Memory),
            },
        }
    }
}

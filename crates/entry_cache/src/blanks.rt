//! What a cache of entries is opened from.
ghost use Rattle.std.specs.Prelude.{◌≡◌, ◌+◌, IfOk};
ghost use Rattle.std.specs.Result.{result_err};
ghost use Rattle.cache_config.specs.Configs.{first_cache_fault, told_fault};
ghost use Rattle.bump_cache.specs.Opening.{most_callers};

use bump_cache::{CacheBlank, CacheConfig, CacheRefusal, Seed};
use std::alloc::Global;
use std::marker::Model;

/// What a cache of entries is opened from: the blank of the cache of its rows.
#[derive(Drop)]
pub struct EntryBlank {
    pub(crate) rows: CacheBlank<u64, u64>,
    // that of the rows' configuration
    pub(crate) seed: Seed,
}

impl Model for EntryBlank {
    ghost use Rattle.std.specs.Prelude.{◌≡◌};
    ghost use Rattle.bump_cache.specs.Opening.{CacheBlankView};

    ghost Value = { CacheBlankView };

    ghost view = { λ b. b.rows };

    ghost invariant = { λ b. b.seed ≡ b.rows.config.seed };
}

impl EntryBlank {
    /// What a cache of entries of this configuration is opened from. It is refused as Fault, with the first fault that the
    /// configuration has, exactly where it has one; and as Memory only for want of memory. `temporary` says nothing here: rows don't
    /// expire, and an entry has its own time.
    pub fn new(alloc: Global, config: &CacheConfig) -> Result<EntryBlank, CacheRefusal>
        ensures fault { told_fault (result_err result) ≡ first_cache_fault config.now }
        ensures config { IfOk result (λ blank. blank.config ≡ config.now) }
        ensures callers { IfOk result (λ blank. blank.log.parts ≡ most_callers + config.now.parts) }
        ensures values { IfOk result (λ blank. blank.log.values ≡ config.now.parts) }
    {
        match CacheBlank::<u64, u64>::new(alloc, config) {
            Ok(rows) => Ok(EntryBlank {
                rows,
                seed: config.seed,
            }),
            Err(why) => Err(why),
        }
    }
}

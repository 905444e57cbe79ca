//! The configuration of a cache, as a caller asks for its faults.
ghost use Rattle.cache_config.specs.Configs.{first_cache_fault};
ghost use Rattle.std.specs.Prelude.{◌≡◌};

use cache_config::{CacheConfig, CacheFault};

/// The first fault of a configuration.
pub fn fault(config: &CacheConfig) -> Option<CacheFault>
    ensures { result ≡ first_cache_fault config.now }
{
    config.fault()
}

//! A cache with entries that expire, and two who change it.
ghost use Rattle.bump_cache.specs.Opening.{IsNamed};

use bump_cache::{Cache, CacheBlank, CacheConfig, Changer, LogName, Name, Opened, Seed, open};
use std::alloc::{AllocError, Global};
use std::sync::Wait;

/// So many keys are put.
pub const KEYS: u64 = 20;

/// A tend looks at so many chunks, so that one alone doesn't end all entries.
pub const LOOKS: u32 = 10;

/// When the entries expire.
pub const EXPIRY: u64 = 10;

const SEED: Seed = Seed {
    first: 5,
    second: 6,
};

// Puts a key, which expires then; and tells whether that was refused.
fn is_refused<N: Name + LogName, W: Wait>(
    rt: &W,
    cache: &Cache<N, u64, u64>,
    changer: &mut Changer<N>,
    key: u64,
) -> bool {
    cache
        .put_until(rt, &mut changer.me, &key, &key, EXPIRY, 1)
        .is_err()
}

/// How many entries have ended because they had expired.
pub fn reclaimed<N: Name + LogName, W: Wait>(
    rt: &W,
    cache: &Cache<N, u64, u64>,
    changer: &mut Changer<N>,
) -> u64 {
    cache.stats(rt, &mut changer.me).crawler_reclaimed()
}

/// A cache, who tends it and who asks.
#[derive(Drop)]
pub struct Stand<N: Name + LogName> {
    /// The cache.
    pub cache: Cache<N, u64, u64>,

    /// Who tends.
    pub tender: Changer<N>,

    /// Who asks.
    pub other: Changer<N>,
}

/// The configuration of a cache with room for all keys, whose tends look at few chunks.
pub fn config() -> CacheConfig {
    CacheConfig {
        expiry_looks: LOOKS,
        ..CacheConfig::new(40, 1, SEED)
    }
}

/// Opens a cache, and puts the keys, all of which expire then; and tells how many of the puts were refused.
pub fn open_filled<N: Name + LogName, W: Wait>(
    rt: &W,
    alloc: Global,
    blank: CacheBlank<u64, u64>,
) -> Result<(Stand<N>, u64), AllocError>
    requires { IsNamed N.table N.book N.name N.parts blank }
{
    let Opened {
        cache,
        caller: mut me,
        readers: _readers,
    } = open::<N, u64, u64, W>(alloc, rt, blank)?;
    let tender = Changer::new(me.another());
    let mut other = Changer::new(me);
    let mut refused = 0u64;
    for key in 0..KEYS {
        if is_refused(rt, &cache, &mut other, key) {
            refused = refused.saturating_add(1);
        }
    }
    let stand = Stand {
        cache,
        tender,
        other,
    };
    Ok((stand, refused))
}

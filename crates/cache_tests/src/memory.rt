//! How many bytes a cache takes, and how many items it has for a limit of them. `checks/cache_memory` counts the bytes
//! that a cache really asks for.
ghost use Rattle.std.specs.Prelude.{◌≡◌};

use crate::expecting::*;
use crate::stands::SEED;
use bump_cache::CacheConfig;
use std::process::Abort;
use std::test::Fail;

// So many items a cache has for a limit of bytes.
fn items_for(limit: u64, readers: u32, key_words: u32, value_words: u32) -> Option<u32> {
    let config = CacheConfig::for_bytes(limit, readers, SEED, key_words, value_words)?;
    Some(config.items)
}

// So many it has, or there is none for such a limit.
fn expect_items(
    rt: &impl Abort,
    limit: u64,
    readers: u32,
    key_words: u32,
    value_words: u32,
    wanted: Option<u32>,
) {
    expect_eq!(rt; items_for(limit, readers, key_words, value_words), wanted);
}

#[test]
fn a_limit_of_bytes_says_how_many_items(rt: HostRuntime) -> Result<(), Fail> {
    // As many as `checks/cache_memory` counts.
    let taken = CacheConfig::new(984_000, 1, SEED).bytes_taken(1, 1);
    expect_eq!(&rt; taken, 80_099_590);
    expect_items(&rt, 80_099_590, 1, 1, 1, Some(984_000));
    expect_items(&rt, 80_099_589, 1, 1, 1, Some(983_999));
    expect_items(&rt, 67_714, 1, 1, 1, Some(1));
    expect_items(&rt, 67_713, 1, 1, 1, None);
    expect_items(&rt, 1 << 40, 64, 32, 32, Some(127_999_935));
    expect_items(&rt, 1 << 40, 0, 1, 1, None);
    expect_items(&rt, 1 << 40, 65, 1, 1, None);
    Ok(())
}

// So many bytes a cache of these items takes, in so many parts and with so many readers.
fn taken_in_parts(items: u32, parts: u32, readers: u32) -> u64 {
    let mut config = CacheConfig::new(items, readers, SEED);
    config.parts = parts;
    match config.fault() {
        None => config.bytes_taken(1, 1),
        Some(_) => 0,
    }
}

#[test]
fn parts_take_bytes_of_their_own(rt: HostRuntime) -> Result<(), Fail> {
    // As many as `checks/cache_memory` counts.
    expect_eq!(&rt; taken_in_parts(1_000, 1, 1), 148_966);
    expect_eq!(&rt; taken_in_parts(1_000, 2, 1), 216_315);
    expect_eq!(&rt; taken_in_parts(1_000, 4, 7), 1_942_565);
    expect_eq!(&rt; taken_in_parts(1_000, 16, 4), 4_348_009);
    Ok(())
}

//! Puts of entries that weigh what they do by themselves, in caches of few entries, of one part and of several, with rings of 1.
ghost use Rattle.entry_cache.specs.Opening.{IsNamed};

use crate::calls::SEED;
use entry_cache::{
    AnyEntry, CacheConfig, Changer, ENTRY_BYTES, EntryBlank, LogName, Name, OpenedEntries, TooMuch,
    Weighed, WeighedCache, Weighs, open, weight_of,
};
use std::alloc::{AllocError, Global};
use std::marker::Brand;
use std::sync::Wait;
use std::test::Fail;

// Caches of so many entries, parts and spare chunks.
const SIZES: [(u32, u32, u32); 5] = [(1, 1, 1), (2, 2, 1), (3, 1, 2), (16, 4, 1), (64, 64, 1)];

// So many keys are put.
const KEYS: u32 = 200;

// A text of so many letters, which has room for no more.
fn text_of(alloc: Global, letters: u32) -> Result<String, AllocError> {
    let mut text = String::with_capacity(alloc, letters as usize)?;
    for _ in 0..letters {
        text.push('a')?;
    }
    Ok(text)
}

// Puts a text under a key. It tells whether it was put exactly if it is light enough, and its part's entries weigh no less than it
// then, and no more than the part's share.
fn put<N: Name + LogName, W: Wait>(
    rt: &W,
    cache: &WeighedCache<N, u64, String>,
    changer: &mut Changer<N>,
    key: u32,
    text: String,
) -> bool {
    let key = u64::from(key);
    let weight = weight_of(&key, &text);
    let own = weight == ENTRY_BYTES.saturating_add(8).saturating_add(text.weight());
    let part = cache.entries().part_of(&key);
    let is_light = weight <= cache.share() / 8;
    let put = match cache.put_sized(rt, &mut changer.me, key, text, 0, 1) {
        Ok(did) => is_light && *did.put.key() == key,
        Err(it) => !is_light && it.why == TooMuch::TooHeavy && it.key == key,
    };
    let bytes = cache.bytes(part);
    let counted = !is_light || bytes >= weight;
    own && put && counted && bytes <= cache.share()
}

// Opens a cache with a limit under the names that the blank's table and log have, and puts texts of more and more letters. It tells
// how many puts were wrong.
fn run<N: Name + LogName, W: Wait>(
    rt: &W,
    alloc: Global,
    blank: EntryBlank,
    limit: u64,
) -> Result<u64, AllocError>
    requires { IsNamed N.table N.book N.name N.parts blank }
{
    let OpenedEntries { cache, caller, .. } = open::<N, u64, Weighed<String>, AnyEntry, W>(
        alloc, rt, blank,
    )?;
    let cache = WeighedCache::new(alloc, cache, limit)?;
    let mut changer = Changer::new(caller);
    let mut wrong = 0u64;
    for key in 0..KEYS {
        let text = text_of(alloc, key)?;
        let right = put(rt, &cache, &mut changer, key, text);
        wrong = wrong.saturating_add(u64::from(!right));
    }
    Ok(wrong)
}

#[test]
fn entries_weigh_what_they_take(rt: HostRuntime) -> Result<(), Fail> {
    for (items, parts, spare) in SIZES {
        let config = CacheConfig {
            parts,
            spare,
            ring: 1,
            ..CacheConfig::new(items, 1, SEED)
        };
        // up to some 100 letters are light enough
        let limit = u64::from(parts).saturating_mul(8 * (ENTRY_BYTES + 8 + 24 + 100));
        let blank = EntryBlank::new(rt.alloc(), &config)?;
        let wrong = run::<Brand, _>(&rt, rt.alloc(), blank, limit)?;
        assert_eq!(rt; wrong, 0, "of {items} entries in {parts} parts");
    }
    Ok(())
}

//! Gets of byte strings inside Rattle, to be counted and compared with the same gets from C, as c/tests/cache_counted.c
//! makes them: of 1,024 items that are marked already, with keys and values of 8 bytes, whose length the compiler
//! doesn't know. It prints the sum of all values that it got.
#![tactic(auto)]

ghost use Rattle.std.specs.Prelude.{◌≡◌, ◌+◌, None};
ghost use Rattle.cache_config.specs.Configs.{IsStoreOf};
ghost use Rattle.cache_handles.specs.Configs.{first_byte_fault, key_words_of, value_words_of};

use anyhow::Result;
use bump_rules::Config;
use cache_handles::{Blank, ByteConfig, ByteReader, GetTold, Name, open};
use std::alloc::{AllocError, Global};
use std::marker::Brand;

// So many items there are.
const ITEMS: u32 = 1_024;

// So often all keys are got before the gets that are counted, so that the items have both marks then.
const MARKING: u64 = 4;

// So often all keys are got then.
const ROUNDS: u64 = 100;

// Gets all keys so often, of so many bytes each, which are at most 8.
#[inline(never)]
fn timed_calls<N: Name>(reader: &mut ByteReader<N>, rounds: u64, length: usize) -> u64 {
    let mut sum: u64 = 0;
    for _round in 0..rounds {
        for number in 0..u64::from(ITEMS) {
            let bytes = number.to_le_bytes();
            if length > bytes.len() {
                return sum;
            }
            if let GetTold::Found { value: _, words } = reader.get(&bytes[..length], 5) {
                sum = sum.wrapping_add(words[0]);
            }
        }
    }
    sum
}

// Puts all items into a cache, and gets them.
fn run<N: Name>(
    alloc: Global,
    words: Blank,
    store: &Config,
    config: &ByteConfig,
) -> Result<u64, AllocError>
    requires name { words.table ≡ N.table }
    requires slots { words.table.slots ≡ key_words_of config.now + value_words_of config.now }
    requires made { words.config ≡ store.now }
    requires store { IsStoreOf config.now.cache store.now }
    requires sound { first_byte_fault config.now ≡ None }
{
    let mut opened = open::<N>(alloc, words, store, config, 0)?;
    let (Some(mut part), Some(mut reader)) = (opened.part(0), opened.reader(0)) else {
        return Ok(0);
    };
    for number in 0..u64::from(ITEMS) {
        let bytes = number.to_le_bytes();
        let _told = part.put(&bytes, &bytes, 0, 0, 0);
    }
    let length = config.key_bytes as usize;
    let _sum = timed_calls(&mut reader, MARKING, length);
    Ok(timed_calls(&mut reader, ROUNDS, length))
}

fn main(rt: HostRuntime) -> Result<()> {
    let config = ByteConfig::defaults(ITEMS, 1, 8, 8);
    match config.fault() {
        Some(_) => return Ok(()),
        None => {}
    }
    let store = config.cache.store(rt.alloc())?;
    let words = Blank::with_words(rt.alloc(), &store, config.words())?;
    let sum = run::<Brand>(rt.alloc(), words, &store, &config)?;
    println!(rt; "{sum:?}")?;
    Ok(())
}

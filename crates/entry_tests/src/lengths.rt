//! Texts and rows of bytes of all lengths, each with a sum over its bytes.
ghost use Rattle.entry_cache.specs.Opening.{IsNamed};

use crate::calls::small_config;
use entry_cache::{
    AnyEntry, CacheConfig, Changer, EntryBlank, EntryCache, LogName, Name, OpenedEntries, open,
};
use std::alloc::{AllocError, Global};
use std::hash::Hash;
use std::marker::Brand;
use std::sync::Wait;
use std::test::Fail;

// The longest value has so many bytes.
const LONGEST: u64 = 100_000;

// So many entries are there.
const ENTRIES: u32 = 20;

// A row of bytes, and their sum.
#[derive(Drop)]
struct Row {
    bytes: Vec<u8>,
    sum: u64,
}

fn sum_of(bytes: &[u8]) -> u64 {
    let mut sum = bytes.len() as u64;
    for byte in bytes {
        sum = sum.wrapping_mul(0x0100_0000_01b3) ^ u64::from(*byte);
    }
    sum
}

// How many bytes the value of a number has: 1, and more and more up to the most.
fn length_of(number: u64) -> u64 {
    number.saturating_mul(number).wrapping_mul(7) % LONGEST + 1
}

// The bytes of a number.
fn row_of(alloc: Global, number: u64) -> Result<Row, AllocError> {
    let length = length_of(number);
    let mut bytes = Vec::with_capacity(alloc, length as usize)?;
    for at in 0..length {
        bytes.push((at.wrapping_mul(number.wrapping_add(1)) % 251) as u8)?;
    }
    let sum = sum_of(&bytes);
    Ok(Row { bytes, sum })
}

// A text as long, of letters.
fn text_of(alloc: Global, number: u64) -> Result<String, AllocError> {
    let mut text = String::new(alloc);
    for at in 0..length_of(number) {
        text.push(if at.wrapping_add(number) % 3 == 0 {
            'a'
        } else {
            'ß'
        })?;
    }
    Ok(text)
}

// Puts a value under a key. It tells whether it was put.
fn put<N: Name + LogName, K: Hash + Drop, V: Drop, W: Wait>(
    rt: &W,
    cache: &EntryCache<N, K, V>,
    changer: &mut Changer<N>,
    key: K,
    value: V,
    now: u64,
) -> bool {
    cache.put(rt, &mut changer.me, key, value, now).is_ok()
}

// Opens a cache under the names that the blank's table and log have, puts so many rows and gets them, and those before. It tells how
// many were wrong.
fn run_rows<N: Name + LogName, W: Wait>(
    rt: &W,
    alloc: Global,
    blank: EntryBlank,
    count: u64,
) -> Result<u64, AllocError>
    requires { IsNamed N.table N.book N.name N.parts blank }
{
    let OpenedEntries {
        cache,
        caller,
        mut readers,
    } = open::<N, u64, Row, AnyEntry, W>(alloc, rt, blank)?;
    let mut changer = Changer::new(caller);
    let mut wrong = 0u64;
    for number in 0..count {
        let row = row_of(alloc, number)?;
        let is_put = put(rt, &cache, &mut changer, number, row, number);
        let before = number.saturating_sub(5);
        let right = match readers.first_mut() {
            Some(reader) => match reader.get(&cache, &before, number) {
                Some(row) => {
                    row.bytes.len() as u64 == length_of(before) && sum_of(&row.bytes) == row.sum
                }
                None => false,
            },
            None => false,
        };
        wrong = wrong.saturating_add(u64::from(!right || !is_put));
    }
    Ok(wrong)
}

// The same with texts, which are keys, too.
fn run_texts<N: Name + LogName, W: Wait>(
    rt: &W,
    alloc: Global,
    blank: EntryBlank,
    count: u64,
) -> Result<u64, AllocError>
    requires { IsNamed N.table N.book N.name N.parts blank }
{
    let OpenedEntries {
        cache,
        caller,
        mut readers,
    } = open::<N, String, String, AnyEntry, W>(alloc, rt, blank)?;
    let mut changer = Changer::new(caller);
    let mut wrong = 0u64;
    for number in 0..count {
        let text = text_of(alloc, number)?;
        let key = text_of(alloc, number)?;
        let is_put = put(rt, &cache, &mut changer, key, text, number);
        let before = text_of(alloc, number.saturating_sub(5))?;
        let right = match readers.first_mut() {
            Some(reader) => match reader.get(&cache, before.as_str(), number) {
                Some(found) => found.value().as_str() == before.as_str(),
                None => false,
            },
            None => false,
        };
        wrong = wrong.saturating_add(u64::from(!right || !is_put));
    }
    Ok(wrong)
}

#[test]
fn rows_and_texts_of_all_lengths_are_found_whole(rt: HostRuntime) -> Result<(), Fail> {
    let config = small_config(ENTRIES, 1);
    let blank = EntryBlank::new(rt.alloc(), &config)?;
    assert_eq!(rt; run_rows::<Brand, _>(&rt, rt.alloc(), blank, 400)?, 0);
    let blank = EntryBlank::new(rt.alloc(), &config)?;
    assert_eq!(rt; run_texts::<Brand, _>(&rt, rt.alloc(), blank, 60)?, 0);
    Ok(())
}

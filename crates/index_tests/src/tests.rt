//! Tests of the index: random calls beside a plain list, and readers beside the writer.
ghost use Rattle.std.specs.Prelude.{◌≡◌, ◌<◌, ◌≤◌, true, length};

use bump_rules::ItemId;
use cache_index::{Eye, Index, IndexReader};
use std::alloc::Global;
use std::sync::atomic::AtomicBool;
use std::sync::atomic::Ordering::SeqCst;
use std::test::Fail;
use std::thread;

/// How many random calls a test makes.
const TURNS: u32 = 20_000;

// What the plain list has of a chunk.
#[derive(Clone, Copy)]
struct Noted {
    hash: u32,
    generation: u32,
}

// The next random number after a state.
fn random(state: &mut u64) -> u64 {
    *state = state
        .wrapping_mul(6_364_136_223_846_793_005)
        .wrapping_add(1_442_695_040_888_963_407);
    *state >> 33
}

// A hash with few homes and few tags, or one for all.
fn hash_of(number: u64, hashes: u64) -> u32 {
    ((number % hashes.max(1)).wrapping_mul(0x9E37_79B9_7F4A_7C15) >> 32) as u32
}

// Whether a chunk is one of the index's own.
fn has(index: &Index, chunk: u32) -> bool
    ensures { result ≡ true → (index.now.first ≤ chunk) × (chunk < length index.now.table) }
{
    let range = index.range();
    range.start <= chunk && chunk < range.end
}

// Puts a life, if its chunk has none.
fn put(index: &mut Index, hash: u32, life: ItemId) {
    if has(index, life.chunk) && !index.leads(life.chunk) {
        index.put(hash, life);
    }
}

// Leads from the hash of a chunk to another life, if that may be; and tells whether it did.
fn lead(index: &mut Index, old: u32, life: ItemId) -> bool {
    if !has(index, old) || !has(index, life.chunk) || !index.leads(old) {
        return false;
    }
    if old == life.chunk {
        index.lead(old, life);
        return true;
    }
    if index.leads(life.chunk) {
        return false;
    }
    index.lead(old, life);
    true
}

// Leads no more to a chunk, if it did.
fn clear(index: &mut Index, chunk: u32) {
    if has(index, chunk) && index.leads(chunk) {
        index.clear(chunk);
    }
}

// Writes what the plain list has of a chunk, counted from the first one on.
fn note(plain: &mut Vec<Option<Noted>>, number: u32, noted: Option<Noted>) {
    if let Some(one) = plain.get_mut(number as usize) {
        *one = noted;
    }
}

// Puts, leads anew or clears, and notes it in the plain list.
fn step(index: &mut Index, plain: &mut Vec<Option<Noted>>, state: &mut u64, hashes: u64) {
    let chunks = u64::from(index.chunks().max(1));
    let number = (random(state) % chunks) as u32;
    let other = (random(state) % chunks) as u32;
    let generation = (random(state) % 1_000_000) as u32;
    let had = plain.get(number as usize).copied().flatten();
    let first = index.range().start;
    let chunk = first.saturating_add(number);
    match had {
        None => {
            let hash = hash_of(random(state), hashes);
            put(index, hash, ItemId { chunk, generation });
            note(plain, number, Some(Noted { hash, generation }));
        }
        Some(noted) => {
            let hash = noted.hash;
            let life = ItemId {
                chunk: first.saturating_add(other),
                generation,
            };
            if lead(index, chunk, life) {
                note(plain, number, None);
                note(plain, other, Some(Noted { hash, generation }));
            } else if generation % 3 == 0 {
                clear(index, chunk);
                note(plain, number, None);
            }
        }
    }
}

// How many answers of a reader's search are this life.
fn times(reader: &IndexReader, eye: &mut Eye, hash: u32, chunk: u32, generation: u32) -> u32
    requires { eye.old.table ≡ reader.now.table }
    ensures { eye.new.table ≡ eye.old.table }
{
    let mut search = reader.search(eye, hash);
    let mut count = 0u32;
    while let Some(life) = search.next(eye) {
        if life.chunk == chunk && life.generation == generation {
            count = count.saturating_add(1);
        }
    }
    count
}

// How many answers of the writer's search are this life.
fn exact_times(index: &mut Index, hash: u32, chunk: u32, generation: u32) -> u32 {
    let mut search = index.search(hash);
    let mut count = 0u32;
    while let Some(life) = index.next_of(&mut search) {
        if life.chunk == chunk && life.generation == generation {
            count = count.saturating_add(1);
        }
    }
    count
}

// Whether the index leads to a chunk.
fn leads(index: &Index, chunk: u32) -> bool {
    has(index, chunk) && index.leads(chunk)
}

// In how many chunks the index isn't as the plain list.
fn differences(
    index: &mut Index,
    reader: &IndexReader,
    eye: &mut Eye,
    plain: &[Option<Noted>],
) -> u32
    requires { eye.old.table ≡ reader.now.table }
    ensures { eye.new.table ≡ eye.old.table }
{
    let mut count = 0u32;
    let mut chunk = index.range().start;
    for one in plain {
        let is_found = match *one {
            None => true,
            Some(noted) => {
                times(reader, eye, noted.hash, chunk, noted.generation) == 1
                    && exact_times(index, noted.hash, chunk, noted.generation) == 1
            }
        };
        if leads(index, chunk) != one.is_some() || !is_found {
            count = count.saturating_add(1);
        }
        chunk = chunk.saturating_add(1);
    }
    count
}

// Random calls on an index of so many chunks from a first one on, with so many hashes; and in how many chunks it wasn't
// as the plain list.
fn run(alloc: Global, first: u32, chunks: u32, hashes: u64) -> Result<u32, Fail> {
    let mut index = Index::new(alloc, first.min(1_000_000), chunks.min(1_000))?;
    let (reader, mut eye) = index.reader()?;
    let mut plain: Vec<Option<Noted>> = Vec::new(alloc);
    for _chunk in 0..chunks.min(1_000) {
        plain.push(None)?;
    }
    let mut state = 1u64;
    let mut wrong = 0u32;
    for turn in 0..TURNS {
        step(&mut index, &mut plain, &mut state, hashes);
        if turn % 200 == 0 {
            wrong = wrong.saturating_add(differences(
                &mut index,
                &reader,
                &mut eye,
                plain.as_slice(),
            ));
        }
    }
    Ok(wrong)
}

#[test]
fn random_calls_in_a_small_index(rt: HostRuntime) -> Result<(), Fail> {
    assert_eq!(rt; run(rt.alloc(), 0, 1, 1)?, 0);
    assert_eq!(rt; run(rt.alloc(), 0, 7, 1)?, 0);
    assert_eq!(rt; run(rt.alloc(), 0, 30, 1_000_000)?, 0);
    Ok(())
}

#[test]
fn random_calls_with_one_hash_for_all(rt: HostRuntime) -> Result<(), Fail> {
    assert_eq!(rt; run(rt.alloc(), 0, 40, 1)?, 0);
    Ok(())
}

#[test]
fn random_calls_in_a_larger_index(rt: HostRuntime) -> Result<(), Fail> {
    assert_eq!(rt; run(rt.alloc(), 0, 300, 700)?, 0);
    Ok(())
}

#[test]
fn random_calls_from_a_first_chunk_on(rt: HostRuntime) -> Result<(), Fail> {
    assert_eq!(rt; run(rt.alloc(), 1, 30, 3)?, 0);
    assert_eq!(rt; run(rt.alloc(), 1_000_000, 40, 1_000_000)?, 0);
    Ok(())
}

/// How many keys the threads' test has: key k has the chunks k, k + KEYS and k + 2 * KEYS in turn.
const KEYS: u32 = 8;

/// How often a reader looks for each key.
const LOOKS: u32 = 20_000;

// How often a reader finds nothing of a key that always has something.
fn missed(reader: &IndexReader, eye: &mut Eye) -> u32
    requires { eye.old.table ≡ reader.now.table }
{
    let mut missed = 0u32;
    for look in 0..LOOKS {
        let key = look % KEYS;
        let mut search = reader.search(eye, hash_of(u64::from(key), 3));
        let mut is_found = false;
        while let Some(life) = search.next(eye) {
            is_found = is_found || life.chunk % KEYS == key;
        }
        if !is_found {
            missed = missed.saturating_add(1);
        }
    }
    missed
}

// Puts each key, by a chunk of its own.
fn put_keys(index: &mut Index) {
    for chunk in 0..KEYS {
        put(
            index,
            hash_of(u64::from(chunk), 3),
            ItemId {
                chunk,
                generation: 0,
            },
        );
    }
}

// Leads each key to another chunk, and so on around, until it is done.
fn lead_around(index: &mut Index, done: &AtomicBool) {
    for turn in 0..100_000_000u32 {
        if done.load(SeqCst) {
            break;
        }
        let old = turn % (3 * KEYS);
        let chunk = (turn + KEYS) % (3 * KEYS);
        let _is_led = lead(
            index,
            old,
            ItemId {
                chunk,
                generation: turn,
            },
        );
    }
}

#[test]
fn a_reader_finds_what_is_led_anew(rt: HostRuntime) -> Result<(), Fail> {
    let mut index = Index::new(rt.alloc(), 0, 3 * KEYS)?;
    put_keys(&mut index);
    let (reader, mut eye) = index.reader()?;
    let done = AtomicBool::new(false);
    let (missed, ()) = thread::join(
        &rt,
        || {
            let count = missed(&reader, &mut eye);
            done.store(true, SeqCst);
            count
        },
        || lead_around(&mut index, &done),
    );
    assert_eq!(rt; missed, 0);
    Ok(())
}

//! A part of four chunks, in which a key has two words and a value one, and two items may be; and its reader. Its class
//! is the only one of its store, or the second.
ghost use Rattle.cache_index.specs.History.{SeesIndex};
ghost use Rattle.std.specs.Prelude.{◌≡◌, ◌≤◌, ◌+◌, ◌∷◌, [], IfOk, IfSome, Some, None, replicate, slice_get};

use bump_class::{Book, RawLane};
use bump_heads::{Blank, Heads, Name};
use bump_rules::{ClassConfig, Config};
use bump_steps::AnyRow;
use bump_unlocked::{UnlockedStore, Worker};
use cache_index::{Eye, Index, IndexReader};
use cache_part::{Bounds, Part, PutItem};
use cache_readers::WordReader;
use keyed_hash::Seed;
use std::alloc::{AllocError, Global};
use std::fmt::Debug;
use std::marker::Brand;
use std::process::Abort;
use std::sync::Arc;
use std::test::Fail;

const CLASS: ClassConfig = ClassConfig {
    chunks: 4,
    hot: 1,
    warm: 1,
};

// One that comes before it.
const CLASS_BEFORE: ClassConfig = ClassConfig {
    chunks: 3,
    hot: 1,
    warm: 1,
};

const BOUNDS: Bounds = Bounds {
    hot: 1,
    warm: 1,
    hot_age: Some(20),
    warm_age: Some(200),
};

const SEED: Seed = Seed {
    first: 7,
    second: 9,
};

// The first of some Books.
fn first_book<N: Name>(books: Vec<Book<N>>) -> Option<Book<N>>
    ensures { IfSome result (λ book. slice_get books.items 0 ≡ Some book) }
{
    books.into_iter().next()
}

// The second of some Books.
fn second_book<N: Name>(books: Vec<Book<N>>) -> Option<Book<N>>
    ensures { IfSome result (λ book. slice_get books.items 1 ≡ Some book) }
{
    let mut left = books.into_iter();
    let _first = left.next();
    left.next()
}

// What a get finds.
fn got<N: Name>(reader: &mut WordReader<N, AnyRow>, key: [u64; 2], now: u64) -> Option<u64>
    requires { N.table.slots ≡ 3 }
{
    let mut value = [0];
    let found = reader.get(SEED.hash(&key), &key, &mut value, now);
    if found { Some(value[0]) } else { None }
}

// What a peek finds.
fn peeked<N: Name>(reader: &mut WordReader<N, AnyRow>, key: [u64; 2], now: u64) -> Option<u64>
    requires { N.table.slots ≡ 3 }
{
    let mut value = [0];
    let found = reader.peek(SEED.hash(&key), &key, &mut value, now);
    if found { Some(value[0]) } else { None }
}

// Whether there is something.
fn is_there<N: Name>(reader: &mut WordReader<N, AnyRow>, key: [u64; 2], now: u64) -> bool
    requires { N.table.slots ≡ 3 }
{
    reader.contains(SEED.hash(&key), &key, now)
}

// The value of a key at this time, as the reader finds it: a get, a peek, and whether there is one. Where they differ,
// 0.
fn value_at<N: Name>(reader: &mut WordReader<N, AnyRow>, key: [u64; 2], now: u64) -> Option<u64>
    requires { N.table.slots ≡ 3 }
{
    let found = got(reader, key, now);
    let same = peeked(reader, key, now) == found;
    if same && is_there(reader, key, now) == found.is_some() {
        found
    } else {
        Some(0)
    }
}

// The same at time 20.
fn value<N: Name>(reader: &mut WordReader<N, AnyRow>, key: [u64; 2]) -> Option<u64>
    requires { N.table.slots ≡ 3 }
{
    value_at(reader, key, 20)
}

// The value of a key, as it stands in the item whose hold the reader hands out.
fn held_value<N: Name>(reader: &mut WordReader<N, AnyRow>, key: [u64; 2]) -> Option<u64>
    requires { N.table.slots ≡ 3 }
{
    let mut hold = reader.hold(SEED.hash(&key), &key, 20)?;
    let mut value = [0];
    reader.read(&mut hold, 2, &mut value);
    let word = hold.word(reader.heads(), 2);
    hold.release(reader.heads());
    Some(if word == value[0] { word } else { 0 })
}

// A put of what expires then that isn't refused, with the label and the row of what it evicts.
fn put<N: Name>(
    rt: &impl Abort,
    part: &mut Part<N, AnyRow>,
    row: [u64; 3],
    expires: u64,
    evicted: &mut [u64; 4],
    now: u64,
) -> PutItem
    requires key { part.old.key_words ≡ 2 }
    requires value { part.old.value_words ≡ 1 }
    ensures key { part.new.key_words ≡ 2 }
    ensures value { part.new.value_words ≡ 1 }
{
    let mut no_lanes: [RawLane<N>; 0] = [];
    match part.put(
        &row,
        expires,
        true,
        &mut [0; 2],
        evicted,
        &mut no_lanes,
        0,
        now,
    ) {
        Ok(put) => put,
        Err(_) => panic!(rt; "there is room"),
    }
}

// What was told is what was wanted. Each comparison is proved here, once, and not where it is made: so a failure names
// this file, and says what was compared.
fn expect<T: PartialEq + Debug>(rt: &impl Abort, what: &str, told: &T, wanted: &T) {
    assert_eq!(rt; told, wanted, "{what}");
}

// The reader finds this value of a key.
fn expect_value<N: Name>(
    rt: &impl Abort,
    reader: &mut WordReader<N, AnyRow>,
    key: [u64; 2],
    wanted: Option<u64>,
)
    requires { N.table.slots ≡ 3 }
{
    let told = value(reader, key);
    expect(rt, "the value", &told, &wanted);
}

// The part finds the item of a key in this chunk.
fn expect_chunk<N: Name>(
    rt: &impl Abort,
    part: &mut Part<N, AnyRow>,
    key: [u64; 2],
    wanted: Option<u32>,
)
    requires key { part.old.key_words ≡ 2 }
    requires value { part.old.value_words ≡ 1 }
    ensures key { part.new.key_words ≡ 2 }
    ensures value { part.new.value_words ≡ 1 }
{
    let told = part.find(&key);
    expect(rt, "the chunk", &told, &wanted);
}

// A key is put, and put anew, and then another one: so many items as may be. It tells the chunk of the first one.
fn put_two<N: Name>(
    rt: &impl Abort,
    part: &mut Part<N, AnyRow>,
    reader: &mut WordReader<N, AnyRow>,
    evicted: &mut [u64; 4],
) -> u32
    requires slots { N.table.slots ≡ 3 }
    requires key { part.old.key_words ≡ 2 }
    requires value { part.old.value_words ≡ 1 }
    ensures key { part.new.key_words ≡ 2 }
    ensures value { part.new.value_words ≡ 1 }
{
    expect_chunk(rt, part, [1, 2], None);
    expect_value(rt, reader, [1, 2], None);
    let first = put(rt, part, [1, 2, 30], 0, evicted, 5);
    expect(rt, "what ended", &(first.old, first.evicted), &(None, None));
    expect_value(rt, reader, [1, 2], Some(30));
    expect_value(rt, reader, [2, 1], None);
    expect_chunk(rt, part, [1, 2], Some(first.chunk));
    let again = put(rt, part, [1, 2, 31], 40, evicted, 6);
    expect(rt, "what it had", &again.old, &Some(first.chunk));
    expect_value(rt, reader, [1, 2], Some(31));
    let _ = put(rt, part, [3, 4, 50], 0, evicted, 7);
    expect_value(rt, reader, [3, 4], Some(50));
    again.chunk
}

// A third key evicts the first one, which is in this chunk. It tells the chunk of the third one.
fn put_third<N: Name>(
    rt: &impl Abort,
    part: &mut Part<N, AnyRow>,
    reader: &mut WordReader<N, AnyRow>,
    evicted: &mut [u64; 4],
    first: u32,
) -> u32
    requires slots { N.table.slots ≡ 3 }
    requires key { part.old.key_words ≡ 2 }
    requires value { part.old.value_words ≡ 1 }
    ensures key { part.new.key_words ≡ 2 }
    ensures value { part.new.value_words ≡ 1 }
{
    expect(rt, "no row", &*evicted, &[0, 0, 0, 0]);
    let third = put(rt, part, [5, 6, 70], 0, evicted, 8);
    expect(rt, "what is evicted", &third.evicted, &Some(first));
    expect(rt, "its row", &*evicted, &[40, 1, 2, 31]);
    expect_value(rt, reader, [1, 2], None);
    expect_value(rt, reader, [3, 4], Some(50));
    expect_value(rt, reader, [5, 6], Some(70));
    third.chunk
}

// The third key, which is in this chunk, is removed, once.
fn remove_third<N: Name>(
    rt: &impl Abort,
    part: &mut Part<N, AnyRow>,
    reader: &mut WordReader<N, AnyRow>,
    third: u32,
)
    requires slots { N.table.slots ≡ 3 }
    requires key { part.old.key_words ≡ 2 }
    requires value { part.old.value_words ≡ 1 }
    ensures key { part.new.key_words ≡ 2 }
    ensures value { part.new.value_words ≡ 1 }
{
    let mut old = [0; 2];
    let has = part.look(&[3, 4], &mut old).is_some();
    expect(rt, "another one", &(has, old), &(true, [0, 50]));
    let removed = part.remove(&[5, 6], &mut old);
    expect(
        rt,
        "the removed one",
        &(removed, old),
        &(Some(third), [0, 70]),
    );
    let removed = part.remove(&[5, 6], &mut old);
    expect(rt, "nothing more", &(removed, old), &(None, [0, 70]));
    expect_value(rt, reader, [5, 6], None);
    let held = held_value(reader, [5, 6]);
    expect(rt, "no hold", &held, &None);
}

// Each call, and what it answers.
fn call_each<N: Name>(
    rt: &impl Abort,
    part: &mut Part<N, AnyRow>,
    lanes: &mut [RawLane<N>],
    reader: &mut WordReader<N, AnyRow>,
)
    requires slots { N.table.slots ≡ 3 }
    requires key { part.old.key_words ≡ 2 }
    requires value { part.old.value_words ≡ 1 }
    ensures key { part.new.key_words ≡ 2 }
    ensures value { part.new.value_words ≡ 1 }
{
    let mut evicted = [0; 4];
    let first = put_two(rt, part, reader, &mut evicted);
    let third = put_third(rt, part, reader, &mut evicted, first);
    part.tend(lanes, 8, 9, BOUNDS, 4);
    expect_value(rt, reader, [3, 4], Some(50));
    let held = held_value(reader, [3, 4]);
    expect(rt, "the value held", &held, &Some(50));
    remove_third(rt, part, reader, third);
    expect(rt, "evicted", &part.stats().evicted(), &1);
    expect(
        rt,
        "hits and misses",
        &(reader.hits(), reader.misses()),
        &(7, 5),
    );
}

// What is tended piece by piece, and cleared.
fn clear_all<N: Name>(
    rt: &impl Abort,
    part: &mut Part<N, AnyRow>,
    lanes: &mut [RawLane<N>],
    reader: &mut WordReader<N, AnyRow>,
)
    requires slots { N.table.slots ≡ 3 }
    requires key { part.old.key_words ≡ 2 }
    requires value { part.old.value_words ≡ 1 }
    ensures key { part.new.key_words ≡ 2 }
    ensures value { part.new.value_words ≡ 1 }
{
    part.drain(lanes, 8, 10);
    part.balance(3, BOUNDS, 10);
    expect_value(rt, reader, [3, 4], Some(50));
    part.clear();
    expect_value(rt, reader, [3, 4], None);
    expect_chunk(rt, part, [3, 4], None);
}

// The reader finds this value of a key at this time.
fn expect_value_at<N: Name>(
    rt: &impl Abort,
    reader: &mut WordReader<N, AnyRow>,
    key: [u64; 2],
    now: u64,
    wanted: Option<u64>,
)
    requires { N.table.slots ≡ 3 }
{
    let told = value_at(reader, key, now);
    expect(rt, "the value then", &told, &wanted);
}

// What expires soon is in TEMP. Behind its time no reader finds it. It tells the chunk of the first such item.
fn put_what_expires<N: Name>(
    rt: &impl Abort,
    part: &mut Part<N, AnyRow>,
    reader: &mut WordReader<N, AnyRow>,
) -> u32
    requires slots { N.table.slots ≡ 3 }
    requires key { part.old.key_words ≡ 2 }
    requires value { part.old.value_words ≡ 1 }
    ensures key { part.new.key_words ≡ 2 }
    ensures value { part.new.value_words ≡ 1 }
{
    let mut evicted = [0; 4];
    let soon = put(rt, part, [1, 2, 30], 30, &mut evicted, 20);
    let _ = put(rt, part, [3, 4, 50], 31, &mut evicted, 20);
    let stats = part.stats();
    let sizes = (stats.number_temp, stats.number_hot);
    expect(rt, "TEMP and HOT", &sizes, &(1, 1));
    expect_value_at(rt, reader, [1, 2], 29, Some(30));
    expect_value_at(rt, reader, [1, 2], 30, None);
    expect_value_at(rt, reader, [3, 4], 30, Some(50));
    soon.chunk
}

// What has expired ends where its chunk has its turn.
fn expire<N: Name>(
    rt: &impl Abort,
    part: &mut Part<N, AnyRow>,
    lanes: &mut [RawLane<N>],
    reader: &mut WordReader<N, AnyRow>,
)
    requires slots { N.table.slots ≡ 3 }
    requires key { part.old.key_words ≡ 2 }
    requires value { part.old.value_words ≡ 1 }
    ensures key { part.new.key_words ≡ 2 }
    ensures value { part.new.value_words ≡ 1 }
{
    let soon = put_what_expires(rt, part, reader);
    expect_chunk(rt, part, [1, 2], Some(soon));
    let early = part.end_expired(4, 29);
    let _ = part.end_expired(1, 30);
    let _ = part.end_expired(3, 30);
    expect_chunk(rt, part, [1, 2], None);
    let stats = part.stats();
    let told = (early, stats.crawler_reclaimed(), stats.expired_unfetched());
    expect(rt, "what expired", &told, &(0, 1, 0));
    part.tend(lanes, 8, 31, BOUNDS, 4);
    expect_chunk(rt, part, [3, 4], None);
    expect(rt, "both", &part.stats().crawler_reclaimed(), &2);
}

// Where room is needed behind its time, it is reclaimed: the label says when it expired.
fn reclaim<N: Name>(rt: &impl Abort, part: &mut Part<N, AnyRow>)
    requires key { part.old.key_words ≡ 2 }
    requires value { part.old.value_words ≡ 1 }
{
    let mut evicted = [0; 4];
    let _ = put(rt, part, [1, 2, 30], 60, &mut evicted, 40);
    let _ = put(rt, part, [3, 4, 50], 0, &mut evicted, 40);
    let _ = put(rt, part, [5, 6, 70], 0, &mut evicted, 60);
    expect(rt, "its row", &evicted, &[60, 1, 2, 30]);
    let stats = part.stats();
    let told = (
        stats.evicted(),
        stats.reclaimed(),
        stats.expired_unfetched(),
    );
    expect(rt, "what was reclaimed", &told, &(1, 1, 1));
}

// All of that.
fn call_all<N: Name>(
    rt: &impl Abort,
    part: &mut Part<N, AnyRow>,
    lanes: &mut [RawLane<N>],
    reader: &mut WordReader<N, AnyRow>,
)
    requires slots { N.table.slots ≡ 3 }
    requires key { part.old.key_words ≡ 2 }
    requires value { part.old.value_words ≡ 1 }
{
    call_each(rt, part, lanes, reader);
    clear_all(rt, part, lanes, reader);
    expire(rt, part, lanes, reader);
    reclaim(rt, part);
}

// What is put comes into a chunk of the second class, and is found there.
fn use_second<N: Name>(rt: &impl Abort, part: &mut Part<N, AnyRow>)
    requires key { part.old.key_words ≡ 2 }
    requires value { part.old.value_words ≡ 1 }
    ensures key { part.new.key_words ≡ 2 }
    ensures value { part.new.value_words ≡ 1 }
{
    let chunk = put(rt, part, [9, 9, 9], 0, &mut [0; 4], 1).chunk;
    expect(rt, "in the second class", &(3 <= chunk && chunk < 7), &true);
    expect_chunk(rt, part, [9, 9], Some(chunk));
    let removed = part.remove(&[9, 9], &mut [0; 2]);
    expect(rt, "what is removed", &removed, &Some(chunk));
}

// An index of four chunks, from this one on, and a reader of it.
fn index_from(alloc: Global, first: u32) -> Result<(Index, IndexReader, Eye), AllocError>
    requires { first ≤ 3 }
    ensures first { IfOk result (λ made. made.0.first ≡ first) }
    ensures table { IfOk result (λ made. made.0.table ≡ replicate (first + 4) None) }
    ensures eye { IfOk result (λ made. SeesIndex made.1 made.2) }
{
    let mut index = Index::new(alloc, first, 4)?;
    let (nests, eye) = index.reader()?;
    Ok((index, nests, eye))
}

// All of that, of a part over this Book and this index of its chunks, from this one on, and a reader. Of the second
// class first what is put there.
fn call_all_of<N: Name>(
    rt: &impl Abort,
    book: Book<N>,
    index: Index,
    first: u32,
    reader: &mut WordReader<N, AnyRow>,
    lanes: &mut [RawLane<N>],
)
    requires slots { N.table.slots ≡ 3 }
    requires first { (first ≡ book.sheet.first) × (index.first ≡ first) }
    requires table { index.table ≡ replicate (book.sheet.first + book.sheet.count) None }
    requires new { book.sheet.history ≡ [] }
{
    let mut part = Part::new(book, index, SEED, 2, 1, 2, Some(10));
    if first == 3 {
        use_second(rt, &mut part);
    }
    call_all(rt, &mut part, lanes, reader);
}

// The same with a new index of the Book's four chunks, from this one on.
fn call_all_over<N: Name, R: Abort>(
    rt: &R,
    alloc: Global,
    book: Book<N>,
    first: u32,
    heads: Arc<Heads<N>, Global>,
    worker: Worker<N>,
    lanes: &mut [RawLane<N>],
) -> Result<(), Fail>
    requires slots { N.table.slots ≡ 3 }
    requires first { (first ≡ book.sheet.first) × (first ≤ 3) }
    requires new { (book.sheet.history ≡ []) × (book.sheet.count ≡ 4) }
{
    let (index, nests, eye) = index_from(alloc, first)?;
    let mut reader = WordReader::new(worker, heads, nests, eye);
    call_all_of(rt, book, index, first, &mut reader, lanes);
    Ok(())
}

fn run<N: Name, R: Abort>(rt: &R, alloc: Global, blank: Blank, config: &Config) -> Result<(), Fail>
    requires name { blank.table ≡ N.table }
    requires config { blank.config ≡ config.now }
    requires slots { N.table.slots ≡ 3 }
    requires class { config.now.classes ≡ (record { chunks = 4; hot = 1; warm = 1 }) ∷ [] }
{
    let UnlockedStore {
        heads,
        books,
        starts: _,
        workers,
        mut lanes,
    } = UnlockedStore::<N>::open(alloc, blank, config)?;
    let Some(book) = first_book(books) else {
        panic!(rt; "there is a class")
    };
    let mut workers = workers;
    let worker = workers.pop().expect(rt, "there is a worker");
    call_all_over(rt, alloc, book, 0, heads, worker, &mut lanes)
}

// The same on the second class of a store.
fn run_second<N: Name, R: Abort>(
    rt: &R,
    alloc: Global,
    blank: Blank,
    config: &Config,
) -> Result<(), Fail>
    requires name { blank.table ≡ N.table }
    requires config { blank.config ≡ config.now }
    requires slots { N.table.slots ≡ 3 }
    requires classes { config.now.classes ≡ (record { chunks = 3; hot = 1; warm = 1 })
        ∷ (record { chunks = 4; hot = 1; warm = 1 }) ∷ [] }
{
    let UnlockedStore {
        heads,
        books,
        starts: _,
        workers,
        mut lanes,
    } = UnlockedStore::<N>::open(alloc, blank, config)?;
    let Some(book) = second_book(books) else {
        panic!(rt; "there is a second class")
    };
    let mut workers = workers;
    let worker = workers.pop().expect(rt, "there is a worker");
    call_all_over(rt, alloc, book, 3, heads, worker, &mut lanes)
}

// An item is put and ends: a life of some chunk is over.
fn use_up_one<N: Name>(rt: &impl Abort, part: &mut Part<N, AnyRow>, key: u64)
    requires key { part.old.key_words ≡ 2 }
    requires value { part.old.value_words ≡ 1 }
    ensures key { part.new.key_words ≡ 2 }
    ensures value { part.new.value_words ≡ 1 }
{
    let _ = put(rt, part, [key, key, key], 0, &mut [0; 4], 5);
    let removed = part.remove(&[key, key], &mut [0; 2]);
    expect(rt, "that it is removed", &removed.is_some(), &true);
}

// No chunk is free any more, and a put says so.
fn put_none<N: Name>(rt: &impl Abort, part: &mut Part<N, AnyRow>)
    requires key { part.old.key_words ≡ 2 }
    requires value { part.old.value_words ≡ 1 }
{
    let mut no_lanes: [RawLane<N>; 0] = [];
    let put = part.put(
        &[5, 5, 5],
        0,
        true,
        &mut [0; 2],
        &mut [0; 4],
        &mut no_lanes,
        0,
        6,
    );
    expect(rt, "that it is refused", &put.is_err(), &true);
    expect_chunk(rt, part, [5, 5], None);
}

// Each of four chunks has one life; then none is free any more.
fn use_up_all<N: Name>(rt: &impl Abort, part: &mut Part<N, AnyRow>)
    requires key { part.old.key_words ≡ 2 }
    requires value { part.old.value_words ≡ 1 }
{
    use_up_one(rt, part, 1);
    use_up_one(rt, part, 2);
    use_up_one(rt, part, 3);
    use_up_one(rt, part, 4);
    put_none(rt, part);
}

// The same of a part over the class of a new store.
fn use_up<N: Name, R: Abort>(
    rt: &R,
    alloc: Global,
    blank: Blank,
    config: &Config,
) -> Result<(), Fail>
    requires name { blank.table ≡ N.table }
    requires config { blank.config ≡ config.now }
    requires slots { N.table.slots ≡ 3 }
    requires class { config.now.classes ≡ (record { chunks = 4; hot = 1; warm = 1 }) ∷ [] }
{
    let opened = UnlockedStore::<N>::open(alloc, blank, config)?;
    let Some(book) = first_book(opened.books) else {
        panic!(rt; "there is a class")
    };
    let index = Index::new(alloc, 0, 4)?;
    let mut part = Part::new(book, index, SEED, 2, 1, 2, Some(10));
    use_up_all(rt, &mut part);
    Ok(())
}

#[test]
fn a_reader_sees_what_is_put(rt: HostRuntime) -> Result<(), Fail> {
    let alloc = rt.alloc();
    let Ok(config) = Config::new(1, 8, 4, 1, vec![in alloc; CLASS]?) else {
        panic!(rt; "the configuration")
    };
    let blank = Blank::with_words(alloc, &config, 3)?;
    run::<Brand, HostRuntime>(&rt, alloc, blank, &config)
}

#[test]
fn a_reader_sees_what_is_put_in_a_second_class(rt: HostRuntime) -> Result<(), Fail> {
    let alloc = rt.alloc();
    let Ok(config) = Config::new(1, 8, 4, 1, vec![in alloc; CLASS_BEFORE, CLASS]?) else {
        panic!(rt; "the configuration")
    };
    let blank = Blank::with_words(alloc, &config, 3)?;
    run_second::<Brand, HostRuntime>(&rt, alloc, blank, &config)
}

#[test]
fn a_part_has_no_room_behind_the_last_generation(rt: HostRuntime) -> Result<(), Fail> {
    let alloc = rt.alloc();
    let Ok(config) = Config::new(1, 8, 4, u32::MAX, vec![in alloc; CLASS]?) else {
        panic!(rt; "the configuration")
    };
    let blank = Blank::with_words(alloc, &config, 3)?;
    use_up::<Brand, HostRuntime>(&rt, alloc, blank, &config)
}

//! Many commands on a Book whose chunks have further words, beside plain lists: lists, words, answers and the chunks
//! that come free are the same.
ghost use Rattle.std.specs.Prelude.{◌≡◌};

use super::expecting::expect_of;
use bump_heads::Heads;
use bump_store::{
    Blank, Book, ClassConfig, Config, Ended, Hold, ItemId, Name, Place, Pulled, Tail, Worker,
};
use bump_unlocked::UnlockedStore;
use std::alloc::{AllocError, Global};
use std::marker::Brand;
use std::process::Abort;
use std::sync::Arc;
use std::test::Fail;

/// Chunks of the class.
const ITEMS: u32 = 10;

/// Commands at each width.
const COMMANDS: u32 = 10_000;

const CLASS: ClassConfig = ClassConfig {
    chunks: ITEMS,
    hot: 2,
    warm: 1,
};

const PLACES: [Place; 7] = [
    Place::Hot,
    Place::Warm,
    Place::Cold,
    Place::Temp,
    Place::Dying,
    Place::Unused,
    Place::Retired,
];

/// The class by plain lists, front first, numbered as in `PLACES`; and of each chunk its generation, and its words, of
/// which the first one is its label.
#[derive(Drop)]
struct Plain {
    lists: Vec<Vec<u32>>,
    generations: Vec<u32>,
    rows: Vec<Vec<u64>>,
    held: Option<u32>,
}

/// A Book of one class, the words, and their only worker.
#[derive(Drop)]
struct Side<N: Name> {
    heads: Arc<Heads<N>, Global>,
    book: Book<N>,
    worker: Worker<N>,
}

fn new_plain(alloc: Global, further: u32) -> Result<Plain, AllocError> {
    let mut lists = Vec::new(alloc);
    for _list in 0..5 {
        lists.push(Vec::new(alloc))?;
    }
    let mut chunks = Vec::new(alloc);
    let mut generations = Vec::new(alloc);
    let mut rows = Vec::new(alloc);
    for chunk in 0..ITEMS {
        chunks.push(chunk)?;
        generations.push(0)?;
        let mut row = Vec::new(alloc);
        row.resize(further as usize + 1, 0)?;
        rows.push(row)?;
    }
    lists.push(chunks)?;
    lists.push(Vec::new(alloc))?;
    Ok(Plain {
        lists,
        generations,
        rows,
        held: None,
    })
}

impl Plain {
    // The chunks of a list.
    fn list(&self, list: usize) -> &[u32] {
        match self.lists.get(list) {
            Some(chunks) => chunks.as_slice(),
            None => &[],
        }
    }

    // The chunk's present item.
    fn item(&self, chunk: u32) -> ItemId {
        let generation = self.generations.get(chunk as usize).copied().unwrap_or(0);
        ItemId { chunk, generation }
    }

    // Whether the chunk stands in HOT, WARM, COLD or TEMP.
    fn is_linked(&self, chunk: u32) -> bool {
        for list in 0..4 {
            for other in self.list(list).iter() {
                if *other == chunk {
                    return true;
                }
            }
        }
        false
    }

    // The chunk goes to the front of a list.
    fn move_front(&mut self, alloc: Global, chunk: u32, list: usize) -> Result<(), AllocError> {
        for (number, chunks) in self.lists.iter_mut().enumerate() {
            let mut moved = Vec::new(alloc);
            if number == list {
                moved.push(chunk)?;
            }
            for other in chunks.iter() {
                if *other != chunk {
                    moved.push(*other)?;
                }
            }
            *chunks = moved;
        }
        Ok(())
    }

    // A linked item ends: its chunk is free, or DYING where it is held.
    fn end(&mut self, alloc: Global, chunk: u32) -> Result<Ended, AllocError> {
        if self.held == Some(chunk) {
            self.move_front(alloc, chunk, 4)?;
            return Ok(Ended::Deferred);
        }
        self.move_front(alloc, chunk, 5)?;
        Ok(Ended::Freed)
    }

    // The first chunk of UNUSED begins its next life with these words.
    fn link(
        &mut self,
        alloc: Global,
        list: usize,
        label: u64,
        words: &[u64],
    ) -> Result<Option<ItemId>, AllocError> {
        let Some(chunk) = self.list(5).first().copied() else {
            return Ok(None);
        };
        if let Some(generation) = self.generations.get_mut(chunk as usize) {
            *generation = generation.wrapping_add(1);
        }
        if let Some(row) = self.rows.get_mut(chunk as usize) {
            let mut stored = Vec::new(alloc);
            stored.push(label)?;
            for word in words.iter() {
                stored.push(*word)?;
            }
            for (place, old) in row.iter().enumerate() {
                if place > words.len() {
                    stored.push(*old)?;
                }
            }
            *row = stored;
        }
        self.move_front(alloc, chunk, list)?;
        Ok(Some(self.item(chunk)))
    }

    // The last item of a list is pulled, past this limit.
    fn pull(&mut self, alloc: Global, tail: Tail, limit: u32) -> Result<Pulled, AllocError> {
        let list = match tail {
            Tail::Hot => 0,
            Tail::Warm => 1,
            Tail::Cold | Tail::Evict => 2,
        };
        let Some(chunk) = self.list(list).last().copied() else {
            return Ok(Pulled::Empty);
        };
        let item = self.item(chunk);
        if matches!(tail, Tail::Evict) {
            return Ok(match self.end(alloc, chunk)? {
                Ended::Freed => Pulled::Freed(item),
                Ended::Deferred => Pulled::Deferred(item),
            });
        }
        if list == 2 || self.list(list).len() as u64 <= u64::from(limit) {
            return Ok(Pulled::Stay(item));
        }
        self.move_front(alloc, chunk, 2)?;
        Ok(Pulled::Cold(item))
    }

    // The chunks of DYING that nobody holds come free, front to back, at most so many.
    fn sweep(&mut self, alloc: Global, most: usize) -> Result<Vec<u32>, AllocError> {
        let mut freed = Vec::new(alloc);
        for chunk in self.list(4).iter() {
            if freed.len() < most && self.held != Some(*chunk) {
                freed.push(*chunk)?;
            }
        }
        for chunk in freed.iter() {
            self.move_front(alloc, *chunk, 5)?;
        }
        Ok(freed)
    }
}

// Each list of the Book is the plain one, and so are its ends.
fn expect_lists<N: Name>(
    rt: &impl Abort,
    alloc: Global,
    book: &Book<N>,
    plain: &Plain,
) -> Result<(), AllocError> {
    for (number, place) in PLACES.iter().enumerate() {
        let wanted = plain.list(number);
        let found = book.walk(alloc, *place)?;
        expect_of(rt, "the list", place, &found.as_slice(), &wanted);
        let ends = (book.first(*place), book.last(*place));
        let wanted_ends = (wanted.first().copied(), wanted.last().copied());
        expect_of(rt, "the ends of the list", place, &ends, &wanted_ends);
    }
    Ok(())
}

// The class finds this chunk's item and its words.
fn expect_row<N: Name>(
    rt: &impl Abort,
    book: &mut Book<N>,
    plain: &Plain,
    chunk: u32,
    row: &[u64],
) {
    assert!(rt; book.has_chunk(chunk));
    let found = book.load_head(chunk);
    assert!(rt; book.has_chunk(chunk));
    expect_of(
        rt,
        "whether it is linked",
        &chunk,
        &found.linked,
        &plain.is_linked(chunk),
    );
    let item = plain.item(chunk);
    expect_of(
        rt,
        "the generation of",
        &chunk,
        &found.generation,
        &item.generation,
    );
    let label = book.label(chunk);
    expect_of(
        rt,
        "the label of",
        &chunk,
        &Some(label),
        &row.first().copied(),
    );
    for index in 0..book.further() {
        assert!(rt; book.has_chunk(chunk));
        let word = book.word(chunk, index);
        expect_of(
            rt,
            "a word of",
            &chunk,
            &Some(word),
            &row.get(index as usize + 1).copied(),
        );
    }
}

fn expect_rows<N: Name>(rt: &impl Abort, book: &mut Book<N>, plain: &Plain) {
    for (chunk, row) in plain.rows.iter().enumerate() {
        assert!(rt; chunk < 1000);
        expect_row(rt, book, plain, chunk as u32, row.as_slice());
    }
}

// A hold reads the words of its chunk, and is given back.
fn give_back<N: Name>(rt: &impl Abort, side: &Side<N>, plain: &mut Plain, hold: Hold<N>) {
    let mut hold = hold;
    plain.held = None;
    let item = hold.life();
    let row = match plain.rows.get(item.chunk as usize) {
        Some(row) => row.as_slice(),
        None => &[],
    };
    let label = hold.label(&side.heads);
    expect_of(
        rt,
        "the label of",
        &item,
        &Some(label),
        &row.first().copied(),
    );
    for index in 0..side.book.further() {
        let word = hold.word(&side.heads, index);
        expect_of(
            rt,
            "a word of",
            &item,
            &Some(word),
            &row.get(index as usize + 1).copied(),
        );
    }
    hold.release(&side.heads);
}

// The item of a chunk is taken, where it is linked.
fn take<N: Name>(
    rt: &impl Abort,
    side: &mut Side<N>,
    plain: &mut Plain,
    chunk: u32,
) -> Option<Hold<N>> {
    let hold = side.worker.get(&side.heads, plain.item(chunk)).ok();
    let is_held = hold.is_some();
    expect_of(
        rt,
        "whether it is had",
        &chunk,
        &is_held,
        &plain.is_linked(chunk),
    );
    if is_held {
        plain.held = Some(chunk);
    }
    hold
}

// An item is linked with the first ones of these words, in HOT or in TEMP, or with none.
fn link<N: Name>(
    rt: &impl Abort,
    alloc: Global,
    book: &mut Book<N>,
    plain: &mut Plain,
    number: u64,
    now: u64,
) -> Result<(), AllocError> {
    let count = (number / 8 % (u64::from(book.further()) + 1)) as usize;
    let mut words = Vec::new(alloc);
    for place in 0..count {
        words.push(number.wrapping_mul((place as u64).wrapping_add(3)))?;
    }
    assert!(rt; words.len() <= book.further() as usize);
    let (linked, wanted) = match number % 4 {
        0 => (
            book.link(number, now).ok(),
            plain.link(alloc, 0, number, &[])?,
        ),
        1 => (
            book.link_temp(number, now).ok(),
            plain.link(alloc, 3, number, &[])?,
        ),
        2 => (
            book.link_words(number, words.as_slice(), now).ok(),
            plain.link(alloc, 0, number, words.as_slice())?,
        ),
        _ => (
            book.link_temp_words(number, words.as_slice(), now).ok(),
            plain.link(alloc, 3, number, words.as_slice())?,
        ),
    };
    expect_of(rt, "a link of", &number, &linked, &wanted);
    Ok(())
}

// A chunk's item is unlinked.
fn unlink<N: Name>(
    rt: &impl Abort,
    alloc: Global,
    book: &mut Book<N>,
    plain: &mut Plain,
    chunk: u32,
) -> Result<(), AllocError> {
    let ended = book.unlink(plain.item(chunk)).ok();
    let wanted = if plain.is_linked(chunk) {
        Some(plain.end(alloc, chunk)?)
    } else {
        None
    };
    expect_of(rt, "the unlink of", &chunk, &ended, &wanted);
    Ok(())
}

// The last item of a list is pulled: by the class's limits, or past another one.
fn pull<N: Name>(
    rt: &impl Abort,
    alloc: Global,
    book: &mut Book<N>,
    plain: &mut Plain,
    number: u64,
) -> Result<(), AllocError> {
    let tail = match number % 4 {
        0 => Tail::Hot,
        1 => Tail::Warm,
        2 => Tail::Cold,
        _ => Tail::Evict,
    };
    let past = (number / 4 % 4) as u32;
    let (pulled, limit) = if number / 16 % 2 == 0 {
        let limit = if matches!(tail, Tail::Hot) {
            CLASS.hot
        } else {
            CLASS.warm
        };
        (book.pull(tail), limit)
    } else {
        (book.pull_past(tail, past), past)
    };
    let wanted = plain.pull(alloc, tail, limit)?;
    expect_of(rt, "the pull past", &limit, &pulled, &wanted);
    Ok(())
}

// Chunks of DYING come free, as many as there is room to tell.
fn sweep<N: Name>(
    rt: &impl Abort,
    alloc: Global,
    book: &mut Book<N>,
    plain: &mut Plain,
    room: usize,
) -> Result<(), AllocError> {
    let mut freed = Vec::new(alloc);
    freed.resize(room, ITEMS)?;
    let count = book.sweep_into(freed.as_mut_slice()) as usize;
    let wanted = plain.sweep(alloc, room)?;
    expect_of(rt, "how many came free for", &room, &count, &wanted.len());
    let mut all = wanted;
    all.resize(room, ITEMS)?;
    expect_of(
        rt,
        "what came free for",
        &room,
        &freed.as_slice(),
        &all.as_slice(),
    );
    Ok(())
}

// One command, and a look at the lists.
fn command<N: Name, R: Abort>(
    rt: &R,
    alloc: Global,
    book: &mut Book<N>,
    plain: &mut Plain,
    number: u64,
) -> Result<(), AllocError> {
    let chunk = (number / 64 % u64::from(ITEMS)) as u32;
    let rest = number / 32;
    match number % 32 {
        0..=11 => link(rt, alloc, book, plain, rest, number)?,
        12..=19 => unlink(rt, alloc, book, plain, chunk)?,
        20..=30 => pull(rt, alloc, book, plain, rest)?,
        _ => sweep(rt, alloc, book, plain, (rest % 4) as usize)?,
    }
    expect_lists(rt, alloc, book, plain)
}

// The hold that is kept is given back, or a new one is taken.
fn turn<N: Name, R: Abort>(
    rt: &R,
    side: &mut Side<N>,
    plain: &mut Plain,
    chunk: u32,
    held: Option<Hold<N>>,
) -> Option<Hold<N>> {
    match held {
        Some(hold) => {
            give_back(rt, side, plain, hold);
            None
        }
        None => take(rt, side, plain, chunk),
    }
}

fn play<N: Name, R: Abort>(
    rt: &R,
    alloc: Global,
    side: &mut Side<N>,
    plain: &mut Plain,
    commands: u32,
) {
    let mut held = None;
    let mut draw: u64 = 12345;
    for _command in 0..commands {
        draw = draw
            .wrapping_mul(6_364_136_223_846_793_005)
            .wrapping_add(1_442_695_040_888_963_407);
        let number = draw >> 33;
        if number % 5 == 0 {
            held = turn(
                rt,
                side,
                plain,
                (number / 64 % u64::from(ITEMS)) as u32,
                held,
            );
        }
        let is_done = command(rt, alloc, &mut side.book, plain, number).is_ok();
        assert!(rt; is_done);
        expect_rows(rt, &mut side.book, plain);
    }
    if let Some(hold) = held {
        give_back(rt, side, plain, hold);
    }
}

fn config_of(alloc: Global) -> Option<Config> {
    Config::new(1, 4, 8, 1, vec![in alloc; CLASS].ok()?).ok()
}

fn play_in<N: Name, R: Abort>(
    rt: &R,
    alloc: Global,
    blank: Blank,
    config: &Config,
    further: u32,
    commands: u32,
) -> Result<(), Fail>
    requires name { blank.table ≡ N.table }
    requires config { blank.config ≡ config.now }
{
    let UnlockedStore {
        heads,
        mut books,
        mut workers,
        ..
    } = UnlockedStore::<N>::open(alloc, blank, config)?;
    let mut side = Side {
        heads,
        book: books.pop().expect(rt, "there is a class"),
        worker: workers.pop().expect(rt, "there is a worker"),
    };
    let mut plain = new_plain(alloc, further)?;
    play(rt, alloc, &mut side, &mut plain, commands);
    Ok(())
}

// So many commands on a new Book whose chunks have so many further words.
fn play_wide<R: Abort>(rt: &R, alloc: Global, further: u32, commands: u32) -> Result<(), Fail> {
    let config = config_of(alloc).ok_or("the configuration")?;
    let blank = Blank::with_words(alloc, &config, further)?;
    play_in::<Brand, R>(rt, alloc, blank, &config, further, commands)
}

#[test]
fn chunks_with_no_further_word(rt: HostRuntime) -> Result<(), Fail> {
    play_wide(&rt, rt.alloc(), 0, COMMANDS)
}

#[test]
fn chunks_with_one_further_word(rt: HostRuntime) -> Result<(), Fail> {
    play_wide(&rt, rt.alloc(), 1, COMMANDS)
}

#[test]
fn chunks_with_five_further_words(rt: HostRuntime) -> Result<(), Fail> {
    play_wide(&rt, rt.alloc(), 5, COMMANDS)
}

#[test]
fn chunks_with_sixteen_further_words(rt: HostRuntime) -> Result<(), Fail> {
    play_wide(&rt, rt.alloc(), 16, COMMANDS)
}

//! A law of one's own: whoever takes a hold knows of the words that he reads what the law says, without a lock.
ghost use Rattle.std.specs.Prelude.{◌≡◌, [], ◌∷◌, IfSome};

use super::expecting::expect;
use bump_store::{
    Blank, Book, ClassConfig, Config, ItemId, LinkRefusal, Name, ReaderHeads, RowLaw, Worker,
};
use bump_unlocked::UnlockedStore;
use std::alloc::Global;
use std::marker::Brand;
use std::process::Abort;
use std::test::Fail;

const CLASS: ClassConfig = ClassConfig {
    chunks: 4,
    hot: 1,
    warm: 1,
};

/// The law of rows whose first further word repeats the label.
pub struct Repeats;

impl RowLaw for Repeats {
    ghost use Rattle.std.specs.Prelude.{◌≡◌};

    ghost law = { λ words. words 1 ≡ words 0 };
}

fn link<N: Name>(book: &mut Book<N, Repeats>, label: u64, now: u64) -> Result<ItemId, LinkRefusal>
    requires wide { N.table.slots ≡ 1 }
{
    book.link_words(label, &[label], now)
}

// The label and the further word of whatever item is linked in the chunk.
fn read<N: Name>(
    worker: &mut Worker<N>,
    heads: &ReaderHeads<N, Repeats>,
    chunk: u32,
) -> Option<(u64, u64)>
    requires wide { N.table.slots ≡ 1 }
    ensures { IfSome result (λ both. both.1 ≡ both.0) }
{
    let Ok((mut hold, _)) = worker.get_any(heads, chunk) else {
        return None;
    };
    let label = hold.label(heads);
    let word = hold.word(heads, 0);
    hold.release(heads);
    Some((label, word))
}

fn run<N: Name, R: Abort>(
    rt: &R,
    alloc: Global,
    blank: Blank<Repeats>,
    config: &Config,
) -> Result<(), Fail>
    requires name { blank.table ≡ N.table }
    requires config { blank.config ≡ config.now }
    requires wide { N.table.slots ≡ 1 }
{
    let mut sheets = UnlockedStore::<N, Repeats>::open(alloc, blank, config)?;
    let mut book = sheets.books.pop().expect(rt, "there is a class");
    let mut worker = sheets.workers.pop().expect(rt, "there is a worker");
    let id = link(&mut book, 7, 1).expect(rt, "a chunk is free");
    let both = read(&mut worker, &sheets.heads, id.chunk);
    expect(rt, "the words", &both, &Some((7, 7)));
    Ok(())
}

#[test]
fn a_law_holds_of_what_is_read(rt: HostRuntime) -> Result<(), Fail> {
    let alloc = rt.alloc();
    let config = Config::new(1, 4, 8, 1, vec![in alloc; CLASS]?)
        .ok()
        .ok_or("the configuration")?;
    let blank = Blank::<Repeats>::with_words(alloc, &config, 1)?;
    run::<Brand, HostRuntime>(&rt, alloc, blank, &config)
}

//! Further words of chunks, as a reader sees them.
ghost use Rattle.std.specs.Prelude.{◌≡◌, ◌≤◌, IsSome, [], ◌∷◌};
ghost use Rattle.bump_rules.specs.declared.history.Change.TheVariants.{Linked};
ghost use Rattle.bump_heads.specs.Making.{class_seen};
ghost use Rattle.bump_heads.specs.RulesLives.{life as life_in};
ghost use Rattle.head_tests.specs.Stores.{fresh_class, IsInHistory, IsNew, IsSmall};

use super::expecting::{expect, expect_head, expect_seen};
use super::stores::{Small, config_of, head, life_of, open};
use super::*;
use bump_heads::{Config, ItemId, Segment};
use std::alloc::{AllocError, Global};
use std::marker::Brand;
use std::process::Abort;
use std::test::Fail;

// The first life of each chunk begins. The words of one are stored between those of the other.
fn begin_both<N: Name>(
    rt: &impl Abort,
    heads: &Heads<N>,
    class: &mut ClassSeat<N>,
) -> (ItemId, ItemId)
    requires wide { 2 ≤ N.table.slots }
    requires new { class.old ≡ class_seen fresh_class }
    ensures class { IsInHistory (Linked (life_in 0 1) ∷ Linked (life_in 1 1) ∷ []) class.new }
    ensures lives { result ≡ (life_in 0 1, life_in 1 1) }
{
    let place = class.head_at(0);
    let place_of_other = class.head_at(1);
    class.put_word(1, place_of_other, 1, 201);
    class.put_label(0, place, 7);
    class.put_word(0, place, 0, 100);
    class.put_word(0, place, 1, 101);
    class.put_label(1, place_of_other, 8);
    class.put_word(1, place_of_other, 0, 200);
    class.put_time(0, place, 1);
    let life = class.open_life(0, place);
    let other = class.open_life(1, place_of_other);
    expect(
        rt,
        "the lives",
        &[life, other],
        &[life_of(0, 1), life_of(1, 1)],
    );
    expect_seen(rt, heads, 0, (head(1, "l", Segment::Hot, 1), 1));
    (life, other)
}

// The life of chunk 0 ends. Its holder still reads a word, and lets go of it, and so does that of the other.
fn end_first<N: Name>(
    rt: &impl Abort,
    heads: &Heads<N>,
    class: &mut ClassSeat<N>,
    hold: Hold<N>,
    second: Hold<N>,
)
    requires wide { 2 ≤ N.table.slots }
    requires class { IsInHistory (Linked (life_in 0 1) ∷ Linked (life_in 1 1) ∷ []) class.old }
    requires whole { IsSome hold.sheet }
    requires second { IsSome second.sheet }
{
    let mut hold = hold;
    let place = class.head_at(0);
    expect_head(rt, class.end_life(0, place), head(2, "l", Segment::Hot, 1));
    expect(rt, "word 1", &heads.word_of(&mut hold, 1), &101);
    expect_head(rt, heads.give_back(hold).0, head(1, "", Segment::Hot, 1));
    expect_head(rt, heads.give_back(second).0, head(2, "l", Segment::Hot, 1));
    expect_head(
        rt,
        class.seen_unheld(0, place),
        head(0, "", Segment::Hot, 1),
    );
}

fn live_wide<N: Name>(
    rt: &impl Abort,
    heads: &Heads<N>,
    class: &mut ClassSeat<N>,
    worker: &mut WorkerSeat<N>,
)
    requires wide { 2 ≤ N.table.slots }
    requires new { IsNew heads.now class.old worker.old }
{
    let (life, other) = begin_both(rt, heads, class);
    let mut hold = heads.take(worker, life).expect(rt, "there is room");
    let told = [
        heads.word_of(&mut hold, 0),
        heads.word_of(&mut hold, 1),
        heads.label_of(&mut hold),
        class.meet(&mut hold),
    ];
    expect(rt, "words and label", &told, &[100, 101, 7, 7]);
    let mut second = heads.take(worker, other).expect(rt, "there is room");
    let told = [
        heads.word_of(&mut second, 0),
        heads.word_of(&mut second, 1),
        heads.label_of(&mut second),
    ];
    expect(rt, "of the other", &told, &[200, 201, 8]);
    end_first(rt, heads, class, hold, second);
}

fn wide_in<N: Name>(
    rt: &impl Abort,
    alloc: Global,
    blank: Blank,
    config: &Config,
) -> Result<(), AllocError>
    requires name { blank.table ≡ N.table }
    requires wide { 2 ≤ blank.table.slots }
    requires config { blank.config ≡ config.now }
    requires small { IsSmall config.now }
{
    let Small {
        heads,
        mut class,
        mut worker,
        lane: _,
    } = open::<N>(alloc, blank, config)?;
    live_wide(rt, &heads, &mut class, &mut worker);
    Ok(())
}

#[test]
fn further_words_are_those_that_were_stored(rt: HostRuntime) -> Result<(), Fail> {
    let alloc = rt.alloc();
    let config = config_of(alloc, 4).ok_or("no memory")?;
    let blank = Blank::with_words(alloc, &config, 2)?;
    Ok(wide_in::<Brand>(&rt, alloc, blank, &config)?)
}

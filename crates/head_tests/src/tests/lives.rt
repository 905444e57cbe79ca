//! A life of a chunk, from its label to its end, with what a reader sees of it.
ghost use Rattle.std.specs.Prelude.{◌≡◌, ◌<◌, None, Some, IsSome, [], ◌∷◌};
ghost use Rattle.bump_rules.specs.declared.hands.Hand.TheVariants.{Idle};
ghost use Rattle.bump_rules.specs.declared.history.Change.TheVariants.{Linked, Unlinked, Swept};
ghost use Rattle.bump_heads.specs.Rule.{chunks as all_chunks, no_accounts, worker_sheet};
ghost use Rattle.bump_heads.specs.Making.{class_seen};
ghost use Rattle.bump_heads.specs.ReadersSeats.{row_in};
ghost use Rattle.bump_heads.specs.References.{new_hold};
ghost use Rattle.bump_heads.specs.RulesLives.{life as life_in};
ghost use Rattle.bump_heads.specs.Touching.{fetches_of};
ghost use Rattle.bump_heads.specs.Workers.{worker_seen};
ghost use Rattle.head_tests.specs.Stores.{fresh_class, IsNew, IsInHistory, MayHit};

use super::expecting::{expect, expect_head, expect_head_of, expect_seen, expect_true};
use super::scenes::{Scene, play};
use super::stores::{head, let_out, life_of, refusal};
use super::*;
use bump_heads::{Head, ItemId, Segment};
use std::process::Abort;
use std::test::Fail;

/// Hits the item of the hold, which nobody hit, and has no other holders: it is FETCHED then, by the head that is
/// answered.
pub fn fetch<N: Name>(
    rt: &impl Abort,
    heads: &Heads<N>,
    worker: &mut WorkerSeat<N>,
    hold: &mut Hold<N>,
    segment: Segment,
) -> Head
    requires ready { MayHit heads.now worker.old hold.old }
    ensures idle { worker.new.sheet.hand ≡ Idle }
    ensures joined { worker.new.hold ≡ Some (new_hold hold.old.life (row_in hold.old.sheet)) }
    ensures fetched { 0 < fetches_of hold.old.life worker.new.sheet }
    ensures accounts { worker.new.sheet.accounts ≡ no_accounts }
    ensures number { worker.new.sheet.worker ≡ worker.old.sheet.worker }
    ensures hollow { hold.new ≡ record hold.old { sheet = None } }
{
    let life = hold.life();
    heads.hold_in(worker, hold);
    let found = heads.mark_fetched(worker, life, hold.place());
    expect_head(rt, found, head(2, "l", segment, 1));
    let fetched = head(2, "lf", segment, 1);
    expect_head_of(rt, heads, life.chunk, fetched);
    fetched
}

/// Marks the item twice: FETCHED, then ACTIVE.
pub fn mark_in_hot<N: Name>(
    rt: &impl Abort,
    heads: &Heads<N>,
    worker: &mut WorkerSeat<N>,
    hold: &mut Hold<N>,
)
    requires ready { MayHit heads.now worker.old hold.old }
    ensures idle { worker.new.sheet.hand ≡ Idle }
    ensures alone { worker.new.hold ≡ None }
    ensures hold { hold.new ≡ hold.old }
{
    let fetched = fetch(rt, heads, worker, hold, Segment::Hot);
    let life = hold.life();
    let place = hold.place();
    let found = heads.mark_active(worker, life, place);
    expect_true(rt, "in HOT", matches!(found.segment, Segment::Hot));
    expect_head(rt, found, fetched);
    heads.set_time(worker, life, place, 3);
    expect_seen(rt, heads, life.chunk, (head(2, "lfa", Segment::Hot, 1), 3));
    let_out(heads, worker, hold);
}

// Nobody takes the life any more.
fn expect_stale<N: Name>(
    rt: &impl Abort,
    heads: &Heads<N>,
    worker: &mut WorkerSeat<N>,
    life: ItemId,
)
    requires alone { worker.old.hold ≡ None }
    requires chunk { life.chunk < all_chunks heads.now }
    ensures alone { worker.new.hold ≡ None }
{
    let why = refusal(heads, worker, life);
    expect(rt, "why", &why, &Some(TakeRefusal::Stale));
}

// The first life of chunk 0 begins.
fn begin<N: Name>(rt: &impl Abort, heads: &Heads<N>, class: &mut ClassSeat<N>) -> ItemId
    requires new { class.old ≡ class_seen fresh_class }
    ensures class { IsInHistory (Linked (life_in 0 1) ∷ []) class.new }
    ensures life { result ≡ life_in 0 1 }
{
    let place = class.head_at(0);
    class.put_label(0, place, 7);
    class.put_time(0, place, 1);
    let life = class.open_life(0, place);
    expect(rt, "the first life", &life, &life_of(0, 1));
    expect_seen(rt, heads, 0, (head(1, "l", Segment::Hot, 1), 1));
    expect_seen(rt, heads, 1, (head(0, "", Segment::Hot, 0), 0));
    life
}

// The life is held, marked, and ends.
fn hold_to_its_end<N: Name>(
    rt: &impl Abort,
    heads: &Heads<N>,
    class: &mut ClassSeat<N>,
    worker: &mut WorkerSeat<N>,
    life: ItemId,
) -> Hold<N>
    requires class { IsInHistory (Linked (life_in 0 1) ∷ []) class.old }
    requires worker { worker.old ≡ worker_seen (worker_sheet 0) }
    requires life { life ≡ life_in 0 1 }
    requires chunk { 0 < all_chunks heads.now }
    ensures class { IsInHistory (Linked (life_in 0 1) ∷ Unlinked (life_in 0 1) ∷ []) class.new }
    ensures alone { worker.new.hold ≡ None }
    ensures whole { IsSome result.sheet }
{
    let place = class.head_at(0);
    let mut hold = heads.take(worker, life).expect(rt, "there is room");
    expect_head(rt, class.load_head(0, place), head(2, "l", Segment::Hot, 1));
    mark_in_hot(rt, heads, worker, &mut hold);
    expect(rt, "the label", &class.meet(&mut hold), &7);
    expect_head(
        rt,
        class.end_life(0, place),
        head(2, "lfa", Segment::Hot, 1),
    );
    hold
}

// The life that ended is held, until its holder lets go of it: its chunk is free.
fn let_go<N: Name>(rt: &impl Abort, heads: &Heads<N>, class: &mut ClassSeat<N>, hold: Hold<N>)
    requires class { IsInHistory (Linked (life_in 0 1) ∷ Unlinked (life_in 0 1) ∷ []) class.old }
    requires whole { IsSome hold.sheet }
    ensures class { IsInHistory (Linked (life_in 0 1) ∷ Unlinked (life_in 0 1) ∷ Swept (life_in 0 1) ∷ []) class.new }
{
    let mut hold = hold;
    let place = class.head_at(0);
    let held = class.seen_unheld(0, place);
    expect_head(rt, held, head(1, "fa", Segment::Hot, 1));
    assert!(rt; held.refs == 1);
    expect(rt, "the label", &heads.label_of(&mut hold), &7);
    expect_head(rt, heads.give_back(hold).0, held);
    let free = class.seen_unheld(0, place);
    expect_head(rt, free, head(0, "fa", Segment::Hot, 1));
    assert!(rt; free.refs == 0);
}

// The second life of chunk 0 begins.
fn begin_again<N: Name>(rt: &impl Abort, heads: &Heads<N>, class: &mut ClassSeat<N>)
    requires class { IsInHistory (Linked (life_in 0 1) ∷ Unlinked (life_in 0 1) ∷ Swept (life_in 0 1) ∷ []) class.old }
{
    let place = class.head_at(0);
    expect(
        rt,
        "the second life",
        &class.open_life(0, place),
        &life_of(0, 2),
    );
    expect_seen(rt, heads, 0, (head(1, "l", Segment::Hot, 2), 3));
}

/// The first life of chunk 0, and the beginning of its second.
pub fn live<N: Name>(
    rt: &impl Abort,
    heads: &Heads<N>,
    class: &mut ClassSeat<N>,
    worker: &mut WorkerSeat<N>,
)
    requires new { IsNew heads.now class.old worker.old }
{
    let life = begin(rt, heads, class);
    let hold = hold_to_its_end(rt, heads, class, worker, life);
    let_go(rt, heads, class, hold);
    expect_stale(rt, heads, worker, life);
    begin_again(rt, heads, class);
    expect_stale(rt, heads, worker, life);
}

#[test]
fn a_life_is_held_marked_and_freed(rt: HostRuntime) -> Result<(), Fail> {
    play(&rt, rt.alloc(), 4, Scene::Life)
}

//! A hold of whichever life is linked in a chunk, and the head by which it was taken.
ghost use Rattle.std.specs.Prelude.{◌≡◌, ◌<◌, None, [], ◌∷◌};
ghost use Rattle.bump_rules.specs.declared.history.Change.TheVariants.{Linked};
ghost use Rattle.bump_heads.specs.Rule.{chunks as all_chunks};
ghost use Rattle.bump_heads.specs.RulesLives.{life as life_in};
ghost use Rattle.head_tests.specs.Stores.{IsInHistory, IsNew};

use super::expecting::{expect, expect_head};
use super::lives::mark_in_hot;
use super::scenes::{Scene, play};
use super::stores::{head, life_of};
use super::*;
use bump_heads::Segment;
use std::process::Abort;
use std::test::Fail;

// No hold of the chunk is taken, for this reason.
fn expect_none<N: Name>(
    rt: &impl Abort,
    heads: &Heads<N>,
    worker: &mut WorkerSeat<N>,
    wanted: AnyRefusal,
    what: &str,
)
    requires alone { worker.old.hold ≡ None }
    requires chunk { 0 < all_chunks heads.now }
    ensures alone { worker.new.hold ≡ None }
{
    match heads.take_any(worker, 0) {
        Ok((hold, _)) => {
            heads.give_back(hold);
            panic!(rt; "it is held: {what}")
        }
        Err(why) => expect(rt, what, &why, &wanted),
    }
}

// The first life of chunk 0 begins, and its first hold marks it.
fn begin_marked<N: Name>(
    rt: &impl Abort,
    heads: &Heads<N>,
    class: &mut ClassSeat<N>,
    worker: &mut WorkerSeat<N>,
)
    requires new { IsNew heads.now class.old worker.old }
    ensures class { IsInHistory (Linked (life_in 0 1) ∷ []) class.new }
    ensures alone { worker.new.hold ≡ None }
{
    let place = class.head_at(0);
    class.put_label(0, place, 7);
    let life = class.open_life(0, place);
    let mut first = heads.take(worker, life).expect(rt, "there is room");
    mark_in_hot(rt, heads, worker, &mut first);
    heads.give_back(first);
}

/// The chunk's first life, marked by its first hold, and held by as many as may hold it.
pub fn take_whichever<N: Name>(
    rt: &impl Abort,
    heads: &Heads<N>,
    class: &mut ClassSeat<N>,
    worker: &mut WorkerSeat<N>,
)
    requires new { IsNew heads.now class.old worker.old }
{
    begin_marked(rt, heads, class, worker);
    let (mut hold, found) = heads.take_any(worker, 0).expect(rt, "there is room");
    expect(rt, "the life", &hold.life(), &life_of(0, 1));
    expect_head(rt, found, head(1, "lfa", Segment::Hot, 1));
    expect(rt, "the label", &heads.label_of(&mut hold), &7);
    expect_none(rt, heads, worker, AnyRefusal::RefsFull, "held");
    class.end_life(0, class.head_at(0));
    expect_none(rt, heads, worker, AnyRefusal::Gone, "behind it");
    heads.give_back(hold);
}

#[test]
fn whichever_life_is_linked_is_held(rt: HostRuntime) -> Result<(), Fail> {
    play(&rt, rt.alloc(), 2, Scene::Whichever)
}

//! Why a worker gets no hold and no rider, where no other thread is at work.
ghost use Rattle.std.specs.Prelude.{◌≡◌, ◌<◌, None};
ghost use Rattle.bump_heads.specs.Rule.{chunks as all_chunks};
ghost use Rattle.head_tests.specs.Stores.{IsNew};

use super::expecting::expect;
use super::scenes::{Scene, play};
use super::stores::{life_of, refusal};
use super::*;
use bump_heads::ItemId;
use std::process::Abort;
use std::test::Fail;

// The life isn't taken for this reason, or is.
fn expect_refusal<N: Name>(
    rt: &impl Abort,
    heads: &Heads<N>,
    worker: &mut WorkerSeat<N>,
    life: ItemId,
    wanted: Option<TakeRefusal>,
    what: &str,
)
    requires alone { worker.old.hold ≡ None }
    requires chunk { life.chunk < all_chunks heads.now }
    ensures alone { worker.new.hold ≡ None }
{
    let why = refusal(heads, worker, life);
    expect(rt, what, &why, &wanted);
}

// The first life of chunk 0 is taken in no other generation, and nothing of another chunk.
fn miss<N: Name>(rt: &impl Abort, heads: &Heads<N>, worker: &mut WorkerSeat<N>)
    requires chunks { all_chunks heads.now ≡ 2 }
    requires alone { worker.old.hold ≡ None }
    ensures alone { worker.new.hold ≡ None }
{
    expect_refusal(
        rt,
        heads,
        worker,
        life_of(0, 0),
        Some(TakeRefusal::Stale),
        "too old",
    );
    expect_refusal(
        rt,
        heads,
        worker,
        life_of(0, 2),
        Some(TakeRefusal::Stale),
        "too new",
    );
    expect_refusal(
        rt,
        heads,
        worker,
        life_of(1, 1),
        Some(TakeRefusal::Stale),
        "elsewhere",
    );
}

/// The first life of chunk 0 is held by as many as may hold it, and taken neither before it nor behind it.
pub fn refuse<N: Name>(
    rt: &impl Abort,
    heads: &Heads<N>,
    class: &mut ClassSeat<N>,
    worker: &mut WorkerSeat<N>,
)
    requires new { IsNew heads.now class.old worker.old }
{
    let first = life_of(0, 1);
    let stale = Some(TakeRefusal::Stale);
    expect_refusal(rt, heads, worker, first, stale, "before it");
    let place = class.head_at(0);
    class.put_label(0, place, 7);
    expect(rt, "the first life", &class.open_life(0, place), &first);
    miss(rt, heads, worker);
    expect_refusal(rt, heads, worker, first, None, "in it");
    let hold = heads.take(worker, first).expect(rt, "there is room");
    expect_refusal(
        rt,
        heads,
        worker,
        first,
        Some(TakeRefusal::RefsFull),
        "held",
    );
    class.end_life(0, place);
    expect_refusal(
        rt,
        heads,
        worker,
        first,
        Some(TakeRefusal::Stale),
        "behind it",
    );
    heads.give_back(hold);
}

#[test]
fn takes_are_refused(rt: HostRuntime) -> Result<(), Fail> {
    play(&rt, rt.alloc(), 2, Scene::Refusals)
}

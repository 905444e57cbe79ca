//! Bumps of one worker: how they come to be, and those that find no room.
ghost use Rattle.std.specs.Prelude.{◌≡◌, None, Some, true};
ghost use Rattle.bump_rules.specs.declared.hands.Hand.TheVariants.{Clearing, Trying};
ghost use Rattle.bump_rules.specs.declared.places.Place.TheVariants as place;
ghost use Rattle.bump_heads.specs.RulesLives.{life as life_of};
ghost use Rattle.bump_heads.specs.References.{new_hold};
ghost use Rattle.bump_heads.specs.ReadersSeats.{row_in};
ghost use Rattle.bump_heads.specs.Taking.{whole_hold};
ghost use Rattle.bump_heads.specs.Views.{owns, standing};
ghost use Rattle.head_tests.specs.Stores.{fresh_class, IsNew, MayHit};

use super::expecting::{expect, expect_head, expect_head_of, expect_true};
use super::lives::fetch;
use super::scenes::{Scene, play};
use super::stores::{head, let_out};
use super::*;
use bump_heads::{ItemId, Segment};
use std::process::Abort;
use std::test::Fail;

/// The first life of chunk 0 begins, at time 1, and goes to COLD.
pub fn begin_in_cold<N: Name>(class: &mut ClassSeat<N>) -> ItemId
    requires alone { class.old.lane ≡ None }
    requires first { class.old.sheet ≡ fresh_class }
    ensures alone { class.new.lane ≡ None }
    ensures own { owns 0 class.new.sheet ≡ true }
    ensures stands { standing class.new.sheet 0 ≡ (place.Cold, 1) }
    ensures life { result ≡ life_of 0 1 }
{
    let place = class.head_at(0);
    class.put_label(0, place, 7);
    class.put_time(0, place, 1);
    let life = class.open_life(0, place);
    class.change_segment(0, place, Segment::Hot, Segment::Cold);
    life
}

/// Hits the item of the hold, which nobody hit, and tries to bump it: it is in COLD, and has no other holders.
pub fn attempt<N: Name>(
    rt: &impl Abort,
    heads: &Heads<N>,
    worker: &mut WorkerSeat<N>,
    hold: &mut Hold<N>,
)
    requires ready { MayHit heads.now worker.old hold.old }
    ensures trying { worker.new.sheet.hand ≡ Trying hold.old.life }
    ensures joined { worker.new.hold ≡ Some (new_hold hold.old.life (row_in hold.old.sheet)) }
    ensures accepted { worker.new.sheet.accounts.accepted ≡ 0 }
    ensures number { worker.new.sheet.worker ≡ worker.old.sheet.worker }
    ensures hollow { hold.new ≡ record hold.old { sheet = None } }
{
    let fetched = fetch(rt, heads, worker, hold, Segment::Cold);
    let life = hold.life();
    let place = hold.place();
    let found = heads.mark_active(worker, life, place);
    expect_true(rt, "in COLD", matches!(found.segment, Segment::Cold));
    expect_true(rt, "not ACTIVE", !found.active);
    expect_head(rt, found, fetched);
    let active = head(2, "lfa", Segment::Cold, 1);
    expect_head_of(rt, heads, life.chunk, active);
}

/// Bumps the item of the hold, in the same way, and sends the bump off, which is the worker's first.
pub fn send_off<N: Name>(
    rt: &impl Abort,
    heads: &Heads<N>,
    worker: &mut WorkerSeat<N>,
    hold: &mut Hold<N>,
) -> Rider<N>
    requires ready { MayHit heads.now worker.old hold.old }
    ensures rider { result ≡ record { worker = worker.old.sheet.worker; number = 0; life = hold.old.life } }
    ensures hold { hold.new ≡ hold.old }
{
    attempt(rt, heads, worker, hold);
    let rider = heads
        .ride(worker, hold.life(), hold.place())
        .expect(rt, "there is room");
    let_out(heads, worker, hold);
    rider
}

// The bump was dropped: ACTIVE is cleared, and the hold is split off.
fn clear_dropped<N: Name>(
    rt: &impl Abort,
    heads: &Heads<N>,
    worker: &mut WorkerSeat<N>,
    hold: &mut Hold<N>,
)
    requires clearing { worker.old.sheet.hand ≡ Clearing hold.old.life }
    requires joined { worker.old.hold ≡ Some (new_hold hold.old.life (row_in worker.old.hold)) }
    requires hollow { hold.old.sheet ≡ None }
    ensures alone { worker.new.hold ≡ None }
    ensures hold { hold.new ≡ whole_hold hold.old.life (row_in worker.old.hold) }
{
    let life = hold.life();
    let dropped = head(2, "lfa", Segment::Cold, 1);
    expect_head_of(rt, heads, life.chunk, dropped);
    expect_head(rt, heads.unmark(worker, life, hold.place()), dropped);
    expect_head_of(rt, heads, life.chunk, head(2, "lf", Segment::Cold, 1));
    let_out(heads, worker, hold);
}

// The bump is sent off, but its ring has no room: it comes back, and is dropped.
fn drop_full<N: Name>(
    rt: &impl Abort,
    heads: &Heads<N>,
    worker: &mut WorkerSeat<N>,
    hold: &mut Hold<N>,
)
    requires ready { MayHit heads.now worker.old hold.old }
    ensures alone { worker.new.hold ≡ None }
    ensures hold { hold.new ≡ hold.old }
{
    attempt(rt, heads, worker, hold);
    let life = hold.life();
    let place = hold.place();
    let rider = heads.ride(worker, life, place).expect(rt, "there is room");
    let sent = head(3, "lfa", Segment::Cold, 1);
    expect_head_of(rt, heads, life.chunk, sent);
    heads.rider_back(worker, rider);
    expect_head_of(rt, heads, life.chunk, sent);
    expect_head(rt, heads.give_back_bump(worker, life, place), sent);
    clear_dropped(rt, heads, worker, hold);
}

// The item has as many references as it may have, so that the bump is dropped before it is sent off.
fn drop_at_limit<N: Name>(
    rt: &impl Abort,
    heads: &Heads<N>,
    worker: &mut WorkerSeat<N>,
    hold: &mut Hold<N>,
)
    requires ready { MayHit heads.now worker.old hold.old }
    ensures alone { worker.new.hold ≡ None }
    ensures hold { hold.new ≡ hold.old }
{
    attempt(rt, heads, worker, hold);
    let life = hold.life();
    let place = hold.place();
    let Err(refusal) = heads.ride(worker, life, place) else {
        panic!(rt; "the item has one more reference than it may have")
    };
    expect(rt, "why", &refusal, &RideRefusal::RefsFull);
    clear_dropped(rt, heads, worker, hold);
}

/// The bump finds no room in its ring, or, where the limit is 2, no room among the references.
pub fn drop_bump<N: Name>(
    rt: &impl Abort,
    heads: &Heads<N>,
    class: &mut ClassSeat<N>,
    worker: &mut WorkerSeat<N>,
)
    requires new { IsNew heads.now class.old worker.old }
{
    let life = begin_in_cold(class);
    let mut hold = heads.take(worker, life).expect(rt, "there is room");
    if heads.refs_limit() == 2 {
        drop_at_limit(rt, heads, worker, &mut hold);
    } else {
        drop_full(rt, heads, worker, &mut hold);
    }
    expect_head(rt, heads.give_back(hold).0, head(2, "lf", Segment::Cold, 1));
    expect_head_of(rt, heads, 0, head(1, "lf", Segment::Cold, 1));
}

#[test]
fn a_bump_without_room_is_dropped(rt: HostRuntime) -> Result<(), Fail> {
    play(&rt, rt.alloc(), 2, Scene::Drop)?;
    play(&rt, rt.alloc(), 4, Scene::Drop)
}

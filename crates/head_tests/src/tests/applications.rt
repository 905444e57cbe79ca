//! One life in COLD whose bump is applied: its item is moved.
ghost use Rattle.std.specs.Prelude.{◌≡◌, IsSome, None, Some, true, false};
ghost use Rattle.bump_heads.specs.RulesLives.{life as life_of};
ghost use Rattle.bump_heads.specs.Applying.{carried_by};
ghost use Rattle.bump_heads.specs.Applications.{class_at_rest};
ghost use Rattle.bump_heads.specs.Rule.{lane_sheet};
ghost use Rattle.bump_heads.specs.ReadersSeats.{row_in};
ghost use Rattle.bump_heads.specs.Taking.{whole_hold};
ghost use Rattle.bump_heads.specs.Making.{lane_seen};
ghost use Rattle.bump_heads.specs.Views.{owns};
ghost use Rattle.head_tests.specs.Stores.{IsNew};

use super::bumps::{begin_in_cold, send_off};
use super::expecting::{expect, expect_seen};
use super::scenes::{Scene, play};
use super::stores::head;
use super::*;
use bump_heads::{Bump, Head, Outcome, Segment};
use std::process::Abort;
use std::test::Fail;

// What the steps of an application found, in order, and its outcome.
#[derive(Drop)]
struct Applied {
    tried: Head,
    cleared: Option<Head>,
    moved: Option<Head>,
    last: Head,
    outcome: Outcome,
}

// An application that didn't move the item, by what its end answered.
fn unmoved(tried: Head, cleared: Option<Head>, outcome: Outcome, last: Head) -> Applied
    ensures { result.tried ≡ tried }
{
    Applied {
        tried,
        cleared,
        moved: None,
        last,
        outcome,
    }
}

// Applies the bump aboard the lane, which is this one, of a chunk of the class, as memcached's `lru_bump_async` drain
// does.
fn apply_front<N: Name>(
    class: &mut ClassSeat<N>,
    lane: &mut LaneSeat<N>,
    bump: Bump,
    now: u64,
) -> Applied
    requires alone { class.old.lane ≡ None }
    requires own { owns bump.life.chunk class.old.sheet ≡ true }
    requires carries { carried_by lane.old ≡ Some bump }
    ensures alone { class.new.lane ≡ None }
    ensures whole { IsSome lane.new }
    ensures gone { result.tried.linked ≡ false → class.new.sheet ≡ class_at_rest class.old.sheet }
{
    let chunk = bump.life.chunk;
    let place = class.head_at(chunk);
    let tried = class.try_front(lane, bump, place);
    if !tried.linked {
        let last = class.alight(lane, bump, place, Outcome::Gone);
        return unmoved(tried, None, Outcome::Gone, last);
    }
    class.put_time(chunk, place, now);
    if !matches!(tried.segment, Segment::Cold) {
        let last = class.alight(lane, bump, place, Outcome::TimeOnly);
        return unmoved(tried, None, Outcome::TimeOnly, last);
    }
    let cleared = class.clear_active(chunk, place);
    if !cleared.active {
        let last = class.alight(lane, bump, place, Outcome::TimeOnly);
        return unmoved(tried, Some(cleared), Outcome::TimeOnly, last);
    }
    let moved = class.change_segment(chunk, place, Segment::Cold, Segment::Warm);
    let last = class.alight(lane, bump, place, Outcome::Moved);
    Applied {
        tried,
        cleared: Some(cleared),
        moved: Some(moved),
        last,
        outcome: Outcome::Moved,
    }
}

// The lane carries a bump of chunk 0's first life, which is in COLD. It gives the hold under which it was hit.
fn carry<N: Name>(
    rt: &impl Abort,
    heads: &Heads<N>,
    class: &mut ClassSeat<N>,
    worker: &mut WorkerSeat<N>,
    lane: &mut LaneSeat<N>,
) -> Hold<N>
    requires new { IsNew heads.now class.old worker.old }
    requires lane { lane.old ≡ lane_seen (lane_sheet 0) }
    ensures alone { class.new.lane ≡ None }
    ensures own { owns 0 class.new.sheet ≡ true }
    ensures carries { carried_by lane.new ≡ Some (record { number = 0; life = life_of 0 1 }) }
    ensures hold { result ≡ whole_hold (life_of 0 1) (row_in result.sheet) }
{
    let life = begin_in_cold(class);
    expect_seen(rt, heads, 0, (head(1, "l", Segment::Cold, 1), 1));
    let mut hold = heads.take(worker, life).expect(rt, "there is room");
    let rider = send_off(rt, heads, worker, &mut hold);
    let before = (head(3, "lfa", Segment::Cold, 1), 1);
    expect_seen(rt, heads, 0, before);
    lane.board(rider);
    expect_seen(rt, heads, 0, before);
    hold
}

// The steps found the item in COLD and ACTIVE, and moved it.
fn expect_moved(rt: &impl Abort, applied: &Applied) {
    let found = head(3, "lfa", Segment::Cold, 1);
    expect(rt, "the try", &applied.tried, &found);
    expect(rt, "the clearing", &applied.cleared, &Some(found));
    let moved = head(3, "lf", Segment::Cold, 1);
    expect(rt, "the move", &applied.moved, &Some(moved));
    let last = head(3, "lf", Segment::Warm, 1);
    expect(rt, "the end", &applied.last, &last);
    expect(rt, "the outcome", &applied.outcome, &Outcome::Moved);
}

/// The bump that the lane carries moves its item.
pub fn move_item<N: Name>(
    rt: &impl Abort,
    heads: &Heads<N>,
    class: &mut ClassSeat<N>,
    worker: &mut WorkerSeat<N>,
    lane: &mut LaneSeat<N>,
)
    requires new { IsNew heads.now class.old worker.old }
    requires lane { lane.old ≡ lane_seen (lane_sheet 0) }
{
    let hold = carry(rt, heads, class, worker, lane);
    let bump = Bump {
        number: 0,
        life: hold.life(),
    };
    let applied = apply_front(class, lane, bump, 9);
    expect_moved(rt, &applied);
    expect_seen(rt, heads, 0, (head(2, "lf", Segment::Warm, 1), 9));
    heads.give_back(hold);
}

#[test]
fn a_bump_moves_its_item(rt: HostRuntime) -> Result<(), Fail> {
    play(&rt, rt.alloc(), 4, Scene::Move)
}

//! The bump aboard a lane is applied.
ghost use Rattle.std.specs.Prelude.{◌≡◌, ◌==◌, ◌<◌, ℕ, ◌+◌, slice_index, vec_len, None, Some, IsSome, IfSome, true};
ghost use Rattle.bump_rules.specs.Lawful.{bit};
ghost use Rattle.bump_rules.specs.Rings.{most_attempts};
ghost use Rattle.bump_steps.specs.Views.{owns};
ghost use Rattle.bump_heads.specs.Applying.{carried_by};
ghost use Rattle.bump_class.specs.Applications.{FoundHeads as TheFoundHeads, Updates, AppliesBump};
ghost use Rattle.bump_class.specs.Lanes.{carries, sheet_or};

use crate::books::Book;
use crate::carriers::Carrier;
use crate::lanes::RawLane;
use bump_heads::{ClassSeat, LaneSeat, Name};
use bump_rules::{Applied, Bump, Outcome, Place, Segment};
use bump_steps::RowLaw;

// Applies the bump aboard the lane on its item's words: one look; then, where the item is linked, its time is stored;
// in COLD, ACTIVE is cleared, and where it was set the segment is changed; last the bump's reference is given back.
fn update<N: Name, L: RowLaw>(
    class: &mut ClassSeat<N, L>,
    lane: &mut LaneSeat<N, L>,
    bump: Bump,
    now: u64,
) -> Outcome
    requires alone { class.old.lane ≡ None }
    requires idle { class.old.sheet.applying ≡ None }
    requires own { owns bump.life.chunk class.old.sheet ≡ true }
    requires carries { carried_by lane.old ≡ Some bump }
    ensures whole { lane.new ≡ Some (sheet_or lane.new) }
    ensures updates { (found : TheFoundHeads) × Updates class.old (sheet_or lane.old) bump now result class.new
        (sheet_or lane.new) found }
{
    let chunk = bump.life.chunk;
    let place = class.head_at(chunk);
    let tried = class.try_front(lane, bump, place);
    if !tried.linked {
        class.alight(lane, bump, place, Outcome::Gone);
        return Outcome::Gone;
    }
    class.put_time(chunk, place, now);
    if !matches!(tried.segment, Segment::Cold) {
        class.alight(lane, bump, place, Outcome::TimeOnly);
        return Outcome::TimeOnly;
    }
    let cleared = class.clear_active(chunk, place);
    if !cleared.active {
        class.alight(lane, bump, place, Outcome::TimeOnly);
        return Outcome::TimeOnly;
    }
    class.change_segment(chunk, place, Segment::Cold, Segment::Warm);
    class.alight(lane, bump, place, Outcome::Moved);
    Outcome::Moved
}

// One more move for a bump of the worker, if it is one of those whose moves are counted.
fn count_move(moved: &mut Vec<u64>, worker: u32)
    requires few { worker < vec_len moved.old → slice_index moved.old.items worker < most_attempts }
    ensures workers { vec_len moved.new ≡ vec_len moved.old }
    ensures counted { (w : ℕ) → w < vec_len moved.old → slice_index moved.new.items w ≡ slice_index moved.old.items w
        + bit (worker == w) }
{
    if (worker as usize) < moved.len() {
        moved[worker as usize] += 1;
    }
}

impl<N: Name, L: RowLaw> Book<N, L> {
    /// Applies the bump aboard the lane, whose chunk is of this class, and gives its reference back (memcached's
    /// `do_item_update` and `do_item_remove`, in `lru_maintainer_bumps`). `now` is the item's new time, in the
    /// caller's ticks. By the head that one look finds, and in COLD by the one that the clearing of ACTIVE finds, it
    /// answers
    /// 1. Gone, where the item isn't linked: nothing is stored. One more look finds whether its chunk is free now.
    /// 2. Moved, where it is linked in COLD and ACTIVE was set: its time is stored, and it goes to the front of WARM.
    /// 3. TimeOnly, where it is linked, and not that: its time is stored, and it stays where it is.
    #[inline(always)]
    pub fn apply_front(&mut self, lane: &mut RawLane<N, L>, now: u64) -> Applied
        requires carries { IsSome (carries lane.old) }
        requires own { IfSome (carries lane.old) (λ bump. owns bump.life.chunk self.old.sheet ≡ true) }
        ensures applied { AppliesBump now self.old lane.old result self.new lane.new }
    {
        let bump = Bump {
            number: lane.carrier.applied(),
            life: lane.life,
        };
        lane.is_aboard = false;
        self.apply_bump(&mut lane.carrier, bump, now)
    }

    // The same for the bump aboard a carrier, which is this one.
    #[inline(always)]
    pub(crate) fn apply_bump(&mut self, lane: &mut Carrier<N, L>, bump: Bump, now: u64) -> Applied
        requires carries { carries lane.old ≡ Some bump }
        requires own { owns bump.life.chunk self.old.sheet ≡ true }
        ensures applied { AppliesBump now self.old lane.old result self.new lane.new }
    {
        let chunk = bump.life.chunk;
        let outcome = update(&mut self.seat, &mut lane.seat, bump, now);
        lane.applied += 1;
        match outcome {
            Outcome::Moved => {
                count_move(&mut self.moved, lane.worker);
                self.lists.to_front(chunk, Place::Warm);
                Applied::Moved
            }
            Outcome::TimeOnly => Applied::TimeOnly,
            Outcome::Gone => Applied::Gone(self.seen_unheld(chunk, self.head_at(chunk)).ended()),
        }
    }
}

//! A run of bumps of one class is applied by one call.
ghost use Rattle.std.specs.Prelude.{◌≡◌, ◌≢◌, ℕ, ◌+◌, ◌-◌, ◌^◌, ◌≤◌, ◌<◌, List as TheList, length, slice_set};
ghost use Rattle.std.specs.Prelude.{T, None, Some, IsSome, IfSome, true, false};
ghost use Rattle.bump_steps.specs.Views.{owns};
ghost use Rattle.bump_class.specs.Lanes.{LaneView as TheLaneView, carries, entries};
ghost use Rattle.bump_class.specs.Runs.{AppliesUpTo, FreesRun, MayHaveBoarded, IsRunOver, freed_alone, with_freed};
ghost use Rattle.bump_class.specs.Sweeps.{told_first};

use crate::books::Book;
use crate::carriers::Carrier;
use crate::lanes::RawLane;
use crate::sweeping::tell;
use bump_heads::Name;
use bump_rules::{Applied, Bump, Ended};
use bump_steps::RowLaw;

/// What a run of applications came to that tells which chunks came free.
#[derive(Clone, Copy, Debug, PartialEq, Eq)]
pub struct RunEnd {
    /// How many bumps were applied.
    pub applied: u32,

    /// How many chunks came free by that.
    pub freed: u32,
}

// Tells the chunk of a bump that was applied, where it came free by that. Answers how many chunks are told then.
#[inline(always)]
fn tell_freed(freed: &mut [u32], count: u32, chunk: u32, applied: Applied) -> u32
    requires { count < 2 ^ 32 - 1 }
    ensures count { result ≡ count + length (freed_alone chunk applied) }
    ensures told { count < length freed.old → freed.new ≡ with_freed count (freed_alone chunk applied) freed.old }
{
    if !matches!(applied, Applied::Gone(Ended::Freed)) {
        return count;
    }
    tell(freed, count, chunk);
    count + 1
}

// Whether no chunk can be told any more. Where the slice is empty nobody is told.
#[inline(always)]
fn is_full(freed: &[u32], count: u32) -> bool
    ensures full { T result → (0 < length freed.now) × (count ≡ length freed.now) }
    ensures room { result ≡ false → 0 < length freed.now → count ≢ length freed.now }
{
    !freed.is_empty() && count as usize == freed.len()
}

impl<N: Name, L: RowLaw> Book<N, L> {
    /// Applies the bump aboard the lane, whose chunk is of this class, and the next ones as long as they are of this
    /// class too, at most `limit`: each as `apply_front` does, in the order in which the lane received them. `now` is
    /// the new time of their items, in the caller's ticks. It answers how many.
    ///
    /// They are fewer than `limit` only where then no bump is aboard or known, or the bump aboard is of another class.
    /// At `limit` nothing is aboard.
    pub fn apply_run(&mut self, lane: &mut RawLane<N, L>, now: u64, limit: u32) -> u32
        requires carries { IsSome (carries lane.old) }
        requires own { IfSome (carries lane.old) (λ bump. owns bump.life.chunk self.old.sheet ≡ true) }
        requires some { 1 ≤ limit }
        ensures applied { AppliesUpTo limit now self.old lane.old result self.new lane.new }
        ensures over { result < limit → IsRunOver (carries lane.new) self.new lane.new }
    {
        let first = Bump {
            number: lane.carrier.applied(),
            life: lane.life,
        };
        let (end, left) = self.run(&mut lane.carrier, first, now, limit, &mut []);
        match left {
            Some(bump) => lane.life = bump.life,
            None => lane.is_aboard = false,
        }
        end.applied
    }

    /// Applies a run as `apply_run` does, and tells in `freed`, which isn't empty, which chunks came free by it, in the
    /// order in which they did: those of the bumps that were Gone and whose chunk nobody holds any more. It stops also
    /// where `freed` is full. Answers how many bumps were applied, and how many chunks are told; the rest of `freed`
    /// stays.
    pub fn apply_run_into(
        &mut self,
        lane: &mut RawLane<N, L>,
        now: u64,
        limit: u32,
        freed: &mut [u32],
    ) -> RunEnd
        requires carries { IsSome (carries lane.old) }
        requires own { IfSome (carries lane.old) (λ bump. owns bump.life.chunk self.old.sheet ≡ true) }
        requires some { 1 ≤ limit }
        requires room { 1 ≤ length freed.old }
        ensures applied { AppliesUpTo limit now self.old lane.old result.applied self.new lane.new }
        ensures freed { (last : TheLaneView) × (chunks : TheList ℕ)
            × FreesRun now (length freed.old) self.old lane.old result.applied chunks self.new last
            × MayHaveBoarded (carries lane.new) last lane.new
            × (freed.new ≡ told_first chunks freed.old) × (result.freed ≡ length chunks) }
        ensures few { result.freed ≤ length freed.old }
        ensures over { result.applied < limit → result.freed < length freed.old
            → IsRunOver (carries lane.new) self.new lane.new }
        ensures full { result.freed ≡ length freed.old → carries lane.new ≡ None }
    {
        let first = Bump {
            number: lane.carrier.applied(),
            life: lane.life,
        };
        let (end, left) = self.run(&mut lane.carrier, first, now, limit, freed);
        match left {
            Some(bump) => lane.life = bump.life,
            None => lane.is_aboard = false,
        }
        end
    }

    // The same, by the bump in the hand: the bump aboard the carrier, which is this one, and the next ones. It tells
    // which chunks came free in a slice, and stops where that is full; an empty one never is. It answers how many there
    // are, and the bump that is aboard then.
    #[inline(always)]
    fn run(
        &mut self,
        lane: &mut Carrier<N, L>,
        first: Bump,
        now: u64,
        limit: u32,
        freed: &mut [u32],
    ) -> (RunEnd, Option<Bump>)
        requires carries { carries lane.old ≡ Some first }
        requires own { owns first.life.chunk self.old.sheet ≡ true }
        requires some { 1 ≤ limit }
        ensures applied { AppliesUpTo limit now self.old lane.old result.0.applied self.new lane.new }
        ensures freed { (last : TheLaneView) × (chunks : TheList ℕ)
            × FreesRun now (length freed.old) self.old lane.old result.0.applied chunks self.new last
            × MayHaveBoarded (carries lane.new) last lane.new
            × (0 < length freed.old → (freed.new ≡ told_first chunks freed.old)
            × (result.0.freed ≡ length chunks) × (result.0.freed ≤ length freed.old)) }
        ensures over { result.0.applied < limit → (0 < length freed.old → result.0.freed < length freed.old)
            → IsRunOver (carries lane.new) self.new lane.new }
        ensures full { 0 < length freed.old → result.0.freed ≡ length freed.old → carries lane.new ≡ None }
        ensures aboard { carries lane.new ≡ result.1 }
        ensures number { IfSome result.1 (λ bump. bump.number ≡ length (entries lane.new)) }
    {
        let mut bump = first;
        let mut done = 0;
        let mut count = 0;
        loop {
            let applied = self.apply_bump(lane, bump, now);
            done += 1;
            count = tell_freed(freed, count, bump.life.chunk, applied);
            let end = RunEnd {
                applied: done,
                freed: count,
            };
            if done == limit {
                return (end, None);
            }
            if is_full(freed, count) {
                return (end, None);
            }
            let Some(next) = lane.take() else {
                return (end, None);
            };
            if !self.has_chunk(next.life.chunk) {
                return (end, Some(next));
            }
            bump = next;
        }
    }
}

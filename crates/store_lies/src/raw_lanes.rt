//! A Book that applies the bumps of a raw lane, as a caller calls it.
ghost use Rattle.bump_class.specs.Applications.{AppliesBump};
ghost use Rattle.bump_class.specs.Lanes.{carries, LaneView as TheLaneView};
ghost use Rattle.bump_class.specs.Runs.{AppliesUpTo, IsRunOver, FreesRun, MayHaveBoarded};
ghost use Rattle.bump_class.specs.Sweeps.{told_first};
ghost use Rattle.bump_steps.specs.Views.{owns};
ghost use Rattle.std.specs.Prelude.{◌≡◌, IsSome, IfSome, true, ◌≤◌, ◌<◌, ℕ, List as TheList, length, None};

use bump_class::{Book, RawLane, RunEnd};
use bump_rules::Bump;
use bump_store::{Applied, Name, RowLaw};

/// Applies the bump aboard.
pub fn apply_front<N: Name, L: RowLaw>(
    book: &mut Book<N, L>,
    lane: &mut RawLane<N, L>,
    now: u64,
) -> Applied
    requires carries { IsSome (carries lane.old) }
    requires own { IfSome (carries lane.old) (λ bump. owns bump.life.chunk book.old.sheet ≡ true) }
    ensures applied { AppliesBump now book.old lane.old result book.new lane.new }
{
    book.apply_front(lane, now)
}

/// Applies a run of bumps.
pub fn apply_run<N: Name, L: RowLaw>(
    book: &mut Book<N, L>,
    lane: &mut RawLane<N, L>,
    now: u64,
    limit: u32,
) -> u32
    requires carries { IsSome (carries lane.old) }
    requires own { IfSome (carries lane.old) (λ bump. owns bump.life.chunk book.old.sheet ≡ true) }
    requires some { 1 ≤ limit }
    ensures applied { AppliesUpTo limit now book.old lane.old result book.new lane.new }
    ensures over { result < limit → IsRunOver (carries lane.new) book.new lane.new }
{
    book.apply_run(lane, now, limit)
}

/// The same, and tells which chunks came free.
pub fn apply_run_into<N: Name, L: RowLaw>(
    book: &mut Book<N, L>,
    lane: &mut RawLane<N, L>,
    now: u64,
    limit: u32,
    freed: &mut [u32],
) -> RunEnd
    requires carries { IsSome (carries lane.old) }
    requires own { IfSome (carries lane.old) (λ bump. owns bump.life.chunk book.old.sheet ≡ true) }
    requires some { 1 ≤ limit }
    requires room { 1 ≤ length freed.old }
    ensures applied { AppliesUpTo limit now book.old lane.old result.applied book.new lane.new }
    ensures freed { (last : TheLaneView) × (chunks : TheList ℕ)
        × FreesRun now (length freed.old) book.old lane.old result.applied chunks book.new last
        × MayHaveBoarded (carries lane.new) last lane.new
        × (freed.new ≡ told_first chunks freed.old) × (result.freed ≡ length chunks) }
    ensures few { result.freed ≤ length freed.old }
    ensures over { result.applied < limit → result.freed < length freed.old
        → IsRunOver (carries lane.new) book.new lane.new }
    ensures full { result.freed ≡ length freed.old → carries lane.new ≡ None }
{
    book.apply_run_into(lane, now, limit, freed)
}

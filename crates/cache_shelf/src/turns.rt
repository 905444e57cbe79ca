//! The turn of a put that applies bumps, and balances.
ghost use Rattle.std.specs.Prelude.{◌≡◌, ◌+◌, ◌<◌, true, false, length};
ghost use Rattle.cache_shelf.specs.Limits.{put_rounds};
ghost use Rattle.cache_shelf.specs.Turns.{DrainsInTurn, TakesTurn, OnlyMoves};

use crate::limits::{Limits, PUT_BUMPS, PUT_ROUNDS};
use bump_class::RawLane;
use bump_heads::Name;
use bump_steps::RowLaw;
use cache_part::Part;

// Whether it is the turn of a put before which there were so many since the last that had its turn.
fn has_turn(puts: u32) -> bool
    requires { puts < put_rounds }
    ensures turn { result ≡ true → puts + 1 ≡ put_rounds }
    ensures early { result ≡ false → puts + 1 < put_rounds }
{
    puts + 1 >= PUT_ROUNDS
}

// Applies the bumps that wait in the lanes, at most `PUT_BUMPS` of each, where this is the put whose turn it is.
pub(crate) fn drain_in_turn<N: Name, L: RowLaw>(
    part: &mut Part<N, L>,
    lanes: &mut [RawLane<N, L>],
    puts: u32,
    now: u64,
)
    requires { puts < put_rounds }
    ensures drains { DrainsInTurn puts now part.old lanes.old part.new lanes.new }
    ensures moves { OnlyMoves part.old part.new }
    ensures lanes { length lanes.new ≡ length lanes.old }
{
    if !has_turn(puts) {
        return;
    }
    part.drain(lanes, PUT_BUMPS, now);
}

// Counts one more put, and balances where it is the one whose turn that is. It tells how many there were since then.
pub(crate) fn take_turn<N: Name, L: RowLaw>(
    part: &mut Part<N, L>,
    limits: Limits,
    puts: u32,
    now: u64,
) -> u32
    requires { puts < put_rounds }
    ensures turn { TakesTurn limits puts now part.old part.new result }
    ensures moves { OnlyMoves part.old part.new }
    ensures below { result < put_rounds }
{
    if !has_turn(puts) {
        return puts + 1;
    }
    part.balance(PUT_ROUNDS, limits.bounds, now);
    0
}

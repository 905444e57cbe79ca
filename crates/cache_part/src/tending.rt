//! A part is tended: the bumps that wait are applied, and its lists are looked at.
ghost use Rattle.std.specs.Prelude.{◌≡◌, ℕ, ◌≤◌, ◌-◌};
ghost use Rattle.cache_lists.specs.Items.{KeepsItems};
ghost use Rattle.cache_part.specs.Expiring.{HasNoneExpired, IsInTurn, KeepsUnexpired, looks_of, number_behind};
ghost use Rattle.cache_part.specs.Parts.{IsPart};
ghost use Rattle.cache_part.specs.Tending.{BalancesByAge, BalancesOften, BalancesUpTo, DrainsEach, DrainsWhereHeld, Tends};

use crate::expiring;
use crate::putting::Settings;
use bump_class::RawLane;
use bump_heads::Name;
use bump_rules::LOOKS;
use bump_steps::RowLaw;
use cache_index::Index;
use cache_lists::{Bound, Bounds, CountedBook};

// Applies the bumps that wait in the lanes, lane by lane, at most `most` of each.
pub(crate) fn drain<N: Name, L: RowLaw>(
    lists: &mut CountedBook<N, L>,
    lanes: &mut [RawLane<N, L>],
    most: u32,
    now: u64,
)
    ensures drains { DrainsEach most now lists.old.book lanes.old lists.new.book lanes.new }
    ensures kept { KeepsItems lists.old.book lists.new.book }
    ensures evictions { lists.new.evictions ≡ lists.old.evictions }
{
    for lane in lanes.iter_mut() {
        lists.drain_front(lane, now, most);
    }
}

// Applies the bumps that wait in the lanes, at most `most` of each, where COLD's last item is held: else it would end
// while a bump of it waits, and its chunk would come free only behind that.
pub(crate) fn drain_where_held<N: Name, L: RowLaw>(
    lists: &mut CountedBook<N, L>,
    lanes: &mut [RawLane<N, L>],
    most: u32,
    now: u64,
)
    ensures drains { DrainsWhereHeld most now lists.old lanes.old lists.new lanes.new }
    ensures kept { KeepsItems lists.old.book lists.new.book }
{
    if lists.is_cold_end_held() {
        drain(lists, lanes, most, now);
    }
}

// Looks at the last items of HOT and WARM, each by its bound, in rounds, until one moves nothing, at most so many.
#[inline(always)]
fn balance_by<N: Name, L: RowLaw>(
    lists: &mut CountedBook<N, L>,
    most: u32,
    hot: Bound,
    warm: Bound,
    now: u64,
)
    ensures balances { BalancesUpTo most hot warm now lists.old.book lists.new.book }
    ensures kept { KeepsItems lists.old.book lists.new.book }
    ensures evictions { lists.new.evictions ≡ lists.old.evictions }
{
    for _round in 0..most {
        if !lists.balance(hot, warm, now) {
            return;
        }
    }
}

// Looks at the age of COLD, and then at HOT and WARM, by the bounds that follow. It stands alone, since it is made of
// pulls, and each eighth put calls it.
#[inline(never)]
pub(crate) fn balance<N: Name, L: RowLaw>(
    lists: &mut CountedBook<N, L>,
    most: u32,
    bounds: Bounds,
    now: u64,
)
    ensures balances { BalancesByAge most bounds now lists.old.book lists.new.book }
    ensures kept { KeepsItems lists.old.book lists.new.book }
    ensures evictions { lists.new.evictions ≡ lists.old.evictions }
{
    let age = lists.cold_age(now);
    balance_by(lists, most, bounds.of_hot(age), bounds.of_warm(age), now);
}

// So does a tend.
fn balance_often<N: Name, L: RowLaw>(lists: &mut CountedBook<N, L>, bounds: Bounds, now: u64)
    ensures balances { BalancesOften bounds now lists.old.book lists.new.book }
    ensures kept { KeepsItems lists.old.book lists.new.book }
    ensures evictions { lists.new.evictions ≡ lists.old.evictions }
{
    balance(lists, LOOKS, bounds, now);
}

// The whole turn of a part.
pub(crate) fn tend<N: Name, L: RowLaw>(
    lists: &mut CountedBook<N, L>,
    index: &mut Index,
    settings: Settings,
    lanes: &mut [RawLane<N, L>],
    most: u32,
    now: u64,
    bounds: Bounds,
    looks: u32,
    cursor: u32,
) -> u32
    requires part { IsPart settings.seed settings.key_words lists.old.book.sheet index.old.table }
    requires first { index.old.first ≡ lists.old.book.sheet.first }
    requires cursor { cursor ≤ lists.old.book.sheet.count - 1 }
    ensures part { IsPart settings.seed settings.key_words lists.new.book.sheet index.new.table }
    ensures first { index.new.first ≡ index.old.first }
    ensures tends { Tends most now bounds looks cursor lists.old lanes.old lists.new lanes.new }
    ensures ended { (chunk : ℕ) → IsInTurn cursor (looks_of looks lists.old.book) lists.old.book.sheet chunk
        → HasNoneExpired now chunk lists.new.book }
    ensures kept { KeepsUnexpired now lists.old.book lists.new.book }
    ensures cursor { result ≡ number_behind cursor (looks_of looks lists.old.book) lists.old.book.sheet.count }
    ensures within { result ≤ lists.new.book.sheet.count - 1 }
{
    drain(lists, lanes, most, now);
    // What ended now is swept at once, where nobody holds it.
    let turn = expiring::end_expired(lists, index, settings, cursor, looks, now);
    lists.sweep();
    balance_often(lists, bounds, now);
    turn.cursor
}

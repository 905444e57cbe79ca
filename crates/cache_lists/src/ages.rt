//! How long ago the last items of the lists were used: memcached's `hot_max_factor` and `warm_max_factor`.
ghost use Rattle.std.specs.Prelude.{◌≡◌, ◌≢◌};
ghost use Rattle.bump_rules.specs.declared.places.Tail.TheVariants as tail;
ghost use Rattle.cache_lists.specs.Ages.{Balances, LooksPast, SeesColdAge, hot_bound, longest_idle, most_of, warm_bound};
ghost use Rattle.cache_lists.specs.Items.{KeepsItems};

use crate::counted::CountedBook;
use crate::items;
use bump_heads::Name;
use bump_rules::{Place, Tail};
use bump_steps::RowLaw;

/// What decides whether the last item of HOT, or of WARM, goes to COLD, where it isn't ACTIVE.
#[derive(Clone, Copy, Debug, PartialEq, Eq)]
pub struct Bound {
    /// It goes where its list has more than so many items.
    pub most: u32,

    /// It goes also where it was used more than so many ticks ago.
    pub idle: u64,
}

impl Bound {
    // So many items its list may have where its last one was used so many ticks ago.
    pub(crate) fn most_at(&self, idle: u64) -> u32
        ensures { result ≡ most_of self.now idle }
    {
        if idle > self.idle { 0 } else { self.most }
    }
}

/// What keeps HOT and WARM short.
#[derive(Clone, Copy, Debug, PartialEq, Eq)]
pub struct Bounds {
    /// HOT's last item goes to COLD where HOT has more than so many items.
    pub hot: u32,

    /// WARM's where WARM has more than so many.
    pub warm: u32,

    /// HOT's goes also where it was used longer ago than so many percent of COLD's age. Without a percentage it doesn't.
    pub hot_age: Option<u32>,

    /// And WARM's where it was used longer ago than so many percent of it.
    pub warm_age: Option<u32>,
}

// So many percent of an age, rounded down, and at most 2^64 - 1; and without a percentage 2^64 - 1, which no item exceeds.
fn share_of(percent: Option<u32>, age: u64) -> u64
    ensures { result ≡ longest_idle percent age }
{
    let Some(percent) = percent else {
        return u64::MAX;
    };
    let share = u128::from(age) * u128::from(percent) / 100;
    share.min(u128::from(u64::MAX)) as u64
}

impl Bounds {
    /// The bound of HOT where COLD's age is this, in the caller's ticks.
    pub fn of_hot(&self, age: u64) -> Bound
        ensures { result ≡ hot_bound self.now age }
    {
        Bound {
            most: self.hot,
            idle: share_of(self.hot_age, age),
        }
    }

    /// The bound of WARM where COLD's age is this.
    pub fn of_warm(&self, age: u64) -> Bound
        ensures { result ≡ warm_bound self.now age }
    {
        Bound {
            most: self.warm,
            idle: share_of(self.warm_age, age),
        }
    }
}

impl<N: Name, L: RowLaw> CountedBook<N, L> {
    /// How long before `now` the last item of COLD was used, in the caller's ticks: 0 where COLD is empty, and where its
    /// time is ahead.
    pub fn cold_age(&mut self, now: u64) -> u64
        ensures age { SeesColdAge result now self.old.book self.new.book }
        ensures kept { KeepsItems self.old.book self.new.book }
        ensures rest { self.new ≡ record self.old { book = self.new.book } }
    {
        let Some(chunk) = self.book.last(Place::Cold) else {
            return 0;
        };
        let (_, time) = self.book.see(chunk);
        now.saturating_sub(time)
    }

    /// Looks at the last item of HOT or WARM, as memcached's `lru_pull_tail` does, and tells whether it was moved. Where
    /// it is ACTIVE it loses that, and goes to the front of WARM. Else it goes to the front of COLD where its list has more
    /// items than the bound says, or where it was used longer ago than that, in the caller's ticks before `now`; and else
    /// it stays. Where the list is empty nothing changes.
    #[inline(always)]
    pub fn look_past(&mut self, from: Tail, bound: Bound, now: u64) -> bool
        requires { from ≢ tail.Evict }
        ensures looked { LooksPast from bound now result self.old.book self.new.book }
        ensures kept { KeepsItems self.old.book self.new.book }
        ensures evictions { self.new.evictions ≡ self.old.evictions }
    {
        let pulled = items::look_past(&mut self.book, from, bound, now);
        self.flow.note_move(from.segment(), pulled.to());
        pulled.to().is_some()
    }

    /// Looks at the last item of HOT, and then at WARM's, each by its bound, and tells whether one of them was moved.
    #[inline(always)]
    pub fn balance(&mut self, hot: Bound, warm: Bound, now: u64) -> bool
        ensures looked { Balances hot warm now result self.old.book self.new.book }
        ensures kept { KeepsItems self.old.book self.new.book }
        ensures evictions { self.new.evictions ≡ self.old.evictions }
    {
        let hot = self.look_past(Tail::Hot, hot, now);
        let warm = self.look_past(Tail::Warm, warm, now);
        hot || warm
    }
}

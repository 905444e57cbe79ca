//! What a Shelf evicted, and what it ended that had expired.
ghost use Rattle.std.specs.Prelude.{◌≡◌, ◌<◌, true, false};
ghost use Rattle.cache_lists.specs.Counts.{count_of, no_evictions, number_of, with_count, with_crawled, with_eviction};

/// The names of what is counted of items that ended. They stand in the order of `bump_cache_stats_of` of
/// c/bump_cache.h, from `evicted_unfetched` on; `Evicted` stands where C reads `direct_reclaims`.
#[derive(Clone, Copy, Debug, PartialEq, Eq)]
pub enum Statistic {
    /// Of those that were evicted, the ones that were never hit: a look just behind the item's end found FETCHED clear.
    EvictedUnfetched,

    /// Of those that were evicted, the ones that were hit more than once of late: the look found ACTIVE set. An item of
    /// WARM or HOT lost it by the look before its end, so it isn't one of these.
    EvictedActive,

    /// Items that were evicted: their turn came, and they hadn't expired. A put's own thread evicted each: nobody else
    /// evicts.
    Evicted,

    /// Items that had expired when their turn came.
    Reclaimed,

    /// Items that had expired when they ended, since their turn came or by `CountedBook::end_expired`, and that were
    /// never hit.
    ExpiredUnfetched,

    /// Items that `CountedBook::end_expired` ended.
    CrawlerReclaimed,
}

/// How many names there are.
pub const STATISTICS: usize = 6;

/// How many items ended since the Shelf was made, to make room or since they had expired. Each count stops at 2^64 - 1.
#[derive(Clone, Copy, Debug, PartialEq, Eq)]
pub struct Evictions {
    /// Each count, in the order of the names.
    pub counts: [u64; STATISTICS],
}

impl Evictions {
    /// Nothing ended yet.
    pub fn new() -> Evictions
        ensures { result ≡ no_evictions }
    {
        Evictions {
            counts: [0; STATISTICS],
        }
    }

    /// The count of this name.
    pub fn of(&self, name: Statistic) -> u64
        ensures { result ≡ count_of name self.now }
    {
        self.counts[name as usize]
    }

    // One more of this name, or not.
    fn note_one(&mut self, name: Statistic, more: bool)
        ensures { self.new ≡ with_count name more self.old }
    {
        if more {
            let count = &mut self.counts[name as usize];
            *count = count.saturating_add(1);
        }
    }

    // An item's turn came, which had expired or not, and had these marks.
    pub(crate) fn note(&mut self, expired: bool, fetched: bool, active: bool)
        ensures { self.new ≡ with_eviction expired fetched active self.old }
    {
        if expired {
            self.note_one(Statistic::Reclaimed, true);
            self.note_one(Statistic::ExpiredUnfetched, !fetched);
        } else {
            self.note_one(Statistic::Evicted, true);
            self.note_one(Statistic::EvictedUnfetched, !fetched);
            self.note_one(Statistic::EvictedActive, active);
        }
    }

    // An item was found expired, and ended, which had this mark.
    pub(crate) fn note_crawled(&mut self, fetched: bool)
        ensures { self.new ≡ with_crawled fetched self.old }
    {
        self.note_one(Statistic::CrawlerReclaimed, true);
        self.note_one(Statistic::ExpiredUnfetched, !fetched);
    }
}

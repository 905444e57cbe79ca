//! The statistics of a part.
ghost use Rattle.std.specs.Prelude.{◌≡◌};
ghost use Rattle.cache_lists.specs.Counts.{count_of};
ghost use Rattle.cache_part.specs.Stats.{stats_of};

use crate::parts::Part;
use bump_heads::Name;
use bump_rules::Place;
use bump_steps::RowLaw;
use cache_lists::{Evictions, Flow, Statistic};

/// Statistics by memcached's names. Sizes are of now; all else is counted since the part was made, and stops at
/// 2^64 - 1.
#[derive(Clone, Copy, Debug, PartialEq, Eq)]
pub struct Stats {
    /// Items in HOT.
    pub number_hot: u32,

    /// Items in WARM.
    pub number_warm: u32,

    /// Items in COLD.
    pub number_cold: u32,

    /// Items in TEMP.
    pub number_temp: u32,

    /// Moves from HOT and WARM to COLD.
    pub moves_to_cold: u64,

    /// Moves from HOT and COLD to WARM.
    pub moves_to_warm: u64,

    /// Moves from WARM to its front.
    pub moves_within_lru: u64,

    /// What was counted of items that ended, by names.
    pub evictions: Evictions,

    /// Each way of items by itself.
    pub flow: Flow,
}

impl Stats {
    /// Items that were evicted which hadn't expired.
    pub fn evicted(&self) -> u64
        ensures { result ≡ count_of Statistic.Evicted self.now.evictions }
    {
        self.evictions.of(Statistic::Evicted)
    }

    /// Those of them that were never hit.
    pub fn evicted_unfetched(&self) -> u64
        ensures { result ≡ count_of Statistic.EvictedUnfetched self.now.evictions }
    {
        self.evictions.of(Statistic::EvictedUnfetched)
    }

    /// Those of them that were ACTIVE when they ended.
    pub fn evicted_active(&self) -> u64
        ensures { result ≡ count_of Statistic.EvictedActive self.now.evictions }
    {
        self.evictions.of(Statistic::EvictedActive)
    }

    /// Items that the thread of a put, or of an evict, evicted. These are all of them: nobody else evicts.
    pub fn direct_reclaims(&self) -> u64
        ensures { result ≡ count_of Statistic.Evicted self.now.evictions }
    {
        self.evictions.of(Statistic::Evicted)
    }

    /// Items that ended in the same way to make room, and had expired.
    pub fn reclaimed(&self) -> u64
        ensures { result ≡ count_of Statistic.Reclaimed self.now.evictions }
    {
        self.evictions.of(Statistic::Reclaimed)
    }

    /// Items that ended since they had expired, to make room or by `Part::end_expired`, and were never hit.
    pub fn expired_unfetched(&self) -> u64
        ensures { result ≡ count_of Statistic.ExpiredUnfetched self.now.evictions }
    {
        self.evictions.of(Statistic::ExpiredUnfetched)
    }

    /// Items that `Part::end_expired` ended.
    pub fn crawler_reclaimed(&self) -> u64
        ensures { result ≡ count_of Statistic.CrawlerReclaimed self.now.evictions }
    {
        self.evictions.of(Statistic::CrawlerReclaimed)
    }
}

impl<N: Name, L: RowLaw> Part<N, L> {
    /// The statistics: sizes are the lists', and each count is how often the class's history has such a move
    /// (`Part::promise` says so of each way, and that what came into HOT, WARM, COLD or TEMP is there still or went
    /// out).
    pub fn stats(&self) -> Stats
        ensures { result ≡ stats_of self.now }
    {
        let flow = self.lists.flow();
        Stats {
            number_hot: self.lists.size(Place::Hot),
            number_warm: self.lists.size(Place::Warm),
            number_cold: self.lists.size(Place::Cold),
            number_temp: self.lists.size(Place::Temp),
            moves_to_cold: flow.hot_to_cold.saturating_add(flow.warm_to_cold),
            moves_to_warm: flow.hot_to_warm.saturating_add(flow.cold_to_warm),
            moves_within_lru: flow.warm_to_warm,
            evictions: self.lists.evictions(),
            flow,
        }
    }
}

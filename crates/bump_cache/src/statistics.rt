//! The statistics of a cache.
ghost use Rattle.std.specs.Prelude.{◌≡◌, ◌<◌, ◌≤◌, ◌↔◌, IfSome, IsNone};
ghost use Rattle.cache_part.specs.Stats.{stats_of as stats_of_part};
ghost use Rattle.call_log.specs.Calls.{OnlyLooks};
ghost use Rattle.bump_cache.specs.States.{now_of};
ghost use Rattle.bump_cache.specs.Sums.{both_evictions as sums_of_evictions, both_flows};
ghost use Rattle.bump_cache.specs.Sums.{both_stats as sums_of, no_stats};
ghost use Rattle.bump_cache.specs.Tending.{LooksAtPart, SumsUpParts};

use crate::caches::Cache;
use crate::states::CacheState;
use bump_heads::Name;
use cache_lists::{Evictions, Flow};
use cache_shelf::Stats;
use call_log::{Caller, LogName};
use packed_words::Packed;
use std::array;
use std::sync::Wait;

// Each way of items by itself, as far as a count goes.
fn both_ways(one: &Flow, other: &Flow) -> Flow
    ensures { result ≡ both_flows one.now other.now }
{
    Flow {
        linked: one.linked.saturating_add(other.linked),
        linked_temp: one.linked_temp.saturating_add(other.linked_temp),
        hot_to_warm: one.hot_to_warm.saturating_add(other.hot_to_warm),
        hot_to_cold: one.hot_to_cold.saturating_add(other.hot_to_cold),
        warm_to_warm: one.warm_to_warm.saturating_add(other.warm_to_warm),
        warm_to_cold: one.warm_to_cold.saturating_add(other.warm_to_cold),
        cold_to_warm: one.cold_to_warm.saturating_add(other.cold_to_warm),
        ended_hot: one.ended_hot.saturating_add(other.ended_hot),
        ended_warm: one.ended_warm.saturating_add(other.ended_warm),
        ended_cold: one.ended_cold.saturating_add(other.ended_cold),
        ended_temp: one.ended_temp.saturating_add(other.ended_temp),
    }
}

// Each name's count by itself, as far as a count goes.
fn both_evictions(one: &Evictions, other: &Evictions) -> Evictions
    ensures { result ≡ sums_of_evictions one.now other.now }
{
    Evictions {
        counts: array::from_fn(|name| one.counts[name].saturating_add(other.counts[name])),
    }
}

// Each number by itself, as far as a count goes.
fn both_stats(one: &Stats, other: &Stats) -> Stats
    ensures { result ≡ sums_of one.now other.now }
{
    Stats {
        number_hot: one.number_hot.saturating_add(other.number_hot),
        number_warm: one.number_warm.saturating_add(other.number_warm),
        number_cold: one.number_cold.saturating_add(other.number_cold),
        number_temp: one.number_temp.saturating_add(other.number_temp),
        moves_to_cold: one.moves_to_cold.saturating_add(other.moves_to_cold),
        moves_to_warm: one.moves_to_warm.saturating_add(other.moves_to_warm),
        moves_within_lru: one.moves_within_lru.saturating_add(other.moves_within_lru),
        evictions: both_evictions(&one.evictions, &other.evictions),
        flow: both_ways(&one.flow, &other.flow),
    }
}

// The statistics of a cache without parts.
fn nothing() -> Stats
    ensures { result ≡ no_stats }
{
    Stats {
        number_hot: 0,
        number_warm: 0,
        number_cold: 0,
        number_temp: 0,
        moves_to_cold: 0,
        moves_to_warm: 0,
        moves_within_lru: 0,
        evictions: Evictions::new(),
        flow: Flow::new(),
    }
}

impl<N: Name + LogName, K: Packed, V: Packed> Cache<N, K, V> {
    // The statistics of a part that there is.
    fn part_stats<W: Wait>(&self, rt: &W, me: &mut Caller<N, CacheState>, part: usize) -> Stats
        requires { part < self.now.parts }
        ensures { LooksAtPart part me.old me.new result }
    {
        let mut guard = self.lock_part(rt, part);
        let logged = &mut *guard;
        logged.log.show(rt, me);
        logged.value.pairs.stats()
    }

    /// The statistics of one part, by memcached's names, of one moment that isn't before what the caller has seen.
    /// Parts are numbered from 0; it is None exactly where there is no part of this number. It waits until no other
    /// thread changes that part.
    pub fn stats_of<W: Wait>(
        &self,
        rt: &W,
        me: &mut Caller<N, CacheState>,
        part: u32,
    ) -> Option<Stats>
        ensures look { OnlyLooks me.old me.new }
        ensures stats { IfSome result (λ stats. stats ≡ stats_of_part (now_of part me.new).part) }
        ensures none { IsNone result ↔ (self.now.parts ≤ part) }
    {
        if part as usize >= self.parts.len() {
            return None;
        }
        Some(self.part_stats(rt, me, part as usize))
    }

    /// The statistics, by memcached's names: each number is the sum over the parts, of which each is told of a moment
    /// of its own, in their order, that isn't before what the caller has seen; sums of sizes stop at 2^32 - 1, others
    /// at 2^64 - 1. `CacheReader::hits`, `misses` and `bumps_dropped` tell the rest. It waits for one part after the
    /// other, until no other thread changes it.
    pub fn stats<W: Wait>(&self, rt: &W, me: &mut Caller<N, CacheState>) -> Stats
        ensures look { OnlyLooks me.old me.new }
        ensures stats { SumsUpParts self.now.parts me.old me.new result }
    {
        let mut stats = nothing();
        for part in 0..self.parts.len() {
            let own = self.part_stats(rt, me, part);
            stats = both_stats(&stats, &own);
        }
        stats
    }
}

//! The run of a row as a trace for bumpsim.
ghost use Rattle.std.specs.Prelude.{◌≡◌, true, false, IfOk};
ghost use Rattle.replay_runs.specs.Meaning.{verdict_of};
ghost use Rattle.replay_runs.specs.Counting.{total_hits};
ghost use Rattle.replay_runs.specs.Plans.{with_items};
ghost use Rattle.replay_runs.specs.Writing.{IsTraceOf};

use crate::Failure;
use crate::options::Options;
use crate::rows::Row;
use crate::runs::plan_of;
use access_logs::Log;
use replay_runs::{HitCounts, ReplayTrace, trace_of};
use std::hash::RandomState;
use std::random::RandomSource;

// Whether the trace's hits are those of the run, as far as a cache tells them: all, and the bumps by what became of them.
fn agrees(row: &Row, hits: &HitCounts) -> bool
    ensures hits { result ≡ true → row.now.bump.hits ≡ total_hits hits.now }
    ensures accepted { result ≡ true → row.now.bump.bumps.accepted ≡ hits.now.queued }
    ensures full { result ≡ true → row.now.bump.bumps.full ≡ hits.now.full }
    ensures refs { result ≡ true → row.now.bump.bumps.refs ≡ hits.now.refs }
    ensures busy { result ≡ true → row.now.bump.bumps.busy ≡ hits.now.busy }
{
    let bumps = row.bump.bumps;
    row.bump.hits == hits.total()
        && bumps.accepted == hits.queued
        && bumps.full == hits.full
        && bumps.refs == hits.refs
        && bumps.busy == hits.busy
}

/// The run of a row as a trace: each access of the log is there, in order, and the cache is tended where it is due. It is
/// refused where the trace's hits aren't those of the run.
pub fn trace_of_row<R: AllocGlobal + RandomSource>(
    rt: &R,
    options: &Options<'_>,
    log: &Log,
    row: &Row,
) -> Result<ReplayTrace, Failure>
    ensures no_fault { IfOk result (λ it. (verdict_of it.text.items).is_fault ≡ false) }
    ensures accesses { IfOk result (λ it. IsTraceOf (with_items row.now.items options.now.spare options.now.plan)
        log.now.accesses.items log.now.times.items it.text.items) }
    ensures hits { IfOk result (λ it. total_hits it.hits ≡ row.now.bump.hits) }
    ensures accepted { IfOk result (λ it. it.hits.queued ≡ row.now.bump.bumps.accepted) }
    ensures full { IfOk result (λ it. it.hits.full ≡ row.now.bump.bumps.full) }
    ensures refs { IfOk result (λ it. it.hits.refs ≡ row.now.bump.bumps.refs) }
    ensures busy { IfOk result (λ it. it.hits.busy ≡ row.now.bump.bumps.busy) }
{
    let Ok(keys) = RandomState::new(rt) else {
        return Err(Failure::Random);
    };
    match trace_of(
        rt.alloc(),
        keys,
        &plan_of(options, row.items),
        &log.accesses,
        &log.times,
    ) {
        Ok(trace) => {
            if agrees(row, &trace.hits) {
                Ok(trace)
            } else {
                Err(Failure::Differs)
            }
        }
        Err(fault) => Err(Failure::Replay(fault)),
    }
}

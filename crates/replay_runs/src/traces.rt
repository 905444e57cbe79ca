//! The trace of an access log's run.
ghost use Rattle.std.specs.Prelude.{◌≡◌, ◌<◌, ◌≤◌, false, length, None, IfOk, OnOk, IfErr};
ghost use Rattle.bump_trace.specs.Meaning.{verdict_of};
ghost use Rattle.bump_trace.specs.Runs.{most_bytes};
ghost use Rattle.replay_runs.specs.Counting.{hits_told};
ghost use Rattle.replay_runs.specs.Faults.{fault_of, plan_fault, IsOfText, IsOfTracing, Refuses};
ghost use Rattle.replay_runs.specs.Writing.{IsTraceOf};

use crate::accesses::write_trace;
use crate::counting::{HitCounts, count_hits};
use crate::faults::ReplayFault;
use crate::plans::Plan;
use bump_core::Config;
use bump_trace::{Counted, SimFault, run_model};
use std::alloc::Global;
use std::hash::RandomState;

/// The trace of an access log's run through a cache, and what the run came to.
#[derive(Drop)]
pub struct ReplayTrace {
    /// The trace, in the language of docs/TRACE.md: at most 16,777,216 bytes.
    pub text: Vec<u8>,

    /// The hits that its text tells, by kind.
    pub hits: HitCounts,
}

// The fault of a run, as one of a trace that is written. What the run tells is kept in memory.
fn fault_of(fault: SimFault) -> ReplayFault
    ensures { result ≡ fault_of fault }
{
    match fault {
        SimFault::Memory | SimFault::Write => ReplayFault::Memory,
        SimFault::Size => ReplayFault::Long,
        other => ReplayFault::Run(other),
    }
}

// What a trace tells, by its run on a World. It is refused where it has a fault.
fn told_by_model(alloc: Global, keys: RandomState, trace: &[u8]) -> Result<Vec<u8>, ReplayFault>
    ensures text { IfOk result (λ told. told.items ≡ (verdict_of trace.now).text) }
    ensures no_fault { OnOk result ((verdict_of trace.now).is_fault ≡ false) }
    ensures size { OnOk result (length trace.now ≤ most_bytes) }
    ensures fault { IfErr result (IsOfText trace.now) }
{
    let mut reader = Counted::new(trace);
    let mut writer = Counted::new(Vec::new(alloc));
    match run_model(alloc, keys, &mut reader, &mut writer) {
        Ok(()) => Ok(writer.into_inner()),
        Err(fault) => Err(fault_of(fault)),
    }
}

// Writes the trace of a log's run by a plan, whose store is of this configuration, and runs it.
fn write_and_run(
    alloc: Global,
    keys: RandomState,
    plan: &Plan,
    config: &Config,
    accesses: &[u32],
    times: &[u64],
) -> Result<ReplayTrace, ReplayFault>
    requires some { 0 < length config.now.classes }
    requires part { 0 < plan.now.config.parts }
    ensures no_fault { IfOk result (λ it. (verdict_of it.text.items).is_fault ≡ false) }
    ensures size { IfOk result (λ it. length it.text.items ≤ most_bytes) }
    ensures hits { IfOk result (λ it. it.hits ≡ hits_told (verdict_of it.text.items).text) }
    ensures accesses { IfOk result (λ it. IsTraceOf plan.now accesses.now times.now it.text.items) }
    ensures fault { IfErr result (IsOfTracing plan.now accesses.now times.now) }
{
    let text = write_trace(alloc, keys, plan, config, accesses, times)?;
    let told = told_by_model(alloc, keys, &text)?;
    Ok(ReplayTrace {
        hits: count_hits(&told),
        text,
    })
}

/// Writes the trace of an access log's run, the numbers of keys, through a cache that is empty at first: the calls that
/// bump_cache makes where one thread has it. An access is got by the reader whose turn it is, where its key has an item,
/// and else put. A key's item has the name `k` and the key's number, and the label 0. `times` has the accesses' times, as
/// `replay` takes them.
///
/// The trace is run on a World before it is given to anybody, so it has no fault. `keys` hash the keys and the names. It
/// is refused as `Config` exactly where the plan's configuration has a fault, as `Parts` exactly where it has none and
/// several parts, as `Long` where the trace would have more
/// than 16,777,216 bytes, as `Bumps` where more than 16 bumps of a reader wait at a put, which its ring must have room
/// for, as `Run` where the cache has more than 1,000,000 chunks, since no store of a trace has as many, and as `Memory` for
/// want of memory. Of other caches `Refused` and `Run` are of no log that is known.
#[tactic(auto, using(crate::proofs::FaultLemmas::store_refused, crate::proofs::FaultLemmas::trace_refused))]
pub fn trace_of(
    alloc: Global,
    keys: RandomState,
    plan: &Plan,
    accesses: &[u32],
    times: &[u64],
) -> Result<ReplayTrace, ReplayFault>
    ensures no_fault { IfOk result (λ it. (verdict_of it.text.items).is_fault ≡ false) }
    ensures size { IfOk result (λ it. length it.text.items ≤ most_bytes) }
    ensures hits { IfOk result (λ it. it.hits ≡ hits_told (verdict_of it.text.items).text) }
    ensures accesses { IfOk result (λ it. IsTraceOf plan.now accesses.now times.now it.text.items) }
    ensures allowed { OnOk result (plan_fault plan.now ≡ None) }
    ensures refused { IfErr result (Refuses (plan_fault plan.now) plan.now accesses.now times.now) }
{
    let config = match plan.store(alloc) {
        Ok(config) => config,
        Err(fault) => return Err(fault),
    };
    match write_and_run(alloc, keys, plan, &config, accesses, times) {
        Ok(trace) => Ok(trace),
        Err(fault) => Err(fault),
    }
}

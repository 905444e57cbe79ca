//! What a cache does at an access, and where it is tended.
ghost use Rattle.std.specs.Prelude.{◌+◌, ◌*◌, ◌%◌, ◌<◌, ◌++◌, IfOk, IfErr, OnOk, length, max};
ghost use Rattle.cache_lists.specs.Rescues.{most_rescues};
ghost use Rattle.bump_rules.specs.declared.places.Tail.TheVariants.{Cold};
ghost use Rattle.replay_runs.specs.Writing.{IsPull, IsBalance, Adds, AddsOrNot, AddsEvict, AddsEvictOrNot, AddsFreeOrNot, AddsRoom, AddsPut};
ghost use Rattle.replay_runs.specs.Writing.{AddsAccess, AddsAccessAndTend, IsTraceOf, IsOfCalls, IsOfPut};
ghost use Rattle.replay_runs.specs.Writing.{drain_instruction, most_tending, tend_instructions};
ghost use Rattle.replay_runs.specs.Faults.{IsOfTraceWriting};

use crate::asked::time_at;
use crate::faults::ReplayFault;
use crate::plans::Plan;
use crate::scribes::Scribe;
use bump_core::{Config, Tail};
use bump_rules::LOOKS;
use cache_lists::RESCUES;
use cache_shelf::{Bound, PUT_BUMPS, PUT_ROUNDS};
use std::alloc::Global;
use std::hash::RandomState;

// Whether there are as many items as there may be.
fn is_full(scribe: &Scribe, plan: &Plan) -> bool {
    scribe.linked() >= u64::from(plan.config.items)
}

// Whether more bumps wait than a put that has its turn applies, and the next one has it.
fn has_too_many(scribe: &Scribe) -> bool {
    scribe.has_turn() && scribe.has_waiting(PUT_BUMPS)
}

// Whether a put applies bumps that wait: it has its turn, or one is to be evicted, and COLD's last item is held.
fn applies_bumps(scribe: &Scribe, plan: &Plan) -> bool {
    let is_due = scribe.has_turn() || is_full(scribe, plan) && scribe.is_cold_end_held();
    is_due && scribe.has_waiting(0)
}

// Applies the bumps that wait, as a put does. No line of a trace applies some of them and leaves others, as a turn does.
fn drain_for_put(scribe: &mut Scribe, plan: &Plan) -> Result<(), ReplayFault>
    ensures text { OnOk result (AddsOrNot drain_instruction scribe.old.text.items scribe.new.text.items) }
    ensures fault { IfErr result (IsOfPut plan.now) }
{
    if plan.config.ring > PUT_BUMPS && has_too_many(scribe) {
        return Err(ReplayFault::Bumps);
    }
    if !applies_bumps(scribe, plan) {
        return Ok(());
    }
    scribe.drain()?;
    Ok(())
}

// Moves the last items of COLD to WARM, as long as they are ACTIVE, but not more than an evict rescues.
fn rescue(scribe: &mut Scribe) -> Result<(), ReplayFault>
    ensures text { OnOk result (Adds (IsPull Cold) most_rescues scribe.old.text.items scribe.new.text.items) }
    ensures fault { IfErr result IsOfCalls }
{
    for _ in 0..RESCUES {
        if !scribe.rescue_last()? {
            return Ok(());
        }
    }
    Ok(())
}

// Evicts an item: behind the rescues the last of COLD ends, or of WARM where COLD is empty, or of HOT.
fn evict(scribe: &mut Scribe) -> Result<(), ReplayFault>
    ensures text { OnOk result (AddsEvict scribe.old.text.items scribe.new.text.items) }
    ensures fault { IfErr result IsOfCalls }
{
    rescue(scribe)?;
    if scribe.end_last_of_cold()? {
        return Ok(());
    }
    if scribe.end_last_of(Tail::Warm)? {
        return Ok(());
    }
    scribe.end_last_of(Tail::Hot)?;
    Ok(())
}

// Evicts an item where there are as many as there may be.
fn evict_where_full(scribe: &mut Scribe, plan: &Plan) -> Result<(), ReplayFault>
    ensures text { OnOk result (AddsEvictOrNot scribe.old.text.items scribe.new.text.items) }
    ensures fault { IfErr result IsOfCalls }
{
    if !is_full(scribe, plan) {
        return Ok(());
    }
    evict(scribe)?;
    Ok(())
}

// Frees chunks where none is free. Where one thread has a cache only bumps hold those of ended items, so they are applied
// first; and one is freed that no bump holds when its item ends.
fn free_where_none(scribe: &mut Scribe) -> Result<(), ReplayFault>
    ensures text { OnOk result (AddsFreeOrNot scribe.old.text.items scribe.new.text.items) }
    ensures fault { IfErr result IsOfCalls }
{
    if scribe.has_room() {
        return Ok(());
    }
    scribe.drain()?;
    scribe.sweep()?;
    Ok(())
}

// Makes room for an item: bumps are applied, an item is evicted where there are as many as there may be, and chunks come
// free where none is.
fn make_room(scribe: &mut Scribe, plan: &Plan) -> Result<(), ReplayFault>
    ensures text { OnOk result (AddsRoom scribe.old.text.items scribe.new.text.items) }
    ensures fault { IfErr result (IsOfPut plan.now) }
{
    drain_for_put(scribe, plan)?;
    evict_where_full(scribe, plan)?;
    free_where_none(scribe)?;
    Ok(())
}

// Puts an item for a key that has none.
fn place(scribe: &mut Scribe, plan: &Plan, key: u32) -> Result<(), ReplayFault>
    requires part { 0 < plan.now.config.parts }
    ensures text { OnOk result (AddsPut key scribe.old.text.items scribe.new.text.items) }
    ensures fault { IfErr result (IsOfPut plan.now) }
{
    make_room(scribe, plan)?;
    scribe.link(key)?;
    if !scribe.count_put() {
        return Ok(());
    }
    balance(scribe, plan, PUT_ROUNDS)?;
    Ok(())
}

// Looks at the last items of HOT and of WARM; whether one goes on.
fn look(scribe: &mut Scribe, hot: Bound, warm: Bound) -> Result<bool, ReplayFault>
    ensures text { OnOk result (Adds IsBalance 2 scribe.old.text.items scribe.new.text.items) }
    ensures fault { IfErr result IsOfCalls }
{
    let hot = scribe.pull_past(Tail::Hot, hot)?;
    let warm = scribe.pull_past(Tail::Warm, warm)?;
    Ok(hot || warm)
}

// Looks at them so many times, by the bounds that the age of COLD makes. A look that finds nothing to do changes nothing,
// nor do those behind it.
fn balance(scribe: &mut Scribe, plan: &Plan, count: u32) -> Result<(), ReplayFault>
    requires part { 0 < plan.now.config.parts }
    ensures text { OnOk result (Adds IsBalance (2 * count) scribe.old.text.items scribe.new.text.items) }
    ensures fault { IfErr result IsOfCalls }
{
    let bounds = plan.config.bounds(0);
    let age = scribe.cold_age();
    let (hot, warm) = (bounds.of_hot(age), bounds.of_warm(age));
    for _ in 0..count {
        if !look(scribe, hot, warm)? {
            return Ok(());
        }
    }
    Ok(())
}

// Tends the cache.
fn tend(scribe: &mut Scribe, plan: &Plan) -> Result<(), ReplayFault>
    requires part { 0 < plan.now.config.parts }
    ensures text { OnOk result (Adds IsBalance most_tending (scribe.old.text.items ++ tend_instructions)
        scribe.new.text.items) }
    ensures fault { IfErr result IsOfCalls }
{
    scribe.drain()?;
    scribe.sweep()?;
    balance(scribe, plan, LOOKS)?;
    Ok(())
}

// A key is got, and put where it has no item.
fn get_or_put(scribe: &mut Scribe, plan: &Plan, worker: u32, key: u32) -> Result<(), ReplayFault>
    requires part { 0 < plan.now.config.parts }
    ensures text { OnOk result (AddsAccess worker key scribe.old.text.items scribe.new.text.items) }
    ensures fault { IfErr result (IsOfPut plan.now) }
{
    if scribe.get(worker, key)? {
        return Ok(());
    }
    place(scribe, plan, key)?;
    Ok(())
}

// Writes the lines of an access, and tends the cache behind it where it is time for it.
fn write_access(
    scribe: &mut Scribe,
    plan: &Plan,
    place: usize,
    key: u32,
    is_due: bool,
) -> Result<(), ReplayFault>
    requires part { 0 < plan.now.config.parts }
    ensures text { OnOk result (AddsAccessAndTend (place % max plan.now.config.readers 1) key is_due
        scribe.old.text.items scribe.new.text.items) }
    ensures fault { IfErr result (IsOfPut plan.now) }
{
    get_or_put(scribe, plan, plan.reader_at(place), key)?;
    if !is_due {
        return Ok(());
    }
    tend(scribe, plan)?;
    Ok(())
}

/// Writes the trace of a log's run by a plan, whose store is of this configuration; `times` has the accesses' times. It
/// isn't run yet, and it may be too long by what the last access wrote.
pub(crate) fn write_trace(
    alloc: Global,
    keys: RandomState,
    plan: &Plan,
    config: &Config,
    accesses: &[u32],
    times: &[u64],
) -> Result<Vec<u8>, ReplayFault>
    requires some { 0 < length config.now.classes }
    requires part { 0 < plan.now.config.parts }
    ensures text { IfOk result (λ text. IsTraceOf plan.now accesses.now times.now text.items) }
    ensures fault { IfErr result (IsOfTraceWriting plan.now accesses.now times.now) }
{
    let mut scribe = Scribe::new(alloc, keys, plan, config)?;
    let mut tended = 0;
    for place in 0..accesses.len() {
        let time = time_at(times, place);
        let is_due = plan.is_due(place, time, tended);
        scribe.set_time(time);
        let key = accesses[place];
        write_access(&mut scribe, plan, place, key, is_due)?;
        if is_due {
            tended = time;
        }
        if scribe.is_long() {
            return Err(ReplayFault::Long);
        }
    }
    scribe.show()?;
    Ok(scribe.into_text())
}

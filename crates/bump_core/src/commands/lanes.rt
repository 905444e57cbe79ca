//! The command of a lane: the next bump is applied at once, by the update table.
ghost use Rattle.std.specs.Prelude.{◌≡◌, ◌<◌, [], ◌∷◌, ◌++◌, IfSome, IfOk, OnOk, OnErr, Some, false, length};
ghost use Rattle.model_state.specs.State.{class_at, class_of, head_at, worker_at, with_worker};
ghost use Rattle.bump_rules.specs.Lanes.{applied_bump, is_half_made};
ghost use Rattle.model_state.specs.Events.{next_bump};
ghost use Rattle.bump_core.specs.Commands.{Commands, bump_next, bumped_chunk, bumped_worker, bumped_lists, apply_bump};
ghost use Rattle.bump_core.specs.Commands.{entry_next};
ghost use Rattle.model_state.specs.Views.{state_of};
ghost use Rattle.model_state.specs.Workers.{HasRoomToApply};
ghost use Rattle.model_state.specs.Worlds.{IsLawful};
ghost use Rattle.bump_rules.specs.declared.commands.Command.TheVariants as command;
ghost use Rattle.bump_rules.specs.declared.lanes.LaneStage.TheVariants as lane;
ghost use Rattle.bump_rules.specs.declared.bumps.Outcome.TheVariants.{Moved, Gone};
ghost use Rattle.bump_rules.specs.declared.bumps.Ended.TheVariants.{Freed};

use bump_rules::{
    Answer, Applied, AppliedBump, Bump, Cause, Change, Ended, Entry, Head, LaneStage, Outcome,
    Refused, Segment,
};
use model_state::{Chunk, WorldState};
use std::alloc::AllocError;

// The chunk of a bump that was applied: the bump's reference is given back.
fn bumped(chunk: Chunk, now: u64, outcome: Outcome) -> Chunk
    ensures { result ≡ bumped_chunk chunk now outcome }
{
    let left = chunk.head.one_fewer();
    let head = match outcome {
        Outcome::Moved => Head {
            active: false,
            segment: Segment::Warm,
            ..left
        },
        Outcome::TimeOnly | Outcome::Gone => left,
    };
    let time = match outcome {
        Outcome::Moved | Outcome::TimeOnly => now,
        Outcome::Gone => chunk.time,
    };
    Chunk {
        head,
        time,
        ..chunk
    }
}

// The bump that a lane applies next: the one aboard, or else the first that waits.
fn bump_of(inside: &WorldState, worker: u32) -> Option<Bump>
    requires { worker < length (state_of inside.now).workers }
    ensures { result ≡ bump_next (worker_at (state_of inside.now) worker) }
{
    match inside.lane(worker) {
        LaneStage::Empty => {
            let number = inside.received_bumps(worker).len() as u64;
            match inside.next_bump(worker) {
                Some(life) => Some(Bump { number, life }),
                None => None,
            }
        }
        LaneStage::Carrying(bump) => Some(bump),
        LaneStage::Tried(_) | LaneStage::Cleared(_, _) | LaneStage::Moved(_) => None,
    }
}

// The same, with its chunk in range.
fn bump_next(inside: &WorldState, worker: u32) -> Option<Bump>
    requires worker { worker < length (state_of inside.now).workers }
    requires lawful { IsLawful (state_of inside.now) }
    ensures bump { result ≡ bump_next (worker_at (state_of inside.now) worker) }
    ensures chunk { IfSome result (λ b. b.life.chunk < length (state_of inside.now).chunks) }
{
    bump_of(inside, worker)
}

// A lane is done with a bump.
fn finish(inside: &mut WorldState, worker: u32, bump: Bump, outcome: Outcome)
    requires worker { worker < length (state_of inside.old).workers }
    requires room { HasRoomToApply inside.old.workers worker }
    requires next { bump_next (worker_at (state_of inside.old) worker) ≡ Some bump }
    ensures { state_of inside.new ≡
        with_worker (state_of inside.old) worker (bumped_worker (worker_at (state_of inside.old) worker) bump outcome) }
{
    match inside.lane(worker) {
        LaneStage::Empty => inside.finish_taken(worker, bump, outcome),
        LaneStage::Carrying(_)
        | LaneStage::Tried(_)
        | LaneStage::Cleared(_, _)
        | LaneStage::Moved(_) => { inside.finish_aboard(worker, bump, outcome) }
    }
}

// The lists of the bump's class: its item is moved, or its chunk is free.
fn change_for(
    inside: &mut WorldState,
    worker: u32,
    bump: Bump,
    outcome: Outcome,
    ended: Ended,
) -> Result<(), AllocError>
    requires chunk { bump.life.chunk < length (state_of inside.old).chunks }
    requires lawful { IsLawful (state_of inside.old) }
    ensures ok { OnOk result (state_of inside.new ≡ bumped_lists (state_of inside.old) worker bump outcome ended) }
    ensures err { OnErr result (state_of inside.new ≡ state_of inside.old) }
    ensures workers { inside.new.workers ≡ inside.old.workers }
{
    let class = inside.class_of(bump.life.chunk);
    match (outcome, ended) {
        (Outcome::Moved, _) => inside.change_chunk(
            class,
            Change::Moved(
                bump.life,
                Segment::Cold,
                Segment::Warm,
                Cause::Bump(worker, bump.number),
            ),
        ),
        (Outcome::Gone, Ended::Freed) => inside.free_chunk(class, bump.life),
        _ => Ok(()),
    }
}

// Applies a bump.
fn apply(inside: &mut WorldState, worker: u32, now: u64, bump: Bump) -> Result<Entry, AllocError>
    requires worker { worker < length (state_of inside.old).workers }
    requires lawful { IsLawful (state_of inside.old) }
    requires next { bump_next (worker_at (state_of inside.old) worker) ≡ Some bump }
    requires chunk { bump.life.chunk < length (state_of inside.old).chunks }
    ensures ok { OnOk result (state_of inside.new ≡ apply_bump (state_of inside.old) worker now bump) }
    ensures entry { IfOk result (λ e. e ≡ entry_next (state_of inside.old) bump) }
    ensures err { OnErr result (state_of inside.new ≡ state_of inside.old) }
{
    let chunk = inside.chunk(bump.life.chunk);
    let outcome = chunk.head.outcome(chunk.head);
    let ended = chunk.head.one_fewer().ended();
    inside.reserve_applied(worker)?;
    change_for(inside, worker, bump, outcome, ended)?;
    finish(inside, worker, bump, outcome);
    inside.set_chunk(bump.life.chunk, bumped(chunk, now, outcome));
    let applied = match outcome {
        Outcome::Moved => Applied::Moved,
        Outcome::TimeOnly => Applied::TimeOnly,
        Outcome::Gone => Applied::Gone(ended),
    };
    Ok(Entry {
        number: bump.number,
        life: bump.life,
        applied,
    })
}

/// Applies the next bump of a worker.
pub fn call_next(inside: &mut WorldState, worker: u32, now: u64) -> Result<Answer, Refused>
    requires { IsLawful (state_of inside.old) }
    ensures { Commands (state_of inside.old) (command.Next worker now) (state_of inside.new) result }
{
    if !inside.has_worker(worker) || inside.lane(worker).is_half_made() {
        return Err(Refused::NotEnabled);
    }
    let Some(bump) = bump_next(inside, worker) else {
        return Ok(Answer::Nothing);
    };
    if inside.is_under_application(inside.class_of(bump.life.chunk)) {
        return Err(Refused::NotEnabled);
    }
    let entry = apply(inside, worker, now, bump)?;
    Ok(Answer::Bumped(entry))
}

//! Each event, and each command, by the function that makes it.
ghost use Rattle.std.specs.Prelude.{◌≡◌, IfErr, false};
ghost use Rattle.bump_core.specs.Commands.{Commands};
ghost use Rattle.model_state.specs.Events.{Steps, asks_for_memory};
ghost use Rattle.model_state.specs.Views.{state_of};
ghost use Rattle.model_state.specs.Worlds.{IsLawful};
ghost use Rattle.bump_rules.specs.declared.events.Refused.TheVariants.{NotEnabled};

use crate::commands::{ends, hits, holds, lanes, links, pulls, rings};
use bump_rules::{Answer, Command, Event, Refused, Reply, Start};
use model_state::WorldState;

/// Makes an event where it is enabled.
pub fn step(inside: &mut WorldState, event: Event) -> Result<Reply, Refused>
    requires { IsLawful (state_of inside.old) }
    ensures step { Steps (state_of inside.old) event (state_of inside.new) result }
    ensures memory { asks_for_memory (state_of inside.old) event ≡ false → IfErr result (λ r. r ≡ NotEnabled) }
{
    match event {
        Event::Load { chunk } => inside.load(chunk),
        Event::Take { worker, life } => inside.take(worker, life),
        Event::Fetch { worker, life } => inside.fetch(worker, life),
        Event::Mark { worker, life } => inside.mark(worker, life),
        Event::Reserve { worker } => inside.reserve(worker),
        Event::DropRefs { worker } => inside.drop_refs(worker),
        Event::DropBusy { worker } => inside.drop_busy(worker),
        Event::Push { worker } => inside.push(worker),
        Event::DropFull { worker } => inside.drop_full(worker),
        Event::Unmark { worker } => inside.unmark(worker),
        Event::Close { worker } => inside.close(worker),
        Event::StoreTime { life, time } => inside.store_time(life, time),
        Event::Release { life } => inside.release(life),
        Event::PutLabel { class, label } => inside.put_label(class, label),
        Event::PutTime { class, time } => inside.put_time(class, time),
        Event::Link { class } => inside.link(class),
        Event::LinkTemp { class } => inside.link_temp(class),
        Event::Unlink { life } => inside.unlink(life),
        Event::Sweep { chunk } => inside.sweep(chunk),
        Event::ClearActive { chunk } => inside.clear_active(chunk),
        Event::Move { chunk, to } => inside.move_chunk(chunk, to),
        Event::TakeBump { worker } => inside.take_bump(worker),
        Event::Try { worker } => inside.try_bump(worker),
        Event::BumpTime { worker, time } => inside.bump_time(worker, time),
        Event::ClearFor { worker } => inside.clear_for(worker),
        Event::MoveFor { worker } => inside.move_for(worker),
        Event::Alight { worker } => inside.alight(worker),
    }
}

/// Makes a command where it is allowed.
pub fn command(inside: &mut WorldState, command: Command) -> Result<Answer, Refused>
    requires { IsLawful (state_of inside.old) }
    ensures { Commands (state_of inside.old) command (state_of inside.new) result }
{
    match command {
        Command::Link { class, label, now } => {
            links::call_link(inside, Start::Hot, class, label, now)
        }
        Command::LinkTemp { class, label, now } => {
            links::call_link(inside, Start::Temp, class, label, now)
        }
        Command::Unlink { id } => ends::call_unlink(inside, id),
        Command::Sweep { class } => ends::call_sweep(inside, class),
        Command::Pull { class, tail } => pulls::call_pull(inside, class, tail),
        Command::Take { worker, id } => holds::call_take(inside, worker, id),
        Command::Touch { worker, id, now } => hits::call_touch(inside, worker, id, now),
        Command::Label { id } => holds::call_label(inside, id),
        Command::Release { id } => holds::call_release(inside, id),
        Command::Next { worker, now } => lanes::call_next(inside, worker, now),
        Command::Close { worker } => rings::call_close(inside, worker),
    }
}

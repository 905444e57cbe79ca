//! The command of a hit: its change at once, by the hit table.
ghost use Rattle.std.specs.Prelude.{◌≡◌};
ghost use Rattle.bump_core.specs.Commands.{Commands};
ghost use Rattle.model_state.specs.Views.{state_of};
ghost use Rattle.model_state.specs.Worlds.{IsLawful};
ghost use Rattle.bump_rules.specs.declared.commands.Command.TheVariants as command;

use crate::commands::attempts::attempt;
use bump_rules::{Answer, Head, Hit, ItemId, MOST_ATTEMPTS, Refused, Touch};
use model_state::WorldState;

/// A hit by a hold.
pub fn call_touch(
    inside: &mut WorldState,
    worker: u32,
    id: ItemId,
    now: u64,
) -> Result<Answer, Refused>
    requires { IsLawful (state_of inside.old) }
    ensures { Commands (state_of inside.old) (command.Touch worker id now) (state_of inside.new) result }
{
    if !inside.is_open(worker) || !inside.has_free_hold(id) {
        return Err(Refused::NotEnabled);
    }
    if inside.accounts(worker).attempted == MOST_ATTEMPTS {
        return Ok(Answer::Touched(Touch::Exhausted));
    }
    if !inside.hand(worker).is_idle() {
        return Err(Refused::NotEnabled);
    }
    let head = inside.head(id.chunk);
    let second = Head {
        fetched: true,
        ..head
    };
    let touch = match head.hit(second) {
        Hit::First => {
            inside.fetch(worker, id)?;
            Touch::First
        }
        Hit::Already => Touch::Already,
        Hit::Marked => {
            inside.mark(worker, id)?;
            inside.store_time(id, now)?;
            Touch::Marked
        }
        Hit::Attempts => attempt(inside, worker, id)?,
    };
    Ok(Answer::Touched(touch))
}

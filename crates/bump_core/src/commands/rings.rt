//! The command that closes a ring.
ghost use Rattle.std.specs.Prelude.{◌≡◌};
ghost use Rattle.bump_core.specs.Commands.{Commands};
ghost use Rattle.model_state.specs.Views.{state_of};
ghost use Rattle.bump_rules.specs.declared.commands.Command.TheVariants as command;

use bump_rules::{Answer, Refused};
use model_state::WorldState;

/// Closes a worker's ring.
pub fn call_close(inside: &mut WorldState, worker: u32) -> Result<Answer, Refused>
    ensures { Commands (state_of inside.old) (command.Close worker) (state_of inside.new) result }
{
    inside.close(worker)?;
    Ok(Answer::Done)
}

//! The commands of holds: a get, the label of what is held, and a release.
ghost use Rattle.std.specs.Prelude.{◌≡◌};
ghost use Rattle.bump_core.specs.Commands.{Commands};
ghost use Rattle.model_state.specs.Views.{state_of};
ghost use Rattle.model_state.specs.Worlds.{IsLawful};
ghost use Rattle.bump_rules.specs.declared.commands.Command.TheVariants as command;

use bump_rules::{Answer, ItemId, Refused};
use model_state::WorldState;

/// Takes a hold of an item.
pub fn call_take(inside: &mut WorldState, worker: u32, id: ItemId) -> Result<Answer, Refused>
    requires { IsLawful (state_of inside.old) }
    ensures { Commands (state_of inside.old) (command.Take worker id) (state_of inside.new) result }
{
    if !inside.is_open(worker) {
        return Err(Refused::NotEnabled);
    }
    if !inside.has_chunk(id.chunk) {
        return Ok(Answer::NoSuchChunk);
    }
    let head = inside.head(id.chunk);
    if !head.linked || head.generation != id.generation {
        return Ok(Answer::Stale);
    }
    if head.refs >= inside.refs_limit {
        return Ok(Answer::RefsFull);
    }
    inside.take(worker, id)?;
    Ok(Answer::Held)
}

/// The label of a held item.
pub fn call_label(inside: &WorldState, id: ItemId) -> Result<Answer, Refused>
    ensures { Commands (state_of inside.now) (command.Label id) (state_of inside.now) result }
{
    if !inside.is_held(id) {
        return Err(Refused::NotEnabled);
    }
    Ok(Answer::Label(inside.chunk(id.chunk).label))
}

/// Gives a hold back.
pub fn call_release(inside: &mut WorldState, id: ItemId) -> Result<Answer, Refused>
    requires { IsLawful (state_of inside.old) }
    ensures { Commands (state_of inside.old) (command.Release id) (state_of inside.new) result }
{
    inside.release(id)?;
    Ok(Answer::Done)
}

//! The commands of ends: an item is ended, and the chunks of DYING that nobody holds are freed.
ghost use Rattle.std.specs.Prelude.{◌≡◌, IfOk, OnOk, OnErr, true};
ghost use Rattle.bump_core.specs.Commands.{Commands, unlink_item, unlinked_as};
ghost use Rattle.model_state.specs.State.{is_linked};
ghost use Rattle.model_state.specs.Views.{state_of};
ghost use Rattle.model_state.specs.Worlds.{IsLawful};
ghost use Rattle.bump_rules.specs.declared.commands.Command.TheVariants as command;

use bump_rules::{Answer, Change, Ended, ItemId, Refused};
use model_state::WorldState;
use std::alloc::AllocError;

/// A linked life ends, and its chunk is free where nobody holds it. Tells what the end came to.
pub fn unlink_item(inside: &mut WorldState, life: ItemId) -> Result<Ended, AllocError>
    requires lawful { IsLawful (state_of inside.old) }
    requires linked { is_linked (state_of inside.old) life ≡ true }
    ensures ok { OnOk result (state_of inside.new ≡ unlink_item (state_of inside.old) life) }
    ensures ended { IfOk result (λ e. e ≡ unlinked_as (state_of inside.old) life) }
    ensures err { OnErr result (state_of inside.new ≡ state_of inside.old) }
{
    let class = inside.class_of(life.chunk);
    let unlinked = inside.head(life.chunk).after_unlink();
    let ended = unlinked.ended();
    match ended {
        Ended::Freed => {
            let entries = [Change::Unlinked(life), Change::freed(life)];
            inside.change_class_by(class, &entries)?;
        }
        Ended::Deferred => inside.change_chunk(class, Change::Unlinked(life))?,
    }
    inside.set_head(life.chunk, unlinked);
    Ok(ended)
}

/// Ends an item.
pub fn call_unlink(inside: &mut WorldState, id: ItemId) -> Result<Answer, Refused>
    requires { IsLawful (state_of inside.old) }
    ensures { Commands (state_of inside.old) (command.Unlink id) (state_of inside.new) result }
{
    if !inside.has_chunk(id.chunk) {
        return Ok(Answer::NoSuchChunk);
    }
    if !inside.is_linked(id) {
        return Ok(Answer::NotLinked);
    }
    if inside.is_under_application(inside.class_of(id.chunk)) {
        return Err(Refused::NotEnabled);
    }
    let ended = unlink_item(inside, id)?;
    Ok(Answer::Ended(ended))
}

/// Frees the chunks of a class's DYING that nobody holds.
pub fn call_sweep(inside: &mut WorldState, class: u32) -> Result<Answer, Refused>
    requires { IsLawful (state_of inside.old) }
    ensures { Commands (state_of inside.old) (command.Sweep class) (state_of inside.new) result }
{
    if !inside.has_class(class) {
        return Err(Refused::NotEnabled);
    }
    let count = inside.count_unheld(class);
    // a sweep that frees nothing waits for no lane, and asks for no memory
    if count == 0 {
        return Ok(Answer::Swept(0));
    }
    if inside.is_under_application(class as usize) {
        return Err(Refused::NotEnabled);
    }
    inside.sweep_class(class, count)?;
    Ok(Answer::Swept(count))
}

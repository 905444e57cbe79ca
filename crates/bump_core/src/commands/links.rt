//! The commands of a link: an item is stored at once, in HOT or in TEMP.
ghost use Rattle.std.specs.Prelude.{◌≡◌};
ghost use Rattle.bump_core.specs.Commands.{Stores};
ghost use Rattle.model_state.specs.Views.{state_of};
ghost use Rattle.model_state.specs.Worlds.{IsLawful};

use bump_rules::{Answer, ItemId, Refused, Start};
use model_state::{Chunk, WorldState};

/// Stores an item in a class, where it begins.
pub fn call_link(
    inside: &mut WorldState,
    start: Start,
    class: u32,
    label: u64,
    now: u64,
) -> Result<Answer, Refused>
    requires { IsLawful (state_of inside.old) }
    ensures { Stores (state_of inside.old) start class label now (state_of inside.new) result }
{
    if !inside.has_class(class) {
        return Err(Refused::NotEnabled);
    }
    let Some(next) = inside.next_chunk(class) else {
        return Ok(Answer::NoFreeChunk);
    };
    let chunk = inside.chunk(next);
    let life = ItemId {
        chunk: next,
        generation: chunk.head.generation + 1,
    };
    // it alone may be refused, so it comes before the label and the time
    inside.begin_life(class, start)?;
    let head = inside.head(next);
    inside.set_chunk(
        next,
        Chunk {
            head,
            time: now,
            label,
            ..chunk
        },
    );
    Ok(Answer::Linked(life))
}

//! The command of a pull: its change at once, by the tail table.
ghost use Rattle.std.specs.Prelude.{◌≡◌, ◌<◌, IfSome, OnOk, OnErr, true, length};
ghost use Rattle.bump_core.specs.Commands.{Commands, last_pulled_in, pulled_at, pull, pull_events};
ghost use Rattle.bump_core.specs.Runs.{one_asks};
ghost use Rattle.model_state.specs.State.{head_at, class_of};
ghost use Rattle.bump_rules.specs.Tables.{segment_of};
ghost use Rattle.model_state.specs.Views.{state_of};
ghost use Rattle.model_state.specs.Worlds.{IsLawful};
ghost use Rattle.bump_rules.specs.declared.commands.Command.TheVariants as command;

use crate::commands::ends::unlink_item;
use bump_rules::{Answer, Cause, Change, Head, ItemId, Limits, Pulled, Refused, Tail};
use model_state::WorldState;
use std::alloc::AllocError;

// The last chunk of a class's HOT, WARM or COLD.
fn tail_chunk(inside: &WorldState, class: u32, tail: Tail) -> Option<u32>
    requires { class < length (state_of inside.now).classes }
    ensures { result ≡ last_pulled_in (state_of inside.now) class tail }
{
    inside.list_back(class, tail.segment().place())
}

// The chunk that a pull looks at.
fn last(inside: &WorldState, class: u32, tail: Tail) -> Option<u32>
    requires class { class < length (state_of inside.now).classes }
    requires lawful { IsLawful (state_of inside.now) }
    ensures last { result ≡ last_pulled_in (state_of inside.now) class tail }
    ensures linked { IfSome result (λ c. (c < length (state_of inside.now).chunks)
        × (class_of (state_of inside.now) c ≡ class)
        × ((head_at (state_of inside.now) c).linked ≡ true)
        × ((head_at (state_of inside.now) c).segment ≡ segment_of tail)) }
{
    tail_chunk(inside, class, tail)
}

// What a pull does with the last item of a list.
fn pulled_at(inside: &WorldState, class: u32, tail: Tail, last: u32) -> Pulled
    requires class { class < length (state_of inside.now).classes }
    requires chunk { last < length (state_of inside.now).chunks }
    ensures { result ≡ pulled_at (state_of inside.now) class tail last }
{
    let head = inside.head(last);
    let id = ItemId {
        chunk: last,
        generation: head.generation,
    };
    let class = &inside.classes[class as usize];
    let limits = Limits {
        hot: class.hot_limit,
        warm: class.warm_limit,
    };
    tail.pulled(head, &class.lists, limits, head.after_unlink().ended(), id)
}

// The last item of a list is moved by the tail table, or ended.
fn pull(inside: &mut WorldState, class: u32, tail: Tail, last: u32) -> Result<(), AllocError>
    requires class { class < length (state_of inside.old).classes }
    requires chunk { last < length (state_of inside.old).chunks }
    requires lawful { IsLawful (state_of inside.old) }
    requires owner { class_of (state_of inside.old) last ≡ class }
    requires linked { (head_at (state_of inside.old) last).linked ≡ true }
    ensures ok { OnOk result (state_of inside.new ≡ pull (state_of inside.old) class tail last) }
    ensures err { OnErr result (state_of inside.new ≡ state_of inside.old) }
    ensures memory { OnErr result
        (one_asks (state_of inside.old) (pull_events (state_of inside.old) class tail last) ≡ true) }
{
    let head = inside.head(last);
    let life = ItemId {
        chunk: last,
        generation: head.generation,
    };
    if matches!(tail, Tail::Evict) {
        unlink_item(inside, life)?;
    } else if let Some(to) = pulled_at(inside, class, tail, last).to() {
        let moved = Change::Moved(life, tail.segment(), to, Cause::Pull);
        inside.change_chunk(class as usize, moved)?;
        inside.set_head(
            last,
            Head {
                active: false,
                segment: to,
                ..head
            },
        );
    }
    Ok(())
}

/// Looks at the last item of a list, and moves it by the tail table, or ends it.
pub fn call_pull(inside: &mut WorldState, class: u32, tail: Tail) -> Result<Answer, Refused>
    requires { IsLawful (state_of inside.old) }
    ensures { Commands (state_of inside.old) (command.Pull class tail) (state_of inside.new) result }
{
    if !inside.has_class(class) {
        return Err(Refused::NotEnabled);
    }
    let Some(last) = last(inside, class, tail) else {
        return Ok(Answer::Pulled(Pulled::Empty));
    };
    if inside.is_under_application(class as usize) {
        return Err(Refused::NotEnabled);
    }
    let pulled = pulled_at(inside, class, tail, last);
    pull(inside, class, tail, last)?;
    Ok(Answer::Pulled(pulled))
}

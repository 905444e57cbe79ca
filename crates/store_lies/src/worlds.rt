//! A World, as a caller calls it.
ghost use Rattle.bump_core.specs.Commands.{Commands, command_asks_for_memory, events_of};
ghost use Rattle.bump_core.specs.Headline.{Headline, ClosedStay, ClosedStayFrom};
ghost use Rattle.bump_core.specs.Labels.{KeepsLabels};
ghost use Rattle.bump_core.specs.Readers.{history_of};
ghost use Rattle.bump_core.specs.Runs.{made_by, Runs, made, run_of};
ghost use Rattle.bump_rules.specs.Entries.{moves_of};
ghost use Rattle.bump_rules.specs.declared.events.Refused.TheVariants.{NotEnabled};
ghost use Rattle.model_state.specs.Events.{Steps, asks_for_memory};
ghost use Rattle.model_state.specs.State.{SameSizes};
ghost use Rattle.model_state.specs.Worlds.{IsLawful};
ghost use Rattle.std.specs.Prelude.{◌≡◌, [], ◌∷◌, IfErr, false, OnOk, Some, length, ◌<◌};

use bump_core::{Answer, Command, Event, Refused, Reply, World};

/// Makes an event.
pub fn step(world: &mut World, event: Event) -> Result<Reply, Refused>
    ensures step { Steps world.old event world.new result }
    ensures memory { asks_for_memory world.old event ≡ false → IfErr result (λ r. r ≡ NotEnabled) }
    ensures sizes { SameSizes world.old world.new }
    ensures lawful { IsLawful world.new }
    ensures headline { Headline world.new }
    ensures labels { KeepsLabels world.old (made_by (event ∷ []) result) world.new }
    ensures closed { ClosedStay world.old world.new }
{
    world.step(event)
}

/// Makes events in order.
pub fn run(world: &mut World, events: &[Event]) -> Result<(), (usize, Refused)>
    ensures run { Runs world.old events.now world.new result }
    ensures sizes { SameSizes world.old world.new }
    ensures lawful { IsLawful world.new }
    ensures headline { Headline world.new }
    ensures labels { KeepsLabels world.old (made events.now result) world.new }
    ensures closed { ClosedStayFrom world.old (made events.now result) world.new }
{
    world.run(events)
}

/// Makes a command.
pub fn command(world: &mut World, command: Command) -> Result<Answer, Refused>
    ensures command { Commands world.old command world.new result }
    ensures memory { command_asks_for_memory world.old command ≡ false → IfErr result (λ r. r ≡ NotEnabled) }
    ensures events { OnOk result (run_of world.old (events_of world.old command) ≡ Some world.new) }
    ensures sizes { SameSizes world.old world.new }
    ensures lawful { IsLawful world.new }
    ensures headline { Headline world.new }
    ensures labels { KeepsLabels world.old (made_by (events_of world.old command) result) world.new }
    ensures closed { ClosedStay world.old world.new }
{
    world.command(command)
}

/// How many moves for bumps of a worker the history of a class has.
pub fn moves(world: &World, class: u32, worker: u32) -> u64
    requires class { class < length world.now.classes }
    requires worker { worker < length world.now.workers }
    ensures { result ≡ moves_of worker (history_of world.now class) }
{
    world.moves(class, worker)
}

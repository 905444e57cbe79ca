//! The sequential World.
mod readers;

use crate::step;
use bump_rules::{Answer, Command, Config, Event, Refused, Reply};
use model_state::WorldState;
use std::alloc::{AllocError, Global};
use std::marker::Model;

/// Why nothing was made: memory was asked for and refused. It is std's error for that.
pub type OutOfMemory = AllocError;

/// A World: plain data, and a state machine in which each event is one atomic step of one thread.
#[derive(Drop)]
pub struct World {
    inside: WorldState,
}

impl Model for World {
    ghost use Rattle.model_state.specs.State.{State};
    ghost use Rattle.model_state.specs.Views.{state_of};
    ghost use Rattle.model_state.specs.Worlds.{IsLawful, IsSized};

    ghost Value = { State };

    ghost view = { λ a. state_of a.inside };

    ghost invariant = { λ a. IsLawful (state_of a.inside) × IsSized (state_of a.inside) };
}

impl World {
    ghost use Rattle.std.specs.Prelude.{◌≡◌, [], ◌∷◌, IfErr, IfOk, OnOk, Some, false};
    ghost use Rattle.bump_core.specs.Commands.{Commands, command_asks_for_memory, events_of};
    ghost use Rattle.bump_core.specs.Headline.{Headline, ClosedStay, ClosedStayFrom};
    ghost use Rattle.bump_rules.specs.declared.events.Refused.TheVariants.{NotEnabled};
    ghost use Rattle.bump_core.specs.Labels.{KeepsLabels};
    ghost use Rattle.model_state.specs.Opening.{new_state};
    ghost use Rattle.bump_core.specs.Runs.{Runs, run_of, made, made_by};
    ghost use Rattle.model_state.specs.Events.{Steps, asks_for_memory};
    ghost use Rattle.model_state.specs.State.{head_at, SameSizes};
    ghost use Rattle.bump_core.specs.Readers.{class_list, time_of, label_of, holds_at, accounts_of, sent_of, received_of};
    ghost use Rattle.bump_core.specs.Readers.{applied_of};
    ghost use Rattle.model_state.specs.Worlds.{IsLawful};

    /// A World in which nothing has happened: every chunk is UNUSED, in ascending order, and every worker is idle.
    pub fn new(alloc: Global, config: &Config) -> Result<World, OutOfMemory>
        ensures { IfOk result (λ w. w ≡ new_state config.now) }
    {
        Ok(World {
            inside: WorldState::new(alloc, config)?,
        })
    }

    /// Makes an event. Refused as NotEnabled exactly where it isn't enabled, and as OutOfMemory for want of
    /// memory; a refusal changes nothing. Only an event that asks for memory may want it: a first hit, a Push, an
    /// Alight, and what changes lists.
    pub fn step(&mut self, event: Event) -> Result<Reply, Refused>
        ensures step { Steps self.old event self.new result }
        ensures memory { asks_for_memory self.old event ≡ false → IfErr result (λ r. r ≡ NotEnabled) }
        ensures sizes { SameSizes self.old self.new }
        ensures lawful { IsLawful self.new }
        ensures headline { Headline self.new }
        ensures labels { KeepsLabels self.old (made_by (event ∷ []) result) self.new }
        ensures closed { ClosedStay self.old self.new }
    {
        step::step(&mut self.inside, event)
    }

    /// Makes the events in order, up to the first that is refused, whose place it tells. The events before it stay.
    pub fn run(&mut self, events: &[Event]) -> Result<(), (usize, Refused)>
        ensures run { Runs self.old events.now self.new result }
        ensures sizes { SameSizes self.old self.new }
        ensures lawful { IsLawful self.new }
        ensures headline { Headline self.new }
        ensures labels { KeepsLabels self.old (made events.now result) self.new }
        ensures closed { ClosedStayFrom self.old (made events.now result) self.new }
    {
        let _ = &self.inside;
        for (place, event) in events.iter().enumerate() {
            if let Err(refused) = self.step(*event) {
                return Err((place, refused));
            }
        }
        Ok(())
    }

    /// Makes a command: a call as its events, with nothing between them. All room is reserved before anything is
    /// changed. Refused as NotEnabled where a number is out of range, a worker's ring is closed, a life has no free
    /// hold (a hit, a release) or no hold (a label), or another command is half made in its way; a refusal changes
    /// nothing. Only a command of which an event asks for memory may want it: so none that is answered without such
    /// an event, as NoSuchChunk, Already or Empty.
    pub fn command(&mut self, command: Command) -> Result<Answer, Refused>
        ensures command { Commands self.old command self.new result }
        ensures memory { command_asks_for_memory self.old command ≡ false → IfErr result (λ r. r ≡ NotEnabled) }
        ensures events { OnOk result (run_of self.old (events_of self.old command) ≡ Some self.new) }
        ensures sizes { SameSizes self.old self.new }
        ensures lawful { IsLawful self.new }
        ensures headline { Headline self.new }
        ensures labels { KeepsLabels self.old (made_by (events_of self.old command) result) self.new }
        ensures closed { ClosedStay self.old self.new }
    {
        step::command(&mut self.inside, command)
    }
}

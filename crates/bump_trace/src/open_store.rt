//! What is done on an open store.

ghost use Rattle.std.specs.Prelude.{◌≡◌, ◌<◌, ◌^◌, ◌&&◌, not, true, false, [], IfOk, IfErr, OnOk, Ok};
ghost use Rattle.bump_core.specs.Commands.{is_allowed, answer_of, command_after};
ghost use Rattle.bump_rules.specs.declared.commands.Command.TheVariants as command;
ghost use Rattle.model_state.specs.State.{is_held, is_open};
ghost use Rattle.bump_trace.specs.Stages.{Open};
ghost use Rattle.bump_trace.specs.OpenStore.{answer_by, state_by, get_held, set_said, get_said, hold_said, hit_said};
ghost use Rattle.bump_trace.specs.OpenStore.{read_said, drop_said, del_said, pull_said, sweep_said, drain_said};
ghost use Rattle.bump_trace.specs.OpenStore.{close_said, line_answered, instruction_said, drained_of};
ghost use Rattle.bump_trace.specs.Names.{no_names};
ghost use Rattle.model_state.specs.Opening.{new_state};
ghost use Rattle.trace_lines.specs.Lines.{may_follow_par};
ghost use Rattle.trace_lines.specs.declared.faults.LineError.TheVariants.{Memory};

mod shows;

use crate::names::Names;
use bump_core::{Answer, Command, Config, ItemId, Refused, Start, Tail, World};
pub use shows::PLACES;
use std::alloc::Global;
use std::hash::RandomState;
use trace_lines::{
    Fault, Instruction, LineError, put_bump, put_closed, put_del, put_drain, put_drop, put_get,
    put_get_held, put_hit, put_hold, put_pull, put_read, put_set, put_sweep,
};

/// An open store: a World with the names of its items and of the holds that are kept, whether `par` was read, and how
/// many workers and classes it has and bumps each ring has room for.
#[derive(Drop)]
pub struct OpenStore<'a> {
    world: World,
    names: Names<'a>,
    holds: Names<'a>,
    is_past_par: bool,
    workers: u32,
    classes: u32,
    capacity: u32,
}

impl<'a> OpenStore<'a> {
    ghost use Rattle.bump_trace.specs.Ready.{IsReady, KeepsHolds, IsSteady, MayRun, HoldsStay, GivesBack, is_release};
    ghost use Rattle.bump_trace.specs.Views.{store_of, Does, Drains};
    ghost use Rattle.trace_lines.specs.Seen.{seen_instruction};

    /// A new World of this configuration, without names, which are hashed with these keys.
    pub fn new(
        alloc: Global,
        keys: RandomState,
        config: &Config,
    ) -> Result<OpenStore<'a>, LineError>
        ensures new { IfOk result (λ b. store_of b ≡ record {
          state = new_state config.now;
          names = no_names;
          holds = no_names;
          is_past_par = false;
        }) }
        ensures ready { IfOk result (λ b. IsReady b) }
        ensures holds { IfOk result (λ b. KeepsHolds b) }
        ensures err { IfErr result (λ e. e ≡ Memory) }
    {
        let world = World::new(alloc, config)?;
        world.promise();
        Ok(OpenStore {
            world,
            names: Names::new(alloc, keys),
            holds: Names::new(alloc, keys),
            is_past_par: false,
            workers: config.workers,
            classes: config.classes.as_slice().len() as u32,
            capacity: config.capacity,
        })
    }

    // Makes a command that is allowed and gives no hold back.
    fn command(&mut self, command: Command) -> Result<Answer, LineError>
        requires ready { IsReady self.old }
        requires allowed { is_allowed self.old.world command ≡ true }
        requires kept { is_release command ≡ false }
        ensures answer { IfOk result (λ a. a ≡ answer_of self.old.world command) }
        ensures err { IfErr result (λ e. e ≡ Memory) }
        ensures after { OnOk result (self.new ≡ record self.old { world = command_after self.old.world command }) }
        ensures ready { OnOk result (IsReady self.new) }
        ensures holds { OnOk result (HoldsStay self.old.world self.new.world) }
    {
        match self.world.command(command) {
            Ok(answer) => Ok(answer),
            Err(Refused::OutOfMemory) => Err(LineError::Memory),
            Err(Refused::NotEnabled) => unreachable!(),
        }
    }

    // Makes a command of a worker, which is allowed unless the worker is closed, and says what it answered.
    fn command_by(&mut self, worker: u32, command: Command) -> Result<Option<Answer>, LineError>
        requires ready { IsReady self.old }
        requires allowed { is_allowed self.old.world command ≡ is_open self.old.world worker }
        requires kept { is_release command ≡ false }
        ensures answer { IfOk result (λ a. a ≡ answer_by self.old.world worker command) }
        ensures err { IfErr result (λ e. e ≡ Memory) }
        ensures after { OnOk result (self.new ≡ record self.old { world = state_by self.old.world worker command }) }
        ensures ready { OnOk result (IsReady self.new) }
        ensures holds { OnOk result (HoldsStay self.old.world self.new.world) }
    {
        match self.world.command(command) {
            Ok(answer) => Ok(Some(answer)),
            Err(Refused::OutOfMemory) => Err(LineError::Memory),
            Err(Refused::NotEnabled) => Ok(None),
        }
    }

    // Gives a hold back.
    fn release(&mut self, id: ItemId) -> Result<(), LineError>
        requires ready { IsReady self.old }
        requires hold { is_held self.old.world id ≡ true }
        requires allowed { is_allowed self.old.world (command.Release id) ≡ true }
        ensures err { IfErr result (λ e. e ≡ Memory) }
        ensures after { OnOk result (self.new ≡ record self.old
            { world = command_after self.old.world (command.Release id) }) }
        ensures ready { OnOk result (IsReady self.new) }
        ensures holds { OnOk result (GivesBack id self.old.world self.new.world) }
    {
        match self.world.command(Command::Release { id }) {
            Ok(_) => Ok(()),
            Err(Refused::OutOfMemory) => Err(LineError::Memory),
            Err(Refused::NotEnabled) => unreachable!(),
        }
    }

    // What `Label` answers of a held item: it is read without a call that may be refused.
    fn held_label(&self, id: ItemId) -> Answer
        requires { is_held self.now.world id ≡ true }
        ensures { result ≡ answer_of self.now.world (command.Label id) }
    {
        Answer::Label(self.world.label(id.chunk))
    }

    // Links an item, and binds the name to it.
    #[tactic(auto, unfolding(crate::specs::OpenStore::set_said))]
    fn set(
        &mut self,
        now: u64,
        start: Start,
        name: &'a str,
        class: u32,
        label: u64,
        out: &mut Vec<u8>,
    ) -> Result<(), LineError>
        requires { MayRun self.old out.old.items }
        ensures said { Does (Open (store_of self.new)) out.new.items result
            (set_said (store_of self.old) now start name.entry.now class label) }
        ensures steady { OnOk result (IsSteady self.new) }
    {
        if class >= self.classes {
            return Err(LineError::Fault(Fault::Class));
        }
        let answer = self.command(Command::store(start, class, label, now))?;
        if let Answer::Linked(id) = answer {
            self.names.bind(name, id)?;
        }
        put_set(out, start, name, answer)?;
        Ok(())
    }

    // Reads the label of a held item, hits the item, and gives the hold back.
    fn get_held(
        &mut self,
        now: u64,
        worker: u32,
        name: &str,
        id: ItemId,
        out: &mut Vec<u8>,
    ) -> Result<(), LineError>
        requires ready { IsReady self.old }
        requires worker { is_open self.old.world worker ≡ true }
        requires hold { is_held self.old.world id ≡ true }
        requires empty { out.old.items ≡ [] }
        ensures said { Does (Open (store_of self.new)) out.new.items result
            (Ok (get_held (store_of self.old) now worker name.now id)) }
        ensures same { OnOk result (self.new ≡ record self.old { world = self.new.world }) }
        ensures ready { OnOk result (IsReady self.new) }
        ensures holds { OnOk result (GivesBack id self.old.world self.new.world) }
    {
        let label = self.held_label(id);
        let hit = self.command(Command::Touch { worker, id, now })?;
        self.release(id)?;
        put_get_held(out, worker, name, label, hit)?;
        Ok(())
    }

    // Takes a hold of the item that the name is bound to, and hits it.
    #[tactic(auto, unfolding(crate::specs::OpenStore::get_said))]
    fn get(
        &mut self,
        now: u64,
        worker: u32,
        name: &'a str,
        out: &mut Vec<u8>,
    ) -> Result<(), LineError>
        requires { MayRun self.old out.old.items }
        ensures said { Does (Open (store_of self.new)) out.new.items result
            (get_said (store_of self.old) now worker name.entry.now) }
        ensures steady { OnOk result (IsSteady self.new) }
    {
        if worker >= self.workers {
            return Err(LineError::Fault(Fault::Worker));
        }
        let Some(id) = self.names.get(name) else {
            return Err(LineError::Fault(Fault::Unbound));
        };
        let answer = self.command_by(worker, Command::Take { worker, id })?;
        match answer {
            Some(Answer::Held) => self.get_held(now, worker, name, id, out),
            other => {
                put_get(out, worker, name, other)?;
                Ok(())
            }
        }
    }

    // Takes a hold of the item that the name is bound to, and keeps it under a hold name.
    #[tactic(auto, unfolding(crate::specs::OpenStore::hold_said))]
    fn hold(
        &mut self,
        worker: u32,
        name: &'a str,
        hold: &'a str,
        out: &mut Vec<u8>,
    ) -> Result<(), LineError>
        requires { MayRun self.old out.old.items }
        ensures said { Does (Open (store_of self.new)) out.new.items result
            (hold_said (store_of self.old) worker name.entry.now hold.entry.now) }
        ensures steady { OnOk result (IsSteady self.new) }
    {
        if worker >= self.workers {
            return Err(LineError::Fault(Fault::Worker));
        }
        let Some(id) = self.names.get(name) else {
            return Err(LineError::Fault(Fault::Unbound));
        };
        if self.holds.get(hold).is_some() {
            return Err(LineError::Fault(Fault::Held));
        }
        let answer = self.command_by(worker, Command::Take { worker, id })?;
        match answer {
            Some(Answer::Held) => {
                self.holds.bind(hold, id)?;
                put_hold(out, worker, name, hold, Some(Answer::Held))?;
                Ok(())
            }
            other => {
                put_hold(out, worker, name, hold, other)?;
                Ok(())
            }
        }
    }

    // Hits an item by a hold that is kept.
    #[tactic(auto, unfolding(crate::specs::OpenStore::hit_said))]
    fn hit(
        &mut self,
        now: u64,
        worker: u32,
        hold: &'a str,
        out: &mut Vec<u8>,
    ) -> Result<(), LineError>
        requires { MayRun self.old out.old.items }
        ensures said { Does (Open (store_of self.new)) out.new.items result
            (hit_said (store_of self.old) now worker hold.entry.now) }
        ensures steady { OnOk result (IsSteady self.new) }
    {
        if worker >= self.workers {
            return Err(LineError::Fault(Fault::Worker));
        }
        let Some(id) = self.holds.get(hold) else {
            return Err(LineError::Fault(Fault::Unbound));
        };
        let answer = self.command_by(worker, Command::Touch { worker, id, now })?;
        put_hit(out, worker, hold, answer)?;
        Ok(())
    }

    // Reads the label of an item by a hold that is kept.
    #[tactic(auto, unfolding(crate::specs::OpenStore::read_said))]
    fn read(&mut self, hold: &'a str, out: &mut Vec<u8>) -> Result<(), LineError>
        requires { MayRun self.old out.old.items }
        ensures said { Does (Open (store_of self.new)) out.new.items result
            (read_said (store_of self.old) hold.entry.now) }
        ensures steady { OnOk result (IsSteady self.new) }
    {
        let Some(id) = self.holds.get(hold) else {
            return Err(LineError::Fault(Fault::Unbound));
        };
        let label = self.held_label(id);
        put_read(out, hold, label)?;
        Ok(())
    }

    // Gives a hold back that is kept: its name is free again.
    #[tactic(auto, unfolding(crate::specs::OpenStore::drop_said))]
    fn drop_hold(&mut self, hold: &'a str, out: &mut Vec<u8>) -> Result<(), LineError>
        requires { MayRun self.old out.old.items }
        ensures said { Does (Open (store_of self.new)) out.new.items result
            (drop_said (store_of self.old) hold.entry.now) }
        ensures steady { OnOk result (IsSteady self.new) }
    {
        let Some(id) = self.holds.get(hold) else {
            return Err(LineError::Fault(Fault::Unbound));
        };
        self.release(id)?;
        self.holds.unbind(hold);
        put_drop(out, hold)?;
        Ok(())
    }

    // Ends the item that the name is bound to.
    #[tactic(auto, unfolding(crate::specs::OpenStore::del_said))]
    fn del(&mut self, name: &'a str, out: &mut Vec<u8>) -> Result<(), LineError>
        requires { MayRun self.old out.old.items }
        ensures said { Does (Open (store_of self.new)) out.new.items result
            (del_said (store_of self.old) name.entry.now) }
        ensures steady { OnOk result (IsSteady self.new) }
    {
        let Some(id) = self.names.get(name) else {
            return Err(LineError::Fault(Fault::Unbound));
        };
        let answer = self.command(Command::Unlink { id })?;
        put_del(out, name, answer)?;
        Ok(())
    }

    // Looks at the last item of a list, and moves it by the tail table.
    #[tactic(auto, unfolding(crate::specs::OpenStore::pull_said))]
    fn pull(&mut self, class: u32, tail: Tail, out: &mut Vec<u8>) -> Result<(), LineError>
        requires { MayRun self.old out.old.items }
        ensures said { Does (Open (store_of self.new)) out.new.items result (pull_said (store_of self.old) class tail) }
        ensures steady { OnOk result (IsSteady self.new) }
    {
        if class >= self.classes {
            return Err(LineError::Fault(Fault::Class));
        }
        let answer = self.command(Command::Pull { class, tail })?;
        put_pull(out, class, tail, answer)?;
        Ok(())
    }

    // Frees the ended items of a class that nobody holds any more.
    #[tactic(auto, unfolding(crate::specs::OpenStore::sweep_said))]
    fn sweep(&mut self, class: u32, out: &mut Vec<u8>) -> Result<(), LineError>
        requires { MayRun self.old out.old.items }
        ensures said { Does (Open (store_of self.new)) out.new.items result (sweep_said (store_of self.old) class) }
        ensures steady { OnOk result (IsSteady self.new) }
    {
        if class >= self.classes {
            return Err(LineError::Fault(Fault::Class));
        }
        let answer = self.command(Command::Sweep { class })?;
        put_sweep(out, class, answer)?;
        Ok(())
    }

    // Applies a worker's bumps until there is none, at most as many as its ring has room for, and says how many.
    fn drain_worker(&mut self, now: u64, worker: u32, out: &mut Vec<u8>) -> Result<u64, LineError>
        requires ready { IsReady self.old }
        requires worker { worker < self.old.workers }
        ensures drained { Drains self.old self.new out.old.items out.new.items result
            (drained_of now worker self.old.capacity self.old.world) }
        ensures few { IfOk result (λ n. n < 2 ^ 32) }
        ensures ready { OnOk result (IsReady self.new) }
    {
        let mut count = 0u64;
        for _ in 0..self.capacity {
            match self.command(Command::Next { worker, now })? {
                Answer::Bumped(entry) => put_bump(out, worker, entry)?,
                _ => return Ok(count),
            }
            count += 1;
        }
        Ok(count)
    }

    // Applies the bumps of all workers, and says how many they were.
    #[tactic(auto, unfolding(crate::specs::OpenStore::drain_said))]
    fn drain(&mut self, now: u64, out: &mut Vec<u8>) -> Result<(), LineError>
        requires { MayRun self.old out.old.items }
        ensures said { Does (Open (store_of self.new)) out.new.items result (drain_said (store_of self.old) now) }
        ensures steady { OnOk result (IsSteady self.new) }
    {
        let mut count = 0u64;
        for worker in 0..self.workers {
            count += self.drain_worker(now, worker, out)?;
        }
        put_drain(out, count)?;
        Ok(())
    }

    // Closes a worker's ring, and applies the bumps in it.
    #[tactic(auto, unfolding(crate::specs::OpenStore::close_said))]
    fn close(&mut self, now: u64, worker: u32, out: &mut Vec<u8>) -> Result<(), LineError>
        requires { MayRun self.old out.old.items }
        ensures said { Does (Open (store_of self.new)) out.new.items result
            (close_said (store_of self.old) now worker) }
        ensures steady { OnOk result (IsSteady self.new) }
    {
        if worker >= self.workers {
            return Err(LineError::Fault(Fault::Worker));
        }
        if self
            .command_by(worker, Command::Close { worker })?
            .is_none()
        {
            put_closed(out, worker)?;
            return Ok(());
        }
        let _ = self.drain_worker(now, worker, out)?;
        self.put_settled(out, worker)?;
        Ok(())
    }

    // Does what a line says that may stand here.
    #[tactic(auto, unfolding(crate::specs::OpenStore::par_said))]
    fn make(
        &mut self,
        now: u64,
        instruction: Instruction<'a>,
        out: &mut Vec<u8>,
    ) -> Result<(), LineError>
        requires { MayRun self.old out.old.items }
        ensures said { Does (Open (store_of self.new)) out.new.items result
            (line_answered (store_of self.old) now (seen_instruction instruction.entry)) }
        ensures steady { OnOk result (IsSteady self.new) }
    {
        match instruction {
            Instruction::Set {
                start,
                name,
                class,
                label,
            } => self.set(now, start, name, class, label, out),
            Instruction::Get { worker, name } => self.get(now, worker, name, out),
            Instruction::Hold { worker, name, hold } => self.hold(worker, name, hold, out),
            Instruction::Hit { worker, hold } => self.hit(now, worker, hold, out),
            Instruction::Read { hold } => self.read(hold, out),
            Instruction::Drop { hold } => self.drop_hold(hold, out),
            Instruction::Del { name } => self.del(name, out),
            Instruction::Pull { class, tail } => self.pull(class, tail, out),
            Instruction::Sweep { class } => self.sweep(class, out),
            Instruction::Drain => self.drain(now, out),
            Instruction::Close { worker } => self.close(now, worker, out),
            Instruction::Show => self.show(out),
            Instruction::Moves => self.moves(out),
            Instruction::Par => {
                self.is_past_par = true;
                Ok(())
            }
        }
    }

    // Whether `par` was read, and the line may not stand behind it.
    fn is_misplaced(&self, instruction: &Instruction<'a>) -> bool
        ensures { result ≡ ((store_of self.now).is_past_par
            && not (may_follow_par (seen_instruction instruction.now))) }
    {
        self.is_past_par && !instruction.may_follow_par()
    }

    /// Does what a line says, where it may stand here.
    #[tactic(auto, unfolding(crate::specs::OpenStore::instruction_said))]
    pub fn run(
        &mut self,
        now: u64,
        instruction: Instruction<'a>,
        out: &mut Vec<u8>,
    ) -> Result<(), LineError>
        requires { MayRun self.old out.old.items }
        ensures said { Does (Open (store_of self.new)) out.new.items result
            (instruction_said (store_of self.old) now (seen_instruction instruction.entry)) }
        ensures steady { OnOk result (IsSteady self.new) }
    {
        if self.is_misplaced(&instruction) {
            return Err(LineError::Fault(Fault::Order));
        }
        self.make(now, instruction, out)
    }
}

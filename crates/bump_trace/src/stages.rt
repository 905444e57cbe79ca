//! How far a trace is, and what a line does there.

ghost use Rattle.std.specs.Prelude.{◌≡◌, ◌∷◌, [], OnOk};
ghost use Rattle.bump_trace.specs.Stages.{Before, declared, opened};
ghost use Rattle.bump_trace.specs.Meaning.{effect, step, fault_at_end};

use crate::open_store::OpenStore;
use crate::openings::{Opening, configure, declare};
use std::alloc::Global;
use std::hash::RandomState;
use std::mem;
use trace_lines::{Declaration, Fault, Line, LineError, read_line, rest_fault};

/// How far a trace is.
#[derive(Drop)]
pub enum Stage<'a> {
    /// Before the first command.
    Opens(Opening),

    /// With a store on which commands were made.
    Open(OpenStore<'a>),
}

/// A trace that is run line by line.
#[derive(Drop)]
pub struct Session<'a> {
    stage: Stage<'a>,
    keys: RandomState,
}

impl<'a> Session<'a> {
    ghost use Rattle.bump_trace.specs.Ready.{IsSteadyStage};
    ghost use Rattle.bump_trace.specs.Views.{seen_stage, Does, Opens};
    ghost use Rattle.trace_lines.specs.Seen.{seen_line};

    /// A trace of which no line was run, with the keys by which its names are hashed.
    pub fn new(keys: RandomState) -> Session<'a>
        ensures stage { seen_stage result.stage ≡ Before }
        ensures settled { IsSteadyStage result.stage }
    {
        Session {
            stage: Stage::Opens(Opening::Before),
            keys,
        }
    }

    // Says what the store is, or what a class is.
    #[tactic(auto, unfolding(crate::specs::Stages::declared))]
    fn declare(&mut self, alloc: Global, declaration: Declaration) -> Result<(), LineError>
        ensures said { Does (seen_stage self.new.stage) [] result (declared (seen_stage self.old.stage) declaration) }
        ensures settled { OnOk result (IsSteadyStage self.new.stage) }
    {
        match &mut self.stage {
            Stage::Opens(opening) => declare(opening, alloc, declaration),
            Stage::Open(_) => Err(LineError::Fault(Fault::Order)),
        }
    }

    // Makes the store at the first command.
    fn open(&mut self, alloc: Global) -> Result<(), LineError>
        requires { IsSteadyStage self.old.stage }
        ensures opened { Opens (seen_stage self.new.stage) result (opened (seen_stage self.old.stage)) }
        ensures settled { OnOk result (IsSteadyStage self.new.stage) }
    {
        // All other commands find the store open, and are not to pay for what making it needs.
        if let Stage::Open(_) = self.stage {
            return Ok(());
        }
        self.make_store(alloc)
    }

    // Makes the store, where there is none.
    #[tactic(auto, unfolding(crate::specs::Stages::opened))]
    fn make_store(&mut self, alloc: Global) -> Result<(), LineError>
        requires { IsSteadyStage self.old.stage }
        ensures opened { Opens (seen_stage self.new.stage) result (opened (seen_stage self.old.stage)) }
        ensures settled { OnOk result (IsSteadyStage self.new.stage) }
    {
        let Stage::Opens(opening) = &mut self.stage else {
            return Ok(());
        };
        match configure(mem::replace(opening, Opening::Before)) {
            Ok(config) => {
                self.stage = Stage::Open(OpenStore::new(alloc, self.keys, &config)?);
                Ok(())
            }
            Err(fault) => Err(LineError::Fault(fault)),
        }
    }

    // Does what a line says.
    #[tactic(auto, unfolding(crate::specs::Meaning::effect))]
    fn apply(
        &mut self,
        alloc: Global,
        now: u64,
        line: Line<'a>,
        out: &mut Vec<u8>,
    ) -> Result<(), LineError>
        requires settled { IsSteadyStage self.old.stage }
        requires empty { out.old.items ≡ [] }
        ensures said { Does (seen_stage self.new.stage) out.new.items result
            (effect (seen_stage self.old.stage) now (seen_line line.entry)) }
        ensures settled { OnOk result (IsSteadyStage self.new.stage) }
    {
        match line {
            Line::Declares(declaration) => self.declare(alloc, declaration),
            Line::Makes(instruction) => {
                self.open(alloc)?;
                if let Stage::Open(store) = &mut self.stage {
                    store.run(now, instruction, out)
                } else {
                    unreachable!()
                }
            }
        }
    }

    /// Runs a whole line. Its number is the time.
    #[tactic(auto, unfolding(crate::specs::Meaning::step))]
    pub fn step(
        &mut self,
        alloc: Global,
        number: u64,
        line: &'a [u8],
        out: &mut Vec<u8>,
    ) -> Result<(), LineError>
        requires settled { IsSteadyStage self.old.stage }
        requires empty { out.old.items ≡ [] }
        ensures said { Does (seen_stage self.new.stage) out.new.items result
            (step (seen_stage self.old.stage) number line.entry.now) }
        ensures settled { OnOk result (IsSteadyStage self.new.stage) }
    {
        match read_line(line)? {
            Some(line) => self.apply(alloc, number, line, out),
            None => Ok(()),
        }
    }

    /// What is wrong at the end of the input, behind whose last line feed this stands.
    #[tactic(auto, unfolding(crate::specs::Meaning::fault_at_end, crate::specs::Stages::opened))]
    pub fn fault_at_end(self, rest: &[u8]) -> Option<Fault>
        ensures { result ≡ fault_at_end (seen_stage self.entry.stage) rest.now }
    {
        if let Some(fault) = rest_fault(rest) {
            return Some(fault);
        }
        let Session { stage, .. } = self;
        match stage {
            Stage::Opens(opening) => configure(opening).err(),
            Stage::Open(_) => None,
        }
    }
}

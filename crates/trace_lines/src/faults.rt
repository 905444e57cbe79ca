//! The faults of a trace, and why a line was not run.

ghost use Rattle.std.specs.Prelude.{◌≡◌};
ghost use Rattle.trace_lines.specs.declared.faults.LineError.TheVariants as errors;
ghost use Rattle.trace_lines.specs.Faults.{fault_word};

use std::alloc::{AllocError, AllocFailed};

/// What is wrong with a line of a trace. Which is looked for first, docs/TRACE.md has in eight rows.
#[derive(Clone, Copy, Debug, PartialEq, Eq)]
pub enum Fault {
    /// More than 255 bytes before the line feed or the end of the input.
    Long,

    /// The input ends inside the line.
    Truncated,

    /// The first word is no command.
    Command,

    /// Another number of words than the command has.
    Count,

    /// A word that should be a number isn't one, or is too great.
    Number,

    /// A word that should be a name isn't one.
    Name,

    /// A word that should be a segment isn't one.
    Segment,

    /// The line may not stand here.
    Order,

    /// Not 1 to 64 workers.
    Workers,

    /// A ring's capacity is not 1 to 65,536.
    Capacity,

    /// The limit of reference counts is not 2 to 1,048,575.
    Refs,

    /// The first generation is 0.
    Generation,

    /// Not 1 to 16 classes.
    Classes,

    /// A class without chunks, or more than 1,000,000 chunks together.
    Chunks,

    /// There is no worker of this number.
    Worker,

    /// There is no class of this number.
    Class,

    /// The item name was never bound, or the hold name isn't in use.
    Unbound,

    /// The hold name is in use.
    Held,
}

impl Fault {
    /// The word that the text ends with.
    pub fn word(self) -> &'static str
        ensures { result.now ≡ fault_word self }
    {
        match self {
            Fault::Long => "LONG",
            Fault::Truncated => "TRUNCATED",
            Fault::Command => "COMMAND",
            Fault::Count => "COUNT",
            Fault::Number => "NUMBER",
            Fault::Name => "NAME",
            Fault::Segment => "SEGMENT",
            Fault::Order => "ORDER",
            Fault::Workers => "WORKERS",
            Fault::Capacity => "CAPACITY",
            Fault::Refs => "REFS",
            Fault::Generation => "GENERATION",
            Fault::Classes => "CLASSES",
            Fault::Chunks => "CHUNKS",
            Fault::Worker => "WORKER",
            Fault::Class => "CLASS",
            Fault::Unbound => "UNBOUND",
            Fault::Held => "HELD",
        }
    }
}

/// Why a line was not run.
#[derive(Clone, Copy, Debug, PartialEq, Eq)]
pub enum LineError {
    /// There was no memory.
    Memory,

    /// The line has this fault.
    Fault(Fault),
}

impl From<Fault> for LineError {
    ghost from_gives = { λ f e. e ≡ errors.Fault f };

    fn from(fault: Fault) -> LineError {
        LineError::Fault(fault)
    }
}

impl From<AllocError> for LineError {
    ghost from_gives = { λ _ e. e ≡ errors.Memory };

    fn from(_e: AllocError) -> LineError {
        LineError::Memory
    }
}

impl<T: Drop> From<AllocFailed<T>> for LineError {
    ghost from_gives = { λ _ e. e ≡ errors.Memory };

    fn from(_e: AllocFailed<T>) -> LineError {
        LineError::Memory
    }
}

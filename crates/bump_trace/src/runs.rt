//! The whole run: the trace is read, and then run line by line.

ghost use Rattle.std.specs.Prelude.{◌≡◌, ◌≤◌, [], length, IfOk, IfErr};
ghost use Rattle.bump_trace.specs.declared.runs.SimFault.TheVariants.{Memory};
ghost use Rattle.trace_lines.specs.Counted.{inner_of, calls_of, failed_of};
ghost use Rattle.bump_trace.specs.Gathering.{RunsInto, IsOfWriting, WritesFront, StopsWithin};
ghost use Rattle.bump_trace.specs.Meaning.{verdict_of};
ghost use Rattle.bump_trace.specs.Runs.{most_bytes, most_reads, ModelRuns, FailsAsCounted, IsUncalled};

use crate::cutting::cut;
use crate::gathering::{ROOM, flush, gather, gather_fault, stop};
use crate::reading::read_all;
use crate::stages::Session;
use std::alloc::{AllocError, Global};
use std::hash::RandomState;
use thiserror::Error;
use trace_lines::{Counted, Sink, Source};

/// Why a run didn't go to the end of its trace.
#[derive(Clone, Copy, Debug, PartialEq, Eq, Error)]
pub enum SimFault {
    /// The trace has a fault. It is the last line of what was written.
    #[error("the trace has a fault")]
    Trace,

    /// The trace could not be read, or not in 20,000,000 calls. Nothing was written.
    #[error("the trace could not be read")]
    Read,

    /// The trace has more than 16,777,216 bytes. Nothing was written.
    #[error("the trace has more than 16777216 bytes")]
    Size,

    /// The text could not be written.
    #[error("the text could not be written")]
    Write,

    /// There was no memory.
    #[error("out of memory")]
    Memory,

    /// A thread could not be started. A run on a World has none.
    #[error("a thread could not be started")]
    Threads,

    /// A ring that was closed could not show its end. A World's rings are lists.
    #[error("a ring could not show its end")]
    Ring,

    /// The gate let a thread's call not pass. A run on a World has no gate.
    #[error("the gate did not open")]
    Gate,
}

impl From<AllocError> for SimFault {
    ghost from_gives = { λ _ e. e ≡ Memory };

    fn from(_e: AllocError) -> SimFault {
        SimFault::Memory
    }
}

// Runs the lines one after another, gathers their text, and says whether there was a fault.
fn run_lines<W: Sink>(
    alloc: Global,
    keys: RandomState,
    input: &[u8],
    writer: &mut Counted<W>,
    gathered: &mut Vec<u8>,
) -> Result<bool, SimFault>
    requires size { length input.now ≤ most_bytes }
    requires empty { gathered.old.items ≡ [] }
    ensures err { IfErr result (λ e. IsOfWriting (failed_of writer.new) e) }
    ensures front { IfErr result (λ e. StopsWithin (W.contents (inner_of writer.old))
        (W.contents (inner_of writer.new)) gathered.new.items (verdict_of input.now).text e) }
    ensures text { IfOk result (λ is_fault. RunsInto (W.contents (inner_of writer.old))
        (W.contents (inner_of writer.new)) gathered.new.items input.now is_fault) }
{
    let mut session = Session::new(keys);
    let mut text = Vec::new(alloc);
    let mut rest = input;
    let mut number = 1u64;
    while let Some((line, after)) = cut(rest) {
        match session.step(alloc, number, line, &mut text) {
            Ok(()) => {}
            Err(error) => {
                stop(writer, gathered, &mut text, number, error)?;
                return Ok(true);
            }
        }
        gather(writer, gathered, &text)?;
        text.clear();
        rest = after;
        number += 1;
    }
    match session.fault_at_end(rest) {
        Some(fault) => {
            gather_fault(writer, gathered, &mut text, number, fault)?;
            Ok(true)
        }
        None => Ok(false),
    }
}

// Runs the lines, and writes their text before any answer.
fn run_input<W: Sink>(
    alloc: Global,
    keys: RandomState,
    input: &[u8],
    writer: &mut Counted<W>,
) -> Result<bool, SimFault>
    requires { length input.now ≤ most_bytes }
    ensures err { IfErr result (λ e. IsOfWriting (failed_of writer.new) e) }
    ensures front { IfErr result (λ _. WritesFront (W.contents (inner_of writer.old)) (W.contents (inner_of writer.new))
        (verdict_of input.now).text) }
    ensures text { IfOk result (λ is_fault. RunsInto (W.contents (inner_of writer.old))
        (W.contents (inner_of writer.new)) [] input.now is_fault) }
{
    let mut gathered = Vec::with_capacity(alloc, ROOM)?;
    match run_lines(alloc, keys, input, writer, &mut gathered) {
        Ok(is_fault) => {
            flush(writer, &mut gathered)?;
            Ok(is_fault)
        }
        Err(SimFault::Memory) => {
            flush(writer, &mut gathered)?;
            Err(SimFault::Memory)
        }
        Err(fault) => Err(fault),
    }
}

/// Runs a trace on a World. The whole trace, of at most 16,777,216 bytes, is read in at most 20,000,000 calls before
/// anything is written. Where it answers Write or Memory, what was written is a front of the trace's text. Names are
/// hashed with these keys: a trace can't be made whose names collide under keys that its maker doesn't know.
pub fn run_model<R: Source, W: Sink>(
    alloc: Global,
    keys: RandomState,
    reader: &mut Counted<R>,
    writer: &mut Counted<W>,
) -> Result<(), SimFault>
    requires reader { (calls_of reader.old ≡ 0) × (failed_of reader.old ≡ 0) }
    requires writer { (calls_of writer.old ≡ 0) × (failed_of writer.old ≡ 0) }
    ensures reads { calls_of reader.new ≤ most_reads }
    ensures unwritten { IfErr result (λ e. IsUncalled (calls_of writer.new) e) }
    ensures failed { IfErr result (λ e. FailsAsCounted (calls_of reader.new) (failed_of reader.new)
        (failed_of writer.new) e) }
    ensures text { ModelRuns (R.remaining (inner_of reader.old)) (R.remaining (inner_of reader.new))
        (W.contents (inner_of writer.old)) (W.contents (inner_of writer.new)) result }
{
    let input = read_all(alloc, reader)?;
    let is_fault = run_input(alloc, keys, &input, writer)?;
    if is_fault {
        Err(SimFault::Trace)
    } else {
        Ok(())
    }
}

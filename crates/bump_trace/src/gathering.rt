//! The text is gathered, and written some 64 KiB at a time.

ghost use Rattle.std.specs.Prelude.{◌≡◌, ◌++◌, [], OnOk, IfErr};
ghost use Rattle.std.specs.Io.KnownBytes.{Appends};
ghost use Rattle.trace_lines.specs.Counted.{inner_of, failed_of};
ghost use Rattle.bump_trace.specs.Gathering.{Gathers, GathersFault, IsOfWriting, WritesFront, StopsWithin};
ghost use Rattle.bump_trace.specs.Gathering.{stopped_line};
ghost use Rattle.bump_trace.specs.declared.runs.SimFault.TheVariants.{Write};
ghost use Rattle.trace_lines.specs.Text.{fault_line};

use crate::runs::SimFault;
use trace_lines::{Counted, Fault, LineError, Sink, put_fault};

/// How many bytes of text are gathered before they are written.
pub const ROOM: usize = 65_536;

// Writes all of the bytes.
fn write_whole<W: Sink>(writer: &mut Counted<W>, bytes: &[u8]) -> Result<(), SimFault>
    ensures ok { OnOk result (Appends (W.contents (inner_of writer.old)) (W.contents (inner_of writer.new)) bytes.now) }
    ensures err { IfErr result (λ e. IsOfWriting (failed_of writer.new) e) }
    ensures only { IfErr result (λ e. e ≡ Write) }
    ensures front { IfErr result (λ _. WritesFront (W.contents (inner_of writer.old))
        (W.contents (inner_of writer.new)) bytes.now) }
{
    let mut rest = bytes;
    while !rest.is_empty() {
        match writer.write(rest) {
            Ok(0) => return Err(SimFault::Write),
            Ok(n) => rest = &rest[n..],
            Err(_) => return Err(SimFault::Write),
        }
    }
    Ok(())
}

/// Writes what was gathered.
pub fn flush<W: Sink>(writer: &mut Counted<W>, gathered: &mut Vec<u8>) -> Result<(), SimFault>
    ensures ok { OnOk result (Appends (W.contents (inner_of writer.old))
        (W.contents (inner_of writer.new)) gathered.old.items) }
    ensures none { OnOk result (gathered.new.items ≡ []) }
    ensures err { IfErr result (λ e. IsOfWriting (failed_of writer.new) e) }
    ensures only { IfErr result (λ e. e ≡ Write) }
    ensures front { IfErr result (λ _. WritesFront (W.contents (inner_of writer.old))
        (W.contents (inner_of writer.new)) gathered.old.items) }
{
    write_whole(writer, gathered)?;
    gathered.clear();
    Ok(())
}

/// Puts text behind what was gathered, and writes where that is too much.
pub fn gather<W: Sink>(
    writer: &mut Counted<W>,
    gathered: &mut Vec<u8>,
    text: &[u8],
) -> Result<(), SimFault>
    ensures ok { OnOk result (Gathers (W.contents (inner_of writer.old))
        (W.contents (inner_of writer.new)) gathered.old.items gathered.new.items text.now) }
    ensures err { IfErr result (λ e. IsOfWriting (failed_of writer.new) e) }
    ensures front { IfErr result (λ e. StopsWithin (W.contents (inner_of writer.old))
        (W.contents (inner_of writer.new)) gathered.new.items (gathered.old.items ++ text.now) e) }
{
    if text.len() <= ROOM.saturating_sub(gathered.len()) {
        gathered.extend_from_slice(text)?;
        return Ok(());
    }
    flush(writer, gathered)?;
    if text.len() > ROOM {
        write_whole(writer, text)?;
        return Ok(());
    }
    gathered.extend_from_slice(text)?;
    Ok(())
}

/// Gathers the line of a fault.
pub fn gather_fault<W: Sink>(
    writer: &mut Counted<W>,
    gathered: &mut Vec<u8>,
    text: &mut Vec<u8>,
    number: u64,
    fault: Fault,
) -> Result<(), SimFault>
    ensures ok { OnOk result (Gathers (W.contents (inner_of writer.old))
        (W.contents (inner_of writer.new)) gathered.old.items gathered.new.items (fault_line number fault)) }
    ensures err { IfErr result (λ e. IsOfWriting (failed_of writer.new) e) }
    ensures front { IfErr result (λ e. StopsWithin (W.contents (inner_of writer.old))
        (W.contents (inner_of writer.new)) gathered.new.items (gathered.old.items ++ fault_line number fault) e) }
{
    text.clear();
    put_fault(text, number, fault)?;
    gather(writer, gathered, text)
}

/// Ends the run at a line that was not run.
pub fn stop<W: Sink>(
    writer: &mut Counted<W>,
    gathered: &mut Vec<u8>,
    text: &mut Vec<u8>,
    number: u64,
    error: LineError,
) -> Result<(), SimFault>
    ensures ok { OnOk result (GathersFault (W.contents (inner_of writer.old))
        (W.contents (inner_of writer.new)) gathered.old.items gathered.new.items number error) }
    ensures err { IfErr result (λ e. IsOfWriting (failed_of writer.new) e) }
    ensures front { IfErr result (λ e. StopsWithin (W.contents (inner_of writer.old))
        (W.contents (inner_of writer.new)) gathered.new.items (gathered.old.items ++ stopped_line number error) e) }
{
    match error {
        LineError::Memory => Err(SimFault::Memory),
        LineError::Fault(fault) => gather_fault(writer, gathered, text, number, fault),
    }
}

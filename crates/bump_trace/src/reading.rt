//! The whole trace is read.

ghost use Rattle.std.specs.Prelude.{◌≡◌, ◌≤◌, length, IfOk, OnOk, IfErr};
ghost use Rattle.std.specs.Io.KnownBytes.{Consumes, IsAtEnd};
ghost use Rattle.trace_lines.specs.Counted.{inner_of, calls_of, failed_of};
ghost use Rattle.bump_trace.specs.Reading.{IsOfReading, IsOfSize};
ghost use Rattle.bump_trace.specs.Runs.{most_bytes, most_reads};

use crate::runs::SimFault;
use std::alloc::Global;
use trace_lines::{Counted, Source, is_interruption};

/// The most bytes of a trace, 2^24: it is read whole before its first line is run, so what it takes of memory has to
/// have a bound.
pub const MAX_BYTES: usize = 16_777_216;

/// The most reads that are made.
const MAX_READS: u32 = 20_000_000;

/// All that the reader has left. An interrupted read is made again.
pub fn read_all<R: Source>(alloc: Global, reader: &mut Counted<R>) -> Result<Vec<u8>, SimFault>
    requires { (calls_of reader.old ≡ 0) × (failed_of reader.old ≡ 0) }
    ensures bytes { IfOk result (λ v. Consumes (R.remaining (inner_of reader.old))
        (R.remaining (inner_of reader.new)) v.items) }
    ensures end { OnOk result (IsAtEnd (R.remaining (inner_of reader.new))) }
    ensures size { IfOk result (λ v. length v.items ≤ most_bytes) }
    ensures calls { calls_of reader.new ≤ most_reads }
    ensures err { IfErr result (λ e. IsOfReading (calls_of reader.new) (failed_of reader.new) e) }
    ensures long { IfErr result (λ e. IsOfSize (R.remaining (inner_of reader.old))
        (R.remaining (inner_of reader.new)) e) }
{
    let mut bytes = Vec::new(alloc);
    let mut piece = [0u8; 4096];
    for _ in 0..MAX_READS {
        match reader.read(&mut piece) {
            Ok(0) => return Ok(bytes),
            Ok(n) => {
                if n > MAX_BYTES - bytes.len() {
                    return Err(SimFault::Size);
                }
                bytes.extend_from_slice(&piece[..n])?;
            }
            Err(e) => {
                if !is_interruption(e.kind()) {
                    return Err(SimFault::Read);
                }
            }
        }
    }
    Err(SimFault::Read)
}

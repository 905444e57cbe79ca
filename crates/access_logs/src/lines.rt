//! The lines of a reader.

ghost use Rattle.std.specs.Prelude.{◌≡◌, ◌≢◌, ◌-◌, ◌<◌, ◌≤◌, ◌++◌, ℕ, List, true, All, take, length};
ghost use Rattle.std.specs.Prelude.{option_map, vec_len, IfOk, IfErr, IfSome, OnOk, OnSome};
ghost use Rattle.std.specs.Io.{StopsAt, IsEmptyOrEndsWith};
ghost use Rattle.std.specs.Io.BufRead.{ends_with_byte, take_through, DropsThrough};
ghost use Rattle.std.specs.Io.KnownBytes.{Consumes, IsAtEnd};
ghost use Rattle.access_logs.specs.Entries.{said_by};
ghost use Rattle.access_logs.specs.Lines.{content_of, entry_of_line, IsReadOrMemory};

use crate::entries::{Entry, LogEntry};
use crate::log::{Defect, Field, LogFault};
use memchr::memchr;
use std::io::{BufRead, ErrorKind};

/// How many bytes a key has at most.
pub const LONGEST_KEY: usize = 65_536;

/// How many bytes of a line are kept at most. They tell that it is too long even where two of them are its end.
const KEPT: usize = 65_539;

// Whether the last byte is this one.
fn ends_with(bytes: &[u8], byte: u8) -> bool
    ensures { result ≡ ends_with_byte byte bytes.now }
{
    match bytes.last() {
        Some(last) => *last == byte,
        None => false,
    }
}

// A line without its end.
fn content_of(line: &[u8]) -> &[u8]
    ensures { result.now ≡ content_of line.now }
{
    if !ends_with(line, b'\n') {
        return line;
    }
    let content = &line[..line.len() - 1];
    if ends_with(content, b'\r') {
        &content[..content.len() - 1]
    } else {
        content
    }
}

/// What a line with its end says.
#[tactic(auto, unfolding(crate::specs::Lines::entry_of_line))]
pub fn entry_of_line(line: &[u8]) -> Entry<'_>
    ensures { said_by result ≡ entry_of_line line.now }
{
    let content = content_of(line);
    if content.is_empty() {
        Entry::Unreadable(Defect::Lacks(Field::Key))
    } else if content.len() > LONGEST_KEY {
        Entry::Unreadable(Defect::TooLong)
    } else {
        Entry::Access(LogEntry {
            key: content,
            size: None,
            time: None,
            operation: None,
            ttl: None,
        })
    }
}

// The length up to and including the first line feed, or the whole length.
fn len_through(bytes: &[u8]) -> usize
    ensures bound { result ≤ length bytes.now }
    ensures some { 0 < length bytes.now → 0 < result }
    ensures before { All (λ x. x ≢ 10) (take (result - 1) bytes.now) }
{
    match memchr(b'\n', bytes) {
        Some(at) => at + 1,
        None => bytes.len(),
    }
}

// Reads on in a line, up to its end or as far as the reader has bytes at hand. Whether the line is at its end, or the
// input. The number is that of the line.
fn read_piece<B: BufRead>(source: &mut B, line: &mut Vec<u8>, number: u64) -> Result<bool, LogFault>
    requires { vec_len line.old ≤ 65539 }
    ensures piece { IfOk result (λ done. (piece : List ℕ) × (line.new.items ≡ take 65539 (line.old.items ++ piece))
        × Consumes (B.remaining source.old) (B.remaining source.new) piece × StopsAt piece 10
        × (done ≢ true → All (λ x. x ≢ 10) piece) × (done ≡ true → IsEmptyOrEndsWith piece 10)
        × (done ≡ true → length piece ≡ 0 → OnSome (B.remaining source.old) (IsAtEnd (B.remaining source.new)))) }
    ensures refusal { IfErr result (IsReadOrMemory number) }
{
    let shown = match source.fill_buf() {
        Ok(shown) => shown,
        Err(e) => {
            return if e.kind() == ErrorKind::Interrupted {
                Ok(false)
            } else {
                Err(LogFault::Read {
                    number,
                    cause: e.kind(),
                })
            };
        }
    };
    let end = len_through(shown);
    let kept = end.min(KEPT - line.len());
    if line.extend_from_slice(&shown[..kept]).is_err() {
        return Err(LogFault::Memory);
    }
    let is_done = end == 0 || shown[end - 1] == b'\n';
    source.consume(end);
    Ok(is_done)
}

/// Reads the next line with its end, of which it keeps the first 65,539 bytes. At the end of the input it is empty. The
/// number is that of the line.
pub fn read_line<B: BufRead>(
    source: &mut B,
    line: &mut Vec<u8>,
    number: u64,
) -> Result<(), LogFault>
    ensures line { OnOk result (IfSome (B.remaining source.old) (λ bytes.
        line.new.items ≡ take 65539 (take_through 10 bytes))) }
    ensures rest { OnOk result (DropsThrough (B.remaining source.old) (B.remaining source.new) 10) }
    ensures refusal { IfErr result (IsReadOrMemory number) }
{
    line.clear();
    for _ in 0..u64::MAX {
        if read_piece(source, line, number)? {
            return Ok(());
        }
    }
    Err(LogFault::Read {
        number,
        cause: ErrorKind::TimedOut,
    })
}

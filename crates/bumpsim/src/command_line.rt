//! The words of the command line.

ghost use Rattle.std.specs.Prelude.{◌≡◌, ◌≤◌, IfOk, IfSome, option_map, map, string_bytes};
ghost use Rattle.clap.specs.Words.{FailsBy, fault_of, kind_of, rows_of, found_of, matches_of};
ghost use Rattle.bumpsim.specs.Words.{app, mode_of, drainers_said, drainers_in, asked_run, refusal_of_error, TakesRun};

use crate::runs::{Mode, Run};
use clap::error::ErrorKind;
use clap::{Arg, ArgAction, ArgMatches, Command, Error};
use std::alloc::Global;
use trace_lines::read_number;

/// Why the words are not taken.
#[derive(Clone, Copy, Debug, PartialEq, Eq)]
pub enum Refusal {
    /// Memory ran out.
    Memory,

    /// They are no command of the program.
    Usage,
}

fn parsed<'a>(alloc: Global, words: &'a [String]) -> Result<ArgMatches<'a>, Error>
    ensures kinds { FailsBy (fault_of app (map string_bytes words.entry.now)) result }
    ensures values { IfOk result (λ m. rows_of (found_of m) ≡ matches_of app (map string_bytes words.entry.now)) }
{
    let mode = Arg::new(alloc, "mode")
        .required(true)
        .action(ArgAction::Set);
    let file = Arg::new(alloc, "file")
        .required(true)
        .action(ArgAction::Set);
    let drainers = Arg::new(alloc, "drainers").action(ArgAction::Set);
    let first = Command::new(alloc, "bumpsim").arg(mode)?;
    let second = first.arg(file)?;
    let command = second.arg(drainers)?;
    command.try_get_matches_from(words)
}

// A request for help is a refusal, too.
fn why_refused(error: &Error) -> Refusal
    ensures { result ≡ refusal_of_error (kind_of error.now) }
{
    match error.kind() {
        ErrorKind::OutOfMemory => Refusal::Memory,
        _ => Refusal::Usage,
    }
}

// The way of running that a word names.
fn read_mode(word: &str) -> Option<Mode>
    ensures { result ≡ mode_of word.now }
{
    if word == "model" {
        Some(Mode::Model)
    } else if word == "serial" {
        Some(Mode::Serial)
    } else if word == "par" {
        Some(Mode::Par)
    } else {
        None
    }
}

// The number of drainers that a word is: 1 to 64.
fn drainers_in_word(word: &str) -> Option<u32>
    ensures meant { result ≡ drainers_said word.now }
    ensures range { IfSome result (λ n. (1 ≤ n) × (n ≤ 64)) }
{
    match read_number(word.as_bytes()) {
        Some(n) if 1 <= n && n <= 64 => Some(n as u32),
        _ => None,
    }
}

// The number of drainers: 1 where no word says it. Only a run by threads has a word for it.
fn read_drainers(mode: Mode, word: Option<&str>) -> Option<u32>
    ensures meant { result ≡ drainers_in mode (option_map (λ s. s.now) word.entry) }
    ensures range { IfSome result (λ n. (1 ≤ n) × (n ≤ 64)) }
{
    let Some(word) = word else {
        return Some(1);
    };
    match mode {
        Mode::Par => drainers_in_word(word),
        Mode::Model | Mode::Serial => None,
    }
}

/// The run that `model FILE`, `serial FILE`, `par FILE` or `par FILE DRAINERS` asks for, of which the program's own
/// name is the first word. All other words are refused.
pub fn choose<'a>(alloc: Global, words: &'a [String]) -> Result<Run<'a>, Refusal>
    ensures { TakesRun (asked_run (map string_bytes words.entry.now)) result }
{
    let matches = match parsed(alloc, words) {
        Ok(matches) => matches,
        Err(error) => return Err(why_refused(&error)),
    };
    let Some(word) = matches.get_str("mode") else {
        return Err(Refusal::Usage);
    };
    let Some(mode) = read_mode(word) else {
        return Err(Refusal::Usage);
    };
    let Some(file) = matches.get_str("file") else {
        return Err(Refusal::Usage);
    };
    match read_drainers(mode, matches.get_str("drainers")) {
        Some(drainers) => Ok(Run {
            mode,
            file,
            drainers,
        }),
        None => Err(Refusal::Usage),
    }
}

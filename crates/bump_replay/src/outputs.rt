//! Whether what is written would overwrite a log that is read, or be overwritten itself.
use crate::options::Options;
use std::fs;
use std::os::unix::fs::MetadataExt;
use std::rt::Files;

// Standard input, as Linux names it.
const STANDARD_INPUT: &str = "/proc/self/fd/0";

// A file, by its device and its number there, whichever name it has.
#[derive(Clone, Copy, PartialEq, Eq)]
struct FileId {
    device: u64,
    number: u64,
}

// Which file this is, if there is one.
fn id_of<R: Files>(rt: &R, file: &str) -> Option<FileId> {
    match fs::metadata(rt, file) {
        Ok(metadata) => Some(FileId {
            device: metadata.dev(),
            number: metadata.ino(),
        }),
        Err(_) => None,
    }
}

// Whether a file is one of the logs.
fn is_log<R: Files>(rt: &R, options: &Options<'_>, file: &str) -> bool {
    let Some(id) = id_of(rt, file) else {
        return false;
    };
    for log in &options.files {
        let log = if *log == "-" { STANDARD_INPUT } else { *log };
        if id_of(rt, log) == Some(id) {
            return true;
        }
    }
    false
}

// Whether both are one file, by their names or by what they are.
fn is_same<R: Files>(rt: &R, first: &str, second: &str) -> bool {
    first == second || (id_of(rt, first).is_some() && id_of(rt, first) == id_of(rt, second))
}

/// Why what is to be written can't be, if it would be written onto a log that is read, or one output onto the other.
pub fn fault<R: Files>(rt: &R, options: &Options<'_>) -> Option<&'static str> {
    if let Some(svg) = options.svg {
        if is_log(rt, options, svg) {
            return Some("the picture would be written onto a log that is read");
        }
    }
    let trace = options.trace?;
    if is_log(rt, options, trace) {
        return Some("the trace would be written onto a log that is read");
    }
    let svg = options.svg?;
    if is_same(rt, svg, trace) {
        return Some("the picture and the trace would be written to one file");
    }
    None
}

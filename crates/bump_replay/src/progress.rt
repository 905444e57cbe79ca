//! How far a long run is.
use crate::rows::Row;
use std::fs;
use std::os::unix::fs::FileTypeExt;
use std::rt::Files;

// A log of so many accesses is long.
const LONG: usize = 1_000_000;

// Standard error, as Linux names it.
const STANDARD_ERROR: &str = "/proc/self/fd/2";

/// Whether it is told how far the run of so many accesses is: it is long, and standard error is a terminal.
pub fn is_told<R: Files>(rt: &R, accesses: usize) -> bool {
    accesses >= LONG
        && match fs::metadata(rt, STANDARD_ERROR) {
            // a terminal is a device of characters, and so is what drops all
            Ok(metadata) => metadata.file_type().is_char_device(),
            Err(_) => false,
        }
}

/// Tells that the run through caches of one size is done.
pub fn tell<R: Eprint>(rt: &R, row: &Row, accesses: usize) {
    let _ = eprintln!(rt; "{accesses} accesses through {} items", row.items);
}

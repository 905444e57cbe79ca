//! Readers that give little at a time, are interrupted, or fail.

use crate::reports::{Report, expect_log, keys_in, lacks, whole};
use access_logs::{Column, Field, Format, Log, LogFault, read_log};
use std::alloc::{AllocError, Global};
use std::io::{self, ErrorKind, Read};
use std::process::Abort;
use std::test::*;

// Gives a text in pieces of so many bytes, with an interruption before each; and fails behind it, if it is to.
#[derive(Drop)]
struct Pieces<'a> {
    text: &'a [u8],
    size: usize,
    interrupted: bool,
    fails: bool,
}

impl<'a> Read for Pieces<'a> {
    fn read(&mut self, buf: &mut [u8]) -> io::Result<usize> {
        self.interrupted = !self.interrupted;
        if self.interrupted {
            return Err(io::Error::from(ErrorKind::Interrupted));
        }
        if self.text.is_empty() && self.fails {
            return Err(io::Error::from(ErrorKind::NotFound));
        }
        let count = self.size.min(buf.len()).min(self.text.len());
        let (piece, rest) = self.text.split_at(count);
        buf[..count].copy_from_slice(piece);
        self.text = rest;
        Ok(count)
    }
}

// The log of a text in such pieces.
fn read<'a>(
    alloc: Global,
    text: &'a [u8],
    size: usize,
    format: Format<'_>,
    strict: bool,
    fails: bool,
) -> Result<Log, LogFault> {
    let pieces = Pieces {
        text,
        size,
        interrupted: false,
        fails,
    };
    read_log(alloc, pieces, format, strict)
}

// Pieces of all sizes below the bound make no difference to a log, nor does it to be strict where all can be read.
fn expect_pieces(
    rt: &impl Abort,
    alloc: Global,
    text: &[u8],
    sizes: usize,
    format: Format<'_>,
    wanted: Report<'_>,
) {
    let strict = wanted.unreadable == 0;
    for size in 1..sizes {
        let log = read(alloc, text, size, format, strict, false);
        expect_log(rt, log, wanted);
    }
}

fn column(column: u32) -> Format<'static> {
    keys_in(Column::Number(column), false)
}

#[test]
fn pieces_make_no_difference(rt: HostRuntime) {
    let wanted = whole(&[0, 1, 0], 2).but(1, lacks(3, Field::Key));
    let lines = b"key\r\nother\n\r\nkey";
    expect_pieces(&rt, rt.alloc(), lines, 8, Format::Lines, wanted);
    let records = b"1,key\r\n2,other\r\n3\r\n4,\"key\"";
    expect_pieces(&rt, rt.alloc(), records, 8, column(1), wanted);
}

const DIGITS: &[u8; 10] = b"0123456789";

// Puts the line of a key behind a text: it has 40 bytes and its number, which is below 1000.
fn push_line(text: &mut Vec<u8>, number: u32) -> Result<(), AllocError> {
    text.resize(text.len().saturating_add(40), b'k')?;
    for place in [100, 10, 1] {
        text.push(DIGITS[(number / place % 10) as usize])?;
    }
    text.push(b'\n')?;
    Ok(())
}

// The lines of so many keys, at most 1000, twice. And their numbers.
fn keys_twice(alloc: Global, count: u32) -> Result<(Vec<u8>, Vec<u32>), AllocError> {
    let mut text = Vec::new(alloc);
    let mut numbers = Vec::new(alloc);
    for _ in 0..2 {
        for number in 0..count {
            push_line(&mut text, number)?;
            numbers.push(number)?;
        }
    }
    Ok((text, numbers))
}

// A reader that doesn't fail has no fault, nor do many keys, long lines or many pieces and interruptions make one.
#[test]
fn reader_that_never_fails_is_read_to_its_end(rt: HostRuntime) -> Result<(), Fail> {
    let (text, numbers) = keys_twice(rt.alloc(), 300)?;
    let wanted = whole(&numbers, 300);
    expect_pieces(&rt, rt.alloc(), &text, 4, Format::Lines, wanted);
    expect_pieces(&rt, rt.alloc(), &text, 4, column(0), wanted);
    Ok(())
}

// A reader that fails behind a text fails in the line or record of this number.
fn expect_failures(rt: &impl Abort, alloc: Global, format: Format<'_>, texts: &[(&str, u64)]) {
    for (text, number) in texts {
        let wanted = LogFault::Read {
            number: *number,
            cause: ErrorKind::NotFound,
        };
        let log = read(alloc, text.as_bytes(), 3, format, false, true);
        assert_eq!(rt; log.err(), Some(wanted));
    }
}

#[test]
fn reader_that_fails_gives_no_log(rt: HostRuntime) {
    let lines = [("", 1), ("a", 1), ("a\n", 2), ("a\nb\n", 3), ("a\nb\nc", 3)];
    expect_failures(&rt, rt.alloc(), Format::Lines, &lines);
    let records = [
        ("", 1),
        ("1,a\n2,b", 2),
        ("1,a\n2,b\n", 3),
        ("1,a\n\n\n2,b\n", 3),
    ];
    expect_failures(&rt, rt.alloc(), column(1), &records);
}

#[test]
fn what_is_read_of_a_borrowed_reader_is_gone(rt: HostRuntime) {
    let mut lines: &[u8] = b"a\nb\na\n";
    let log = read_log(rt.alloc(), &mut lines, Format::Lines, false);
    expect_log(&rt, log, whole(&[0, 1, 0], 2));
    assert!(rt; lines.is_empty());
}

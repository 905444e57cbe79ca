//! A key in each line.

use crate::reports::{Report, defect, expect, expect_readable, expect_refused, lacks, whole};
use access_logs::{Defect, Field, Format};
use std::alloc::{AllocError, Global};
use std::process::Abort;

const LINES: Format<'static> = Format::Lines;

#[test]
fn keys_are_numbered_as_they_come(rt: HostRuntime) {
    let wanted = whole(&[0, 1, 0, 2, 1], 3);
    expect(&rt, rt.alloc(), b"a\nb\na\nc\nb\n", LINES, wanted);
}

#[test]
fn last_line_needs_no_end(rt: HostRuntime) {
    expect(&rt, rt.alloc(), b"a\nb", LINES, whole(&[0, 1], 2));
    expect(&rt, rt.alloc(), b"a", LINES, whole(&[0], 1));
}

#[test]
fn empty_file_has_no_accesses(rt: HostRuntime) {
    expect(&rt, rt.alloc(), b"", LINES, whole(&[], 0));
    expect_readable(&rt, rt.alloc(), b"", LINES);
}

#[test]
fn one_key_comes_again_and_again(rt: HostRuntime) {
    expect(&rt, rt.alloc(), b"k\nk\nk", LINES, whole(&[0, 0, 0], 1));
}

#[test]
fn carriage_return_is_of_the_end_before_a_line_feed_only(rt: HostRuntime) {
    // The last line has one and no line feed behind it, so it is of the key. Of two the first is, too.
    let wanted = whole(&[0, 0, 1, 1], 2);
    expect(&rt, rt.alloc(), b"a\r\na\na\r\r\na\r", LINES, wanted);
    expect(&rt, rt.alloc(), b"\ra\na\n", LINES, whole(&[0, 1], 2));
}

#[test]
fn empty_lines_are_counted(rt: HostRuntime) {
    let wanted = whole(&[0, 0], 1).but(3, lacks(2, Field::Key));
    expect(&rt, rt.alloc(), b"a\n\n\r\na\n\n", LINES, wanted);
}

#[test]
fn strict_reading_stops_at_the_first_unreadable_line(rt: HostRuntime) {
    let first = lacks(3, Field::Key);
    expect_refused(&rt, rt.alloc(), b"a\nb\n\na\n\n", LINES, first);
    expect_readable(&rt, rt.alloc(), b"a\nb\na\n", LINES);
}

#[test]
fn bytes_need_not_be_text(rt: HostRuntime) {
    let text = b"\xff\xfe\n\x00\n\xff\n\xff\xfe\n\x00\n";
    expect(&rt, rt.alloc(), text, LINES, whole(&[0, 1, 2, 0, 1], 3));
}

#[test]
fn keys_that_begin_alike_are_two(rt: HostRuntime) {
    let wanted = whole(&[0, 1, 2, 3, 0], 4);
    expect(&rt, rt.alloc(), b"key\nkey \nke\nKey\nkey\n", LINES, wanted);
}

// A text with a line of so many bytes and this end between two short ones.
fn long_text(alloc: Global, length: usize, end: &str) -> Result<Vec<u8>, AllocError> {
    let mut text = Vec::new(alloc);
    text.extend_from_slice(b"a\n")?;
    text.resize(text.len().saturating_add(length), b'x')?;
    text.extend_from_slice(end.as_bytes())?;
    text.extend_from_slice(b"a\n")?;
    Ok(text)
}

// Texts with such lines have this log.
fn expect_long(rt: &impl Abort, alloc: Global, lines: &[(usize, &str)], wanted: Report<'_>) {
    for (length, end) in lines {
        let text = long_text(alloc, *length, end).expect(rt, "there is memory");
        expect(rt, alloc, &text, LINES, wanted);
    }
}

const KEYS: [(usize, &str); 4] = [
    (8192, "\n"),
    (65_535, "\r\n"),
    (65_536, "\n"),
    (65_536, "\r\n"),
];

const TOO_LONG: [(usize, &str); 5] = [
    (65_537, "\n"),
    (65_537, "\r\n"),
    (65_538, "\n"),
    (65_539, "\n"),
    (65_540, "\r\n"),
];

// The long line can't be read, and the one behind it can.
fn too_long() -> Report<'static> {
    whole(&[0, 0], 1).but(1, defect(2, Defect::TooLong))
}

#[test]
fn key_has_65536_bytes_at_most(rt: HostRuntime) {
    expect_long(&rt, rt.alloc(), &KEYS, whole(&[0, 1, 0], 2));
    expect_long(&rt, rt.alloc(), &TOO_LONG, too_long());
}

#[test]
fn line_of_a_megabyte_is_passed_over(rt: HostRuntime) {
    expect_long(&rt, rt.alloc(), &[(1_000_000, "\n")], too_long());
}

//! A key in a column of CSV.

use crate::reports::{
    Report, defect, expect, expect_readable, expect_refused, keys_in, lacks, whole,
};
use access_logs::{Column, Defect, Field, Format};
use std::alloc::{AllocError, Global};
use std::process::Abort;

fn column(column: u32) -> Format<'static> {
    keys_in(Column::Number(column), false)
}

fn under_header(column: u32) -> Format<'static> {
    keys_in(Column::Number(column), true)
}

#[test]
fn keys_are_of_the_column(rt: HostRuntime) {
    let text = b"1,a,x\n2,b,x\n3,a,y\n";
    expect(&rt, rt.alloc(), text, column(1), whole(&[0, 1, 0], 2));
    expect(&rt, rt.alloc(), text, column(0), whole(&[0, 1, 2], 3));
    expect(&rt, rt.alloc(), text, column(2), whole(&[0, 0, 1], 2));
}

#[test]
fn header_has_no_key(rt: HostRuntime) {
    let alloc = rt.alloc();
    let text = b"key,size\na,1\nkey,1\na,2";
    expect(&rt, alloc, text, under_header(0), whole(&[0, 1, 0], 2));
    let text = b"key\na\nkey\na";
    expect(&rt, alloc, text, column(0), whole(&[0, 1, 0, 1], 2));
    expect(&rt, alloc, b"key,size\n", under_header(0), whole(&[], 0));
    expect(&rt, alloc, b"", under_header(0), whole(&[], 0));
}

#[test]
fn header_is_record_1(rt: HostRuntime) {
    let first = lacks(3, Field::Key);
    let text = b"n,key\n1,a\n2\n3,a\n";
    let wanted = whole(&[0, 0], 1).but(1, first);
    expect(&rt, rt.alloc(), text, under_header(1), wanted);
    expect_refused(&rt, rt.alloc(), text, under_header(1), first);
    // A header without the column is a header all the same.
    expect_readable(&rt, rt.alloc(), b"n\n1,a\n", under_header(1));
}

#[test]
fn short_record_and_empty_field_are_counted(rt: HostRuntime) {
    let first = lacks(2, Field::Key);
    let text = b"1,a\n2\n3,b\n4,\n5,\"\"\n6,a,more\n";
    let wanted = whole(&[0, 1, 0], 2).but(3, first);
    expect(&rt, rt.alloc(), text, column(1), wanted);
    expect_refused(&rt, rt.alloc(), text, column(1), first);
}

#[test]
fn quotes_are_of_no_key(rt: HostRuntime) {
    let text = b"\"a\"\r\na\r\n\"a,b\"\r\n\"a\nb\"\r\n\"a\"\"b\"\r\n\"a,b\"\r\n";
    let wanted = whole(&[0, 0, 1, 2, 3, 1], 4);
    expect(&rt, rt.alloc(), text, column(0), wanted);
}

#[test]
fn quote_that_is_never_closed_makes_its_record_unreadable(rt: HostRuntime) {
    let first = defect(2, Defect::TooLong);
    for text in [
        "a,1\n\"b,1\na,1\na,1\n",
        "a,1\nb,\"1\na,1\na,1\n",
        "a,1\nb,1,x,\"\na,1\na,1\n",
        "a\n\"",
    ] {
        let wanted = whole(&[0], 1).but(1, first);
        expect(&rt, rt.alloc(), text.as_bytes(), column(0), wanted);
        expect_refused(&rt, rt.alloc(), text.as_bytes(), column(0), first);
    }
}

#[test]
fn quote_that_is_closed_at_the_end_is_read(rt: HostRuntime) {
    expect_readable(&rt, rt.alloc(), b"a\n\"b\na\"", column(0));
    expect_readable(&rt, rt.alloc(), b"a\n\"b\na\"\r", column(0));
    let text = b"a\n\"b\n\"";
    expect(&rt, rt.alloc(), text, column(0), whole(&[0, 1], 2));
}

// A text of a record with fields of so many bytes between two short ones.
fn long_text(alloc: Global, lengths: &[usize]) -> Result<Vec<u8>, AllocError> {
    let mut text = Vec::new(alloc);
    text.extend_from_slice(b"a\n")?;
    for length in lengths {
        text.resize(text.len().saturating_add(*length), b'x')?;
        text.push(b',')?;
    }
    text.extend_from_slice(b"\na\n")?;
    Ok(text)
}

// Texts of such records have this log.
fn expect_long(rt: &impl Abort, alloc: Global, records: &[[usize; 2]], wanted: Report<'_>) {
    for lengths in records {
        let text = long_text(alloc, lengths).expect(rt, "there is memory");
        expect(rt, alloc, &text, column(0), wanted);
    }
}

#[test]
fn fields_have_65536_bytes_at_most_in_all(rt: HostRuntime) {
    let long = [[65_536, 0], [1, 65_535], [30_000, 35_536]];
    expect_long(&rt, rt.alloc(), &long, whole(&[0, 1, 0], 2));
    let longer = [[65_537, 0], [1, 65_536], [30_000, 35_537], [1, 1_000_000]];
    let wanted = whole(&[0, 0], 1).but(1, defect(2, Defect::TooLong));
    expect_long(&rt, rt.alloc(), &longer, wanted);
}

#[test]
fn empty_lines_are_no_records(rt: HostRuntime) {
    let text = b"a\n\n\nb\n\n";
    expect(&rt, rt.alloc(), text, column(0), whole(&[0, 1], 2));
}

#[test]
fn field_need_not_be_text(rt: HostRuntime) {
    let text = b"\xff,1\n\xfe,1\n\xff,1\n";
    expect(&rt, rt.alloc(), text, column(0), whole(&[0, 1, 0], 2));
}

#[test]
fn column_beyond_all_records_reads_none(rt: HostRuntime) {
    let wanted = whole(&[], 0).but(2, lacks(1, Field::Key));
    expect(&rt, rt.alloc(), b"a\nb\n", column(4_294_967_295), wanted);
}

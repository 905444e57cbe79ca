//! Times in a column of CSV.

use crate::reports::{Report, expect, expect_first_lacking, expect_readable, lacks, whole};
use access_logs::{Column, Field, Format};

// The time is the first field, the key the second, and the size the third.
const TIMED: Format<'static> = Format::Csv {
    key: Column::Number(1),
    header: false,
    size: Some(Column::Number(2)),
    time: Some(Column::Number(0)),
    operation: None,
    ttl: None,
};

// The key is the first field, and the time the second. There are no sizes.
const KEY_AND_TIME: Format<'static> = Format::Csv {
    key: Column::Number(0),
    header: false,
    size: None,
    time: Some(Column::Number(1)),
    operation: None,
    ttl: None,
};

#[test]
fn times_are_of_their_column(rt: HostRuntime) {
    let wanted = Report {
        sizes: &[100, 0, 7],
        times: &[7, 5, 6],
        ..whole(&[0, 1, 0], 2)
    };
    let text = b"7,a,100\n5,b,0\n\"6\",a,7,x\n";
    expect(&rt, rt.alloc(), text, TIMED, wanted);
    let wanted = Report {
        times: &[3, 2],
        ..whole(&[0, 1], 2)
    };
    expect(&rt, rt.alloc(), b"a,3\nb,2\n", KEY_AND_TIME, wanted);
}

#[test]
fn time_has_64_bits_with_zeros_or_a_plus_before_it(rt: HostRuntime) {
    let wanted = Report {
        times: &[18_446_744_073_709_551_615, 7, 8, 4_294_967_296],
        ..whole(&[0, 0, 0, 0], 1)
    };
    let text = b"a,18446744073709551615\na,00000000000000000000007\na,+8\na,4294967296\n";
    expect(&rt, rt.alloc(), text, KEY_AND_TIME, wanted);
}

#[test]
fn record_with_no_time_is_counted_and_its_key_is_not(rt: HostRuntime) {
    let wanted = Report {
        times: &[1, 2, 3],
        ..whole(&[0, 1, 0], 2).but(6, lacks(2, Field::Time))
    };
    let text = b"a,1\nx\ny,\nz,noon\nz,-1\nz,1.5\nz,18446744073709551616\nb,2\na,3\n";
    expect(&rt, rt.alloc(), text, KEY_AND_TIME, wanted);
}

const FIRST_FIELDS: [(&str, Field); 5] = [
    ("now,,big\n", Field::Key),
    (",,\n", Field::Key),
    ("now,a,big\n", Field::Size),
    (",a\n", Field::Size),
    ("now,a,1\n", Field::Time),
];

#[test]
fn what_is_told_is_the_key_then_the_size_then_the_time(rt: HostRuntime) {
    expect_first_lacking(&rt, rt.alloc(), TIMED, &FIRST_FIELDS);
    expect_readable(&rt, rt.alloc(), b"1,a,2\n", TIMED);
}

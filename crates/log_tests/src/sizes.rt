//! Sizes in a column of CSV.

use crate::reports::{Report, expect, expect_readable, expect_refused, lacks, whole};
use access_logs::{Column, Field, Format};

// The key is the first field, and the size the second.
const SIZED: Format<'static> = Format::Csv {
    key: Column::Number(0),
    header: false,
    size: Some(Column::Number(1)),
    time: None,
    operation: None,
    ttl: None,
};

#[test]
fn sizes_are_of_their_column(rt: HostRuntime) {
    let wanted = Report {
        sizes: &[100, 0, 7],
        ..whole(&[0, 1, 0], 2)
    };
    expect(&rt, rt.alloc(), b"a,100\nb,0\na,\"7\",x\n", SIZED, wanted);
}

#[test]
fn size_has_32_bits_with_zeros_or_a_plus_before_it(rt: HostRuntime) {
    let wanted = Report {
        sizes: &[4_294_967_295, 7, 8],
        ..whole(&[0, 0, 0], 1)
    };
    let text = b"a,4294967295\na,0000000000007\na,+8\n";
    expect(&rt, rt.alloc(), text, SIZED, wanted);
}

#[test]
fn record_with_no_size_is_counted_and_its_key_is_not(rt: HostRuntime) {
    let wanted = Report {
        sizes: &[1, 2, 3],
        ..whole(&[0, 1, 0], 2).but(8, lacks(2, Field::Size))
    };
    let text = b"a,1\nx\ny,\nz,big\nz,-1\nz, 1\nz,1.5\nz,4294967296\nz,\xff\nb,2\na,3\n";
    expect(&rt, rt.alloc(), text, SIZED, wanted);
}

#[test]
fn strict_reading_stops_at_the_first_record_with_no_size(rt: HostRuntime) {
    let first = lacks(3, Field::Size);
    expect_refused(&rt, rt.alloc(), b"a,1\nb,2\na,two\na,\n", SIZED, first);
    expect_readable(&rt, rt.alloc(), b"a,1\nb,2\n", SIZED);
}

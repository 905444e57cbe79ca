//! Columns of CSV by their names in a header.

use crate::reports::{Report, expect, expect_fault, expect_refused, keys_in, lacks, whole};
use access_logs::{Column, Field, Format, LogFault, Operation};
use std::alloc::Global;
use std::process::Abort;

// The key, size, time, operation and ttl are in the columns of these names, though no header is said.
const ALL_NAMED: Format<'static> = Format::Csv {
    key: Column::Name("key"),
    header: false,
    size: Some(Column::Name("size")),
    time: Some(Column::Name("time")),
    operation: Some(Column::Name("op")),
    ttl: Some(Column::Name("ttl")),
};

// The key, size and time alone.
const NAMED: Format<'static> = Format::Csv {
    key: Column::Name("key"),
    header: false,
    size: Some(Column::Name("size")),
    time: Some(Column::Name("time")),
    operation: None,
    ttl: None,
};

// The key alone, in the column of this name.
fn key_alone(name: &str) -> Format<'_> {
    keys_in(Column::Name(name), false)
}

#[test]
fn columns_are_those_of_their_names(rt: HostRuntime) {
    let wanted = Report {
        sizes: &[1, 2, 1],
        times: &[7, 8, 9],
        ..whole(&[0, 1, 0], 2)
    };
    let text = b"time,key,size\n7,a,1\n8,b,2\n9,a,1\n";
    expect(&rt, rt.alloc(), text, NAMED, wanted);
    let wanted = Report {
        sizes: &[1],
        times: &[7],
        ..whole(&[0], 1)
    };
    let text = b"\"size\",x,time,\"key\"\r\n1,x,7,a\r\n";
    expect(&rt, rt.alloc(), text, NAMED, wanted);
}

#[test]
fn names_and_numbers_go_together(rt: HostRuntime) {
    let format = Format::Csv {
        key: Column::Number(0),
        header: false,
        size: Some(Column::Name("size")),
        time: Some(Column::Number(1)),
        operation: None,
        ttl: None,
    };
    let wanted = Report {
        sizes: &[1, 2],
        times: &[7, 8],
        ..whole(&[0, 1], 2)
    };
    let text = b"id,at,size\na,7,1\nb,8,2\n";
    expect(&rt, rt.alloc(), text, format, wanted);
}

#[test]
fn first_field_of_the_name_is_taken(rt: HostRuntime) {
    let text = b"n,key,key\n1,a,x\n2,b,x\n";
    expect(&rt, rt.alloc(), text, key_alone("key"), whole(&[0, 1], 2));
}

// The first name that a text lacks of a format is told.
fn expect_lacking(
    rt: &impl Abort,
    alloc: Global,
    format: Format<'_>,
    strict: bool,
    texts: &[(&str, Field)],
) {
    for (text, field) in texts {
        let fault = Some(LogFault::NoColumn(*field));
        expect_fault(rt, alloc, text.as_bytes(), format, strict, fault);
    }
}

#[test]
fn names_are_equal_byte_for_byte(rt: HostRuntime) {
    for name in ["Key", " key", "ke", "key2", ""] {
        let lacking = [("n,key\n1,a\n", Field::Key)];
        expect_lacking(&rt, rt.alloc(), key_alone(name), false, &lacking);
    }
    for (text, name) in [("n,,x\n1,a,y\n", ""), ("n,Schlüssel\n1,a\n", "Schlüssel")] {
        expect(
            &rt,
            rt.alloc(),
            text.as_bytes(),
            key_alone(name),
            whole(&[0], 1),
        );
    }
}

#[test]
fn byte_order_mark_is_of_no_name(rt: HostRuntime) {
    let text = b"\xef\xbb\xbfkey,n\na,1\n";
    expect(&rt, rt.alloc(), text, key_alone("key"), whole(&[0], 1));
}

const LACKING: [(&str, Field); 6] = [
    ("", Field::Key),
    ("\n\n", Field::Key),
    ("a,b\nkey,size,time\n", Field::Key),
    ("key\n", Field::Size),
    ("key,time\na,7\n", Field::Size),
    ("size,key\n1,a\n", Field::Time),
];

#[test]
fn first_name_that_lacks_is_told(rt: HostRuntime) {
    expect_lacking(&rt, rt.alloc(), NAMED, false, &LACKING);
    expect_lacking(&rt, rt.alloc(), NAMED, true, &LACKING);
    expect(&rt, rt.alloc(), b"time,size,key\n", NAMED, whole(&[], 0));
}

const LACKING_OF_ALL: [(&str, Field); 5] = [
    ("ttl,op,time,size\n", Field::Key),
    ("key\n", Field::Size),
    ("key,size,ttl\n", Field::Time),
    ("key,size,time\n1,2,3\n", Field::Operation),
    ("key,size,time,op,TTL\n", Field::Ttl),
];

#[test]
fn operation_and_ttl_are_those_of_their_names(rt: HostRuntime) {
    let wanted = Report {
        sizes: &[1, 2],
        times: &[7, 8],
        operations: &[Operation::Set, Operation::Get],
        ttls: &[9, 0],
        ..whole(&[0, 1], 2)
    };
    let text = b"ttl,op,time,key,size\n9,set,7,a,1\n0,get,8,b,2\n";
    expect(&rt, rt.alloc(), text, ALL_NAMED, wanted);
    expect_lacking(&rt, rt.alloc(), ALL_NAMED, false, &LACKING_OF_ALL);
}

#[test]
fn header_of_names_is_record_1(rt: HostRuntime) {
    let first = lacks(3, Field::Key);
    let wanted = whole(&[0, 0], 1).but(1, first);
    let text = b"n,key\n1,a\n2\n3,a\n";
    expect(&rt, rt.alloc(), text, key_alone("key"), wanted);
    expect_refused(&rt, rt.alloc(), text, key_alone("key"), first);
}

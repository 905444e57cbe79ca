//! Operations, and how long what is put lasts, in columns of CSV.

use crate::reports::{Report, expect, expect_first_lacking, expect_readable, lacks, whole};
use access_logs::{Column, Field, Format, Operation};

// As Twitter's logs are: time, key, key size, value size, client, operation, ttl.
const OF_TWITTER: Format<'static> = Format::Csv {
    key: Column::Number(1),
    header: false,
    size: Some(Column::Number(3)),
    time: Some(Column::Number(0)),
    operation: Some(Column::Number(5)),
    ttl: Some(Column::Number(6)),
};

// The key is the first field, and the operation the second.
const KEY_AND_OPERATION: Format<'static> = Format::Csv {
    key: Column::Number(0),
    header: false,
    size: None,
    time: None,
    operation: Some(Column::Number(1)),
    ttl: None,
};

// The key is the first field, and how long it lasts the second.
const KEY_AND_TTL: Format<'static> = Format::Csv {
    key: Column::Number(0),
    header: false,
    size: None,
    time: None,
    operation: None,
    ttl: Some(Column::Number(1)),
};

#[test]
fn operations_and_ttls_are_of_their_columns(rt: HostRuntime) {
    let wanted = Report {
        sizes: &[100, 20, 100],
        times: &[0, 1, 2],
        operations: &[Operation::Get, Operation::Set, Operation::Delete],
        ttls: &[0, 3_600, 0],
        ..whole(&[0, 1, 0], 2)
    };
    let text = b"0,a,4,100,7,get,0\n1,b,4,20,7,set,3600\n2,a,4,100,8,delete,0\n";
    expect(&rt, rt.alloc(), text, OF_TWITTER, wanted);
}

const WORDS: [(&str, Operation); 15] = [
    ("a,get", Operation::Get),
    ("a,gets", Operation::Get),
    ("a,set", Operation::Set),
    ("a,add", Operation::Set),
    ("a,replace", Operation::Set),
    ("a,cas", Operation::Set),
    ("a,append", Operation::Set),
    ("a,prepend", Operation::Set),
    ("a,delete", Operation::Delete),
    ("a,incr", Operation::Other),
    ("a,decr", Operation::Other),
    ("a,GET", Operation::Other),
    ("a, get", Operation::Other),
    ("a,getss", Operation::Other),
    ("a,", Operation::Other),
];

#[test]
fn words_are_those_of_memcached_and_any_other_word_is_one(rt: HostRuntime) {
    for (text, operation) in &WORDS {
        let wanted = Report {
            operations: &[*operation],
            ..whole(&[0], 1)
        };
        expect(&rt, rt.alloc(), text.as_bytes(), KEY_AND_OPERATION, wanted);
    }
}

#[test]
fn record_with_no_operation_is_counted_and_its_key_is_not(rt: HostRuntime) {
    let wanted = Report {
        operations: &[Operation::Get, Operation::Set, Operation::Other],
        ..whole(&[0, 1, 0], 2).but(1, lacks(2, Field::Operation))
    };
    let text = b"a,get\nx\nb,set\na,\n";
    expect(&rt, rt.alloc(), text, KEY_AND_OPERATION, wanted);
}

#[test]
fn ttl_has_64_bits_with_zeros_or_a_plus_before_it(rt: HostRuntime) {
    let wanted = Report {
        ttls: &[18_446_744_073_709_551_615, 7, 8, 4_294_967_296],
        ..whole(&[0, 0, 0, 0], 1)
    };
    let text = b"a,18446744073709551615\na,00000000000000000000007\na,+8\na,4294967296\n";
    expect(&rt, rt.alloc(), text, KEY_AND_TTL, wanted);
}

#[test]
fn record_with_no_ttl_is_counted_and_its_key_is_not(rt: HostRuntime) {
    let wanted = Report {
        ttls: &[1, 2, 3],
        ..whole(&[0, 1, 0], 2).but(5, lacks(2, Field::Ttl))
    };
    let text = b"a,1\nx\ny,\nz,long\nz,-1\nz,18446744073709551616\nb,2\na,3\n";
    expect(&rt, rt.alloc(), text, KEY_AND_TTL, wanted);
}

const FIRST_FIELDS: [(&str, Field); 6] = [
    ("now,,4,big\n", Field::Key),
    ("now,a,4,big\n", Field::Size),
    ("now,a,4,1\n", Field::Time),
    ("1,a,4,1,7\n", Field::Operation),
    ("1,a,4,1,7,get\n", Field::Ttl),
    ("1,a,4,1,7,get,long\n", Field::Ttl),
];

#[test]
fn what_is_told_is_the_first_field_that_cannot_be_read(rt: HostRuntime) {
    expect_first_lacking(&rt, rt.alloc(), OF_TWITTER, &FIRST_FIELDS);
    expect_readable(&rt, rt.alloc(), b"1,a,4,1,7,incr,0\n", OF_TWITTER);
}

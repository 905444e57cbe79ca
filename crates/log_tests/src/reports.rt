//! What is expected of a log. It is read and compared here, once, and not in each test.

use access_logs::{Column, Defect, Field, Format, Log, LogFault, Operation, Unreadable, read_log};
use std::alloc::Global;
use std::process::Abort;

/// What a log has to be.
#[derive(Clone, Copy, Debug, PartialEq)]
pub struct Report<'a> {
    /// The accesses, and how many keys there are.
    pub accesses: &'a [u32],
    pub keys: u32,

    /// How many lines or records can't be read, and the first of these.
    pub unreadable: u64,
    pub first: Option<Unreadable>,

    /// What the accesses have in the format's columns.
    pub sizes: &'a [u32],
    pub times: &'a [u64],
    pub operations: &'a [Operation],
    pub ttls: &'a [u64],
}

/// A log of keys alone, in which all can be read.
pub fn whole<'a>(accesses: &'a [u32], keys: u32) -> Report<'a> {
    Report {
        accesses,
        keys,
        unreadable: 0,
        first: None,
        sizes: &[],
        times: &[],
        operations: &[],
        ttls: &[],
    }
}

/// A line or record of this number that can't be read.
pub fn defect(number: u64, defect: Defect) -> Unreadable {
    Unreadable { number, defect }
}

/// One that has no such field.
pub fn lacks(number: u64, field: Field) -> Unreadable {
    defect(number, Defect::Lacks(field))
}

impl<'a> Report<'a> {
    /// The same, but for so many lines or records that can't be read, of which this is the first.
    pub fn but(self, unreadable: u64, first: Unreadable) -> Report<'a> {
        Report {
            unreadable,
            first: Some(first),
            ..self
        }
    }
}

/// CSV with a key in this column alone.
pub fn keys_in(key: Column<'_>, header: bool) -> Format<'_> {
    Format::Csv {
        key,
        header,
        size: None,
        time: None,
        operation: None,
        ttl: None,
    }
}

// What a log is.
fn told(log: &Log) -> Report<'_> {
    Report {
        accesses: log.accesses.as_slice(),
        keys: log.keys,
        unreadable: log.unreadable,
        first: log.first_unreadable,
        sizes: log.sizes.as_slice(),
        times: log.times.as_slice(),
        operations: log.operations.as_slice(),
        ttls: log.ttls.as_slice(),
    }
}

/// The log is this one.
pub fn expect_log(rt: &impl Abort, log: Result<Log, LogFault>, wanted: Report<'_>) {
    match log {
        Ok(log) => assert_eq!(rt; told(&log), wanted),
        Err(fault) => panic!(rt; "it isn't read: {fault}"),
    }
}

/// The log of a text is this one.
pub fn expect(rt: &impl Abort, alloc: Global, text: &[u8], format: Format<'_>, wanted: Report<'_>) {
    expect_log(rt, read_log(alloc, text, format, false), wanted);
}

/// A text has no log, for this fault, or has one. With `strict`, all has to be readable.
pub fn expect_fault(
    rt: &impl Abort,
    alloc: Global,
    text: &[u8],
    format: Format<'_>,
    strict: bool,
    wanted: Option<LogFault>,
) {
    assert_eq!(rt; read_log(alloc, text, format, strict).err(), wanted);
}

/// Where all has to be readable, a text is refused for this line or record.
pub fn expect_refused(
    rt: &impl Abort,
    alloc: Global,
    text: &[u8],
    format: Format<'_>,
    first: Unreadable,
) {
    let wanted = Some(LogFault::Unreadable(first));
    expect_fault(rt, alloc, text, format, true, wanted);
}

/// Each text is refused for its first record, which lacks this field.
pub fn expect_first_lacking(
    rt: &impl Abort,
    alloc: Global,
    format: Format<'_>,
    texts: &[(&str, Field)],
) {
    for (text, field) in texts {
        expect_refused(rt, alloc, text.as_bytes(), format, lacks(1, *field));
    }
}

/// All of a text is readable.
pub fn expect_readable(rt: &impl Abort, alloc: Global, text: &[u8], format: Format<'_>) {
    expect_fault(rt, alloc, text, format, true, None);
}

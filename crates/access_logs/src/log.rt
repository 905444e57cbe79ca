//! What a log is, and why none is read.

use crate::operations::Operation;
use std::io::ErrorKind;
use thiserror::Error;

/// What a field of a line or record tells.
#[derive(Clone, Copy, Debug, PartialEq, Eq, Error)]
pub enum Field {
    /// The item's key.
    #[error("key")]
    Key,

    /// The item's size in bytes.
    #[error("size")]
    Size,

    /// The time of the access.
    #[error("time")]
    Time,

    /// What is asked for.
    #[error("operation")]
    Operation,

    /// How long what is put lasts.
    #[error("ttl")]
    Ttl,
}

/// Why a line or record can't be read.
#[derive(Clone, Copy, Debug, PartialEq, Eq, Error)]
pub enum Defect {
    /// It has more than 65,536 bytes. So has a record with a quote that is never closed.
    #[error("it has more than 65,536 bytes, or a quote that is never closed")]
    TooLong,

    /// It has no such field, or what is in it is none.
    #[error("it has no {0}")]
    Lacks(Field),
}

/// A line or record that can't be read.
#[derive(Clone, Copy, Debug, PartialEq, Eq, Error)]
#[error("line or record {number} can't be read: {defect}")]
pub struct Unreadable {
    /// Its number. Lines and records are counted from 1, and a header is record 1.
    pub number: u64,

    /// Why it can't be read.
    pub defect: Defect,
}

/// Why a log isn't read.
#[derive(Clone, Copy, Debug, PartialEq, Eq, Error)]
pub enum LogFault {
    /// The reader failed. An interrupted read is made again.
    #[error("line or record {number} can't be read: {cause}")]
    Read {
        /// The number of the line or record in which it failed, counted from 1.
        number: u64,

        /// How it failed.
        cause: ErrorKind,
    },

    /// The log has more lines or records than a `u64` counts.
    #[error("the log has too many lines")]
    TooManyLines,

    /// There was no memory.
    #[error("out of memory")]
    Memory,

    /// Strict only: the first line or record that can't be read.
    #[error("{0}")]
    Unreadable(Unreadable),

    /// More than 4,294,967,295 keys.
    #[error("the log has more than 4,294,967,295 keys")]
    TooManyKeys,

    /// The first record lacks the name of a column, or there is no record: the first of key, size, time, operation and ttl
    /// of which that is so.
    #[error("the first record doesn't name the column of the {0}")]
    NoColumn(Field),
}

/// An access log that was read.
#[derive(Drop, Debug)]
pub struct Log {
    /// The key of each access, in turn, by its number: 0, 1, 2.. in the order in which keys first come.
    pub accesses: Vec<u32>,

    /// The size of each access, in turn, in bytes, where the log's format has a column for it; else none.
    pub sizes: Vec<u32>,

    /// The time of each access, in turn, as the log tells it, where the log's format has a column for it; else none.
    pub times: Vec<u64>,

    /// What each access asks for, in turn, where the log's format has a column for it; else none.
    pub operations: Vec<Operation>,

    /// How long what each access puts lasts, in turn, as the log tells it, where the log's format has a column for it;
    /// else none.
    pub ttls: Vec<u64>,

    /// How many keys there are.
    pub keys: u32,

    /// How many lines or records couldn't be read.
    pub unreadable: u64,

    /// The first of these.
    pub first_unreadable: Option<Unreadable>,
}

/// A column of CSV.
#[derive(Clone, Copy, Debug, PartialEq, Eq)]
pub enum Column<'a> {
    /// The field of this number, counted from 0.
    Number(u32),

    /// The field of this name: the first field of the first record that is the name, byte for byte. The first record is a
    /// header then, whatever else is said.
    Name(&'a str),
}

/// What an access log looks like.
#[derive(Clone, Copy, Debug, PartialEq, Eq)]
pub enum Format<'a> {
    /// A key in each line: bytes, up to a line feed or the end. The line feed isn't of the key, and neither is a
    /// carriage return just before it. An empty line and one of more than 65,536 bytes can't be read.
    Lines,

    /// CSV, with a key in one field of each record: fields are parted by commas, and may stand in quotes. Records may have
    /// any number of fields, and an empty line is none. A record without the field, or with an empty one, can't be read,
    /// nor can one whose fields have more than 65,536 bytes in all. Nor can one with a quote that is never closed: it
    /// takes the rest of the text. A byte order mark at the start is passed over.
    Csv {
        /// The column of the key.
        key: Column<'a>,

        /// Whether the first record is a header: it always is where a column has a name. It is record 1 then, and has no
        /// key.
        header: bool,

        /// The column of the item's size in bytes, where the sizes are asked for. It has decimal digits, with leading
        /// zeros or a leading plus or not: 0 to 4,294,967,295. A record of which it is missing or anything else can't be
        /// read, and its key counts for nothing.
        size: Option<Column<'a>>,

        /// The column of the access's time, where the times are asked for. It has decimal digits as the size's: 0 to
        /// 18,446,744,073,709,551,615, in whatever unit the log has. A record of which it is missing or anything else
        /// can't be read, and its key counts for nothing. Where more than one field of a record can't be read, what is
        /// told is the first of key, size, time, operation and ttl.
        time: Option<Column<'a>>,

        /// The column of what is asked for, where the operations are asked for. Any field names one: `Operation` has the
        /// words. A record of which it is missing can't be read, and its key counts for nothing.
        operation: Option<Column<'a>>,

        /// The column of how long what is put lasts, where that is asked for. It has decimal digits as the time's. A
        /// record of which it is missing or anything else can't be read, and its key counts for nothing.
        ttl: Option<Column<'a>>,
    },
}

//! Columns of CSV, by their numbers or by their names in a header.

ghost use Rattle.std.specs.Prelude.{◌≡◌};
ghost use Rattle.csv.specs.Records.{fields_of};
ghost use Rattle.access_logs.specs.Columns.{is_name, may_be_name, has_name, place_of, column_in, asked_in, columns_in};

use crate::log::{Column, Field};
use csv::ByteRecord;

/// The columns that are asked for.
#[derive(Clone, Copy)]
pub struct AskedColumns<'a> {
    /// That of the key.
    pub key: Column<'a>,

    /// That of the size, where the sizes are asked for.
    pub size: Option<Column<'a>>,

    /// That of the time, where the times are asked for.
    pub time: Option<Column<'a>>,

    /// That of the operation, where the operations are asked for.
    pub operation: Option<Column<'a>>,

    /// That of how long what is put lasts, where that is asked for.
    pub ttl: Option<Column<'a>>,
}

/// The fields of a record that are read, counted from 0.
#[derive(Clone, Copy)]
pub struct Columns {
    /// The key.
    pub key: usize,

    /// The size, where the sizes are asked for.
    pub size: Option<usize>,

    /// The time, where the times are asked for.
    pub time: Option<usize>,

    /// The operation, where the operations are asked for.
    pub operation: Option<usize>,

    /// How long what is put lasts, where that is asked for.
    pub ttl: Option<usize>,
}

// Whether a column has a name.
fn is_name(column: Column<'_>) -> bool
    ensures { result ≡ is_name column.entry }
{
    match column {
        Column::Number(_) => false,
        Column::Name(_) => true,
    }
}

// Whether a column is asked for that has a name.
fn may_be_name(column: Option<Column<'_>>) -> bool
    ensures { result ≡ may_be_name column.entry }
{
    match column {
        Some(column) => is_name(column),
        None => false,
    }
}

/// Whether one of the columns has a name, which is in a header.
pub fn has_name(asked: AskedColumns<'_>) -> bool
    ensures { result ≡ has_name asked.entry }
{
    is_name(asked.key)
        || may_be_name(asked.size)
        || may_be_name(asked.time)
        || may_be_name(asked.operation)
        || may_be_name(asked.ttl)
}

// The place of the first field that is the name, byte for byte.
fn place_of(name: &str, header: &ByteRecord) -> Option<usize>
    ensures { result ≡ place_of name.now (fields_of header.now) }
{
    for place in 0..header.len() {
        let Some(field) = header.get(place) else {
            return None;
        };
        if name.as_bytes() == field {
            return Some(place);
        }
    }
    None
}

// The number of a column, where the header has it.
fn column_in(header: &ByteRecord, column: Column<'_>) -> Option<usize>
    ensures { result ≡ column_in (fields_of header.now) column.entry }
{
    match column {
        Column::Number(number) => Some(number as usize),
        Column::Name(name) => place_of(name, header),
    }
}

// The number of a column where it is asked for. Nothing only where the header lacks it.
fn asked_in(header: &ByteRecord, column: Option<Column<'_>>) -> Option<Option<usize>>
    ensures { result ≡ asked_in (fields_of header.now) column.entry }
{
    match column {
        Some(column) => match column_in(header, column) {
            Some(number) => Some(Some(number)),
            None => None,
        },
        None => Some(None),
    }
}

/// The numbers of the columns that are asked for: those with a name have the number of its place in the header. Where the
/// header lacks one, the first such of key, size, time, operation and ttl.
pub fn columns_in(header: &ByteRecord, asked: AskedColumns<'_>) -> Result<Columns, Field>
    ensures { result ≡ columns_in (fields_of header.now) asked.entry }
{
    let Some(key) = column_in(header, asked.key) else {
        return Err(Field::Key);
    };
    let Some(size) = asked_in(header, asked.size) else {
        return Err(Field::Size);
    };
    let Some(time) = asked_in(header, asked.time) else {
        return Err(Field::Time);
    };
    let Some(operation) = asked_in(header, asked.operation) else {
        return Err(Field::Operation);
    };
    let Some(ttl) = asked_in(header, asked.ttl) else {
        return Err(Field::Ttl);
    };
    Ok(Columns {
        key,
        size,
        time,
        operation,
        ttl,
    })
}

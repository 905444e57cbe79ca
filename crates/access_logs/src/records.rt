//! The records of a CSV text.

ghost use Rattle.std.specs.Prelude.{◌≡◌, ◌+◌, ◌-◌, ◌<◌, ◌^◌, ◌++◌, ◌∷◌, [], Bool, ℕ, List, true, false, length};
ghost use Rattle.std.specs.Prelude.{option_map, IfOk, IfErr, OnOk};
ghost use Rattle.csv.specs.Records.{fields_of};
ghost use Rattle.access_logs.specs.Drafts.{IsDraftOf};
ghost use Rattle.access_logs.specs.Entries.{RefusesLog, said_by};
ghost use Rattle.access_logs.specs.Lines.{IsReadOrMemory};
ghost use Rattle.access_logs.specs.Records.{key_of_record, size_of_record, time_of_record, operation_of_record, ttl_of_record, asked_size, asked_time, asked_operation, asked_ttl, is_long, entry_of_record, entries_from, first_record, padded_of, records_of, rows_left, IsPlain, ReadsRow};

use crate::columns::{AskedColumns, Columns, has_name};
use crate::drafts::Draft;
use crate::entries::{Entry, LogEntry};
use crate::lines::LONGEST_KEY;
use crate::log::{Defect, Field, LogFault};
use crate::numerals::{size_of_field, time_of_field, ttl_of_field};
use crate::operations::{Operation, operation_of};
use crate::padded::Padded;
use crate::patient::Patient;
use csv::{ByteRecord, ErrorKind, Reader, ReaderBuilder};
use std::alloc::Global;
use std::io::Read;

/// The number of the first record that has a key: a header is record 1, and there is one where a column has a name.
pub fn first_record(header: bool, asked: AskedColumns<'_>) -> u64
    ensures { result ≡ first_record header asked.entry }
{
    if header || has_name(asked) { 2 } else { 1 }
}

// The key of a record: the field in a column, counted from 0, where it has one that isn't empty.
fn key_of_record(row: &ByteRecord, column: usize) -> Option<&[u8]>
    ensures { option_map (λ key. key.now) result ≡ key_of_record column (fields_of row.now) }
{
    match row.get(column) {
        Some(field) => { if field.is_empty() { None } else { Some(field) } }
        None => None,
    }
}

// The size of a record: the number in a column, counted from 0, where it has one.
fn size_of_record(row: &ByteRecord, column: usize) -> Option<u32>
    ensures { result ≡ size_of_record column (fields_of row.now) }
{
    match row.get(column) {
        Some(field) => size_of_field(field),
        None => None,
    }
}

// The time of a record: the number in a column, counted from 0, where it has one.
fn time_of_record(row: &ByteRecord, column: usize) -> Option<u64>
    ensures { result ≡ time_of_record column (fields_of row.now) }
{
    match row.get(column) {
        Some(field) => time_of_field(field),
        None => None,
    }
}

// The operation of a record: what a column names, counted from 0, where it has one.
fn operation_of_record(row: &ByteRecord, column: usize) -> Option<Operation>
    ensures { result ≡ operation_of_record column (fields_of row.now) }
{
    match row.get(column) {
        Some(field) => Some(operation_of(field)),
        None => None,
    }
}

// How long what a record puts lasts: the number in a column, counted from 0, where it has one.
fn ttl_of_record(row: &ByteRecord, column: usize) -> Option<u64>
    ensures { result ≡ ttl_of_record column (fields_of row.now) }
{
    match row.get(column) {
        Some(field) => ttl_of_field(field),
        None => None,
    }
}

// The size of a record where it is asked for. Nothing only where the record doesn't tell it.
fn asked_size(row: &ByteRecord, column: Option<usize>) -> Option<Option<u32>>
    ensures { result ≡ asked_size column (fields_of row.now) }
{
    match column {
        Some(column) => match size_of_record(row, column) {
            Some(size) => Some(Some(size)),
            None => None,
        },
        None => Some(None),
    }
}

// The time of a record where it is asked for. Nothing only where the record doesn't tell it.
fn asked_time(row: &ByteRecord, column: Option<usize>) -> Option<Option<u64>>
    ensures { result ≡ asked_time column (fields_of row.now) }
{
    match column {
        Some(column) => match time_of_record(row, column) {
            Some(time) => Some(Some(time)),
            None => None,
        },
        None => Some(None),
    }
}

// The operation of a record where it is asked for. Nothing only where the record lacks the field.
fn asked_operation(row: &ByteRecord, column: Option<usize>) -> Option<Option<Operation>>
    ensures { result ≡ asked_operation column (fields_of row.now) }
{
    match column {
        Some(column) => match operation_of_record(row, column) {
            Some(operation) => Some(Some(operation)),
            None => None,
        },
        None => Some(None),
    }
}

// How long what a record puts lasts where that is asked for. Nothing only where the record doesn't tell it.
fn asked_ttl(row: &ByteRecord, column: Option<usize>) -> Option<Option<u64>>
    ensures { result ≡ asked_ttl column (fields_of row.now) }
{
    match column {
        Some(column) => match ttl_of_record(row, column) {
            Some(ttl) => Some(Some(ttl)),
            None => None,
        },
        None => Some(None),
    }
}

// Whether the fields of a record have too many bytes in all.
fn is_long(row: &ByteRecord) -> bool
    ensures { result ≡ is_long (fields_of row.now) }
{
    let mut room = LONGEST_KEY;
    for place in 0..row.len() {
        let Some(field) = row.get(place) else {
            return false;
        };
        if field.len() > room {
            return true;
        }
        room -= field.len();
    }
    false
}

// What a record says.
fn entry_of_record(row: &ByteRecord, columns: Columns) -> Entry<'_>
    ensures { said_by result ≡ entry_of_record columns (fields_of row.now) }
{
    if is_long(row) {
        return Entry::Unreadable(Defect::TooLong);
    }
    let Some(key) = key_of_record(row, columns.key) else {
        return Entry::Unreadable(Defect::Lacks(Field::Key));
    };
    let Some(size) = asked_size(row, columns.size) else {
        return Entry::Unreadable(Defect::Lacks(Field::Size));
    };
    let Some(time) = asked_time(row, columns.time) else {
        return Entry::Unreadable(Defect::Lacks(Field::Time));
    };
    let Some(operation) = asked_operation(row, columns.operation) else {
        return Entry::Unreadable(Defect::Lacks(Field::Operation));
    };
    let Some(ttl) = asked_ttl(row, columns.ttl) else {
        return Entry::Unreadable(Defect::Lacks(Field::Ttl));
    };
    Entry::Access(LogEntry {
        key,
        size,
        time,
        operation,
        ttl,
    })
}

/// The records of a text, with none read. Behind the text come line feeds: they are no records, but a quote that is never
/// closed takes them, so that its record is too long.
pub fn open_rows<R: Read + Drop>(alloc: Global, source: R) -> Reader<Padded<Patient<R>>>
    ensures plain { IsPlain result }
    ensures rows { rows_left (padded_of R.remaining) result ≡ option_map records_of (R.remaining source) }
{
    let padded = Padded::new(Patient::new(source), LONGEST_KEY + 1);
    ReaderBuilder::new()
        .has_headers(false)
        .flexible(true)
        .from_reader(alloc, padded)
}

/// Reads the next record, of this number. Whether there was one: else the record has no fields. The reader has to give a
/// header as any other record; where it takes records of any length, only itself and memory can fail.
pub fn read_row<R: Read>(
    rows: &mut Reader<R>,
    row: &mut ByteRecord,
    number: u64,
) -> Result<bool, LogFault>
    requires plain { IsPlain rows.old }
    ensures reads { IfOk result (λ found. ReadsRow (rows_left R.remaining rows.old) found (fields_of row.new) (rows_left R.remaining rows.new)) }
    ensures none { IfOk result (λ found. found ≡ false → fields_of row.new ≡ []) }
    ensures plain { IfOk result (λ found. found ≡ true → IsPlain rows.new) }
    ensures refusal { IfErr result (IsReadOrMemory number) }
{
    match rows.read_byte_record(row) {
        Ok(true) => Ok(true),
        Ok(false) => {
            row.clear();
            Ok(false)
        }
        Err(e) => Err(match e.kind() {
            ErrorKind::Io(e) => LogFault::Read {
                number,
                cause: e.kind(),
            },
            _ => LogFault::Memory,
        }),
    }
}

/// One more record, with its number. One before the first that has a key is passed over.
pub fn take_record(
    draft: &mut Draft,
    row: &ByteRecord,
    columns: Columns,
    number: u64,
    first: u64,
) -> Result<(), LogFault>
    requires few { draft.old.unreadable < 2 ^ 64 - 1 }
    requires first { 0 < first }
    ensures taken { (strict : Bool) (seen : List (List (List ℕ)))
        → IsDraftOf strict first (entries_from first columns seen) draft.old
        → number ≡ 1 + length seen → OnOk result (IsDraftOf strict first (entries_from first columns (seen ++ fields_of row.now ∷ [])) draft.new) }
    ensures refusal { (strict : Bool) (seen : List (List (List ℕ)))
        → IsDraftOf strict first (entries_from first columns seen) draft.old
        → number ≡ 1 + length seen → IfErr result (RefusesLog strict first (entries_from first columns (seen ++ fields_of row.now ∷ []))) }
{
    if number < first {
        return Ok(());
    }
    draft.take(entry_of_record(row, columns), number)
}

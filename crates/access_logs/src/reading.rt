//! A log from a reader.

ghost use Rattle.std.specs.Prelude.{◌≡◌, ◌<◌, List, [], ◌∷◌, ℕ, true, false, None, Ok, All, length, IfOk, IfErr, IfSome, OnOk};
ghost use Rattle.std.specs.Result.{result_err};
ghost use Rattle.access_logs.specs.Columns.{columns_in};
ghost use Rattle.access_logs.specs.Drafts.{IsLogOf};
ghost use Rattle.access_logs.specs.Entries.{Said, keys_in, sizes_in, times_in, operations_in, ttls_in, unreadable_in, first_unreadable_in, RefusesLog};
ghost use Rattle.access_logs.specs.Formats.{entries_of, lacking, first_number, has_sizes, has_times, has_operations, has_ttls, Refuses};
ghost use Rattle.access_logs.specs.Keys.{distinct, numbers_of};
ghost use Rattle.access_logs.specs.Lines.{entries_of_lines};
ghost use Rattle.access_logs.specs.Records.{entries_of_records, entries_from, first_record, header_of, columns_of, rows_left, IsLogOfRows, IsPlain, RefusesBy, RefusesRecords};
ghost use Rattle.csv.specs.Records.{fields_of};

use crate::columns::{AskedColumns, Columns, columns_in};
use crate::drafts::Draft;
use crate::lines::{entry_of_line, read_line};
use crate::log::{Format, Log, LogFault};
use crate::records::{first_record, open_rows, read_row, take_record};
use csv::{ByteRecord, Reader};
use std::alloc::Global;
use std::io::{BufReader, Read};

// How many bytes are read at a time: enough that a log's lines are seldom cut.
const READ_SIZE: usize = 1_048_576;

/// The log of a reader's lines.
pub fn read_lines<R: Read + Drop>(alloc: Global, source: R, strict: bool) -> Result<Log, LogFault>
    ensures any { IfOk result (λ log. (entries : List Said) × IsLogOf strict 1 entries log
        × (sizes_in entries ≡ []) × (times_in entries ≡ []) × (operations_in entries ≡ []) × (ttls_in entries ≡ [])) }
    ensures lines { IfSome (R.remaining source) (λ bytes. IfOk result (IsLogOf strict 1 (entries_of_lines bytes))) }
    ensures refusal { IfSome (R.remaining source) (λ bytes.
        IfErr result (RefusesLog strict 1 (entries_of_lines bytes))) }
{
    let mut lines = match BufReader::with_capacity(alloc, READ_SIZE, source) {
        Ok(lines) => lines,
        Err(_) => return Err(LogFault::Memory),
    };
    let mut line = Vec::new(alloc);
    let mut draft = Draft::new(alloc, strict);
    for number in 1..u64::MAX {
        read_line(&mut lines, &mut line, number)?;
        if line.is_empty() {
            return Ok(draft.finish());
        }
        draft.take(entry_of_line(&line), number)?;
    }
    Err(LogFault::TooManyLines)
}

// The log of a first record, and of those that a reader has left behind it.
fn read_behind<R: Read>(
    alloc: Global,
    rows: &mut Reader<R>,
    row: &mut ByteRecord,
    columns: Columns,
    first: u64,
    strict: bool,
) -> Result<Log, LogFault>
    requires plain { IsPlain rows.old }
    requires first { 0 < first }
    ensures log { IfOk result (λ log. (rest : List (List (List ℕ)))
        × IsLogOf strict first (entries_from first columns (fields_of row.old ∷ rest)) log
        × IfSome (rows_left R.remaining rows.old) (λ left. left ≡ rest)) }
    ensures refusal { IfErr result (λ why. IfSome (rows_left R.remaining rows.old) (λ left.
        RefusesLog strict first (entries_from first columns (fields_of row.old ∷ left)) why)) }
{
    let mut draft = Draft::new(alloc, strict);
    take_record(&mut draft, row, columns, 1, first)?;
    for number in 2..u64::MAX {
        if !read_row(rows, row, number)? {
            return Ok(draft.finish());
        }
        take_record(&mut draft, row, columns, number, first)?;
    }
    Err(LogFault::TooManyLines)
}

// The log of the records that a reader has left, with the columns that are asked for of the first.
fn read_rows<R: Read>(
    alloc: Global,
    rows: &mut Reader<R>,
    asked: AskedColumns<'_>,
    first: u64,
    strict: bool,
) -> Result<Log, LogFault>
    requires plain { IsPlain rows.old }
    requires first { 0 < first }
    ensures log { IfOk result (IsLogOfRows strict first asked.entry (rows_left R.remaining rows.old)) }
    ensures refusal { IfErr result (λ why. IfSome (rows_left R.remaining rows.old) (λ left.
        RefusesBy strict first (columns_in (header_of left) asked.entry) left why)) }
{
    let mut row = ByteRecord::new(alloc);
    let found = read_row(rows, &mut row, 1)?;
    let columns = match columns_in(&row, asked) {
        Ok(columns) => columns,
        Err(lacking) => return Err(LogFault::NoColumn(lacking)),
    };
    if !found {
        return Ok(Draft::new(alloc, strict).finish());
    }
    read_behind(alloc, rows, &mut row, columns, first, strict)
}

/// The log of a reader's CSV records, with the columns of each. With a header the first has no key. `NoColumn` where the
/// first lacks the name of a column, or there is none.
pub fn read_records<R: Read + Drop>(
    alloc: Global,
    source: R,
    asked: AskedColumns<'_>,
    header: bool,
    strict: bool,
) -> Result<Log, LogFault>
    ensures any { IfOk result (λ log. (rows : List (List (List ℕ))) × (columns : Columns)
        × (columns_in (header_of rows) asked.entry ≡ Ok columns)
        × IsLogOf strict (first_record header asked.entry) (entries_from (first_record header asked.entry) columns rows) log) }
    ensures records { IfSome (R.remaining source) (λ bytes.
        IfOk result (IsLogOf strict (first_record header asked.entry) (entries_of_records asked.entry header bytes))) }
    ensures columns { IfSome (R.remaining source) (λ bytes. OnOk result (result_err (columns_of asked.entry bytes) ≡ None)) }
    ensures refusal { IfSome (R.remaining source) (λ bytes. IfErr result (RefusesRecords strict asked.entry header bytes)) }
{
    let mut rows = open_rows(alloc, source);
    read_rows(alloc, &mut rows, asked, first_record(header, asked), strict)
}

/// The log that a reader gives. Where it is strict, each line or record has to be readable; else those that aren't are
/// counted and passed over. `Read` where the reader fails, with the line or record in which it does and how it fails,
/// `TooManyLines`, `Memory`, `Unreadable` with the first line or record that can't be read, only where it is strict,
/// `TooManyKeys` with more than 4,294,967,295 keys, and `NoColumn` where the first record lacks the name of a column, or
/// there is no record.
pub fn read_log<R: Read + Drop>(
    alloc: Global,
    source: R,
    format: Format<'_>,
    strict: bool,
) -> Result<Log, LogFault>
    // Where the reader's bytes are known.
    ensures accesses { IfSome (R.remaining source) (λ bytes.
        IfOk result (λ log. log.accesses.items ≡ numbers_of (keys_in (entries_of format.entry bytes)))) }
    ensures sizes { IfSome (R.remaining source) (λ bytes.
        IfOk result (λ log. log.sizes.items ≡ sizes_in (entries_of format.entry bytes))) }
    ensures times { IfSome (R.remaining source) (λ bytes.
        IfOk result (λ log. log.times.items ≡ times_in (entries_of format.entry bytes))) }
    ensures operations { IfSome (R.remaining source) (λ bytes.
        IfOk result (λ log. log.operations.items ≡ operations_in (entries_of format.entry bytes))) }
    ensures ttls { IfSome (R.remaining source) (λ bytes.
        IfOk result (λ log. log.ttls.items ≡ ttls_in (entries_of format.entry bytes))) }
    ensures keys { IfSome (R.remaining source) (λ bytes.
        IfOk result (λ log. log.keys ≡ length (distinct (keys_in (entries_of format.entry bytes))))) }
    ensures unreadable { IfSome (R.remaining source) (λ bytes.
        IfOk result (λ log. log.unreadable ≡ unreadable_in (entries_of format.entry bytes))) }
    ensures first_unreadable { IfSome (R.remaining source) (λ bytes.
        IfOk result (λ log. log.first_unreadable ≡ first_unreadable_in (first_number format.entry) (entries_of format.entry bytes))) }
    ensures columns { IfSome (R.remaining source) (λ bytes. OnOk result (lacking format.entry bytes ≡ None)) }
    ensures refusal { IfSome (R.remaining source) (λ bytes. IfErr result (Refuses strict format.entry bytes)) }

    // At any reader.
    ensures numbered { IfOk result (λ log. (keys : List (List ℕ)) × (log.accesses.items ≡ numbers_of keys)
        × (log.keys ≡ length (distinct keys))) }
    ensures sized { has_sizes format.entry ≡ true → IfOk result (λ log. length log.sizes.items ≡ length log.accesses.items) }
    ensures no_sizes { has_sizes format.entry ≡ false → IfOk result (λ log. log.sizes.items ≡ []) }
    ensures timed { has_times format.entry ≡ true → IfOk result (λ log. length log.times.items ≡ length log.accesses.items) }
    ensures no_times { has_times format.entry ≡ false → IfOk result (λ log. log.times.items ≡ []) }
    ensures operated { has_operations format.entry ≡ true → IfOk result (λ log. length log.operations.items ≡ length log.accesses.items) }
    ensures no_operations { has_operations format.entry ≡ false → IfOk result (λ log. log.operations.items ≡ []) }
    ensures lasting { has_ttls format.entry ≡ true → IfOk result (λ log. length log.ttls.items ≡ length log.accesses.items) }
    ensures no_ttls { has_ttls format.entry ≡ false → IfOk result (λ log. log.ttls.items ≡ []) }
    ensures below { IfOk result (λ log. All (λ number. number < log.keys) log.accesses.items) }
    ensures strict { strict ≡ true → IfOk result (λ log. (log.unreadable ≡ 0) × (log.first_unreadable ≡ None)) }
{
    match format {
        Format::Lines => read_lines(alloc, source, strict),
        Format::Csv {
            key,
            header,
            size,
            time,
            operation,
            ttl,
        } => {
            let asked = AskedColumns {
                key,
                size,
                time,
                operation,
                ttl,
            };
            read_records(alloc, source, asked, header, strict)
        }
    }
}

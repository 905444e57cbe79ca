//! Which column of a log has what.
use access_logs::{Column, Format};
use clap::ArgMatches;

// The columns of a log, as far as they are known.
#[derive(Clone, Copy)]
struct Layout<'a> {
    key: Option<Column<'a>>,
    size: Option<Column<'a>>,
    time: Option<Column<'a>>,
    operation: Option<Column<'a>>,
    ttl: Option<Column<'a>>,
}

// Nothing is known.
const PLAIN: Layout<'static> = Layout {
    key: None,
    size: None,
    time: None,
    operation: None,
    ttl: None,
};

// Twitter's logs of 2020: time, key, key size, value size, client, operation, ttl.
const TWITTER: Layout<'static> = Layout {
    key: Some(Column::Number(1)),
    size: Some(Column::Number(3)),
    time: Some(Column::Number(0)),
    operation: Some(Column::Number(5)),
    ttl: Some(Column::Number(6)),
};

// The example of libCacheSim, whose tools take time-col=2, obj-size-col=4 and obj-id-col=5 of it.
const LIBCACHESIM: Layout<'static> = Layout {
    key: Some(Column::Number(4)),
    size: Some(Column::Number(3)),
    time: Some(Column::Number(1)),
    operation: None,
    ttl: None,
};

// The word of a log of a key in each line.
const LINES: &str = "lines";

/// Whether a log is CSV, in whichever layout.
pub fn is_csv(matches: &ArgMatches<'_>) -> bool {
    matches.get_str("format") != Some(LINES)
}

// The layout that is named.
fn named(matches: &ArgMatches<'_>) -> Layout<'static> {
    match matches.get_str("format") {
        Some("twitter") => TWITTER,
        Some("libcachesim") => LIBCACHESIM,
        _ => PLAIN,
    }
}

// A column, by its number, which is counted from 0 then, or by its name; where none is asked for, that of the layout.
fn column_of<'a>(
    matches: &ArgMatches<'a>,
    name: &str,
    other: Option<Column<'a>>,
) -> Option<Column<'a>> {
    let Some(word) = matches.get_str(name) else {
        return other;
    };
    match word.parse::<u32>() {
        Ok(number) => Some(Column::Number(number.saturating_sub(1))),
        Err(_) => Some(Column::Name(word)),
    }
}

/// What the log looks like.
pub fn format_of<'a>(matches: &ArgMatches<'a>) -> Format<'a> {
    if !is_csv(matches) {
        return Format::Lines;
    }
    let layout = named(matches);
    Format::Csv {
        key: column_of(matches, "key", layout.key).unwrap_or(Column::Number(0)),
        header: matches.get_flag("header"),
        size: column_of(matches, "sizes", layout.size),
        time: column_of(matches, "time", layout.time),
        operation: column_of(matches, "op", layout.operation),
        ttl: column_of(matches, "ttl", layout.ttl),
    }
}

// Whether an argument is the column 0, which isn't there.
fn is_zero(matches: &ArgMatches<'_>, name: &str) -> bool {
    match matches.get_str(name) {
        Some(word) => word.parse::<u32>() == Ok(0),
        None => false,
    }
}

// The first word of those that are of CSV alone.
fn word_of_csv(matches: &ArgMatches<'_>) -> Option<&'static str> {
    if matches.contains_id("key") {
        return Some("--key is of CSV alone");
    }
    if matches.contains_id("sizes") {
        return Some("--sizes is of CSV alone");
    }
    if matches.contains_id("time") {
        return Some("--time is of CSV alone");
    }
    if matches.contains_id("op") {
        return Some("--op is of CSV alone");
    }
    if matches.contains_id("ttl") {
        return Some("--ttl is of CSV alone");
    }
    if matches.get_flag("header") {
        return Some("--header is of CSV alone");
    }
    None
}

// Whether one of the columns is the column 0.
fn has_zero(matches: &ArgMatches<'_>) -> bool {
    is_zero(matches, "key")
        || is_zero(matches, "sizes")
        || is_zero(matches, "time")
        || is_zero(matches, "op")
        || is_zero(matches, "ttl")
}

/// Whether the log tells times.
pub fn has_times(format: Format<'_>) -> bool {
    match format {
        Format::Lines => false,
        Format::Csv { time, .. } => time.is_some(),
    }
}

/// Whether the log tells more than gets that never expire.
pub fn has_operations(format: Format<'_>) -> bool {
    match format {
        Format::Lines => false,
        Format::Csv { operation, ttl, .. } => operation.is_some() || ttl.is_some(),
    }
}

// Why there are no such times as are asked for, if there are none.
fn discord_of_times(matches: &ArgMatches<'_>) -> Option<&'static str> {
    if has_times(format_of(matches)) {
        return None;
    }
    if matches.contains_id("ttl") {
        return Some("--ttl needs --time: how long something lasts is counted in its ticks");
    }
    if matches.contains_id("tend-every") {
        return Some("--tend-every needs --time: it is counted in its ticks");
    }
    None
}

/// Why the words don't say how a log is read, if they don't.
pub fn discord(matches: &ArgMatches<'_>) -> Option<&'static str> {
    if !is_csv(matches) {
        if let Some(why) = word_of_csv(matches) {
            return Some(why);
        }
    }
    if has_zero(matches) {
        return Some("columns are counted from 1");
    }
    discord_of_times(matches)
}

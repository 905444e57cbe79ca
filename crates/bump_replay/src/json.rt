//! What runs came to, as one JSON object.
use crate::course;
use crate::options::Options;
use crate::rows::{Row, tally_of, word_of};
use crate::sampling::Sampled;
use access_logs::{Column, Format, Log};
use replay_policies::Tally;
use replay_runs::{HitCounts, Tending};
use serde_json::{Map, Value, json};
use std::alloc::{AllocError, Global};

/// What a log came to.
#[derive(Clone, Copy)]
pub struct Told<'a, 'b> {
    /// The log's file, or `-` where it is standard input.
    pub file: &'a str,

    /// What was asked for.
    pub options: &'a Options<'a>,

    /// The log.
    pub log: &'a Log,

    /// The runs.
    pub rows: &'b [Row],

    /// What a sample was taken from, if one was asked for.
    pub sampled: Option<Sampled>,

    /// How many accesses were to keys too large for each class.
    pub too_large: u64,

    /// The hits that a trace tells, where one was written: of the only row.
    pub traced: Option<&'b HitCounts>,
}

/// The members of an object.
#[derive(Drop)]
struct Members {
    alloc: Global,
    map: Map<String, Value>,
}

impl Members {
    fn new(alloc: Global) -> Members {
        Members {
            alloc,
            map: Map::new(alloc),
        }
    }

    fn put<T: Into<Value>>(&mut self, name: &str, value: T) -> Result<(), AllocError> {
        serde_json::put(&mut self.map, self.alloc, name, value.into())
    }

    fn put_text(&mut self, name: &str, text: &str) -> Result<(), AllocError> {
        let value = Value::try_from_str(self.alloc, text)?;
        self.put(name, value)
    }

    // A text, or null.
    fn put_file(&mut self, name: &str, file: Option<&str>) -> Result<(), AllocError> {
        match file {
            Some(file) => self.put_text(name, file),
            None => self.put(name, Value::Null),
        }
    }

    fn put_numbers<T: Copy + Into<Value>>(
        &mut self,
        name: &str,
        numbers: &[T],
    ) -> Result<(), AllocError> {
        let mut list = Vec::new(self.alloc);
        for number in numbers {
            serde_json::push(&mut list, (*number).into())?;
        }
        self.put(name, Value::Array(list))
    }

    fn into_value(self) -> Value {
        Value::Object(self.map)
    }
}

// A column, by its number, from 1, or by its name, or null.
fn put_column(
    members: &mut Members,
    name: &str,
    column: Option<Column<'_>>,
) -> Result<(), AllocError> {
    match column {
        Some(Column::Number(number)) => members.put(name, number.saturating_add(1)),
        Some(Column::Name(word)) => members.put_text(name, word),
        None => members.put(name, Value::Null),
    }
}

// How the log is read.
fn put_format(members: &mut Members, format: Format<'_>) -> Result<(), AllocError> {
    let Format::Csv {
        key,
        header,
        size,
        time,
        operation,
        ttl,
    } = format
    else {
        for name in ["key", "sizes", "time", "op", "ttl"] {
            members.put(name, Value::Null)?;
        }
        return members.put("header", false);
    };
    put_column(members, "key", Some(key))?;
    put_column(members, "sizes", size)?;
    put_column(members, "time", time)?;
    put_column(members, "op", operation)?;
    put_column(members, "ttl", ttl)?;
    members.put("header", header)
}

// How often the cache is tended, in accesses or in ticks.
fn put_tending(members: &mut Members, tending: Tending) -> Result<(), AllocError> {
    let (accesses, ticks) = match tending {
        Tending::Accesses(count) => (Some(count), None),
        Tending::Ticks(ticks) => (None, Some(ticks)),
    };
    members.put("drain-every", accesses)?;
    members.put("tend-every", ticks)
}

// The ages of HOT and WARM in percent, or null.
fn put_ages(members: &mut Members, hot: Option<u32>, warm: Option<u32>) -> Result<(), AllocError> {
    match (hot, warm) {
        (Some(hot), Some(warm)) => {
            members.put("no-ages", false)?;
            members.put_numbers("ages", &[hot, warm])
        }
        _ => {
            members.put("no-ages", true)?;
            members.put("ages", Value::Null)
        }
    }
}

// How the cache is run.
fn put_plan(members: &mut Members, options: &Options<'_>) -> Result<(), AllocError> {
    let config = options.plan.config;
    members.put("spare", options.spare)?;
    members.put("hot", config.hot)?;
    members.put("warm", config.warm)?;
    put_ages(members, config.hot_age, config.warm_age)?;
    members.put("workers", config.readers)?;
    members.put("ring", config.ring)?;
    members.put("parts", config.parts)?;
    put_tending(members, options.plan.tending)
}

// Which plain policies are compared.
fn put_compared(members: &mut Members, options: &Options<'_>) -> Result<(), AllocError> {
    let mut list = Vec::new(members.alloc);
    for policy in &options.policies {
        let word = Value::try_from_str(members.alloc, word_of(*policy))?;
        serde_json::push(&mut list, word)?;
    }
    members.put("compare", Value::Array(list))
}

// All options, each under its word.
fn options_told(alloc: Global, options: &Options<'_>) -> Result<Value, AllocError> {
    let mut members = Members::new(alloc);
    members.put_text("format", options.layout)?;
    put_format(&mut members, options.format)?;
    members.put("strict", options.is_strict)?;
    members.put("sample", options.sample)?;
    members.put_numbers("items", &options.sizes)?;
    members.put_numbers("bytes", &options.bytes)?;
    members.put_numbers("classes", &options.classes)?;
    put_plan(&mut members, options)?;
    put_compared(&mut members, options)?;
    members.put_file("svg", options.svg)?;
    members.put("full", options.is_full)?;
    members.put_file("trace", options.trace)?;
    members.put("json", options.is_json)?;
    Ok(members.into_value())
}

fn tally_told(alloc: Global, tally: &Tally) -> Result<Value, AllocError> {
    json!(in alloc; {"hits": tally.hits, "misses": tally.misses})
}

// How items of the cache went from list to list.
fn flow_told(alloc: Global, row: &Row) -> Result<Value, AllocError> {
    let flow = row.bump.stats.flow;
    json!(in alloc; {
        "linked": flow.linked,
        "hot_to_warm": flow.hot_to_warm,
        "hot_to_cold": flow.hot_to_cold,
        "warm_to_warm": flow.warm_to_warm,
        "warm_to_cold": flow.warm_to_cold,
        "cold_to_warm": flow.cold_to_warm
    })
}

fn bumps_told(alloc: Global, row: &Row) -> Result<Value, AllocError> {
    let bumps = row.bump.bumps;
    json!(in alloc; {
        "attempted": bumps.attempted,
        "accepted": bumps.accepted,
        "full": bumps.full,
        "refs": bumps.refs,
        "busy": bumps.busy
    })
}

// The hits of the cache by their kinds, in the trace's words. Which of those without a bump were the first of their item,
// which marked it and which found it marked is known where a trace is written, and is null else.
fn kinds_told(alloc: Global, row: &Row, traced: Option<&HitCounts>) -> Result<Value, AllocError> {
    let bumps = row.bump.bumps;
    let without = row.bump.hits.saturating_sub(bumps.attempted);
    json!(in alloc; {
        "without_bump": without,
        "first": traced.map(|hits| hits.first),
        "marked": traced.map(|hits| hits.marked),
        "already": traced.map(|hits| hits.already),
        "queued": bumps.accepted,
        "dropped_full": bumps.full,
        "dropped_refs": bumps.refs,
        "dropped_busy": bumps.busy
    })
}

// The hits and misses of the cache, and of what is compared with it.
fn put_tallies(members: &mut Members, row: &Row) -> Result<(), AllocError> {
    let alloc = members.alloc;
    members.put("bump", tally_told(alloc, &tally_of(&row.bump))?)?;
    for run in &row.others {
        members.put(word_of(run.policy), tally_told(alloc, &run.tally)?)?;
    }
    Ok(())
}

// The runs through caches of one size.
fn row_told(alloc: Global, row: &Row, traced: Option<&HitCounts>) -> Result<Value, AllocError> {
    let stats = row.bump.stats;
    let mut members = Members::new(alloc);
    members.put("items", row.items)?;
    members.put("class", row.class)?;
    members.put("bytes", row.bytes)?;
    put_tallies(&mut members, row)?;
    members.put("hits_by_kind", kinds_told(alloc, row, traced)?)?;
    members.put("flow", flow_told(alloc, row)?)?;
    members.put("evicted", stats.evicted())?;
    members.put("evicted_unfetched", stats.evicted_unfetched())?;
    members.put("evicted_active", stats.evicted_active())?;
    members.put("unplaced", row.bump.unplaced)?;
    members.put("held_by_bumps", row.bump.waiting)?;
    members.put("bumps", bumps_told(alloc, row)?)?;
    Ok(members.into_value())
}

fn rows_told(alloc: Global, told: &Told<'_, '_>) -> Result<Value, AllocError> {
    let mut list = Vec::new(alloc);
    for row in told.rows {
        serde_json::push(&mut list, row_told(alloc, row, told.traced)?)?;
    }
    Ok(Value::Array(list))
}

// The first line or record that can't be read, or null.
fn unreadable_told(alloc: Global, log: &Log) -> Result<Value, AllocError> {
    match log.first_unreadable {
        Some(first) => json!(in alloc; {"number": first.number}),
        None => Ok(Value::Null),
    }
}

// How many accesses and keys the log has, and how many of them a sample, or null.
fn put_counts(members: &mut Members, told: &Told<'_, '_>) -> Result<(), AllocError> {
    let log = told.log;
    let (all, accesses, keys) = match told.sampled {
        Some(sampled) => (
            sampled.accesses,
            Some(log.accesses.len()),
            Some(sampled.keys),
        ),
        None => (log.accesses.len(), None, None),
    };
    members.put("accesses", all)?;
    members.put("keys", log.keys)?;
    members.put("sampled_accesses", accesses)?;
    members.put("sampled_keys", keys)
}

/// What a log came to, as the text of one object without a line's end. It is refused only for want of memory.
pub fn object_of(alloc: Global, told: &Told<'_, '_>) -> Result<String, AllocError> {
    let log = told.log;
    let mut members = Members::new(alloc);
    members.put_text("file", told.file)?;
    members.put("options", options_told(alloc, told.options)?)?;
    put_counts(&mut members, told)?;
    members.put("passed_over", course::passed_over(log))?;
    members.put("unreadable", log.unreadable)?;
    members.put("first_unreadable", unreadable_told(alloc, log)?)?;
    members.put("too_large", told.too_large)?;
    members.put("sizes", rows_told(alloc, told)?)?;
    members.into_value().to_string(alloc)
}

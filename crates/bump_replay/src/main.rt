//! Runs an access log through caches, and tells how often its keys were there.
#![tactic(auto)]

mod chart;
mod classes;
mod course;
mod flows;
mod json;
mod layouts;
mod options;
mod outputs;
mod plain;
mod progress;
mod rows;
mod runs;
mod sampling;
mod scales;
mod summary;
mod svg;
mod tables;
mod traced;

use access_logs::{Log, LogFault, read_log};
use clap::Error;
use json::Told;
use options::Options;
use replay_runs::{ReplayFault, ReplayTrace};
use rows::Row;
use runs::Runs;
use sampling::Sampled;
use std::env;
use std::fs::{self, File};
use std::io::{self, Read};
use std::process::ExitCode;
use std::random::RandomSource;
use std::rt::Files;
use std::sync::Wait;

/// Why there is nothing to print.
#[derive(Drop)]
enum Failure {
    /// The log can't be opened.
    Open(io::Error),

    /// Standard input was to be read a second time.
    Twice,

    /// The log isn't read.
    Log(LogFault),

    /// It isn't run, or its run isn't traced.
    Replay(ReplayFault),

    /// The trace's hits aren't those of the run. No log is known that does this.
    Differs,

    /// The system has no random bytes.
    Random,

    /// What was to be told can't be written.
    Write,
}

// Reads the log of a file, or of standard input, which can be read once.
fn log_of<R: Files + AllocGlobal, S: Read + Drop>(
    rt: &R,
    file: &str,
    input: &mut Option<S>,
    options: &Options<'_>,
) -> Result<Log, Failure> {
    if file == "-" {
        return match input.take() {
            Some(input) => read(rt, input, options),
            None => Err(Failure::Twice),
        };
    }
    match File::open(rt, file) {
        Ok(file) => read(rt, file, options),
        Err(error) => Err(Failure::Open(error)),
    }
}

// Reads what is open.
fn read<R: AllocGlobal, S: Read + Drop>(
    rt: &R,
    source: S,
    options: &Options<'_>,
) -> Result<Log, Failure> {
    match read_log(rt.alloc(), source, options.format, options.is_strict) {
        Ok(log) => Ok(log),
        Err(fault) => Err(Failure::Log(fault)),
    }
}

// Says how many lines couldn't be read, if any.
fn tell_unreadable<R: Eprint>(rt: &R, log: &Log) {
    if let Some(first) = log.first_unreadable {
        let _ = eprintln!(rt;
            "{} lines can't be read, the first of them line {}",
            log.unreadable, first.number
        );
    }
}

// Says how many accesses are none that a cache is asked for, if any.
fn tell_passed_over<R: Eprint>(rt: &R, log: &Log) {
    let count = course::passed_over(log);
    if count > 0 {
        let _ = eprintln!(rt;
            "{count} accesses are neither gets, sets nor deletes, and passed over"
        );
    }
}

// Writes a picture, where one is asked for.
fn draw<R: Files + AllocGlobal>(rt: &R, options: &Options<'_>, rows: &[Row]) -> io::Result<()> {
    let Some(file) = options.svg else {
        return Ok(());
    };
    let text = svg::picture(rt.alloc(), rows, options.is_full)?;
    fs::write(rt, file, text)
}

// Says how many accesses were to keys too large for each class, if any.
fn tell_too_large<R: Eprint>(rt: &R, runs: &Runs) {
    if runs.too_large > 0 {
        let _ = eprintln!(rt;
            "{} accesses are to keys too large for each class",
            runs.too_large
        );
    }
}

// Writes the run as a trace, where one is asked for, and answers what it came to.
fn write_trace<R: Files + AllocGlobal + RandomSource>(
    rt: &R,
    options: &Options<'_>,
    log: &Log,
    rows: &[Row],
) -> Result<Option<ReplayTrace>, Failure> {
    let (Some(file), Some(row)) = (options.trace, rows.first()) else {
        return Ok(None);
    };
    let trace = traced::trace_of_row(rt, options, log, row)?;
    match fs::write(rt, file, trace.text.as_slice()) {
        Ok(()) => Ok(Some(trace)),
        Err(_) => Err(Failure::Write),
    }
}

// Prints what a log came to.
fn put<R: Print + AllocGlobal>(rt: &R, told: &Told<'_, '_>) -> io::Result<()> {
    if told.options.is_json {
        return rt.println(json::object_of(rt.alloc(), told)?);
    }
    tables::put_rows(rt, told.rows)?;
    if let Some(hits) = told.traced {
        tables::put_trace(rt, hits)?;
    }
    summary::put_sentences(rt, told.options, told.rows)
}

// Leaves a sample of the log's keys, where one is asked for, and says how many of all accesses it has.
fn take_sample<R: AllocGlobal + Eprint>(
    rt: &R,
    options: &Options<'_>,
    log: &mut Log,
) -> Result<Option<Sampled>, Failure> {
    if options.sample <= 1 {
        return Ok(None);
    }
    let Ok(sampled) = sampling::sample(rt.alloc(), log, options.sample) else {
        return Err(Failure::Replay(ReplayFault::Memory));
    };
    let lean = sampling::lean(log, sampled);
    let _ = eprintln!(rt;
        "a sample of {} of {} keys has {} of {} accesses, which is its share but for {}.{:02} %",
        sampled.keys,
        log.keys,
        log.accesses.len(),
        sampled.accesses,
        lean / 100,
        lean % 100
    );
    Ok(Some(sampled))
}

// Runs a log, and prints what it came to.
fn run_log<'a, R: Print + Eprint + Files + AllocGlobal + RandomSource + Wait>(
    rt: &R,
    options: &'a Options<'a>,
    file: &'a str,
    log: &'a Log,
    sampled: Option<Sampled>,
) -> Result<(), Failure> {
    let runs = match runs::run_log(rt, options, log) {
        Ok(runs) => runs,
        Err(fault) => return Err(Failure::Replay(fault)),
    };
    tell_too_large(rt, &runs);
    let trace = write_trace(rt, options, log, &runs.rows)?;
    let told = Told {
        file,
        options,
        log,
        sampled,
        rows: &runs.rows,
        too_large: runs.too_large,
        traced: trace.as_ref().map(|trace| &trace.hits),
    };
    if put(rt, &told).is_err() || draw(rt, options, &runs.rows).is_err() {
        return Err(Failure::Write);
    }
    Ok(())
}

// Names a log, where there are several.
fn put_name<R: Print>(rt: &R, options: &Options<'_>, place: usize, file: &str) -> io::Result<()> {
    if options.files.len() < 2 || options.is_json {
        return Ok(());
    }
    if place > 0 {
        println!(rt; "")?;
    }
    println!(rt; "{file}:")
}

// Reads a log, and runs it.
fn run_file<R: Print + Eprint + Files + AllocGlobal + RandomSource + Wait, S: Read + Drop>(
    rt: &R,
    input: &mut Option<S>,
    options: &Options<'_>,
    place: usize,
    file: &str,
) -> Result<(), Failure> {
    let mut log = log_of(rt, file, input, options)?;
    if put_name(rt, options, place, file).is_err() {
        return Err(Failure::Write);
    }
    tell_unreadable(rt, &log);
    tell_passed_over(rt, &log);
    let sampled = take_sample(rt, options, &mut log)?;
    run_log(rt, options, file, &log, sampled)
}

// Says why a log's run ended early.
fn tell<R: Eprint>(rt: &R, file: &str, failure: &Failure) {
    let _ = match failure {
        Failure::Open(error) => eprintln!(rt; "{file} can't be opened: {error}"),
        Failure::Twice => eprintln!(rt; "standard input can be read once"),
        Failure::Log(fault) => eprintln!(rt; "{file}: {fault}"),
        Failure::Replay(fault) => eprintln!(rt; "{fault}"),
        Failure::Differs => eprintln!(rt; "the trace's hits aren't those of the run"),
        Failure::Random => eprintln!(rt; "the system has no random bytes"),
        Failure::Write => eprintln!(rt; "what was to be told can't be written"),
    };
}

// Runs what the words ask for, log after log; the program's status.
fn run<R: Print + Eprint + Files + AllocGlobal + RandomSource + Wait, S: Read + Drop>(
    rt: &R,
    input: S,
    options: &Options<'_>,
) -> u8 {
    let mut input = Some(input);
    for (place, file) in options.files.iter().enumerate() {
        if let Err(failure) = run_file(rt, &mut input, options, place, file) {
            tell(rt, file, &failure);
            return 1;
        }
    }
    0
}

// Prints why the words can't be followed, or the help that was asked for; the program's status.
fn refuse<R: Print + Eprint>(rt: &R, error: &Error) -> u8 {
    let _ = error.print(rt);
    error.exit_code() as u8
}

// Follows the words; the program's status.
fn follow<R: Print + Eprint + Files + AllocGlobal + RandomSource + Wait, S: Read + Drop>(
    rt: &R,
    input: S,
    words: &[String],
) -> u8 {
    let options = match options::choose(rt.alloc(), words) {
        Ok(options) => options,
        Err(error) => return refuse(rt, &error),
    };
    let Some(why) = outputs::fault(rt, &options) else {
        return run(rt, input, &options);
    };
    match options::refusal(rt.alloc(), why) {
        Ok(error) => refuse(rt, &error),
        Err(_) => 1,
    }
}

fn main(rt: HostRuntime) -> ExitCode {
    let Ok(args) = env::args(&rt) else {
        let _ = eprintln!(&rt; "a word of the command line isn't UTF-8");
        return ExitCode::from(1);
    };
    let Ok(words) = args.collect::<Vec<String>>(rt.alloc()) else {
        return ExitCode::from(1);
    };
    ExitCode::from(follow(&rt, rt.stdin(), &words))
}

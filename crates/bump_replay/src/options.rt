//! What the words of the command line ask for.
use crate::layouts;
use crate::rows::{POLICIES, word_of};
use access_logs::Format;
use clap::error::ErrorKind;
use clap::{Arg, ArgAction, ArgMatches, Command, Error, value_parser};
use replay_policies::Policy;
use replay_runs::{CacheConfig, Plan, Seed, Tending};
use std::alloc::{AllocError, Global};

// The seed of the keys' hashes. It is always the same, so a run can be repeated: a log is a file, and what is hashed are
// the numbers of its keys, so nobody can make calls slow by the keys that he chooses.
const SEED: Seed = Seed {
    first: 0x243f_6a88_85a3_08d3,
    second: 0x9e37_79b9_7f4a_7c15,
};

// The program's version.
const VERSION: &str = "0.1.0";

// Where it isn't said how often a cache is tended it is behind each so many accesses: as often as memcached's
// maintainer looks, each millisecond, where there are 64,000 accesses a second.
const TEND_EVERY: u32 = 64;

// What isn't said of a cache is as the library has it.
fn library() -> CacheConfig {
    CacheConfig::new(1, 1, SEED)
}

/// What the words ask for.
#[derive(Drop)]
pub struct Options<'a> {
    /// The logs' files, one after the other; `-` is standard input.
    pub files: Vec<&'a str>,

    /// Of how many items the caches are, one after the other. There are none where bytes are shared out.
    pub sizes: Vec<u32>,

    /// How many bytes are shared out to the classes, one after the other.
    pub bytes: Vec<u64>,

    /// What the log looks like.
    pub format: Format<'a>,

    /// The word for that.
    pub layout: &'a str,

    /// Whether a line that can't be read ends the run.
    pub is_strict: bool,

    /// Of so many keys of the log one is run, and the caches are as much smaller; 1 where all are.
    pub sample: u32,

    /// The largest size of each class in bytes, ascending. There are none where all items are of one class.
    pub classes: Vec<u32>,

    /// How a cache is run, but for how many items and spare chunks it has.
    pub plan: Plan,

    /// How many spare chunks a cache has, if that is said: else as many as `CacheConfig::new` says.
    pub spare: Option<u32>,

    /// The plain policies that are compared, in the order in which they are told.
    pub policies: Vec<Policy>,

    /// Whether JSON is asked for, in place of a table.
    pub is_json: bool,

    /// The file to which a picture is written, if one is asked for.
    pub svg: Option<&'a str>,

    /// Whether the picture's shares are from 0 to 100 percent.
    pub is_full: bool,

    /// The file to which a trace is written, if one is asked for.
    pub trace: Option<&'a str>,
}

fn number_arg<'a>(alloc: Global, name: &'a str, value: &'a str, help: &'a str) -> Arg<'a> {
    Arg::new(alloc, name)
        .long(name)
        .value_name(value)
        .value_parser(value_parser!(u32))
        .help(help)
}

fn column_arg<'a>(alloc: Global, name: &'a str, help: &'a str) -> Arg<'a> {
    Arg::new(alloc, name)
        .long(name)
        .value_name("COLUMN")
        .help(help)
}

fn flag_arg<'a>(alloc: Global, name: &'a str, help: &'a str) -> Arg<'a> {
    Arg::new(alloc, name)
        .long(name)
        .action(ArgAction::SetTrue)
        .help(help)
}

fn file_arg<'a>(alloc: Global, name: &'a str, help: &'a str) -> Arg<'a> {
    Arg::new(alloc, name)
        .long(name)
        .value_name("FILE")
        .help(help)
}

// The logs.
fn files_arg<'a>(alloc: Global) -> Arg<'a> {
    Arg::new(alloc, "FILE")
        .required(true)
        .num_args(1..)
        .help("Access logs, or - for standard input")
}

// What they look like.
fn format_arg<'a>(alloc: Global) -> Arg<'a> {
    Arg::new(alloc, "format")
        .long("format")
        .value_name("FORMAT")
        .value_parser(["lines", "csv", "twitter", "libcachesim"].as_slice())
        .default_value("lines")
        .help("A key in each line, or CSV, or such CSV as Twitter's logs or libCacheSim's example")
}

// What says how a log is read.
fn with_reading<'a>(alloc: Global, command: Command<'a>) -> Result<Command<'a>, AllocError> {
    let strict = flag_arg(alloc, "strict", "Ends at the first line that can't be read");
    command
        .arg(files_arg(alloc))?
        .arg(format_arg(alloc))?
        .arg(strict)
}

// What says what the columns of CSV are.
fn with_columns<'a>(alloc: Global, command: Command<'a>) -> Result<Command<'a>, AllocError> {
    let key = column_arg(
        alloc,
        "key",
        "The column of the key in CSV: its number, from 1, or its name in the header [default: 1]",
    );
    let sizes = column_arg(alloc, "sizes", "That of an item's size in bytes");
    let time = column_arg(
        alloc,
        "time",
        "That of an access's time, in ticks: else time is counted in accesses",
    );
    let operation = column_arg(
        alloc,
        "op",
        "That of what is asked for, by memcached's words: else all are gets",
    );
    let ttl = column_arg(
        alloc,
        "ttl",
        "That of the ticks after which what is put expires; 0 is never",
    );
    let header = flag_arg(alloc, "header", "Skips the first record of CSV");
    command
        .arg(key)?
        .arg(sizes)?
        .arg(time)?
        .arg(operation)?
        .arg(ttl)?
        .arg(header)
}

// What says how many items a cache has, or how many bytes those of all classes.
fn with_items<'a>(alloc: Global, command: Command<'a>) -> Result<Command<'a>, AllocError> {
    let items = Arg::new(alloc, "items")
        .long("items")
        .value_name("N")
        .required_unless_present("bytes")?
        .conflicts_with("bytes")?
        .value_parser(value_parser!(u32))
        .value_delimiter(',')
        .help(
            "How many items a cache has, 1 or more, 128000000 at most with all spare chunks; several with commas",
        );
    let bytes = Arg::new(alloc, "bytes")
        .long("bytes")
        .value_name("N")
        .requires_arg("classes")?
        .value_parser(value_parser!(u64))
        .value_delimiter(',')
        .help(
            "So many bytes for the items of all classes: each gets chunks for the same share of its keys",
        );
    command.arg(items)?.arg(bytes)
}

// What says how large a cache is.
fn with_sizes<'a>(alloc: Global, command: Command<'a>) -> Result<Command<'a>, AllocError> {
    let command = with_items(alloc, command)?;
    let classes = Arg::new(alloc, "classes")
        .long("classes")
        .value_name("BYTES")
        .value_parser(value_parser!(u32))
        .value_delimiter(',')
        .requires_arg("sizes")?
        .help("The largest item of each class, ascending; a class is a cache of its own");
    let spare = number_arg(
        alloc,
        "spare",
        "CHUNKS",
        "Chunks of a part beside those of its items, 1 or more [default: one for each reader and one more]",
    );
    let sample = number_arg(
        alloc,
        "sample",
        "N",
        "Runs one key in so many through caches as much smaller: an estimate [default: 1]",
    );
    command.arg(sample)?.arg(spare)?.arg(classes)
}

// What says how HOT and WARM are kept short.
fn with_shares<'a>(alloc: Global, command: Command<'a>) -> Result<Command<'a>, AllocError> {
    let hot = number_arg(
        alloc,
        "hot",
        "PERCENT",
        "HOT's share of the items: a balance moves its last one on if it has more [default: 20]",
    );
    let warm = number_arg(
        alloc,
        "warm",
        "PERCENT",
        "WARM's share, in the same sense: bumps move items in past it [default: 40]",
    );
    let ages = Arg::new(alloc, "ages")
        .long("ages")
        .value_name("HOT,WARM")
        .value_parser(value_parser!(u32))
        .value_delimiter(',')
        .help(
            "How long ago their last items may have been used, in percent of COLD's age [default: 20,200]",
        );
    let no_ages = flag_arg(alloc, "no-ages", "Ages don't count").conflicts_with("ages")?;
    command.arg(hot)?.arg(warm)?.arg(ages)?.arg(no_ages)
}

// What says who gets, how often the cache is tended, and how many parts it has.
fn with_readers<'a>(alloc: Global, command: Command<'a>) -> Result<Command<'a>, AllocError> {
    let workers = number_arg(
        alloc,
        "workers",
        "WORKERS",
        "Readers that get in turn, 1 to 64 [default: 1]",
    );
    let ring = number_arg(
        alloc,
        "ring",
        "BUMPS",
        "The room of a reader's ring, 1 to 65536 [default: 8192]",
    );
    let every = number_arg(
        alloc,
        "drain-every",
        "ACCESSES",
        "The cache is tended each so many accesses: 64 are memcached's 1 ms at 64000 a second [default: 64]",
    );
    let ticks = Arg::new(alloc, "tend-every")
        .long("tend-every")
        .value_name("TICKS")
        .value_parser(value_parser!(u64))
        .conflicts_with("drain-every")?
        .help("It is tended when so many ticks have gone by since it was, by the accesses' times");
    command.arg(workers)?.arg(ring)?.arg(every)?.arg(ticks)
}

// What says how many parts the cache has.
fn with_parts<'a>(alloc: Global, command: Command<'a>) -> Result<Command<'a>, AllocError> {
    command.arg(number_arg(
        alloc,
        "parts",
        "PARTS",
        "Parts of the cache, 1 to 256, and no more than items [default: 1]",
    ))
}

// What says what is told.
fn with_telling<'a>(alloc: Global, command: Command<'a>) -> Result<Command<'a>, AllocError> {
    let compare = Arg::new(alloc, "compare")
        .long("compare")
        .value_name("POLICIES")
        .value_parser(["lru", "fifo", "clock", "sieve", "s3fifo"].as_slice())
        .value_delimiter(',')
        .action(ArgAction::Append)
        .help("Plain policies to compare with");
    let svg = file_arg(alloc, "svg", "Writes a picture of one log to this file").conflicts_with(
        "classes",
    )?;
    let trace = file_arg(
        alloc,
        "trace",
        "Writes the run of one log through one size as a trace for bumpsim",
    )
    .conflicts_with("classes")?;
    let full = flag_arg(
        alloc,
        "full",
        "Draws all shares of misses, from 0 to 100 percent",
    )
    .requires_arg("svg")?;
    command
        .arg(compare)?
        .arg(svg)?
        .arg(full)?
        .arg(trace)?
        .arg(flag_arg(
            alloc,
            "json",
            "Writes one JSON object a log in place of tables",
        ))
}

fn command<'a>(alloc: Global) -> Result<Command<'a>, AllocError> {
    let bare = Command::new(alloc, "bump_replay").version(VERSION).about(
        "Runs an access log through caches, whose hashes have the same seed each time",
    );
    let reading = with_reading(alloc, bare)?;
    let columns = with_columns(alloc, reading)?;
    let sizes = with_sizes(alloc, columns)?;
    let shares = with_shares(alloc, sizes)?;
    let readers = with_readers(alloc, shares)?;
    let parts = with_parts(alloc, readers)?;
    with_telling(alloc, parts)
}

// The number of an argument, or this one where it isn't there.
fn number_or(matches: &ArgMatches<'_>, name: &str, other: u32) -> u32 {
    matches.get_one::<u32>(name).unwrap_or(other)
}

// The age at this place among those that are said, or this one where none is; None where ages don't count.
fn age_of(matches: &ArgMatches<'_>, place: usize, other: Option<u32>) -> Option<u32> {
    if matches.get_flag("no-ages") {
        return None;
    }
    let Some(mut ages) = matches.get_many::<u32>("ages") else {
        return other;
    };
    match ages.nth(place) {
        Some(Ok(age)) => Some(age),
        _ => other,
    }
}

// How often the cache is tended. Of a sample come as many accesses fewer.
fn tending_of(matches: &ArgMatches<'_>) -> Tending {
    if let Some(ticks) = matches.get_one::<u64>("tend-every") {
        return Tending::Ticks(ticks);
    }
    let every = number_or(matches, "drain-every", TEND_EVERY);
    Tending::Accesses(every / number_or(matches, "sample", 1).max(1))
}

fn plan_of(matches: &ArgMatches<'_>) -> Plan {
    let library = library();
    Plan {
        config: CacheConfig {
            items: 0,
            spare: 0,
            hot: number_or(matches, "hot", library.hot),
            warm: number_or(matches, "warm", library.warm),
            hot_age: age_of(matches, 0, library.hot_age),
            warm_age: age_of(matches, 1, library.warm_age),
            temporary: None,
            expiry_looks: 0,
            parts: number_or(matches, "parts", library.parts),
            readers: number_or(matches, "workers", library.readers),
            ring: number_or(matches, "ring", library.ring),
            seed: SEED,
        },
        tending: tending_of(matches),
    }
}

fn compares(matches: &ArgMatches<'_>, policy: &str) -> bool {
    match matches.get_strs("compare") {
        Some(words) => words.iter().any(|word| *word == policy),
        None => false,
    }
}

// The plain policies that are compared.
fn policies_of(alloc: Global, matches: &ArgMatches<'_>) -> Result<Vec<Policy>, AllocError> {
    let mut policies = Vec::new(alloc);
    for policy in POLICIES {
        if compares(matches, word_of(policy)) {
            policies.push(policy)?;
        }
    }
    Ok(policies)
}

// The numbers of an argument that has several.
fn numbers_of(alloc: Global, matches: &ArgMatches<'_>, name: &str) -> Result<Vec<u32>, AllocError> {
    let mut all = Vec::new(alloc);
    if let Some(numbers) = matches.get_many::<u32>(name) {
        for number in numbers {
            all.push(number.unwrap_or(0))?;
        }
    }
    Ok(all)
}

// How many bytes are shared out, one number after the other.
fn bytes_of(alloc: Global, matches: &ArgMatches<'_>) -> Result<Vec<u64>, AllocError> {
    let mut all = Vec::new(alloc);
    if let Some(numbers) = matches.get_many::<u64>("bytes") {
        for number in numbers {
            all.push(number.unwrap_or(0))?;
        }
    }
    Ok(all)
}

fn files_of<'a>(alloc: Global, matches: &ArgMatches<'a>) -> Result<Vec<&'a str>, AllocError> {
    let mut files = Vec::new(alloc);
    if let Some(words) = matches.get_strs("FILE") {
        for word in words {
            files.push(*word)?;
        }
    }
    Ok(files)
}

// Why these aren't the ages of HOT and WARM, if they aren't.
fn discord_of_ages(matches: &ArgMatches<'_>) -> Option<&'static str> {
    match matches.get_strs("ages") {
        Some(ages) if ages.len() != 2 => Some(
            "--ages has two numbers, that of HOT and that of WARM",
        ),
        _ => None,
    }
}

// Why what is asked for doesn't fit together, if it doesn't.
fn discord(options: &Options<'_>) -> Option<&'static str> {
    if options.svg.is_some() && options.files.len() > 1 {
        return Some("a picture is of one log");
    }
    if options.trace.is_some() && (options.files.len() > 1 || options.sizes.len() > 1) {
        return Some("a trace is of one log, and of one size");
    }
    if options.trace.is_some() && options.plan.config.parts > 1 {
        return Some("a trace is of a cache of one part");
    }
    if options.trace.is_some() && options.sample != 1 {
        return Some("a trace is of all keys");
    }
    if options.trace.is_some() && layouts::has_operations(options.format) {
        return Some("a trace is of gets of what never expires");
    }
    if options.sample == 0 {
        return Some("a sample is of one key in 1 or more");
    }
    if !options.classes.is_sorted() {
        return Some("the classes aren't in ascending order");
    }
    None
}

fn options_of<'a>(alloc: Global, matches: &ArgMatches<'a>) -> Result<Options<'a>, AllocError> {
    Ok(Options {
        files: files_of(alloc, matches)?,
        sizes: numbers_of(alloc, matches, "items")?,
        bytes: bytes_of(alloc, matches)?,
        format: layouts::format_of(matches),
        layout: matches.get_str("format").unwrap_or("lines"),
        is_strict: matches.get_flag("strict"),
        sample: number_or(matches, "sample", 1),
        classes: numbers_of(alloc, matches, "classes")?,
        plan: plan_of(matches),
        spare: matches.get_one::<u32>("spare"),
        policies: policies_of(alloc, matches)?,
        is_json: matches.get_flag("json"),
        svg: matches.get_str("svg"),
        is_full: matches.get_flag("full"),
        trace: matches.get_str("trace"),
    })
}

// Why the words don't fit one another, if they don't.
fn why_refused(matches: &ArgMatches<'_>, options: &Options<'_>) -> Option<&'static str> {
    layouts::discord(matches)
        .or(discord_of_ages(matches))
        .or(discord(options))
}

/// The refusal of words that can't be followed, with the reason.
pub fn refusal(alloc: Global, why: &str) -> Result<Error, AllocError> {
    command(alloc)?.error(ErrorKind::ArgumentConflict, why)
}

/// What the words ask for, of which the program's own name is the first. A call for help is refused, too.
pub fn choose<'a>(alloc: Global, words: &'a [String]) -> Result<Options<'a>, Error> {
    let matches = command(alloc)?.try_get_matches_from(words)?;
    let options = options_of(alloc, &matches)?;
    match why_refused(&matches, &options) {
        None => Ok(options),
        Some(why) => Err(refusal(alloc, why)?),
    }
}

//! What the runs say, in a sentence for each size.
use crate::options::Options;
use crate::rows::{PolicyRun, Row, hundredths, tally_of};
use replay_policies::Policy;
use std::{fmt, io};

// The name of a plain policy.
fn name_of(policy: Policy) -> &'static str {
    match policy {
        Policy::Lru => "LRU",
        Policy::Fifo => "FIFO",
        Policy::Clock => "CLOCK",
        Policy::Sieve => "SIEVE",
        Policy::S3Fifo => "S3-FIFO",
    }
}

// How some misses stand to others, of which there are some: by how many percent they are less or more.
#[derive(Clone, Copy)]
struct Beside {
    misses: u64,
    others: u64,
}

impl fmt::Display for Beside {
    fn fmt<W: fmt::Write>(&self, f: &mut fmt::Formatter<W>) -> fmt::Result {
        if self.misses == self.others {
            return write!(f, "as often");
        }
        let share = hundredths(self.misses.abs_diff(self.others), self.others);
        let percent = share / 100;
        let hundredths = share % 100;
        let word = if self.misses < self.others {
            "less"
        } else {
            "more"
        };
        write!(f, "{percent}.{hundredths:02} % {word}")
    }
}

// By which ages the cache ran.
#[derive(Clone, Copy)]
struct Ages {
    hot: Option<u32>,
    warm: Option<u32>,
}

impl fmt::Display for Ages {
    fn fmt<W: fmt::Write>(&self, f: &mut fmt::Formatter<W>) -> fmt::Result {
        match (self.hot, self.warm) {
            (Some(20), Some(200)) => write!(f, "by memcached's rule with ages"),
            (Some(hot), Some(warm)) => write!(f, "with ages of {hot} % and {warm} %"),
            _ => write!(f, "without ages"),
        }
    }
}

// The policy beside which all are told: LRU where it is compared, else the first.
fn base_of(row: &Row) -> Option<PolicyRun> {
    match row.others.iter().find(|run| run.policy == Policy::Lru) {
        Some(run) => Some(*run),
        None => row.others.first().copied(),
    }
}

fn put_sentence<R: Print>(rt: &R, ages: Ages, row: &Row, base: PolicyRun) -> io::Result<()> {
    let bump = Beside {
        misses: tally_of(&row.bump).misses,
        others: base.tally.misses,
    };
    let than = if bump.misses == bump.others {
        "as"
    } else {
        "than"
    };
    let base_name = name_of(base.policy);
    print!(rt;
        "bump, {ages}, misses {bump} {than} {base_name} at {} items",
        row.items
    )?;
    if let Some(class) = row.class {
        print!(rt; " of at most {class} bytes")?;
    }
    for run in &row.others {
        if run.policy != base.policy {
            let beside = Beside {
                misses: run.tally.misses,
                others: base.tally.misses,
            };
            let name = name_of(run.policy);
            print!(rt; "; {name} {beside}")?;
        }
    }
    println!(rt; ".")
}

/// Prints for each size how many percent of an LRU's misses the cache has less or more, and so of each policy that is
/// compared. Where no LRU is compared it is the first of them in its place; where none is, or nothing missed, nothing is said.
pub fn put_sentences<R: Print>(rt: &R, options: &Options<'_>, rows: &[Row]) -> io::Result<()> {
    let ages = Ages {
        hot: options.plan.config.hot_age,
        warm: options.plan.config.warm_age,
    };
    let mut is_first = true;
    for row in rows {
        if let Some(base) = base_of(row) {
            if base.tally.misses > 0 {
                if is_first {
                    println!(rt; "")?;
                }
                is_first = false;
                put_sentence(rt, ages, row, base)?;
            }
        }
    }
    Ok(())
}

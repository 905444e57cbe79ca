//! What the runs through caches of one size came to.
ghost use Rattle.std.specs.Prelude.{◌≡◌};

use replay_policies::{Policy, Tally};
use replay_runs::RunOutcome;
use std::alloc::{AllocError, Global};

/// The plain policies, in the order in which they are told.
pub const POLICIES: [Policy; 5] = [
    Policy::Lru,
    Policy::Fifo,
    Policy::Clock,
    Policy::Sieve,
    Policy::S3Fifo,
];

/// What a plain policy came to.
#[derive(Clone, Copy)]
pub struct PolicyRun {
    /// Which it is.
    pub policy: Policy,

    /// Its hits and misses.
    pub tally: Tally,
}

/// The runs through caches of one size.
#[derive(Drop)]
pub struct Row {
    /// The largest size of the class whose accesses these are, in bytes; None where all are of one class.
    pub class: Option<u32>,

    /// How many bytes were shared out to the classes, where they were.
    pub bytes: Option<u64>,

    /// How many items a cache has.
    pub items: u32,

    /// What the cache came to.
    pub bump: RunOutcome,

    /// What the plain policies came to that are compared, in the order in which they are told.
    pub others: Vec<PolicyRun>,
}

impl Row {
    /// What a plain policy came to, where it is compared.
    pub fn tally_of_policy(&self, policy: Policy) -> Option<Tally> {
        for run in &self.others {
            if run.policy == policy {
                return Some(run.tally);
            }
        }
        None
    }
}

/// A plain policy's word, as `--compare` takes it.
pub fn word_of(policy: Policy) -> &'static str {
    match policy {
        Policy::Lru => "lru",
        Policy::Fifo => "fifo",
        Policy::Clock => "clock",
        Policy::Sieve => "sieve",
        Policy::S3Fifo => "s3fifo",
    }
}

/// The hits and misses of the cache alone.
pub fn tally_of(outcome: &RunOutcome) -> Tally
    ensures accesses { result.accesses ≡ outcome.now.accesses }
    ensures hits { result.hits ≡ outcome.now.hits }
    ensures misses { result.misses ≡ outcome.now.misses }
{
    Tally {
        accesses: outcome.accesses,
        hits: outcome.hits,
        misses: outcome.misses,
    }
}

/// How many hundredths of a percent so many are of others, to the nearest one, a half upwards; 0 of none. Each percent that
/// is told is so rounded: 2 of 3 are 66.67.
pub fn hundredths(count: u64, others: u64) -> u64 {
    let of = u128::from(others.max(1));
    let rounded = (u128::from(count) * 10_000 + of / 2) / of;
    u64::try_from(rounded).unwrap_or(u64::MAX)
}

/// How many hundredths of a percent of the accesses missed.
pub fn missed(tally: &Tally) -> u64 {
    hundredths(tally.misses, tally.accesses)
}

/// The rows by the sizes of their caches, the smallest first.
pub fn by_size(alloc: Global, rows: &[Row]) -> Result<Vec<&Row>, AllocError> {
    let mut sorted: Vec<&Row> = rows.iter().collect(alloc)?;
    sorted.sort_by_key(|row| row.items)?;
    Ok(sorted)
}

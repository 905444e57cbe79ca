//! What a replay came to.
ghost use Rattle.std.specs.Prelude.{◌≡◌, ◌+◌};
ghost use Rattle.replay_policies.specs.Tallies.{no_accesses, counted_access};

/// How many accesses a replay had, and how many of them were hits and misses.
#[derive(Clone, Copy, Debug, PartialEq, Eq)]
pub struct Tally {
    /// How many accesses there were: hits and misses together.
    pub accesses: u64,

    /// How many of them asked for a key that was in the cache.
    pub hits: u64,

    /// How many of them asked for a key that wasn't.
    pub misses: u64,
}

impl Tally {
    // There was no access yet.
    pub(crate) fn new() -> Tally
        ensures { result ≡ no_accesses }
    {
        Tally {
            accesses: 0,
            hits: 0,
            misses: 0,
        }
    }

    // An access was made, which hit or not. Past 2^64 - 1 accesses none is counted, so that no count wraps.
    pub(crate) fn count(&mut self, hit: bool)
        requires sum { self.old.hits + self.old.misses ≡ self.old.accesses }
        ensures counted { self.new ≡ counted_access hit self.old }
        ensures sum { self.new.hits + self.new.misses ≡ self.new.accesses }
    {
        if self.accesses == u64::MAX {
            return;
        }
        self.accesses += 1;
        if hit {
            self.hits += 1;
        } else {
            self.misses += 1;
        }
    }
}

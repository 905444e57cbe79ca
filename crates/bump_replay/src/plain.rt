//! The run of a plain policy. A key that is deleted is removed from it, and so is one that has expired, once it is asked for
//! or put again: its place is free then, as in a cache by that policy.
use access_logs::Operation;
use replay_policies::{Policy, PolicyFault, Replay, Tally};
use replay_runs::{Asked, ReplayFault};
use std::alloc::{AllocError, Global};

// When what keys have expires, by their numbers in the log: 0 where it never does.
#[derive(Drop)]
struct Ends {
    of_key: Vec<u64>,
}

impl Ends {
    fn new(alloc: Global) -> Ends {
        Ends {
            of_key: Vec::new(alloc),
        }
    }

    // Whether what a key has has expired.
    fn has_passed(&self, key: u32, now: u64) -> bool {
        match self.of_key.get(key as usize) {
            Some(end) => *end != 0 && *end <= now,
            None => false,
        }
    }

    // When what a key has now expires. It is refused only for want of memory.
    fn set(&mut self, key: u32, end: u64) -> Result<(), AllocError> {
        for _ in self.of_key.len()..(key as usize).saturating_add(1) {
            self.of_key.push(0)?;
        }
        if let Some(place) = self.of_key.get_mut(key as usize) {
            *place = end;
        }
        Ok(())
    }
}

// A plain policy's run.
#[derive(Drop)]
struct PlainRun {
    replay: Replay,
    ends: Ends,
    tally: Tally,
}

impl PlainRun {
    // An access: whether the policy had the key, and it hadn't expired. What comes in for it where it hadn't, or is put, has
    // its own end.
    fn access(
        &mut self,
        asked: &Asked<'_>,
        place: usize,
        key: u32,
        is_put: bool,
    ) -> Result<bool, AllocError> {
        if self.ends.has_passed(key, asked.time(place)) {
            self.replay.remove(key);
        }
        let is_hit = self.replay.access(key)?;
        if is_put || !is_hit {
            self.ends.set(key, asked.expires(place))?;
        }
        Ok(is_hit)
    }

    // A get, and a put where that finds nothing.
    fn get(&mut self, asked: &Asked<'_>, place: usize, key: u32) -> Result<(), AllocError> {
        let is_hit = self.access(asked, place, key, false)?;
        self.tally.accesses = self.tally.accesses.saturating_add(1);
        if is_hit {
            self.tally.hits = self.tally.hits.saturating_add(1);
        } else {
            self.tally.misses = self.tally.misses.saturating_add(1);
        }
        Ok(())
    }

    // Follows what is asked for at a place.
    fn follow(&mut self, asked: &Asked<'_>, place: usize, key: u32) -> Result<(), AllocError> {
        match asked.operation(place) {
            Operation::Get => self.get(asked, place, key)?,
            Operation::Set => {
                self.access(asked, place, key, true)?;
            }
            Operation::Delete => {
                self.replay.remove(key);
            }
            Operation::Other => {}
        }
        Ok(())
    }
}

// Runs a policy where keys are put alone, deleted or expire.
fn run_by_ends(
    alloc: Global,
    policy: Policy,
    items: u32,
    asked: &Asked<'_>,
) -> Result<Tally, PolicyFault> {
    let mut run = PlainRun {
        replay: Replay::new(alloc, policy, items)?,
        ends: Ends::new(alloc),
        tally: Tally {
            accesses: 0,
            hits: 0,
            misses: 0,
        },
    };
    for (place, key) in asked.keys.iter().enumerate() {
        run.follow(asked, place, *key)?;
    }
    Ok(run.tally)
}

/// Runs a plain policy through what a log asks for, and counts its gets.
pub fn run(
    alloc: Global,
    policy: Policy,
    items: u32,
    asked: &Asked<'_>,
) -> Result<Tally, ReplayFault> {
    let run = if asked.operations.is_empty() && asked.ttls.is_empty() {
        replay_policies::replay(alloc, policy, items, asked.keys)
    } else {
        run_by_ends(alloc, policy, items, asked)
    };
    match run {
        Ok(tally) => Ok(tally),
        Err(_) => Err(ReplayFault::Memory),
    }
}

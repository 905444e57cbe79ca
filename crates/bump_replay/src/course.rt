//! What a log, or a part of it, asks for in turn.
use access_logs::{Log, Operation};
use replay_runs::Asked;
use std::alloc::{AllocError, Global};

/// Accesses in turn: of each the key, and what else the log tells of it.
#[derive(Drop)]
pub struct Course {
    /// The keys, by number.
    pub keys: Vec<u32>,

    /// Their items' sizes, where the log tells them.
    pub sizes: Vec<u32>,

    /// The accesses' times, where it tells them.
    pub times: Vec<u64>,

    /// What is asked for, where it tells that.
    pub operations: Vec<Operation>,

    /// After how long what is put expires, where it tells that.
    pub ttls: Vec<u64>,
}

impl Course {
    /// No access.
    pub fn new(alloc: Global) -> Course {
        Course {
            keys: Vec::new(alloc),
            sizes: Vec::new(alloc),
            times: Vec::new(alloc),
            operations: Vec::new(alloc),
            ttls: Vec::new(alloc),
        }
    }

    /// Adds the access of a log at a place.
    pub fn add(&mut self, log: &Log, place: usize) -> Result<(), AllocError> {
        if let Some(key) = log.accesses.get(place) {
            self.keys.push(*key)?;
        }
        if let Some(size) = log.sizes.get(place) {
            self.sizes.push(*size)?;
        }
        if let Some(time) = log.times.get(place) {
            self.times.push(*time)?;
        }
        if let Some(operation) = log.operations.get(place) {
            self.operations.push(*operation)?;
        }
        if let Some(ttl) = log.ttls.get(place) {
            self.ttls.push(*ttl)?;
        }
        Ok(())
    }

    /// What a run is asked for.
    pub fn asked(&self) -> Asked<'_> {
        Asked {
            keys: &self.keys,
            times: &self.times,
            operations: &self.operations,
            ttls: &self.ttls,
        }
    }
}

/// What a run of a whole log is asked for.
pub fn asked_of(log: &Log) -> Asked<'_> {
    Asked {
        keys: &log.accesses,
        times: &log.times,
        operations: &log.operations,
        ttls: &log.ttls,
    }
}

/// How many accesses of a log are neither gets, sets nor deletes.
pub fn passed_over(log: &Log) -> u64 {
    let mut count = 0u64;
    for operation in &log.operations {
        if *operation == Operation::Other {
            count = count.saturating_add(1);
        }
    }
    count
}

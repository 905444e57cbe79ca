//! A plain map of what a cache of entries has.
use entry_cache::Put;
use std::alloc::{AllocError, Global};

/// What a key has: the number of its value, when it expires, and its place.
#[derive(Clone, Copy)]
pub struct Line {
    pub key: u32,
    pub number: u64,
    pub expires: u64,
    pub place: u64,
}

impl Line {
    /// Whether it has expired.
    pub fn is_over(&self, now: u64) -> bool {
        self.expires != 0 && self.expires <= now
    }
}

/// All lines, by their keys.
#[derive(Drop)]
pub struct Book {
    lines: Vec<Line>,
}

impl Book {
    pub fn new(alloc: Global) -> Book {
        Book {
            lines: Vec::new(alloc),
        }
    }

    /// How many there are.
    pub fn len(&self) -> usize {
        self.lines.len()
    }

    /// The line of a key.
    pub fn line(&self, key: u32) -> Option<Line> {
        self.lines.iter().find(|line| line.key == key).copied()
    }

    // Whether there is no line with this place any more, which there was if it is one.
    fn take(&mut self, place: Option<u64>) -> bool {
        let Some(place) = place else {
            return true;
        };
        let before = self.lines.len();
        self.lines.retain(|line| line.place != place);
        self.lines.len() < before
    }

    /// Notes a put. It tells whether it may come to this: what the key had is told, and what was evicted was there.
    pub fn put(&mut self, line: Line, rows: Put<u64, u64>) -> Result<bool, AllocError> {
        let had = self.line(line.key).map(|line| line.place);
        let right = rows.old == had && self.take(rows.old);
        let there = self.take(rows.evicted.map(|row| row.value));
        self.lines.push(line)?;
        Ok(right && there)
    }

    /// Notes a removal. It tells whether it may come to this.
    pub fn remove(&mut self, key: u32, place: Option<u64>) -> bool {
        let had = self.line(key).map(|line| line.place);
        had == place && self.take(place)
    }
}

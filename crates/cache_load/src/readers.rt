//! What a reader does.

use crate::values::{MOST_WRITERS, STAYING, Value, count, next, next_other, number_in};
use bump_cache::{CacheReader, LogName, Name};

// There are so many pairs of a writer and a key that is always there.
const NUMBERS: usize = 64;

/// What readers came to.
#[derive(Clone, Copy)]
pub struct Seen {
    /// So many gets they made.
    pub gets: u64,

    /// So many of them were of keys that are always there.
    pub staying: u64,

    /// So many of these found nothing.
    pub missing: u64,

    /// So many values were another key's, or damaged.
    pub wrong: u64,

    /// So many values were older than one of the same key and writer that the reader got before.
    pub older: u64,

    /// So many gets of other keys found something.
    pub others: u64,
}

/// A reader's part of the load.
#[derive(Drop)]
pub struct Part<N: Name + LogName> {
    /// Who gets.
    pub reader: CacheReader<N, u64, Value>,

    /// What the random numbers begin with.
    pub seed: u64,

    /// So many keys come and go.
    pub others: u64,

    /// So many gets it makes.
    pub gets: u64,
}

impl Seen {
    /// Nothing was got yet.
    pub fn new() -> Seen {
        Seen {
            gets: 0,
            staying: 0,
            missing: 0,
            wrong: 0,
            older: 0,
            others: 0,
        }
    }

    /// This and what another reader came to.
    pub fn add(&mut self, other: &Seen) {
        self.gets = self.gets.saturating_add(other.gets);
        self.staying = self.staying.saturating_add(other.staying);
        self.missing = self.missing.saturating_add(other.missing);
        self.wrong = self.wrong.saturating_add(other.wrong);
        self.older = self.older.saturating_add(other.older);
        self.others = self.others.saturating_add(other.others);
    }

    // Notes what a get of a key found that is always there. `newest` has the numbers that were got before.
    fn note_staying(&mut self, key: u64, got: Option<Value>, newest: &mut [u64]) {
        count(&mut self.staying, true);
        let Some(value) = got else {
            count(&mut self.missing, true);
            return;
        };
        let Some(number) = number_in(key, &value) else {
            count(&mut self.wrong, true);
            return;
        };
        let writer = number % u64::from(MOST_WRITERS);
        let at = key
            .wrapping_mul(u64::from(MOST_WRITERS))
            .wrapping_add(writer);
        if let Some(before) = newest.get_mut(at as usize) {
            count(&mut self.older, number < *before);
            *before = number;
        }
    }

    // Notes what a get of another key found.
    fn note_other(&mut self, key: u64, got: Option<Value>) {
        if let Some(value) = got {
            count(&mut self.others, true);
            count(&mut self.wrong, number_in(key, &value).is_none());
        }
    }
}

/// A reader's thread: it gets in turn a key that is always there and another one.
pub fn read<N: Name + LogName>(part: Part<N>) -> Seen {
    let Part {
        mut reader,
        mut seed,
        others,
        gets,
    } = part;
    let mut newest = [0u64; NUMBERS];
    let mut seen = Seen::new();
    for now in 0..gets {
        if now % 2 == 0 {
            let key = next(&mut seed) % STAYING;
            seen.note_staying(key, reader.get(&key, now), &mut newest);
        } else {
            let key = next_other(&mut seed, others);
            seen.note_other(key, reader.get(&key, now));
        }
        count(&mut seen.gets, true);
    }
    seen
}

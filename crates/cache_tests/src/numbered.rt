//! Keys and values that stand for numbers.

use bump_cache::{Bytes, Packed, TooLong};

/// A key or a value that stands for a number below 2^48.
pub trait Numbered: Packed {
    /// The one that stands for a number.
    fn of(number: u64) -> Result<Self, TooLong>;

    /// The number, or `NO_NUMBER` where it isn't what `of` makes of one.
    fn number(&self) -> u64;
}

/// What stands for no number.
pub const NO_NUMBER: u64 = u64::MAX;

/// The number of what was answered, if something was.
pub fn number_of<T: Numbered>(answer: &Option<T>) -> Option<u64> {
    match answer {
        Some(found) => Some(found.number()),
        None => None,
    }
}

impl Numbered for u64 {
    fn of(number: u64) -> Result<u64, TooLong> {
        Ok(number)
    }

    fn number(&self) -> u64 {
        *self
    }
}

// Five in a row have one first part, and those with one second part have another first one.
impl Numbered for (u64, u32) {
    fn of(number: u64) -> Result<(u64, u32), TooLong> {
        Ok((number / 5, (number % 5) as u32))
    }

    fn number(&self) -> u64 {
        if self.1 < 5 {
            self.0.saturating_mul(5).saturating_add(u64::from(self.1))
        } else {
            NO_NUMBER
        }
    }
}

// The number itself stands in so many bytes.
const OWN: usize = 6;

// Room for the longest string.
const ROOM: usize = 510;

// How many bytes the string of a number has, of at most so many: none for the number 0, each fourth one as many as there
// may be, and the others some number between these.
fn length_of(number: u64, most: usize) -> usize {
    let above = most.saturating_sub(OWN) as u64;
    match number {
        0 => 0,
        _ if number % 4 == 1 => most,
        _ => OWN.saturating_add((number % above.saturating_add(1)) as usize),
    }
}

// The byte of a number's string at a place.
fn byte_of(number: u64, at: usize) -> u8 {
    if at < OWN {
        ((number >> (8 * at as u32)) % 256) as u8
    } else {
        (number.wrapping_add(at as u64) % 251) as u8
    }
}

impl<const W: usize> Numbered for Bytes<W> {
    fn of(number: u64) -> Result<Bytes<W>, TooLong> {
        let mut bytes = [0u8; ROOM];
        for (at, byte) in bytes.iter_mut().enumerate() {
            *byte = byte_of(number, at);
        }
        let most = W.saturating_mul(8).saturating_sub(2);
        match bytes.get(..length_of(number, most)) {
            Some(own) => Bytes::new(own),
            None => Err(TooLong),
        }
    }

    fn number(&self) -> u64 {
        let length = self.len();
        let mut number = 0u64;
        for at in 0..length {
            if at < OWN {
                number |= u64::from(self.byte(at)) << (8 * at as u32);
            } else if self.byte(at) != byte_of(number, at) {
                return NO_NUMBER;
            }
        }
        if length == length_of(number, W.saturating_mul(8).saturating_sub(2)) {
            number
        } else {
            NO_NUMBER
        }
    }
}

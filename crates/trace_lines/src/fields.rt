//! The fields of a line: numbers, names and segments.

ghost use Rattle.std.specs.Prelude.{◌≡◌, ◌+◌, ◌*◌, ◌<◌, ◌^◌, SomeIff};
ghost use Rattle.std.specs.List.{list_all};
ghost use Rattle.trace_lines.specs.Fields.{U32, U64, Name, Segment, number_of, is_name_byte, field};
ghost use Rattle.trace_lines.specs.Seen.{Gives};

use crate::faults::Fault;
use bump_rules::Tail;

// The number with one more digit behind it, below 2^64.
fn with_digit(number: u64, digit: u8) -> Option<u64>
    ensures { SomeIff result (number * 10 + digit < 2 ^ 64) (number * 10 + digit) }
{
    number.checked_mul(10)?.checked_add(u64::from(digit))
}

/// The number below 2^64 that these decimal digits spell, without leading zeros. None where they are none, where
/// another byte stands among them, or where the number is larger.
pub fn read_number(digits: &[u8]) -> Option<u64>
    ensures { result ≡ number_of (2 ^ 64) digits.now }
{
    if digits.is_empty() {
        return None;
    }
    if digits[0] == b'0' && digits.len() > 1 {
        return None;
    }
    let mut number = 0u64;
    for byte in digits {
        if !byte.is_ascii_digit() {
            return None;
        }
        number = with_digit(number, *byte - b'0')?;
    }
    Some(number)
}

/// A field that is a number below 2^64.
#[tactic(auto, unfolding(crate::specs::Fields::field))]
pub fn u64_field(word: &[u8]) -> Result<u64, Fault>
    ensures { Gives (λ n. n) result (field U64 word.now) }
{
    match read_number(word) {
        Some(n) => Ok(n),
        None => Err(Fault::Number),
    }
}

/// A field that is a number below 2^32.
#[tactic(auto, unfolding(crate::specs::Fields::field))]
pub fn u32_field(word: &[u8]) -> Result<u32, Fault>
    ensures { Gives (λ n. n) result (field U32 word.now) }
{
    match read_number(word) {
        Some(n) if n <= 0xffff_ffff => Ok(n as u32),
        _ => Err(Fault::Number),
    }
}

fn is_name_byte(b: u8) -> bool
    ensures { result ≡ is_name_byte b }
{
    matches!(b, b'a'..=b'z' | b'0'..=b'9' | b'_')
}

fn has_name_bytes(word: &[u8]) -> bool
    ensures { result ≡ list_all is_name_byte word.now }
{
    word.iter().all(|b| is_name_byte(*b))
}

/// A field that is a name: 1 to 32 bytes of `a` to `z`, `0` to `9` and `_`.
#[tactic(auto, unfolding(crate::specs::Fields::field))]
pub fn name_field(word: &[u8]) -> Result<&str, Fault>
    ensures { Gives (λ w. w.now) result (field Name word.now) }
{
    if word.is_empty() {
        return Err(Fault::Name);
    }
    if word.len() > 32 {
        return Err(Fault::Name);
    }
    if has_name_bytes(word) {
        // All of them are ASCII, so they are text: it isn't looked at once more.
        Ok(unsafe { str::from_utf8_unchecked(word) })
    } else {
        Err(Fault::Name)
    }
}

/// A field that is a list to be pulled from: `hot`, `warm`, `cold` or `evict`.
#[tactic(auto, unfolding(crate::specs::Fields::field))]
pub fn segment_field(word: &[u8]) -> Result<Tail, Fault>
    ensures { Gives (λ t. t) result (field Segment word.now) }
{
    if word == b"hot".as_slice() {
        Ok(Tail::Hot)
    } else if word == b"warm".as_slice() {
        Ok(Tail::Warm)
    } else if word == b"cold".as_slice() {
        Ok(Tail::Cold)
    } else if word == b"evict".as_slice() {
        Ok(Tail::Evict)
    } else {
        Err(Fault::Segment)
    }
}

//! Numbers that a text tells.

/// What stands behind these words, where they stand first.
pub(super) fn behind<'a>(text: &'a [u8], words: &[u8]) -> Option<&'a [u8]> {
    for at in 0..text.len() {
        if let Some(rest) = text[at..].strip_prefix(words) {
            return Some(rest);
        }
    }
    None
}

/// The number behind these words, where they stand first.
pub(super) fn number_behind(text: &[u8], words: &[u8]) -> Option<u64> {
    let mut number = 0u64;
    for byte in behind(text, words)? {
        if !byte.is_ascii_digit() {
            break;
        }
        let digit = u64::from(byte.saturating_sub(b'0'));
        number = number.saturating_mul(10).saturating_add(digit);
    }
    Some(number)
}

/// What the numbers behind each of the words come to.
pub(super) fn sum_behind(text: &[u8], words: &[&[u8]]) -> Option<u64> {
    let mut sum = 0u64;
    for word in words {
        sum = sum.saturating_add(number_behind(text, word)?);
    }
    Some(sum)
}

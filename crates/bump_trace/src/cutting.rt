//! The lines of the input: what stands between line feeds.

ghost use Rattle.std.specs.Prelude.{◌≡◌, ◌==◌, ◌<◌, ◌∷◌, [], MatchOption, length, position};
ghost use Rattle.bump_trace.specs.Meaning.{parts_of};

// The place of the first line feed.
fn feed(bytes: &[u8]) -> Option<usize>
    ensures { result ≡ position (λ b. b == 10) bytes.now }
{
    bytes.iter().position(|b| *b == b'\n')
}

/// The first line, and what stands behind its line feed.
pub fn cut(bytes: &[u8]) -> Option<(&[u8], &[u8])>
    ensures { MatchOption result (parts_of bytes.now ≡ bytes.now ∷ [])
        (λ found. (parts_of bytes.now ≡ found.0.now ∷ parts_of found.1.now) × (length found.1.now < length bytes.now)) }
{
    match feed(bytes) {
        Some(end) => Some((&bytes[..end], &bytes[end + 1..])),
        None => None,
    }
}

//! What tests compare. Each comparison is proved here, once, and not where it is made: so a failure names this file,
//! and says what was compared.
ghost use Rattle.std.specs.Prelude.{◌≡◌, true};

use super::*;
use bump_heads::Head;
use std::fmt::Debug;
use std::process::Abort;

/// What was told is what was wanted.
pub fn expect<T: PartialEq + Debug, R: Abort>(rt: &R, what: &str, told: &T, wanted: &T) {
    assert_eq!(rt; told, wanted, "{what}");
}

/// It holds.
pub fn expect_true(rt: &impl Abort, what: &str, holds: bool)
    ensures { holds ≡ true }
{
    assert!(rt; holds, "{what}");
}

/// This head was found.
pub fn expect_head(rt: &impl Abort, told: Head, wanted: Head) {
    assert_eq!(rt; told, wanted);
}

/// A chunk has this head and this time.
pub fn expect_seen<N: Name>(rt: &impl Abort, heads: &Heads<N>, chunk: u32, wanted: (Head, u64)) {
    assert!(rt; chunk < heads.chunks());
    let (head, time, _seat) = heads.see(chunk);
    assert_eq!(rt; (head, time), wanted, "of chunk {chunk}");
}

// The head of a chunk.
fn head_of<N: Name>(rt: &impl Abort, heads: &Heads<N>, chunk: u32) -> Head {
    assert!(rt; chunk < heads.chunks());
    heads.see(chunk).0
}

/// A chunk has this head.
pub fn expect_head_of<N: Name>(rt: &impl Abort, heads: &Heads<N>, chunk: u32, wanted: Head) {
    expect_head(rt, head_of(rt, heads, chunk), wanted);
}

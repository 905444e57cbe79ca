//! What tests compare. Each comparison is proved here, once, and not where it is made: so a failure names this file,
//! and says what was compared.
use std::fmt::Debug;
use std::process::Abort;

/// What was told is what was wanted.
pub fn expect<T: PartialEq + Debug, R: Abort>(rt: &R, what: &str, told: &T, wanted: &T) {
    assert_eq!(rt; told, wanted, "{what}");
}

/// What was told of this is what was wanted.
pub fn expect_of<T: PartialEq + Debug, A: Debug, R: Abort>(
    rt: &R,
    what: &str,
    of: &A,
    told: &T,
    wanted: &T,
) {
    assert_eq!(rt; told, wanted, "{what} {of:?}");
}

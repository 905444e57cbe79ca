//! What tests compare. Each comparison is proved here, once for each type, and not where it is made.
use std::fmt::Debug;
use std::process::Abort;

/// What was told is what was wanted.
pub fn expect<T: PartialEq + Debug>(rt: &impl Abort, what: &str, told: &T, wanted: &T) {
    assert_eq!(rt; told, wanted, "{what}");
}

/// This holds.
pub fn expect_so(rt: &impl Abort, what: &str, is_so: bool) {
    assert!(rt; is_so, "{what}");
}

macro_rules! expect_eq {
    ($rt:expr; $told:expr, $wanted:expr $(,)?) => {
        expect($rt, stringify!($told), &$told, &$wanted)
    };
}

macro_rules! expect_that {
    ($rt:expr; $told:expr $(,)?) => {
        expect_so($rt, stringify!($told), $told)
    };
}

pub(crate) use expect_eq;
pub(crate) use expect_that;

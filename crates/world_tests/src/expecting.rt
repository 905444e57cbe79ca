//! What tests compare. Each comparison is proved here, once, and not where it is made: so a failure names this file,
//! and says what was compared.
use std::alloc::{AllocError, Global};
use std::fmt::{Debug, Display};
use std::process::Abort;

/// What was told is what was wanted.
pub fn expect<T: PartialEq + Debug, R: Abort>(rt: &R, what: &str, told: &T, wanted: &T) {
    assert_eq!(rt; told, wanted, "{what}");
}

/// It is written so.
pub fn expect_text<T: Display, R: Abort>(
    rt: &R,
    alloc: Global,
    told: &T,
    wanted: &str,
) -> Result<(), AllocError> {
    let text = format!(in alloc; "{told}")?;
    assert_eq!(rt; text.as_str(), wanted);
    Ok(())
}

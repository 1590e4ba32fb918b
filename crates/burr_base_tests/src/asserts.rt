//! Asserts that name the case at which they fail. Words of a failure cost a proof as much as what is
//! asserted, so they stand here alone.
use std::process::Abort;

/// Asserts what holds of a case.
pub fn assert_case(rt: &impl Abort, case: &str, holds: bool) {
    assert!(rt; holds, "{case}");
}

/// Asserts what holds at a number.
pub fn assert_at(rt: &impl Abort, number: usize, holds: bool) {
    assert!(rt; holds, "{number}");
}

/// Asserts the text that is made of a case.
pub fn assert_text(rt: &impl Abort, case: &str, text: &str, wanted: &str) {
    assert!(rt; text == wanted, "{case}: {text}");
}

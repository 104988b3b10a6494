//! The comparison that tests make.

use std::fmt::Debug;
use std::process::Abort;

/// Ends the test where a value is not the one that is wanted, and shows both. An `assert_eq!` puts the texts of both into
/// the proof of each test that has it; this is proved once, for all types. In a loop the case stands beside the values.
pub(crate) fn assert_same<R: Abort, T: PartialEq + Debug + Drop>(rt: &R, found: T, wanted: T) {
    assert_eq!(*rt; found, wanted);
}

//! How the tests compare.
use std::process::Abort;

/// Stops the test where the two aren't the same. A test that calls it is proved much faster than one with as many
/// assertions.
pub(crate) fn same<T: Copy + PartialEq>(rt: &impl Abort, got: T, wanted: T) {
    assert!(rt; got == wanted);
}

//! How the tests compare.
use std::fmt::Debug;
use std::process::Abort;

/// Stops the test where the two aren't the same. A test that calls it is proved much faster than one with as many
/// `assert_eq!`.
pub(crate) fn same<T: Copy + Debug + PartialEq>(rt: &impl Abort, got: T, wanted: T) {
    assert_eq!(rt; got, wanted);
}

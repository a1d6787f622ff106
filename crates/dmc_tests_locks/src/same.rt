//! What a test asserts of two values, in one call.
use std::fmt::Debug;
use std::process::Abort;

/// Both values are the same.
pub fn assert_same<X: PartialEq + Debug>(rt: &impl Abort, left: &X, right: &X) {
    assert_eq!(rt; left, right);
}

//! Values compared by calls, since functions that assert much themselves take a check long.

use std::fmt::Debug;
use std::process::Abort;

/// A value is the wanted one.
pub fn same<T: Debug + PartialEq, R: Abort>(rt: &R, found: &T, wanted: &T) {
    assert_eq!(rt; found, wanted);
}

//! What tests compare. Here it is proved once; a comparison that panics is dear to prove in each place.
use std::fmt::Debug;
use std::process::Abort;

/// Both are the same.
pub fn same<R: Abort, T: PartialEq + Debug>(rt: &R, got: &T, wanted: &T) {
    assert_eq!(rt; got, wanted);
}

/// Both are the same in this case.
pub fn same_in<R: Abort, C: Debug, T: PartialEq + Debug>(rt: &R, case: &C, got: &T, wanted: &T) {
    assert_eq!(rt; got, wanted, "{case:?}");
}

//! Assertions as calls. A test is proved as any function, and the sooner the less it does itself: `assert_eq!` puts
//! some twenty steps into it, a call one.

use std::fmt::Debug;
use std::process::Abort;

/// Asserts that what was found is what is wanted.
pub(crate) fn assert_same<T: Debug + Drop + PartialEq>(rt: &impl Abort, found: T, wanted: T) {
    assert_eq!(rt; found, wanted);
}

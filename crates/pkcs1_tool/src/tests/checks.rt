//! Assertions as calls, so that each is proved once. `assert!` is used where later code relies on it.
use std::fmt::Debug;
use std::process::Abort;

/// Asserts that both are equal.
pub fn equal<T: PartialEq + Debug + Drop>(rt: &impl Abort, got: T, want: T) {
    assert_eq!(rt; got, want);
}

/// Asserts that it is true.
pub fn holds(rt: &impl Abort, it: bool) {
    assert!(rt; it);
}

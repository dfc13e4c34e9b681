mod builder;
mod counting;
mod numbers;
mod readers;
mod refusal;
mod tables;

use std::alloc::Global;
use std::fmt::Debug;
use std::process::Abort;
use std::test::Fail;

/// Ends the test if the two differ, and prints both. It is `assert_eq!` in a function, since the
/// proof of what that prints is long and is done at each place.
fn same<T: Debug + PartialEq + Drop, H: Abort>(rt: &H, left: T, right: T) {
    assert_eq!(rt; left, right);
}

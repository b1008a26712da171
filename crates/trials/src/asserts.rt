// What the tests assert, as a function: the macro, written out in each test, takes longer to prove.
use std::fmt::Debug;
use std::process::Abort;

// Fails the test where the two differ, and prints both.
pub(crate) fn assert_equal<T: PartialEq + Debug + Drop>(rt: &impl Abort, found: T, wanted: T) {
    assert_eq!(*rt; found, wanted);
}

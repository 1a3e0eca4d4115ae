// What was found, beside what is due.

use std::fmt::Debug;
use std::process::Abort;

/// What was found is what is due.
pub(crate) fn same<T: PartialEq + Debug + Drop>(rt: &impl Abort, found: T, due: T, what: &str) {
    assert_eq!(rt; found, due, "{what}");
}

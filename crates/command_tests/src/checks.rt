// Comparisons, each in a function of its own, since each assertion is proved where it stands.
use std::fmt::Debug;
use std::process::Abort;

pub(crate) fn holds(rt: &impl Abort, what: &str, holds: bool) {
    assert!(rt; holds, "{what}");
}

pub(crate) fn same<T: Copy + Debug + PartialEq>(rt: &impl Abort, what: &str, got: T, wanted: T) {
    assert_eq!(rt; got, wanted, "{what}");
}

// The bytes are those of a text.
pub(crate) fn reads(rt: &impl Abort, what: &str, bytes: &[u8], text: &str) {
    assert_eq!(rt; bytes, text.as_bytes(), "{what}");
}

// Comparisons, each in a function of its own: an assertion is proved wherever it stands, and a call of these is not.
use std::fmt::Debug;
use std::process::Abort;

pub(crate) fn holds(rt: &impl Abort, at: &impl Debug, holds: bool) {
    assert!(rt; holds, "at {at:?}");
}

pub(crate) fn same<T: Copy + Debug + PartialEq>(
    rt: &impl Abort,
    at: &impl Debug,
    got: T,
    wanted: T,
) {
    assert_eq!(rt; got, wanted, "at {at:?}");
}

// The case alone is shown where they differ: to show what was found takes a proof for each part of it.
pub(crate) fn same_case<T: Copy + PartialEq>(
    rt: &impl Abort,
    case: &impl Debug,
    got: T,
    wanted: T,
) {
    assert!(rt; got == wanted, "at {case:?}");
}

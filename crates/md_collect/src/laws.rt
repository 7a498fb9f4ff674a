//! What holds of every list of reports.
ghost use Rattle.md_collect.specs.Lists.{EveryList};

/// Does nothing. Whatever the reports, their repeats, their strangers and their order: the target
/// holds the bytes of those that count and is otherwise as it was. A write of the target that fails
/// ends the counting, and its chunk may hold any bytes.
pub fn every_list()
    ensures { EveryList }
{}

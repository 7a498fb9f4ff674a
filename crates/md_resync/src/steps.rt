//! What holds of the steps that a resync goes by.

ghost use Rattle.md_resync.specs.StepRuns.{StepsAreRuns};
ghost use Rattle.md_resync.specs.StepCrashes.{CrashesAreOfRuns};

/// From any moment of a mirror's life on, the first of the steps by which such a call goes are a run of the
/// mirror, where devices do what they answer, and the others go on from where it ends. What a crash leaves before, in or
/// after any of them, a copy of a run of sectors among them, it leaves of a run: so the laws over lives speak of it.
pub fn every_step()
    ensures runs { StepsAreRuns }
    ensures crashed { CrashesAreOfRuns }
{}

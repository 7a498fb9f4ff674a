//! What a crash leaves within `write` and within `stop`, in the life of a mirror. The functions do nothing:
//! their contracts are the theorems.

ghost use Rattle.md_write.specs.WriteCrashes.{CrashesHaltingStop, CrashesHaltingWrite, CrashesInHaltedWrite, CrashesInStop, CrashesInWrite};

/// A mirror has come to any moment of its life, and `write` does its steps. What a crash leaves before, in or after each
/// write of any of them, a crash of a run leaves: of the first of the steps, or of none. Within the write of a superblock
/// that fails, or is longer than a sector, it is asked that the old one, the new one or none was left.
pub fn within_write()
    ensures done { CrashesInWrite }
    ensures halted { CrashesInHaltedWrite }
    ensures halting { CrashesHaltingWrite }
{}

/// What a crash leaves within `stop`, a crash of a run leaves, whatever `stop` answers.
pub fn within_stop()
    ensures steps { CrashesInStop }
    ensures halting { CrashesHaltingStop }
{}

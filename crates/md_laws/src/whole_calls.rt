//! What holds of calls that are lists of events.

ghost use Rattle.md_laws.specs.HaltedWrites.{CrashesAtHaltedCopies, CrashesAtHaltedLog, CrashesAtHaltedMarks};
ghost use Rattle.md_laws.specs.CallCrashes.{CrashesAreTold, CrashesAtHalts, CrashesAtSteps};
ghost use Rattle.md_laws.specs.CopyCrashes.{CrashesAtCopies};
ghost use Rattle.md_laws.specs.CrashesWithin.{CrashesAtLog};
ghost use Rattle.md_laws.specs.ReadInTurn.{ReadingCallsAreRuns};
ghost use Rattle.md_laws.specs.WholeCalls.{AddIsACall, AdmitIsACall, CallsAreRuns, CheckpointIsACall, EnrolIsACall, FailIsACall, FailedAdmitIsACall, FailedCheckpointIsACall, FailedEnrolIsACall, FillIsACall, NoteBadIsACall, PrepareIsACall, ReAddIsACall, RemoveIsACall, RunsGoOn, SpoilIsACall, StoreLogFailureIsACall, StoreLogIsACall, TargetFailureIsACall};

/// A call that is a list of events (`Leads`) is a run of the mirror, from any moment of its life on, and
/// goes on with the run before it. So `every_run` speaks of it. It is asked that devices do what they
/// answer, and that each write of a superblock that failed on the way left the old superblock, the new one
/// or none, unless the event is that its member is spoiled.
pub fn every_call()
    ensures run { CallsAreRuns }
    ensures goes_on { RunsGoOn }
{}

/// Where members fail and leave by calls, these are in the list too: each `fail` and each `remove` that answers `Ok`
/// is a list of one event.
pub fn leaving_calls()
    ensures fail { FailIsACall }
    ensures remove { RemoveIsACall }
{}

/// A device that comes in or is taken back is in the list too: each `add` and each `re_add` that answers `Ok` is a list of
/// one event, where that device does what it answers.
pub fn joining_calls()
    ensures add { AddIsACall }
    ensures re_add { ReAddIsACall }
{}

/// A rebuild is in the list: what its worker gives to one member while the devices are lent, a superblock of that member that
/// could not be stored, and `enrol`, which is two events: the member is prepared, and comes into sync by the write of its
/// superblock. Where that write fails, it is prepared and spoiled, so that the next opening has to leave it out. Of an `enrol` that
/// fails by a write of the bitmap or the log `md_call_laws` speaks (`unfinished_enrols`).
pub fn rebuilding_calls()
    ensures fill { FillIsACall }
    ensures target { TargetFailureIsACall }
    ensures prepare { PrepareIsACall }
    ensures enrol { EnrolIsACall }
    ensures failed_enrol { FailedEnrolIsACall }
    ensures spoil { SpoilIsACall }
{}

/// `admit` of a spare, and `checkpoint` of a member that is recovering, are lists of one event each, done or
/// failed.
pub fn recovering_calls()
    ensures admit { AdmitIsACall }
    ensures failed_admit { FailedAdmitIsACall }
    ensures checkpoint { CheckpointIsACall }
    ensures failed_checkpoint { FailedCheckpointIsACall }
{}

/// A list that grows is in the list too: `note_bad`, `store_log`, and a write of the log that failed. A crash within `store_log` is
/// before it or after it, where the log changes in its first sector alone.
pub fn listing_calls()
    ensures note { NoteBadIsACall }
    ensures store { StoreLogIsACall }
    ensures failure { StoreLogFailureIsACall }
    ensures crashed { CrashesAtLog }
{}

/// A call that reads devices before its events and after the last (`LeadsReading`) is a run, too. It writes
/// no superblock that fails unless its member is spoiled, enrols no member, and stores no checkpoint.
pub fn every_reading_call()
    ensures { ReadingCallsAreRuns }
{}

/// Sectors are copied by one write of the device, but are an event each. What a crash leaves within that
/// write stands on the devices after a copy of some of the sectors. So it is what a crash between two events
/// leaves, of another list.
pub fn copy_crashes()
    ensures { CrashesAtCopies }
{}

/// What a crash leaves within a whole call, before, in or after each write of each of its steps, a crash of a
/// run leaves: of the first of its events, or of none. So `every_run` says of it what the next opening finds.
/// It is so of every list of steps, and of one that ends by a write that halted the mirror, as `write`,
/// `stop` and the storing of a rebuild do them. Within a superblock's write it is asked that the old one, the
/// new one or none was left, unless it is done and neither is longer than a sector. Of events after the crash
/// nothing is asked.
pub fn call_crashes()
    ensures steps { CrashesAtSteps }
    ensures halts { CrashesAtHalts }

    // What the devices tell of crashes after such a call, they tell of one of its steps.
    ensures told { CrashesAreTold }
{}

/// A write of marks, of a log or of a copy that fails and halts the mirror may leave any bytes in its range, and of these nothing is
/// said. Where a crash within it left it done or not done, and of a copy each sector as it was or as written, that stands on
/// the devices after a step that is done, or after a copy of some of the sectors: so it is what a crash between two events leaves, of another list.
pub fn halted_writes()
    ensures marks { CrashesAtHaltedMarks }
    ensures log { CrashesAtHaltedLog }
    ensures copy { CrashesAtHaltedCopies }
{}

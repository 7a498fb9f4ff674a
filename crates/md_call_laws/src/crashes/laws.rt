//! What holds of crashes and of resyncs in the life of a mirror. The functions do nothing: their contracts are the theorems.

ghost use Rattle.md_laws.specs.Lives.{AtEachMoment};
ghost use Rattle.md_call_laws.specs.Crashes.Agreement.{AgreesAtRest, ResyncsAgree};
ghost use Rattle.md_call_laws.specs.Crashes.Departed.{FindsOutSince, LeavesOut, StaleIsOut, StartsSince, StaysAway, StaysOutNext, StaysOutSince};
ghost use Rattle.md_call_laws.specs.Crashes.FirstOpening.{IsFoundAsOpened, LeavesAsOpened};
ghost use Rattle.md_call_laws.specs.Crashes.HaltedCalls.{CrashesAtEachHalt, CrashesAtHaltedResync, CrashesAtHaltedStop, CrashesAtHaltedWrite, CrashesAtUntoldResync};
ghost use Rattle.md_call_laws.specs.Crashes.JoiningCrashes.{NoneIsOpened, CrashesInAdd, CrashesInFailedAdd, CrashesInFailedReAdd, CrashesInReAdd, CrashesInRefusedAdd, CrashesInRefusedReAdd};
ghost use Rattle.md_call_laws.specs.Crashes.TornWrites.{ContentAfterCopy, ContentAfterLoneLog, ContentAfterLoneMarks, StartsAfterCopy, StartsAfterLoneLog, StartsAfterLoneMarks};

/// The members in sync agree: at each moment of each life at which the array is resynced, in each sector that no request
/// in flight touches and that the device of neither lists; and so after a resync that is done, wherever a life has come to,
/// in each sector of the array that neither lists.
pub fn members_agree()
    ensures at_rest { AtEachMoment AgreesAtRest }
    ensures resynced { ResyncsAgree }
{}

/// A whole call that a write halted, where a crash left that write done or not done, and of a copy each sector as it was or as
/// written: what was left, a crash of a run leaves. That is a run of what the call did before that write, or of that and the
/// same step done. It is so of every list of steps, and of `write`, `stop` and `resync`.
pub fn halted_calls()
    ensures steps { CrashesAtEachHalt }
    ensures write { CrashesAtHaltedWrite }
    ensures stop { CrashesAtHaltedStop }
    ensures untold { CrashesAtUntoldResync }
    ensures resync { CrashesAtHaltedResync }
{}

/// A write that halted the mirror may leave any bytes in its range. The next opening, of devices that a crash within that
/// write left, begins another life all the same: its members in sync were so before, and the stored marks cover what they
/// differ in. So it is of a copy, whose chunk is marked on each member in sync; and of marks and of a log, where no other
/// member was in sync. The content stays, but where a copy may have changed it, where it was not at rest, or where a log listed.
pub fn torn_writes()
    ensures copy { StartsAfterCopy }
    ensures copy_content { ContentAfterCopy }
    ensures lone_marks { StartsAfterLoneMarks }
    ensures lone_content { ContentAfterLoneMarks }
    ensures lone_log { StartsAfterLoneLog }
    ensures lone_log_content { ContentAfterLoneLog }
{}

/// A crash within an `add` or a `re_add`, before it is done, is one at the moment before: of the mirror's devices, which are as
/// they were, whatever comes of the call. Where it answers `Ok`, the device that was coming has a superblock that reads as when
/// it was given, so that an opening reads there what it would have read; or, within `add`, none, and then no mirror is
/// opened with it. Superblocks of at most 128 roles are meant, which end within their first sectors; or, of a disk that `add`
/// is given, another magic number in that place.
pub fn joining_crashes()
    ensures add { CrashesInAdd }
    ensures failed_add { CrashesInFailedAdd }
    ensures refused_add { CrashesInRefusedAdd }
    ensures re_add { CrashesInReAdd }
    ensures failed_re_add { CrashesInFailedReAdd }
    ensures refused_re_add { CrashesInRefusedReAdd }
    ensures unread { NoneIsOpened }
{}

/// A member leaves by `remove`. Of one that failed, or that was a spare, the superblock that is kept then says that it is out of
/// sync, and so does each that is kept later, until its number is given out again; a stale one is behind by its own superblock,
/// or has another role by it.
/// An opening after a later crash, that is as new as the array was, does not find a device in sync of the first kinds, or one
/// that is behind. Where it finds none in sync but of devices that the crash left, it begins another life, whose members in sync
/// were so at the crash.
pub fn departed_devices()
    ensures leaves { LeavesOut }
    ensures stale { StaleIsOut }
    ensures stays { StaysOutSince }
    ensures away { StaysAway }
    ensures finds_out { FindsOutSince }
    ensures out_next { StaysOutNext }
    ensures starts { StartsSince }
{}

/// A first opening, of any devices whose stored marks cover what they differ in, within which a crash came, or of which a
/// write failed that left the header of the bitmap. What it left of each is as the whole opening leaves it, but for the marks of a
/// bitmap that is not accepted. So it may be opened as after a crash right after that opening, and what is said of lives is said
/// of it.
pub fn first_openings()
    ensures leaves { LeavesAsOpened }
    ensures found { IsFoundAsOpened }
{}

//! The laws of mirrors: what holds at each moment of each life. The bodies are empty, and the contracts are the theorems.

ghost use Rattle.std.specs.Prelude.{◌≡◌, ◌+◌, ◌<◌, ◌↔◌, ℕ, List, false, true};
ghost use Rattle.md_badblocks.specs.Runs.{IsBad};
ghost use Rattle.md_model.specs.Devices.{Covered};
ghost use Rattle.md_model.specs.Lives.{AgreesUnstored, IsCovered, IsSound};
ghost use Rattle.md_model.specs.Openings as openings;
ghost use Rattle.md_model.specs.Crashes.{IsSafeAtCrash, KeepsOut, StaysOut};
ghost use Rattle.md_model.specs.Worlds.{IsInSync};
ghost use Rattle.md_kept_members.specs.View.{MemberView};
ghost use Rattle.md_state.specs.Members.{IsMember};
ghost use Rattle.md_state.specs.View.{Disk, MirrorView, geometry_of};
ghost use Rattle.md_array.specs.Open.Opened.{IsOpenedFrom};
ghost use Rattle.md_array.specs.ReadAsKept.{AreReadAsKept};
ghost use Rattle.md_array.specs.Worlds.{AreHonest, none_in_flight, super_of, world_of, world_on};
ghost use Rattle.md_laws.specs.Fresh.{StartsFresh, StaysFresh};
ghost use Rattle.md_laws.specs.LeftBehind.{FailedJoins, LiesBehind, LogJoins, LogLiesBehind, MissingJoins, MissingLiesBehind};
ghost use Rattle.md_laws.specs.Lives.{AtEachMoment, ContentGoesAlongTold, FindsAll, FindsInSync, FindsOut, FitsWhenThere, IsReadAsKeptInLives, KeepsContent, KeepsGeometry, ReadsRecorded, StaysAsLeft};
ghost use Rattle.md_laws.specs.Recovering.{ContentGoesAlong, KeepsRecovering, ListsWhereKnown, MirrorKeepsSure, OffsetsAreKept, SaysNoMoreWhenOpened, SaysNoMoreWhereKnown, SaysNoMoreWithoutList};
ghost use Rattle.md_laws.specs.Returning.{StartsAgain};
ghost use Rattle.md_laws.specs.Runs.{HasContent};
ghost use Rattle.md_laws.specs.Unlogged.{StaysUnlogged};
ghost use Rattle.md_laws.specs.Spoiled.{CrashesAsSpoiled, CrashesAtEnrolAsSpoiled, CrashesAtFailedEnrolAsSpoiled};
ghost use Rattle.md_laws.specs.ReadAfterCrashes.{ReadsAtAdd, ReadsAtReAdd, ReadsAtTarget};
ghost use Rattle.md_laws.specs.CrashesWithin.{CrashesAsFailed, CrashesAsFilled, CrashesAsPrepared, CrashesAsTried, CrashesAtAdd, CrashesAtEnrol, CrashesAtEvents, CrashesAtFailedAdd, CrashesAtFailedEnrol, CrashesAtFailedReAdd, CrashesAtFailure, CrashesAtReAdd, CrashesAtRefusedAdd, CrashesAtRefusedReAdd, CrashesAtRemoval, CrashesAtSector, CrashesAtWrite, CrashesInMemory, CrashesUndivided};

/// A mirror that was opened from devices that do what they answer is an opened world of the model, by
/// the array's superblock: the opening stored all marks where the bitmap was not accepted, and nothing
/// else. So where the stored marks covered what differs, they do so after it; and the bad sets that are
/// kept are those that the members' logs list. Of the devices of a new array, all of whose chunks are marked, they
/// do so at the first opening; and one that is interrupted leaves every byte as it was.
pub fn opening()
    ensures opened { (before : List Disk) (m : MirrorView) → AreHonest before → IsOpenedFrom before m
        → openings.IsOpened (geometry_of m.array) (super_of m.array.shared) (world_of m none_in_flight) }
    ensures opened_from { (before : List Disk) (m : MirrorView) → AreHonest before → IsOpenedFrom before m
        → openings.IsOpenedFrom (geometry_of m.array) (world_on before m.array none_in_flight).stored (super_of m.array.shared) (world_of m none_in_flight) }
    ensures covered { (before : List Disk) (m : MirrorView) → AreHonest before → IsOpenedFrom before m
        → Covered (geometry_of m.array) (world_on before m.array none_in_flight).stored (IsInSync (world_of m none_in_flight))
        → Covered (geometry_of m.array) (world_of m none_in_flight).stored (IsInSync (world_of m none_in_flight)) }
    ensures listed { (before : List Disk) (m : MirrorView) → AreHonest before → IsOpenedFrom before m
        → (k : ℕ) (mv : MemberView) → IsMember m.array k mv → (s : ℕ) → s < m.array.chunks.size
        → (((world_of m none_in_flight).stored k).listed s ≡ true) ↔ IsBad mv.bad (mv.superblock.data_offset + s) }
    ensures read { (before : List Disk) (m : MirrorView) → AreHonest before → IsOpenedFrom before m → AreReadAsKept m 0 (λ _. false) }
    ensures honest { (before : List Disk) (m : MirrorView) → AreHonest before → IsOpenedFrom before m → AreHonest m.disks }
    ensures fresh { StartsFresh }
    ensures fresh_crashed { StaysFresh }
{}

/// What looks back, at each moment of a mirror's life. It was opened from devices that do what they
/// answer, whose stored marks covered what they differ in. Calls did events, any of them in any order. It
/// crashed between two calls or within one, and was opened again from some of the devices that were left;
/// and so on.
///
/// An event is what a call's contract says of it (`Does`): a step that answered Ok, or a write that failed
/// and made its member faulty. A refused call is none. What a crash within a call leaves is what the call's
/// own contract gives (`IsLeftByCrash`): of its write each sector as before or as written, or any bytes in its range
/// where the write fails. A crash within `record` left the old superblock, the new one or none that can be
/// decoded: a premise, unless the write is done and neither superblock has more than 128 roles. A device that comes in
/// counts as left only where it is as after the call. Of one that comes back it is enough that its superblock reads so. A member that is
/// rebuilt counts as left at any moment of its filling, and of `enrol` where its superblock stands as before or as after. One within a write of
/// marks, of a copy or of a log that fails is one after that failure, over other bytes (`whole_calls::call_crashes`). One
/// within an `enrol` that fails before its superblock is a matter of rebuilds (`unfinished_enrols` of `md_call_laws`).
///
/// A member that is rebuilt is spoiled where `enrol`, `admit` or `checkpoint` could not write its superblock, whatever stands there then, or
/// where a crash came within that write (`SpoilTarget`, `crashes_at_steps`). Its mirror goes on. It is spoiled until its superblock is stored, and
/// until then no opening after a crash may be of its device (`AreFoundAgain`). Nor may one be of a member in sync whose log had a shift and was
/// stored, until its superblock is stored, also where that failed since: an opening would read the new log by the shift before
/// (`misread_after`).
///
/// An opening after a crash is of devices that were left, in any order, some of them missing (`IsReopened`). Beside
/// them may be further ones, which the opening before left out (`IsFurther`): the mirror that is opened does not have
/// them in sync, which is asked only of those that nothing shuts out (`finds_out`). Its superblock is fit, which leaves
/// out a crash while a failure awaits its record. The bitmap's header of a member that was rebuilt may be any: where that
/// member's device is the one that has recorded the last failure, a member that was in sync is there too, or this header
/// tells of chunks as wide (`IsAsWide`). Openings within which a crash came may have written bitmaps
/// between, if no chunk lost its mark and the header kept its chunk size (`half_opening`). Nothing is said of a mirror
/// once it is halted.
pub fn every_run()
    // Wherever two members in sync differ, the marks stored on every member in sync have the chunk.
    ensures covered { AtEachMoment IsCovered }

    // A crash leaves devices of which an opening finds only members in sync that were so, whose marks cover
    // what differs, but for one that it misreads; and all of these, where each has recorded all but the last change.
    ensures at_crash { AtEachMoment IsSafeAtCrash }

    // No member in sync is one whose superblock was spoiled: each of them may be there, unless it is misread.
    ensures sound { AtEachMoment IsSound }

    // Where a list in memory has a sector that its device does not list yet, its member agrees with the others in sync all the same,
    // but for requests in flight.
    ensures agrees_unstored { AtEachMoment AgreesUnstored }

    // Each member in sync of the mirror that is opened then was in sync. Each that was in sync, and is there,
    // is in sync, where each of these has recorded all but the last change.
    ensures finds_in_sync { FindsInSync }
    ensures finds_all { FindsAll }

    // Once data was let through, a device that the last opening left out is not found in sync beside a
    // member that was.
    ensures keeps_out { AtEachMoment KeepsOut }

    // A device that the superblock of the last opening calls out of sync stays so, with data or without.
    ensures stays_out { AtEachMoment StaysOut }

    // A further device is no member in sync of the mirror that is opened, where data was let through and a
    // member that was in sync is there, or where the superblock of the opening before calls it out of sync.
    ensures finds_out { FindsOut }

    // There is a content that the members in sync hold at the first opening; any such content goes along the
    // life, and they hold what it becomes. Only the end of a request changes it, and a resync or an opening in
    // chunks that each of them has marked. It is asked to be held by members that recover too, where they lack nothing: at the first
    // opening, and of devices that come in later as `recovering_members` asks it. At enrolments nothing is asked.
    // Or nothing is asked of members that recover, and at each enrolment that the new member holds it in chunks that it did not lack.
    ensures has_content { HasContent }
    ensures content_along { ContentGoesAlong }
    ensures content_told { ContentGoesAlongTold }
    ensures keeps_content { KeepsContent }

    // An opening would read of the devices what the mirror keeps of them, but of those it may misread, of which
    // none is in sync whose superblock is stored. Chunks and roles are those of the first opening.
    ensures read_as_kept { IsReadAsKeptInLives }
    ensures reads_recorded { ReadsRecorded }
    ensures keeps_geometry { KeepsGeometry }
{}

/// As long as no log is stored since an opening, an opening misreads the members that are spoiled, and no others: so
/// none that is in sync, due or not (`every_run`, clause `sound`).
pub fn run_without_logs()
    ensures stays { StaysUnlogged }
{}

/// When the superblock of the next opening is fit: it is enough that one of its devices is as new as the opening
/// before and has recorded the last failure, if no two superblocks of that opening were as new and told of
/// other roles.
pub fn fitness()
    ensures fits { FitsWhenThere }
{}

/// A device that an opening left out may come back at the next one before any data was let through, and be found in
/// sync. With it another life begins: the opening is a start, whose stored marks cover what differs. Of the content
/// from before nothing is said then.
pub fn returning_devices()
    ensures starts { StartsAgain }
{}

/// What a member that was in sync and failed, by a call or by a write, has of the array's content from then on, as
/// long as some role has no member in sync: all but the marked chunks. So where it is taken back as the failure left it,
/// the chunks that `missing` names suffice; that each device that `re_add` takes back is such a one is not said. It
/// may leave by `remove`, and a crash may come at any moment of any of its calls, and then the next opening: so it is
/// over each life that goes on from there. It is so too of a member that was in sync at a crash, as the crash left it, whatever the
/// next opening finds of it: it may be missing there, as one whose cable was pulled. The log of one whose log could not be stored may
/// be any: of it that is said in sectors that it did not list before, and that what counts of it does not list.
pub fn leaving_members()
    ensures behind { LiesBehind }
    ensures log { LogLiesBehind }
    ensures missing { MissingLiesBehind }

    // A `re_add` that takes back a device that is still as it was left, takes back one of which the content
    // is known in all chunks but the marked ones; or its offset is 0, and it lacks every chunk. It is asked
    // that no opening misread the device, and of a member whose log could not be stored, that the log has no
    // less then than before.
    ensures failed_joins { FailedJoins }
    ensures log_joins { LogJoins }
    ensures missing_joins { MissingJoins }
{}

/// What a recovering member holds of the array's content: on sectors that it does not list, all but the marked chunks and those
/// that its offset has not passed. So a rebuild that copies what `missing` names is enough, at any moment after a `re_add` or an `admit`,
/// also after a crash and the next opening. It is asked that each `re_add` is told, as `leaving_members` tells of a device that still is as
/// it was left, and that the first opening is told of the members that it finds recovering. A later one is told of further devices alone, if
/// each of those that were left says no more than the mirror kept of it (`SaysNoMore`). So a member does right after an opening that did not
/// take its own offset as 0, whatever it made of others'; and after one that did, once its superblock was stored. Until the next opening its
/// offset stays such, but while it is spoiled (`Moment`, `offset_unknown`); and its log lists what the list in memory has, as long as no
/// `enrol`, `admit` or `checkpoint` of it failed (`log_unknown`). So it says no more at any crash, but for one within an `enrol` while the
/// bitmap and the log are stored (`IsStoringOwn`). Where the list in memory is empty the log may be any.
pub fn recovering_members()
    ensures kept { KeepsRecovering }
    ensures as_opened { SaysNoMoreWhenOpened }
    ensures offsets { OffsetsAreKept }
    ensures known { SaysNoMoreWhereKnown }
    ensures unlisted { SaysNoMoreWithoutList }

    // What its superblock says that it has, before its recovery_offset, it has: there it holds the content in marked chunks too, so that
    // whoever goes on from it, as a kernel, need not ask the marks. It is asked that the first opening is told of the members that it
    // finds recovering, and each later one that their lists are known (`lists`), or of what further devices have.
    ensures sure { MirrorKeepsSure }
    ensures lists { ListsWhereKnown }
{}

/// An interrupted open of a mirror's devices, at any moment of its life, leaves each as it was left, so that
/// the next open may find it. A crash came within it, or one of its writes failed: what that leaves of a device is what
/// the contract of `open` gives. A failed write of a bitmap's first sector has to have left the header. The
/// superblock that the open went by has to have recorded the last failure. An open that makes no array leaves
/// every device untouched, by its contract.
pub fn half_opening()
    ensures as_left { StaysAsLeft }
{}

/// What a crash at any moment of a step leaves, where the step makes a write to one device, or none, lays a new one
/// out, or fills, prepares or enrols a member that is rebuilt. Each event is of such a step (`Does`). A superblock of at most 128 roles ends within its first sector, which is
/// written whole or not at all. So that of a device that comes back then reads as before the call or as after it; and one
/// that comes in is as after the call, or has the wipe of its old superblock cut short, or zeros in place of one.
pub fn crashes_at_steps()
    ensures memory { CrashesInMemory }
    ensures removal { CrashesAtRemoval }
    ensures re_add { CrashesAtReAdd }
    ensures failed_re_add { CrashesAtFailedReAdd }
    ensures refused_re_add { CrashesAtRefusedReAdd }
    ensures re_add_read { ReadsAtReAdd }
    ensures add { CrashesAtAdd }
    ensures add_read { ReadsAtAdd }
    ensures failed_add { CrashesAtFailedAdd }
    ensures refused_add { CrashesAtRefusedAdd }
    ensures target { ReadsAtTarget }
    ensures enrol { CrashesAtEnrol }
    ensures failed_enrol { CrashesAtFailedEnrol }
    ensures written { CrashesAtWrite }
    ensures sector { CrashesAtSector }
    ensures failed { CrashesAtFailure }

    // A crash within the call of an event is before it, after it, or within its one write. What it leaves
    // within a write, the same write might leave that failed, or was torn. What it leaves while a member is
    // filled or prepared, another filling or preparing might leave. Within a call by which a member that is
    // rebuilt tells of it, the crash is one after `SpoilTarget`, whatever it leaves.
    ensures event { CrashesAtEvents }
    ensures as_failed { CrashesAsFailed }
    ensures as_tried { CrashesAsTried }
    ensures as_filled { CrashesAsFilled }
    ensures as_prepared { CrashesAsPrepared }
    ensures as_spoiled { CrashesAsSpoiled }
    ensures enrol_as_spoiled { CrashesAtEnrolAsSpoiled }
    ensures failed_enrol_as_spoiled { CrashesAtFailedEnrolAsSpoiled }
    ensures undivided { CrashesUndivided }
{}

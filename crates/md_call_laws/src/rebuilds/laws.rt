//! What holds of a rebuild in the life of a mirror. The functions do nothing: their contracts are the theorems.

ghost use Rattle.md_call_laws.specs.Rebuilds.RebuildRuns.{RebuildIsARun, RebuildRunsOn};
ghost use Rattle.md_call_laws.specs.Rebuilds.RebuiltInLife.{CopiesContent, HeldInLives, NewHadNothing, RebuildsContent, RebuildsResumed, RecoveringHeldIt, TakenBackHeldIt};
ghost use Rattle.md_call_laws.specs.Rebuilds.RefusedRebuilds.{LostIsARun, RefusedIsARun, CrashesLeaving, CrashesLeavingAnyhow, CrashesLeavingLost, CrashesLeavingLostAnyhow, CrashesUnleft, CrashesUnleftLost};
ghost use Rattle.md_call_laws.specs.Rebuilds.LastOffsets.{OffsetStands, OffsetStandsWithin, OpeningsFind, CrashesCopyingFind, CrashesListingFind, CrashesStoringFind, CrashesUnlistedFind};
ghost use Rattle.md_call_laws.specs.Rebuilds.UnfinishedEnrols.{CrashesUnfinishedEnrol, UnfinishedEnrolsPrepare};
ghost use Rattle.md_call_laws.specs.Rebuilds.SalvageRuns.{CrashesStoringSalvaged, SalvageIsARun, SalvageRunsOn};
ghost use Rattle.md_call_laws.specs.Rebuilds.SalvageCrashes.{CrashesChunkUnrecorded, CrashesEnrollingSalvaged, CrashesInSalvage, CrashesInSalvageAnyhow, CrashesListingLost, CrashesRecordingChunk, CrashesRecordingChunkAnyhow, CrashesSalvaging, CrashesUnenrolledSalvaged};
ghost use Rattle.md_call_laws.specs.Rebuilds.RebuildCrashes.{CrashesAdmitting, CrashesAdmittingAnyhow, CrashesAnyhow, CrashesAtCheckpoint, CrashesAtCheckpointAnyhow, CrashesAtFailedCheckpoint, CrashesEnrolled, CrashesEnrolling, CrashesEnrollingAnyhow, CrashesFilling, CrashesInRebuild, CrashesListing, CrashesPassUnrecorded, CrashesRecording, CrashesRecordingAnyhow, CrashesStoringRecords, CrashesStoring, CrashesTelling, CrashesUnadmitted, CrashesUnadmittedAnyhow, CrashesUnenrolled, CrashesUnenrolledAnyhow, CrashesUnrecorded};

/// A mirror was opened from devices that do what they answer, whose stored marks covered what they differ in,
/// and has come to any moment of its life. A rebuild then gives the new member the content that the life has
/// by then: in each chunk that is copied; and in each sector that the member does not list, if it had it where
/// it lacked nothing, as a spare does. That members in sync agree is no premise: the laws over lives give it.
pub fn rebuilt_in_life()
    ensures copies { CopiesContent }
    ensures content { RebuildsContent }
    ensures resumed { RebuildsResumed }
{}

/// When a member held the content where it lacked nothing. A spare lacks everything, and so does a recovering member
/// whose offset is 0. One that was taken back did, if the device that left lies behind by what is marked, as
/// `md_laws::laws::leaving_members` says of one that failed.
pub fn held_before()
    ensures new { NewHadNothing }
    ensures taken_back { TakenBackHeldIt }
    ensures recovering { RecoveringHeldIt }
    ensures in_lives { HeldInLives }
{}

/// A rebuild that is done is a run of the mirror, from any moment of a life on, and the content stays what it was:
/// up to the mirror in which its target is in sync, and on to the end of the call.
pub fn rebuild_runs()
    ensures enrolled { RebuildIsARun }
    ensures records_stored { RebuildRunsOn }
{}

/// What a crash at any moment within a rebuild leaves, is what a crash of a run leaves: so an opening finds of it what
/// the laws over lives say. Until the superblock that brings the target into sync stands, the target is not in
/// sync; where it stands, the enrolment is done. Where another superblock of the target stands than before or after
/// a call, the target is spoiled, and that opening has to leave it out. It has to leave out a source too whose log had a shift, if the
/// crash came between that log and its superblock (`misread_after` of `md_array`). A source whose log had no
/// shift is misread only if it is spoiled, where that held before.
pub fn rebuild_crashes()
    ensures storing { CrashesStoring }
    ensures unrecorded { CrashesUnrecorded }
    ensures admitting { CrashesAdmitting }
    ensures unadmitted { CrashesUnadmitted }
    ensures filling { CrashesFilling }
    ensures recording { CrashesRecording }
    ensures pass_unrecorded { CrashesPassUnrecorded }
    ensures checkpoint { CrashesAtCheckpoint }
    ensures failed_checkpoint { CrashesAtFailedCheckpoint }
    ensures listing { CrashesListing }
    ensures enrolling { CrashesEnrolling }
    ensures unenrolled { CrashesUnenrolled }
    ensures enrolled { CrashesEnrolled }
    ensures storing_records { CrashesStoringRecords }

    // Whatever stands in place of the target's superblock.
    ensures telling { CrashesTelling }
    ensures admitting_anyhow { CrashesAdmittingAnyhow }
    ensures unadmitted_anyhow { CrashesUnadmittedAnyhow }
    ensures recording_anyhow { CrashesRecordingAnyhow }
    ensures checkpoint_anyhow { CrashesAtCheckpointAnyhow }
    ensures enrolling_anyhow { CrashesEnrollingAnyhow }
    ensures unenrolled_anyhow { CrashesUnenrolledAnyhow }

    // A crash at any moment of a rebuild that is done.
    ensures done { CrashesInRebuild }
    ensures anyhow { CrashesAnyhow }
{}

/// One that ends with `NoMemory`, `LogFull` or, for a list of a source that could not be stored, `MetadataFault`, once
/// passes may be made, is a run up to where it is recorded how far its target is rebuilt; and a crash while that is
/// recorded is one of a run.
pub fn refused_rebuilds()
    ensures runs { RefusedIsARun }
    ensures leaving { CrashesLeaving }
    ensures unleft { CrashesUnleft }
    ensures lost { LostIsARun }
    ensures leaving_lost { CrashesLeavingLost }
    ensures unleft_lost { CrashesUnleftLost }

    // Whatever stands in place of the target's superblock.
    ensures leaving_anyhow { CrashesLeavingAnyhow }
    ensures leaving_lost_anyhow { CrashesLeavingLostAnyhow }
{}

/// Within a pass a crash finds the offset that was stored last: from the admission or the stretch before on, until that of
/// this stretch is stored, a superblock is read on the target's device that says just the offset that the mirror knows of. Of a
/// target that was recovering before the call, and is not due, it is asked that it did so before. And an opening goes on
/// from the offset that is read, or from 0 where the superblock is from before marks were last cleared.
pub fn last_offsets()
    ensures stands { OffsetStands }
    ensures within { OffsetStandsWithin }
    ensures copying { CrashesCopyingFind }
    ensures storing { CrashesStoringFind }
    ensures listing { CrashesListingFind }
    ensures unlisted { CrashesUnlistedFind }
    ensures opened { OpeningsFind }
{}

/// An `enrol` by itself of which a write of the bitmap or of the log failed is the event `Prepare`, whatever that write
/// left (`md_laws::whole_calls::rebuilding_calls`, clause `prepare`), and a crash within it is one of a run.
pub fn unfinished_enrols()
    ensures prepares { UnfinishedEnrolsPrepare }
    ensures crashed { CrashesUnfinishedEnrol }
{}

/// A salvage that is done is a run of the mirror, from any moment of a life on, and the content stays what it was: up to the
/// mirror in which its target is in sync, and on to the end of the call. So is a crash after the enrolment.
pub fn salvage_runs()
    ensures enrolled { SalvageIsARun }
    ensures records_stored { SalvageRunsOn }
    ensures storing_records { CrashesStoringSalvaged }
{}

/// What a crash within a salvage leaves until its target is in sync, is what a crash of a run leaves, as within a rebuild: while
/// a chunk is filled sector by sector, and while it is recorded how far that came; while the lists are stored of the
/// sectors that no member gave; and within the enrolment, where the target's superblock stands as before it.
pub fn salvage_crashes()
    ensures filling { CrashesSalvaging }
    ensures recording { CrashesRecordingChunk }
    ensures unrecorded { CrashesChunkUnrecorded }
    ensures listing { CrashesListingLost }
    ensures enrolling { CrashesEnrollingSalvaged }
    ensures unenrolled { CrashesUnenrolledSalvaged }

    // Whatever stands in place of the target's superblock.
    ensures recording_anyhow { CrashesRecordingChunkAnyhow }

    // A crash at any moment of it.
    ensures until_enrolled { CrashesInSalvage }
    ensures anyhow { CrashesInSalvageAnyhow }
{}

// What is done on a mirror, and looked at, as values; and what comes of it.
use crate::steps::images::{Field, Image};
use crate::steps::shown::{Shown, Stored};
use md_array::{
    AddFault, AdmitFault, BeginFault, ClearFault, FailFault, FinishFault, NoteFault, ReAddFault,
    RemoveFault, StoreFault, WriteMemberFault,
};
use md_assembly::MemberState;
use md_metadata::StopFault;
use md_resync::ResyncFault;

#[derive(Clone, Copy)]
pub(crate) enum Step {
    // A request of a sector from this one on is at hand then; the one that was is the earlier one.
    Begin(u64),
    BeginNothing,
    Record(usize),
    StoreMarks(usize),
    // Of the request at hand, as is `Finish`.
    WriteMember(usize),
    Finish,
    // The earlier request is at hand.
    Turn,
    // Of chunk 1.
    ClearIdle,
    // Of a sector, as a whole call.
    Write(u64),
    Resync,
    Stop,
    Fail(usize),
    Remove(usize),
    // Of the device that left last, or was not taken back last.
    ReAdd,
    // Of the device of an image with other fields too.
    Bring(&'static Image, &'static [Field]),
    // Of one of so many zeros.
    BringZeros(u64),
    // A new device of so many sectors, whose write of this number fails.
    Add(u64, u64),
    // Of a device that was used.
    AddUsed,
    // Of the last member.
    Admit,
    NoteBad(usize, u32),
    StoreLog(usize),
    // What is looked at.
    Show,
    Member(usize),
    Lack(usize),
    List(usize),
    Permit(u32),
    // The entry of a number.
    Entry(u32),
    // The device that left last.
    Left,
}

#[derive(Clone, Copy, PartialEq, Eq)]
pub(crate) enum Answer {
    Done,
    Begun(u64),
    // The index of the member that came in.
    Joined(usize),
    NotBegun(BeginFault),
    NotStored(StoreFault),
    NotWritten(WriteMemberFault),
    NotFinished(FinishFault),
    NotCleared(ClearFault),
    NotResynced(ResyncFault),
    NotStopped(StopFault),
    NotFailed(FailFault),
    NotRemoved(RemoveFault),
    NotReAdded(ReAddFault),
    NotAdded(AddFault),
    NotAdmitted(AdmitFault),
    NotNoted(NoteFault),
    // There is no such member, chunk, request or device, or it is of another kind.
    NotCalled,
    // Nothing was found out: there was no memory.
    NotTold,
    Shows(Shown),
    // A member's state, whether its superblock is due, and whether it is shown as re-added.
    Is(MemberState, bool, bool),
    // How many chunks it lacks, and which is the first.
    Lacks(u32, Option<u32>),
    // How many runs it lists, and the first sector and the length of the first.
    Lists(usize, u64, u64),
    // The bits of the roles that permit a chunk.
    Permits(u32),
    Role(u16),
    Device(Stored),
}

impl Step {
    // The call that it makes, where that may find no memory.
    pub(crate) fn call(self) -> &'static str {
        match self {
            Step::Begin(_) => "no memory: begin",
            Step::Write(_) => "no memory: write",
            Step::Resync => "no memory: resync",
            Step::ReAdd | Step::Bring(_, _) | Step::BringZeros(_) => "no memory: re_add",
            Step::Add(_, _) | Step::AddUsed => "no memory: add",
            Step::Admit => "no memory: admit",
            Step::NoteBad(_, _) => "no memory: note_bad",
            Step::Lack(_) => "no memory: missing",
            _ => "no memory: another step",
        }
    }
}

impl Answer {
    pub(crate) fn lacks_memory(self) -> bool {
        match self {
            Answer::NotBegun(BeginFault::NoMemory)
            | Answer::NotResynced(ResyncFault::NoMemory)
            | Answer::NotReAdded(ReAddFault::NoMemory)
            | Answer::NotAdded(AddFault::NoMemory)
            | Answer::NotAdmitted(AdmitFault::NoMemory)
            | Answer::NotNoted(NoteFault::NoMemory)
            | Answer::NotTold => true,
            _ => false,
        }
    }
}

// What is done with a mirror, and looked at, as values; and what comes of it.
use crate::calls::data::Data;
use crate::calls::told::{Planning, Told};
use md_array::{BeginFault, FailFault, ReAddFault, RemoveFault};
use md_assembly::MemberState;
use md_check::CheckFault;
use md_copy::RebuildFault;
use md_metadata::StopFault;
use md_read::{UnreadFault, UnresyncedFault};
use md_resync::ResyncFault;

#[derive(Clone, Copy)]
pub(crate) enum Call {
    // Of a sector, whose request stays in flight.
    Begin(u64),
    // Of so many sectors from this one on.
    Write(u64, usize),
    // Of so many sectors from this one on, of which the first so many are given, with these bytes.
    Read(u64, usize, usize, Data),
    // Of sectors as they would be after a resync.
    ReadUnresynced(u64, usize, usize, Data),
    Resync,
    Stop,
    Check,
    // What its gate was told is counted.
    CheckCounted,
    // Its gate holds the first read of each of two members until that of the other one has begun.
    CheckMeeting,
    Fail(usize),
    Remove(usize),
    // Of the device that left last.
    ReAdd,
    // What a rebuild of the member would copy.
    Table(usize),
    Rebuild(usize),
    RebuildMeeting(usize),
    // What its passes planned is told.
    RebuildPlanned(usize),
    Salvage(usize),
    // What is looked at.
    Events,
    Show,
    State(usize),
    List(usize),
    Lack(usize),
}

#[derive(Clone, Copy, PartialEq, Eq)]
pub(crate) enum Answer {
    Done,
    Begun(u64),
    NotBegun(BeginFault),
    // Other bytes are read than those.
    Differs,
    NotRead(UnreadFault),
    NotReadUnresynced(UnresyncedFault),
    NotResynced(ResyncFault),
    NotStopped(StopFault),
    Counts(u32),
    // The mismatched chunks, how many reads began and ended, and the sums of their roles and chunks.
    Counted(Result<u32, CheckFault>, [u64; 4]),
    NotChecked(CheckFault),
    // The gate waited in vain.
    NotMet,
    NotFailed(FailFault),
    NotRemoved(RemoveFault),
    // The index of the member that came in.
    Joined(usize),
    NotReAdded(ReAddFault),
    // The roles that may give each chunk; `NOT_MISSING` where it is not in the table.
    Offers([u32; 8]),
    Rebuilt(Told),
    // Wanted: in at most so many passes, and how many chunks nobody gives.
    RebuiltIn(u32, usize),
    // How many passes there were, and what the first two planned.
    Planned(u32, Planning, Planning),
    // How many sectors are lost, and how many are listed.
    Salvaged(u64, u64),
    NotRebuilt(RebuildFault),
    // There is no such member or device.
    NotCalled,
    // Nothing was found out: there was no memory.
    NotTold,
    Counting(u64),
    Shows(Shown),
    Is(MemberState),
    // How many runs it lists, and the first sector and the length of the first.
    Lists(usize, u64, u64),
    // How many chunks it lacks, and which is the first.
    Lacks(u32, Option<u32>),
}

pub(crate) const NOT_MISSING: u32 = u32::MAX;

// Wanted of a list: its first sector may be any.
pub(crate) const ANY: u64 = u64::MAX;

// What a mirror of two members shows.
#[derive(Clone, Copy, PartialEq, Eq)]
pub(crate) struct Shown {
    pub(crate) events: u64,
    pub(crate) marked: u32,
    pub(crate) resynced: bool,
    pub(crate) halted: bool,
    pub(crate) states: (MemberState, MemberState),
}

impl Call {
    // The call that it makes, where that may find no memory.
    pub(crate) fn name(self) -> &'static str {
        match self {
            Call::Table(_) => "no memory: table",
            Call::Rebuild(_) | Call::RebuildMeeting(_) | Call::RebuildPlanned(_) => {
                "no memory: rebuild"
            }
            Call::Salvage(_) => "no memory: salvage",
            Call::Check | Call::CheckCounted | Call::CheckMeeting => "no memory: check_array",
            _ => "no memory: another call",
        }
    }
}

impl Answer {
    pub(crate) fn lacks_memory(self) -> bool {
        match self {
            Answer::NotBegun(BeginFault::NoMemory)
            | Answer::NotResynced(ResyncFault::NoMemory)
            | Answer::NotChecked(CheckFault::NoMemory)
            | Answer::Counted(Err(CheckFault::NoMemory), _)
            | Answer::NotReAdded(ReAddFault::NoMemory)
            | Answer::NotRebuilt(RebuildFault::NoMemory)
            | Answer::NotTold => true,
            _ => false,
        }
    }
}

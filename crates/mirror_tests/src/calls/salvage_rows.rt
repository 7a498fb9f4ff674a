// Salvages: what a member holds and lists once it is in sync, and what is refused.
use crate::calls::call::{Answer, Call};
use crate::calls::data::{Data, Filling, NUMBERED};
use crate::calls::left::{Also, Left};
use crate::calls::members::{FIRST, Member, Vary};
use crate::calls::play::{ROW, Row, play};
use crate::calls::rebuilds::{
    IN_SYNC, LISTING, LISTING_SPARE, LOST, NEW, NO_LIST, SHORT, SHORT_SECOND, SHORT_SPARE, SPARE,
};
use md_assembly::MemberState;
use md_copy::RebuildFault;
use md_metadata::StopFault;
use std::test::Fail;

// A lone source that can't be read in one sector.
const SCRATCHED: Member = Member {
    bad: (8, 1),
    ..SHORT
};

const SECTOR_8: Answer = Answer::Lists(1, 2056, 1);

const ENTRY_OF_SECTOR_8: Also = Also::Entry([0x01, 0x20, 0x20, 0, 0, 0, 0, 0]);

const DONE: [Row; 4] = [
    // One bad sector costs a sector, of a chunk of eight.
    Row {
        members: &[SCRATCHED, SHORT_SPARE],
        calls: &[
            (Call::Salvage(1), Answer::Salvaged(1, 1)),
            (Call::List(0), SECTOR_8),
            (Call::List(1), SECTOR_8),
            (Call::State(1), IN_SYNC),
        ],
        left: &[
            Left(12, 0, NUMBERED, ENTRY_OF_SECTOR_8),
            Left(
                12,
                0,
                Data(Filling::Number, (8, 1, NEW), (16, 48, NEW)),
                ENTRY_OF_SECTOR_8,
            ),
        ],
        ..ROW
    },
    // Each of two can't be read in a half.
    Row {
        members: &[
            Member {
                bad: (0, 8),
                ..SHORT
            },
            Member {
                bad: (8, 8),
                ..SHORT_SECOND
            },
            SHORT_SPARE,
        ],
        calls: &[
            (Call::Salvage(2), Answer::Salvaged(0, 0)),
            (Call::List(0), NO_LIST),
            (Call::List(1), NO_LIST),
            (Call::List(2), NO_LIST),
        ],
        ..ROW
    },
    // What the source lists is not read, and is lost. What the target lists it gets.
    Row {
        members: &[LISTING, LISTING_SPARE],
        calls: &[
            (Call::Salvage(1), Answer::Salvaged(8, 8)),
            (Call::State(1), IN_SYNC),
            (Call::Events, Answer::Counting(12)),
        ],
        left: &[
            Left(12, 0, NUMBERED, Also::Nothing),
            Left(
                12,
                0,
                Data(Filling::Number, (24, 8, NEW), (0, 0, 0)),
                Also::Entry([0x08, 0x60, 0x20, 0, 0, 0, 0, 0]),
            ),
        ],
        ..ROW
    },
    // A full log is no matter where another member gives the sector.
    Row {
        members: &[
            Member {
                is_log_full: true,
                ..SCRATCHED
            },
            SHORT_SECOND,
            SHORT_SPARE,
        ],
        calls: &[
            (Call::Salvage(2), Answer::Salvaged(0, 0)),
            (Call::List(2), NO_LIST),
        ],
        ..ROW
    },
];

#[test]
fn salvaged_members(rt: HostRuntime) -> Result<(), Fail> {
    play(&rt, rt.alloc(), &DONE)
}

const REFUSED: [Row; 7] = [
    // The target can list nothing, which is found before anything is done.
    Row {
        members: &[
            FIRST,
            Member {
                has_no_log: true,
                ..SPARE
            },
        ],
        calls: &[
            (
                Call::Salvage(1),
                Answer::NotRebuilt(RebuildFault::LogFull(1)),
            ),
            (Call::State(1), Answer::Is(MemberState::Spare)),
            (Call::Events, Answer::Counting(10)),
        ],
        ..ROW
    },
    // A source without a log can list nothing either, once a sector is lost.
    Row {
        members: &[
            Member {
                has_no_log: true,
                ..SCRATCHED
            },
            SHORT_SPARE,
        ],
        calls: &[
            (
                Call::Salvage(1),
                Answer::NotRebuilt(RebuildFault::LogFull(0)),
            ),
            (Call::State(1), Answer::Is(MemberState::Recovering(1))),
        ],
        ..ROW
    },
    // The log of the source is full, of sectors that lie elsewhere.
    Row {
        members: &[
            Member {
                is_log_full: true,
                ..SCRATCHED
            },
            SHORT_SPARE,
        ],
        calls: &[
            (
                Call::Salvage(1),
                Answer::NotRebuilt(RebuildFault::LogFull(0)),
            ),
            (Call::List(1), NO_LIST),
            (Call::State(1), Answer::Is(MemberState::Recovering(1))),
        ],
        ..ROW
    },
    // The log of the second source is full: nothing is listed on the first either.
    Row {
        members: &[
            SCRATCHED,
            Member {
                is_log_full: true,
                bad: (8, 1),
                ..SHORT_SECOND
            },
            SHORT_SPARE,
        ],
        calls: &[
            (
                Call::Salvage(2),
                Answer::NotRebuilt(RebuildFault::LogFull(1)),
            ),
            (Call::List(0), NO_LIST),
            (Call::List(2), NO_LIST),
            (Call::State(2), Answer::Is(MemberState::Recovering(2))),
        ],
        ..ROW
    },
    // A target whose log is full changes no list either.
    Row {
        members: &[
            SCRATCHED,
            Member {
                is_log_full: true,
                ..SHORT_SPARE
            },
        ],
        calls: &[
            (
                Call::Salvage(1),
                Answer::NotRebuilt(RebuildFault::LogFull(1)),
            ),
            (Call::List(0), NO_LIST),
            (Call::State(1), Answer::Is(MemberState::Recovering(1))),
        ],
        ..ROW
    },
    // The lone source can't be made faulty: by two writes the spare is admitted, and by three a list is stored.
    Row {
        members: &[SCRATCHED, SHORT_SPARE],
        vary: Vary::Unwritable(0),
        numbers: (1, 6),
        calls: &[
            (Call::Salvage(1), LOST),
            (Call::Stop, Answer::NotStopped(StopFault::Halted)),
        ],
        ..ROW
    },
    // The target is written nine times: it is admitted, one chunk is copied, that is recorded, three runs of sectors
    // are copied, and it comes into sync by three writes.
    Row {
        members: &[SCRATCHED, SHORT_SPARE],
        vary: Vary::Unwritable(1),
        numbers: (1, 10),
        calls: &[(
            Call::Salvage(1),
            Answer::NotRebuilt(RebuildFault::TargetFault),
        )],
        ..ROW
    },
];

#[test]
fn refused_salvages(rt: HostRuntime) -> Result<(), Fail> {
    play(&rt, rt.alloc(), &REFUSED)
}

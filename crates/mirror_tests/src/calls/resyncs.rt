// Members that may differ are resynchronised.
use crate::calls::call::{Answer, Call, Shown};
use crate::calls::data::{Data, Filling, NONE_OTHER};
use crate::calls::left::{Also, Left};
use crate::calls::members::{FAULTY, FIRST as ONE, Member, SECOND as OTHER, Vary};
use crate::calls::play::{ROW, Row, Worked, play};
use crate::calls::run::WRITTEN;
use md_array::BeginFault;
use md_assembly::MemberState;
use md_metadata::StopFault;
use md_read::UnreadFault;
use md_resync::ResyncFault;
use std::test::Fail;

// What the first member has.
const OLD: Data = Data(
    Filling::Chunks([0, 1, 2, 3, 4, 5, 6, 7]),
    NONE_OTHER,
    NONE_OTHER,
);

// The second was written in chunks 1 and 2, which are marked, and in chunk 7, which is not.
const NEW: Data = Data(
    Filling::Chunks([0, WRITTEN, WRITTEN, 3, 4, 5, 6, WRITTEN]),
    NONE_OTHER,
    NONE_OTHER,
);

const HALF: Data = Data(
    Filling::Chunks([0, 1, WRITTEN, 3, 4, 5, 6, WRITTEN]),
    NONE_OTHER,
    NONE_OTHER,
);

const COPIED: Data = Data(
    Filling::Chunks([0, 1, 2, 3, 4, 5, 6, WRITTEN]),
    NONE_OTHER,
    NONE_OTHER,
);

// Another sector differs at the end of chunk 0, and of chunk 4.
const FEW: Data = Data(
    Filling::Chunks([0, 1, 2, 3, 4, 5, 6, 7]),
    (7, 1, WRITTEN),
    (39, 1, WRITTEN),
);

// The bits of all chunks, of chunk 1, and of chunks 1 and 2.
const MARKS_ALL: u8 = 0xff;

const MARKS_ONE: u8 = 0b010;

const MARKS_TWO: u8 = 0b110;

const FIRST: Member = Member {
    marks: MARKS_TWO,
    data: OLD,
    ..ONE
};

const SECOND: Member = Member {
    marks: MARKS_TWO,
    data: NEW,
    ..OTHER
};

// As it is opened.
const MARKED: Shown = Shown {
    events: 10,
    marked: 2,
    resynced: false,
    halted: false,
    states: (MemberState::InSync(0), MemberState::InSync(1)),
};

const RESYNCED: [Worked; 3] = [
    (Call::Show, Answer::Shows(MARKED)),
    (Call::Resync, Answer::Done),
    (
        Call::Show,
        Answer::Shows(Shown {
            marked: 0,
            resynced: true,
            ..MARKED
        }),
    ),
];

// Of three roles, of which one is empty.
const OF_THREE: Member = Member {
    raid_disks: 3,
    third: Some(FAULTY),
    ..FIRST
};

const UNREAD: Answer = Answer::NotResynced(ResyncFault::ReadFault(0, 1));

const CLOSED: Answer = Answer::NotRead(UnreadFault::NotResynced);

const COPIES: [Row; 7] = [
    // Marked chunks are copied from the lowest role, whichever was written.
    Row {
        members: &[FIRST, SECOND],
        calls: &RESYNCED,
        left: &[
            Left(10, 0, OLD, Also::Nothing),
            Left(10, 0, COPIED, Also::Nothing),
        ],
        ..ROW
    },
    // The second member's data are not written: its first write clears the marks, and the next would fail.
    Row {
        members: &[
            FIRST,
            Member {
                fails: 2,
                data: OLD,
                ..SECOND
            },
        ],
        calls: &RESYNCED,
        left: &[
            Left(10, 0, OLD, Also::Nothing),
            Left(10, 0, OLD, Also::Nothing),
        ],
        ..ROW
    },
    // All chunks are marked, and two differ: they are written, the marks are cleared, and a fourth write would fail.
    Row {
        members: &[
            Member {
                marks: MARKS_ALL,
                ..FIRST
            },
            Member {
                fails: 4,
                marks: MARKS_ALL,
                data: FEW,
                ..SECOND
            },
        ],
        calls: &[(Call::Resync, Answer::Done)],
        left: &[
            Left(10, 0, OLD, Also::Nothing),
            Left(10, 0, OLD, Also::Nothing),
        ],
        ..ROW
    },
    // A member that can't be read where it would be written is written.
    Row {
        members: &[
            FIRST,
            Member {
                bad: (8, 1),
                ..SECOND
            },
        ],
        calls: &RESYNCED,
        left: &[
            Left(10, 0, OLD, Also::Nothing),
            Left(10, 0, COPIED, Also::Nothing),
        ],
        ..ROW
    },
    // Of a degraded array a mark that only one has is stored on the other, and all of them stay.
    Row {
        members: &[
            OF_THREE,
            Member {
                marks: MARKS_ONE,
                raid_disks: 3,
                third: Some(FAULTY),
                ..SECOND
            },
        ],
        calls: &[
            (Call::Show, Answer::Shows(MARKED)),
            (Call::Resync, Answer::Done),
            (
                Call::Show,
                Answer::Shows(Shown {
                    resynced: true,
                    ..MARKED
                }),
            ),
        ],
        left: &[
            Left(10, 2, OLD, Also::Nothing),
            Left(10, 2, COPIED, Also::Nothing),
        ],
        ..ROW
    },
    // While a request is in flight, nothing is done.
    Row {
        members: &[Member { marks: 0, ..FIRST }, Member { marks: 0, ..SECOND }],
        calls: &[
            (Call::Begin(8), Answer::Begun(0)),
            (Call::Resync, Answer::NotResynced(ResyncFault::InFlight(0))),
            (
                Call::Show,
                Answer::Shows(Shown {
                    events: 11,
                    marked: 1,
                    resynced: true,
                    ..MARKED
                }),
            ),
            (Call::Stop, Answer::NotStopped(StopFault::InFlight(0))),
        ],
        left: &[
            Left(10, 0, OLD, Also::Nothing),
            Left(10, 0, NEW, Also::Nothing),
        ],
        ..ROW
    },
    // Without a mark there is nothing to do.
    Row {
        members: &[Member { marks: 0, ..FIRST }, Member { marks: 0, ..SECOND }],
        calls: &[(Call::Resync, Answer::Done)],
        left: &[
            Left(10, 0, OLD, Also::Nothing),
            Left(10, 0, NEW, Also::Nothing),
        ],
        ..ROW
    },
];

#[test]
fn resyncs(rt: HostRuntime) -> Result<(), Fail> {
    play(&rt, rt.alloc(), &COPIES)
}

const UNREADABLE: [Row; 3] = [
    // Whichever sector of a marked chunk can't be read; others are not read.
    Row {
        members: &[FIRST, SECOND],
        vary: Vary::Unreadable(0),
        numbers: (8, 16),
        calls: &[(Call::Resync, UNREAD), (Call::Show, Answer::Shows(MARKED))],
        left: &[
            Left(10, 2, OLD, Also::Nothing),
            Left(10, 2, NEW, Also::Nothing),
        ],
        ..ROW
    },
    Row {
        members: &[FIRST, SECOND],
        vary: Vary::Unreadable(0),
        numbers: (16, 24),
        calls: &[
            (
                Call::Resync,
                Answer::NotResynced(ResyncFault::ReadFault(0, 2)),
            ),
            (Call::Show, Answer::Shows(MARKED)),
        ],
        left: &[
            Left(10, 2, OLD, Also::Nothing),
            Left(10, 2, HALF, Also::Nothing),
        ],
        ..ROW
    },
    // An array that is not resynced stays closed to reads and writes.
    Row {
        members: &[FIRST, SECOND],
        vary: Vary::Unreadable(0),
        numbers: (8, 9),
        calls: &[
            (Call::Read(8, 1, 0, OLD), CLOSED),
            (Call::Resync, UNREAD),
            (Call::Write(8, 1), Answer::NotBegun(BeginFault::NotResynced)),
            (Call::Read(8, 1, 0, OLD), CLOSED),
        ],
        ..ROW
    },
];

#[test]
fn sectors_that_cannot_be_read(rt: HostRuntime) -> Result<(), Fail> {
    play(&rt, rt.alloc(), &UNREADABLE)
}

// What is written is read back, and what a write leaves where a member fails on the way.
use crate::calls::call::{Answer, Call, Shown};
use crate::calls::data::{Data, Filling, NONE_OTHER};
use crate::calls::left::{Also, Left};
use crate::calls::members::{FIRST, Member, SECOND, Vary};
use crate::calls::play::{ROW, Row, Worked, play};
use crate::calls::run::WRITTEN;
use md_assembly::MemberState;
use md_metadata::StopFault;
use std::test::Fail;

const OLD: Data = Data(
    Filling::Chunks([0, 1, 2, 3, 4, 5, 6, 7]),
    NONE_OTHER,
    NONE_OTHER,
);

const NEW: Data = Data(
    Filling::Chunks([0, WRITTEN, 2, 3, 4, 5, 6, 7]),
    NONE_OTHER,
    NONE_OTHER,
);

const MEMBERS: [Member; 2] = [
    Member { data: OLD, ..FIRST },
    Member {
        data: OLD,
        ..SECOND
    },
];

const SHOWN: Shown = Shown {
    events: 11,
    marked: 1,
    resynced: true,
    halted: false,
    states: (MemberState::InSync(0), MemberState::InSync(1)),
};

const STOPPED: Shown = Shown {
    events: 12,
    marked: 0,
    ..SHOWN
};

const READ_BACK: Row = Row {
    members: &MEMBERS,
    calls: &[
        (Call::Write(8, 1), Answer::Done),
        (
            Call::Read(
                8,
                1,
                1,
                Data(Filling::Same(WRITTEN), NONE_OTHER, NONE_OTHER),
            ),
            Answer::Done,
        ),
        (Call::Read(9, 1, 1, OLD), Answer::Done),
        (Call::Show, Answer::Shows(SHOWN)),
        (Call::Stop, Answer::Done),
        (Call::Show, Answer::Shows(STOPPED)),
    ],
    ..ROW
};

const LAST_EVENT: Row = Row {
    members: &[
        Member {
            events: u64::MAX - 1,
            ..FIRST
        },
        Member {
            events: u64::MAX - 1,
            ..SECOND
        },
    ],
    calls: &[
        (Call::Write(8, 1), Answer::Done),
        (Call::Stop, Answer::NotStopped(StopFault::EventsFull)),
        (
            Call::Show,
            Answer::Shows(Shown {
                events: u64::MAX,
                ..SHOWN
            }),
        ),
    ],
    ..ROW
};

// A whole chunk, while a member fails.
const WITHOUT_FIRST: [Worked; 2] = [
    (Call::Write(8, 8), Answer::Done),
    (
        Call::Show,
        Answer::Shows(Shown {
            events: 12,
            states: (MemberState::Faulty, MemberState::InSync(1)),
            ..SHOWN
        }),
    ),
];

const WITHOUT_SECOND: [Worked; 2] = [
    (Call::Write(8, 8), Answer::Done),
    (
        Call::Show,
        Answer::Shows(Shown {
            events: 12,
            states: (MemberState::InSync(0), MemberState::Faulty),
            ..SHOWN
        }),
    ),
];

// The other member has the bytes, and its superblock is of after the failure.
const OTHER: Left = Left(12, 1, NEW, Also::Nothing);

const FIRST_FAILS: Row = Row {
    members: &MEMBERS,
    vary: Vary::Unwritable(0),
    calls: &WITHOUT_FIRST,
    ..ROW
};

const SECOND_FAILS: Row = Row {
    members: &MEMBERS,
    vary: Vary::Unwritable(1),
    calls: &WITHOUT_SECOND,
    ..ROW
};

// A member's writes are its mark, the bitmap's first sector again and the superblock, and the bytes.
const ROWS: [Row; 4] = [
    READ_BACK,
    LAST_EVENT,
    Row {
        numbers: (4, 5),
        left: &[Left(11, 1, OLD, Also::Nothing), OTHER],
        ..FIRST_FAILS
    },
    Row {
        numbers: (1, 2),
        left: &[OTHER, Left(10, 0, OLD, Also::Nothing)],
        ..SECOND_FAILS
    },
];

#[test]
fn writes(rt: HostRuntime) -> Result<(), Fail> {
    play(&rt, rt.alloc(), &ROWS)
}

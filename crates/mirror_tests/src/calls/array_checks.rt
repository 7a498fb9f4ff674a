// Checks of members in sync: the chunks that are counted, what is read, and what is refused.
use crate::calls::call::{Answer, Call};
use crate::calls::data::{Data, Filling, NONE_OTHER};
use crate::calls::members::{FIRST, Member, SECOND};
use crate::calls::play::{ROW, Row, play};
use md_check::CheckFault;
use std::test::Fail;

// What all members have.
const DATA: Data = Data(Filling::Same(7), NONE_OTHER, NONE_OTHER);

const ONE: Member = Member {
    data: DATA,
    ..FIRST
};

const OTHER: Member = Member {
    data: DATA,
    ..SECOND
};

const CHECK_COUNTS: [Row; 2] = [
    Row {
        members: &[ONE, OTHER],
        calls: &[
            (Call::Check, Answer::Counts(0)),
            (Call::Check, Answer::Counts(0)),
        ],
        ..ROW
    },
    Row {
        members: &[
            ONE,
            Member {
                data: Data(Filling::Same(7), (13, 1, 8), (13, 1, 8)),
                ..OTHER
            },
        ],
        calls: &[
            (Call::Check, Answer::Counts(1)),
            (Call::Check, Answer::Counts(1)),
        ],
        ..ROW
    },
];

#[test]
fn check_counts(rt: HostRuntime) -> Result<(), Fail> {
    play(&rt, rt.alloc(), &CHECK_COUNTS)
}

const ROWS: [Row; 6] = [
    // With one member in sync nothing differs, and nothing is read.
    Row {
        members: &[Member { bad: (0, 1), ..ONE }],
        calls: &[(Call::CheckCounted, Answer::Counted(Ok(0), [0; 4]))],
        ..ROW
    },
    Row {
        members: &[ONE, OTHER],
        calls: &[
            (Call::Begin(8), Answer::Begun(0)),
            (
                Call::CheckCounted,
                Answer::Counted(Err(CheckFault::InFlight(0)), [0; 4]),
            ),
        ],
        ..ROW
    },
    // Both members are read at the same time.
    Row {
        members: &[ONE, OTHER],
        calls: &[(Call::CheckMeeting, Answer::Counts(0))],
        ..ROW
    },
    // Each chunk is read by itself, once on each member.
    Row {
        members: &[ONE, OTHER],
        calls: &[(Call::CheckCounted, Answer::Counted(Ok(0), [16, 16, 8, 56]))],
        ..ROW
    },
    // A sector that a member lists is neither read there nor compared.
    Row {
        members: &[
            ONE,
            Member {
                listed: (13, 1),
                bad: (13, 1),
                data: Data(Filling::Same(7), (13, 1, 8), (13, 1, 8)),
                ..OTHER
            },
        ],
        calls: &[(Call::Check, Answer::Counts(0))],
        ..ROW
    },
    // The member and the chunk of a read that failed.
    Row {
        members: &[
            ONE,
            Member {
                bad: (8, 1),
                ..OTHER
            },
        ],
        calls: &[
            (Call::Check, Answer::NotChecked(CheckFault::ReadFault(1, 1))),
            (Call::Check, Answer::NotChecked(CheckFault::ReadFault(1, 1))),
        ],
        ..ROW
    },
];

#[test]
fn checks(rt: HostRuntime) -> Result<(), Fail> {
    play(&rt, rt.alloc(), &ROWS)
}

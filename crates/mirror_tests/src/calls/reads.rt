// Sectors of the array are read, as one call.
use crate::calls::call::{Answer, Call};
use crate::calls::data::{Data, Filling, NONE_OTHER};
use crate::calls::members::{FIRST, Member, SECOND};
use crate::calls::play::{ROW, Row, play};
use md_read::UnreadFault;
use std::test::Fail;

const ZEROS: Data = Data(Filling::Same(0), NONE_OTHER, NONE_OTHER);

const ONES: Data = Data(Filling::Same(1), NONE_OTHER, NONE_OTHER);

// Members that are filled with their numbers. The first lists sectors 10 to 19.
const LISTING: Member = Member {
    listed: (10, 10),
    data: ZEROS,
    ..FIRST
};

const OTHER: Member = Member {
    listed: (40, 1),
    data: ONES,
    ..SECOND
};

// Each sector from the lowest role that gives it.
const GIVEN: Data = Data(Filling::Same(0), (10, 10, 1), (0, 0, 0));

const ROWS: [Row; 3] = [
    Row {
        members: &[
            LISTING,
            Member {
                bad: (30, 1),
                ..OTHER
            },
        ],
        calls: &[
            (Call::Read(0, 64, 64, GIVEN), Answer::Done),
            (
                Call::Read(64, 1, 0, GIVEN),
                Answer::NotRead(UnreadFault::OutOfRange),
            ),
            (
                Call::Read(0, 0, 0, GIVEN),
                Answer::NotRead(UnreadFault::OutOfRange),
            ),
        ],
        ..ROW
    },
    // The first sector that nobody gives is named; those before it have been read.
    Row {
        members: &[
            LISTING,
            Member {
                bad: (17, 1),
                ..OTHER
            },
        ],
        calls: &[(
            Call::Read(0, 64, 17, GIVEN),
            Answer::NotRead(UnreadFault::Unreadable(17)),
        )],
        ..ROW
    },
    // Both list sector 8. The last one is read from the first member.
    Row {
        members: &[
            Member {
                listed: (8, 1),
                ..LISTING
            },
            Member {
                listed: (8, 1),
                bad: (63, 1),
                ..OTHER
            },
        ],
        calls: &[
            (
                Call::Read(8, 1, 0, ZEROS),
                Answer::NotRead(UnreadFault::Unreadable(8)),
            ),
            (Call::Read(63, 1, 1, ZEROS), Answer::Done),
        ],
        ..ROW
    },
];

#[test]
fn reads(rt: HostRuntime) -> Result<(), Fail> {
    play(&rt, rt.alloc(), &ROWS)
}

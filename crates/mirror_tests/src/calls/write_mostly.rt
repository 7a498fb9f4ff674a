// The second of three roles is that of a write-mostly member: it is read only where the first can't serve.
use crate::calls::call::{Answer, Call};
use crate::calls::data::{Data, Filling, NONE_OTHER};
use crate::calls::members::{FIRST, Member, SECOND, THIRD};
use crate::calls::play::{ROW, Row, play};
use crate::calls::rebuilds::NEW;
use crate::calls::told::{NO_PLAN, NOWHERE, Planning};
use std::test::Fail;

const PLAIN: Member = Member {
    raid_disks: 3,
    ..FIRST
};

const MOSTLY: Member = Member {
    raid_disks: 3,
    is_write_mostly: true,
    ..SECOND
};

const SPARE: Member = Member {
    raid_disks: 3,
    data: Data(Filling::Same(NEW), NONE_OTHER, NONE_OTHER),
    ..THIRD
};

// All from the first member, which shows that fewer rounds are too few.
const FROM_THE_FIRST: Planning = Planning {
    rounds: 8,
    sources: [0; 8],
    certificate: (7, 0xff),
};

const ONE_FROM_THE_SECOND: Planning = Planning {
    rounds: 7,
    sources: [0, 0, 0, 1, 0, 0, 0, 0],
    certificate: (6, 0xf7),
};

const THEN_THE_FOURTH: Planning = Planning {
    rounds: 1,
    sources: [
        NOWHERE, NOWHERE, NOWHERE, 1, NOWHERE, NOWHERE, NOWHERE, NOWHERE,
    ],
    certificate: (0, 1 << 3),
};

const ROWS: [Row; 4] = [
    Row {
        members: &[PLAIN, MOSTLY, SPARE],
        calls: &[
            (Call::Table(2), Answer::Offers([1; 8])),
            (
                Call::RebuildPlanned(2),
                Answer::Planned(1, FROM_THE_FIRST, NO_PLAN),
            ),
        ],
        ..ROW
    },
    // The first member lists a sector of chunk 3.
    Row {
        members: &[
            Member {
                listed: (24, 1),
                ..PLAIN
            },
            MOSTLY,
            SPARE,
        ],
        calls: &[
            (Call::Table(2), Answer::Offers([1, 1, 1, 2, 1, 1, 1, 1])),
            (
                Call::RebuildPlanned(2),
                Answer::Planned(1, ONE_FROM_THE_SECOND, NO_PLAN),
            ),
        ],
        ..ROW
    },
    // It can't be read in a sector of chunk 3, which the next pass takes from the second member.
    Row {
        members: &[
            Member {
                bad: (24, 1),
                ..PLAIN
            },
            MOSTLY,
            SPARE,
        ],
        calls: &[
            (Call::Table(2), Answer::Offers([1; 8])),
            (
                Call::RebuildPlanned(2),
                Answer::Planned(2, FROM_THE_FIRST, THEN_THE_FOURTH),
            ),
        ],
        ..ROW
    },
    // The first of two is write-mostly. It is read where the second lists a sector, or fails to give a run, which is then of the
    // 16 sectors from 23 on.
    Row {
        members: &[
            Member {
                is_write_mostly: true,
                data: Data(Filling::Same(0), NONE_OTHER, NONE_OTHER),
                ..FIRST
            },
            Member {
                listed: (8, 1),
                bad: (30, 1),
                data: Data(Filling::Same(1), NONE_OTHER, NONE_OTHER),
                ..SECOND
            },
        ],
        calls: &[(
            Call::Read(0, 64, 64, Data(Filling::Same(1), (8, 1, 0), (23, 16, 0))),
            Answer::Done,
        )],
        ..ROW
    },
];

#[test]
fn write_mostly_members_are_read_last(rt: HostRuntime) -> Result<(), Fail> {
    play(&rt, rt.alloc(), &ROWS)
}

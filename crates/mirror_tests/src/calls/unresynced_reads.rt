// Sectors of an array that is not resynced are read as they would be after a resync.
use crate::calls::call::{Answer, Call};
use crate::calls::data::{Data, Filling, NONE_OTHER};
use crate::calls::members::{FAULTY, FIRST, Member};
use crate::calls::play::{ROW, Row, play};
use crate::calls::run::WRITTEN;
use md_read::{UnreadFault, UnresyncedFault};
use std::test::Fail;

const OLD: Data = Data(
    Filling::Chunks([0, 1, 2, 3, 4, 5, 6, 7]),
    NONE_OTHER,
    NONE_OTHER,
);

// Written in chunks 1 and 2, which are marked, and in chunk 7, which is not.
const NEW: Data = Data(
    Filling::Chunks([0, WRITTEN, WRITTEN, 3, 4, 5, 6, WRITTEN]),
    NONE_OTHER,
    NONE_OTHER,
);

// The marked chunks of the old data, and the others of the new.
const BOTH: Data = Data(
    Filling::Chunks([0, 1, 2, 3, 4, 5, 6, WRITTEN]),
    NONE_OTHER,
    NONE_OTHER,
);

// The marked chunks of the old data, but for sectors 10 and 11, which the first member lists. These two and
// the other chunks are of the new data.
const BUT_TWO: Data = Data(
    Filling::Chunks([0, 1, 2, 3, 4, 5, 6, WRITTEN]),
    (10, 2, WRITTEN),
    NONE_OTHER,
);

// Of three roles one is empty. The first member is write-mostly: only of marked chunks it is read.
const ONE: Member = Member {
    raid_disks: 3,
    third: Some(FAULTY),
    marks: 0b110,
    is_write_mostly: true,
    data: OLD,
    ..FIRST
};

const OTHER: Member = Member {
    number: 1,
    is_write_mostly: false,
    data: NEW,
    ..ONE
};

const ROWS: [Row; 4] = [
    // A resync and a read after it give the same. Before it nothing was written.
    Row {
        members: &[ONE, OTHER],
        calls: &[
            (
                Call::Read(0, 64, 0, BOTH),
                Answer::NotRead(UnreadFault::NotResynced),
            ),
            (Call::ReadUnresynced(0, 64, 64, BOTH), Answer::Done),
            (Call::ReadUnresynced(23, 2, 2, BOTH), Answer::Done),
            (
                Call::ReadUnresynced(63, 2, 0, BOTH),
                Answer::NotReadUnresynced(UnresyncedFault::OutOfRange),
            ),
            (Call::Resync, Answer::Done),
            (Call::Read(0, 64, 64, BOTH), Answer::Done),
        ],
        ..ROW
    },
    // What the first lists comes from the other, in a marked chunk too.
    Row {
        members: &[
            Member {
                listed: (10, 2),
                ..ONE
            },
            OTHER,
        ],
        calls: &[
            (Call::ReadUnresynced(0, 64, 64, BUT_TWO), Answer::Done),
            (Call::Resync, Answer::Done),
            (Call::Read(0, 64, 64, BUT_TWO), Answer::Done),
        ],
        ..ROW
    },
    // In a marked chunk no other member stands in for the one that can't be read, in another chunk it does. What is not
    // asked for is not read.
    Row {
        members: &[
            Member {
                bad: (13, 1),
                ..ONE
            },
            Member {
                bad: (60, 1),
                ..OTHER
            },
        ],
        calls: &[
            (
                Call::ReadUnresynced(0, 64, 13, BOTH),
                Answer::NotReadUnresynced(UnresyncedFault::ReadFault(0, 13)),
            ),
            (Call::ReadUnresynced(14, 46, 46, BOTH), Answer::Done),
            (Call::ReadUnresynced(60, 1, 1, OLD), Answer::Done),
        ],
        ..ROW
    },
    // Sector 20 is listed by both.
    Row {
        members: &[
            Member {
                listed: (20, 1),
                ..ONE
            },
            Member {
                listed: (20, 1),
                ..OTHER
            },
        ],
        calls: &[(
            Call::ReadUnresynced(0, 64, 20, BOTH),
            Answer::NotReadUnresynced(UnresyncedFault::Unreadable(20)),
        )],
        ..ROW
    },
];

#[test]
fn unresynced_reads(rt: HostRuntime) -> Result<(), Fail> {
    play(&rt, rt.alloc(), &ROWS)
}

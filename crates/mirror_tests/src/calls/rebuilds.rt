// Rebuilds: what a member holds once it is in sync, what is told of it, and what is refused.
use crate::calls::call::{ANY, Answer, Call};
use crate::calls::data::{Data, Filling, NONE_OTHER, NUMBERED};
use crate::calls::left::{Also, Left};
use crate::calls::members::{FIRST, Member, SECOND, THIRD, Vary};
use crate::calls::play::{ROW, Row, play};
use crate::calls::run::WRITTEN;
use crate::calls::told::Told;
use md_assembly::MemberState;
use md_copy::RebuildFault;
use md_metadata::StopFault;
use std::test::Fail;

// What a new member holds before.
pub(crate) const NEW: u8 = 0x77;

pub(crate) const SPARE: Member = Member {
    data: Data(Filling::Same(NEW), NONE_OTHER, NONE_OTHER),
    ..THIRD
};

// Of three roles, with 16 sectors: two chunks.
pub(crate) const SHORT: Member = Member {
    size: 16,
    raid_disks: 3,
    ..FIRST
};

pub(crate) const SHORT_SECOND: Member = Member { number: 1, ..SHORT };

pub(crate) const SHORT_SPARE: Member = Member {
    number: 2,
    data: Data(Filling::Same(NEW), NONE_OTHER, NONE_OTHER),
    ..SHORT
};

pub(crate) const SHORT_REBUILT: Left = Left(
    12,
    0,
    Data(Filling::Number, (16, 48, NEW), (0, 0, 0)),
    Also::Nothing,
);

const NONE: (usize, Option<u32>) = (0, None);

pub(crate) const IN_SYNC: Answer = Answer::Is(MemberState::InSync(1));

// One pass that copies nothing.
const ONE_PASS: Told = Told {
    passes: 1,
    plans: 1,
    rounds: (0, 0),
    slots: 0,
    orphans: NONE,
};

pub(crate) const NO_LIST: Answer = Answer::Lists(0, 0, 0);

const CHUNK_1: Answer = Answer::Lists(1, 2056, 8);

// Two sources of three: a chunk that one can't give comes from the other one.
const FAILING_SOURCES: [Row; 3] = [
    // The first can't be read at all. Which chunk it lists is the planner's choice.
    Row {
        members: &[
            Member {
                bad: (0, 16),
                ..SHORT
            },
            SHORT_SECOND,
            SHORT_SPARE,
        ],
        calls: &[
            (
                Call::Rebuild(2),
                Answer::Rebuilt(Told {
                    passes: 2,
                    plans: 2,
                    rounds: (1, 1),
                    slots: 2,
                    orphans: NONE,
                }),
            ),
            (Call::List(0), Answer::Lists(1, ANY, 8)),
            (Call::List(1), NO_LIST),
            (Call::List(2), NO_LIST),
        ],
        left: &[
            Left(12, 0, NUMBERED, Also::Nothing),
            Left(12, 0, NUMBERED, Also::Nothing),
            SHORT_REBUILT,
        ],
        ..ROW
    },
    // A lone one can't be read in one sector, which is lost with its chunk.
    Row {
        members: &[
            Member {
                bad: (8, 1),
                ..SHORT
            },
            SHORT_SPARE,
        ],
        calls: &[
            (
                Call::Rebuild(1),
                Answer::Rebuilt(Told {
                    passes: 2,
                    plans: 2,
                    rounds: (2, 0),
                    slots: 2,
                    orphans: (1, Some(1)),
                }),
            ),
            (Call::List(0), CHUNK_1),
            (Call::List(1), CHUNK_1),
            (Call::State(1), IN_SYNC),
        ],
        left: &[
            Left(12, 0, NUMBERED, Also::Nothing),
            Left(
                12,
                0,
                Data(Filling::Number, (8, 56, NEW), (0, 0, 0)),
                Also::Nothing,
            ),
        ],
        ..ROW
    },
    // Two sources can't be read in the same sector: each pass lists its chunk on one of them.
    Row {
        members: &[
            Member {
                bad: (8, 1),
                ..SHORT
            },
            Member {
                bad: (8, 1),
                ..SHORT_SECOND
            },
            SHORT_SPARE,
        ],
        calls: &[
            (
                Call::Rebuild(2),
                Answer::Rebuilt(Told {
                    passes: 3,
                    plans: 3,
                    rounds: (1, 0),
                    slots: 2,
                    orphans: (1, Some(1)),
                }),
            ),
            (Call::List(0), CHUNK_1),
            (Call::List(1), CHUNK_1),
            (Call::List(2), CHUNK_1),
        ],
        ..ROW
    },
];

#[test]
fn failing_sources(rt: HostRuntime) -> Result<(), Fail> {
    play(&rt, rt.alloc(), &FAILING_SOURCES)
}

pub(crate) const LOST: Answer = Answer::NotRebuilt(RebuildFault::MetadataFault(0));

const RECOVERING: Answer = Answer::Is(MemberState::Recovering(2));

// A list can't be stored on its source, or the new member can't be written.
const STOPPING: [Row; 3] = [
    // The new member was admitted before that, and the other one still gives all. The first two writes of the source are those that the
    // admission makes due, and the third is of its log.
    Row {
        members: &[
            Member {
                bad: (0, 16),
                ..SHORT
            },
            SHORT_SECOND,
            SHORT_SPARE,
        ],
        vary: Vary::Unwritable(0),
        numbers: (1, 6),
        calls: &[
            (Call::Rebuild(2), LOST),
            (Call::State(0), Answer::Is(MemberState::Faulty)),
            (Call::State(2), RECOVERING),
            (Call::Rebuild(2), Answer::RebuiltIn(1, 0)),
        ],
        ..ROW
    },
    // A lone one can't be made faulty.
    Row {
        members: &[
            Member {
                bad: (8, 1),
                ..SHORT
            },
            SHORT_SPARE,
        ],
        vary: Vary::Unwritable(0),
        numbers: (1, 6),
        calls: &[
            (Call::Rebuild(1), LOST),
            (Call::Stop, Answer::NotStopped(StopFault::Halted)),
            (Call::State(1), Answer::Is(MemberState::Recovering(1))),
        ],
        ..ROW
    },
    // The new member's first write is that of its admission, of which half is done.
    Row {
        members: &[
            FIRST,
            Member {
                fails: 1,
                torn: true,
                ..SPARE
            },
        ],
        calls: &[
            (
                Call::Rebuild(1),
                Answer::NotRebuilt(RebuildFault::TargetFault),
            ),
            (Call::State(1), Answer::Is(MemberState::Spare)),
        ],
        left: &[
            Left(10, 0, NUMBERED, Also::Kept(FIRST)),
            Left(
                11,
                0,
                Data(Filling::Same(NEW), NONE_OTHER, NONE_OTHER),
                Also::Nothing,
            ),
        ],
        ..ROW
    },
];

#[test]
fn members_that_cannot_be_written(rt: HostRuntime) -> Result<(), Fail> {
    play(&rt, rt.alloc(), &STOPPING)
}

// It lists chunk 3. The spare lists another chunk, which it gets.
pub(crate) const LISTING: Member = Member {
    listed: (24, 8),
    ..FIRST
};

pub(crate) const LISTING_SPARE: Member = Member {
    listed: (8, 8),
    ..SPARE
};

// A chunk that no member holds is listed, and is not made up: sectors 2072 to 2079 of the device.
const REBUILD_WITH_ORPHAN: [Row; 1] = [Row {
    members: &[LISTING, LISTING_SPARE],
    calls: &[
        (Call::Table(1), Answer::Offers([1, 1, 1, 0, 1, 1, 1, 1])),
        (
            Call::Rebuild(1),
            Answer::Rebuilt(Told {
                rounds: (7, 7),
                slots: 7,
                orphans: (1, Some(3)),
                ..ONE_PASS
            }),
        ),
        (Call::State(1), IN_SYNC),
        // It is admitted, and then it comes into sync.
        (Call::Events, Answer::Counting(12)),
    ],
    left: &[
        Left(12, 0, NUMBERED, Also::Nothing),
        Left(
            12,
            0,
            Data(Filling::Number, (24, 8, NEW), (0, 0, 0)),
            Also::Entry([0x08, 0x60, 0x20, 0, 0, 0, 0, 0]),
        ),
    ],
    ..ROW
}];

#[test]
fn rebuild_with_orphan(rt: HostRuntime) -> Result<(), Fail> {
    play(&rt, rt.alloc(), &REBUILD_WITH_ORPHAN)
}

const NOT_SPARE: Answer = Answer::NotRebuilt(RebuildFault::NotSpare);

// A member of an array of three, whose bitmap tells of nothing, so that each chunk is marked.
const UNSURE: Member = Member {
    bitmap_behind: 2,
    raid_disks: 3,
    ..FIRST
};

const FULL: Answer = Answer::NotRebuilt(RebuildFault::EventsFull);

const REFUSED: [Row; 4] = [
    // Both roles are taken, so that the spare has none.
    Row {
        members: &[FIRST, SECOND, SPARE],
        calls: &[
            (Call::Table(0), NOT_SPARE),
            (Call::Table(1), NOT_SPARE),
            (Call::Table(2), NOT_SPARE),
            (Call::Rebuild(0), NOT_SPARE),
            (Call::Rebuild(1), NOT_SPARE),
            (Call::Rebuild(2), NOT_SPARE),
            (Call::Rebuild(3), Answer::NotCalled),
            (Call::Events, Answer::Counting(10)),
        ],
        ..ROW
    },
    Row {
        members: &[
            UNSURE,
            Member {
                number: 1,
                ..UNSURE
            },
            Member {
                number: 2,
                ..UNSURE
            },
        ],
        calls: &[
            (Call::Rebuild(2), Answer::NotRebuilt(RebuildFault::Dirty)),
            (Call::Events, Answer::Counting(10)),
        ],
        ..ROW
    },
    // A spare is admitted, and then it comes into sync: the count has to rise twice.
    Row {
        members: &[
            Member {
                events: u64::MAX,
                ..FIRST
            },
            Member {
                events: u64::MAX,
                ..SPARE
            },
        ],
        calls: &[
            (Call::Rebuild(1), FULL),
            (Call::Events, Answer::Counting(u64::MAX)),
        ],
        ..ROW
    },
    Row {
        members: &[
            Member {
                events: u64::MAX - 1,
                ..FIRST
            },
            Member {
                events: u64::MAX - 1,
                ..SPARE
            },
        ],
        calls: &[
            (Call::Rebuild(1), FULL),
            (Call::Events, Answer::Counting(u64::MAX - 1)),
        ],
        ..ROW
    },
];

#[test]
fn refused_rebuilds(rt: HostRuntime) -> Result<(), Fail> {
    play(&rt, rt.alloc(), &REFUSED)
}

const AWAY: Data = Data(Filling::Number, (8, 1, WRITTEN), (0, 0, 0));

// A member that left and was taken back gets what it lacks: nothing, or what was written since.
const TAKEN_BACK: [Row; 2] = [
    Row {
        members: &[FIRST, SECOND],
        calls: &[
            (Call::Fail(1), Answer::Done),
            (Call::Remove(1), Answer::Done),
            (Call::ReAdd, Answer::Joined(1)),
            (Call::Lack(1), Answer::Lacks(0, None)),
            (
                Call::Rebuild(1),
                Answer::Rebuilt(Told {
                    rounds: (0, 0),
                    slots: 0,
                    ..ONE_PASS
                }),
            ),
            (Call::State(1), IN_SYNC),
        ],
        ..ROW
    },
    Row {
        members: &[FIRST, SECOND],
        calls: &[
            (Call::Fail(1), Answer::Done),
            (Call::Write(8, 1), Answer::Done),
            (Call::Remove(1), Answer::Done),
            (Call::ReAdd, Answer::Joined(1)),
            (Call::Lack(1), Answer::Lacks(1, Some(1))),
            (Call::Events, Answer::Counting(13)),
            (
                Call::Rebuild(1),
                Answer::Rebuilt(Told {
                    rounds: (1, 1),
                    slots: 1,
                    ..ONE_PASS
                }),
            ),
            (Call::State(1), IN_SYNC),
            (Call::Events, Answer::Counting(14)),
        ],
        left: &[
            Left(14, 1, AWAY, Also::Nothing),
            Left(14, 1, AWAY, Also::Nothing),
        ],
        ..ROW
    },
];

#[test]
fn member_changes(rt: HostRuntime) -> Result<(), Fail> {
    play(&rt, rt.alloc(), &TAKEN_BACK)
}

// With 20 sectors: three chunks.
const LONGER: Member = Member { size: 20, ..SHORT };

const MEETING: [Row; 1] = [Row {
    members: &[
        LONGER,
        Member {
            number: 1,
            ..LONGER
        },
        Member {
            size: 20,
            ..SHORT_SPARE
        },
    ],
    calls: &[(
        Call::RebuildMeeting(2),
        Answer::Rebuilt(Told {
            slots: 3,
            rounds: (2, 2),
            ..ONE_PASS
        }),
    )],
    left: &[
        Left(12, 0, NUMBERED, Also::Nothing),
        Left(12, 0, NUMBERED, Also::Nothing),
        Left(
            12,
            0,
            Data(Filling::Number, (20, 44, NEW), (0, 0, 0)),
            Also::Nothing,
        ),
    ],
    ..ROW
}];

#[test]
fn reads_overlap(rt: HostRuntime) -> Result<(), Fail> {
    play(&rt, rt.alloc(), &MEETING)
}

// It can't be read in chunk 3, and its log has no room for that. The chunks before it are copied, and those after it count as not copied.
const ENDED: Row = Row {
    members: &[
        Member {
            is_log_full: true,
            bad: (24, 1),
            ..FIRST
        },
        SPARE,
    ],
    calls: &[
        (
            Call::Rebuild(1),
            Answer::NotRebuilt(RebuildFault::LogFull(0)),
        ),
        (Call::State(1), Answer::Is(MemberState::Recovering(1))),
        (Call::List(0), Answer::Lists(64, 4096, 1)),
    ],
    ..ROW
};

// Opened anew, with a source that can be read, it goes on where it was. What is written meanwhile, to a chunk that was copied, is copied
// again.
const TAKEN_UP: [Row; 2] = [
    Row {
        again: &[
            (Call::Lack(1), Answer::Lacks(5, Some(3))),
            (
                Call::Rebuild(1),
                Answer::Rebuilt(Told {
                    rounds: (5, 5),
                    slots: 5,
                    ..ONE_PASS
                }),
            ),
            (Call::State(1), IN_SYNC),
        ],
        ..ENDED
    },
    Row {
        again: &[
            (Call::Write(8, 1), Answer::Done),
            (Call::Lack(1), Answer::Lacks(6, Some(1))),
            (
                Call::Rebuild(1),
                Answer::Rebuilt(Told {
                    rounds: (6, 6),
                    slots: 6,
                    ..ONE_PASS
                }),
            ),
            (Call::State(1), IN_SYNC),
        ],
        ..ENDED
    },
];

#[test]
fn a_rebuild_is_taken_up_again(rt: HostRuntime) -> Result<(), Fail> {
    play(&rt, rt.alloc(), &TAKEN_UP)
}

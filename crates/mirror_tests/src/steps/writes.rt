// The steps of a write, in their turn and out of it, with failing writes, and on a lone member.
use crate::steps::images::{FIRST, Field, Image, SECOND, SPENT};
use crate::steps::play::{Chapter, Worked, play_all};
use crate::steps::shown::{CLEAN, SECTOR_8, Shown, Stored, UNWRITTEN};
use crate::steps::step::{Answer, Step};
use md_array::{BeginFault, ClearFault, FinishFault, StoreFault, WriteMemberFault};
use md_assembly::MemberState;
use md_metadata::StopFault;
use std::test::Fail;

// Once a request for sector 8 is written, and chunk 1 is marked.
const WRITTEN: Shown = Shown {
    events: 11,
    marks: (1, Some(1)),
    clean: false,
    ..CLEAN
};

const IN_FLIGHT: Shown = Shown {
    in_flight: Some(0),
    ..WRITTEN
};

const ALL_FINISHED: Shown = Shown {
    marks: (0, None),
    ..WRITTEN
};

// A member gets the bytes once all marks and then all records are stored, and once only.
const IN_ORDER: [Worked; 12] = [
    (Step::Begin(8), Answer::Begun(0)),
    (
        Step::WriteMember(0),
        Answer::NotWritten(WriteMemberFault::NotMarked(0)),
    ),
    (Step::StoreMarks(0), Answer::Done),
    (Step::StoreMarks(1), Answer::Done),
    (
        Step::WriteMember(0),
        Answer::NotWritten(WriteMemberFault::NotRecorded(0)),
    ),
    (Step::Record(0), Answer::Done),
    (Step::Record(1), Answer::Done),
    (Step::WriteMember(0), Answer::Done),
    (
        Step::WriteMember(0),
        Answer::NotWritten(WriteMemberFault::AlreadyWritten),
    ),
    (Step::Begin(8), Answer::NotBegun(BeginFault::Overlaps(0))),
    (Step::Finish, Answer::NotFinished(FinishFault::Unwritten(1))),
    (Step::Show, Answer::Shows(IN_FLIGHT)),
];

// While chunk 1 is marked, and then.
const RESYNCED: [Worked; 5] = [
    (Step::Begin(8), Answer::NotBegun(BeginFault::NotResynced)),
    (Step::ClearIdle, Answer::NotCleared(ClearFault::NotResynced)),
    (
        Step::Show,
        Answer::Shows(Shown {
            resynced: false,
            ..WRITTEN
        }),
    ),
    (Step::Resync, Answer::Done),
    (Step::Show, Answer::Shows(ALL_FINISHED)),
];

// What was written on the first member alone is on both, and no chunk is marked.
const ALIKE: Stored = Stored {
    events: 11,
    bitmap: (11, 11),
    written: SECTOR_8,
    ..UNWRITTEN
};

const STEP_ORDER: [Chapter; 2] = [
    Chapter {
        images: &[FIRST, SECOND],
        steps: &[&IN_ORDER],
        stored: &[],
    },
    Chapter {
        images: &[],
        steps: &[&RESYNCED],
        stored: &[
            ALIKE,
            Stored {
                number: 1,
                role: 1,
                ..ALIKE
            },
        ],
    },
];

// Request 1 keeps its chunk's mark until it is finished.
const OVERLAP: [Worked; 22] = [
    (Step::Begin(8), Answer::Begun(0)),
    (Step::Begin(9), Answer::Begun(1)),
    (Step::StoreMarks(0), Answer::Done),
    (Step::StoreMarks(1), Answer::Done),
    (Step::Record(0), Answer::Done),
    (Step::Record(1), Answer::Done),
    (Step::WriteMember(0), Answer::Done),
    (Step::WriteMember(1), Answer::Done),
    (Step::Turn, Answer::Done),
    (Step::Show, Answer::Shows(IN_FLIGHT)),
    (Step::WriteMember(0), Answer::Done),
    (Step::WriteMember(1), Answer::Done),
    (Step::Finish, Answer::Done),
    (Step::ClearIdle, Answer::NotCleared(ClearFault::Busy(1))),
    (Step::Begin(64), Answer::NotBegun(BeginFault::OutOfRange)),
    (Step::BeginNothing, Answer::NotBegun(BeginFault::OutOfRange)),
    (Step::Stop, Answer::NotStopped(StopFault::InFlight(1))),
    (Step::Turn, Answer::Done),
    (Step::Finish, Answer::Done),
    (Step::ClearIdle, Answer::Done),
    (Step::ClearIdle, Answer::NotCleared(ClearFault::NotMarked)),
    (Step::Show, Answer::Shows(ALL_FINISHED)),
];

const OVERLAPPING: [Chapter; 1] = [Chapter {
    images: &[FIRST, SECOND],
    steps: &[&OVERLAP],
    stored: &[],
}];

const WITHOUT_SECOND: Shown = Shown {
    events: 12,
    degraded: true,
    ..WRITTEN
};

const SECOND_FAILS: [Worked; 17] = [
    (Step::Begin(8), Answer::Begun(0)),
    (Step::StoreMarks(0), Answer::Done),
    (Step::StoreMarks(1), Answer::Done),
    (Step::Record(0), Answer::Done),
    (Step::Record(1), Answer::Done),
    (Step::WriteMember(0), Answer::Done),
    (
        Step::WriteMember(1),
        Answer::NotWritten(WriteMemberFault::MemberFailed(1)),
    ),
    (
        Step::Show,
        Answer::Shows(Shown {
            in_flight: Some(0),
            due: 1,
            ..WITHOUT_SECOND
        }),
    ),
    (
        Step::WriteMember(1),
        Answer::NotWritten(WriteMemberFault::NotActive),
    ),
    (
        Step::StoreMarks(1),
        Answer::NotStored(StoreFault::NotActive),
    ),
    (Step::Record(1), Answer::NotStored(StoreFault::NotActive)),
    (
        Step::Finish,
        Answer::NotFinished(FinishFault::MustRecord(0)),
    ),
    (Step::StoreMarks(0), Answer::Done),
    (Step::Record(0), Answer::Done),
    (Step::Finish, Answer::Done),
    (Step::ClearIdle, Answer::NotCleared(ClearFault::Degraded)),
    (Step::Show, Answer::Shows(WITHOUT_SECOND)),
];

// The failure is counted on the first member alone. Marks were last cleared at 11 on both.
const WRITE_FAILS: [Chapter; 2] = [
    Chapter {
        images: &[
            FIRST,
            Image {
                fails: (3, 3),
                ..SECOND
            },
        ],
        steps: &[&SECOND_FAILS],
        stored: &[],
    },
    Chapter {
        images: &[],
        steps: &[&[
            (
                Step::Member(0),
                Answer::Is(MemberState::InSync(0), false, false),
            ),
            (
                Step::Member(1),
                Answer::Is(MemberState::Faulty, false, false),
            ),
        ]],
        stored: &[
            Stored {
                events: 12,
                bitmap: (12, 11),
                marked: 1,
                written: SECTOR_8,
                ..UNWRITTEN
            },
            Stored {
                number: 1,
                role: 1,
                events: 11,
                bitmap: (11, 11),
                marked: 1,
                ..UNWRITTEN
            },
        ],
    },
];

const SPENT_ACTIVE: [Field; 4] = [
    Field::Super(200, 8, u64::MAX),
    Field::Super(208, 8, 0),
    Field::Map(24, 8, u64::MAX),
    Field::Map(32, 8, u64::MAX),
];

const AT_LIMIT: Shown = Shown {
    events: u64::MAX,
    ..CLEAN
};

// An active array begins without a rise of the count. A failure needs one.
const LIMITS: [Chapter; 2] = [
    Chapter {
        images: &[
            Image {
                also: &SPENT,
                ..FIRST
            },
            Image {
                also: &SPENT,
                ..SECOND
            },
        ],
        steps: &[&[
            (Step::Begin(8), Answer::NotBegun(BeginFault::EventsFull)),
            (Step::Show, Answer::Shows(AT_LIMIT)),
        ]],
        stored: &[],
    },
    Chapter {
        images: &[
            Image {
                also: &SPENT_ACTIVE,
                ..FIRST
            },
            Image {
                also: &SPENT_ACTIVE,
                fails: (1, 1),
                ..SECOND
            },
        ],
        steps: &[&[
            (Step::Begin(8), Answer::Begun(0)),
            (Step::StoreMarks(0), Answer::Done),
            (Step::StoreMarks(1), Answer::NotStored(StoreFault::Halted)),
            (
                Step::Show,
                Answer::Shows(Shown {
                    marks: (1, Some(1)),
                    in_flight: Some(0),
                    clean: false,
                    halted: true,
                    ..AT_LIMIT
                }),
            ),
        ]],
        stored: &[],
    },
];

const WRITTEN_ALONE: Shown = Shown {
    members: 1,
    degraded: true,
    ..WRITTEN
};

// What halted the mirror is the write of the data, its third.
const HALTS: [Worked; 11] = [
    (Step::Begin(8), Answer::Begun(0)),
    (Step::StoreMarks(0), Answer::Done),
    (Step::Record(0), Answer::Done),
    (
        Step::WriteMember(0),
        Answer::NotWritten(WriteMemberFault::Halted),
    ),
    (
        Step::WriteMember(0),
        Answer::NotWritten(WriteMemberFault::Halted),
    ),
    (Step::Finish, Answer::NotFinished(FinishFault::Halted)),
    (Step::Begin(64), Answer::NotBegun(BeginFault::Halted)),
    (Step::StoreMarks(0), Answer::NotStored(StoreFault::Halted)),
    (Step::Record(0), Answer::NotStored(StoreFault::Halted)),
    (Step::ClearIdle, Answer::NotCleared(ClearFault::Halted)),
    (
        Step::Show,
        Answer::Shows(Shown {
            in_flight: Some(0),
            halted: true,
            ..WRITTEN_ALONE
        }),
    ),
];

const MARKED_ALONE: Stored = Stored {
    events: 11,
    bitmap: (11, 8),
    marked: 1,
    ..UNWRITTEN
};

const LAST_FAILS: [Chapter; 1] = [Chapter {
    images: &[Image {
        fails: (3, 3),
        ..FIRST
    }],
    steps: &[&HALTS],
    stored: &[MARKED_ALONE],
}];

// A whole write to sector 8.
const WRITES: [Worked; 6] = [
    (Step::Begin(8), Answer::Begun(0)),
    (Step::StoreMarks(0), Answer::Done),
    (Step::Record(0), Answer::Done),
    (Step::WriteMember(0), Answer::Done),
    (Step::Finish, Answer::Done),
    (Step::Show, Answer::Shows(WRITTEN_ALONE)),
];

const SECOND_WRITTEN: Stored = Stored {
    number: 1,
    role: 1,
    written: SECTOR_8,
    ..MARKED_ALONE
};

// The other member beside the one that was written.
const LEFT_OUT: [Worked; 3] = [
    (
        Step::Member(0),
        Answer::Is(MemberState::Faulty, false, false),
    ),
    (
        Step::Member(1),
        Answer::Is(MemberState::InSync(1), false, false),
    ),
    (
        Step::Show,
        Answer::Shows(Shown {
            members: 2,
            ..WRITTEN_ALONE
        }),
    ),
];

const ACTIVE: [Field; 1] = [Field::Super(208, 8, 0)];

const ABSENT_FROM_CLEAN: [Chapter; 2] = [
    Chapter {
        images: &[SECOND],
        steps: &[&WRITES],
        stored: &[SECOND_WRITTEN],
    },
    Chapter {
        images: &[FIRST],
        steps: &[&LEFT_OUT],
        stored: &[],
    },
];

const ABSENT_FROM_ACTIVE: [Chapter; 2] = [
    Chapter {
        images: &[Image {
            also: &ACTIVE,
            ..SECOND
        }],
        steps: &[&WRITES],
        stored: &[SECOND_WRITTEN],
    },
    Chapter {
        images: &[Image {
            also: &ACTIVE,
            ..FIRST
        }],
        steps: &[&LEFT_OUT],
        stored: &[],
    },
];

const ROWS: [&[Chapter]; 1] = [&LIMITS];

const LIVES: [&[Chapter]; 6] = [
    &STEP_ORDER,
    &OVERLAPPING,
    &WRITE_FAILS,
    &LAST_FAILS,
    &ABSENT_FROM_CLEAN,
    &ABSENT_FROM_ACTIVE,
];

#[test]
fn writes_by_steps(rt: HostRuntime) -> Result<(), Fail> {
    play_all(&rt, rt.alloc(), &ROWS, &LIVES)
}

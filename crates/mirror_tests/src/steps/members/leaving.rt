// Members that fail, leave and are taken back, and what each of them lacks then.
use crate::steps::images::{FIRST, Field, Image, SECOND};
use crate::steps::play::{Chapter, Worked, play_all};
use crate::steps::shown::{CLEAN, Shown, Stored, UNWRITTEN};
use crate::steps::step::{Answer, Step};
use md_array::{
    AddFault, BeginFault, ClearFault, FailFault, NoteFault, ReAddFault, RemoveFault, StoreFault,
};
use md_assembly::MemberState;
use std::test::Fail;

pub(crate) const LEAVES: [Worked; 2] = [
    (Step::Fail(1), Answer::Done),
    (Step::Remove(1), Answer::Done),
];

// Once one of two members has failed.
const FAILED: Shown = Shown {
    events: 11,
    due: 1,
    degraded: true,
    ..CLEAN
};

// Once one of two members has failed and sector 8 was written.
const WRITTEN: Shown = Shown {
    events: 12,
    marks: (1, Some(1)),
    due: 0,
    clean: false,
    ..FAILED
};

const NOTHING: Answer = Answer::Lacks(0, None);

const EVERYTHING: Answer = Answer::Lacks(8, Some(0));

const SECOND_LEFT: Stored = Stored {
    number: 1,
    role: 1,
    ..UNWRITTEN
};

// A write marks its chunk. The member in sync lacks it no more than any other, and the faulty one lacks all. Nothing is
// written on the device of that since it failed.
const CHANGES: [Worked; 21] = [
    (Step::Lack(0), NOTHING),
    (Step::Lack(1), NOTHING),
    (Step::Fail(1), Answer::Done),
    (Step::Show, Answer::Shows(FAILED)),
    (Step::Fail(1), Answer::NotFailed(FailFault::NotActive)),
    (Step::Fail(0), Answer::NotFailed(FailFault::LastMember)),
    (
        Step::Remove(0),
        Answer::NotRemoved(RemoveFault::StillActive),
    ),
    (Step::Fail(2), Answer::NotCalled),
    (Step::Lack(0), NOTHING),
    (Step::Lack(1), EVERYTHING),
    (Step::Write(8), Answer::Done),
    (Step::Show, Answer::Shows(WRITTEN)),
    (Step::ClearIdle, Answer::NotCleared(ClearFault::Degraded)),
    (Step::Lack(0), NOTHING),
    (Step::Lack(1), EVERYTHING),
    (Step::Remove(1), Answer::Done),
    (Step::Left, Answer::Device(SECOND_LEFT)),
    (
        Step::Show,
        Answer::Shows(Shown {
            members: 1,
            ..WRITTEN
        }),
    ),
    (Step::Lack(0), NOTHING),
    (Step::Lack(1), Answer::NotCalled),
    (Step::Permit(1), Answer::Permits(1)),
];

// Marks were last cleared at the events of both.
const CLEARED: [Field; 1] = [Field::Map(32, 8, 10)];

// A device is not taken back whose events are before those at which marks were last cleared.
const COMES_TOO_LATE: [Worked; 5] = [
    (Step::Write(8), Answer::Done),
    (
        Step::Bring(&SECOND, &[Field::Super(200, 8, 9)]),
        Answer::NotReAdded(ReAddFault::NotReAddable),
    ),
    (
        Step::Show,
        Answer::Shows(Shown {
            members: 1,
            ..WRITTEN
        }),
    ),
    (Step::Bring(&SECOND, &[]), Answer::Joined(1)),
    (Step::Lack(1), Answer::Lacks(1, Some(1))),
];

const MEMBER_CHANGES: [Chapter; 2] = [
    Chapter {
        images: &[FIRST, SECOND],
        steps: &[&CHANGES],
        stored: &[],
    },
    Chapter {
        images: &[
            Image {
                also: &CLEARED,
                ..FIRST
            },
            Image {
                also: &CLEARED,
                ..SECOND
            },
        ],
        steps: &[&LEAVES, &COMES_TOO_LATE],
        stored: &[],
    },
];

// Its number has no entry.
pub(crate) const SPARE: Image = Image {
    fields: &[Field::Super(160, 4, 2), Field::Map(32, 8, 8)],
    ..FIRST
};

// Up to sector 0 of the array.
pub(crate) const RECOVERING: Image = Image {
    fields: &[
        Field::Super(8, 4, 3),
        Field::Super(160, 4, 1),
        Field::Map(32, 8, 8),
    ],
    ..FIRST
};

// A spare lacks all chunks. It can't be failed, and the others are told that it left. One that was recovering from the start
// when the array was opened lacks all chunks too, and can be failed.
const OTHERS: [Chapter; 2] = [
    Chapter {
        images: &[FIRST, SECOND, SPARE],
        steps: &[&[
            (Step::Lack(0), NOTHING),
            (Step::Lack(1), NOTHING),
            (Step::Lack(2), EVERYTHING),
            (Step::Fail(2), Answer::NotFailed(FailFault::NotActive)),
            (Step::Remove(2), Answer::Done),
            (
                Step::Left,
                Answer::Device(Stored {
                    number: 2,
                    role: 0xffff,
                    ..UNWRITTEN
                }),
            ),
            (
                Step::Show,
                Answer::Shows(Shown {
                    events: 11,
                    due: 2,
                    ..CLEAN
                }),
            ),
        ]],
        stored: &[],
    },
    Chapter {
        images: &[FIRST, RECOVERING],
        steps: &[&[
            (Step::Write(8), Answer::Done),
            (
                Step::Show,
                Answer::Shows(Shown {
                    events: 11,
                    ..WRITTEN
                }),
            ),
            (Step::Lack(0), NOTHING),
            (Step::Lack(1), EVERYTHING),
            (
                Step::Remove(1),
                Answer::NotRemoved(RemoveFault::StillActive),
            ),
            (Step::Fail(1), Answer::Done),
            (Step::Lack(0), NOTHING),
            (Step::Lack(1), EVERYTHING),
        ]],
        stored: &[],
    },
];

// The record of the other member is due then, and its own is not. Sectors 40 and 41 are in chunk 5.
const COMES_BACK: [Worked; 14] = [
    (Step::Fail(1), Answer::Done),
    (Step::Fail(1), Answer::NotFailed(FailFault::NotActive)),
    (Step::Fail(0), Answer::NotFailed(FailFault::LastMember)),
    (
        Step::Remove(0),
        Answer::NotRemoved(RemoveFault::StillActive),
    ),
    (Step::Write(8), Answer::Done),
    (Step::Remove(1), Answer::Done),
    (Step::ReAdd, Answer::Joined(1)),
    (
        Step::Show,
        Answer::Shows(Shown {
            events: 13,
            due: 1,
            ..WRITTEN
        }),
    ),
    (
        Step::Member(1),
        Answer::Is(MemberState::Recovering(1), false, true),
    ),
    (Step::Lack(1), Answer::Lacks(1, Some(1))),
    (Step::Write(40), Answer::Done),
    (Step::Write(41), Answer::Done),
    (Step::Write(8), Answer::Done),
    (Step::Lack(1), Answer::Lacks(2, Some(1))),
];

const BACK: [Chapter; 2] = [
    Chapter {
        images: &[FIRST, SECOND],
        steps: &[&COMES_BACK],
        stored: &[],
    },
    Chapter {
        images: &[FIRST, SECOND],
        steps: &[
            &LEAVES,
            &[(Step::ReAdd, Answer::Joined(1)), (Step::Lack(1), NOTHING)],
        ],
        stored: &[],
    },
];

// A device of role 1 that has this number of six, is write-mostly, and was once rebuilt up to sector 40.
const SIXTH: [Field; 7] = [
    Field::Super(152, 8, 40),
    Field::Super(160, 4, 5),
    Field::Super(184, 1, 1),
    Field::Super(220, 4, 6),
    Field::Super(258, 8, 0xffff_ffff_ffff_fffe),
    Field::Super(266, 2, 1),
    Field::Map(32, 8, 8),
];

const SIXTH_OF_SIX: Image = Image {
    fields: &SIXTH,
    ..FIRST
};

// The entries grow up to its number, and those between are of no device.
const GROWN: [Worked; 7] = [
    (Step::Entry(0), Answer::Role(0)),
    (Step::Entry(1), Answer::Role(0xfffe)),
    (Step::Entry(2), Answer::Role(0xffff)),
    (Step::Entry(3), Answer::Role(0xffff)),
    (Step::Entry(4), Answer::Role(0xffff)),
    (Step::Entry(5), Answer::Role(1)),
    (
        Step::Show,
        Answer::Shows(Shown {
            events: 12,
            entries: 6,
            ..FAILED
        }),
    ),
];

const SIXTH_BACK: Stored = Stored {
    number: 5,
    role: 1,
    entries: 6,
    features: 3,
    events: 12,
    devflags: 1,
    ..UNWRITTEN
};

// Its events may be those at which marks were last cleared, the array's, or any between.
const ROLES_GROW: [Chapter; 4] = [
    Chapter {
        images: &[FIRST, SECOND],
        steps: &[
            &LEAVES,
            &[(
                Step::Bring(
                    &SIXTH_OF_SIX,
                    &[Field::Super(200, 8, 8), Field::Map(24, 8, 8)],
                ),
                Answer::Joined(1),
            )],
            &GROWN,
        ],
        stored: &[
            UNWRITTEN,
            Stored {
                bitmap: (8, 8),
                ..SIXTH_BACK
            },
        ],
    },
    Chapter {
        images: &[FIRST, SECOND],
        steps: &[
            &LEAVES,
            &[(
                Step::Bring(
                    &SIXTH_OF_SIX,
                    &[Field::Super(200, 8, 9), Field::Map(24, 8, 9)],
                ),
                Answer::Joined(1),
            )],
            &GROWN,
        ],
        stored: &[
            UNWRITTEN,
            Stored {
                bitmap: (9, 8),
                ..SIXTH_BACK
            },
        ],
    },
    Chapter {
        images: &[FIRST, SECOND],
        steps: &[
            &LEAVES,
            &[(
                Step::Bring(
                    &SIXTH_OF_SIX,
                    &[Field::Super(200, 8, 10), Field::Map(24, 8, 10)],
                ),
                Answer::Joined(1),
            )],
            &GROWN,
        ],
        stored: &[UNWRITTEN, SIXTH_BACK],
    },
    Chapter {
        images: &[FIRST, SECOND],
        steps: &[
            &LEAVES,
            &[(
                Step::Bring(
                    &SIXTH_OF_SIX,
                    &[Field::Super(200, 8, 11), Field::Map(24, 8, 11)],
                ),
                Answer::Joined(1),
            )],
            &GROWN,
        ],
        stored: &[
            UNWRITTEN,
            Stored {
                bitmap: (11, 8),
                ..SIXTH_BACK
            },
        ],
    },
];

// Once member 1 has left, the next write is to the last member in sync, and fails.
const HALTED: Shown = Shown {
    members: 1,
    events: 12,
    marks: (1, Some(1)),
    in_flight: Some(0),
    clean: false,
    halted: true,
    ..FAILED
};

// Most of these would be refused for another reason too. The device that is not taken back is here again.
const HALTS: [Worked; 13] = [
    (Step::Write(8), Answer::NotBegun(BeginFault::Halted)),
    (Step::Show, Answer::Shows(HALTED)),
    (Step::Fail(0), Answer::NotFailed(FailFault::Halted)),
    (Step::Remove(0), Answer::NotRemoved(RemoveFault::Halted)),
    (Step::Write(8), Answer::NotBegun(BeginFault::Halted)),
    (Step::NoteBad(0, 3), Answer::NotNoted(NoteFault::Halted)),
    (Step::StoreLog(0), Answer::NotStored(StoreFault::Halted)),
    (Step::ReAdd, Answer::NotReAdded(ReAddFault::Halted)),
    (Step::Left, Answer::Device(SECOND_LEFT)),
    (Step::Add(2112, 0), Answer::NotAdded(AddFault::Halted)),
    (Step::Show, Answer::Shows(HALTED)),
    (Step::List(0), Answer::Lists(0, 0, 0)),
    (Step::Lack(0), NOTHING),
];

const FAILING: [Chapter; 1] = [Chapter {
    images: &[
        Image {
            fails: (1, u64::MAX - 1),
            ..FIRST
        },
        SECOND,
    ],
    steps: &[&LEAVES, &HALTS],
    stored: &[],
}];

const ROWS: [&[Chapter]; 5] = [&MEMBER_CHANGES, &OTHERS, &BACK, &ROLES_GROW, &FAILING];

const LIVES: [&[Chapter]; 0] = [];

#[test]
fn members_leave(rt: HostRuntime) -> Result<(), Fail> {
    play_all(&rt, rt.alloc(), &ROWS, &LIVES)
}

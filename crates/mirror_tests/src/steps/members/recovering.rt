// Members that are recovering: what they lack by their offset, and how they come to be so.
use crate::steps::images::{FIRST, Field, Image, SECOND, SPENT};
use crate::steps::members::leaving::{LEAVES, RECOVERING, SPARE};
use crate::steps::play::{Chapter, Worked, play_all};
use crate::steps::shown::{CLEAN, SECTOR_8, Shown, Stored, UNWRITTEN};
use crate::steps::step::{Answer, Step};
use md_array::{AdmitFault, FailFault, ReAddFault, RemoveFault};
use md_assembly::MemberState;
use std::test::Fail;

const NOT_ALL: Answer = Answer::Is(MemberState::Recovering(1), false, false);

const RE_ADDED: Answer = Answer::Is(MemberState::Recovering(1), false, true);

const EVERYTHING: Answer = Answer::Lacks(8, Some(0));

// The array has 64 sectors, 8 a chunk. An offset past its size counts as the size.
const OFFSETS: [Chapter; 7] = [
    Chapter {
        images: &[FIRST, RECOVERING],
        steps: &[&[(Step::Lack(1), EVERYTHING), (Step::Member(1), NOT_ALL)]],
        stored: &[],
    },
    Chapter {
        images: &[
            FIRST,
            Image {
                also: &[Field::Super(152, 8, 7)],
                ..RECOVERING
            },
        ],
        steps: &[&[(Step::Lack(1), EVERYTHING), (Step::Member(1), NOT_ALL)]],
        stored: &[],
    },
    Chapter {
        images: &[
            FIRST,
            Image {
                also: &[Field::Super(152, 8, 8)],
                ..RECOVERING
            },
        ],
        steps: &[&[
            (Step::Lack(1), Answer::Lacks(7, Some(1))),
            (Step::Member(1), NOT_ALL),
        ]],
        stored: &[],
    },
    Chapter {
        images: &[
            FIRST,
            Image {
                also: &[Field::Super(152, 8, 20)],
                ..RECOVERING
            },
        ],
        steps: &[&[
            (Step::Lack(1), Answer::Lacks(6, Some(2))),
            (Step::Member(1), NOT_ALL),
        ]],
        stored: &[],
    },
    Chapter {
        images: &[
            FIRST,
            Image {
                also: &[Field::Super(152, 8, 63)],
                ..RECOVERING
            },
        ],
        steps: &[&[
            (Step::Lack(1), Answer::Lacks(1, Some(7))),
            (Step::Member(1), NOT_ALL),
        ]],
        stored: &[],
    },
    Chapter {
        images: &[
            FIRST,
            Image {
                also: &[Field::Super(152, 8, 64)],
                ..RECOVERING
            },
        ],
        steps: &[&[
            (Step::Lack(1), Answer::Lacks(0, None)),
            (Step::Member(1), RE_ADDED),
        ]],
        stored: &[],
    },
    Chapter {
        images: &[
            FIRST,
            Image {
                also: &[Field::Super(152, 8, u64::MAX)],
                ..RECOVERING
            },
        ],
        steps: &[&[
            (Step::Lack(1), Answer::Lacks(0, None)),
            (Step::Member(1), RE_ADDED),
        ]],
        stored: &[],
    },
];

// Chunk 1, which the offset has passed, is marked by a write, and is lacking from then on. Where marks were cleared since the
// member was recorded, its offset tells nothing, and a write records that.
const WRITTEN_SINCE: [Chapter; 2] = [
    Chapter {
        images: &[
            FIRST,
            Image {
                also: &[Field::Super(152, 8, 24)],
                ..RECOVERING
            },
        ],
        steps: &[&[
            (Step::Lack(1), Answer::Lacks(5, Some(3))),
            (Step::Member(1), NOT_ALL),
            (Step::Write(8), Answer::Done),
            (Step::Lack(1), Answer::Lacks(6, Some(1))),
            (Step::Member(1), NOT_ALL),
        ]],
        stored: &[],
    },
    Chapter {
        images: &[
            Image {
                also: &[
                    Field::Super(200, 8, 11),
                    Field::Map(24, 8, 11),
                    Field::Map(32, 8, 11),
                ],
                ..FIRST
            },
            Image {
                also: &[Field::Super(152, 8, 64)],
                ..RECOVERING
            },
        ],
        steps: &[&[
            (Step::Lack(1), EVERYTHING),
            (
                Step::Member(1),
                Answer::Is(MemberState::Recovering(1), true, false),
            ),
            (Step::Write(8), Answer::Done),
        ]],
        stored: &[
            Stored {
                events: 12,
                bitmap: (12, 11),
                marked: 1,
                written: SECTOR_8,
                ..UNWRITTEN
            },
            Stored {
                number: 1,
                role: 1,
                features: 3,
                events: 12,
                ..UNWRITTEN
            },
        ],
    },
];

// The device that left is not taken back then.
const ADMITS: [Worked; 7] = [
    (Step::Add(2112, 0), Answer::Joined(1)),
    (Step::Admit, Answer::Done),
    (Step::ReAdd, Answer::NotReAdded(ReAddFault::NoRole)),
    (
        Step::Remove(1),
        Answer::NotRemoved(RemoveFault::StillActive),
    ),
    (Step::Member(1), NOT_ALL),
    (Step::Lack(1), EVERYTHING),
    (
        Step::Show,
        Answer::Shows(Shown {
            events: 13,
            entries: 3,
            due: 1,
            degraded: true,
            ..CLEAN
        }),
    ),
];

const NEARLY_SPENT: [Field; 3] = [
    Field::Super(200, 8, u64::MAX - 1),
    Field::Map(24, 8, u64::MAX - 1),
    Field::Map(32, 8, u64::MAX - 1),
];

const A_SPARE: Answer = Answer::Is(MemberState::Spare, false, false);

// One of two roles is free.
const DEGRADED: Shown = Shown {
    degraded: true,
    ..CLEAN
};

const AT_LIMIT: Shown = Shown {
    events: u64::MAX,
    ..DEGRADED
};

const ADMISSIONS: [Chapter; 5] = [
    Chapter {
        images: &[FIRST, SECOND],
        steps: &[&LEAVES, &ADMITS],
        stored: &[
            UNWRITTEN,
            Stored {
                device_uuid: 0x0b86_625f_7e8c_57cc_a580_46db_40d9_7af1,
                number: 2,
                role: 1,
                entries: 3,
                features: 3,
                events: 13,
                data: (2048, 64),
                bitmap: (12, 8),
                marked: 8,
                ..UNWRITTEN
            },
        ],
    },
    // Both roles are taken.
    Chapter {
        images: &[FIRST, SECOND, SPARE],
        steps: &[&[
            (Step::Admit, Answer::NotAdmitted(AdmitFault::NoRole)),
            (Step::Member(2), A_SPARE),
            (
                Step::Show,
                Answer::Shows(Shown {
                    members: 3,
                    ..CLEAN
                }),
            ),
        ]],
        stored: &[],
    },
    // No superblock has an entry for its number.
    Chapter {
        images: &[
            FIRST,
            Image {
                also: &[Field::Super(160, 4, 1920)],
                ..SPARE
            },
        ],
        steps: &[&[
            (Step::Admit, Answer::NotAdmitted(AdmitFault::NoRole)),
            (Step::Member(1), A_SPARE),
            (Step::Show, Answer::Shows(DEGRADED)),
        ]],
        stored: &[],
    },
    Chapter {
        images: &[
            Image {
                also: &SPENT,
                ..FIRST
            },
            Image {
                also: &SPENT,
                ..SPARE
            },
        ],
        steps: &[&[
            (Step::Admit, Answer::NotAdmitted(AdmitFault::EventsFull)),
            (Step::Member(1), A_SPARE),
            (Step::Show, Answer::Shows(AT_LIMIT)),
        ]],
        stored: &[],
    },
    // The count rises for the last time.
    Chapter {
        images: &[
            Image {
                also: &NEARLY_SPENT,
                ..FIRST
            },
            Image {
                also: &NEARLY_SPENT,
                ..SPARE
            },
        ],
        steps: &[&[
            (Step::Admit, Answer::Done),
            (Step::Member(1), NOT_ALL),
            (
                Step::Show,
                Answer::Shows(Shown {
                    entries: 3,
                    due: 1,
                    ..AT_LIMIT
                }),
            ),
            (Step::Fail(1), Answer::NotFailed(FailFault::EventsFull)),
        ]],
        stored: &[],
    },
];

// Opened alone, two events ahead of the other member, which has its role.
const AHEAD: Image = Image {
    also: &[Field::Super(200, 8, 12), Field::Map(24, 8, 12)],
    ..FIRST
};

// Opened alone. A third device had the role of the other member, and has failed.
const REPLACED: Image = Image {
    also: &[
        Field::Super(220, 4, 3),
        Field::Super(258, 2, 0xfffe),
        Field::Super(260, 2, 0xfffe),
    ],
    ..FIRST
};

// Opened alone. A third device has that role, and is not here.
const IN_ITS_ROLE: Image = Image {
    also: &[
        Field::Super(220, 4, 3),
        Field::Super(258, 2, 0xfffe),
        Field::Super(260, 2, 1),
    ],
    ..FIRST
};

// A device with a mark that the array lacks was used elsewhere, and lacks everything. So does one by whose superblock the member in
// sync has no role, one that is an older copy, and one that does not know of a device which failed, or which has its role. Of a device
// that had failed by its superblock it knows.
const USED_ELSEWHERE: [Chapter; 10] = [
    Chapter {
        images: &[FIRST, SECOND],
        steps: &[
            &LEAVES,
            &[
                (Step::Write(8), Answer::Done),
                (Step::Bring(&SECOND, &[]), Answer::Joined(1)),
                (Step::Lack(1), Answer::Lacks(1, Some(1))),
                (Step::Member(1), RE_ADDED),
            ],
        ],
        stored: &[],
    },
    Chapter {
        images: &[FIRST, SECOND],
        steps: &[
            &LEAVES,
            &[
                (Step::Write(8), Answer::Done),
                (
                    Step::Bring(&SECOND, &[Field::Map(256, 1, 0b10)]),
                    Answer::Joined(1),
                ),
                (Step::Lack(1), Answer::Lacks(1, Some(1))),
                (Step::Member(1), RE_ADDED),
            ],
        ],
        stored: &[],
    },
    Chapter {
        images: &[FIRST, SECOND],
        steps: &[
            &LEAVES,
            &[
                (Step::Write(8), Answer::Done),
                (
                    Step::Bring(&SECOND, &[Field::Map(256, 1, 0b10_0010)]),
                    Answer::Joined(1),
                ),
                (Step::Lack(1), EVERYTHING),
                (Step::Member(1), NOT_ALL),
            ],
        ],
        stored: &[],
    },
    Chapter {
        images: &[FIRST, SECOND],
        steps: &[
            &LEAVES,
            &[
                (Step::Write(8), Answer::Done),
                (
                    Step::Bring(&SECOND, &[Field::Map(24, 8, 8)]),
                    Answer::Joined(1),
                ),
                (Step::Lack(1), EVERYTHING),
                (Step::Member(1), NOT_ALL),
            ],
        ],
        stored: &[],
    },
    Chapter {
        images: &[FIRST, SECOND],
        steps: &[
            &LEAVES,
            &[
                (
                    Step::Bring(&SECOND, &[Field::Super(256, 2, 0xffff)]),
                    Answer::Joined(1),
                ),
                (Step::Lack(1), EVERYTHING),
                (Step::Member(1), NOT_ALL),
            ],
        ],
        stored: &[],
    },
    Chapter {
        images: &[AHEAD],
        steps: &[&[
            (Step::Bring(&SECOND, &[]), Answer::Joined(1)),
            (Step::Lack(1), EVERYTHING),
            (Step::Member(1), NOT_ALL),
        ]],
        stored: &[],
    },
    Chapter {
        images: &[REPLACED],
        steps: &[&[
            (Step::Bring(&SECOND, &[]), Answer::Joined(1)),
            (Step::Lack(1), EVERYTHING),
            (Step::Member(1), NOT_ALL),
        ]],
        stored: &[],
    },
    Chapter {
        images: &[IN_ITS_ROLE],
        steps: &[&[
            (Step::Bring(&SECOND, &[]), Answer::Joined(1)),
            (Step::Lack(1), EVERYTHING),
            (Step::Member(1), NOT_ALL),
        ]],
        stored: &[],
    },
    Chapter {
        images: &[IN_ITS_ROLE],
        steps: &[&[
            (
                Step::Bring(
                    &SECOND,
                    &[Field::Super(220, 4, 3), Field::Super(260, 2, 0xfffe)],
                ),
                Answer::Joined(1),
            ),
            (Step::Lack(1), EVERYTHING),
            (Step::Member(1), NOT_ALL),
        ]],
        stored: &[],
    },
    Chapter {
        images: &[REPLACED],
        steps: &[&[
            (
                Step::Bring(
                    &SECOND,
                    &[Field::Super(220, 4, 3), Field::Super(260, 2, 0xfffe)],
                ),
                Answer::Joined(1),
            ),
            (Step::Lack(1), Answer::Lacks(0, None)),
            (Step::Member(1), RE_ADDED),
        ]],
        stored: &[],
    },
];

// A spare whose superblock can't be written, all of it or the last half.
const UNWRITABLE: Image = Image {
    fails: (1, 1),
    ..SPARE
};

const HALF_WRITABLE: Image = Image {
    torn: true,
    ..UNWRITABLE
};

// It stays a spare, and is admitted once it can be written.
const NOT_ADMITTED: [Worked; 6] = [
    (Step::Admit, Answer::NotAdmitted(AdmitFault::TargetFault)),
    (Step::Member(1), A_SPARE),
    (Step::Lack(1), EVERYTHING),
    (Step::Show, Answer::Shows(DEGRADED)),
    (Step::Admit, Answer::Done),
    (Step::Member(1), NOT_ALL),
];

const ADMISSIONS_THAT_FAIL: [Chapter; 2] = [
    Chapter {
        images: &[FIRST, UNWRITABLE],
        steps: &[&NOT_ADMITTED],
        stored: &[],
    },
    Chapter {
        images: &[FIRST, HALF_WRITABLE],
        steps: &[&NOT_ADMITTED],
        stored: &[],
    },
];

const ROWS: [&[Chapter]; 5] = [
    &OFFSETS,
    &WRITTEN_SINCE,
    &ADMISSIONS,
    &USED_ELSEWHERE,
    &ADMISSIONS_THAT_FAIL,
];

const LIVES: [&[Chapter]; 0] = [];

#[test]
fn members_recover(rt: HostRuntime) -> Result<(), Fail> {
    play_all(&rt, rt.alloc(), &ROWS, &LIVES)
}

// The list of a member grows: in memory, then in its log, and then by its superblock.
use crate::steps::images::{FIRST, Field, Image, SECOND};
use crate::steps::play::{Chapter, Worked, play_all};
use crate::steps::shown::{CLEAN, Shown, Stored, UNWRITTEN};
use crate::steps::step::{Answer, Step};
use md_array::{NoteFault, StoreFault};
use md_assembly::MemberState;
use std::test::Fail;

// Both have room for 512 entries, and none in it.
const WITH_LOG: Image = Image {
    log: Some((0, 0, 0, 0)),
    ..FIRST
};

const SECOND_WITH_LOG: Image = Image {
    log: Some((0, 0, 0, 0)),
    ..SECOND
};

const DUE: Answer = Answer::Is(MemberState::InSync(0), true, false);

const NOT_DUE: Answer = Answer::Is(MemberState::InSync(0), false, false);

const NO_LIST: Answer = Answer::Lists(0, 0, 0);

// Sectors 2072 to 2079 of the device.
const CHUNK_3: Answer = Answer::Lists(1, 2072, 8);

const NOTES: [Worked; 2] = [
    (Step::NoteBad(0, 3), Answer::Done),
    (Step::Member(0), NOT_DUE),
];

const STORES: [Worked; 2] = [(Step::StoreLog(0), Answer::Done), (Step::Member(0), DUE)];

const RECORDS: [Worked; 2] = [(Step::Record(0), Answer::Done), (Step::Member(0), NOT_DUE)];

// It is permitted no more in that chunk alone, and nobody lacks anything.
const LISTED: [Worked; 12] = [
    (Step::List(0), CHUNK_3),
    (Step::List(1), NO_LIST),
    (Step::Permit(0), Answer::Permits(3)),
    (Step::Permit(1), Answer::Permits(3)),
    (Step::Permit(2), Answer::Permits(3)),
    (Step::Permit(3), Answer::Permits(2)),
    (Step::Permit(4), Answer::Permits(3)),
    (Step::Permit(7), Answer::Permits(3)),
    (Step::Lack(0), Answer::Lacks(0, None)),
    (Step::Lack(1), Answer::Lacks(0, None)),
    (Step::Show, Answer::Shows(CLEAN)),
    (Step::NoteBad(0, 8), Answer::NotCalled),
];

const UNLISTED: [Worked; 3] = [
    (Step::List(0), NO_LIST),
    (Step::Permit(3), Answer::Permits(3)),
    (Step::Show, Answer::Shows(CLEAN)),
];

const ON_FIRST: Stored = Stored {
    data: (2048, 64),
    ..UNWRITTEN
};

const ON_SECOND: Stored = Stored {
    number: 1,
    role: 1,
    ..ON_FIRST
};

const LISTED_ON_FIRST: Stored = Stored {
    features: 9,
    listed: (1, 2072, 8),
    ..ON_FIRST
};

// A list is kept once the superblock tells of the log, and is added to what is listed then.
const GROWS: [Chapter; 2] = [
    Chapter {
        images: &[WITH_LOG, SECOND_WITH_LOG],
        steps: &[&NOTES, &STORES, &RECORDS, &LISTED],
        stored: &[LISTED_ON_FIRST, ON_SECOND],
    },
    Chapter {
        images: &[],
        steps: &[
            &LISTED,
            &[
                (Step::NoteBad(0, 4), Answer::Done),
                (Step::List(0), Answer::Lists(1, 2072, 16)),
                (Step::NoteBad(0, 0), Answer::Done),
                (Step::List(0), Answer::Lists(2, 2048, 8)),
                (Step::StoreLog(0), Answer::Done),
                (Step::Record(0), Answer::Done),
            ],
        ],
        stored: &[
            Stored {
                listed: (2, 2048, 8),
                ..LISTED_ON_FIRST
            },
            ON_SECOND,
        ],
    },
];

// A crash before that leaves no list.
const ONLY_NOTED: [Chapter; 2] = [
    Chapter {
        images: &[WITH_LOG, SECOND_WITH_LOG],
        steps: &[&NOTES, &LISTED],
        stored: &[ON_FIRST, ON_SECOND],
    },
    Chapter {
        images: &[],
        steps: &[&UNLISTED],
        stored: &[],
    },
];

const ONLY_LOGGED: [Chapter; 2] = [
    Chapter {
        images: &[WITH_LOG, SECOND_WITH_LOG],
        steps: &[&NOTES, &STORES],
        stored: &[ON_FIRST, ON_SECOND],
    },
    Chapter {
        images: &[],
        steps: &[&UNLISTED],
        stored: &[],
    },
];

// With room for 64 entries, one sector each from 4096 on, every second one.
const ONE_SECTOR: [Field; 2] = [Field::Super(8, 4, 9), Field::Super(186, 2, 1)];

const FULL: Image = Image {
    also: &ONE_SECTOR,
    log: Some((4096, 2, 64, 1)),
    ..FIRST
};

const NEARLY_FULL: Image = Image {
    log: Some((4096, 2, 63, 1)),
    ..FULL
};

const LOG_FULL: Answer = Answer::NotNoted(NoteFault::LogFull(0));

// The last entry is used, and no more than that. A member without a log has no room. A list that can't be stored makes its member
// faulty.
const LIMITS: [Chapter; 4] = [
    Chapter {
        images: &[FULL, SECOND_WITH_LOG],
        steps: &[&[
            (Step::List(0), Answer::Lists(64, 4096, 1)),
            (Step::NoteBad(0, 3), LOG_FULL),
            (Step::List(0), Answer::Lists(64, 4096, 1)),
            (Step::Permit(3), Answer::Permits(3)),
            (Step::Member(0), NOT_DUE),
            (Step::Show, Answer::Shows(CLEAN)),
        ]],
        stored: &[
            Stored {
                features: 9,
                listed: (64, 4096, 1),
                ..ON_FIRST
            },
            ON_SECOND,
        ],
    },
    Chapter {
        images: &[NEARLY_FULL, SECOND_WITH_LOG],
        steps: &[&[
            (Step::NoteBad(0, 3), Answer::Done),
            (Step::List(0), Answer::Lists(64, 2072, 8)),
            (Step::NoteBad(0, 5), LOG_FULL),
            (Step::NoteBad(0, 4), Answer::Done),
            (Step::List(0), Answer::Lists(64, 2072, 16)),
            (Step::StoreLog(0), Answer::Done),
            (Step::Record(0), Answer::Done),
        ]],
        stored: &[
            Stored {
                features: 9,
                listed: (64, 2072, 16),
                ..ON_FIRST
            },
            ON_SECOND,
        ],
    },
    Chapter {
        images: &[FIRST, SECOND],
        steps: &[&[
            (Step::NoteBad(0, 3), LOG_FULL),
            (Step::List(0), NO_LIST),
            (Step::Permit(3), Answer::Permits(3)),
        ]],
        stored: &[],
    },
    Chapter {
        images: &[
            Image {
                fails: (1, 1),
                ..WITH_LOG
            },
            SECOND_WITH_LOG,
        ],
        steps: &[&[
            (Step::NoteBad(0, 3), Answer::Done),
            (
                Step::StoreLog(0),
                Answer::NotStored(StoreFault::MemberFailed(0)),
            ),
            (
                Step::Member(0),
                Answer::Is(MemberState::Faulty, false, false),
            ),
            (
                Step::Show,
                Answer::Shows(Shown {
                    events: 11,
                    due: 1,
                    degraded: true,
                    ..CLEAN
                }),
            ),
        ]],
        stored: &[ON_FIRST, ON_SECOND],
    },
];

const ROWS: [&[Chapter]; 1] = [&LIMITS];

const LIVES: [&[Chapter]; 3] = [&GROWS, &ONLY_NOTED, &ONLY_LOGGED];

#[test]
fn lists_grow(rt: HostRuntime) -> Result<(), Fail> {
    play_all(&rt, rt.alloc(), &ROWS, &LIVES)
}

// Devices that left and come back, with or without a field changed meanwhile.
use crate::steps::images::{FIRST, Field, Image, SECOND};
use crate::steps::members::leaving::LEAVES;
use crate::steps::play::{Chapter, Worked, play_all};
use crate::steps::shown::{CLEAN, Shown};
use crate::steps::step::{Answer, Step};
use md_array::ReAddFault;
use md_bitmap::BitmapFault;
use md_members::MemberFault;
use md_super::SuperFault;
use std::test::Fail;

const NOT_RE_ADDABLE: Answer = Answer::NotReAdded(ReAddFault::NotReAddable);

// Member 1 as it left, but for a field.
const REFUSED: [Worked; 15] = [
    // The uuid.
    (
        Step::Bring(&SECOND, &[Field::Super(16, 4, 0)]),
        NOT_RE_ADDABLE,
    ),
    (
        Step::Bring(&SECOND, &[Field::Super(80, 8, 63)]),
        NOT_RE_ADDABLE,
    ),
    (
        Step::Bring(&SECOND, &[Field::Super(92, 4, 3)]),
        NOT_RE_ADDABLE,
    ),
    (
        Step::Bring(&SECOND, &[Field::Map(52, 4, 8192)]),
        NOT_RE_ADDABLE,
    ),
    // A number in use, and one without an entry.
    (
        Step::Bring(&SECOND, &[Field::Super(160, 4, 0)]),
        NOT_RE_ADDABLE,
    ),
    (
        Step::Bring(&SECOND, &[Field::Super(160, 4, 2)]),
        NOT_RE_ADDABLE,
    ),
    // No bitmap, and a rebuild that did not end.
    (
        Step::Bring(&SECOND, &[Field::Super(8, 4, 0)]),
        NOT_RE_ADDABLE,
    ),
    (
        Step::Bring(&SECOND, &[Field::Super(8, 4, 3)]),
        NOT_RE_ADDABLE,
    ),
    // The array's events are 11, and marks were last cleared at 8.
    (
        Step::Bring(&SECOND, &[Field::Super(200, 8, 7)]),
        NOT_RE_ADDABLE,
    ),
    (
        Step::Bring(&SECOND, &[Field::Super(200, 8, 12)]),
        NOT_RE_ADDABLE,
    ),
    (
        Step::Bring(&SECOND, &[Field::Super(200, 8, u64::MAX)]),
        NOT_RE_ADDABLE,
    ),
    (
        Step::Bring(&SECOND, &[Field::Super(258, 2, 2)]),
        NOT_RE_ADDABLE,
    ),
    (
        Step::Bring(&SECOND, &[Field::Super(258, 2, 0xfffe)]),
        NOT_RE_ADDABLE,
    ),
    (
        Step::Bring(&SECOND, &[Field::Super(258, 2, 0xffff)]),
        NOT_RE_ADDABLE,
    ),
    (
        Step::Bring(&SECOND, &[Field::Super(258, 2, 0)]),
        Answer::NotReAdded(ReAddFault::NoRole),
    ),
];

const UNREAD: [Worked; 11] = [
    (
        Step::Bring(&SECOND, &[Field::Super(0, 4, 0)]),
        Answer::NotReAdded(ReAddFault::Member(MemberFault::Super(SuperFault::Magic))),
    ),
    (
        Step::Bring(&SECOND, &[Field::Super(4, 4, 2)]),
        Answer::NotReAdded(ReAddFault::Member(MemberFault::Super(SuperFault::Major))),
    ),
    (
        Step::Bring(&SECOND, &[Field::Super(220, 4, 1921)]),
        Answer::NotReAdded(ReAddFault::Member(MemberFault::Super(SuperFault::MaxDev))),
    ),
    (
        Step::Bring(&SECOND, &[Field::Super(144, 8, 16)]),
        Answer::NotReAdded(ReAddFault::Member(MemberFault::Super(SuperFault::SuperOffset))),
    ),
    (
        Step::Bring(&SECOND, &[Field::Super(8, 4, 5)]),
        Answer::NotReAdded(ReAddFault::Member(MemberFault::Super(SuperFault::Feature(4)))),
    ),
    (
        Step::Bring(&SECOND, &[Field::Super(72, 4, 5)]),
        Answer::NotReAdded(ReAddFault::Member(MemberFault::Super(SuperFault::Level))),
    ),
    (
        Step::Bring(&SECOND, &[Field::Super(92, 4, 0)]),
        Answer::NotReAdded(ReAddFault::Member(MemberFault::Super(SuperFault::RaidDisks))),
    ),
    (
        Step::Bring(&SECOND, &[Field::Map(0, 4, 0)]),
        Answer::NotReAdded(ReAddFault::Member(MemberFault::Bitmap(BitmapFault::Magic))),
    ),
    (
        Step::Bring(&SECOND, &[Field::Map(4, 4, 5)]),
        Answer::NotReAdded(ReAddFault::Member(MemberFault::Bitmap(BitmapFault::Version))),
    ),
    (
        Step::Bring(&SECOND, &[Field::Map(52, 4, 100)]),
        Answer::NotReAdded(ReAddFault::Member(MemberFault::Bitmap(BitmapFault::ChunkSize))),
    ),
    (
        Step::Bring(&SECOND, &[Field::Super(80, 8, 0)]),
        Answer::NotReAdded(ReAddFault::Member(MemberFault::Region)),
    ),
];

// Too short for a superblock; one whose superblock can't be read; and one that can't be written at first.
const UNREADABLE: Image = Image {
    bad: &[9],
    ..SECOND
};

const UNWRITABLE: Image = Image {
    fails: (1, 1),
    ..SECOND
};

const FAULTS: [Worked; 3] = [
    (
        Step::BringZeros(15),
        Answer::NotReAdded(ReAddFault::Member(MemberFault::TooShort)),
    ),
    (
        Step::Bring(&UNREADABLE, &[]),
        Answer::NotReAdded(ReAddFault::Member(MemberFault::ReadFault)),
    ),
    (
        Step::Bring(&UNWRITABLE, &[]),
        Answer::NotReAdded(ReAddFault::WriteFault),
    ),
];

// As member 1 left it, and after each refusal.
const LEFT: [Worked; 1] = [(
    Step::Show,
    Answer::Shows(Shown {
        members: 1,
        events: 11,
        due: 1,
        degraded: true,
        ..CLEAN
    }),
)];

const AT_LIMIT: [Worked; 1] = [(
    Step::Show,
    Answer::Shows(Shown {
        members: 1,
        events: u64::MAX,
        degraded: true,
        ..CLEAN
    }),
)];

const SPENT: Image = Image {
    also: &[
        Field::Super(200, 8, u64::MAX),
        Field::Map(24, 8, u64::MAX),
        Field::Map(32, 8, u64::MAX - 2),
    ],
    ..FIRST
};

const RETURNS: [Chapter; 4] = [
    Chapter {
        images: &[FIRST, SECOND],
        steps: &[&LEAVES, &LEFT, &REFUSED, &LEFT],
        stored: &[],
    },
    Chapter {
        images: &[FIRST, SECOND],
        steps: &[&LEAVES, &UNREAD, &LEFT],
        stored: &[],
    },
    Chapter {
        images: &[FIRST, SECOND],
        steps: &[&LEAVES, &FAULTS, &LEFT, &[(Step::ReAdd, Answer::Joined(1))]],
        stored: &[],
    },
    // That the count can't rise comes last.
    Chapter {
        images: &[SPENT],
        steps: &[
            &[
                (
                    Step::Bring(&SECOND, &[Field::Super(200, 8, u64::MAX)]),
                    Answer::NotReAdded(ReAddFault::EventsFull),
                ),
                (
                    Step::Bring(&SECOND, &[Field::Super(200, 8, u64::MAX - 3)]),
                    NOT_RE_ADDABLE,
                ),
            ],
            &AT_LIMIT,
        ],
        stored: &[],
    },
];

const ROWS: [&[Chapter]; 1] = [&RETURNS];

const LIVES: [&[Chapter]; 0] = [];

#[test]
fn members_return(rt: HostRuntime) -> Result<(), Fail> {
    play_all(&rt, rt.alloc(), &ROWS, &LIVES)
}

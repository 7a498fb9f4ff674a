// Mirrors as they are opened.
use crate::checks::same_case;
use crate::steps::images::{FIRST, Field, Image, SECOND, Testing, devices_of};
use crate::steps::play::{Chapter, expect_stored, play_all};
use crate::steps::shown::{CLEAN, Shown, Stored, UNWRITTEN};
use crate::steps::step::{Answer, Step};
use md_array::{Mirror, OpenFault};
use md_assembly::MemberState;
use md_laws::small_life;
use std::alloc::Global;
use std::process::Abort;
use std::test::Fail;

const EARLY: [Field; 1] = [Field::Map(24, 8, 8)];

const NEXT: [Field; 1] = [Field::Map(24, 8, 11)];

// All chunks are marked, and that is stored.
const ALL_MARKED: Stored = Stored {
    bitmap: (10, 10),
    marked: 8,
    ..UNWRITTEN
};

const ALL_MARKED_SECOND: Stored = Stored {
    number: 1,
    role: 1,
    ..ALL_MARKED
};

const SECOND_UNWRITTEN: Stored = Stored {
    number: 1,
    role: 1,
    ..UNWRITTEN
};

// The events of the bitmap may be those of the superblock, or one more.
const ACCEPTED: [Chapter; 3] = [
    Chapter {
        images: &[
            Image {
                also: &NEXT,
                ..FIRST
            },
            Image {
                also: &NEXT,
                ..SECOND
            },
        ],
        steps: &[&[(Step::Show, Answer::Shows(CLEAN))]],
        stored: &[
            Stored {
                bitmap: (11, 8),
                ..UNWRITTEN
            },
            Stored {
                bitmap: (11, 8),
                ..SECOND_UNWRITTEN
            },
        ],
    },
    Chapter {
        images: &[FIRST, SECOND],
        steps: &[&[(Step::Show, Answer::Shows(CLEAN))]],
        stored: &[UNWRITTEN, SECOND_UNWRITTEN],
    },
    Chapter {
        images: &[
            Image {
                also: &EARLY,
                ..FIRST
            },
            Image {
                also: &EARLY,
                ..SECOND
            },
        ],
        steps: &[&[(
            Step::Show,
            Answer::Shows(Shown {
                marks: (8, Some(0)),
                resynced: false,
                ..CLEAN
            }),
        )]],
        stored: &[ALL_MARKED, ALL_MARKED_SECOND],
    },
];

const ALONE: [Chapter; 1] = [Chapter {
    images: &[Image {
        also: &EARLY,
        ..SECOND
    }],
    steps: &[&[
        (
            Step::Show,
            Answer::Shows(Shown {
                members: 1,
                marks: (8, Some(0)),
                degraded: true,
                ..CLEAN
            }),
        ),
        (
            Step::Member(0),
            Answer::Is(MemberState::InSync(1), false, false),
        ),
    ]],
    stored: &[ALL_MARKED_SECOND],
}];

// The first member's log names sectors 2056 to 2063 of the device, which are those of chunk 1. The second one's is not read.
const LISTING: [Chapter; 1] = [Chapter {
    images: &[
        Image {
            also: &[Field::Super(8, 4, 9)],
            log: Some((2056, 0, 1, 8)),
            ..FIRST
        },
        Image {
            log: Some((2056, 0, 1, 8)),
            ..SECOND
        },
    ],
    steps: &[&[
        (Step::List(0), Answer::Lists(1, 2056, 8)),
        (Step::List(1), Answer::Lists(0, 0, 0)),
        (Step::Permit(0), Answer::Permits(3)),
        (Step::Permit(1), Answer::Permits(2)),
        (Step::Permit(2), Answer::Permits(3)),
        (Step::Permit(3), Answer::Permits(3)),
        (Step::Permit(4), Answer::Permits(3)),
        (Step::Permit(5), Answer::Permits(3)),
        (Step::Permit(6), Answer::Permits(3)),
        (Step::Permit(7), Answer::Permits(3)),
        (Step::Permit(8), Answer::NotCalled),
    ]],
    stored: &[],
}];

// The second device's first write fails.
const UNSTORED: [Image; 2] = [
    Image {
        also: &EARLY,
        ..FIRST
    },
    Image {
        also: &EARLY,
        fails: (1, 1),
        ..SECOND
    },
];

// The devices are given back with what was stored on the first.
fn expect_returned(rt: &impl Abort, alloc: Global, devices: Vec<Testing>) -> Result<(), Fail> {
    let mut devices = devices;
    let second = Stored {
        bitmap: (8, 8),
        ..SECOND_UNWRITTEN
    };
    let are_stored = expect_stored(rt, alloc, &mut devices, &[ALL_MARKED, second]);
    drop(devices);
    are_stored
}

#[test]
fn marks_cannot_be_stored(rt: HostRuntime) -> Result<(), Fail> {
    let alloc = rt.alloc();
    let devices = devices_of(alloc, &UNSTORED)?;
    match Mirror::open(alloc, devices) {
        Err((devices, OpenFault::MetadataFault(1))) => expect_returned(&rt, alloc, devices),
        Err((_, fault)) => Err(Fail::from(fault)),
        Ok(_) => Err(Fail::new("a failed write was not noticed")),
    }
}

#[test]
fn life_of_a_lone_member(rt: HostRuntime) -> Result<(), Fail> {
    let alloc = rt.alloc();
    let devices = devices_of(alloc, &[SECOND])?;
    let mirror = small_life(alloc, devices, &[7; 512]).ok_or("it is no life")?;
    same_case(&rt, &"the events", mirror.events(), 11);
    drop(mirror);
    Ok(())
}

const ROWS: [&[Chapter]; 3] = [&ACCEPTED, &ALONE, &LISTING];

const LIVES: [&[Chapter]; 0] = [];

#[test]
fn mirrors_are_opened(rt: HostRuntime) -> Result<(), Fail> {
    play_all(&rt, rt.alloc(), &ROWS, &LIVES)
}

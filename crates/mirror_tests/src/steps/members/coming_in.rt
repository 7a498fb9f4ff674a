// Devices that come in as spares: what is laid out on them, and why they are refused.
use crate::steps::images::{FIRST, Image, SECOND, SPENT, Testing};
use crate::steps::play::{Chapter, Worked, play_all, play_on};
use crate::steps::shown::{CLEAN, Shown, Stored, UNWRITTEN};
use crate::steps::step::{Answer, Step};
use example_members::{small_image, small_metadata};
use md_array::{AddFault, ReAddFault};
use md_device::FaultDevice;
use md_members::MemberFault;
use std::alloc::Global;
use std::test::Fail;

// The superblocks of both others are due, and nothing else is changed.
const WITH_THIRD: Shown = Shown {
    members: 3,
    events: 11,
    entries: 3,
    due: 2,
    ..CLEAN
};

// A third device of an array of two: a spare that lacks all chunks. Its UUID is the version 5 one of the number 2 in the namespace
// of the array.
const THIRD: Stored = Stored {
    device_uuid: 0x0b86_625f_7e8c_57cc_a580_46db_40d9_7af1,
    number: 2,
    role: 0xffff,
    entries: 3,
    events: 11,
    data: (2048, 64),
    bitmap: (11, 11),
    marked: 8,
    ..UNWRITTEN
};

const SECOND_UNWRITTEN: Stored = Stored {
    number: 1,
    role: 1,
    ..UNWRITTEN
};

// The data area is as before. Of a degraded array the number of the absent device is not given out again, and marks were last
// cleared before that left.
const ADDED: [Chapter; 2] = [
    Chapter {
        images: &[FIRST, SECOND],
        steps: &[&[
            (Step::AddUsed, Answer::Joined(2)),
            (Step::Show, Answer::Shows(WITH_THIRD)),
        ]],
        stored: &[
            UNWRITTEN,
            SECOND_UNWRITTEN,
            Stored {
                written: (0, 63, 1024, 1024 * 0x5a),
                ..THIRD
            },
        ],
    },
    Chapter {
        images: &[SECOND],
        steps: &[&[
            (Step::AddUsed, Answer::Joined(1)),
            (
                Step::Show,
                Answer::Shows(Shown {
                    events: 11,
                    entries: 3,
                    due: 1,
                    degraded: true,
                    ..CLEAN
                }),
            ),
        ]],
        stored: &[
            SECOND_UNWRITTEN,
            Stored {
                bitmap: (11, 8),
                written: (0, 63, 1024, 1024 * 0x5a),
                ..THIRD
            },
        ],
    },
];

const TOO_SMALL: Answer = Answer::NotAdded(AddFault::TooSmall);

const UNWRITABLE: Answer = Answer::NotAdded(AddFault::WriteFault);

// A device that has one sector less than what is needed, or no more than the array's own sectors, is told so first. `lay_out`
// writes the zeros, the log, the bitmap and the superblock, and nothing after these.
const REFUSED: [Chapter; 2] = [
    Chapter {
        images: &[
            Image {
                also: &SPENT,
                ..FIRST
            },
            Image {
                also: &SPENT,
                ..SECOND
            },
        ],
        steps: &[&[
            (Step::AddUsed, Answer::NotAdded(AddFault::EventsFull)),
            (Step::Add(2111, 0), TOO_SMALL),
            (Step::Add(64, 0), TOO_SMALL),
            (Step::Add(0, 0), TOO_SMALL),
            (
                Step::Show,
                Answer::Shows(Shown {
                    events: u64::MAX,
                    ..CLEAN
                }),
            ),
        ]],
        stored: &[],
    },
    Chapter {
        images: &[FIRST, SECOND],
        steps: &[&[
            (Step::Add(2112, 1), UNWRITABLE),
            (Step::Add(2112, 2), UNWRITABLE),
            (Step::Add(2112, 3), UNWRITABLE),
            (Step::Add(2112, 4), UNWRITABLE),
            (Step::Show, Answer::Shows(CLEAN)),
            (Step::Add(2112, 5), Answer::Joined(2)),
            (Step::Show, Answer::Shows(WITH_THIRD)),
        ]],
        stored: &[UNWRITTEN, SECOND_UNWRITTEN, THIRD],
    },
];

const MOST: u32 = 64;

fn add_member(
    alloc: Global,
    devices: &mut Vec<Testing>,
    number: u32,
    events: u64,
) -> Result<(), Fail> {
    let (superblock, marks) = small_metadata(number, events);
    let image = small_image(alloc, superblock, &marks)?;
    devices.push(FaultDevice::new(image, Vec::new(alloc), 1, 0, false))?;
    Ok(())
}

// As many members as there may be: two in sync, and spares.
fn full(alloc: Global, events: u64) -> Result<Vec<Testing>, Fail> {
    let mut devices = Vec::new(alloc);
    for number in 0..MOST {
        add_member(alloc, &mut devices, number, events)?;
    }
    Ok(devices)
}

// That it is full comes after what is seen of the device, and before what is seen of the array.
const REFUSES_MORE: [Worked; 4] = [
    (Step::Add(2111, 0), TOO_SMALL),
    (Step::Add(2112, 0), Answer::NotAdded(AddFault::Full)),
    (
        Step::BringZeros(15),
        Answer::NotReAdded(ReAddFault::Member(MemberFault::TooShort)),
    ),
    (
        Step::Bring(&SECOND, &[]),
        Answer::NotReAdded(ReAddFault::Full),
    ),
];

const FULL: Shown = Shown {
    members: 64,
    ..CLEAN
};

// Once the last has left, its number is free: it had no entry, and the new device gets one.
const WITH_ROOM: Chapter = Chapter {
    images: &[],
    steps: &[
        &[(Step::Show, Answer::Shows(FULL))],
        &REFUSES_MORE,
        &[
            (Step::Show, Answer::Shows(FULL)),
            (Step::Remove(63), Answer::Done),
            (Step::Add(2112, 0), Answer::Joined(63)),
            (
                Step::Show,
                Answer::Shows(Shown {
                    events: 12,
                    entries: 64,
                    due: 63,
                    ..FULL
                }),
            ),
        ],
    ],
    stored: &[],
};

const FULL_AT_LIMIT: Shown = Shown {
    events: u64::MAX,
    ..FULL
};

const AT_LIMIT: Chapter = Chapter {
    images: &[],
    steps: &[
        &[(Step::Show, Answer::Shows(FULL_AT_LIMIT))],
        &REFUSES_MORE,
        &[(Step::Show, Answer::Shows(FULL_AT_LIMIT))],
    ],
    stored: &[],
};

#[test]
fn no_more_than_64(rt: HostRuntime) -> Result<(), Fail> {
    let alloc = rt.alloc();
    let devices = full(alloc, 10)?;
    let devices = play_on(&rt, alloc, devices, &WITH_ROOM)?;
    drop(devices);
    Ok(())
}

#[test]
fn full_at_the_event_count_limit(rt: HostRuntime) -> Result<(), Fail> {
    let alloc = rt.alloc();
    let devices = full(alloc, u64::MAX)?;
    let devices = play_on(&rt, alloc, devices, &AT_LIMIT)?;
    drop(devices);
    Ok(())
}

const ROWS: [&[Chapter]; 2] = [&ADDED, &REFUSED];

const LIVES: [&[Chapter]; 0] = [];

#[test]
fn members_come_in(rt: HostRuntime) -> Result<(), Fail> {
    play_all(&rt, rt.alloc(), &ROWS, &LIVES)
}

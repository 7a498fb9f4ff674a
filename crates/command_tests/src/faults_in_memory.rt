// Commands over images in memory: a sector that can't be read, an image that may only be looked at, and an input of which
// some reads are interrupted.
use crate::commands::{Case, DONE, play};
use crate::images::{BLANK, Image, MEMBER};
use crate::sources::Step;
use md_streams::Messages;
use std::test::Fail;

// The sector with the magic number of btrfs.
const UNREADABLE: Image = Image {
    bad: &[128],
    ..BLANK
};

const SECTOR: [u8; 512] = [7; 512];

const CASES: [Case; 4] = [
    // The superblock's first sector.
    Case {
        images: &[Image {
            bad: &[8],
            ..MEMBER
        }],
        words: &["mdcli", "examine", "a"],
        status: 1,
        says: "mdcli: ReadFault\n",
        kept: &["a"],
        ..DONE
    },
    Case {
        images: &[
            MEMBER,
            Image {
                name: "b",
                is_protected: true,
                ..MEMBER
            },
        ],
        words: &[
            "mdcli",
            "create",
            "--level",
            "1",
            "--raid-devices",
            "2",
            "--uuid",
            "00112233-4455-6677-8899-aabbccddeeff",
            "a",
            "b",
        ],
        messages: Messages::WithAdvice,
        status: 1,
        says: "mdcli: BadImage 1\n\
            b: it can't be written: ask for write permission, or make its file system or device writable\n",
        kept: &["a", "b"],
        ..DONE
    },
    // A sector in which a file system may begin can't be read: nobody knows what the image holds.
    Case {
        images: &[MEMBER, UNREADABLE],
        words: &["mdcli", "add", "--device", "b", "a"],
        says: "mdcli: b: a read of it failed: it may hold data\n\
            mdcli: device 1 in role 1 is not among the images\n",
        shows: "in sync 1 of 2, events 11, marked 1\n",
        ..DONE
    },
    // An interrupted read is made again.
    Case {
        words: &["mdcli", "write", "--sector", "0", "a"],
        input: &[
            Step::IsInterrupted,
            Step::Gives(&SECTOR),
            Step::IsInterrupted,
        ],
        says: "mdcli: device 1 in role 1 is not among the images\n",
        shows: "in sync 1 of 2, events 12, marked 2\n",
        ..DONE
    },
];

#[test]
fn images_and_inputs_that_fail(rt: HostRuntime) -> Result<(), Fail> {
    play(&rt, rt.alloc(), &CASES)
}

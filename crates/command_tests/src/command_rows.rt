// An array is made, written to and checked, and a member leaves it and comes back: a sequence of commands on the same images.
use crate::commands::{Case, DONE, play_in_turn};
use crate::images::{BLANK, Image};
use crate::sources::Step;
use std::test::Fail;

const IMAGES: [Image; 2] = [Image { name: "a", ..BLANK }, BLANK];

const SECTOR: [u8; 512] = [7; 512];

const FEWER: [u8; 100] = [7; 100];

const MADE: [Case; 4] = [
    Case {
        words: &[
            "mdcli",
            "create",
            "--level",
            "raid1",
            "--raid-devices",
            "2",
            "--uuid",
            "00112233-4455-6677-8899-aabbccddeeff",
            "--bitmap-chunk",
            "4",
            "--assume-clean",
            "a",
            "b",
        ],
        shows: "in sync 2 of 2, events 1, marked 0\n",
        ..DONE
    },
    Case {
        words: &["mdcli", "write", "--sector", "8", "a", "b"],
        input: &[Step::Gives(&SECTOR)],
        shows: "in sync 2 of 2, events 3, marked 0\n",
        ..DONE
    },
    Case {
        words: &["mdcli", "fail", "--member", "1", "a", "b"],
        shows: "in sync 1 of 2, events 4, marked 0\n",
        ..DONE
    },
    Case {
        words: &["mdcli", "write", "--sector", "16", "a", "b"],
        input: &[Step::Gives(&SECTOR)],
        shows: "in sync 1 of 2, events 6, marked 1\n",
        ..DONE
    },
];

const TAKEN_BACK: [Case; 7] = [
    Case {
        words: &["mdcli", "remove", "--member", "1", "a", "b"],
        shows: "in sync 1 of 2, events 6, marked 1\n",
        ..DONE
    },
    Case {
        words: &["mdcli", "re-add", "--device", "b", "a"],
        shows: "in sync 2 of 2, events 8, marked 0\n",
        ..DONE
    },
    Case {
        words: &["mdcli", "check", "a", "b"],
        shows: "mismatched chunks: 0\n",
        ..DONE
    },
    // No whole sector: nothing is written.
    Case {
        words: &["mdcli", "write", "--sector", "0", "a", "b"],
        input: &[Step::Gives(&FEWER)],
        status: 1,
        says: "mdcli: BadLength\n",
        ..DONE
    },
    // It ends before the length that it told.
    Case {
        words: &["mdcli", "write", "--sector", "0", "a", "b"],
        input: &[Step::Gives(&SECTOR)],
        told: Some(1024),
        status: 1,
        says: "mdcli: BadLength\n",
        ..DONE
    },
    // It goes on after that.
    Case {
        words: &["mdcli", "write", "--sector", "0", "a", "b"],
        input: &[Step::Gives(&SECTOR), Step::Gives(&SECTOR)],
        told: Some(512),
        status: 1,
        says: "mdcli: BadLength\n",
        ..DONE
    },
    Case {
        words: &["mdcli", "write", "--sector", "0", "a", "b"],
        input: &[
            Step::Gives(&SECTOR),
            Step::IsInterrupted,
            Step::Gives(&SECTOR),
        ],
        told: Some(1024),
        shows: "in sync 2 of 2, events 10, marked 0\n",
        ..DONE
    },
];

#[test]
fn an_array_is_made_and_a_member_comes_back(rt: HostRuntime) -> Result<(), Fail> {
    play_in_turn(&rt, rt.alloc(), &IMAGES, &[&MADE, &TAKEN_BACK])
}

// A question that a terminal can't be shown.
use crate::checks::holds;
use md_streams::{Input, Output, Questions};

const LINES: &[u8] = b"mdcli: b: holds ext2, ext3 or ext4\n";

// A yes that waits to be read agrees to nothing where the question could not be shown.
#[test]
fn an_unseen_question_is_a_no(rt: HostRuntime) {
    let mut room = [0u8; 20];
    let mut err = Output::new(room.as_mut_slice());
    let mut input = Input::new(b"yes\n".as_slice());
    let goes_on = Questions::Asked.go_on(LINES, &mut err, &mut input);
    holds(&rt, "whether it goes on", !goes_on);
    let left: &[u8] = input.into_inner();
    holds(&rt, "what is left to read", left == b"yes\n".as_slice());
}

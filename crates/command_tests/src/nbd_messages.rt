// Messages of the NBD protocol as real clients and another server sent them: requests of libnbd 1.14 (nbdinfo) and qemu 7.2
// (qemu-io), options of libnbd and nbd-client 3.24, and answers of nbdkit 1.32.
use crate::checks::{holds, same};
use md_nbd::{
    ErrorCode, Export, LONGEST_BODY, Next, Task, answer_option, decode_option_head, decode_request,
    error_reply, greeting, put_request, success_reply, task_of,
};
use std::process::Abort;
use std::test::Fail;

const EXPORT: Export = Export {
    size: 1 << 20,
    readonly: false,
};

// In their order: a READ and a DISC of nbdinfo, a WRITE with FUA of qemu-io, and a FLUSH of libnbd.
const REQUESTS: [([u8; 28], Task); 4] = [
    (
        [
            0x25, 0x60, 0x95, 0x13, 0, 0, 0, 0, 0, 0, 0, 0, 0, 0, 0, 1, 0, 0, 0, 0, 0, 0, 0, 0, 0,
            0, 0x20, 0,
        ],
        Task::Read(0, 16),
    ),
    (
        [
            0x25, 0x60, 0x95, 0x13, 0, 0, 0, 2, 0, 0, 0, 0, 0, 0, 0, 2, 0, 0, 0, 0, 0, 0, 0, 0, 0,
            0, 0, 0,
        ],
        Task::Disconnect,
    ),
    (
        [
            0x25, 0x60, 0x95, 0x13, 0, 1, 0, 1, 0, 0, 0x55, 0xa2, 0x08, 0x09, 0x3f, 0xf0, 0, 0, 0,
            0, 0, 0, 0x10, 0, 0, 0, 2, 0,
        ],
        Task::Write(8, 1, true),
    ),
    (
        [
            0x25, 0x60, 0x95, 0x13, 0, 0, 0, 3, 0, 0, 0, 0, 0, 0, 0, 3, 0, 0, 0, 0, 0, 0, 0, 0, 0,
            0, 0, 0,
        ],
        Task::Flush,
    ),
];

#[test]
fn requests_of_clients(rt: HostRuntime) -> Result<(), Fail> {
    for &(bytes, task) in &REQUESTS {
        let request = decode_request(&bytes).ok_or("these bytes are a request")?;
        same(&rt, "what is asked for", task_of(&EXPORT, &request), task);
        let mut again = Vec::new(rt.alloc());
        put_request(&mut again, &request)?;
        holds(
            &rt,
            "as it was written",
            again.as_slice() == bytes.as_slice(),
        );
    }
    Ok(())
}

// The number of an option, its body, what nbdkit answered, and what came then.
const OPTIONS: [(u32, &[u8], &[u8], Next); 5] = [
    (
        3,
        &[],
        &[
            0, 3, 0xe8, 0x89, 4, 0x55, 0x65, 0xa9, 0, 0, 0, 3, 0, 0, 0, 2, 0, 0, 0, 4, 0, 0, 0, 0,
            0, 3, 0xe8, 0x89, 4, 0x55, 0x65, 0xa9, 0, 0, 0, 3, 0, 0, 0, 1, 0, 0, 0, 0,
        ],
        Next::Haggling,
    ),
    (
        3,
        &[b'x'],
        &[
            0, 3, 0xe8, 0x89, 4, 0x55, 0x65, 0xa9, 0, 0, 0, 3, 0x80, 0, 0, 3, 0, 0, 0, 0,
        ],
        Next::Haggling,
    ),
    (
        2,
        &[],
        &[
            0, 3, 0xe8, 0x89, 4, 0x55, 0x65, 0xa9, 0, 0, 0, 2, 0, 0, 0, 1, 0, 0, 0, 0,
        ],
        Next::Closed,
    ),
    (
        99,
        &[],
        &[
            0, 3, 0xe8, 0x89, 4, 0x55, 0x65, 0xa9, 0, 0, 0, 99, 0x80, 0, 0, 1, 0, 0, 0, 0,
        ],
        Next::Haggling,
    ),
    (
        7,
        &[0, 0, 0, 5],
        &[
            0, 3, 0xe8, 0x89, 4, 0x55, 0x65, 0xa9, 0, 0, 0, 7, 0x80, 0, 0, 3, 0, 0, 0, 0,
        ],
        Next::Haggling,
    ),
];

#[test]
fn answers_as_another_server_gives(rt: HostRuntime) -> Result<(), Fail> {
    for &(option, body, wanted, then) in &OPTIONS {
        let mut answer = Vec::new(rt.alloc());
        let next = answer_option(&mut answer, &EXPORT, true, option, body)?;
        same(&rt, "what comes then", next, then);
        holds(&rt, "the answer", answer.as_slice() == wanted);
    }
    Ok(())
}

// GO as libnbd sends it: no name, and the one kind of information 3.
const GO: [u8; 24] = [
    0x49, 0x48, 0x41, 0x56, 0x45, 0x4f, 0x50, 0x54, 0, 0, 0, 7, 0, 0, 0, 8, 0, 0, 0, 0, 0, 1, 0, 3,
];

fn expect_export(rt: &impl Abort, answer: &[u8]) {
    let size_and_flags = [0, 0, 0, 0, 0, 0, 0, 0x10, 0, 0, 0, 0x0d];
    holds(
        rt,
        "an export, its block sizes and an end",
        answer.len() == 86 && &answer[20..32] == size_and_flags.as_slice(),
    );
}

#[test]
fn export_and_block_sizes(rt: HostRuntime) -> Result<(), Fail> {
    let head = decode_option_head(&GO[..16]);
    same(&rt, "an option and its length", head, Some((7, 8)));
    same(&rt, "no option", decode_option_head(&GO[8..]), None);
    let mut answer = Vec::new(rt.alloc());
    let next = answer_option(&mut answer, &EXPORT, true, 7, &GO[16..])?;
    same(&rt, "what comes then", next, Next::Transmission);
    expect_export(&rt, answer.as_slice());
    Ok(())
}

// As nbdkit sent them: its greeting, an error of a READ past the end, and a reply to a FLUSH.
#[test]
fn greeting_and_replies(rt: HostRuntime) -> Result<(), Fail> {
    holds(&rt, "greeting", greeting() == *b"NBDMAGICIHAVEOPT\x00\x03");
    let refused = [
        0x67, 0x44, 0x66, 0x98, 0, 0, 0, 22, 0x11, 0x22, 0x33, 0x44, 0x55, 0x66, 0x77, 0x88,
    ];
    let reply = error_reply(ErrorCode::Invalid, 0x1122334455667788);
    holds(&rt, "an error", reply == refused);
    let done = [0x67, 0x44, 0x66, 0x98, 0, 0, 0, 0, 0, 0, 0, 0, 0, 0, 0, 6];
    holds(&rt, "done", success_reply(6) == done);
    same(&rt, "the longest option", LONGEST_BODY, 65536);
    Ok(())
}

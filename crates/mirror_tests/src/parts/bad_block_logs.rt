// Bad block logs: the entries that are read and written, and the sectors that they list.
use crate::checks::{holds, same};
use md_badblocks::{BadSet, LogFault, LogFull, Run};
use std::alloc::AllocError;
use std::process::Abort;
use std::test::Fail;

fn expect_log(rt: &impl Abort, set: &BadSet, written: &[u8; 24]) {
    let mut log = [7; 24];
    holds(rt, &"it has room", set.to_log(&mut log).is_ok());
    holds(rt, &"the log", log == *written);
}

// Sectors 2000 to 2009 in units of two, in entries that overlap.
const SHIFTED: [u8; 40] = [
    0x04, 0xa0, 0x0f, 0, 0, 0, 0, 0, 0x03, 0xa8, 0x0f, 0, 0, 0, 0, 0, 0, 0x14, 0, 0, 0, 0, 0, 0,
    255, 255, 255, 255, 255, 255, 255, 255, 8, 0x20, 0x20, 0, 0, 0, 0, 0,
];

const JOINED: [u8; 24] = [
    0x0a, 0x40, 0x1f, 0, 0, 0, 0, 0, 255, 255, 255, 255, 255, 255, 255, 255, 255, 255, 255, 255,
    255, 255, 255, 255,
];

#[test]
fn reads_and_writes_a_log(rt: HostRuntime) -> Result<(), Fail> {
    let set = BadSet::from_log(rt.alloc(), &SHIFTED, 1)?;
    let run = Run {
        start: 2000,
        len: 10,
    };
    holds(&rt, &"sectors", set.runs() == [run].as_slice());
    expect_log(&rt, &set, &JOINED);
    drop(set);
    let fault = BadSet::from_log(rt.alloc(), &[], 10).err();
    same(&rt, &"the shift", fault, Some(LogFault::Shift));
    Ok(())
}

// The entry of chunk 1 of a member whose data begin at sector 2048.
fn expect_chunk(rt: &impl Abort, set: &BadSet) {
    holds(rt, &"the last sector", set.meets(2063, 1));
    holds(rt, &"after it", !set.meets(2064, u64::MAX));
    holds(rt, &"before it", !set.meets(0, 2056));
    holds(rt, &"no sector", !set.meets(2056, 0));
}

#[test]
fn lists_a_chunk(rt: HostRuntime) -> Result<(), Fail> {
    let set = BadSet::from_log(rt.alloc(), &[8, 0x20, 0x20, 0, 0, 0, 0, 0], 0)?;
    expect_chunk(&rt, &set);
    drop(set);
    Ok(())
}

const CUT: [u8; 24] = [
    0x00, 0x02, 0x40, 0, 0, 0, 0, 0, 0xe8, 0x01, 0x48, 0, 0, 0, 0, 0, 255, 255, 255, 255, 255, 255,
    255, 255,
];

// Sectors 4096 to 5095, added in two parts with a hole that is filled and one that is made and filled.
fn add_long(set: &mut BadSet) -> Result<(), AllocError> {
    set.add(4096, 400)?;
    set.add(4600, 496)?;
    set.add(4496, 104)?;
    set.remove(4700, 10)?;
    set.add(4650, 100)
}

#[test]
fn adds_and_removes(rt: HostRuntime) -> Result<(), Fail> {
    let mut set = BadSet::new(rt.alloc());
    let added = add_long(&mut set);
    if added.is_ok() {
        same(&rt, &"the entries", set.entries_needed(), 2);
        expect_log(&rt, &set, &CUT);
    }
    drop(set);
    added?;
    Ok(())
}

fn add_single(set: &mut BadSet) -> Result<(), AllocError> {
    for k in 0..513 {
        set.add(2 * k, 1)?;
    }
    Ok(())
}

fn expect_full(rt: &impl Abort, set: &BadSet) {
    let mut log = [7; 4096];
    let full = LogFull {
        needed: 513,
        room: 512,
    };
    holds(rt, &"it is full", set.to_log(&mut log) == Err(full));
    same(rt, &"the log stays", log[0], 7);
}

#[test]
fn refuses_what_has_no_room(rt: HostRuntime) -> Result<(), Fail> {
    let mut set = BadSet::new(rt.alloc());
    let added = add_single(&mut set);
    if added.is_ok() {
        expect_full(&rt, &set);
    }
    drop(set);
    added?;
    Ok(())
}

// Which sectors are listed where some are lost: these, and those between them where a log has no room for so many runs.
ghost use Rattle.md_array.specs.Consistency.{IsConsistent};

use crate::calls::created::{SECTORS, image, made_image, made_members, with_spare};
use crate::checks::holds;
use md_array::Mirror;
use md_badblocks::BadSet;
use md_copy::sectors_to_list;
use md_device::MemDevice;
use std::alloc::Global;
use std::process::Abort;
use std::test::Fail;

// Of so many sectors each time these are lost: the first ones, and those of a second run from a sector on.
struct Row {
    each: u64,
    first: u64,
    second: (u64, u64),
    // How often.
    times: u64,
    // How many more are listed.
    more: u64,
}

const ROWS: [Row; 9] = [
    Row {
        each: 64,
        first: 1,
        second: (0, 0),
        times: 0,
        more: 0,
    },
    Row {
        each: 64,
        first: 1,
        second: (0, 0),
        times: 1,
        more: 0,
    },
    // As many runs as a log has entries, and one more: then two are united.
    Row {
        each: 4,
        first: 1,
        second: (0, 0),
        times: 512,
        more: 0,
    },
    Row {
        each: 4,
        first: 1,
        second: (0, 0),
        times: 513,
        more: 3,
    },
    // The closest come first, no more of them than it takes.
    Row {
        each: 8,
        first: 2,
        second: (3, 1),
        times: 300,
        more: 88,
    },
    Row {
        each: 8,
        first: 1,
        second: (4, 2),
        times: 300,
        more: 2 * 88,
    },
    // An entry names two of these at most, and the gap between them.
    Row {
        each: 500,
        first: 1,
        second: (0, 0),
        times: 600,
        more: 499 * 88,
    },
    Row {
        each: 400,
        first: 1,
        second: (0, 0),
        times: 600,
        more: 399 * 88,
    },
    Row {
        each: 500,
        first: 1,
        second: (0, 0),
        times: 1024,
        more: 499 * 512,
    },
];

fn lost_of(alloc: Global, row: &Row) -> Result<BadSet, Fail> {
    let mut lost = BadSet::new(alloc);
    for k in 0..row.times {
        let start = row.each.wrapping_mul(k);
        lost.add(start, row.first)?;
        lost.add(start.wrapping_add(row.second.0), row.second.1)?;
    }
    Ok(lost)
}

fn size_of(set: &BadSet) -> u64 {
    let mut size = 0u64;
    for run in set.runs() {
        size = size.wrapping_add(run.len);
    }
    size
}

// What is to be listed for the spare of an array of one member.
fn listed_of(
    alloc: Global,
    mirror: &Mirror<MemDevice>,
    target: usize,
    lost: &BadSet,
) -> Result<BadSet, Fail>
    requires { IsConsistent mirror.now }
{
    if target >= mirror.members() {
        return Err(Fail::new("no spare"));
    }
    let missing = mirror.missing(alloc, target)?;
    if missing.chunks() != mirror.marks().chunks() {
        return Err(Fail::new("other chunks"));
    }
    Ok(sectors_to_list(alloc, mirror, target, &missing, lost)?)
}

fn expect_row(rt: &impl Abort, alloc: Global, at: usize, row: &Row) -> Result<(), Fail> {
    let mut devices = Vec::new(alloc);
    for member in made_members(alloc, 1, None)?.as_slice() {
        devices.push(made_image(alloc, member)?)?;
    }
    let (mirror, target) = with_spare(alloc, devices, image(alloc, true)?)?;
    let lost = lost_of(alloc, row)?;
    let listed = listed_of(alloc, &mirror, target, &lost)?;
    for sector in 0..SECTORS {
        let is_kept = !lost.meets(sector, 1) || listed.meets(sector, 1);
        holds(rt, &("lost", at, sector), is_kept);
    }
    let most = size_of(&lost).wrapping_add(row.more);
    holds(rt, &("listed", at, most), size_of(&listed) == most);
    holds(rt, &("entries", at), listed.entries_needed() <= 512);
    Ok(())
}

#[test]
fn logs_have_room_for_what_is_listed(rt: HostRuntime) -> Result<(), Fail> {
    for (at, row) in ROWS.iter().enumerate() {
        expect_row(&rt, rt.alloc(), at, row)?;
    }
    Ok(())
}

// Where the bitmap comes.
ghost use Rattle.std.specs.Prelude.{◌≡◌, ◌≤◌, ◌↔◌, ◌^◌, IsTrue, IfSome, IfNone, pos, negsuc, ◌+ℤ◌, ◌≤ℤ◌};
ghost use Rattle.md_members.specs.Areas.{AreApart, log_area};
ghost use Rattle.md_metadata.specs.Grow.Places.{HasRoomAt, HaveRoomAt, IsFirstPlace, NoPlace};

use md_members::MemberInfo;
use md_super::{SUPER_SECTOR, Superblock};

// The pages that are looked at, 16 MiB.
const PAGES: u32 = 4096;

// The sectors of a page.
const PAGE_SECTORS: u32 = 8;

// The sector after the superblock.
const FIRST_SECTOR: u32 = 16;

/// The first page after the superblock that begins so much room on each member.
pub(crate) fn place_for(infos: &[MemberInfo], sectors: u32) -> Option<u32>
    requires few { sectors ≤ 264 }
    ensures some { IfSome result (IsFirstPlace sectors infos.now) }
    ensures none { IfNone result (NoPlace sectors infos.now) }
{
    for page in 0..PAGES {
        let start = FIRST_SECTOR + PAGE_SECTORS * page;
        if have_room_at(infos, start, sectors) {
            return Some(start);
        }
    }
    None
}

// Whether each member has room there.
fn have_room_at(infos: &[MemberInfo], start: u32, sectors: u32) -> bool
    requires near { start ≤ 65536 }
    requires few { sectors ≤ 264 }
    ensures { IsTrue result ↔ HaveRoomAt start sectors infos.now }
{
    for info in infos {
        if !has_room_at(&info.superblock, start, sectors) {
            return false;
        }
    }
    true
}

// Whether a member has room there.
fn has_room_at(v: &Superblock, start: u32, sectors: u32) -> bool
    requires near { start ≤ 65536 }
    requires few { sectors ≤ 264 }
    ensures { IsTrue result ↔ HasRoomAt start sectors v.now }
{
    if u64::from(start) + u64::from(sectors) > v.data_offset {
        return false;
    }
    if !v.has_bad_block_log() {
        return true;
    }
    is_beside_log(v, start, sectors)
}

// Whether these sectors are none of the member's bad block log.
fn is_beside_log(v: &Superblock, start: u32, sectors: u32) -> bool
    requires near { start ≤ 65536 }
    requires few { sectors ≤ 264 }
    ensures { IsTrue result ↔ AreApart (log_area v.now) (record { start = pos start; sectors = sectors }) }
{
    let log = start_of_log(v);
    let bitmap = start as i64;
    if ends_before(log, sectors_of_log(v), bitmap) {
        return true;
    }
    ends_before(bitmap, u64::from(sectors), log)
}

// The first sector of the log, which the superblock may place before the device's first.
fn start_of_log(v: &Superblock) -> i64
    ensures start { result ≡ (log_area v.now).start }
    ensures low { negsuc (2 ^ 32) ≤ℤ result }
    ensures high { result ≤ℤ pos (2 ^ 33) }
{
    SUPER_SECTOR as i64 + i64::from(v.bblog_offset)
}

fn sectors_of_log(v: &Superblock) -> u64
    ensures is { result ≡ v.now.bblog_size }
    ensures short { result ≤ 2 ^ 54 }
{
    let sectors = v.bblog_size;
    u64::from(sectors)
}

// Whether so many sectors end before another one.
fn ends_before(start: i64, sectors: u64, other: i64) -> bool
    requires low { negsuc (2 ^ 32) ≤ℤ start }
    requires high { start ≤ℤ pos (2 ^ 33) }
    requires short { sectors ≤ 2 ^ 54 }
    ensures { IsTrue result ↔ ((start +ℤ pos sectors) ≤ℤ other) }
{
    start + sectors as i64 <= other
}

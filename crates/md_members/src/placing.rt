// Whether the areas of a member fit its device.
ghost use Rattle.std.specs.Prelude.{◌≡◌, ◌+◌, ◌≤◌, ◌^◌, ◌↔◌, ℤ, pos, ◌+ℤ◌, IsTrue, true};
ghost use Rattle.md_members.specs.Areas.{AreAreasPlaced, IsSmall, IsApartFromLog, LogIsPlaced, BitmapIsPlaced, bitmap_area, data_area, from_super, has_bad_blocks, has_bitmap, log_area, super_area};

use crate::area::{Area, are_apart, is_within};
use md_super::{FEATURE_BAD_BLOCKS, FEATURE_BITMAP_OFFSET, SUPER_SECTOR, Superblock};

const SUPER_AREA: Area = Area {
    start: 8,
    sectors: 8,
};

// The most sectors of a bad block log.
const MAX_LOG_SECTORS: u16 = 8;

// Whether a superblock has a bitmap.
pub(crate) fn has_a_bitmap(v: &Superblock) -> bool
    ensures { result ≡ has_bitmap v.now }
{
    v.feature_map & FEATURE_BITMAP_OFFSET != 0
}

// Whether a superblock has entries in its bad block log.
pub(crate) fn lists_bad_blocks(v: &Superblock) -> bool
    ensures { result ≡ has_bad_blocks v.now }
{
    v.feature_map & FEATURE_BAD_BLOCKS != 0
}

fn area_from_super(offset: i32, sectors: u64) -> Area
    requires { sectors ≤ 2 ^ 54 }
    ensures area { result ≡ from_super offset sectors }
    ensures small { IsSmall result }
{
    Area {
        start: SUPER_SECTOR as i64 + i64::from(offset),
        sectors,
    }
}

fn area_of_log(v: &Superblock) -> Area
    ensures area { result ≡ log_area v.now }
    ensures small { IsSmall result }
{
    area_from_super(v.bblog_offset, u64::from(v.bblog_size))
}

fn area_of_bitmap(v: &Superblock, sectors: u64) -> Area
    requires { sectors ≤ 2 ^ 54 }
    ensures area { result ≡ bitmap_area v.now sectors }
    ensures small { IsSmall result }
{
    area_from_super(v.bitmap_offset, sectors)
}

fn log_is_placed(v: &Superblock, payload: Area, sectors: u64) -> bool
    requires small { IsSmall payload }
    requires limit { sectors ≤ 2 ^ 54 }
    requires payload { payload ≡ data_area v.now }
    ensures { IsTrue result ↔ LogIsPlaced sectors v.now }
{
    let log = area_of_log(v);
    if v.bblog_size > MAX_LOG_SECTORS {
        return false;
    }
    if !is_within(log, sectors) {
        return false;
    }
    if !are_apart(SUPER_AREA, log) {
        return false;
    }
    are_apart(payload, log)
}

fn is_apart_from_log(v: &Superblock, area: Area) -> bool
    requires small { IsSmall area }
    ensures { IsTrue result ↔ IsApartFromLog v.now area }
{
    if !v.has_bad_block_log() {
        return true;
    }
    let log = area_of_log(v);
    are_apart(log, area)
}

fn bitmap_is_placed(v: &Superblock, payload: Area, sectors: u64, bitmap_sectors: u64) -> bool
    requires small { IsSmall payload }
    requires limit { sectors ≤ 2 ^ 54 }
    requires few { bitmap_sectors ≤ 2 ^ 54 }
    requires payload { payload ≡ data_area v.now }
    ensures { IsTrue result ↔ BitmapIsPlaced sectors v.now bitmap_sectors }
{
    let bitmap = area_of_bitmap(v, bitmap_sectors);
    if !is_within(bitmap, sectors) {
        return false;
    }
    if !are_apart(SUPER_AREA, bitmap) {
        return false;
    }
    if !are_apart(payload, bitmap) {
        return false;
    }
    is_apart_from_log(v, bitmap)
}

/// Whether the areas are on a device of so many sectors and apart, where the bitmap takes so many.
pub(crate) fn is_placed(v: &Superblock, sectors: u64, bitmap_sectors: u64) -> bool
    requires limit { sectors ≤ 2 ^ 54 }
    requires few { bitmap_sectors ≤ 2 ^ 54 }
    ensures { IsTrue result ↔ AreAreasPlaced sectors v.now bitmap_sectors }
{
    if v.size == 0 {
        return false;
    }
    if v.data_size < v.size {
        return false;
    }
    if v.data_offset > sectors {
        return false;
    }
    if v.data_size > sectors - v.data_offset {
        return false;
    }
    let payload = Area {
        start: v.data_offset as i64,
        sectors: v.data_size,
    };
    if !are_apart(SUPER_AREA, payload) {
        return false;
    }
    if v.has_bad_block_log() && !log_is_placed(v, payload, sectors) {
        return false;
    }
    if !has_a_bitmap(v) {
        return true;
    }
    bitmap_is_placed(v, payload, sectors, bitmap_sectors)
}

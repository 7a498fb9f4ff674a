// A device that comes in as a spare of an array.
ghost use Rattle.std.specs.Prelude.{◌≡◌, ◌+◌, ◌≤◌, ◌<◌, IfOk};
ghost use Rattle.md_create.specs.Spares.{IsNewSpare, IsSpareSuper};

use crate::naming::device_uuid;
use crate::params::NewMember;
use crate::places::{BITMAP_OFFSET, DATA_SECTOR, LOG_OFFSET, LOG_SECTORS};
use md_bitmap::{BitmapHeader, Chunks, Marks};
use md_super::{FEATURE_BITMAP_OFFSET, LEVEL, Roles, SUPER_SECTOR, Superblock};
use std::alloc::{AllocError, Global};

/// A device of so many sectors that comes in as a spare with this number, with all chunks marked.
/// `array` has the array's fields as they are once it has come in, and `header` is that of its bitmap.
/// Nothing is written.
pub fn new_spare(
    alloc: Global,
    array: &Superblock,
    header: BitmapHeader,
    number: u32,
    sectors: u64,
) -> Result<NewMember, AllocError>
    requires same { header.sync_size ≡ array.now.size }
    requires some { 0 < array.now.size }
    requires room { 2048 + array.now.size ≤ sectors }
    ensures { IfOk result (IsNewSpare array.now header number sectors) }
{
    let roles = array.roles.try_clone(alloc)?;
    let chunks = Chunks::new(array.size, header.chunksize).count();
    let marks = Marks::all(alloc, chunks)?;
    Ok(NewMember {
        superblock: superblock(array, number, sectors, roles),
        header,
        marks,
    })
}

fn superblock(array: &Superblock, number: u32, sectors: u64, roles: Roles) -> Superblock
    requires room { 2048 + array.now.size ≤ sectors }
    requires roles { roles ≡ array.now.roles }
    ensures { IsSpareSuper array.now number sectors result }
{
    Superblock {
        feature_map: FEATURE_BITMAP_OFFSET,
        set_uuid: array.set_uuid,
        set_name: array.set_name,
        ctime: array.ctime,
        level: LEVEL,
        layout: 0,
        size: array.size,
        chunksize: 0,
        raid_disks: array.raid_disks,
        bitmap_offset: BITMAP_OFFSET,
        new_level: 0,
        reshape_position: 0,
        delta_disks: 0,
        new_layout: 0,
        new_chunk: 0,
        new_offset: 0,
        data_offset: DATA_SECTOR,
        data_size: sectors - DATA_SECTOR,
        super_offset: SUPER_SECTOR,
        recovery_offset: 0,
        dev_number: number,
        cnt_corrected_read: 0,
        device_uuid: device_uuid(&array.set_uuid, number),
        devflags: 0,
        bblog_shift: 0,
        bblog_size: LOG_SECTORS,
        bblog_offset: LOG_OFFSET,
        utime: array.utime,
        events: array.events,
        resync_offset: array.resync_offset,
        sb_csum: 0,
        roles,
    }
}

// A copy of a superblock.
ghost use Rattle.std.specs.Prelude.{◌≡◌, IfOk};

use crate::superblock::Superblock;
use std::alloc::{AllocError, Global};

impl Superblock {
    /// A superblock with the same fields.
    pub fn try_clone(&self, alloc: Global) -> Result<Superblock, AllocError>
        ensures { IfOk result (λ copy. copy ≡ self.now) }
    {
        let roles = self.roles.try_clone(alloc)?;
        Ok(Superblock {
            feature_map: self.feature_map,
            set_uuid: self.set_uuid,
            set_name: self.set_name,
            ctime: self.ctime,
            level: self.level,
            layout: self.layout,
            size: self.size,
            chunksize: self.chunksize,
            raid_disks: self.raid_disks,
            bitmap_offset: self.bitmap_offset,
            new_level: self.new_level,
            reshape_position: self.reshape_position,
            delta_disks: self.delta_disks,
            new_layout: self.new_layout,
            new_chunk: self.new_chunk,
            new_offset: self.new_offset,
            data_offset: self.data_offset,
            data_size: self.data_size,
            super_offset: self.super_offset,
            recovery_offset: self.recovery_offset,
            dev_number: self.dev_number,
            cnt_corrected_read: self.cnt_corrected_read,
            device_uuid: self.device_uuid,
            devflags: self.devflags,
            bblog_shift: self.bblog_shift,
            bblog_size: self.bblog_size,
            bblog_offset: self.bblog_offset,
            utime: self.utime,
            events: self.events,
            resync_offset: self.resync_offset,
            sb_csum: self.sb_csum,
            roles,
        })
    }
}

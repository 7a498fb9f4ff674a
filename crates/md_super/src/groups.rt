// The fields of a superblock that stand side by side, each group after what was written before.
ghost use Rattle.std.specs.Prelude.{◌≡◌, ◌<◌, ◌≤◌, ◌+◌, ◌-◌, ◌*◌, ◌^◌, ◌++◌, length, replicate, take, FitsSigned};
ghost use Rattle.std.specs.List.{flat_map};
ghost use Rattle.std.specs.Int.{w32};
ghost use Rattle.byteorder.specs.Endian.{little_bytes};
ghost use Rattle.md_super.specs.Encoding.{head_bytes, shape_bytes, bitmap_offset_bytes, reshape_bytes, place_bytes, log_field_bytes, state_bytes};
ghost use Rattle.md_super.specs.Fits.{ShapeFits, ReshapeFits, PlaceFits, LogFits, CountFits, RolesFit};

use crate::superblock::{MAGIC, MAJOR_VERSION, Superblock};
use md_format::{put_u8, put_u16, put_u32, put_u64};

pub(crate) fn put_head(v: &Superblock, out: &mut [u8; 4096])
    ensures front { take 16 out.new ≡ head_bytes v.now }
    ensures fit { v.now.feature_map < 2 ^ 32 }
{
    let feature_map = v.feature_map;
    put_u32(out, 0, MAGIC);
    put_u32(out, 4, MAJOR_VERSION);
    put_u32(out, 8, feature_map);
    put_u32(out, 12, 0);
}

pub(crate) fn put_shape(v: &Superblock, out: &mut [u8; 4096])
    ensures front { take 96 out.new ≡ take 64 out.old ++ shape_bytes v.now }
    ensures fit { ShapeFits v.now }
{
    let Superblock {
        ctime,
        level,
        layout,
        size,
        chunksize,
        raid_disks,
        ..
    } = *v;
    put_u64(out, 64, ctime);
    put_u32(out, 72, level);
    put_u32(out, 76, layout);
    put_u64(out, 80, size);
    put_u32(out, 88, chunksize);
    put_u32(out, 92, raid_disks);
}

pub(crate) fn put_bitmap_offset(v: &Superblock, out: &mut [u8; 4096])
    ensures front { take 100 out.new ≡ take 96 out.old ++ bitmap_offset_bytes v.now }
    ensures fit { FitsSigned w32 v.now.bitmap_offset }
{
    let bitmap_offset = v.bitmap_offset;
    put_u32(out, 96, bitmap_offset.cast_unsigned());
}

pub(crate) fn put_reshape(v: &Superblock, out: &mut [u8; 4096])
    ensures front { take 128 out.new ≡ take 100 out.old ++ reshape_bytes v.now }
    ensures fit { ReshapeFits v.now }
{
    let Superblock {
        new_level,
        reshape_position,
        delta_disks,
        new_layout,
        new_chunk,
        new_offset,
        ..
    } = *v;
    put_u32(out, 100, new_level);
    put_u64(out, 104, reshape_position);
    put_u32(out, 112, delta_disks);
    put_u32(out, 116, new_layout);
    put_u32(out, 120, new_chunk);
    put_u32(out, 124, new_offset);
}

pub(crate) fn put_places(v: &Superblock, out: &mut [u8; 4096])
    ensures front { take 168 out.new ≡ take 128 out.old ++ place_bytes v.now }
    ensures fit { PlaceFits v.now }
{
    let Superblock {
        data_offset,
        data_size,
        super_offset,
        recovery_offset,
        dev_number,
        cnt_corrected_read,
        ..
    } = *v;
    put_u64(out, 128, data_offset);
    put_u64(out, 136, data_size);
    put_u64(out, 144, super_offset);
    put_u64(out, 152, recovery_offset);
    put_u32(out, 160, dev_number);
    put_u32(out, 164, cnt_corrected_read);
}

pub(crate) fn put_log(v: &Superblock, out: &mut [u8; 4096])
    ensures front { take 192 out.new ≡ take 184 out.old ++ log_field_bytes v.now }
    ensures fit { LogFits v.now }
{
    let Superblock {
        devflags,
        bblog_shift,
        bblog_size,
        bblog_offset,
        ..
    } = *v;
    put_u8(out, 184, devflags);
    put_u8(out, 185, bblog_shift);
    put_u16(out, 186, bblog_size);
    put_u32(out, 188, bblog_offset.cast_unsigned());
}

pub(crate) fn put_counts(v: &Superblock, out: &mut [u8; 4096])
    ensures front { take 216 out.new ≡ take 192 out.old ++ state_bytes v.now }
    ensures fit { CountFits v.now }
{
    let Superblock {
        utime,
        events,
        resync_offset,
        ..
    } = *v;
    put_u64(out, 192, utime);
    put_u64(out, 200, events);
    put_u64(out, 208, resync_offset);
}

pub(crate) fn put_role_list(roles: &[u16], out: &mut [u8; 4096])
    requires { length roles.now ≤ 1920 }
    ensures front { take (256 + 2 * length roles.now) out.new ≡ take 256 out.old ++ flat_map (little_bytes 2) roles.now }
    ensures fit { RolesFit roles.now }
{
    let mut at = 256;
    for &role in roles {
        put_u16(out, at, role);
        at += 2;
    }
}

pub(crate) fn put_zeros(out: &mut [u8; 4096], from: usize)
    requires { from ≤ 4096 }
    ensures { out.new ≡ take from out.old ++ replicate (4096 - from) 0 }
{
    out[from..].fill(0);
}

// Making the members of an array.
ghost use Rattle.std.specs.Prelude.{◌≡◌, ◌+◌, ◌≤◌, ◌<◌, ℕ, List, Option, IfOk, IsErrOf, length};
ghost use Rattle.md_bitmap.specs.Sound.{IsSoundHeader, chunk_count};
ghost use Rattle.md_create.specs.Geometry.{HasDevice, IsGeometry};
ghost use Rattle.md_create.specs.Values.{AreMembers, HasFirstMarks, IsNewHeader, IsNewMember, IsNewSuper, device_of_member, flags_for, role_for, roles_of};

use crate::fault::CreateFault;
use crate::geometry::size_of;
use crate::naming::device_uuid;
use crate::params::{CreateParams, NewMember};
use crate::places::{BITMAP_OFFSET, BITMAP_RESERVED, DATA_SECTOR, LOG_OFFSET, LOG_SECTORS};
use md_bitmap::{BitmapHeader, Chunks, Marks};
use md_super::{
    CLEAN_OFFSET, FAULTY, FEATURE_BITMAP_OFFSET, LEVEL, Roles, SUPER_SECTOR, Superblock,
};
use std::alloc::{AllocError, Global};

// The event count of a new array.
const FIRST_EVENTS: u64 = 1;

// `WriteMostly1` of `md_p.h`, in `devflags`.
const WRITE_MOSTLY: u8 = 1;

// The seconds after which the bitmap's daemon wakes, as `mdadm` has it.
const DAEMON_SLEEP: u32 = 5;

/// The members of a new array, one for each device that is there, in the order of roles. `sizes` has
/// the sectors of the device for each role, or `None` where it is missing. Nothing is written.
pub fn create(
    alloc: Global,
    params: &CreateParams,
    sizes: &[Option<u64>],
) -> Result<Vec<NewMember>, CreateFault>
    ensures ok { IfOk result (λ members. (size : ℕ) × IsGeometry params.now sizes.now size × AreMembers params.now sizes.now size members.items) }
    ensures bad_geometry { IsErrOf result CreateFault.BadGeometry → (size : ℕ) → IsGeometry params.now sizes.now size → ⊥ }
    ensures no_memory { IsErrOf result CreateFault.NoMemory → (size : ℕ) × IsGeometry params.now sizes.now size }
{
    let Some(size) = size_of(params, sizes) else {
        return Err(CreateFault::BadGeometry);
    };
    match new_members(alloc, params, sizes, size) {
        Ok(members) => Ok(members),
        Err(_) => Err(CreateFault::NoMemory),
    }
}

fn new_members(
    alloc: Global,
    params: &CreateParams,
    sizes: &[Option<u64>],
    size: u64,
) -> Result<Vec<NewMember>, AllocError>
    requires { IsGeometry params.now sizes.now size }
    ensures { IfOk result (λ members. AreMembers params.now sizes.now size members.items) }
{
    let mut members = Vec::new(alloc);
    for role in 0..sizes.len() {
        if let Some(sectors) = sizes[role] {
            members.push(new_member(alloc, params, sizes, size, role as u32, sectors)?)?;
        }
    }
    Ok(members)
}

fn new_member(
    alloc: Global,
    params: &CreateParams,
    sizes: &[Option<u64>],
    size: u64,
    role: u32,
    sectors: u64,
) -> Result<NewMember, AllocError>
    requires geometry { IsGeometry params.now sizes.now size }
    requires there { HasDevice sizes.now role sectors }
    ensures values { IfOk result (IsNewMember params.now sizes.now size) }
    ensures device { IfOk result (λ m. device_of_member m ≡ (role, sectors)) }
{
    let roles = roles_for(alloc, sizes)?;
    let marks = new_marks(alloc, params, size)?;
    Ok(NewMember {
        superblock: superblock(params, sizes, size, role, sectors, roles),
        header: header(params, size),
        marks,
    })
}

// The role of each device by its number: its own, or that of a faulty one where it is missing.
fn roles_for(alloc: Global, sizes: &[Option<u64>]) -> Result<Roles, AllocError>
    requires { length sizes.now ≤ 32 }
    ensures { IfOk result (λ roles. roles ≡ roles_of sizes.now) }
{
    let mut roles = Vec::new(alloc);
    for role in 0..sizes.len() {
        roles.push(role_for(sizes, role))?;
    }
    Ok(Roles::from_vec(roles))
}

fn role_for(sizes: &[Option<u64>], number: usize) -> u16
    requires few { length sizes.now ≤ 32 }
    requires within { number < length sizes.now }
    ensures { result ≡ role_for sizes.now number }
{
    match sizes[number] {
        Some(_) => number as u16,
        None => FAULTY,
    }
}

fn new_marks(alloc: Global, params: &CreateParams, size: u64) -> Result<Marks, AllocError>
    requires { IsSoundHeader size params.now.chunk_bytes }
    ensures { IfOk result (HasFirstMarks params.now.assume_clean (chunk_count size params.now.chunk_bytes)) }
{
    let chunks = Chunks::new(size, params.chunk_bytes).count();
    if params.assume_clean {
        Marks::none(alloc, chunks)
    } else {
        Marks::all(alloc, chunks)
    }
}

fn header(params: &CreateParams, size: u64) -> BitmapHeader
    requires { IsSoundHeader size params.now.chunk_bytes }
    ensures { IsNewHeader params.now size result }
{
    BitmapHeader {
        uuid: params.set_uuid,
        events: FIRST_EVENTS,
        events_cleared: FIRST_EVENTS,
        sync_size: size,
        state: 0,
        chunksize: params.chunk_bytes,
        daemon_sleep: DAEMON_SLEEP,
        write_behind: 0,
        sectors_reserved: BITMAP_RESERVED,
        nodes: 0,
        cluster_name: [0; 64],
    }
}

// `devflags` of the member of a role.
fn flags_for(write_mostly: Option<u32>, role: u32) -> u8
    ensures { result ≡ flags_for write_mostly role }
{
    let Some(mostly) = write_mostly else {
        return 0;
    };
    if mostly == role { WRITE_MOSTLY } else { 0 }
}

fn superblock(
    params: &CreateParams,
    sizes: &[Option<u64>],
    size: u64,
    role: u32,
    sectors: u64,
    roles: Roles,
) -> Superblock
    requires geometry { IsGeometry params.now sizes.now size }
    requires there { HasDevice sizes.now role sectors }
    requires roles { roles ≡ roles_of sizes.now }
    ensures values { IsNewSuper params.now sizes.now size result }
    ensures number { result.dev_number ≡ role }
    ensures sectors { 2048 + result.data_size ≡ sectors }
{
    Superblock {
        feature_map: FEATURE_BITMAP_OFFSET,
        set_uuid: params.set_uuid,
        set_name: params.name,
        ctime: params.ctime,
        level: LEVEL,
        layout: 0,
        size,
        chunksize: 0,
        raid_disks: sizes.len() as u32,
        bitmap_offset: BITMAP_OFFSET,
        new_level: 0,
        reshape_position: 0,
        delta_disks: 0,
        new_layout: 0,
        new_chunk: 0,
        new_offset: 0,
        data_offset: DATA_SECTOR,
        data_size: sectors - DATA_SECTOR,
        super_offset: SUPER_SECTOR,
        recovery_offset: 0,
        dev_number: role,
        cnt_corrected_read: 0,
        device_uuid: device_uuid(&params.set_uuid, role),
        devflags: flags_for(params.write_mostly, role),
        bblog_shift: 0,
        bblog_size: LOG_SECTORS,
        bblog_offset: LOG_OFFSET,
        utime: params.ctime,
        events: FIRST_EVENTS,
        resync_offset: if params.assume_clean { CLEAN_OFFSET } else { 0 },
        sb_csum: 0,
        roles,
    }
}

// What the other members show of the array, and whether it has a device of a number in sync that is none of them.
ghost use Rattle.std.specs.Prelude.{◌≡◌, ◌*◌, ◌<◌, IfOk, MatchOption, OnOk, false, length};
ghost use Rattle.md_bitmap.specs.Sound.{IsSoundHeader};
ghost use Rattle.md_read_commands.specs.StandIn.{IsFirstOf, IsFreeNumber, NoneDoubts, NoneOf, doubts_device, role_of_number};

use md_array::Mirror;
use md_assembly::MemberState;
use md_bitmap::{BitmapHeader, has_few_chunks, is_chunk_size};
use md_device::Device;
use md_refusals::DataOfFault;
use md_super::Superblock;

// The seconds after which the bitmap's daemon wakes, as `mdadm` has it.
const DAEMON_SLEEP: u32 = 5;

/// The header of a bitmap of the array's chunks.
pub(crate) fn header_of<D: Device + Drop>(mirror: &Mirror<D>) -> Result<BitmapHeader, DataOfFault>
    ensures { IfOk result (λ h. h.chunksize ≡ 512 * mirror.now.array.chunks.sectors) }
{
    let shared = mirror.shared();
    let Some(chunk_bytes) = mirror.chunks().sectors.checked_mul(512) else {
        return Err(DataOfFault::NoArrayBeside);
    };
    if !is_chunk_size(chunk_bytes) {
        return Err(DataOfFault::NoArrayBeside);
    }
    if !has_few_chunks(shared.size, chunk_bytes) {
        return Err(DataOfFault::NoArrayBeside);
    }
    Ok(header_beside(shared, chunk_bytes))
}

// The header of a bitmap that tells of the array.
fn header_beside(shared: &Superblock, chunk_bytes: u32) -> BitmapHeader
    requires { IsSoundHeader shared.now.size chunk_bytes }
    ensures { result.chunksize ≡ chunk_bytes }
{
    BitmapHeader {
        uuid: shared.set_uuid,
        events: shared.events,
        events_cleared: shared.events,
        sync_size: shared.size,
        state: 0,
        chunksize: chunk_bytes,
        daemon_sleep: DAEMON_SLEEP,
        write_behind: 0,
        sectors_reserved: 0,
        nodes: 0,
        cluster_name: [0; 64],
    }
}

/// Whether the array has a device with this number in sync that is none of the members. The image with this index is none of theirs.
pub(crate) fn check_number<D: Device + Drop>(
    mirror: &Mirror<D>,
    index: usize,
    number: u32,
) -> Result<(), DataOfFault>
    ensures { OnOk result (IsFreeNumber mirror.now.array number) }
{
    match place_of(mirror, number) {
        Some(k) => Err(DataOfFault::NumberTaken(image_of(k, index))),
        None => check_role(mirror, number),
    }
}

// The image of member k, where the one with this index is of none.
fn image_of(k: usize, index: usize) -> usize {
    if k < index { k } else { k.saturating_add(1) }
}

// Whether the device with this number is in sync, as far as the members tell.
fn check_role<D: Device + Drop>(mirror: &Mirror<D>, number: u32) -> Result<(), DataOfFault>
    ensures in_role { OnOk result
        (role_of_number mirror.now.array.shared number < mirror.now.array.shared.raid_disks) }
    ensures undoubted { OnOk result
        (NoneDoubts mirror.now.array.members number (role_of_number mirror.now.array.shared number)
        (length mirror.now.array.members)) }
{
    let shared = mirror.shared();
    let role = shared.role_of(number);
    if u32::from(role) >= shared.raid_disks {
        return Err(DataOfFault::NumberNotInSync);
    }
    if is_doubted(mirror, number, role) {
        return Err(DataOfFault::NumberNotInSync);
    }
    Ok(())
}

// The first member with a device number.
fn place_of<D: Device + Drop>(mirror: &Mirror<D>, number: u32) -> Option<usize>
    ensures { MatchOption result (NoneOf mirror.now.array.members number (length mirror.now.array.members))
        (IsFirstOf mirror.now.array.members number) }
{
    for k in 0..mirror.members() {
        if mirror.own(k).dev_number == number {
            return Some(k);
        }
    }
    None
}

// Whether some member doubts that the device with this number is in sync in this role.
fn is_doubted<D: Device + Drop>(mirror: &Mirror<D>, number: u32, role: u16) -> bool
    ensures { result ≡ false → NoneDoubts mirror.now.array.members number role
        (length mirror.now.array.members) }
{
    for k in 0..mirror.members() {
        if doubts(mirror.own(k), mirror.state(k), number, role) {
            return true;
        }
    }
    false
}

// Whether a member has the role itself, or is in sync and tells otherwise of the device with this number.
fn doubts(own: &Superblock, state: MemberState, number: u32, role: u16) -> bool
    ensures { result ≡ doubts_device own.now state number role }
{
    if state.takes_role(u32::from(role)) {
        return true;
    }
    state.is_in_sync() && own.role_of(number) != role
}

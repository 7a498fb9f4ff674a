// A member gets what stands in for its superblock and its bitmap.
ghost use Rattle.std.specs.Prelude.{◌≡◌, ◌+◌, ◌*◌, ◌≤◌, IfOk, IfSome, OnOk, length, true};
ghost use Rattle.md_bitmap.specs.Sectors.{bitmap_sectors};
ghost use Rattle.md_device.specs.Splice.{SameOutside};
ghost use Rattle.md_state.specs.View.{disk_of};
ghost use Rattle.md_read_commands.specs.Fronted.{fronted, fronted_disk};
ghost use Rattle.md_read_commands.specs.StandIn.{AreAllMarked, HasChunksOfBytes, HasLogOf, IsCountedMember, IsFreeNumber, IsSameFrom, IsSameLog, ReadsCounted, StandsIn};

use crate::stand_in::fronted::FrontedDevice;
use crate::stand_in::kept_log::{check_log, log_of};
use crate::stand_in::made::{is_made, made_of};
use crate::stand_in::own::own_of;
use crate::stand_in::shown::{check_number, header_of};
use md_array::Mirror;
use md_assembly::state_of;
use md_bitmap::{BitmapHeader, Chunks, Marks, sectors_of_bitmap};
use md_device::Device;
use md_members::{MemberFault, MemberInfo, read_member, store_bitmap};
use md_refusals::DataOfFault;
use md_super::{SUPER_SECTOR, Superblock, encode_member};
use std::alloc::Global;

// The sectors up to the superblock's end.
const LEAST_SECTORS: u64 = 16;

/// The image with this index counts as the device with this number, and is compared with the members in sync or not.
#[derive(Clone, Copy)]
pub struct StandIn {
    pub index: usize,
    pub number: u32,
    pub compared: bool,
}

/// Gives the member on a device a superblock and a bitmap, in which all chunks are marked, that stand in for ones that can't be
/// read; the mirror has all other members. Nothing is written but in memory, where it is read back then. The others are looked at
/// before the device.
pub fn put_stand_in<E: Device + Drop, D: Device + Drop>(
    alloc: Global,
    mirror: &Mirror<E>,
    device: D,
    wanted: StandIn,
) -> Result<FrontedDevice<D>, DataOfFault>
    ensures free { OnOk result (IsFreeNumber mirror.now.array wanted.number) }
    ensures stands { IfOk result
        (λ d. StandsIn wanted (512 * mirror.now.array.chunks.sectors) mirror.now.array.shared
        (disk_of D.Device device) (fronted_disk D.Device d)) }
{
    let header = header_of(mirror)?;
    check_number(mirror, wanted.index, wanted.number)?;
    stand_in_beside(alloc, mirror.shared(), &header, device, wanted)
}

// Gives it to the member beside one whose superblock this is, and a bitmap of this header.
fn stand_in_beside<D: Device + Drop>(
    alloc: Global,
    freshest: &Superblock,
    header: &BitmapHeader,
    mut device: D,
    wanted: StandIn,
) -> Result<FrontedDevice<D>, DataOfFault>
    ensures { IfOk result
        (λ d. StandsIn wanted header.now.chunksize freshest.now (disk_of D.Device device)
        (fronted_disk D.Device d)) }
{
    let own = own_of(alloc, &mut device, freshest, wanted.number)?;
    let Ok(made) = made_of(alloc, freshest, own, wanted) else {
        return Err(DataOfFault::NoMemory);
    };
    with_both(alloc, freshest, header, device, &made, wanted)
}

// Keeps a bitmap and this superblock in memory, over the device's own. No sector of the log stands there as zeros.
fn with_both<D: Device + Drop>(
    alloc: Global,
    freshest: &Superblock,
    header: &BitmapHeader,
    mut device: D,
    made: &Superblock,
    wanted: StandIn,
) -> Result<FrontedDevice<D>, DataOfFault>
    ensures reads { IfOk result
        (λ d. ReadsCounted wanted made.now header.now.chunksize freshest.now (fronted_disk D.Device d)) }
    ensures same_data { IfOk result (λ d. IsSameFrom made.now.data_offset (D.content device)
        (fronted d.front.items (D.content d.inner))) }
    ensures honest { IfOk result (λ d. D.honest d.inner ≡ D.honest device) }
    ensures counted { IfOk result (λ d. D.failures device ≤ D.failures d.inner) }
    ensures log { IfOk result (λ d. D.honest device ≡ true → IsSameLog made.now (D.content device)
        (fronted d.front.items (D.content d.inner))) }
{
    let log = log_of(alloc, &mut device, made)?;
    let mut fronted = with_bitmap(alloc, device, header, made)?;
    put_and_read(
        alloc,
        &mut fronted,
        freshest,
        made,
        wanted,
        header.chunksize,
    )?;
    check_log(alloc, &mut fronted, made, log.as_slice())?;
    Ok(fronted)
}

// Keeps the device's sectors up to the bitmap's end in memory, and puts the bitmap there.
fn with_bitmap<D: Device + Drop>(
    alloc: Global,
    device: D,
    header: &BitmapHeader,
    made: &Superblock,
) -> Result<FrontedDevice<D>, DataOfFault>
    ensures placed { OnOk result (16 ≤ made.now.data_offset) }
    ensures same_data { IfOk result (λ d. IsSameFrom made.now.data_offset (D.content device)
        (fronted d.front.items (D.content d.inner))) }
    ensures honest { IfOk result (λ d. D.honest d.inner ≡ D.honest device) }
    ensures counted { IfOk result (λ d. D.failures device ≤ D.failures d.inner) }
{
    let chunks = chunks_of(header);
    let room = room_for_bitmap(made, sectors_of_bitmap(chunks), device.sectors());
    let Some((start, end)) = room else {
        return Err(DataOfFault::DataPastEnd);
    };
    let Ok(mut fronted) = FrontedDevice::with_front(alloc, device, end) else {
        return Err(DataOfFault::NoMemory);
    };
    put_all_marked(alloc, &mut fronted, start, header, chunks)?;
    Ok(fronted)
}

// How many chunks a bitmap of this header has.
fn chunks_of(header: &BitmapHeader) -> u32
    ensures { result ≤ 1048576 }
{
    Chunks::new(header.sync_size, header.chunksize).count()
}

// Puts a bitmap of so many chunks on a device, in which all are marked.
fn put_all_marked<D: Device>(
    alloc: Global,
    device: &mut D,
    start: u32,
    header: &BitmapHeader,
    chunks: u32,
) -> Result<(), DataOfFault>
    requires few { chunks ≤ 1048576 }
    requires room { 512 * (start + bitmap_sectors chunks) ≤ length (D.content device.old) }
    ensures outside { OnOk result (SameOutside (512 * start) (512 * bitmap_sectors chunks)
        (D.content device.old) (D.content device.new)) }
    ensures honest { D.honest device.new ≡ D.honest device.old }
    ensures counted { D.failures device.old ≤ D.failures device.new }
{
    let Ok(marks) = Marks::all(alloc, chunks) else {
        return Err(DataOfFault::NoMemory);
    };
    match store_bitmap(device, start, header, &marks) {
        Ok(()) => Ok(()),
        Err(_) => Err(DataOfFault::NoMemory),
    }
}

// Where a bitmap of so many sectors starts and ends by a superblock, if it lies between that and the data, on a device of so many.
fn room_for_bitmap(made: &Superblock, sectors: u32, device_sectors: u64) -> Option<(u32, u64)>
    requires few { sectors ≤ 257 }
    ensures { IfSome result (λ p. (p.0 + sectors ≡ p.1) × (16 ≤ p.0)
        × (p.1 ≤ device_sectors) × (p.1 ≤ made.now.data_offset)) }
{
    if made.bitmap_offset < 8 {
        return None;
    }
    let start = made.bitmap_offset as u32 + SUPER_SECTOR as u32;
    let end = u64::from(start) + u64::from(sectors);
    if end > device_sectors || end > made.data_offset {
        return None;
    }
    Some((start, end))
}

// Puts a superblock on a device, and reads it back.
fn put_and_read<D: Device>(
    alloc: Global,
    device: &mut D,
    freshest: &Superblock,
    made: &Superblock,
    wanted: StandIn,
    chunk_bytes: u32,
) -> Result<(), DataOfFault>
    requires { 16 ≤ made.now.data_offset }
    ensures reads { OnOk result (ReadsCounted wanted made.now chunk_bytes freshest.now
        (disk_of D.Device device.new)) }
    ensures same_data { OnOk result (IsSameFrom made.now.data_offset (D.content device.old)
        (D.content device.new)) }
    ensures honest { D.honest device.new ≡ D.honest device.old }
    ensures counted { D.failures device.old ≤ D.failures device.new }
{
    put_super(device, freshest, made)?;
    read_back(alloc, device, freshest, made, wanted, chunk_bytes)
}

// Puts a superblock there, with the array's fields as the others have them.
fn put_super<D: Device>(
    device: &mut D,
    freshest: &Superblock,
    made: &Superblock,
) -> Result<(), DataOfFault>
    ensures same_data { OnOk result (IsSameFrom 16 (D.content device.old) (D.content device.new)) }
    ensures honest { D.honest device.new ≡ D.honest device.old }
    ensures counted { D.failures device.old ≤ D.failures device.new }
{
    if device.sectors() < LEAST_SECTORS {
        return Err(DataOfFault::DataPastEnd);
    }
    let mut block = [0; 4096];
    encode_member(freshest, made, &mut block);
    match device.write(SUPER_SECTOR, &block) {
        Ok(()) => Ok(()),
        Err(_) => Err(DataOfFault::NoMemory),
    }
}

// Reads the member, and looks whether it is what was put there.
fn read_back<D: Device>(
    alloc: Global,
    device: &mut D,
    freshest: &Superblock,
    made: &Superblock,
    wanted: StandIn,
    chunk_bytes: u32,
) -> Result<(), DataOfFault>
    ensures reads { OnOk result (ReadsCounted wanted made.now chunk_bytes freshest.now
        (disk_of D.Device device.new)) }
    ensures kept { D.content device.new ≡ D.content device.old }
    ensures honest { D.honest device.new ≡ D.honest device.old }
    ensures counted { D.failures device.old ≤ D.failures device.new }
{
    match read_member(alloc, device) {
        Ok(info) => check_made(&info, freshest, made, wanted, chunk_bytes),
        Err(MemberFault::NoMemory) => Err(DataOfFault::NoMemory),
        Err(MemberFault::ReadFault) | Err(MemberFault::Log(_)) => Err(DataOfFault::LogUnread),
        Err(_) => Err(DataOfFault::DataPastEnd),
    }
}

// Whether what is read of the device now is what was put there.
fn check_made(
    info: &MemberInfo,
    freshest: &Superblock,
    made: &Superblock,
    wanted: StandIn,
    chunk_bytes: u32,
) -> Result<(), DataOfFault>
    ensures { OnOk result (IsCountedMember wanted made.now chunk_bytes freshest.now info.now) }
{
    let own = &info.superblock;
    let state = state_of(freshest, own);
    if !is_made(own) || own.dev_number != wanted.number || own.set_uuid != freshest.set_uuid {
        return Err(DataOfFault::DataPastEnd);
    }
    if !state.is_active() || state.is_in_sync() != wanted.compared {
        return Err(DataOfFault::DataPastEnd);
    }
    if own.data_offset != made.data_offset || own.size != freshest.size || !has_log_of(own, made) {
        return Err(DataOfFault::DataPastEnd);
    }
    if !has_chunks(info, chunk_bytes) || !are_all_marked(info) {
        return Err(DataOfFault::DataPastEnd);
    }
    Ok(())
}

// Whether a superblock has its log where another has it, and the feature map of that.
fn has_log_of(own: &Superblock, made: &Superblock) -> bool
    ensures { result ≡ true → HasLogOf made.now made.now.feature_map own.now }
{
    own.feature_map == made.feature_map
        && own.bblog_shift == made.bblog_shift
        && own.bblog_size == made.bblog_size
        && own.bblog_offset == made.bblog_offset
}

// Whether a member has a bitmap with chunks of so many bytes.
fn has_chunks(info: &MemberInfo, chunk_bytes: u32) -> bool
    ensures { result ≡ true → HasChunksOfBytes chunk_bytes info.now.header }
{
    match &info.header {
        Some(header) => header.chunksize == chunk_bytes,
        None => false,
    }
}

// Whether all chunks are marked in a member's bitmap.
fn are_all_marked(info: &MemberInfo) -> bool
    ensures { result ≡ true → AreAllMarked info.now.marks }
{
    match &info.marks {
        Some(marks) => marks.is_range_marked(0, marks.chunks()),
        None => false,
    }
}

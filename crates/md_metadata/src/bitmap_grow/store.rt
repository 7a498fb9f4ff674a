// Putting a bitmap on the members' devices.
ghost use Rattle.std.specs.Prelude.{◌≡◌, ◌≤◌, ◌*◌, ◌+◌, ◌∷◌, [], length, map, MatchResult, OnErr, OnOk};
ghost use Rattle.md_kept_members.specs.OnDevices.Superblocks.{own_write};
ghost use Rattle.md_state.specs.View.{disk_of};
ghost use Rattle.md_state.specs.DeviceChanges.{StaysHonest};
ghost use Rattle.md_metadata.specs.Grow.Growing.{AllGrown, EndsInBitmaps, EndsNaming, FitGrowth, HaveBitmaps, HaveSuperblocks, OnMember, RefusesStoring};
ghost use Rattle.md_metadata.specs.Grow.Stored.{FailsInPart, GetsBitmap, GetsSuperblock, bitmap_part, sectors_of};

use crate::bitmap_grow::fault::GrowFault;
use crate::bitmap_grow::growth::Growth;
use md_device::{Device, WriteFault};
use md_members::{put, store_bitmap};
use md_super::{SUPER_SECTOR, Superblock, encode_member};

/// Puts the bitmap on each member, and then the superblock that names it, up to the first write that fails.
///
/// All bitmaps come before the first superblock: a kernel that finds one of these superblocks reads the bitmap of whichever
/// member it likes.
pub(crate) fn store_each<D: Device>(devices: &mut [D], growth: &Growth) -> Result<(), GrowFault>
    requires { FitGrowth growth.now (map (disk_of D.Device) devices.old) }
    ensures { MatchResult result (λ _. AllGrown growth.now (map (disk_of D.Device) devices.old) (map (disk_of D.Device) devices.new))
        (RefusesStoring growth.now (map (disk_of D.Device) devices.old) (map (disk_of D.Device) devices.new)) }
{
    put_bitmaps(devices, growth)?;
    put_superblocks(devices, growth)
}

// Puts the bitmap on each member.
fn put_bitmaps<D: Device>(devices: &mut [D], growth: &Growth) -> Result<(), GrowFault>
    requires { FitGrowth growth.now (map (disk_of D.Device) devices.old) }
    ensures { MatchResult result (λ _. HaveBitmaps growth.now (map (disk_of D.Device) devices.old) (map (disk_of D.Device) devices.new))
        (OnMember (EndsInBitmaps growth.now (map (disk_of D.Device) devices.old) (map (disk_of D.Device) devices.new))) }
{
    for k in 0..devices.len() {
        if put_bitmap(&mut devices[k], growth).is_err() {
            return Err(GrowFault::MetadataFault(k));
        }
    }
    Ok(())
}

fn put_bitmap<D: Device>(device: &mut D, growth: &Growth) -> Result<(), WriteFault>
    requires few { growth.now.marks.chunks ≤ 1048576 }
    requires room { 512 * (growth.now.start + sectors_of growth.now) ≤ length (D.content device.old) }
    ensures stays { StaysHonest (disk_of D.Device device.old) (disk_of D.Device device.new) }
    ensures ok { OnOk result (GetsBitmap growth.now (disk_of D.Device device.old) (disk_of D.Device device.new)) }
    ensures fails { OnErr result (FailsInPart growth.now (bitmap_part growth.now) (disk_of D.Device device.old) (disk_of D.Device device.new)) }
{
    store_bitmap(device, growth.start, &growth.header, &growth.marks)
}

// Puts its superblock on each member.
fn put_superblocks<D: Device>(devices: &mut [D], growth: &Growth) -> Result<(), GrowFault>
    requires { FitGrowth growth.now (map (disk_of D.Device) devices.old) }
    ensures { MatchResult result (λ _. HaveSuperblocks growth.now (map (disk_of D.Device) devices.old) (map (disk_of D.Device) devices.new))
        (OnMember (EndsNaming growth.now (map (disk_of D.Device) devices.old) (map (disk_of D.Device) devices.new))) }
{
    for k in 0..devices.len() {
        let member = &growth.members[k];
        if put_superblock(&mut devices[k], growth, &member.superblock).is_err() {
            return Err(GrowFault::MetadataFault(k));
        }
    }
    Ok(())
}

fn put_superblock<D: Device>(
    device: &mut D,
    growth: &Growth,
    own: &Superblock,
) -> Result<(), WriteFault>
    requires after_super { 16 ≤ growth.now.start }
    requires room { 512 * (growth.now.start + sectors_of growth.now) ≤ length (D.content device.old) }
    ensures stays { StaysHonest (disk_of D.Device device.old) (disk_of D.Device device.new) }
    ensures ok { OnOk result (GetsSuperblock growth.now own.now (disk_of D.Device device.old) (disk_of D.Device device.new)) }
    ensures fails { OnErr result (FailsInPart growth.now (own_write growth.now.shared own.now ∷ []) (disk_of D.Device device.old) (disk_of D.Device device.new)) }
{
    let mut block = [0; 4096];
    encode_member(&growth.shared, own, &mut block);
    put(device, SUPER_SECTOR, &block)
}

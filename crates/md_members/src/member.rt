// A member, read whole.
ghost use Rattle.std.specs.Prelude.{◌≡◌, ◌≤◌, ◌↔◌, true, IsTrue, MatchResult};
ghost use Rattle.md_device.specs.Crashes.{LeavesMore};
ghost use Rattle.md_device.specs.Failing.{OnlyReadsFailed};
ghost use Rattle.md_members.specs.Areas.{AreAreasPlaced, has_bitmap};
ghost use Rattle.md_members.specs.Reading.{CallFails, RefusesBitmap, RefusesLog, UnlessReadFault};
ghost use Rattle.md_members.specs.Members.{GivesMember, HasBadSet, HasBitmap, IsAccepted, reads_log, sectors_of_device};

use crate::bitmap::read_bitmap;
use crate::fault::MemberFault;
use crate::info::MemberInfo;
use crate::log::read_log;
use crate::placing::{has_a_bitmap, is_placed, lists_bad_blocks};
use crate::super_read::read_super;
use md_badblocks::BadSet;
use md_bitmap::{BitmapHeader, Marks};
use md_device::Device;
use md_super::Superblock;
use std::alloc::Global;

/// Reads a member: the superblock, the bitmap's first sector, the bitmap's area and the log's area,
/// each once and nothing else.
#[tactic(auto, using(md_device::proofs::Failing::fails_none, md_device::proofs::Failing::fails_then, crate::proofs::Failed::reads_alone))]
pub fn read_member<D: Device>(alloc: Global, device: &mut D) -> Result<MemberInfo, MemberFault>
    ensures kept { D.content device.new ≡ D.content device.old }
    ensures honest { D.honest device.new ≡ D.honest device.old }
    ensures counted { D.failures device.old ≤ D.failures device.new }
    ensures grown { OnlyReadsFailed (D.faults device.old) (D.faults device.new) }
    ensures unfailing { UnlessReadFault result (D.failures device.new ≡ D.failures device.old) }
    ensures within { D.honest device.old ≡ true → LeavesMore (D.crashes device.old) (D.crashes device.new) (λ left. left ≡ D.content device.old) }
    ensures reads { GivesMember (D.content device.old) (D.honest device.old) (CallFails D.Device device.old device.new) result }
{
    let superblock = read_super(alloc, device)?;
    let sectors = device.sectors();
    if !is_placed(&superblock, sectors, 1) {
        return Err(MemberFault::Region);
    }
    let (header, marks) = read_any_bitmap(alloc, device, &superblock)?;
    let bad = read_bad_set(alloc, device, &superblock)?;
    Ok(MemberInfo {
        sectors,
        superblock,
        header,
        marks,
        bad,
    })
}

#[tactic(auto, using(md_device::proofs::Failing::fails_none, md_device::proofs::Failing::fails_then, md_device::proofs::Failing::fails_call))]
fn read_any_bitmap<D: Device>(
    alloc: Global,
    device: &mut D,
    v: &Superblock,
) -> Result<(Option<BitmapHeader>, Option<Marks>), MemberFault>
    requires placed { AreAreasPlaced (sectors_of_device (D.content device.old)) v.now 1 }
    ensures kept { D.content device.new ≡ D.content device.old }
    ensures honest { D.honest device.new ≡ D.honest device.old }
    ensures counted { D.failures device.old ≤ D.failures device.new }
    ensures grown { OnlyReadsFailed (D.faults device.old) (D.faults device.new) }
    ensures unfailing { UnlessReadFault result (D.failures device.new ≡ D.failures device.old) }
    ensures within { D.honest device.old ≡ true → LeavesMore (D.crashes device.old) (D.crashes device.new) (λ left. left ≡ D.content device.old) }
    ensures reads { MatchResult result (λ b. HasBitmap (D.content device.old) (D.honest device.old) v.now b.0 b.1)
        (λ f. (has_bitmap v.now ≡ true) × RefusesBitmap (D.content device.old) (D.honest device.old) (CallFails D.Device device.old device.new) (sectors_of_device (D.content device.old)) v.now f) }
{
    if !has_a_bitmap(v) {
        return Ok((None, None));
    }
    let (header, marks) = read_bitmap(alloc, device, v)?;
    Ok((Some(header), Some(marks)))
}

#[tactic(auto, using(md_device::proofs::Failing::fails_none, md_device::proofs::Failing::fails_then, md_device::proofs::Failing::fails_call))]
fn read_bad_set<D: Device>(
    alloc: Global,
    device: &mut D,
    v: &Superblock,
) -> Result<BadSet, MemberFault>
    requires placed { AreAreasPlaced (sectors_of_device (D.content device.old)) v.now 1 }
    ensures kept { D.content device.new ≡ D.content device.old }
    ensures honest { D.honest device.new ≡ D.honest device.old }
    ensures counted { D.failures device.old ≤ D.failures device.new }
    ensures grown { OnlyReadsFailed (D.faults device.old) (D.faults device.new) }
    ensures unfailing { UnlessReadFault result (D.failures device.new ≡ D.failures device.old) }
    ensures within { D.honest device.old ≡ true → LeavesMore (D.crashes device.old) (D.crashes device.new) (λ left. left ≡ D.content device.old) }
    ensures reads { MatchResult result (λ bad. HasBadSet (D.content device.old) (D.honest device.old) v.now bad)
        (λ f. (reads_log v.now ≡ true) × RefusesLog (CallFails D.Device device.old device.new) v.now f) }
{
    if !lists_bad_blocks(v) {
        return Ok(BadSet::new(alloc));
    }
    if !v.has_bad_block_log() {
        return Ok(BadSet::new(alloc));
    }
    read_log(alloc, device, v)
}

/// Whether a bitmap tells of the array of the superblock that it stands beside: else every chunk
/// counts as marked.
pub fn accepted(superblock: &Superblock, header: &BitmapHeader) -> bool
    ensures { IsTrue result ↔ IsAccepted superblock.now header.now }
{
    header.uuid == superblock.set_uuid
        && header.sync_size == superblock.size
        && header.state == 0
        && (header.events == superblock.events
            || header.events.checked_sub(1) == Some(superblock.events))
}

// Taking a device back that left, and lacks what was marked since, or all.
ghost use Rattle.std.specs.Prelude.{◌≡◌, ◌↔◌, ◌≤◌, ◌+◌, ◌*◌, ⊤, IfSome, IsNone, IsTrue, MatchResult, length};
ghost use Rattle.md_inflight.specs.Requests.Pending.{PendingView};
ghost use Rattle.md_state.specs.Requests.{IsPending};
ghost use Rattle.md_state.specs.Steps.ReAdd.{RefusesToTakeBack};
ghost use Rattle.md_state.specs.View.{disk_of};
ghost use Rattle.md_array.specs.Consistency.{IsConsistent};
ghost use Rattle.md_array.specs.Steps.ReAdd.{unread_as};
ghost use Rattle.md_metadata.specs.ComingBack.{ComesBack, ComesBackStale, ComesBackWhole, HandsBackAsWas, IsPutBack, MayBeMadeStale, RefusesComingBack, RefusesStale, RefusesWhole};

use crate::coming_back::extent_of_rebuild::RebuildExtent;
use crate::coming_back::stale_flag::{SECTOR_BYTES, read_first, with_stale_flag, write_first};
use md_array::{Mirror, ReAddFault};
use md_device::Device;
use md_kept_members::bitmap_start;
use md_members::{MemberFault, MemberInfo, read_member};
use std::alloc::Global;

// The most members that an array has.
const MOST_MEMBERS: usize = 64;

/// Takes a device back as `Mirror::re_add` does. With `RebuildExtent::All` it lacks every chunk then, whatever its marks
/// say: a flag is set in the header of its bitmap first, by one write to the bitmap's first sector, so that this bitmap is
/// not accepted. Where it does not come back after that, the sector is put back as it was.
///
/// A crash between the two writes leaves the flag: the device lacks every chunk wherever it comes back.
///
/// `WriteFault` also says that the flag could not be written, or not be taken away. A device of another array, or one with
/// more events than this one, is not written at all.
pub fn come_back<D: Device + Drop>(
    alloc: Global,
    mirror: &mut Mirror<D>,
    device: D,
    extent: RebuildExtent,
) -> Result<usize, (D, ReAddFault)>
    requires sound { IsConsistent mirror.old }
    ensures gives { MatchResult result
        (λ k. ComesBack extent k (disk_of D.Device device) mirror.old mirror.new)
        (λ e. RefusesComingBack extent (disk_of D.Device device) (disk_of D.Device e.0)
        mirror.old mirror.new e.1) }
    ensures as_was { MatchResult result (λ _. ⊤)
        (λ e. HandsBackAsWas (disk_of D.Device device) (disk_of D.Device e.0) mirror.old mirror.new e.1) }
    ensures sound { IsConsistent mirror.new }
    ensures pending { (p : PendingView) → IsPending mirror.old.array p → IsPending mirror.new.array p }
{
    match extent {
        RebuildExtent::Marked => mirror.re_add(alloc, device),
        RebuildExtent::All => come_back_whole(alloc, mirror, device),
    }
}

// Takes a device back that lacks every chunk then.
fn come_back_whole<D: Device + Drop>(
    alloc: Global,
    mirror: &mut Mirror<D>,
    device: D,
) -> Result<usize, (D, ReAddFault)>
    requires sound { IsConsistent mirror.old }
    ensures gives { MatchResult result
        (λ k. ComesBackWhole k (disk_of D.Device device) mirror.old mirror.new)
        (λ e. RefusesWhole (disk_of D.Device device) (disk_of D.Device e.0) mirror.old mirror.new e.1) }
    ensures sound { IsConsistent mirror.new }
    ensures pending { (p : PendingView) → IsPending mirror.old.array p → IsPending mirror.new.array p }
{
    if mirror.halted() {
        return Err((device, ReAddFault::Halted));
    }
    let mut device = device;
    let info = match read_member(alloc, &mut device) {
        Ok(info) => info,
        Err(fault) => return Err((device, unread(fault))),
    };
    if let Some(fault) = refusal_unwritten(mirror, &info) {
        return Err((device, fault));
    }
    let start = bitmap_start(&info.superblock);
    come_back_stale(alloc, mirror, device, start)
}

// The answer where a device is not read as a member.
fn unread(fault: MemberFault) -> ReAddFault
    ensures { result ≡ unread_as fault }
{
    match fault {
        MemberFault::NoMemory => ReAddFault::NoMemory,
        _ => ReAddFault::Member(fault),
    }
}

// Why a device that was read so is refused, before anything is written on it.
fn refusal_unwritten<D: Device + Drop>(mirror: &Mirror<D>, info: &MemberInfo) -> Option<ReAddFault>
    ensures refused { IfSome result (λ f. RefusesToTakeBack mirror.now.array info.now f) }
    ensures may { IsNone result → MayBeMadeStale mirror.now.array info.now }
{
    if mirror.members() >= MOST_MEMBERS {
        return Some(ReAddFault::Full);
    }
    if !may_be_made_stale(mirror, info) {
        return Some(ReAddFault::NotReAddable);
    }
    None
}

// Whether a device has a bitmap, is of this array, and has no events that the array lacks.
fn may_be_made_stale<D: Device + Drop>(mirror: &Mirror<D>, info: &MemberInfo) -> bool
    ensures { IsTrue result ↔ MayBeMadeStale mirror.now.array info.now }
{
    let own = &info.superblock;
    info.header.is_some()
        && own.set_uuid == mirror.shared().set_uuid
        && own.events <= mirror.events()
}

// Takes a device back once the flag is set in its bitmap, which starts here.
fn come_back_stale<D: Device + Drop>(
    alloc: Global,
    mirror: &mut Mirror<D>,
    device: D,
    start: u32,
) -> Result<usize, (D, ReAddFault)>
    requires sound { IsConsistent mirror.old }
    requires room { 512 * start + 512 ≤ length (D.content device) }
    ensures gives { MatchResult result
        (λ k. ComesBackStale start k (disk_of D.Device device) mirror.old mirror.new)
        (λ e. RefusesStale start (disk_of D.Device device) (disk_of D.Device e.0) mirror.old mirror.new e.1) }
    ensures sound { IsConsistent mirror.new }
    ensures pending { (p : PendingView) → IsPending mirror.old.array p → IsPending mirror.new.array p }
{
    let mut device = device;
    let Ok(sector) = read_first(&mut device, start) else {
        return Err((device, ReAddFault::Member(MemberFault::ReadFault)));
    };
    if write_first(&mut device, start, &with_stale_flag(&sector)).is_err() {
        return Err((device, ReAddFault::WriteFault));
    }
    match mirror.re_add(alloc, device) {
        Ok(k) => Ok(k),
        Err((device, fault)) => Err(put_back(device, start, &sector, fault)),
    }
}

// Puts the first sector of the bitmap back as it was. The answer is that of the call that was refused, where that can be
// done.
fn put_back<D: Device + Drop>(
    device: D,
    start: u32,
    sector: &[u8; SECTOR_BYTES],
    fault: ReAddFault,
) -> (D, ReAddFault)
    requires { 512 * start + 512 ≤ length (D.content device) }
    ensures { IsPutBack start sector.now
        (disk_of D.Device device) (disk_of D.Device result.0) fault result.1 }
{
    let mut device = device;
    match write_first(&mut device, start, sector) {
        Ok(()) => (device, fault),
        Err(_) => (device, ReAddFault::WriteFault),
    }
}

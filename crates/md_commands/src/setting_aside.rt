// The resync before a salvage, which takes a sector from the next member in sync where the first does not give it.
ghost use Rattle.std.specs.Prelude.{◌≡◌, ◌+◌, ◌<◌, ◌≤◌, ℕ, IfOk, List, MatchResult, OnOk, false, length, true};
ghost use Rattle.md_array.specs.Consistency.{IsConsistent};
ghost use Rattle.md_assembly.specs.States.{is_in_sync};
ghost use Rattle.md_badblocks.specs.Runs.{IsCanonical};
ghost use Rattle.md_commands.specs.SettingAside.{FailsAside, FailsAsideOn, FailsAtPart, FailsToStoreFitting, FindsUngiven, HasRoomForList, RefusesSalvageResync, ResyncsToSalvage, SetsAside, SetsAsideOn, StoresIfFitting, StoresListThen, is_read_fault};
ghost use Rattle.md_inflight.specs.Requests.Pending.{PendingView};
ghost use Rattle.md_kept_members.specs.View.{MemberView};
ghost use Rattle.md_read.specs.Reading.{HasReadFailed};
ghost use Rattle.md_resync.specs.Copying.{IsInMarkedChunk};
ghost use Rattle.md_state.specs.Members.{IsMember};
ghost use Rattle.md_state.specs.Requests.{IsPending};
ghost use Rattle.md_state.specs.Rests.{Rests};

use crate::resyncing::resync_if_needed;
use md_array::Mirror;
use md_badblocks::BadSet;
use md_device::Device;
use md_kept_members::log_room;
use md_metadata::{PartFault, store_list, store_records};
use md_resync::ResyncFault;
use std::alloc::{AllocError, Global};

// How many sectors a member is asked for at once, 64 KiB.
const AT_ONCE: u64 = 128;

/// Resynchronises an array before a salvage, if it has to be. If that ends at a member that could not be read, each member in sync is
/// asked for the marked chunks, by runs, and for each sector of a run that it does not give alone. What it does not give then is
/// listed on it, and stored if its log has room. So the second resync takes such a sector from the next member in sync that gives
/// it, and leaves alone what none gives.
///
///     resync_to_salvage(alloc, &mut mirror)?;
pub fn resync_to_salvage<D: Device + Drop>(
    alloc: Global,
    mirror: &mut Mirror<D>,
) -> Result<(), ResyncFault>
    requires sound { IsConsistent mirror.old }
    ensures gives { MatchResult result
        (λ _. ResyncsToSalvage mirror.old mirror.new)
        (RefusesSalvageResync mirror.old mirror.new) }
    ensures sound { IsConsistent mirror.new }
    ensures pending { (p : PendingView) → IsPending mirror.old.array p → IsPending mirror.new.array p }
{
    let Err(fault) = resync_if_needed(alloc, mirror) else {
        return Ok(());
    };
    if !is_read_fault(fault) {
        return Err(fault);
    }
    set_aside(alloc, mirror)?;
    resync_if_needed(alloc, mirror)
}

// Whether a member that was to give a sector could not be read.
fn is_read_fault(fault: ResyncFault) -> bool
    ensures { result ≡ is_read_fault fault }
{
    matches!(fault, ResyncFault::ReadFault(_, _))
}

// What members in sync do not give of marked chunks is listed on them, one after another.
fn set_aside<D: Device + Drop>(alloc: Global, mirror: &mut Mirror<D>) -> Result<(), ResyncFault>
    requires running { mirror.old.array.halted ≡ false }
    requires sound { IsConsistent mirror.old }
    ensures gives { MatchResult result
        (λ _. (ks : List ℕ) × SetsAside ks mirror.old mirror.new)
        (FailsAside mirror.old mirror.new) }
    ensures sound { IsConsistent mirror.new }
{
    for k in 0..mirror.members() {
        if !mirror.state(k).is_in_sync() {
            continue;
        }
        set_aside_on(alloc, mirror, k)?;
    }
    Ok(())
}

// What member k, which is in sync, does not give of marked chunks is listed on it.
fn set_aside_on<D: Device + Drop>(
    alloc: Global,
    mirror: &mut Mirror<D>,
    k: usize,
) -> Result<(), ResyncFault>
    requires within { k < length mirror.old.array.members }
    requires in_sync { (m : MemberView) → IsMember mirror.old.array k m → is_in_sync m.state ≡ true }
    requires running { mirror.old.array.halted ≡ false }
    requires sound { IsConsistent mirror.old }
    ensures gives { MatchResult result
        (λ _. SetsAsideOn k mirror.old mirror.new)
        (FailsAsideOn k mirror.old mirror.new) }
    ensures running { OnOk result (mirror.new.array.halted ≡ false) }
    ensures members { OnOk result (length mirror.new.array.members ≡ length mirror.old.array.members) }
    ensures sound { IsConsistent mirror.new }
{
    let mut not_given = BadSet::new(alloc);
    if ask_marked(mirror, k, &mut not_given).is_err() {
        return Err(ResyncFault::NoMemory);
    }
    if not_given.is_empty() {
        return Ok(());
    }
    if mirror.regard_as_bad(alloc, k, &not_given).is_err() {
        return Err(ResyncFault::NoMemory);
    }
    store_if_fitting(mirror, k)
}

// Asks member k for the sectors of the marked chunks. Those that it does not give, each asked for alone, join the others.
fn ask_marked<D: Device + Drop>(
    mirror: &mut Mirror<D>,
    k: usize,
    not_given: &mut BadSet,
) -> Result<(), AllocError>
    requires within { k < length mirror.old.array.members }
    requires sound { IsConsistent mirror.old }
    requires canonical { IsCanonical not_given.old }
    ensures rests { Rests mirror.old mirror.new }
    ensures found { FindsUngiven k not_given.old not_given.new mirror.old mirror.new }
    ensures canonical { IsCanonical not_given.new }
    ensures sound { IsConsistent mirror.new }
{
    let size = mirror.chunks().size;
    let mut sector = 0;
    while sector < size {
        sector = ask_if_marked(mirror, k, sector, not_given)?;
    }
    Ok(())
}

// Asks it for the next sectors of this chunk at once, if it is marked, and for each of them alone if it does not give them all.
// A chunk without a mark is passed. Answers where to go on.
fn ask_if_marked<D: Device + Drop>(
    mirror: &mut Mirror<D>,
    k: usize,
    sector: u64,
    not_given: &mut BadSet,
) -> Result<u64, AllocError>
    requires within { k < length mirror.old.array.members }
    requires inside { sector < mirror.old.array.chunks.size }
    requires sound { IsConsistent mirror.old }
    requires canonical { IsCanonical not_given.old }
    ensures rests { Rests mirror.old mirror.new }
    ensures above { IfOk result (λ next. sector < next) }
    ensures found { FindsUngiven k not_given.old not_given.new mirror.old mirror.new }
    ensures canonical { IsCanonical not_given.new }
    ensures sound { IsConsistent mirror.new }
{
    let chunks = mirror.chunks();
    let chunk = chunks.chunk_of(sector);
    let (start, sectors) = chunks.range(chunk);
    let end = start + sectors;
    if !mirror.marks().is_marked(chunk) {
        return Ok(end);
    }
    let next = sector + AT_ONCE.min(end - sector);
    if gives(mirror, k, sector, next - sector) {
        return Ok(next);
    }
    ask_alone(mirror, k, sector, next, not_given)?;
    Ok(next)
}

// Asks it for each sector from one on up to another alone. Those that it does not give join the others.
fn ask_alone<D: Device + Drop>(
    mirror: &mut Mirror<D>,
    k: usize,
    from: u64,
    end: u64,
    not_given: &mut BadSet,
) -> Result<(), AllocError>
    requires within { k < length mirror.old.array.members }
    requires marked { (s : ℕ) → from ≤ s → s < end → IsInMarkedChunk mirror.old.array s }
    requires sound { IsConsistent mirror.old }
    requires canonical { IsCanonical not_given.old }
    ensures rests { Rests mirror.old mirror.new }
    ensures found { FindsUngiven k not_given.old not_given.new mirror.old mirror.new }
    ensures canonical { IsCanonical not_given.new }
    ensures sound { IsConsistent mirror.new }
{
    for sector in from..end {
        if gives(mirror, k, sector, 1) {
            continue;
        }
        not_given.add(sector, 1)?;
    }
    Ok(())
}

// Whether member k gives these sectors if it is asked for them at once.
fn gives<D: Device + Drop>(mirror: &mut Mirror<D>, k: usize, sector: u64, sectors: u64) -> bool
    requires within { k < length mirror.old.array.members }
    requires few { sectors ≤ 128 }
    requires inside { sector + sectors ≤ mirror.old.array.chunks.size }
    requires sound { IsConsistent mirror.old }
    ensures rests { Rests mirror.old mirror.new }
    ensures asked { result ≡ false → HasReadFailed k sector sectors mirror.old mirror.new }
    ensures sound { IsConsistent mirror.new }
{
    let mut bytes = [0; 512 * AT_ONCE as usize];
    mirror
        .read_data(k, sector, &mut bytes[..512 * sectors as usize])
        .is_ok()
}

// Stores the list of member k, which is in sync, where its log has room for it, once superblocks that are due are stored. Takes no
// memory.
fn store_if_fitting<D: Device + Drop>(mirror: &mut Mirror<D>, k: usize) -> Result<(), ResyncFault>
    requires within { k < length mirror.old.array.members }
    requires in_sync { (m : MemberView) → IsMember mirror.old.array k m → is_in_sync m.state ≡ true }
    requires running { mirror.old.array.halted ≡ false }
    requires sound { IsConsistent mirror.old }
    ensures gives { MatchResult result
        (λ _. StoresIfFitting k mirror.old mirror.new)
        (FailsToStoreFitting k mirror.old mirror.new) }
    ensures running { OnOk result (mirror.new.array.halted ≡ false) }
    ensures members { OnOk result (length mirror.new.array.members ≡ length mirror.old.array.members) }
    ensures sound { IsConsistent mirror.new }
{
    if mirror.bad(k).entries_needed() > log_room(mirror.own(k)) {
        return Ok(());
    }
    match store_with_due(mirror, k) {
        Ok(()) => Ok(()),
        Err(PartFault::Halted) => Err(ResyncFault::Halted),
        Err(PartFault::MemberFailed(j)) => Err(ResyncFault::MemberFailed(j)),
    }
}

// Stores superblocks of members in sync that are due, and then the list of member k.
fn store_with_due<D: Device + Drop>(mirror: &mut Mirror<D>, k: usize) -> Result<(), PartFault>
    requires within { k < length mirror.old.array.members }
    requires in_sync { (m : MemberView) → IsMember mirror.old.array k m → is_in_sync m.state ≡ true }
    requires room { HasRoomForList k mirror.old.array }
    requires running { mirror.old.array.halted ≡ false }
    requires sound { IsConsistent mirror.old }
    ensures gives { MatchResult result
        (λ _. StoresListThen k mirror.old mirror.new)
        (FailsAtPart k mirror.old mirror.new) }
    ensures sound { IsConsistent mirror.new }
{
    store_records(mirror)?;
    store_list(mirror, k)
}

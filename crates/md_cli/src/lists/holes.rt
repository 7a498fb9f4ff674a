// What the copies of members lack, as their maps say, counts as part of the members' lists.
ghost use Rattle.std.specs.Prelude.{◌≡◌, ◌↔◌, ◌<◌, ℕ, IfOk, MatchResult, false, length, true};
ghost use Rattle.md_badblocks.specs.Runs.{IsBad};
ghost use Rattle.md_kept_members.specs.View.{MemberView};
ghost use Rattle.md_state.specs.Members.{IsMember};
ghost use Rattle.md_array.specs.Consistency.{IsConsistent};
ghost use Rattle.md_words.specs.Asks.{array_ask, loss_of};
ghost use Rattle.md_cli.specs.Arrays.{disks};
ghost use Rattle.md_cli.specs.declared.lists.holes.BeforeResync.TheVariants.{Given};
ghost use Rattle.md_cli.specs.Lacking.{AreCountedAsListed, AreHoles, CountsBefore, FitsMore, IsLacking, LacksSome, OpensLacking, OverfillsLog, RefusesLackingImages, Regards, RegardsOne, before_resync, growth_of, is_sectors};

use crate::lists::given_sectors::given_sectors;
use crate::lists::marked_sectors::{marked_sectors, unmarked_sectors};
use crate::lists::trial_list::has_room_with;
use md_array::{Mirror, OpenFault};
use md_badblocks::BadSet;
use md_device::Device;
use md_kept_members::add_sectors;
use md_words::{ArrayCommand, Command, Loss};
use std::alloc::{AllocError, Global};

/// Which lists grow by what images lack where the array is to be resynced.
#[derive(Clone, Copy)]
pub(crate) enum BeforeResync {
    /// All of them: there is no resync, or what nobody gives is listed by all before a member comes into sync.
    All,
    /// All, but in marked chunks only by sectors that some member gives.
    Given,
    /// None.
    Nothing,
}

/// How lists grow by what images lack: whether each has to fit its log, and which of them grow before a resync.
#[derive(Clone, Copy)]
pub(crate) struct Growth {
    pub(crate) must_fit: bool,
    pub(crate) before_resync: BeforeResync,
}

/// Opens devices as a mirror. What the images lack, each by its map, counts then as part of the lists of the members in
/// sync, in memory alone: so a plan, a check and a copy leave it out. Where a resync is to come, what no member gives of marked chunks
/// does not count; but where sectors are listed on all members at the end it does, and each list has to fit its log, with room to
/// spare.
pub(crate) fn open_lacking<D: Device + Drop>(
    alloc: Global,
    command: ArrayCommand<'_>,
    lacking: &[BadSet],
    devices: Vec<D>,
) -> Result<Mirror<D>, (Vec<D>, OpenFault)>
    ensures gives { MatchResult result
        (OpensLacking (growth_of (array_ask command.entry)) lacking.now (disks D.Device devices.items))
        (λ e. RefusesLackingImages lacking.now
        (disks D.Device devices.items) (disks D.Device e.0.items) e.1) }
    ensures sound { IfOk result (λ m. IsConsistent m) }
{
    let mut mirror = Mirror::open(alloc, devices)?;
    match regard_lacked(alloc, &mut mirror, lacking, growth_of(command)) {
        Ok(()) => Ok(mirror),
        Err(_) => Err((mirror.into_devices(), OpenFault::NoMemory)),
    }
}

// How lists grow where this command is done.
fn growth_of(command: ArrayCommand<'_>) -> Growth
    ensures { result ≡ growth_of (array_ask command.entry) }
{
    Growth {
        must_fit: loses_sectors(command),
        before_resync: before_resync(command),
    }
}

/// Whether sectors are lost, and not their chunks.
pub(crate) fn loses_sectors(command: ArrayCommand<'_>) -> bool
    ensures { result ≡ is_sectors (loss_of (array_ask command.entry)) }
{
    match Command::Array(command).loss() {
        Some(Loss::Sectors) => true,
        _ => false,
    }
}

// Which lists grow where the array is to be resynced.
fn before_resync(command: ArrayCommand<'_>) -> BeforeResync
    ensures { result ≡ before_resync (array_ask command.entry) }
{
    match command {
        ArrayCommand::Assemble { .. } => BeforeResync::All,
        ArrayCommand::Detail { .. } => BeforeResync::All,
        ArrayCommand::Plan { .. } => BeforeResync::All,
        ArrayCommand::Check { .. } => BeforeResync::All,
        ArrayCommand::Rebuild {
            loss: Loss::Sectors,
            ..
        } => BeforeResync::All,
        ArrayCommand::Read { readonly: true, .. } => BeforeResync::Nothing,
        ArrayCommand::Serve { .. } => BeforeResync::Nothing,
        _ => BeforeResync::Given,
    }
}

// The list of each member in sync grows by what its image lacks, where it may.
fn regard_lacked<D: Device + Drop>(
    alloc: Global,
    mirror: &mut Mirror<D>,
    lacking: &[BadSet],
    how: Growth,
) -> Result<(), AllocError>
    requires sound { IsConsistent mirror.old }
    ensures gives { MatchResult result (λ _. Regards how lacking.now mirror.old mirror.new)
        (λ _. (k : ℕ) × IsLacking lacking.now mirror.old.array k) }
    ensures disks { mirror.new.disks ≡ mirror.old.disks }
    ensures sound { IsConsistent mirror.new }
{
    for k in 0..mirror.members() {
        regard_one(alloc, mirror, lacking, how, k)?;
    }
    Ok(())
}

// The list of member k, if it is in sync, grows by what its image lacks: by all that counts, where that fits its log; else before a resync
// by what of it lies in marked chunks.
fn regard_one<D: Device + Drop>(
    alloc: Global,
    mirror: &mut Mirror<D>,
    lacking: &[BadSet],
    how: Growth,
    k: usize,
) -> Result<(), AllocError>
    requires within { k < length mirror.old.array.members }
    requires sound { IsConsistent mirror.old }
    ensures gives { MatchResult result (λ _. RegardsOne how lacking.now k mirror.old mirror.new)
        (λ _. (mirror.new ≡ mirror.old) × IsLacking lacking.now mirror.old.array k) }
    ensures sound { IsConsistent mirror.new }
{
    if !is_lacking(mirror, lacking, k) {
        return Ok(());
    }
    let sectors = counted_sectors(alloc, mirror, lacking, how.before_resync, k)?;
    let fits = fits_log(alloc, mirror, how, k, &sectors)?;
    if fits {
        mirror.regard_as_bad(alloc, k, &sectors)?;
        return Ok(());
    }
    if mirror.resynced() {
        return Ok(());
    }
    let marked = marked_sectors(alloc, mirror, &sectors)?;
    mirror.regard_as_bad(alloc, k, &marked)?;
    Ok(())
}

// Whether the list of member k fits its log with these sectors, where it has to.
fn fits_log<D: Device + Drop>(
    alloc: Global,
    mirror: &Mirror<D>,
    how: Growth,
    k: usize,
    sectors: &BadSet,
) -> Result<bool, AllocError>
    requires within { k < length mirror.now.array.members }
    ensures room { IfOk result (λ fits. fits ≡ true → how.must_fit ≡ true → (m : MemberView)
        → IsMember mirror.now.array k m → FitsMore m sectors.now) }
    ensures must_fit { IfOk result (λ fits. fits ≡ false → how.must_fit ≡ true) }
    ensures full { IfOk result (λ fits. fits ≡ false → (m : MemberView) → IsMember mirror.now.array k m
        → OverfillsLog m sectors.now) }
{
    if !how.must_fit {
        return Ok(true);
    }
    has_room_with(alloc, mirror, k, sectors)
}

// The sectors of the array that the image of member k lacks, as far as they count as listed.
fn counted_sectors<D: Device + Drop>(
    alloc: Global,
    mirror: &Mirror<D>,
    lacking: &[BadSet],
    which: BeforeResync,
    k: usize,
) -> Result<BadSet, AllocError>
    requires within { k < length mirror.now.array.members }
    requires listed { k < length lacking.now }
    requires sound { IsConsistent mirror.now }
    ensures { IfOk result (λ sectors. (m : MemberView) → IsMember mirror.now.array k m
        → AreCountedAsListed which lacking.now mirror.now.array k m sectors) }
{
    let (offset, size) = (mirror.own(k).data_offset, mirror.chunks().size);
    let holes = lacked_sectors(alloc, &lacking[k], offset, size)?;
    if mirror.resynced() {
        return Ok(holes);
    }
    counted_before(alloc, mirror, lacking, which, holes)
}

// Which of these sectors count though the array is to be resynced.
fn counted_before<D: Device + Drop>(
    alloc: Global,
    mirror: &Mirror<D>,
    lacking: &[BadSet],
    which: BeforeResync,
    holes: BadSet,
) -> Result<BadSet, AllocError>
    requires sound { IsConsistent mirror.now }
    ensures { IfOk result (λ sectors. (s : ℕ) → IsBad sectors s
        ↔ (IsBad holes s × CountsBefore which lacking.now mirror.now.array s)) }
{
    match which {
        BeforeResync::All => Ok(holes),
        BeforeResync::Given => unmarked_or_given(alloc, mirror, lacking, &holes),
        BeforeResync::Nothing => Ok(BadSet::new(alloc)),
    }
}

// Which of these sectors do not lie in marked chunks, or are given by some member; of a lone member all.
fn unmarked_or_given<D: Device + Drop>(
    alloc: Global,
    mirror: &Mirror<D>,
    lacking: &[BadSet],
    holes: &BadSet,
) -> Result<BadSet, AllocError>
    requires sound { IsConsistent mirror.now }
    ensures { IfOk result (λ sectors. (s : ℕ) → IsBad sectors s
        ↔ (IsBad holes.now s × CountsBefore Given lacking.now mirror.now.array s)) }
{
    if !mirror.has_two_in_sync() {
        return holes.try_clone(alloc);
    }
    let mut sectors = unmarked_sectors(alloc, mirror, holes)?;
    let given = given_sectors(alloc, mirror, lacking, holes)?;
    add_sectors(&mut sectors, 0, &given)?;
    Ok(sectors)
}

/// Whether the image of member k, which is in sync, lacks a sector of the array.
pub(crate) fn is_lacking<D: Device + Drop>(mirror: &Mirror<D>, lacking: &[BadSet], k: usize) -> bool
    requires within { k < length mirror.now.array.members }
    ensures { (result ≡ true) ↔ IsLacking lacking.now mirror.now.array k }
{
    let Some(missing) = lacking.get(k) else {
        return false;
    };
    mirror.state(k).is_in_sync() && lacks_some(mirror, missing, k)
}

/// Whether some sector of the array is missing in the image of member k.
pub(crate) fn lacks_some<D: Device + Drop>(mirror: &Mirror<D>, missing: &BadSet, k: usize) -> bool
    requires within { k < length mirror.now.array.members }
    ensures { (m : MemberView) → IsMember mirror.now.array k m
        → (result ≡ true) ↔ LacksSome missing.now mirror.now.array m }
{
    missing.meets(mirror.own(k).data_offset, mirror.chunks().size)
}

// The sectors of the array, which begins at the offset, among those of an image.
fn lacked_sectors(
    alloc: Global,
    missing: &BadSet,
    offset: u64,
    size: u64,
) -> Result<BadSet, AllocError>
    ensures { IfOk result (AreHoles missing.now offset size) }
{
    let mut sectors = BadSet::new(alloc);
    for run in missing.runs() {
        let start = run.start.saturating_sub(offset);
        let end = run.end().saturating_sub(offset).min(size);
        sectors.add(start, end.saturating_sub(start))?;
    }
    Ok(sectors)
}

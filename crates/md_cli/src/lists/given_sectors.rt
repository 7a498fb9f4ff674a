// Which sectors of the array some member in sync gives.
ghost use Rattle.std.specs.Prelude.{◌↔◌, ◌⊎◌, ◌+◌, ◌<◌, ℕ, IfOk, OnOk, length};
ghost use Rattle.md_badblocks.specs.Runs.{IsBad, IsCanonical};
ghost use Rattle.md_kept_members.specs.View.{MemberView};
ghost use Rattle.md_state.specs.Members.{IsMember};
ghost use Rattle.md_cli.specs.Lacking.{GivesSector, IsGivenBySome, missing_at};

use md_array::Mirror;
use md_badblocks::BadSet;
use md_device::Device;
use md_kept_members::add_sectors;
use std::alloc::{AllocError, Global};

/// Which of these sectors of the array some member in sync gives: its list doesn't have them, and its image doesn't lack them.
pub(crate) fn given_sectors<D: Device + Drop>(
    alloc: Global,
    mirror: &Mirror<D>,
    lacking: &[BadSet],
    sectors: &BadSet,
) -> Result<BadSet, AllocError>
    ensures canonical { IfOk result IsCanonical }
    ensures given { IfOk result (λ given. (s : ℕ) → IsBad given s
        ↔ (IsBad sectors.now s × IsGivenBySome lacking.now mirror.now.array s)) }
{
    let mut given = BadSet::new(alloc);
    for j in 0..mirror.members() {
        add_given(alloc, &mut given, mirror, lacking, sectors, j)?;
    }
    Ok(given)
}

// Adds those of these sectors that member j gives.
fn add_given<D: Device + Drop>(
    alloc: Global,
    given: &mut BadSet,
    mirror: &Mirror<D>,
    lacking: &[BadSet],
    sectors: &BadSet,
    j: usize,
) -> Result<(), AllocError>
    requires within { j < length mirror.now.array.members }
    requires canonical { IsCanonical given.old }
    ensures canonical { IsCanonical given.new }
    ensures given { OnOk result ((s : ℕ) → IsBad given.new s
        ↔ (IsBad given.old s ⊎ (IsBad sectors.now s × GivesSector lacking.now mirror.now.array s j))) }
{
    if !mirror.state(j).is_in_sync() {
        return Ok(());
    }
    let part = sectors_there(alloc, mirror, lacking, sectors, j)?;
    add_sectors(given, 0, &part)
}

// Which of these sectors member j doesn't list, and its image doesn't lack.
fn sectors_there<D: Device + Drop>(
    alloc: Global,
    mirror: &Mirror<D>,
    lacking: &[BadSet],
    sectors: &BadSet,
    j: usize,
) -> Result<BadSet, AllocError>
    requires within { j < length mirror.now.array.members }
    ensures canonical { IfOk result IsCanonical }
    ensures there { (m : MemberView) → IsMember mirror.now.array j m → IfOk result (λ part. (s : ℕ)
        → IsBad part s ↔ (IsBad sectors.now s × (IsBad m.bad (m.superblock.data_offset + s) → ⊥)
        × (IsBad (missing_at lacking.now j) (m.superblock.data_offset + s) → ⊥))) }
{
    let offset = mirror.own(j).data_offset;
    let mut part = sectors.try_clone(alloc)?;
    remove_placed(&mut part, offset, mirror.bad(j))?;
    let Some(missing) = lacking.get(j) else {
        return Ok(part);
    };
    remove_placed(&mut part, offset, missing)?;
    Ok(part)
}

/// Takes the sectors of the array away that a list has of a device on which the array begins at the offset.
pub(crate) fn remove_placed(set: &mut BadSet, offset: u64, list: &BadSet) -> Result<(), AllocError>
    requires { IsCanonical set.old }
    ensures canonical { IsCanonical set.new }
    ensures left { OnOk result ((s : ℕ) → IsBad set.new s
        ↔ (IsBad set.old s × (IsBad list.now (offset + s) → ⊥))) }
{
    for run in list.runs() {
        let start = run.start.saturating_sub(offset);
        let end = run.end().saturating_sub(offset);
        set.remove(start, end.saturating_sub(start))?;
    }
    Ok(())
}

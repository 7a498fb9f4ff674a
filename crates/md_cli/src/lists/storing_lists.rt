// Lists that are longer in memory than in the logs are stored by a rebuild.
ghost use Rattle.std.specs.Prelude.{◌≡◌, ◌<◌, ◌≤◌, ℕ, MatchResult, OnOk, length, false, true};
ghost use Rattle.md_array.specs.Consistency.{IsConsistent};
ghost use Rattle.md_kept_members.specs.View.{MemberView};
ghost use Rattle.md_state.specs.Members.{IsInSync};
ghost use Rattle.md_state.specs.Steps.WriteMember.{IsNotDue};
ghost use Rattle.md_words.specs.Asks.{array_ask, loss_of};
ghost use Rattle.md_cli.specs.Lacking.{IsLacking, is_sectors};
ghost use Rattle.md_cli.specs.StoringLists.{FailsFrom, FailsListStore, FailsToReady, FailsToStoreDue, IsReadiedToStore, IsToReady, MayStore, ReadiesToStore, RefusesResyncFor, ResyncsFor, StoresDue, StoresEarly, StoresFrom, StoresOne, fault_of_part, stores_lists};

use crate::lists::holes::{is_lacking, loses_sectors};
use crate::lists::trial_list::usable_room;
use md_array::Mirror;
use md_badblocks::BadSet;
use md_commands::{resync_if_needed, resync_to_salvage};
use md_copy::RebuildFault;
use md_device::Device;
use md_metadata::{PartFault, store_list, store_records};
use md_refusals::CommandFault;
use md_resync::ResyncFault;
use md_words::ArrayCommand;
use std::alloc::Global;

// Whether the command stores lists.
fn stores_lists(command: ArrayCommand<'_>) -> bool
    ensures { result ≡ stores_lists (array_ask command.entry) }
{
    match command {
        ArrayCommand::Rebuild { .. } => true,
        _ => false,
    }
}

/// Whether the command stores lists, and may do so now: there is no resync to come, and all superblocks are stored.
pub(crate) fn stores_early<D: Device + Drop>(command: ArrayCommand<'_>, mirror: &Mirror<D>) -> bool
    ensures early { result ≡ true → StoresEarly (array_ask command.entry) mirror.now.array }
    ensures late { result ≡ false → StoresEarly (array_ask command.entry) mirror.now.array → ⊥ }
{
    if !stores_lists(command) {
        return false;
    }
    if !mirror.resynced() {
        return false;
    }
    is_none_due(mirror, mirror.members())
}

/// Makes an array ready for lists to be stored, where a command stores some: it is resynced if it has to be, and the superblocks of
/// members in sync that are due are stored.
pub(crate) fn ready_lists<D: Device + Drop>(
    alloc: Global,
    command: ArrayCommand<'_>,
    mirror: &mut Mirror<D>,
    lacking: &[BadSet],
) -> Result<(), CommandFault>
    requires sound { IsConsistent mirror.old }
    ensures gives { MatchResult result
        (λ _. ReadiesToStore (array_ask command.entry) lacking.now mirror.old mirror.new)
        (λ fault. IsToReady (array_ask command.entry) lacking.now mirror.old.array
        × FailsToReady (array_ask command.entry) mirror.old mirror.new fault) }
    ensures as_many { length mirror.new.disks ≡ length mirror.old.disks }
    ensures sound { OnOk result (IsConsistent mirror.new) }
{
    if !is_to_ready(command, mirror, lacking) {
        return Ok(());
    }
    resync_and_store_due(alloc, command, mirror)
}

// Whether the command stores lists, and may rebuild a member from copies that lack something.
fn is_to_ready<D: Device + Drop>(
    command: ArrayCommand<'_>,
    mirror: &Mirror<D>,
    lacking: &[BadSet],
) -> bool
    ensures yes { result ≡ true → IsToReady (array_ask command.entry) lacking.now mirror.now.array }
    ensures no { result ≡ false → IsToReady (array_ask command.entry) lacking.now mirror.now.array → ⊥ }
{
    if !stores_lists(command) {
        return false;
    }
    if !mirror.degraded() {
        return false;
    }
    is_some_lacking(mirror, lacking)
}

// Whether the image of some member in sync lacks a sector of the array.
fn is_some_lacking<D: Device + Drop>(mirror: &Mirror<D>, lacking: &[BadSet]) -> bool
    ensures some { result ≡ true → (k : ℕ) × IsLacking lacking.now mirror.now.array k }
    ensures none { result ≡ false → (k : ℕ) → IsLacking lacking.now mirror.now.array k → ⊥ }
{
    for k in 0..mirror.members() {
        if is_lacking(mirror, lacking, k) {
            return true;
        }
    }
    false
}

// The array is resynced if it has to be, and then superblocks of members in sync that are due are stored.
fn resync_and_store_due<D: Device + Drop>(
    alloc: Global,
    command: ArrayCommand<'_>,
    mirror: &mut Mirror<D>,
) -> Result<(), CommandFault>
    requires sound { IsConsistent mirror.old }
    ensures gives { MatchResult result
        (λ _. IsReadiedToStore (array_ask command.entry) mirror.old mirror.new)
        (FailsToReady (array_ask command.entry) mirror.old mirror.new) }
    ensures as_many { length mirror.new.disks ≡ length mirror.old.disks }
    ensures sound { OnOk result (IsConsistent mirror.new) }
{
    resync_for(alloc, command, mirror).map_err(CommandFault::Resync)?;
    store_due(mirror)
}

// The array is resynced if it has to be. For a salvage a sector that can't be read does not end that.
fn resync_for<D: Device + Drop>(
    alloc: Global,
    command: ArrayCommand<'_>,
    mirror: &mut Mirror<D>,
) -> Result<(), ResyncFault>
    requires sound { IsConsistent mirror.old }
    ensures gives { MatchResult result
        (λ _. ResyncsFor (is_sectors (loss_of (array_ask command.entry))) mirror.old mirror.new)
        (RefusesResyncFor (is_sectors (loss_of (array_ask command.entry))) mirror.old mirror.new) }
    ensures as_many { length mirror.new.disks ≡ length mirror.old.disks }
    ensures sound { IsConsistent mirror.new }
{
    if loses_sectors(command) {
        return resync_to_salvage(alloc, mirror);
    }
    resync_if_needed(alloc, mirror)
}

// Superblocks of members in sync that are due are stored, while the mirror runs.
fn store_due<D: Device + Drop>(mirror: &mut Mirror<D>) -> Result<(), CommandFault>
    requires sound { IsConsistent mirror.old }
    ensures gives { MatchResult result (λ _. StoresDue mirror.old mirror.new)
        (FailsToStoreDue mirror.old mirror.new) }
    ensures as_many { length mirror.new.disks ≡ length mirror.old.disks }
    ensures sound { OnOk result (IsConsistent mirror.new) }
{
    if mirror.halted() {
        return Ok(());
    }
    match store_records(mirror) {
        Ok(()) => Ok(()),
        Err(why) => Err(CommandFault::Rebuild(fault_of_part(why))),
    }
}

// The fault of a rebuild that could not store a part of a member.
fn fault_of_part(why: PartFault) -> RebuildFault
    ensures { result ≡ fault_of_part why }
{
    match why {
        PartFault::MemberFailed(k) => RebuildFault::MetadataFault(k),
        PartFault::Halted => RebuildFault::Halted,
    }
}

/// Stores the list of each member in sync whose image lacks some sector of the array, where its log has room to spare. A
/// write that fails ends it. Takes no memory.
pub(crate) fn store_lists<D: Device + Drop>(
    mirror: &mut Mirror<D>,
    lacking: &[BadSet],
) -> Result<(), CommandFault>
    requires sound { IsConsistent mirror.old }
    ensures gives { MatchResult result (λ _. StoresFrom lacking.now 0 mirror.old mirror.new)
        (λ fault. FailsFrom lacking.now fault 0 mirror.old mirror.new) }
    ensures as_many { length mirror.new.disks ≡ length mirror.old.disks }
    ensures sound { OnOk result (IsConsistent mirror.new) }
{
    for k in 0..mirror.members() {
        store_one(mirror, lacking, k)?;
    }
    Ok(())
}

// Stores the list of member k, where it may.
fn store_one<D: Device + Drop>(
    mirror: &mut Mirror<D>,
    lacking: &[BadSet],
    k: usize,
) -> Result<(), CommandFault>
    requires within { k < length mirror.old.array.members }
    requires sound { IsConsistent mirror.old }
    ensures gives { MatchResult result (λ _. StoresOne lacking.now k mirror.old mirror.new)
        (λ fault. FailsListStore lacking.now k mirror.old mirror.new fault) }
    ensures members { OnOk result (length mirror.new.array.members ≡ length mirror.old.array.members) }
    ensures as_many { length mirror.new.disks ≡ length mirror.old.disks }
    ensures sound { OnOk result (IsConsistent mirror.new) }
{
    if !may_store(mirror, lacking, k) {
        return Ok(());
    }
    match store_list(mirror, k) {
        Ok(()) => Ok(()),
        Err(_) => Err(CommandFault::Rebuild(RebuildFault::MetadataFault(k))),
    }
}

// Whether the list of member k may be stored.
fn may_store<D: Device + Drop>(mirror: &Mirror<D>, lacking: &[BadSet], k: usize) -> bool
    requires within { k < length mirror.now.array.members }
    ensures may { result ≡ true → MayStore lacking.now mirror.now.array k }
    ensures may_not { result ≡ false → MayStore lacking.now mirror.now.array k → ⊥ }
{
    if mirror.halted() {
        return false;
    }
    if !is_lacking(mirror, lacking, k) {
        return false;
    }
    if mirror.bad(k).entries_needed() > usable_room(mirror.own(k)) {
        return false;
    }
    is_none_due(mirror, k)
}

// Whether no superblock of a member in sync before this one is due.
fn is_none_due<D: Device + Drop>(mirror: &Mirror<D>, k: usize) -> bool
    requires within { k ≤ length mirror.now.array.members }
    ensures none { result ≡ true
        → (j : ℕ) (m : MemberView) → j < k → IsInSync mirror.now.array j m → IsNotDue m }
    ensures some { result ≡ false
        → (j : ℕ) × (m : MemberView) × (j < k) × IsInSync mirror.now.array j m × (m.due ≡ true) }
{
    for j in 0..k {
        if mirror.due(j) && mirror.state(j).is_in_sync() {
            return false;
        }
    }
    true
}

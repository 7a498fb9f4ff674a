// The member that a resync copies sectors from, and reading them from it.
ghost use Rattle.std.specs.Prelude.{◌≡◌, ◌+◌, ◌*◌, ◌/◌, ◌%◌, ◌<◌, ◌≤◌, MatchResult, length};
ghost use Rattle.md_array.specs.Consistency.{IsConsistent};
ghost use Rattle.md_read.specs.Unresynced.{AllFrom, GivesFirstPart, GivesNoPart, GivesPartFront, IsSectorMarked, IsSourceOfSectors, TriesSource};

use crate::roles::{lists_all, lists_some, member_in};
use crate::unresynced_fault::UnresyncedFault;
use md_array::Mirror;
use md_device::Device;

/// The member that a resync copies some sectors from.
#[derive(Clone, Copy)]
pub(crate) enum Source {
    /// All of them are copied from this one.
    Member(usize),
    /// All members in sync list all of them, so that none is copied.
    Nobody,
    /// It is not the same for all of them.
    Several,
}

/// What came of reading some sectors from that member.
#[derive(Clone, Copy)]
pub(crate) enum SourceAnswer {
    /// It gave all of them.
    All,
    /// There is none: all members in sync list all of them.
    Nothing,
    /// There is one sector alone. It is this member, and a read of it failed.
    Failed(usize),
    /// There are several, and it is not the same for all of them, or a read of them failed: of fewer it may give some.
    Several,
}

// The member that a resync copies these sectors from: the one in sync of the lowest role that lists none of them, where all
// of lower roles list all of them.
fn source_of<D: Device + Drop>(mirror: &Mirror<D>, sector: u64, sectors: u64) -> Source
    requires some { 0 < sectors }
    requires sound { IsConsistent mirror.now }
    ensures { IsSourceOfSectors sector sectors mirror.now.array result }
{
    for role in 0..mirror.shared().raid_disks {
        if let Some(k) = member_in(mirror, role) {
            if !lists_some(mirror, k, sector, sectors) {
                return Source::Member(k);
            }
            if !lists_all(mirror, k, sector, sectors) {
                return Source::Several;
            }
        }
    }
    Source::Nobody
}

// Reads these sectors from it. Where a read of several failed, the first of them may be given yet.
#[tactic(auto, using(md_laws::proofs::Runs::Rests::rests_same))]
fn read_source<D: Device + Drop>(
    mirror: &mut Mirror<D>,
    sector: u64,
    buf: &mut [u8],
) -> SourceAnswer
    requires some { 512 ≤ length buf.old }
    requires whole { length buf.old % 512 ≡ 0 }
    requires inside { sector + length buf.old / 512 ≤ mirror.old.array.chunks.size }
    requires sound { IsConsistent mirror.old }
    ensures { TriesSource sector buf.old buf.new mirror.old mirror.new result }
{
    let sectors = buf.len() as u64 / 512;
    match source_of(mirror, sector, sectors) {
        Source::Nobody => SourceAnswer::Nothing,
        Source::Several => SourceAnswer::Several,
        Source::Member(k) => match mirror.read_data(k, sector, buf) {
            Ok(()) => SourceAnswer::All,
            Err(_) => {
                if sectors == 1 {
                    return SourceAnswer::Failed(k);
                }
                SourceAnswer::Several
            }
        },
    }
}

/// Reads sectors of marked chunks from the members that a resync copies them from: all of these, or the first alone. The
/// answer is how many.
pub(crate) fn read_marked<D: Device + Drop>(
    mirror: &mut Mirror<D>,
    sector: u64,
    buf: &mut [u8],
) -> Result<u64, UnresyncedFault>
    requires some { 512 ≤ length buf.old }
    requires whole { length buf.old % 512 ≡ 0 }
    requires inside { sector + length buf.old / 512 ≤ mirror.old.array.chunks.size }
    requires sound { IsConsistent mirror.old }
    requires marked { AllFrom sector (length buf.old / 512) (IsSectorMarked mirror.old.array) }
    ensures { MatchResult result (GivesPartFront sector buf.old buf.new mirror.old mirror.new) (GivesNoPart sector mirror.old mirror.new) }
{
    let sectors = buf.len() as u64 / 512;
    match read_source(mirror, sector, buf) {
        SourceAnswer::All => Ok(sectors),
        SourceAnswer::Nothing => Err(UnresyncedFault::Unreadable(sector)),
        SourceAnswer::Failed(k) => Err(UnresyncedFault::ReadFault(k, sector)),
        SourceAnswer::Several => read_first(mirror, sector, buf),
    }
}

// Reads the first of these sectors alone.
fn read_first<D: Device + Drop>(
    mirror: &mut Mirror<D>,
    sector: u64,
    buf: &mut [u8],
) -> Result<u64, UnresyncedFault>
    requires some { 512 ≤ length buf.old }
    requires whole { length buf.old % 512 ≡ 0 }
    requires inside { sector + length buf.old / 512 ≤ mirror.old.array.chunks.size }
    requires sound { IsConsistent mirror.old }
    requires marked { IsSectorMarked mirror.old.array sector }
    ensures { MatchResult result (GivesFirstPart sector buf.new mirror.old mirror.new) (GivesNoPart sector mirror.old mirror.new) }
{
    match read_source(mirror, sector, &mut buf[..512]) {
        SourceAnswer::All => Ok(1),
        SourceAnswer::Nothing => Err(UnresyncedFault::Unreadable(sector)),
        SourceAnswer::Failed(k) => Err(UnresyncedFault::ReadFault(k, sector)),
        SourceAnswer::Several => unreachable!(),
    }
}

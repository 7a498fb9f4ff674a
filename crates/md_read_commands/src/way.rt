// How sectors of an array are read: of one that is resynced, and of one that is not.
ghost use Rattle.std.specs.Prelude.{◌≡◌, ◌%◌, ◌/◌, MatchResult, length};
ghost use Rattle.md_inflight.specs.Requests.Pending.{PendingView};
ghost use Rattle.md_state.specs.Requests.{IsPending};
ghost use Rattle.md_array.specs.Consistency.{IsConsistent};
ghost use Rattle.md_read_commands.specs.declared.way.Way.TheVariants.{Resynced, Unresynced};
ghost use Rattle.md_read_commands.specs.Ways.{EndsReading, MayReadBy, ReadsBy};

use md_array::Mirror;
use md_device::Device;
use md_read::{UnreadFault, UnresyncedFault, read, read_unresynced};
use md_refusals::CommandFault;
use md_resync::ResyncFault;

/// How sectors of an array are read.
#[derive(Clone, Copy)]
pub(crate) enum Way {
    /// By `read`, since the array is resynced.
    Resynced,
    /// As they would be after a resync, by `read_unresynced`.
    Unresynced,
}

/// The first sector of a piece that was not read, and why.
#[derive(Drop)]
pub(crate) struct Unread {
    pub(crate) sector: u64,
    pub(crate) fault: CommandFault,
}

/// Reads a piece of the array in this way. Where it is not read whole the sectors before the first that was not stand in it.
pub(crate) fn read_by<D: Device + Drop>(
    mirror: &mut Mirror<D>,
    way: Way,
    sector: u64,
    piece: &mut [u8],
) -> Result<(), Unread>
    requires whole { length piece.old % 512 ≡ 0 }
    requires may { MayReadBy way mirror.old.array sector (length piece.old / 512) }
    requires sound { IsConsistent mirror.old }
    ensures gives { MatchResult result
        (λ _. ReadsBy way sector piece.new mirror.old mirror.new)
        (λ unread. EndsReading way sector unread.sector piece.new mirror.old mirror.new unread.fault) }
    ensures sound { IsConsistent mirror.new }
    ensures pending { (p : PendingView) → IsPending mirror.old.array p → IsPending mirror.new.array p }
{
    match way {
        Way::Resynced => read_resynced(mirror, sector, piece),
        Way::Unresynced => read_marked_too(mirror, sector, piece),
    }
}

// Reads a piece of an array that is resynced.
fn read_resynced<D: Device + Drop>(
    mirror: &mut Mirror<D>,
    sector: u64,
    piece: &mut [u8],
) -> Result<(), Unread>
    requires whole { length piece.old % 512 ≡ 0 }
    requires may { MayReadBy Resynced mirror.old.array sector (length piece.old / 512) }
    requires sound { IsConsistent mirror.old }
    ensures gives { MatchResult result
        (λ _. ReadsBy Resynced sector piece.new mirror.old mirror.new)
        (λ unread. EndsReading Resynced sector unread.sector piece.new mirror.old mirror.new unread.fault) }
    ensures sound { IsConsistent mirror.new }
    ensures pending { (p : PendingView) → IsPending mirror.old.array p → IsPending mirror.new.array p }
{
    match read(mirror, sector, piece) {
        Ok(()) => Ok(()),
        Err(UnreadFault::Unreadable(s)) => Err(Unread {
            sector: s,
            fault: CommandFault::Read(UnreadFault::Unreadable(s)),
        }),
        Err(_) => unreachable!(),
    }
}

// Reads a piece of an array that may not be.
fn read_marked_too<D: Device + Drop>(
    mirror: &mut Mirror<D>,
    sector: u64,
    piece: &mut [u8],
) -> Result<(), Unread>
    requires whole { length piece.old % 512 ≡ 0 }
    requires may { MayReadBy Unresynced mirror.old.array sector (length piece.old / 512) }
    requires sound { IsConsistent mirror.old }
    ensures gives { MatchResult result
        (λ _. ReadsBy Unresynced sector piece.new mirror.old mirror.new)
        (λ unread. EndsReading Unresynced sector unread.sector piece.new mirror.old mirror.new unread.fault) }
    ensures sound { IsConsistent mirror.new }
    ensures pending { (p : PendingView) → IsPending mirror.old.array p → IsPending mirror.new.array p }
{
    match read_unresynced(mirror, sector, piece) {
        Ok(()) => Ok(()),
        Err(UnresyncedFault::Unreadable(s)) => Err(Unread {
            sector: s,
            fault: CommandFault::Read(UnreadFault::Unreadable(s)),
        }),
        Err(UnresyncedFault::ReadFault(k, s)) => Err(Unread {
            sector: s,
            fault: CommandFault::Resync(ResyncFault::ReadFault(k, mirror.chunks().chunk_of(s))),
        }),
        Err(_) => unreachable!(),
    }
}

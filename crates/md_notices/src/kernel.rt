// Whether a kernel may be given an array as it stands.
ghost use Rattle.std.specs.Prelude.{◌≡◌, ◌<◌, length};
ghost use Rattle.md_kept_members.specs.View.{MemberView};
ghost use Rattle.md_state.specs.Members.{IsMember};
ghost use Rattle.md_streams.specs.Sink.{PutsOrFails};
ghost use Rattle.md_notices.specs.Kernel.{command_before, has_one, is_left_out, is_marked_below, marks_below, may_differ, unready_reason_text, reason_words, shows, told_by_one, unready_text, why_unready};

use md_array::Mirror;
use md_assembly::MemberState;
use md_device::Device;
use md_streams::{Sink, SinkFault};
use md_super::{CLEAN_OFFSET, FEATURE_RECOVERY_OFFSET, Superblock};

/// Why a kernel may not be given an array yet. What a copy lacks by its map is none of it: no member tells of that.
#[derive(Clone, Copy)]
pub enum Unready {
    /// Members in sync may differ in marked chunks, and a kernel would rebuild another first, and clear the marks.
    MayDiffer,
    /// The superblock of a member that is recovering tells of its role alone: mdadm starts no array so.
    ToldByOne,
    /// The superblock of a recovering member says that it has marked chunks. A kernel does not copy these, and no member tells
    /// whether a rebuild of this program has.
    SaysMarked,
    /// The array goes on without a member that is at most one event behind, and recovering by its own superblock: a kernel from
    /// before 2024 goes by that.
    LeftOut,
}

impl Unready {
    /// The command that is to be run first.
    pub fn command(self) -> &'static str
        ensures { result.now ≡ command_before self }
    {
        match self {
            Unready::MayDiffer => "resync",
            Unready::ToldByOne | Unready::SaysMarked => "rebuild",
            Unready::LeftOut => "add",
        }
    }

    fn words(self) -> &'static str
        ensures { result.now ≡ reason_words self }
    {
        match self {
            Unready::MayDiffer => {
                "run mdcli resync first: members in sync may differ, and it would rebuild another one before\n"
            }
            Unready::ToldByOne => {
                "run mdcli rebuild first: no other superblock tells of the recovering member's role yet\n"
            }
            Unready::SaysMarked => {
                "run mdcli rebuild first: it takes marked chunks before a recovery offset for copied\n"
            }
            Unready::LeftOut => {
                "run mdcli add first, of the faulty member: one from before 2024 takes it for recovering still\n"
            }
        }
    }
}

/// What is asked of a member.
#[derive(Clone, Copy)]
pub(crate) enum Sign {
    /// A kernel rebuilds it.
    Waiting,
    /// It is in sync, and by its superblock the array was not stopped in order.
    Unclean,
    /// It is in sync, and its superblock is as new as the array's.
    Newest,
    /// It is recovering, and its superblock is as new as the array's.
    Ahead,
    /// It is recovering, and its superblock says that it has a marked chunk.
    Saying,
    /// It is left out, and an older kernel takes it.
    LeftOut,
}

/// Why a kernel may not be given the array, as it was opened or stopped: the first of these reasons. Of an array that this
/// program changed otherwise since it was opened, the superblocks that were read may be older than those that stand there. It takes no memory.
pub fn unready_for_kernel<D: Device + Drop>(mirror: &Mirror<D>) -> Option<Unready>
    ensures { result ≡ why_unready mirror.now.array }
{
    if may_differ(mirror) {
        Some(Unready::MayDiffer)
    } else if told_by_one(mirror) {
        Some(Unready::ToldByOne)
    } else if has_one(mirror, Sign::Saying) {
        Some(Unready::SaysMarked)
    } else if has_one(mirror, Sign::LeftOut) {
        Some(Unready::LeftOut)
    } else {
        None
    }
}

fn may_differ<D: Device + Drop>(mirror: &Mirror<D>) -> bool
    ensures { result ≡ may_differ mirror.now.array }
{
    !mirror.resynced() && has_one(mirror, Sign::Waiting) && has_one(mirror, Sign::Unclean)
}

fn told_by_one<D: Device + Drop>(mirror: &Mirror<D>) -> bool
    ensures { result ≡ told_by_one mirror.now.array }
{
    has_one(mirror, Sign::Ahead) && !has_one(mirror, Sign::Newest)
}

// Whether a member shows it.
fn has_one<D: Device + Drop>(mirror: &Mirror<D>, sign: Sign) -> bool
    ensures { result ≡ has_one mirror.now.array sign }
{
    for k in 0..mirror.members() {
        if shows(mirror, k, sign) {
            return true;
        }
    }
    false
}

fn shows<D: Device + Drop>(mirror: &Mirror<D>, k: usize, sign: Sign) -> bool
    requires { k < length mirror.now.array.members }
    ensures { (m : MemberView) → IsMember mirror.now.array k m → result ≡ shows mirror.now.array sign m }
{
    let state = mirror.state(k);
    let own = mirror.own(k);
    match sign {
        Sign::Waiting => state.is_recovering() || state.is_spare(),
        Sign::Unclean => state.is_in_sync() && own.resync_offset != CLEAN_OFFSET,
        Sign::Newest => state.is_in_sync() && !mirror.due(k),
        Sign::Ahead => state.is_recovering() && !mirror.due(k),
        Sign::Saying => state.is_recovering() && is_marked_below(mirror, own.recovery_offset),
        Sign::LeftOut => is_left_out(mirror.shared(), state, own),
    }
}

// Whether a chunk is marked that begins before the sector.
#[tactic(auto, using(crate::proofs::Below::below_more, crate::proofs::Below::below_at))]
fn is_marked_below<D: Device + Drop>(mirror: &Mirror<D>, sector: u64) -> bool
    ensures { result ≡ is_marked_below mirror.now.array sector }
{
    for chunk in 0..mirror.marks().chunks() {
        if marks_below(mirror, sector, chunk) {
            return true;
        }
    }
    false
}

fn marks_below<D: Device + Drop>(mirror: &Mirror<D>, sector: u64, chunk: u32) -> bool
    requires { chunk < mirror.now.array.marks.chunks }
    ensures { result ≡ marks_below mirror.now.array sector chunk }
{
    mirror.marks().is_marked(chunk)
        && u64::from(chunk) * u64::from(mirror.chunks().sectors) < sector
}

// Whether a device in this state is out, and by its own superblock recovering in a role, in part rebuilt, and at most one event behind.
fn is_left_out(shared: &Superblock, state: MemberState, own: &Superblock) -> bool
    ensures { result ≡ is_left_out shared.now state own.now }
{
    matches!(state, MemberState::Faulty)
        && u32::from(own.role_of(own.dev_number)) < own.raid_disks
        && own.feature_map & FEATURE_RECOVERY_OFFSET != 0
        && own.recovery_offset > 0
        && shared.events.saturating_sub(1) <= own.events
}

fn put_unready<S: Sink>(out: &mut S, why: Unready) -> Result<(), SinkFault>
    ensures { PutsOrFails S.contents S.failed out.old out.new (unready_reason_text why) result }
{
    out.put(b"mdcli: not ready for a kernel: ")?;
    out.put(why.words().as_bytes())?;
    Ok(())
}

/// Says that a kernel may not be given the array yet, and what is to be run first, where there is a reason.
pub fn unready_line<S: Sink>(out: &mut S, why: Option<Unready>) -> Result<(), SinkFault>
    ensures { PutsOrFails S.contents S.failed out.old out.new (unready_text why) result }
{
    match why {
        Some(why) => put_unready(out, why),
        None => out.put(b""),
    }
}

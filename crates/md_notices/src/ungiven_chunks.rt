// Chunks that a member lacks and that no member in sync gives whole, by their lists.
ghost use Rattle.std.specs.Prelude.{◌≡◌, ◌+◌, ◌<◌, ◌&&◌, MatchBool, Some, length, option_map, slice_get};
ghost use Rattle.std.specs.Int.{div_ceil};
ghost use Rattle.std.specs.List.{list_all};
ghost use Rattle.md_array.specs.Consistency.{IsConsistent};
ghost use Rattle.md_kept_members.specs.View.{MemberView};
ghost use Rattle.md_state.specs.Members.{IsMember};
ghost use Rattle.md_state.specs.Missing.{is_rebuilt};
ghost use Rattle.md_notices.specs.UngivenChunks.{chunks_ungiven, gives_no_whole, is_ungiven, lists_between, none_ungiven, ungiven_before};

use md_array::Mirror;
use md_assembly::MemberState;
use md_badblocks::BadSet;
use md_device::Device;

/// How many chunks a member lacks that no member in sync gives whole, and the first of them. A chunk has so many
/// sectors, and only the last one may be shorter.
#[derive(Clone, Copy)]
pub struct UngivenChunks {
    pub count: u32,
    pub first: Option<u32>,
    pub sectors: u32,
}

impl UngivenChunks {
    /// None.
    pub fn none() -> UngivenChunks
        ensures { result ≡ none_ungiven }
    {
        UngivenChunks {
            count: 0,
            first: None,
            sectors: 0,
        }
    }
}

/// How many chunks member k lacks that no member in sync gives whole, by their lists: a rebuild lists such a chunk as
/// bad. There are none where there is no member k, or where it may not be rebuilt. It takes no memory.
pub fn chunks_ungiven<D: Device + Drop>(mirror: &Mirror<D>, k: usize) -> UngivenChunks
    requires { IsConsistent mirror.now }
    ensures { result ≡ chunks_ungiven mirror.now.array (slice_get mirror.now.array.members k) }
{
    if k < mirror.members() && is_rebuilt(mirror.state(k)) {
        find_ungiven(mirror, k)
    } else {
        UngivenChunks::none()
    }
}

// Whether a member in this state may be rebuilt.
fn is_rebuilt(state: MemberState) -> bool
    ensures { result ≡ is_rebuilt state }
{
    match state {
        MemberState::Recovering(_) | MemberState::Spare => true,
        MemberState::InSync(_) | MemberState::Stale(_) | MemberState::Faulty => false,
    }
}

fn find_ungiven<D: Device + Drop>(mirror: &Mirror<D>, k: usize) -> UngivenChunks
    requires within { k < length mirror.now.array.members }
    requires sound { IsConsistent mirror.now }
    ensures { (m : MemberView) → IsMember mirror.now.array k m →
        result
        ≡ ungiven_before mirror.now.array m
        (div_ceil mirror.now.array.chunks.size mirror.now.array.chunks.sectors) }
{
    let mut count = 0;
    let mut first = None;
    for chunk in 0..mirror.chunks().count() {
        if is_ungiven(mirror, k, chunk) {
            count += 1;
            first = first.or(Some(chunk));
        }
    }
    UngivenChunks {
        count,
        first,
        sectors: mirror.chunks().sectors,
    }
}

// Whether member k lacks the chunk, and no member in sync gives it whole.
fn is_ungiven<D: Device + Drop>(mirror: &Mirror<D>, k: usize, chunk: u32) -> bool
    requires within { k < length mirror.now.array.members }
    requires sound { IsConsistent mirror.now }
    requires chunk { chunk < div_ceil mirror.now.array.chunks.size mirror.now.array.chunks.sectors }
    ensures { (m : MemberView) → IsMember mirror.now.array k m →
        result ≡ is_ungiven mirror.now.array m chunk }
{
    mirror.is_missing(k, chunk) && nobody_gives(mirror, chunk)
}

// Whether no member in sync gives the whole chunk.
fn nobody_gives<D: Device + Drop>(mirror: &Mirror<D>, chunk: u32) -> bool
    requires { chunk < div_ceil mirror.now.array.chunks.size mirror.now.array.chunks.sectors }
    ensures { result ≡ list_all (gives_no_whole mirror.now.array chunk) mirror.now.array.members }
{
    for k in 0..mirror.members() {
        if !gives_no_whole(mirror, k, chunk) {
            return false;
        }
    }
    true
}

// Whether member k lists a sector of the chunk, or is not in sync.
fn gives_no_whole<D: Device + Drop>(mirror: &Mirror<D>, k: usize, chunk: u32) -> bool
    requires within { k < length mirror.now.array.members }
    requires chunk { chunk < div_ceil mirror.now.array.chunks.size mirror.now.array.chunks.sectors }
    ensures { (m : MemberView) → IsMember mirror.now.array k m →
        result ≡ gives_no_whole mirror.now.array chunk m }
{
    if !mirror.state(k).is_in_sync() {
        return true;
    }
    let (start, sectors) = mirror.chunks().range(chunk);
    lists_between(mirror.bad(k), mirror.own(k).data_offset, start, sectors)
}

// Whether one of these sectors of the array is listed by a member whose data begin at the offset.
fn lists_between(bad: &BadSet, offset: u64, start: u64, sectors: u64) -> bool
    requires { 0 < sectors }
    ensures { result ≡ lists_between bad.now (offset + start) (offset + (start + sectors)) }
{
    if bad.runs().is_empty() {
        return false;
    }
    match offset.checked_add(start) {
        Some(first) => bad.meets(first, sectors),
        // No list has sectors from 2^54 on.
        None => false,
    }
}

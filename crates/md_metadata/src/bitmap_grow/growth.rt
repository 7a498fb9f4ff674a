// What each member gets.
ghost use Rattle.std.specs.Prelude.{◌≡◌, ◌≤◌, ◌<◌, ◌+◌, ◌-◌, ◌^◌, map, not, position, length, IfOk, MatchResult, Some, slice_get, ℕ, ◌⊎◌, ◌≢◌};
ghost use Rattle.std.specs.List.{list_any};
ghost use Rattle.md_bitmap.specs.Sound.{IsSoundHeader};
ghost use Rattle.md_super.specs.declared.superblock.Superblock.{Superblock as SuperblockView};
ghost use Rattle.md_create.specs.Values.{HasFirstMarks};
ghost use Rattle.md_assembly.specs.Assembled.{superblocks};
ghost use Rattle.md_assembly.specs.States.{is_in_sync};
ghost use Rattle.md_metadata.specs.Grow.Growth.{AreInSync, HasChunks, IsGrowth, IsMade, IsGrownHeader, RefusesInSync, RefusesGrowth, RefusesBitmapPlace, events_after, has_header, is_behind, is_clean, lacks_header, with_bitmap, with_place};
ghost use Rattle.md_metadata.specs.Grow.Places.{IsFirstPlace, reserved_for};

use crate::bitmap_grow::fault::GrowFault;
use crate::bitmap_grow::places::place_for;
use md_assembly::{AssembleFault, MemberState, assemble};
use md_bitmap::{BitmapHeader, Chunks, Marks, has_few_chunks, is_chunk_size, sectors_of_bitmap};
use md_members::MemberInfo;
use md_super::{CLEAN_OFFSET, FEATURE_BITMAP_OFFSET, SUPER_SECTOR, Superblock};
use std::alloc::{AllocError, Global};

// The seconds after which the bitmap's daemon wakes, as `mdadm` has it.
const DAEMON_SLEEP: u32 = 5;

/// What the members get: these as they are to be, where the fields of the array are `shared`, and a bitmap from sector `start` on.
#[derive(Drop)]
pub(crate) struct Growth {
    pub(crate) members: Vec<MemberInfo>,
    pub(crate) shared: Superblock,
    pub(crate) header: BitmapHeader,
    pub(crate) marks: Marks,
    pub(crate) start: u32,
}

/// What the members get that were read, or the first fault in them.
pub(crate) fn growth_of(
    alloc: Global,
    infos: Vec<MemberInfo>,
    chunk_bytes: u32,
) -> Result<Growth, GrowFault>
    ensures { MatchResult result (IsGrowth infos.items chunk_bytes) (RefusesGrowth infos.items chunk_bytes) }
{
    let (chunks, start) = place_of(&infos, chunk_bytes)?;
    let had = has_any_header(&infos);
    let lack = lacks_any_header(&infos);
    let header = new_header(superblock_at(&infos, 0), chunk_bytes, reserved_for(chunks));
    let members = with_bitmaps(alloc, infos, &header, start)?;
    let freshest = freshest_in_sync(alloc, &members, lack)?;
    let (shared, header, marks) = parts_of(alloc, &members, freshest, had, chunk_bytes, chunks)?;
    Ok(Growth {
        members,
        shared,
        header,
        marks,
        start,
    })
}

// How many chunks the array has, and where the bitmap comes.
fn place_of(infos: &[MemberInfo], chunk_bytes: u32) -> Result<(u32, u32), GrowFault>
    ensures { MatchResult result (λ p. HasChunks infos.now chunk_bytes p.0 × IsFirstPlace (reserved_for p.0) infos.now p.1)
        (RefusesBitmapPlace infos.now chunk_bytes) }
{
    let Some(first) = infos.first() else {
        return Err(GrowFault::Assemble(AssembleFault::Empty));
    };
    let size = first.superblock.size;
    if !is_chunk_size(chunk_bytes) {
        return Err(GrowFault::BadChunk);
    }
    if !has_few_chunks(size, chunk_bytes) {
        return Err(GrowFault::BadChunk);
    }
    let chunks = Chunks::new(size, chunk_bytes).count();
    match place_for(infos, reserved_for(chunks)) {
        Some(start) => Ok((chunks, start)),
        None => Err(GrowFault::NoRoom),
    }
}

// The sectors of the whole pages that hold a bitmap of so many chunks.
fn reserved_for(chunks: u32) -> u32
    requires { chunks ≤ 1048576 }
    ensures is { result ≡ reserved_for chunks }
    ensures few { result ≤ 264 }
{
    8 * sectors_of_bitmap(chunks).div_ceil(8)
}

fn has_any_header(infos: &[MemberInfo]) -> bool
    ensures { result ≡ list_any has_header infos.now }
{
    infos.iter().any(|info| info.header.is_some())
}

fn lacks_any_header(infos: &[MemberInfo]) -> bool
    ensures { result ≡ list_any lacks_header infos.now }
{
    infos.iter().any(|info| info.header.is_none())
}

// The header of each member's bitmap, beside these fields of the array.
fn new_header(shared: &Superblock, chunk_bytes: u32, reserved: u32) -> BitmapHeader
    requires { IsSoundHeader shared.now.size chunk_bytes }
    ensures { IsGrownHeader chunk_bytes reserved shared.now result }
{
    BitmapHeader {
        uuid: shared.set_uuid,
        events: shared.events,
        events_cleared: shared.events,
        sync_size: shared.size,
        state: 0,
        chunksize: chunk_bytes,
        daemon_sleep: DAEMON_SLEEP,
        write_behind: 0,
        sectors_reserved: reserved,
        nodes: 0,
        cluster_name: [0; 64],
    }
}

// The members as they are to be, but for the array's fields.
fn with_bitmaps(
    alloc: Global,
    infos: Vec<MemberInfo>,
    header: &BitmapHeader,
    start: u32,
) -> Result<Vec<MemberInfo>, AllocError>
    requires near { start ≤ 65536 }
    requires after_super { 8 ≤ start }
    ensures { IfOk result (λ members. members.items ≡ map (with_bitmap header.now start) infos.items) }
{
    let mut members = Vec::new(alloc);
    for info in infos {
        members.push(with_bitmap(info, header, start))?;
    }
    Ok(members)
}

fn with_bitmap(info: MemberInfo, header: &BitmapHeader, start: u32) -> MemberInfo
    requires near { start ≤ 65536 }
    requires after_super { 8 ≤ start }
    ensures { result ≡ with_bitmap header.now start info }
{
    let MemberInfo {
        sectors,
        mut superblock,
        marks,
        bad,
        ..
    } = info;
    place_bitmap(&mut superblock, start);
    MemberInfo {
        sectors,
        superblock,
        header: Some(*header),
        marks,
        bad,
    }
}

// The superblock names a bitmap that starts at this sector.
fn place_bitmap(own: &mut Superblock, start: u32)
    requires near { start ≤ 65536 }
    requires after_super { 8 ≤ start }
    ensures { own.new ≡ with_place start own.old }
{
    own.feature_map |= FEATURE_BITMAP_OFFSET;
    own.bitmap_offset = (start - SUPER_SECTOR as u32) as i32;
}

// The index of the member whose superblock decides, where all are in sync and some lacks a bitmap.
fn freshest_in_sync(
    alloc: Global,
    members: &[MemberInfo],
    some_lack: bool,
) -> Result<usize, GrowFault>
    ensures { MatchResult result (λ i. (v : SuperblockView) × AreInSync members.now some_lack i v) (RefusesInSync members.now some_lack) }
{
    let assembly = assemble(alloc, members)?;
    if !some_lack {
        return Err(GrowFault::HasBitmap);
    }
    match first_not_in_sync(&assembly.states) {
        Some(k) => Err(GrowFault::NotInSync(k)),
        None => Ok(assembly.freshest),
    }
}

// The index of the first member that is not in sync.
fn first_not_in_sync(states: &[MemberState]) -> Option<usize>
    ensures { result ≡ position (λ s. not (is_in_sync s)) states.now }
{
    states.iter().position(|state| !state.is_in_sync())
}

// The array's fields, the header and the marks that the members get, where the superblock of this one decides.
fn parts_of(
    alloc: Global,
    members: &[MemberInfo],
    freshest: usize,
    had: bool,
    chunk_bytes: u32,
    chunks: u32,
) -> Result<(Superblock, BitmapHeader, Marks), AllocError>
    requires within { freshest < length members.now }
    requires sound { (v : SuperblockView) → slice_get (superblocks members.now) freshest ≡ Some v → IsSoundHeader v.size chunk_bytes }
    requires few { chunks ≤ 1048576 }
    ensures { IfOk result (λ p. (v : SuperblockView) → slice_get (superblocks members.now) freshest ≡ Some v → IsMade had members.now chunk_bytes chunks v p.0 p.1 p.2) }
{
    let superblock = superblock_at(members, freshest);
    let marks = first_marks(alloc, superblock, chunks)?;
    let events = events_after(had, members, superblock.events);
    let shared = with_events(alloc, superblock, events)?;
    let header = new_header(&shared, chunk_bytes, reserved_for(chunks));
    Ok((shared, header, marks))
}

fn superblock_at(members: &[MemberInfo], k: usize) -> &Superblock
    requires { k < length members.now }
    ensures { slice_get (superblocks members.now) k ≡ Some result.now }
{
    &members[k].superblock
}

// A copy of a superblock, with another event count.
fn with_events(alloc: Global, v: &Superblock, events: u64) -> Result<Superblock, AllocError>
    ensures { IfOk result (λ copy. copy ≡ record v.now { events = events }) }
{
    let mut copy = v.try_clone(alloc)?;
    copy.events = events;
    Ok(copy)
}

// The event count that all get.
fn events_after(had: bool, members: &[MemberInfo], events: u64) -> u64
    ensures { result ≡ events_after had members.now events }
{
    if had || is_any_behind(members, events) {
        events
    } else {
        events.saturating_add(1)
    }
}

fn is_any_behind(members: &[MemberInfo], events: u64) -> bool
    ensures { result ≡ list_any (is_behind events) members.now }
{
    members
        .iter()
        .any(|member| member.superblock.events != events)
}

// The marks of each member: none where the array was stopped clean, else all.
fn first_marks(alloc: Global, v: &Superblock, chunks: u32) -> Result<Marks, AllocError>
    ensures { IfOk result (HasFirstMarks (is_clean v.now) chunks) }
{
    if v.resync_offset == CLEAN_OFFSET {
        Marks::none(alloc, chunks)
    } else {
        Marks::all(alloc, chunks)
    }
}

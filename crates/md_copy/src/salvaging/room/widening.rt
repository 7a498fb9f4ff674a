// Sectors that are listed beside the lost ones, so that they take fewer entries of a log.
ghost use Rattle.std.specs.Prelude.{◌≡◌, ◌+◌, ◌<◌, ℕ, IfOk, OnOk, true};
ghost use Rattle.std.specs.Int.{div_ceil};
ghost use Rattle.md_badblocks.specs.Runs.{IsCanonical};
ghost use Rattle.md_bitmap.specs.Marks.{is_set};
ghost use Rattle.md_copy.specs.Salvaging.Widened.{AreKeptTo, AreOthersTo, IsNotListed, TakesFewest};

use crate::salvaging::room::uniting::unite_runs;
use md_badblocks::BadSet;
use md_bitmap::{Chunks, Marks};
use std::alloc::{AllocError, Global};

/// The lost sectors of missing chunks with those between two of them, where fewer than `gap` lie between, or just as many
/// and the second is before `to`; as far as that saves an entry of a log, and none of a chunk that is not missing.
pub(crate) fn widen_lost(
    alloc: Global,
    chunks: Chunks,
    missing: &Marks,
    lost: &BadSet,
    gap: u64,
    to: u64,
) -> Result<BadSet, AllocError>
    requires { missing.now.chunks ≡ div_ceil chunks.size chunks.sectors }
    ensures { IfOk result (TakesFewest gap to chunks missing.now lost.now) }
{
    let mut kept = lost.try_clone(alloc)?;
    keep_within(&mut kept, chunks, missing)?;
    let others = list_others(alloc, chunks, missing)?;
    unite_runs(alloc, &kept, &others, gap, to)
}

// All sectors of chunks that are not in the set.
fn list_others(alloc: Global, chunks: Chunks, set: &Marks) -> Result<BadSet, AllocError>
    requires { set.now.chunks ≡ div_ceil chunks.size chunks.sectors }
    ensures { IfOk result (AreOthersTo set.now.chunks chunks set.now) }
{
    let mut list = BadSet::new(alloc);
    for chunk in 0..set.chunks() {
        list_other(&mut list, chunks, set, chunk)?;
    }
    Ok(list)
}

// The sectors of the chunk are added if it is not in the set.
fn list_other(list: &mut BadSet, chunks: Chunks, set: &Marks, chunk: u32) -> Result<(), AllocError>
    requires all { set.now.chunks ≡ div_ceil chunks.size chunks.sectors }
    requires within { chunk < set.now.chunks }
    requires before { AreOthersTo chunk chunks set.now list.old }
    ensures { OnOk result (AreOthersTo (chunk + 1) chunks set.now list.new) }
{
    if set.is_marked(chunk) {
        return Ok(());
    }
    let (start, sectors) = chunks.range(chunk);
    list.add(start, sectors)
}

// The sectors of chunks that are not in the set are taken away.
fn keep_within(list: &mut BadSet, chunks: Chunks, set: &Marks) -> Result<(), AllocError>
    requires all { set.now.chunks ≡ div_ceil chunks.size chunks.sectors }
    requires canonical { IsCanonical list.old }
    ensures { OnOk result (AreKeptTo set.now.chunks chunks set.now list.old list.new) }
{
    for chunk in 0..set.chunks() {
        if !set.is_marked(chunk) {
            let (start, sectors) = chunks.range(chunk);
            list.remove(start, sectors)?;
        }
    }
    Ok(())
}

/// A chunk of which a sector is to be listed is taken from the set: a whole chunk may lie between two lost sectors.
pub(crate) fn unmark_listed(chunks: Chunks, set: &mut Marks, listed: &BadSet)
    requires { set.old.chunks ≡ div_ceil chunks.size chunks.sectors }
    ensures chunks { set.new.chunks ≡ set.old.chunks }
    ensures unlisted { (c : ℕ) → c < set.old.chunks → is_set set.new.bytes c ≡ true → IsNotListed chunks listed.now c }
    ensures subset { (c : ℕ) → is_set set.new.bytes c ≡ true → is_set set.old.bytes c ≡ true }
{
    for chunk in 0..set.chunks() {
        let (start, sectors) = chunks.range(chunk);
        if listed.meets(start, sectors) {
            set.unmark(chunk);
        }
    }
}

// The map of an image of which sectors are lacking.
ghost use Rattle.std.specs.Prelude.{◌≡◌, ◌⊎◌, ◌↔◌, ◌+◌, ◌*◌, ◌^◌, ◌<◌, ◌≤◌, ◌++◌, ℕ, true, List, IfOk, OnOk, string_bytes};
ghost use Rattle.md_badblocks.specs.Runs.{IsBad};
ghost use Rattle.md_badblocks.specs.declared.run.Run.{Run};
ghost use Rattle.md_files.specs.Masks.Maps.Map.{IsMapReadAs};
ghost use Rattle.md_files.specs.Masks.Maps.Writing.{IsMapOfRead, ended, block_line, lines_text, rescued_between, status_text, map_text, untried_before};

use crate::masks::maps::line::Block;
use crate::masks::maps::lines_read::SECTOR;
use md_badblocks::BadSet;
use std::alloc::{AllocError, Global};

/// How many sectors a device has at most.
const MOST_SECTORS: u64 = 1 << 54;

/// The lines before those of the blocks.
const HEAD: &str = "# Mapfile. Created by mdcli
# current_pos  current_status  current_pass
0x00000000     +               1
#      pos        size  status
";

/// The text of ddrescue's map of an image of `size` bytes of which the sectors from `first` on were tried, and of these just the
/// missing ones are lacking.
pub fn write_map(
    alloc: Global,
    size: u64,
    first: u64,
    missing: &BadSet,
) -> Result<String, AllocError>
    requires limit { size ≤ 2 ^ 63 }
    requires start { 512 * first ≤ size }
    requires tried { (sector : ℕ) → IsBad missing.now sector → first ≤ sector }
    requires within { (sector : ℕ) → IsBad missing.now sector → 512 * sector < size }
    ensures text { IfOk result (λ text. string_bytes text ≡ map_text size (512 * first) missing.now) }

    // It is read as it was meant: what was not tried is lacking too.
    ensures read_back { IfOk result (λ text. (lacking : List Run)
        → ((sector : ℕ) → IsBad lacking sector ↔ ((sector < first) ⊎ IsBad missing.now sector))
        → IsMapReadAs size (string_bytes text) lacking) }
{
    let tried = SECTOR * first;
    let mut text = String::new(alloc);
    text.push_str(HEAD)?;
    push_untried(&mut text, tried)?;
    let mut from = tried;
    for run in missing.runs() {
        let start = SECTOR * run.start;
        let end = (SECTOR * (run.start + run.len)).min(size);
        push_rescued(&mut text, tried, from, start)?;
        let lost = Block {
            start,
            len: end - start,
            rescued: false,
        };
        push_block(&mut text, tried, lost)?;
        from = end;
    }
    push_rescued(&mut text, tried, from, size)?;
    Ok(text)
}

/// The text of ddrescue's map of an array of which `count` sectors from this one on were read, and of these just the missing ones
/// were not given. It goes up to the last of them, and those before the first were not tried.
pub fn write_map_of_read(
    alloc: Global,
    sector: u64,
    count: u64,
    mut missing: BadSet,
) -> Result<String, AllocError>
    ensures { IfOk result (λ text. IsMapOfRead sector count missing (string_bytes text)) }
{
    let end = sector.saturating_add(count).min(MOST_SECTORS);
    let first = sector.min(end);
    missing.remove(end, MOST_SECTORS - end)?;
    missing.remove(0, first)?;
    write_map(alloc, SECTOR * end, first, &missing)
}

/// Adds the bytes before this place, where there are some.
fn push_untried(text: &mut String, tried: u64) -> Result<(), AllocError>
    ensures { OnOk result (string_bytes text.new ≡ string_bytes text.old ++ lines_text tried (untried_before tried)) }
{
    if tried > 0 {
        let block = Block {
            start: 0,
            len: tried,
            rescued: false,
        };
        push_block(text, tried, block)?;
    }
    Ok(())
}

/// Adds the bytes between two places as rescued ones, where there are some.
fn push_rescued(text: &mut String, tried: u64, from: u64, to: u64) -> Result<(), AllocError>
    ensures { OnOk result (string_bytes text.new ≡ string_bytes text.old ++ lines_text tried (rescued_between from to)) }
{
    if from < to {
        let block = Block {
            start: from,
            len: to - from,
            rescued: true,
        };
        push_block(text, tried, block)?;
    }
    Ok(())
}

/// Adds the line of a block.
#[tactic(auto, unfolding(crate::specs::Masks::Maps::Writing::block_line, crate::specs::Masks::Maps::Writing::hexadecimal))]
fn push_block(text: &mut String, tried: u64, block: Block) -> Result<(), AllocError>
    ensures { OnOk result (string_bytes text.new ≡ string_bytes text.old ++ ended (block_line tried block)) }
{
    let Block {
        start,
        len,
        rescued,
    } = block;
    let status = status_text(rescued, start < tried);
    write!(text, "0x{start:08X}  0x{len:08X}  {status}")?;
    text.push_str("\n")
}

fn status_text(rescued: bool, untried: bool) -> &'static str
    ensures { result.now ≡ status_text rescued untried }
{
    if rescued {
        "+"
    } else if untried {
        "?"
    } else {
        "-"
    }
}

// What is read of a map, line by line.
ghost use Rattle.std.specs.Prelude.{◌≡◌, ◌+◌, ◌≤◌, ◌^◌, ◌⊎◌, ◌↔◌, ℕ, List, [], ◌∷◌, ◌++◌, IfOk, IfErr, IsOkAnd, OnOk};
ghost use Rattle.md_badblocks.specs.Runs.{IsBad};
ghost use Rattle.md_files.specs.Masks.Maps.Lines.{fields_of};
ghost use Rattle.md_files.specs.Masks.Maps.Rows.{IsLine, BlockEndsBy};
ghost use Rattle.md_files.specs.Masks.Maps.Map.{HasByte, IsLostIn};
ghost use Rattle.md_files.specs.Masks.Maps.Reading.{IsReadTo, IsUnfinished};

use crate::masks::maps::fault::MapFault;
use crate::masks::maps::line::{Block, Line};
use md_badblocks::BadSet;
use std::alloc::AllocError;

/// The bytes of a sector.
pub(crate) const SECTOR: u64 = 512;

/// What the lines so far say.
#[derive(Drop)]
pub(crate) struct Reading {
    /// Where the blocks end, if the status line has been.
    pub(crate) end: Option<u64>,
    /// The sectors that they lack, as far as there was memory for them.
    pub(crate) missing: Result<BadSet, AllocError>,
}

impl Reading {
    /// What the lines say with one more.
    pub(crate) fn after(self, line: Line) -> Reading
        requires { BlockEndsBy (2 ^ 63) line }
        ensures { (size : ℕ) → (lines : List (List ℕ)) → (bytes : List ℕ) → IsLine size self.end (fields_of bytes) line
            → IsReadTo size lines self.end self.missing
            → IsReadTo size (lines ++ bytes ∷ []) result.end result.missing }
    {
        let Reading { end, missing } = self;
        match line {
            Line::Blank => Reading { end, missing },
            Line::Status => Reading {
                end: Some(0),
                missing,
            },
            Line::Data(block) => Reading {
                end: Some(block.start + block.len),
                missing: with_block(missing, block),
            },
        }
    }

    /// What they say, where all lines were taken.
    pub(crate) fn finish(self, size: u64) -> Result<BadSet, MapFault>
        ensures ok { IfOk result (λ missing. (self.missing ≡ Ok missing) × ((e : ℕ) × (self.end ≡ Some e) × (size ≤ e))) }
        ensures err { IfErr result (λ fault. IsUnfinished size self.end fault) }
    {
        let Reading { end, missing } = self;
        let Some(end) = end else {
            return Err(MapFault::NoStatusLine);
        };
        if end < size {
            return Err(MapFault::EndsAt(end));
        }
        missing.map_err(|_| MapFault::NoMemory)
    }
}

/// The sectors with those of a block, where it is not rescued.
fn with_block(missing: Result<BadSet, AllocError>, block: Block) -> Result<BadSet, AllocError>
    requires { block.start + block.len ≤ 2 ^ 63 }
    ensures { IfOk result (λ new. IsOkAnd missing (λ old. (sector : ℕ) → IsBad new sector
        ↔ (IsBad old sector ⊎ IsLostIn block sector))) }
{
    let mut missing = missing?;
    if block.rescued {
        return Ok(missing);
    }
    add_bytes(&mut missing, block.start, block.len)?;
    Ok(missing)
}

/// Adds each sector that has one of the `len` bytes from `start` on.
fn add_bytes(sectors: &mut BadSet, start: u64, len: u64) -> Result<(), AllocError>
    requires { start + len ≤ 2 ^ 63 }
    ensures { OnOk result ((sector : ℕ) → IsBad sectors.new sector ↔ (IsBad sectors.old sector ⊎ HasByte start len sector)) }
{
    if len == 0 {
        return Ok(());
    }
    let first = start / SECTOR;
    let last = (start + len - 1) / SECTOR;
    sectors.add(first, last - first + 1)
}

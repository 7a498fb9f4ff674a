// A whole map.
ghost use Rattle.std.specs.Prelude.{◌≡◌, ◌≤◌, ◌^◌, List, position, IfOk, IfErr};
ghost use Rattle.md_files.specs.Masks.Maps.Lines.{is_line_feed};
ghost use Rattle.md_files.specs.Masks.Maps.Map.{IsMap, IsMapReadAs, IsMapRefused};
ghost use Rattle.md_files.specs.declared.masks.maps.line.Block.{Block};
ghost use Rattle.md_files.specs.declared.masks.maps.fault.MapFault.TheVariants.{NoMemory};

use crate::masks::maps::fault::{LineFault, MapFault};
use crate::masks::maps::line::read_line;
use crate::masks::maps::lines_read::Reading;
use md_badblocks::BadSet;
use std::alloc::Global;

/// Reads ddrescue's map of an image of `size` bytes: the sectors of which the image lacks a byte. The map is that of the whole
/// image and of no more.
pub fn read_map(alloc: Global, text: &[u8], size: u64) -> Result<BadSet, MapFault>
    requires { size ≤ 2 ^ 63 }
    ensures ok { IfOk result (λ missing. IsMapReadAs size text.now missing) }
    ensures err { IfErr result (λ fault. IsMapRefused size text.now fault) }

    // A map is refused only where there is no memory.
    ensures exact { IfErr result (λ fault. (blocks : List Block) → IsMap size text.now blocks → fault ≡ NoMemory) }
{
    let mut reading = Reading {
        end: None,
        missing: Ok(BadSet::new(alloc)),
    };
    let mut rest = text;
    let mut number = 1;
    while let Some(len) = line_len(rest) {
        match read_line(&rest[..len], reading.end, size) {
            Ok(line) => reading = reading.after(line),
            Err(fault) => return Err(MapFault::Line { number, fault }),
        }
        rest = &rest[len + 1..];
        number += 1;
    }
    if !rest.is_empty() {
        let fault = LineFault::Cut;
        return Err(MapFault::Line { number, fault });
    }
    reading.finish(size)
}

/// How many bytes come before the first line feed, if there is one.
pub(crate) fn line_len(text: &[u8]) -> Option<usize>
    ensures { result ≡ position is_line_feed text.now }
{
    text.iter().position(|b| *b == b'\n')
}

// What a line of a map says.
ghost use Rattle.std.specs.Prelude.{◌≡◌, ◌+◌, ◌≤◌, ◌^◌, ℕ, true, is_some, IfOk, IfErr, OnOk};
ghost use Rattle.md_files.specs.Masks.Maps.Lines.{fields_of};
ghost use Rattle.md_files.specs.Masks.Maps.Numbers.{is_positive, number_of, numeral};
ghost use Rattle.std.specs.Option.{option_copied};
ghost use Rattle.md_files.specs.Masks.Maps.Rows.{rescued_of, is_current_status, is_failed_status, pass_of, IsLine, place_fault, status_fault, block_fault, line_fault_of};

use crate::masks::maps::fault::LineFault;
use crate::masks::maps::fields::row_of;
use crate::masks::maps::numbers::{number_of, numeral};

/// Bytes of the image in a row: `len` of them, from `start` on, and whether they are rescued.
#[derive(Clone, Copy)]
pub struct Block {
    pub start: u64,
    pub len: u64,
    pub rescued: bool,
}

/// What a line says.
#[derive(Clone, Copy)]
pub(crate) enum Line {
    /// Nothing, or it is a comment.
    Blank,
    /// It is the status line.
    Status,
    Data(Block),
}

/// Reads a line that a line feed ends. The blocks before it end at `end`, if the status line has been.
pub(crate) fn read_line(line: &[u8], end: Option<u64>, size: u64) -> Result<Line, LineFault>
    requires { size ≤ 2 ^ 63 }
    ensures ok { IfOk result (λ is. IsLine size end (fields_of line.now) is) }
    ensures err { IfErr result (λ fault. line_fault_of size end (fields_of line.now) ≡ Some fault) }
{
    let Some(row) = row_of(line)? else {
        return Ok(Line::Blank);
    };
    let Some(from) = end else {
        read_status(row.first, row.second, row.third)?;
        return Ok(Line::Status);
    };
    let Some(status) = row.third else {
        return Err(LineFault::Fields);
    };
    let block = read_block(row.first, row.second, status)?;
    check_place(&block, from, size)?;
    Ok(Line::Data(block))
}

/// Takes a status line.
fn read_status(position: &[u8], status: &[u8], pass: Option<&[u8]>) -> Result<(), LineFault>
    ensures ok { OnOk result ((is_some (number_of position.now) ≡ true) × (is_current_status status.now ≡ true) × (is_positive (pass_of (option_copied pass.entry)) ≡ true)) }
    ensures err { IfErr result (λ fault. status_fault (number_of position.now) (is_current_status status.now) (pass_of (option_copied pass.entry)) ≡ Some fault) }
{
    if number_of(position).is_none() || !is_positive(pass_of(pass)) {
        return Err(LineFault::Number);
    }
    if !is_current_status(status) {
        return Err(LineFault::Status);
    }
    Ok(())
}

/// The pass that a status line says: where an older ddrescue wrote none, the first.
fn pass_of(pass: Option<&[u8]>) -> Option<u64>
    ensures { result ≡ pass_of (option_copied pass.entry) }
{
    match pass {
        Some(pass) => numeral(pass, 10),
        None => Some(1),
    }
}

fn is_positive(number: Option<u64>) -> bool
    ensures { result ≡ is_positive number }
{
    match number {
        Some(number) => number > 0,
        None => false,
    }
}

/// Whether it is a status of ddrescue itself, while it works or fills.
#[tactic(auto, unfolding(crate::specs::Masks::Maps::Rows::is_current_status))]
fn is_current_status(field: &[u8]) -> bool
    ensures { result ≡ is_current_status field.now }
{
    field.len() == 1
        && (field[0] == b'+' || is_failed_status(field[0]) || field[0] == b'F' || field[0] == b'G')
}

/// Whether a block of this status is one that is not rescued.
fn is_failed_status(status: u8) -> bool
    ensures { result ≡ is_failed_status status }
{
    status == b'?' || status == b'*' || status == b'/' || status == b'-'
}

/// Reads the line of a block.
fn read_block(position: &[u8], size: &[u8], status: &[u8]) -> Result<Block, LineFault>
    ensures ok { IfOk result (λ block. (number_of position.now ≡ Some block.start) × (number_of size.now ≡ Some block.len) × (rescued_of status.now ≡ Some block.rescued)) }
    ensures err { IfErr result (λ fault. (limit from : ℕ) → block_fault limit from (number_of position.now) (number_of size.now) (rescued_of status.now) ≡ Some fault) }
{
    let (Some(start), Some(len)) = (number_of(position), number_of(size)) else {
        return Err(LineFault::Number);
    };
    let Some(rescued) = rescued_of(status) else {
        return Err(LineFault::Status);
    };
    Ok(Block {
        start,
        len,
        rescued,
    })
}

/// Whether the blocks of this status are rescued.
#[tactic(auto, unfolding(crate::specs::Masks::Maps::Rows::rescued_of))]
fn rescued_of(field: &[u8]) -> Option<bool>
    ensures { result ≡ rescued_of field.now }
{
    if field.len() != 1 {
        return None;
    }
    if field[0] == b'+' {
        return Some(true);
    }
    if is_failed_status(field[0]) {
        return Some(false);
    }
    None
}

/// A block begins where the one before ends, and ends within the image.
fn check_place(block: &Block, from: u64, size: u64) -> Result<(), LineFault>
    requires { size ≤ 2 ^ 63 }
    ensures ok { OnOk result ((block.now.start ≡ from) × (block.now.start + block.now.len ≤ size)) }
    ensures err { IfErr result (λ fault. place_fault size from block.now.start block.now.len ≡ Some fault) }
{
    if block.start < from {
        return Err(LineFault::Overlap);
    }
    if from < block.start {
        return Err(LineFault::Gap);
    }
    if block.start.saturating_add(block.len) > size {
        return Err(LineFault::PastEnd);
    }
    Ok(())
}

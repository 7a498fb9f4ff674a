// Data in sectors that a copy does not have according to its map.
ghost use Rattle.std.specs.Prelude.{◌≡◌, [], true};
ghost use Rattle.md_words.specs.Asks.{ask_of};
ghost use Rattle.md_outputs.specs.StrayData.{GoesOver};

use md_badblocks::BadSet;
use md_device::Device;
use md_files::FileDevice;
use md_images::Access;
use md_streams::{Asker, Sink};
use md_words::Command;
use std::fs;

// It looks at the first sector of each run, and at no more than this many runs.
const MOST: usize = 4096;

/// The first sector found that has data in the copy though the copy does not have it according to its map. Only the first sector
/// of each missing run is looked at, and only in a regular file: there ddrescue leaves zeros, or a hole.
pub fn stray_data(rt: &HostRuntime, copy: &str, missing: &BadSet) -> Option<u64> {
    if missing.is_empty() || !fs::metadata(rt, copy).ok()?.is_file() {
        return None;
    }
    let mut device = FileDevice::open(rt, copy, Access::Look).ok()?;
    for run in missing.runs().iter().take(MOST) {
        if has_data(&mut device, run.start) {
            return Some(run.start);
        }
    }
    None
}

fn has_data(device: &mut FileDevice, sector: u64) -> bool {
    if sector >= device.sectors() {
        return false;
    }
    let mut bytes = [0; 512];
    device.read(sector, &mut bytes).is_ok() && bytes.iter().any(|byte| *byte != 0)
}

/// Whether a command goes on though copies have data where they lack it by their maps, of which these lines tell. If it may change
/// members it is asked once, and the answer stands; no image is opened to be changed before. At a terminal the lines are shown once.
pub fn goes_on_over<A: Asker, E: Sink>(
    asker: &mut A,
    command: Command<'_>,
    lines: &[u8],
    err: &mut E,
) -> bool
    ensures none { lines.now ≡ [] → (result ≡ true) × (asker.new ≡ asker.old) × (err.new ≡ err.old) }
    ensures some { ((lines.now ≡ []) → ⊥) → GoesOver A.Asker E.Sink (ask_of command.entry) lines.now
        asker.old asker.new err.old err.new result }
{
    if lines.is_empty() {
        return true;
    }
    if !command.may_part() || !asker.is_there() {
        let _ = err.put(lines);
        return true;
    }
    if asker.is_told_first() {
        return asker.goes_on(lines);
    }
    let _ = err.put(lines);
    asker.goes_on(lines)
}

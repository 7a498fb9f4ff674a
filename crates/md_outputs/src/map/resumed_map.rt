// The text of the map of a read that may go on.
ghost use Rattle.std.specs.Prelude.{◌^◌, ◌≤◌};

use crate::map::file_end::{END, FILE};
use crate::map::identity::Identity;
use crate::map::lacking::copy_of;
use crate::map::resume_fault::{Difference, ResumeFault};
use md_badblocks::BadSet;
use md_files::{MapFault, read_map, write_map_of_read};
use md_streams::Gaps;
use std::alloc::{AllocError, Global};
use std::str;

// The first line, and the first two.
const MADE: &str = "# Mapfile. Created by mdcli\n";

/// What each such map begins with.
pub(crate) const HEADING: &str =
    "# Mapfile. Created by mdcli\n# By mdcli read --resume, which goes on from here.\n";

// What is said of a file that is not made yet, and before how many sectors stand in it.
const UNMADE: &str = "# Its file is not made yet.\n";

const STANDS: &str = "# Sectors in the file: ";

// Of which sectors of the array another member's stand, a line for each run of them: the first, and how many. The map counts them as read.
const OTHERS: &str = "# Of another member, sector and count: ";

const SECTOR: u64 = 512;

const MOST_SECTORS: u64 = 1 << 54;

/// What the map of a read is made for: the name of its file, and from what is read; and the first sector.
#[derive(Drop)]
pub(crate) struct Purpose {
    pub(crate) alloc: Global,
    output: String,
    identity: Identity,
    sector: u64,
}

/// How far the read is: no file is there yet, or so many sectors stand in it.
#[derive(Drop)]
pub(crate) enum Progressed {
    Unmade,
    Stands(Standing),
}

/// How many sectors stand, which of them were not given, and the lines of which file it is and how they end.
#[derive(Drop)]
pub(crate) struct Standing {
    pub(crate) sectors: u64,
    pub(crate) gaps: Gaps,
    pub(crate) file_line: String,
    pub(crate) end_line: String,
}

impl Purpose {
    /// The map of a read into a file of this name.
    pub(crate) fn new(
        alloc: Global,
        output: &str,
        identity: Identity,
        sector: u64,
    ) -> Result<Purpose, AllocError> {
        Ok(Purpose {
            alloc,
            output: output_line(alloc, output)?,
            identity,
            sector,
        })
    }

    /// The text before the file is made.
    pub(crate) fn unmade(&self) -> Result<String, AllocError> {
        self.text(UNMADE, 0, Gaps::none(self.alloc))
    }

    /// The text once so many sectors stand in the file of the one line, which end by the other, and of which these were not given.
    pub(crate) fn standing(
        &self,
        sectors: u64,
        file_line: &str,
        end_line: &str,
        gaps: Gaps,
    ) -> Result<String, AllocError> {
        let lines = format!(in self.alloc; "{STANDS}{sectors}\n{file_line}{end_line}")?;
        self.text(&lines, sectors, gaps)
    }

    // ddrescue's map, with our lines after its first one.
    fn text(&self, lines: &str, sectors: u64, gaps: Gaps) -> Result<String, AllocError> {
        let Gaps { missing, others } = gaps;
        let others = self.within(others, sectors)?;
        let map = write_map_of_read(self.alloc, self.sector, sectors, missing)?;
        let mut text = String::new(self.alloc);
        text.push_str(HEADING)?;
        text.push_str(&self.output)?;
        text.push_str(&self.identity.options)?;
        for image in &self.identity.images {
            text.push_str(image)?;
        }
        text.push_str(lines)?;
        for run in others.runs() {
            write!(text, "{OTHERS}{} {}\n", run.start, run.len)?;
        }
        text.push_str(map.strip_prefix(MADE).unwrap_or(&map))?;
        Ok(text)
    }

    // Those that stand in the file: the others are read again.
    fn within(&self, mut set: BadSet, sectors: u64) -> Result<BadSet, AllocError> {
        let end = self.end(sectors);
        set.remove(0, self.sector.min(end))?;
        set.remove(end, MOST_SECTORS - end)?;
        Ok(set)
    }

    // Where so many sectors of the array end.
    fn end(&self, sectors: u64) -> u64
        ensures { result ≤ 2 ^ 54 }
    {
        self.sector.saturating_add(sectors).min(MOST_SECTORS)
    }

    /// Reads such a text, which has to be just as it was written, and for this purpose.
    pub(crate) fn read(&self, text: &[u8]) -> Result<Progressed, ResumeFault> {
        let Ok(text) = str::from_utf8(text) else {
            return Err(ResumeFault::NoMap);
        };
        let line = self.line_of_progress(text)?;
        if line == UNMADE.trim_end() {
            let wanted = self.unmade().map_err(|_| ResumeFault::NoMemory)?;
            return if text == wanted.as_str() {
                Ok(Progressed::Unmade)
            } else {
                Err(ResumeFault::NoMap)
            };
        }
        let sectors = line
            .strip_prefix(STANDS)
            .and_then(|number| number.parse().ok());
        match sectors {
            Some(sectors) => self.read_standing(text, sectors),
            None => Err(ResumeFault::NoMap),
        }
    }

    // The line of how far the read is, after those that say for what the map is made.
    fn line_of_progress<'t>(&self, text: &'t str) -> Result<&'t str, ResumeFault> {
        let Some(rest) = text.strip_prefix(HEADING) else {
            return Err(ResumeFault::NoMap);
        };
        let rest = after(rest, &self.output, Difference::Output)?;
        let mut rest = after(rest, &self.identity.options, Difference::Options)?;
        for (place, image) in self.identity.images.iter().enumerate() {
            if !rest.starts_with("# Image ") {
                return Err(ResumeFault::Differs(Difference::Images));
            }
            rest = after(rest, image, Difference::Image(place))?;
        }
        if rest.starts_with("# Image ") {
            return Err(ResumeFault::Differs(Difference::Images));
        }
        match rest.split_once('\n') {
            Some((line, _)) => Ok(line),
            None => Err(ResumeFault::NoMap),
        }
    }

    fn read_standing(&self, text: &str, sectors: u64) -> Result<Progressed, ResumeFault> {
        let end = self.end(sectors);
        let mut missing = match read_map(self.alloc, text.as_bytes(), SECTOR * end) {
            Ok(missing) => missing,
            Err(MapFault::NoMemory) => return Err(ResumeFault::NoMemory),
            Err(_) => return Err(ResumeFault::NoMap),
        };
        let untried = self.sector.min(end);
        if missing.remove(0, untried).is_err() {
            return Err(ResumeFault::NoMemory);
        }
        let others = others_of(self.alloc, text)?;
        let gaps = Gaps { missing, others };
        let file_line = line_in(self.alloc, text, FILE)?;
        let end_line = line_in(self.alloc, text, END)?;
        let copy = copy_of(self.alloc, &gaps)?;
        let wanted = self.standing(sectors, &file_line, &end_line, copy)?;
        if wanted.as_str() != text {
            return Err(ResumeFault::NoMap);
        }
        Ok(Progressed::Stands(Standing {
            sectors,
            gaps,
            file_line,
            end_line,
        }))
    }
}

// The first line that begins so. Whether it is as it was written shows as the text is compared.
fn line_in(alloc: Global, text: &str, begin: &str) -> Result<String, ResumeFault> {
    let Some(line) = text.lines().find(|line| line.starts_with(begin)) else {
        return Err(ResumeFault::NoMap);
    };
    let line = format!(in alloc; "{line}\n")?;
    Ok(line)
}

// The sectors of which another member's stand. Whether each line is as it was written shows as the text is compared.
fn others_of(alloc: Global, text: &str) -> Result<BadSet, ResumeFault> {
    let mut others = BadSet::new(alloc);
    for line in text.lines() {
        let Some(run) = line.strip_prefix(OTHERS) else {
            continue;
        };
        let Some((start, count)) = numbers_of(run) else {
            return Err(ResumeFault::NoMap);
        };
        if others.add(start, count).is_err() {
            return Err(ResumeFault::NoMemory);
        }
    }
    Ok(others)
}

fn numbers_of(run: &str) -> Option<(u64, u64)> {
    let (start, count) = run.split_once(' ')?;
    let start = start.parse().ok()?;
    let count = count.parse().ok()?;
    Some((start, count))
}

// What comes after this line, which has to come first.
fn after<'t>(text: &'t str, line: &str, difference: Difference) -> Result<&'t str, ResumeFault> {
    match text.strip_prefix(line) {
        Some(rest) => Ok(rest),
        None if text.is_empty() => Err(ResumeFault::NoMap),
        None => Err(ResumeFault::Differs(difference)),
    }
}

// The name of a file, whatever folder it is in. It stands in a line of its own, whatever characters it has.
fn output_line(alloc: Global, path: &str) -> Result<String, AllocError> {
    let name = match path.rsplit_once('/') {
        Some((_, name)) => name,
        None => path,
    };
    let mut line = String::new(alloc);
    line.push_str("# Output: ")?;
    for byte in name.bytes() {
        match byte {
            b'\\' | 0..=31 | 127..=255 => write!(line, "\\x{byte:02X}")?,
            _ => line.push(byte as char)?,
        }
    }
    line.push_str("\n")?;
    Ok(line)
}

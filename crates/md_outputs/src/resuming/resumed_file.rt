// A file of sectors that is kept with its map, so that a read can go on.
ghost use Rattle.std.specs.Prelude.{◌≡◌, MatchResult, None, is_some, true, ⊤};

use crate::made::MadeFile;
use crate::map::{KeptMap, Lacking, Purpose, end_line, file_line};
use md_files::{HoleFile, MapOutFault, OutputFileFault};
use md_streams::SinkFault;
use std::alloc::AllocError;
use std::fs::{File, Files};
use std::io::{self, ErrorKind};
use std::os::unix::fs::FileExt;
use std::time::{Clock, Instant};

// The map is written anew after so many bytes or, where a bad disk takes long to give them, after so many seconds.
const BYTES: u64 = 64 << 20;

// No `put` has more.
const PIECE: u64 = 1 << 20;

/// A read that is interrupted leaves no more bytes in its file behind those that its map counts.
pub(crate) const MOST_BEHIND: u64 = BYTES + 2 * PIECE;

const SECONDS: u64 = 30;

const SECTOR: u64 = 512;

/// Why a file and its map are not kept any more.
#[derive(Drop)]
pub enum KeepFault {
    Output(OutputFileFault),
    Map(MapOutFault),
    NoMemory,
}

/// The file, which is written from a place in it to its end, with holes; and its map, which says of no more sectors that they stand than
/// are on the file's disk. It is asked after each piece whether the map is to say more. What a file holds is not known.
#[derive(Drop)]
pub struct ResumedFile<'a, R> {
    rt: &'a R,
    made: MadeFile,
    map: KeptMap<'a, R>,
    purpose: Purpose,
    lacking: &'a Lacking,
    // How far it is written, and how far the map says so.
    at: u64,
    stored: u64,
    // When the map was written.
    since: Option<Instant>,
    // Why it is not kept any more: the first reason.
    fault: Option<KeepFault>,
    // Whether what the file had behind that is cut off.
    is_cut: bool,
    // Whether the file may be stored still. The system tells once of what it could not store: no later answer counts.
    is_sure: bool,
}

impl<'a, R: Files<File = File> + AllocGlobal + Clock> ResumedFile<'a, R> {
    /// A file in which so many sectors stand, by a map of this purpose.
    pub(crate) fn new(
        rt: &'a R,
        made: MadeFile,
        map: KeptMap<'a, R>,
        purpose: Purpose,
        lacking: &'a Lacking,
        sectors: u64,
    ) -> ResumedFile<'a, R> {
        let at = sectors.saturating_mul(SECTOR);
        ResumedFile {
            rt,
            made,
            map,
            purpose,
            lacking,
            at,
            stored: at,
            since: Instant::now(rt).ok(),
            fault: None,
            is_cut: false,
            is_sure: true,
        }
    }

    /// Ends the file, as long as what was written, and its map. Where nothing was put into a file in which sectors stand, both are as they
    /// were. Where nothing was written both are taken away: the file was made under
    /// this name. Where something was, and the map counts nothing of it, the file is emptied: so a read can still begin there. Says why
    /// they are not kept, or were not any more.
    pub fn end(mut self, path: &str) -> Result<(), KeepFault> {
        if self.at == 0 && self.fault.is_none() {
            return self.take_away(path);
        }
        if !self.is_cut && self.fault.is_none() {
            return Ok(());
        }
        let ended = if self.is_sure { self.store() } else { Ok(()) };
        if self.stored == 0 {
            let _ = self.made.file().set_len(0);
        }
        match self.fault {
            Some(fault) => Err(fault),
            None => ended,
        }
    }

    // The map says first that there is no file.
    fn take_away(self, path: &str) -> Result<(), KeepFault> {
        let ResumedFile {
            rt,
            made,
            mut map,
            purpose,
            ..
        } = self;
        let Ok(text) = purpose.unmade() else {
            return Err(KeepFault::NoMemory);
        };
        map.replace(&text).map_err(unwritten_map)?;
        map.store_name().map_err(unwritten_map)?;
        made.take_away(rt, path);
        map.take_away();
        Ok(())
    }

    // Stores what was written, and then the map that says so. Only whole sectors count.
    fn store(&mut self) -> Result<(), KeepFault>
        ensures { self.new.fault ≡ self.old.fault }
    {
        self.is_sure = false;
        self.made.file().set_len(self.at).map_err(unwritten_output)?;
        self.made.file().sync_data().map_err(unwritten_output)?;
        self.is_sure = true;
        let text = self.text()?;
        self.map.replace(&text).map_err(unwritten_map)?;
        self.stored = self.at;
        self.since = Instant::now(self.rt).ok();
        self.map.store_name().map_err(unwritten_map)
    }

    // The map of what was written.
    fn text(&self) -> Result<String, KeepFault> {
        let sectors = self.at / SECTOR;
        let alloc = self.purpose.alloc;
        let file = self.made.file();
        let which = file_line(alloc, file).map_err(unwritten_output)?;
        let end = end_line(alloc, file, sectors.saturating_mul(SECTOR)).map_err(unwritten_output)?;
        let gaps = self.lacking.all()?;
        let text = self.purpose.standing(sectors, &which, &end, gaps)?;
        Ok(text)
    }

    // Whether it is time to write the map: as soon as something stands, since a file with bytes of which the map counts none may be
    // another; then from time to time. Where the time is not known the bytes alone tell.
    fn is_due(&self) -> bool {
        if self.stored == 0 {
            return self.at > 0;
        }
        if self.at.saturating_sub(self.stored) >= BYTES {
            return true;
        }
        let Some(since) = self.since else {
            return false;
        };
        match since.elapsed(self.rt) {
            Ok(time) => time.as_secs() >= SECONDS,
            Err(_) => false,
        }
    }

    // It is as long as what was written, and where it is time the map says so.
    fn keep(&mut self) -> Result<(), SinkFault>
        ensures { MatchResult result
            (λ _. self.new.fault ≡ self.old.fault)
            (λ _. is_some self.new.fault ≡ true) }
    {
        let kept = if self.is_due() {
            self.store()
        } else {
            self.made.file().set_len(self.at).map_err(cut_output)
        };
        match kept {
            Ok(()) => Ok(()),
            Err(fault) => Err(self.fail(fault)),
        }
    }

    // Cuts off what the file has behind the sectors that stand, before the first byte is put behind them.
    fn cut(&mut self) -> Result<(), SinkFault>
        ensures { MatchResult result
            (λ _. self.new.fault ≡ self.old.fault)
            (λ _. is_some self.new.fault ≡ true) }
    {
        if self.is_cut {
            return Ok(());
        }
        match self.made.file().set_len(self.at).map_err(cut_output) {
            Ok(()) => {
                self.is_cut = true;
                Ok(())
            }
            Err(fault) => Err(self.fail(fault)),
        }
    }

    // What is written fails for this reason. The first one is kept: the others follow from it.
    fn fail(&mut self, fault: KeepFault) -> SinkFault
        ensures { is_some self.new.fault ≡ true }
    {
        if self.fault.is_none() {
            self.fault = Some(fault);
        }
        SinkFault
    }
}

fn unwritten_output(error: io::Error) -> KeepFault {
    if error.kind() == ErrorKind::OutOfMemory {
        return KeepFault::NoMemory;
    }
    KeepFault::Output(OutputFileFault::Unwritten(error))
}

fn cut_output(error: io::Error) -> KeepFault {
    if error.kind() == ErrorKind::OutOfMemory {
        return KeepFault::NoMemory;
    }
    KeepFault::Output(OutputFileFault::Cut(error))
}

fn unwritten_map(error: io::Error) -> KeepFault {
    if error.kind() == ErrorKind::OutOfMemory {
        return KeepFault::NoMemory;
    }
    KeepFault::Map(MapOutFault::Unwritten(error))
}

impl From<AllocError> for KeepFault {
    fn from(_: AllocError) -> KeepFault {
        KeepFault::NoMemory
    }
}

impl<'a, R: Files<File = File> + AllocGlobal + Clock> HoleFile for ResumedFile<'a, R> {
    ghost contents = { λ _. None };

    ghost failed = { λ f. is_some f.fault };

    ghost is_whole = { λ _. ⊤ };

    fn write(&mut self, bytes: &[u8]) -> Result<(), SinkFault> {
        if self.fault.is_some() {
            return Err(SinkFault);
        }
        if bytes.is_empty() {
            return Ok(());
        }
        self.cut()?;
        let written = self.made.file().write_all_at(bytes, self.at);
        if let Err(error) = written {
            return Err(self.fail(cut_output(error)));
        }
        self.at = self.at.saturating_add(bytes.len() as u64);
        Ok(())
    }

    fn skip(&mut self, bytes: usize) -> Result<(), SinkFault> {
        if self.fault.is_some() {
            return Err(SinkFault);
        }
        self.cut()?;
        self.at = self.at.saturating_add(bytes as u64);
        Ok(())
    }

    fn finish(&mut self) -> Result<(), SinkFault> {
        if self.fault.is_some() {
            return Err(SinkFault);
        }
        if !self.is_cut {
            // Nothing was put behind what stands: the file stays as it is.
            return Ok(());
        }
        self.keep()
    }
}

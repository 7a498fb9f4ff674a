// What a command that takes long shows of its progress.
ghost use Rattle.std.specs.Prelude.{⊤};

use crate::map::Lacking;
use crate::progress::comparing::Comparing;
use crate::progress::copying::Copying;
use crate::progress::read_length::ReadLength;
use crate::progress::refused_requests::RefusedRequests;
use crate::progress::silence::Silence;
use crate::progress::write_progress::WriteProgress;
use md_badblocks::Run;
use md_files::{Cleared, Line};
use md_images::Traffic;
use md_nbd::{ClientWatch, RefusedRequest};
use md_streams::{FillWatch, Gate, Messages, Output, ReadWatch, Watch, put_going_on};
use md_words::LongTask;
use std::alloc::AllocError;
use std::io::Write;
use std::string::String;
use std::sync::atomic::{AtomicBool, AtomicU64, Ordering};
use std::time::Instant;

// The line is drawn at most so often.
const MILLISECONDS: u64 = 100;

const MIB: u64 = 1 << 20;

// Goes to the first column, and clears the line.
const CLEAR: &str = "\r\u{1b}[K";

/// A line on a terminal that says how much a command has read of its images and written to them, or how far
/// a rebuild, a check or a write is. It is drawn on standard error, at most ten times a second. Where a person reads that, or more is
/// to be told, a rebuild that is taken up says so first.
#[derive(Drop)]
pub struct Progress<'a> {
    rt: &'a HostRuntime,
    // Nothing is drawn where there is none.
    task: Option<LongTask>,
    messages: Messages,
    began: Option<Instant>,
    read: AtomicU64,
    written: AtomicU64,
    copying: Copying,
    comparing: Comparing,
    read_length: ReadLength,
    write_progress: WriteProgress,
    refused: RefusedRequests,
    silence: Silence,
    lacking: Lacking,
    // In milliseconds after the beginning, when the line may be drawn again.
    due: AtomicU64,
    is_shown: AtomicBool,
}

impl<'a> Progress<'a> {
    /// Refused requests are shown where `shows_refused` says so.
    pub fn new(
        rt: &'a HostRuntime,
        task: Option<LongTask>,
        messages: Messages,
        shows_refused: bool,
    ) -> Progress<'a> {
        Progress {
            rt,
            task,
            messages,
            began: Instant::now(rt).ok(),
            read: AtomicU64::new(0),
            written: AtomicU64::new(0),
            copying: Copying::new(),
            comparing: Comparing::new(),
            read_length: ReadLength::new(),
            write_progress: WriteProgress::new(),
            refused: RefusedRequests::new(shows_refused),
            silence: Silence::new(),
            lacking: Lacking::new(rt.alloc()),
            due: AtomicU64::new(0),
            is_shown: AtomicBool::new(false),
        }
    }

    /// The sectors that a read does not get, as far as it came.
    pub fn lacking(&self) -> &Lacking {
        &self.lacking
    }

    /// A read goes on behind so many sectors: they count as read.
    pub fn begin_behind(&self, sectors: u64) {
        self.read
            .fetch_add(sectors.saturating_mul(512), Ordering::SeqCst);
    }

    /// Whether anything was read from an image.
    pub fn has_read(&self) -> bool {
        self.read.load(Ordering::SeqCst) > 0
    }

    /// How many sectors of the array are to be read; 0 before that is known.
    pub fn sectors_to_read(&self) -> u64 {
        self.read_length.sectors()
    }

    /// How many sectors stand of an input that was not written to its end; 0 where none do, and where all do.
    pub fn sectors_standing(&self) -> u64 {
        self.write_progress.sectors_standing()
    }

    fn draw_if_due(&self) {
        let Some(task) = self.task else {
            return;
        };
        if self.is_early(task) {
            return;
        }
        let Some(now) = self.milliseconds() else {
            return;
        };
        let due = self.due.load(Ordering::SeqCst);
        let next = now.saturating_add(MILLISECONDS);
        // Of several workers that come here at once one draws.
        let order = Ordering::SeqCst;
        if now < due || self.due.compare_exchange(due, next, order, order).is_err() {
            return;
        }
        self.is_shown.store(true, Ordering::SeqCst);
        self.draw(task, now);
    }

    // Before a check begins only metadata is read, and so it is before a rebuild, unless a resync comes first.
    fn is_early(&self, task: LongTask) -> bool {
        match task {
            LongTask::Rebuild => {
                !self.copying.has_begun() && self.read.load(Ordering::SeqCst) < MIB
            }
            LongTask::Check => !self.comparing.has_begun(),
            // What is short is done before anyone reads of it.
            LongTask::Write => {
                let read = self.read.load(Ordering::SeqCst);
                read.saturating_add(self.written.load(Ordering::SeqCst)) < MIB
            }
            // How long an array is shows once it is opened.
            LongTask::Read(None) => !self.read_length.has_begun(),
            LongTask::Read(Some(_)) | LongTask::Resync => false,
        }
    }

    fn milliseconds(&self) -> Option<u64> {
        let began = self.began?;
        let elapsed = began.elapsed(self.rt).ok()?;
        Some(
            elapsed
                .as_secs()
                .saturating_mul(1000)
                .saturating_add(elapsed.subsec_millis() as u64),
        )
    }

    // The line goes out in one write.
    fn draw(&self, task: LongTask, now: u64) {
        if let Ok(line) = self.line(task, now) {
            let _ = self.rt.stderr().write_all(line.as_bytes());
        }
    }

    fn line(&self, task: LongTask, now: u64) -> Result<String, AllocError> {
        let read = self.read.load(Ordering::SeqCst);
        match task {
            LongTask::Read(count) => {
                let sectors = count.unwrap_or(self.sectors_to_read());
                let bytes = sectors.saturating_mul(512);
                format!(in self.rt.alloc();
                    "{CLEAR}read: {} of {} MiB",
                    read.min(bytes) / MIB,
                    bytes / MIB
                )
            }
            LongTask::Resync => self.traffic("resync", read),
            LongTask::Rebuild => match self.copying.line(self.rt.alloc(), now, read) {
                Some(far) => format!(in self.rt.alloc(); "{CLEAR}rebuild: {}", far?),
                None => self.traffic("rebuild", read),
            },
            // An input whose length is not known is written at once, after it was read to its end.
            LongTask::Write => match self.write_progress.line(self.rt.alloc(), now) {
                Some(far) => format!(in self.rt.alloc(); "{CLEAR}write: {}", far?),
                None => self.traffic("write", read),
            },
            LongTask::Check => {
                let far = self.comparing.line(self.rt.alloc(), now, read)?;
                format!(in self.rt.alloc(); "{CLEAR}check: {far}")
            }
        }
    }

    // How much was read and written.
    fn traffic(&self, what: &str, read: u64) -> Result<String, AllocError> {
        let written = self.written.load(Ordering::SeqCst);
        format!(in self.rt.alloc();
            "{CLEAR}{what}: {} MiB read, {} MiB written",
            read / MIB,
            written / MIB
        )
    }
}

impl<'a> Traffic for Progress<'a> {
    fn add_read(&self, bytes: usize) {
        self.read.fetch_add(bytes as u64, Ordering::SeqCst);
        self.draw_if_due();
    }

    fn add_failed_read(&self) {
        self.copying.count_failed();
    }

    fn add_written(&self, bytes: usize) {
        self.written.fetch_add(bytes as u64, Ordering::SeqCst);
        self.draw_if_due();
    }
}

impl<'a> Line for Progress<'a> {
    fn clear(&self) {
        if self.is_shown.swap(false, Ordering::SeqCst) {
            let _ = self.rt.stderr().write_all(CLEAR.as_bytes());
        }
    }
}

impl<'a> Gate for Progress<'a> {
    ghost read_begins = { λ _ _ _. ⊤ };

    ghost read_ended = { λ _ _ _. ⊤ };

    fn before_read(&self, _source: u8, _chunk: u32) {}

    fn after_read(&self, _source: u8, _chunk: u32) {
        self.copying.count();
        self.draw_if_due();
    }
}

impl<'a> Watch for Progress<'a> {
    ghost lacks = { λ _ _ _. ⊤ };

    ghost taken_up = { λ _ _ _ _ _. ⊤ };

    ghost compares = { λ _ _. ⊤ };

    ghost writes = { λ _ _. ⊤ };

    ghost has_written = { λ _ _. ⊤ };

    fn begins(&self, chunks: u32, first: Option<u32>) {
        let Some(now) = self.milliseconds() else {
            return;
        };
        let read = self.read.load(Ordering::SeqCst);
        self.copying.begin(chunks, first.unwrap_or(0), now, read);
    }

    fn takes_up(&self, member: usize, missing: u32, first: Option<u32>, chunks: u32) {
        if self.messages.has_advice() {
            self.clear();
            let mut err = Output::new(self.rt.stderr());
            let _ = put_going_on(&mut err, member, missing, first, chunks);
        }
    }

    fn begins_check(&self, sectors: u64) {
        let Some(now) = self.milliseconds() else {
            return;
        };
        let read = self.read.load(Ordering::SeqCst);
        self.comparing.begin(sectors, now, read);
    }

    fn begins_write(&self, sectors: u64) {
        // How many they are is known also where the time is not.
        self.write_progress
            .begin(sectors, self.milliseconds().unwrap_or(0));
    }

    fn wrote(&self, sectors: u64) {
        self.write_progress.go_on(sectors);
        self.draw_if_due();
    }
}

impl<'a> ClientWatch for Progress<'a> {
    ghost has_refused = { λ _ _. ⊤ };

    ghost says_rested = { λ _ _. ⊤ };

    fn refuses(&self, refused: RefusedRequest) {
        let mut err = Cleared::new(self.rt.stderr(), self, true);
        let _ = self.refused.tell(&mut err, &refused);
    }

    fn has_rested(&self) -> bool {
        match self.milliseconds() {
            Some(now) => self.silence.ends(now),
            None => false,
        }
    }
}

impl<'a> FillWatch for Progress<'a> {
    ghost misses = { λ _ _. ⊤ };

    ghost takes = { λ _ _. ⊤ };

    fn lacks(&self, missing: &[Run], others: &[Run]) {
        self.lacking.add(missing, others);
    }
}

impl<'a> ReadWatch for Progress<'a> {
    ghost reads = { λ _ _. ⊤ };

    fn begins_read(&self, sectors: u64) {
        self.read_length.begin(sectors);
    }
}

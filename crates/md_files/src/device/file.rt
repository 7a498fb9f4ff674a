// A device in a file or a block device.
ghost use Rattle.std.specs.Prelude.{◌≡◌, ◌≢◌, ◌+◌, ◌*◌, ◌^◌, ◌<◌, ◌≤◌, ◌↔◌, ◌⊎◌, [], length, true, false, replicate, None, Ok, IfOk, IsErr, IsErrOf, OnOk, OnErr, IsTrue, refl, ⊤};
ghost use Rattle.std.specs.Fs.{file_type, IsDir, IsFile};
ghost use Rattle.md_device.specs.Failing.{AddsItself, failed_read, failed_write};
ghost use Rattle.md_images.specs.declared.access.Access.TheVariants.{Look, Change};

use crate::device::backing::Backing;
use crate::device::block_device::BlockDevice;
use crate::device::in_use::check_unused;
use crate::zeros::{BLOCK, is_zero};
use md_device::{Device, Fault, FaultList, ReadFault, WriteFault};
use md_images::{Access, ImageFault, SharedRead};
use std::fs::{File, Files, Metadata, OpenOptions, TryLockError};
use std::io::{ErrorKind, Seek, SeekFrom};
use std::marker::Model;
use std::os::unix::fs::{FileExt, FileTypeExt, MetadataExt};
use std::{fs, io};

// Zeros are looked for in pieces of so many bytes.
const PIECE: usize = 16 * BLOCK;

const SECTOR: usize = 512;

/// A device whose sectors are those of a regular file or of a block device. Contracts see its number
/// of sectors, whether it can be written, whether it has failed for good, and which of its calls failed.
///
/// Nothing is known of a file: no clause says which bytes a read gives, what a write leaves, or when
/// either fails. So it is a device that is not honest, and zeros stand for its content. What they
/// do to a regular file that does not fail is tested. That a write waits for stable storage is
/// neither proved nor tested: it asks the system for that before it answers `Ok`.
///
/// If the file may have holes, a write leaves out pieces of 64 KiB of zeros, provided that zeros are read there already.
///
/// What is read of the file is on stable storage, as long as nothing else writes to it and no sync failed before it was
/// opened: it is synced when it is opened to be changed, and at each write. After a sync fails, the system may still show the
/// data that did not reach the disk, and answer `Ok` at each later sync. So this device writes such data again before it
/// answers, and the next opening syncs it. This is tested, and not proved.
///
/// While it is open the file is locked against other openings, and dropping it ends the lock.
#[derive(Drop)]
pub struct FileDevice {
    file: File,
    // The lock that all nodes of a block device share. It is here to be held.
    _lock: Option<File>,
    backing: Backing,
    sectors: u64,
    writable: bool,
    // Whether it is a regular file that takes less space on its disk than it has bytes.
    has_holes: bool,
    sync_failed: bool,
    faults: FaultList,
}

impl Model for FileDevice {
    ghost use Rattle.std.specs.Prelude.{◌^◌, ◌≤◌};
    ghost use Rattle.md_files.specs.File.{Opened};

    ghost Value = { Opened };

    ghost view = { λ device. record { sectors = device.sectors; writable = device.writable; sync_failed = device.sync_failed; faults = device.faults.list } };

    ghost invariant = { λ device. device.sectors ≤ 2 ^ 54 };
}

impl FileDevice {
    /// Opens an image to look at it or to change it.
    ///
    /// Only whole sectors are counted, and at most 2^54 of them. The size is the file's at this call:
    /// what it gains later is not seen. Where it loses sectors their reads fail, and so do their writes,
    /// so that a file is not grown again.
    ///
    /// An advisory lock is held as long as the device: an exclusive one where it can be written, a
    /// shared one where not. So no two of these devices change one image at once, be it in two
    /// programs or in one under two names, as two nodes of one block device. A loop device and its backing
    /// file have a lock each, and so have two nodes where there is no /sys. Where the file system
    /// can't lock it answers `Io`: without the lock nothing would stop two writers.
    ///
    /// What was written to an image before, as by a program that was killed, may be in the system's memory alone. An
    /// image that is opened to be changed is synced once, after its lock and before anything of it is read. That the
    /// system's answer means stable storage is neither proved nor tested.
    ///
    /// A block device that the system uses is not opened to be changed, nor is a file that it swaps on, nor what lies
    /// below a loop device that it uses, its backing file or that of a loop device between. That is what /proc and /sys
    /// tell: the mounts of each process that can be read, in whatever mount namespace, the swaps, the holders, and the
    /// file systems of the kinds that show there what they have mounted. For other kinds, `nodes_unseen` names what may be
    /// mounted out of sight. They name a backing file by the path at which it was opened. If /proc or /sys is missing,
    /// a block device is not opened to be changed, and neither is a file that a loop device may use.
    ///
    /// It doesn't wait for the other end of a pipe: what kind of file a path names is asked before
    /// it is opened, and again of what was opened.
    ///
    /// Each variant of `ImageFault` but the last comes where its message says. `Io` has the system's
    /// words for what else went wrong. To look, an image is never refused as `NotWritable`, `InUse`,
    /// `NoProc` or `NoSys`. `NamedBefore` never comes: who opens several compares what `backing` gives.
    /// It takes memory to find whether an image is in use, and for a block device; where that runs out it
    /// answers `Io`.
    pub fn open<R: Files<File = File> + AllocGlobal>(
        rt: &R,
        path: &str,
        access: Access,
    ) -> Result<FileDevice, ImageFault>
        ensures size { IfOk result (λ device. device.sectors ≤ 2 ^ 54) }
        ensures look { access ≡ Look → IfOk result (λ device. device.writable ≡ false) }
        ensures change { access ≡ Change → IfOk result (λ device. device.writable ≡ true) }
        ensures fresh { IfOk result (λ device. device.sync_failed ≡ false) }
    {
        match access {
            Access::Look => open_to_look(rt, path),
            Access::Change => open_to_change(rt, path),
            Access::ChangeOrLook => match open_to_change(rt, path) {
                Err(
                    ImageFault::NotWritable
                    | ImageFault::InUse
                    | ImageFault::NoProc
                    | ImageFault::NoSys,
                ) => open_to_look(rt, path),
                opened => opened,
            },
        }
    }

    /// Where it lies, whatever it is called.
    pub fn backing(&self) -> Backing {
        self.backing
    }
}

impl FileDevice {
    // Whether the file no longer has so many bytes. A write there would grow it again, with zeros between.
    fn is_cut_before(&self, end: u64) -> bool {
        // A seek tells the length for much less than the file's metadata do. No read or write goes by the position.
        let mut file = &self.file;
        file.seek(SeekFrom::End(0)).map_or(true, |len| len < end)
    }

    // Syncs what was written. These are some of these bytes from here on, since each call that writes ends with a sync. If the
    // sync fails they are written again, and not synced again: only a later opening may trust its own sync.
    fn sync(&mut self, bytes: &[u8], from: u64) -> Result<(), WriteFault>
        requires { from + length bytes.now < 2 ^ 64 }
        ensures ok { OnOk result (self.new ≡ self.old) }
        ensures err { OnErr result (self.new ≡ record self.old { sync_failed = true }) }
    {
        let file = &self.file;
        if file.sync_data().is_err() {
            self.sync_failed = true;
            self.write_again(bytes, from);
            return Err(WriteFault);
        }
        Ok(())
    }

    // Writes each sector of these bytes from here on, also those behind one that can't be written. It writes zeros too: the disk
    // may lack the zeros that are read there.
    fn write_again(&self, bytes: &[u8], from: u64)
        requires { from + length bytes.now < 2 ^ 64 }
    {
        let file = &self.file;
        // The last one may be only a part of a sector, or empty.
        for sector in 0..bytes.len() / SECTOR + 1 {
            let at = SECTOR * sector;
            let end = (at + SECTOR).min(bytes.len());
            let _ = file.write_all_at(&bytes[at..end], from + at as u64);
        }
    }
}

impl Device for FileDevice {
    ghost content = { λ device. replicate (512 * device.sectors) 0 };

    ghost honest = { λ _. false };

    ghost faults = { λ device. device.faults };

    ghost failures = { λ device. length device.faults };

    ghost counts = { λ _. refl };

    ghost crashes = { λ _. [] };

    fn sectors(&self) -> u64 {
        self.sectors
    }

    fn read(&mut self, sector: u64, buf: &mut [u8]) -> Result<(), ReadFault>
        requires within { 512 * sector + length buf.old ≤ 512 * self.old.sectors }
        ensures same { self.new ≡ record self.old { faults = self.new.faults } }
        ensures refused { self.old.sync_failed ≡ true → IsErr result }
        ensures faults { AddsItself result (failed_read sector (length buf.old)) self.old.faults self.new.faults }
    {
        let outcome = self.try_read(sector, buf);
        if outcome.is_err() {
            self.faults = self.faults.with_fault(&Fault::read(sector, buf.len()));
        }
        outcome
    }

    fn write(&mut self, sector: u64, bytes: &[u8]) -> Result<(), WriteFault>
        requires within { 512 * sector + length bytes.now ≤ 512 * self.old.sectors }
        ensures same { self.new ≡ record self.old { sync_failed = self.new.sync_failed; faults = self.new.faults } }
        ensures refused { self.old.sync_failed ≡ true → IsErr result × (self.new.sync_failed ≡ true) }
        ensures read_only { self.old.writable ≡ false → bytes.now ≢ [] → IsErr result }
        ensures faults { AddsItself result (failed_write sector (length bytes.now)) self.old.faults self.new.faults }
    {
        let outcome = self.try_write(sector, bytes);
        if outcome.is_err() {
            self.faults = self.faults.with_fault(&Fault::write(sector, bytes.len()));
        }
        outcome
    }
}

// A read goes by no position in the file, so that several may be made at once.
impl SharedRead for FileDevice {
    ghost may_fail = { λ _ _. ⊤ };

    fn read_shared(&self, sector: u64, buf: &mut [u8]) -> Result<(), ReadFault> {
        if buf.is_empty() {
            return Ok(());
        }
        self.try_read(sector, buf)
    }
}

impl FileDevice {
    // Reads from the file.
    fn try_read(&self, sector: u64, buf: &mut [u8]) -> Result<(), ReadFault>
        requires within { 512 * sector + length buf.old ≤ 512 * self.now.sectors }
        ensures refused { self.now.sync_failed ≡ true → IsErr result }
        ensures size { length buf.new ≡ length buf.old }
    {
        if self.sync_failed {
            return Err(ReadFault);
        }
        if buf.is_empty() {
            return Ok(());
        }
        let file = &self.file;
        file.read_exact_at(buf, 512 * sector).map_err(|_| ReadFault)
    }

    // Writes to the file.
    fn try_write(&mut self, sector: u64, bytes: &[u8]) -> Result<(), WriteFault>
        requires within { 512 * sector + length bytes.now ≤ 512 * self.old.sectors }
        ensures same { self.new ≡ record self.old { sync_failed = self.new.sync_failed } }
        ensures refused { self.old.sync_failed ≡ true → IsErr result × (self.new ≡ self.old) }
        ensures read_only { self.old.writable ≡ false → bytes.now ≢ [] → IsErr result }
    {
        if self.sync_failed {
            return Err(WriteFault);
        }
        if bytes.is_empty() {
            return Ok(());
        }
        let end = 512 * sector + bytes.len() as u64;
        if !self.writable || self.is_cut_before(end) {
            return Err(WriteFault);
        }
        let from = 512 * sector;
        let written = self.write_but_zeros(bytes, from);
        if matches!(written, Ok(false)) {
            return Ok(());
        }
        // A write that failed may have written some of them. They are synced now: a later sync that fails writes only its own
        // bytes again.
        self.sync(bytes, from)?;
        written.map(|_| ())
    }

    // Writes these bytes from here on. If the file may have holes, it leaves out pieces of zeros that are read as zeros already, so
    // that a sparse file stays sparse. In a file without holes it writes all: zeros that are read there may come from a write that
    // never reached the disk. The answer is whether it wrote any.
    fn write_but_zeros(&self, bytes: &[u8], from: u64) -> Result<bool, WriteFault>
        requires { from + length bytes.now < 2 ^ 64 }
    {
        let mut start = 0;
        let mut is_written = false;
        for piece in 0..bytes.len() / PIECE {
            let at = PIECE * piece;
            if self.has_holes
                && is_zero_piece(&bytes[at..at + PIECE])
                && self.holds_zeros(from + at as u64)
            {
                is_written |= self.write_run(&bytes[start..at], from + start as u64)?;
                start = at + PIECE;
            }
        }
        Ok(is_written | self.write_run(&bytes[start..], from + start as u64)?)
    }

    // Writes them all. The answer is whether there are any.
    fn write_run(&self, bytes: &[u8], from: u64) -> Result<bool, WriteFault>
        requires { from + length bytes.now < 2 ^ 64 }
    {
        let file = &self.file;
        file.write_all_at(bytes, from).map_err(|_| WriteFault)?;
        Ok(!bytes.is_empty())
    }

    // Whether a piece of the file from here on is known to have zeros alone.
    fn holds_zeros(&self, from: u64) -> bool
        requires { from + 65536 < 2 ^ 64 }
    {
        let file = &self.file;
        let mut block = [0; BLOCK];
        for k in 0..PIECE / BLOCK {
            let at = from + (BLOCK * k) as u64;
            if file.read_exact_at(&mut block, at).is_err() || !is_zero(&block) {
                return false;
            }
        }
        true
    }
}

// Whether a piece is all zeros.
fn is_zero_piece(piece: &[u8]) -> bool
    requires { length piece.now ≡ 65536 }
{
    (0..PIECE / BLOCK).all(|k| is_zero(&piece[BLOCK * k..BLOCK * k + BLOCK]))
}

// Refuses what is neither a regular file nor a block device, and tells which block device it is.
fn check_kind(metadata: &Metadata) -> Result<Option<BlockDevice>, ImageFault>
    ensures file { IsFile (file_type metadata.now) → result ≡ Ok None }
    ensures directory { IsErrOf result ImageFault.Directory ↔ IsDir (file_type metadata.now) }
{
    let kind = metadata.file_type();
    if kind.is_file() {
        return Ok(None);
    }
    if kind.is_dir() {
        return Err(ImageFault::Directory);
    }
    if let Some(device) = BlockDevice::of_node(metadata) {
        return Ok(Some(device));
    }
    if kind.is_fifo() {
        return Err(ImageFault::Fifo);
    }
    if kind.is_socket() {
        return Err(ImageFault::Socket);
    }
    if kind.is_char_device() {
        return Err(ImageFault::CharacterDevice);
    }
    let message = "neither a file nor a block device";
    Err(ImageFault::Io(io::Error::new(ErrorKind::InvalidInput, message)))
}

// Opens and locks a file for reading, beside others that only read it.
fn open_to_look<R: Files<File = File> + AllocGlobal>(
    rt: &R,
    path: &str,
) -> Result<FileDevice, ImageFault>
    ensures { IfOk result (λ device. (device.sectors ≤ 2 ^ 54) × (device.writable ≡ false) × (device.sync_failed ≡ false)) }
{
    let block_device = check_kind(&fs::metadata(rt, path).map_err(fault_of)?)?;
    let file = File::open(rt, path).map_err(fault_of)?;
    file.try_lock_shared().map_err(lock_fault)?;
    device_of(rt, file, block_device, false)
}

// Opens and locks a file for reading and writing, against all others.
fn open_to_change<R: Files<File = File> + AllocGlobal>(
    rt: &R,
    path: &str,
) -> Result<FileDevice, ImageFault>
    ensures { IfOk result (λ device. (device.sectors ≤ 2 ^ 54) × (device.writable ≡ true) × (device.sync_failed ≡ false)) }
{
    let metadata = fs::metadata(rt, path).map_err(fault_of)?;
    let block_device = check_kind(&metadata)?;

    // Before it is opened, since closing what could be written is an event to udev.
    check_writable(rt, block_device)?;
    check_unused(rt, &metadata)?;
    match OpenOptions::new().read(true).write(true).open(rt, path) {
        Ok(file) => {
            file.try_lock().map_err(lock_fault)?;
            let device = device_of(rt, file, block_device, true)?;
            // What a killed program wrote may be in the system's memory alone. What is read is trusted, and built on.
            device.file.sync_data().map_err(ImageFault::Io)?;
            Ok(device)
        }
        Err(error) if is_write_refused(error.kind()) => {
            // What can't be read either is refused as such.
            File::open(rt, path).map_err(fault_of)?;
            Err(ImageFault::NotWritable)
        }
        Err(error) => Err(fault_of(error)),
    }
}

// Refuses a block device that the system lets nobody write to.
fn check_writable<R: Files + AllocGlobal>(
    rt: &R,
    block_device: Option<BlockDevice>,
) -> Result<(), ImageFault> {
    match block_device {
        Some(device) if device.is_read_only(rt).map_err(ImageFault::Io)? => {
            Err(ImageFault::NotWritable)
        }
        _ => Ok(()),
    }
}

// The device in a file that was opened and locked.
fn device_of<R: Files<File = File> + AllocGlobal>(
    rt: &R,
    mut file: File,
    block_device: Option<BlockDevice>,
    writable: bool,
) -> Result<FileDevice, ImageFault>
    ensures { IfOk result (λ device. (device.sectors ≤ 2 ^ 54) × (device.writable ≡ writable) × (device.sync_failed ≡ false)) }
{
    let metadata = file.metadata().map_err(fault_of)?;
    if check_kind(&metadata)? != block_device {
        let message = "another file took its place while it was opened";
        return Err(ImageFault::Io(io::Error::new(ErrorKind::Other, message)));
    }
    let lock = match block_device {
        Some(device) => lock_all_nodes(rt, device, writable)?,
        None => None,
    };

    let backing = Backing::of_file(rt, &metadata).map_err(ImageFault::Io)?;

    // A block device says its length only so: its metadata has 0.
    let len = file.seek(SeekFrom::End(0)).map_err(fault_of)?;
    Ok(FileDevice {
        file,
        _lock: lock,
        backing,
        sectors: (len / 512).min(1 << 54),
        writable,
        has_holes: metadata.file_type().is_file() && metadata.blocks() < len / 512,
        sync_failed: false,
        faults: FaultList::empty(),
    })
}

// Locks what all nodes of a block device share, where there is such a file.
fn lock_all_nodes<R: Files<File = File> + AllocGlobal>(
    rt: &R,
    device: BlockDevice,
    writable: bool,
) -> Result<Option<File>, ImageFault> {
    let Some(file) = device.open_common(rt).map_err(ImageFault::Io)? else {
        return Ok(None);
    };
    let locked = if writable {
        file.try_lock()
    } else {
        file.try_lock_shared()
    };
    locked.map_err(lock_fault)?;
    Ok(Some(file))
}

// Whether a file that can't be opened for writing may still be read.
fn is_write_refused(kind: ErrorKind) -> bool
    ensures { IsTrue result ↔ ((kind ≡ ErrorKind.PermissionDenied) ⊎ (kind ≡ ErrorKind.ReadOnlyFilesystem) ⊎ (kind ≡ ErrorKind.ExecutableFileBusy)) }
{
    matches!(
        kind,
        ErrorKind::PermissionDenied | ErrorKind::ReadOnlyFilesystem | ErrorKind::ExecutableFileBusy
    )
}

fn fault_of(error: io::Error) -> ImageFault {
    match error.kind() {
        ErrorKind::NotFound => ImageFault::Missing,
        ErrorKind::PermissionDenied => ImageFault::NoPermission,
        _ => ImageFault::Io(error),
    }
}

fn lock_fault(error: TryLockError) -> ImageFault
    ensures { (result ≡ ImageFault.Locked) ↔ (error ≡ TryLockError.WouldBlock) }
{
    match error {
        TryLockError::WouldBlock => ImageFault::Locked,
        TryLockError::Error(error) => ImageFault::Io(error),
    }
}

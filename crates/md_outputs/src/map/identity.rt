// From what a read reads, so that one which goes on reads the same.
use md_badblocks::BadSet;
use md_bitmap::{BitmapHeader, HEADER_BYTES, Marks};
use md_device::Device;
use md_files::{FileDevice, MapText};
use md_images::{Access, ImageFault};
use md_members::{MemberFault, MemberInfo, read_member};
use md_words::{ArrayCommand, Command, Request};
use sha2::{Digest, Sha256};
use std::alloc::AllocError;
use std::fs::{self, File, Files};
use std::io::ErrorKind;
use std::os::unix::fs::MetadataExt;

// Where the superblock stands, and how many bytes it has with all of its roles.
const SUPER_SECTOR: u64 = 8;

const SUPER_BYTES: usize = 4096;

/// Why it is not known from what is read.
#[derive(Drop)]
pub(crate) enum IdentityFault {
    /// The image with this index can't be looked at.
    Image(usize, ImageFault),
    NoMemory,
}

/// The images of a read, held so that nobody changes them as long as this is there, and a text that says which they are: a line of
/// the options, and then one for each image in the order in which they are named, since of several that are as new the first one
/// decides what is read.
#[derive(Drop)]
pub struct Identity {
    _held: Vec<FileDevice>,
    pub(crate) options: String,
    pub(crate) images: Vec<String>,
}

impl Identity {
    /// That of the images that the words name; these are the maps.
    pub(crate) fn of<R: Files<File = File> + AllocGlobal>(
        rt: &R,
        request: &Request<'_>,
        maps: &[MapText],
    ) -> Result<Identity, IdentityFault> {
        let alloc = rt.alloc();
        let mut held = Vec::new(alloc);
        let mut images = Vec::new(alloc);
        for (place, name) in request.images.iter().enumerate() {
            let mut device = match FileDevice::open(rt, name, Access::Look) {
                Ok(device) => device,
                Err(fault) => return Err(opening_fault(place, fault)),
            };
            let line = image_line(rt, name, place, &mut device, maps)?;
            if images.push(line).is_err() || held.push(device).is_err() {
                return Err(IdentityFault::NoMemory);
            }
        }
        Ok(Identity {
            _held: held,
            options: options_line(rt, request)?,
            images,
        })
    }
}

// Where the system has no memory to open an image, that is `NoMemory` too.
fn opening_fault(place: usize, fault: ImageFault) -> IdentityFault {
    match fault {
        ImageFault::Io(error) if error.kind() == ErrorKind::OutOfMemory => IdentityFault::NoMemory,
        fault => IdentityFault::Image(place, fault),
    }
}

// What is asked for.
fn options_line<R: AllocGlobal>(rt: &R, request: &Request<'_>) -> Result<String, AllocError> {
    let Command::Array(
        ArrayCommand::Read {
            sector,
            count,
            fill,
            ..
        },
    ) = request.command
    else {
        return Ok(String::new(rt.alloc()));
    };
    let fill = if fill { "with" } else { "without" };
    match count {
        Some(count) => {
            format!(in rt.alloc(); "# Read: from sector {sector}, {count} sectors, {fill} --fill\n")
        }
        None => format!(in rt.alloc();
            "# Read: from sector {sector}, all sectors, {fill} --fill\n"
        ),
    }
}

// Which member an image shows, and sums over what decides from where its sectors are read.
fn image_line<R: Files<File = File> + AllocGlobal>(
    rt: &R,
    name: &str,
    place: usize,
    device: &mut FileDevice,
    maps: &[MapText],
) -> Result<String, AllocError> {
    let alloc = rt.alloc();
    let mut line = format!(in alloc; "# Image {place}: ")?;
    let mut sum = Sha256::new();
    add_superblock(&mut sum, device);
    match read_member(alloc, device) {
        Ok(member) => {
            add_member(&mut sum, &member);
            let superblock = &member.superblock;
            write!(
                line,
                "device {} {}",
                superblock.dev_number, superblock.device_uuid
            )?;
        }
        Err(MemberFault::NoMemory) => return Err(AllocError),
        // The command refuses it.
        Err(_) => line.push_str("no member")?,
    }
    push_written(rt, name, &mut line)?;
    line.push_str(", metadata ")?;
    push_sum(&mut line, sum)?;
    line.push_str(", map ")?;
    match maps.iter().find(|map| map.image == place) {
        Some(map) => {
            let mut sum = Sha256::new();
            sum.update(map.text.as_slice());
            push_sum(&mut line, sum)?;
        }
        None => line.push_str("none")?,
    }
    line.push_str("\n")?;
    Ok(line)
}

// When its file was last written, whatever changed there. A disk does not tell.
fn push_written<R: Files>(rt: &R, name: &str, line: &mut String) -> Result<(), AllocError> {
    match fs::metadata(rt, name) {
        Ok(metadata) if metadata.is_file() => write!(
            line,
            ", written {}.{:09}",
            metadata.mtime(),
            metadata.mtime_nsec()
        ),
        Ok(_) => Ok(()),
        Err(error) if error.kind() == ErrorKind::OutOfMemory => Err(AllocError),
        Err(_) => line.push_str(", unknown when written"),
    }
}

// The superblock as it is stored, where it can be read.
fn add_superblock(sum: &mut Sha256, device: &mut FileDevice) {
    let mut bytes = [0; SUPER_BYTES];
    let sectors = SUPER_BYTES as u64 / 512;
    if device.sectors() < SUPER_SECTOR + sectors {
        return;
    }
    if device.read(SUPER_SECTOR, &mut bytes).is_ok() {
        sum.update(bytes.as_slice());
    }
}

// What its bitmap and its bad block log say.
fn add_member(sum: &mut Sha256, member: &MemberInfo) {
    if let Some(header) = &member.header {
        add_header(sum, header);
    }
    if let Some(marks) = &member.marks {
        add_marks(sum, marks);
    }
    add_runs(sum, &member.bad);
}

fn add_header(sum: &mut Sha256, header: &BitmapHeader) {
    let mut bytes = [0; HEADER_BYTES];
    header.encode(&mut bytes);
    sum.update(bytes.as_slice());
}

fn add_marks(sum: &mut Sha256, marks: &Marks) {
    sum.update(marks.count().to_le_bytes().as_slice());
    for chunk in 0..marks.chunks() {
        if marks.is_marked(chunk) {
            sum.update(chunk.to_le_bytes().as_slice());
        }
    }
}

fn add_runs(sum: &mut Sha256, bad: &BadSet) {
    for run in bad.runs() {
        sum.update(run.start.to_le_bytes().as_slice());
        sum.update(run.len.to_le_bytes().as_slice());
    }
}

/// Puts a sum at the end of a line.
pub(crate) fn push_sum(line: &mut String, sum: Sha256) -> Result<(), AllocError> {
    for byte in &sum.finalize() {
        write!(line, "{byte:02x}")?;
    }
    Ok(())
}

impl From<AllocError> for IdentityFault {
    fn from(_: AllocError) -> IdentityFault {
        IdentityFault::NoMemory
    }
}

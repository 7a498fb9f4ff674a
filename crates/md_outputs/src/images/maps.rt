// Images under the maps that words name.
use crate::images::files::FileImages;
use crate::images::stray_data::stray_data;
use md_badblocks::BadSet;
use md_files::{
    LackingFault, MapFault, MapRefusal, MapText, MapWord, MapsFault, MaskedImages, map_list,
    mask_images, strange_command,
};
use md_images::ImageRefusal;
use md_streams::{Output, put_name};
use md_words::Request;
use std::alloc::{AllocError, Global};
use std::fs::{self, File};
use std::io::{self, ErrorKind, Read, Write};

// No map of a disk has so many bytes: each block of it takes some 40.
const LIMIT: u64 = 64 << 20;

// So much of a map's own line is shown.
const SHOWN: usize = 400;

/// Images under maps, the texts of these, what each image lacks by its map, in the order of the images, and the lines that tell of copies
/// which have data there.
#[derive(Drop)]
pub struct Masked<'a> {
    pub images: MaskedImages<FileImages<'a>>,
    pub texts: Vec<MapText>,
    pub lacking: Vec<BadSet>,
    pub stray: Vec<u8>,
}

impl<'a> Masked<'a> {
    /// Images of which none is named.
    pub fn without_maps(alloc: Global, images: FileImages<'a>) -> Masked<'a> {
        Masked {
            images: MaskedImages::new(alloc, images),
            texts: Vec::new(alloc),
            lacking: Vec::new(alloc),
            stray: Vec::new(alloc),
        }
    }
}

/// The images that a command names, under the maps that it names. All maps are read before any image is opened to be changed.
/// `err` gets a line if a map's own line names another copy than the one for which it is given. If a copy has data that it does
/// not have according to its map, `goes_on_over` tells.
pub fn masked_images<'a, E: Write>(
    rt: &HostRuntime,
    request: &Request<'_>,
    images: FileImages<'a>,
    err: &mut E,
) -> Result<Masked<'a>, MapsFault> {
    let Ok(names) = names_of(rt.alloc(), request) else {
        return Err(MapsFault::NoMemory);
    };
    let words = map_list(rt.alloc(), &request.images, &request.maps)?;
    let texts = map_texts(rt, &words)?;
    let mut images = mask_images(rt.alloc(), images, &names, &texts)?;
    let lacking = lacking_list(rt.alloc(), &mut images, &names, &texts)?;
    let mut stray = Vec::new(rt.alloc());
    for (word, text) in request.maps.iter().zip(&texts) {
        if let Some(command) = strange_command(&names, text) {
            let _ = tell_strange(word, command, err);
        }
        if let Some(name) = names.get(text.image)
            && let Some(missing) = lacking.get(text.image)
            && let Some(sector) = stray_data(rt, name, missing)
            && tell_stray(word, sector, &mut stray).is_none()
        {
            return Err(MapsFault::NoMemory);
        }
    }
    Ok(Masked {
        images,
        texts,
        lacking,
        stray,
    })
}

// What each image lacks by its map, once more: what is in a mask stays there. Where there are no maps the list is empty.
fn lacking_list(
    alloc: Global,
    images: &mut MaskedImages<FileImages<'_>>,
    names: &[&str],
    texts: &[MapText],
) -> Result<Vec<BadSet>, MapsFault> {
    let mut list = Vec::new(alloc);
    if texts.is_empty() {
        return Ok(list);
    }
    for (image, name) in names.iter().enumerate() {
        let missing = missing_in(alloc, images, image, name, texts)?;
        if list.push(missing).is_err() {
            return Err(MapsFault::NoMemory);
        }
    }
    Ok(list)
}

fn missing_in(
    alloc: Global,
    images: &mut MaskedImages<FileImages<'_>>,
    image: usize,
    name: &str,
    texts: &[MapText],
) -> Result<BadSet, MapsFault> {
    let Some(place) = texts.iter().position(|text| text.image == image) else {
        return Ok(BadSet::new(alloc));
    };
    match images.lacking(name, texts[place].text.as_slice()) {
        Ok(missing) => Ok(missing),
        Err(LackingFault::Image(fault)) => {
            Err(MapsFault::BadImage(image, ImageRefusal::Unopened(fault)))
        }
        Err(LackingFault::Map(MapFault::NoMemory)) => Err(MapsFault::NoMemory),
        Err(LackingFault::Map(fault)) => Err(MapsFault::BadMap(place, MapRefusal::Map(fault))),
    }
}

// The copy may have another name since, or the map be another's: who gave it knows. None where the output fails.
fn tell_strange<E: Write>(word: &str, command: &[u8], err: &mut E) -> Option<()> {
    write!(err, "mdcli: ").ok()?;
    put_name(&mut Output::new(&mut *err), word).ok()?;
    write!(err, ": the map's own line does not name this copy: ").ok()?;
    for byte in &command[..command.len().min(SHOWN)] {
        match byte {
            b' '..=b'~' => err.write_all(&[*byte]).ok()?,
            _ => write!(err, "\\x{byte:02X}").ok()?,
        }
    }
    writeln!(err).ok()
}

// ddrescue writes nothing where it could read nothing. So the data came later, or the map is another copy's. None where the output fails.
fn tell_stray<E: Write>(word: &str, sector: u64, err: &mut E) -> Option<()> {
    write!(err, "mdcli: ").ok()?;
    put_name(&mut Output::new(&mut *err), word).ok()?;
    writeln!(
        err,
        ": the copy has data in sector {sector}, which it lacks by this map: perhaps the map is another copy's"
    )
    .ok()
}

// The images that are listed, and then the one that joins.
fn names_of<'a>(alloc: Global, request: &Request<'a>) -> Result<Vec<&'a str>, AllocError> {
    let mut names = Vec::from_slice(alloc, &request.images)?;
    if let Some(device) = request.command.device() {
        names.push(device)?;
    }
    Ok(names)
}

fn map_texts(rt: &HostRuntime, words: &[MapWord<'_>]) -> Result<Vec<MapText>, MapsFault> {
    let mut texts = Vec::new(rt.alloc());
    for (place, word) in words.iter().enumerate() {
        let text = match read_text(rt, word.file) {
            Ok(text) => text,
            Err(error) => return Err(unread(place, error)),
        };
        if text.len() as u64 > LIMIT {
            return Err(MapsFault::BadMap(place, MapRefusal::TooLong));
        }
        let image = word.image;
        if texts.push(MapText { image, text }).is_err() {
            return Err(MapsFault::NoMemory);
        }
    }
    Ok(texts)
}

// The bytes of a file, or the first of them where there are too many.
fn read_text(rt: &HostRuntime, path: &str) -> io::Result<Vec<u8>> {
    let mut text = Vec::new(rt.alloc());
    // This comes before it is opened: to open a pipe would wait for its other end.
    if !fs::metadata(rt, path)?.is_file() {
        return Err(io::Error::new(ErrorKind::InvalidInput, "it is no regular file"));
    }
    let file = File::open(rt, path)?;
    file.take(LIMIT + 1).read_to_end(&mut text)?;
    Ok(text)
}

fn unread(place: usize, error: io::Error) -> MapsFault {
    if error.kind() == ErrorKind::OutOfMemory {
        return MapsFault::NoMemory;
    }
    MapsFault::BadMap(place, MapRefusal::Unread(error))
}

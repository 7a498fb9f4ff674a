// Where a read goes on, or begins so that it can.
use crate::made::{MadeFile, sync_folder};
use crate::map::{
    Difference, HEADING, Identity, IdentityFault, Kept, KeptMap, Lacking, Progressed, Purpose,
    ResumeFault, Standing, end_line, file_line,
};
use crate::resuming::names::Names;
use crate::resuming::refusal::{
    ResumeRefusal, no_memory, unread_output, unwritten_map, unwritten_output,
};
use crate::resuming::resumed_file::{MOST_BEHIND, ResumedFile};
use md_files::MapText;
use md_streams::Gaps;
use md_words::Request;
use std::alloc::Global;
use std::fs::{File, Files};
use std::io::{self, ErrorKind, Read};
use std::time::Clock;

const SECTOR: u64 = 512;

/// A file that a read goes on to write, how many sectors stand in it, and which of them were not given.
#[derive(Drop)]
pub struct Resumed<'a, R> {
    pub file: ResumedFile<'a, R>,
    pub stands: u64,
    pub gaps: Gaps,
}

/// Holds the images of a read that may go on, where the words that were parsed ask for one; these are the maps.
pub fn identity_of<E, R: Files<File = File> + AllocGlobal>(
    rt: &R,
    parsed: &Result<Request<'_>, E>,
    maps: &[MapText],
) -> Result<Option<Identity>, ResumeRefusal> {
    let request = match parsed {
        Ok(request) if request.resume => request,
        Ok(_) | Err(_) => return Ok(None),
    };
    match Identity::of(rt, request, maps) {
        Ok(identity) => Ok(Some(identity)),
        Err(IdentityFault::Image(place, fault)) => Err(ResumeRefusal::Image(place, fault)),
        Err(IdentityFault::NoMemory) => Err(no_memory()),
    }
}

/// The file and the map under these names, where a read may go on that reads from this.
pub fn resumed_of<'a, R: Files<File = File> + AllocGlobal + Clock>(
    rt: &'a R,
    names: Option<Names<'_>>,
    identity: Option<Identity>,
    lacking: &'a Lacking,
) -> Result<Option<Resumed<'a, R>>, ResumeRefusal> {
    let Some(names) = names else {
        return Ok(None);
    };
    let Some(identity) = identity else {
        return Ok(None);
    };
    let alloc = rt.alloc();
    let purpose = Purpose::new(alloc, names.output, identity, names.sector)?;
    let place = Place {
        rt,
        lacking,
        output: String::from_str(alloc, names.output)?,
        map: String::from_str(alloc, names.map)?,
    };
    let resumed = place.resume(purpose)?;
    Ok(Some(resumed))
}

// Whether a map that is to be begun had a file under its name already, empty or with a part of its first text.
#[derive(Clone, Copy)]
enum MapWas {
    There,
    Missing,
}

// Where a read goes on: the names of the file and of its map.
#[derive(Drop)]
struct Place<'a, R> {
    rt: &'a R,
    lacking: &'a Lacking,
    output: String,
    map: String,
}

impl<'a, R: Files<File = File> + AllocGlobal + Clock> Place<'a, R> {
    // Opens the file and the map, or makes them, where neither is there. Nothing is changed where they are refused.
    fn resume(self, purpose: Purpose) -> Result<Resumed<'a, R>, ResumeRefusal> {
        // It is there before anything is made.
        let unmade = purpose.unmade()?;
        let map = open_if_there(self.rt, &self.map, Kept::Map)?;
        let output = open_if_there(self.rt, &self.output, Kept::Output)?;
        let Some(map) = map else {
            if output.is_some() {
                return Err(ResumeRefusal::Resume(ResumeFault::Missing));
            }
            let map = make_map(self.rt, &self.map)?;
            return self.begin(map, MapWas::Missing, purpose, &unmade);
        };
        let Some(output) = output else {
            check_unmade(&purpose, &unmade, &map)?;
            return self.begin(map, MapWas::There, purpose, &unmade);
        };
        self.go_on(map, output, purpose)
    }

    // Begins a read: the map says that its file is not made yet, then that nothing stands in it. A map that was there before is not taken
    // away where the file can't be made: its name may be a mistake.
    fn begin(
        self,
        map: MadeFile,
        was: MapWas,
        purpose: Purpose,
        unmade: &str,
    ) -> Result<Resumed<'a, R>, ResumeRefusal> {
        let Place {
            rt,
            lacking,
            output,
            map: path,
        } = self;
        let map = KeptMap::new(rt, path, map);
        if let Err(error) = map.begin(unmade) {
            map.take_away();
            return Err(unwritten_map(error));
        }
        match make_output(rt, &output) {
            Ok(made) => begin_output(rt, &output, map, made, purpose, lacking),
            Err(refusal) => {
                match was {
                    MapWas::Missing => map.take_away(),
                    MapWas::There => {}
                }
                Err(refusal)
            }
        }
    }

    // Goes on where the map says that the file stands.
    fn go_on(
        self,
        map: MadeFile,
        made: MadeFile,
        purpose: Purpose,
    ) -> Result<Resumed<'a, R>, ResumeRefusal> {
        let Place {
            rt,
            lacking,
            output,
            map: path,
        } = self;
        let text = text_of(&purpose, &map)?;
        let progressed = purpose.read(&text)?;
        let length = length_of(&made)?;
        let map = KeptMap::new(rt, path, map);
        match progressed {
            Progressed::Stands(standing) => {
                check_output(purpose.alloc, &made, length, &standing)?;
                go_on_behind(rt, map, made, purpose, standing, lacking)
            }
            Progressed::Unmade if length == 0 => {
                begin_output(rt, &output, map, made, purpose, lacking)
            }
            Progressed::Unmade => Err(ResumeRefusal::Resume(ResumeFault::BadOutput)),
        }
    }
}

// The file is made, and empty.
fn begin_output<'a, R: Files<File = File> + AllocGlobal + Clock>(
    rt: &'a R,
    path: &str,
    mut map: KeptMap<'a, R>,
    made: MadeFile,
    purpose: Purpose,
    lacking: &'a Lacking,
) -> Result<Resumed<'a, R>, ResumeRefusal> {
    if let Err(refusal) = store_empty(rt, path, &made, &purpose, &mut map) {
        made.take_away(rt, path);
        map.take_away();
        return Err(refusal);
    }
    Ok(Resumed {
        file: ResumedFile::new(rt, made, map, purpose, lacking, 0),
        stands: 0,
        gaps: Gaps::none(rt.alloc()),
    })
}

// Goes on behind the sectors that stand.
fn go_on_behind<'a, R: Files<File = File> + AllocGlobal + Clock>(
    rt: &'a R,
    map: KeptMap<'a, R>,
    made: MadeFile,
    purpose: Purpose,
    standing: Standing,
    lacking: &'a Lacking,
) -> Result<Resumed<'a, R>, ResumeRefusal> {
    let Standing { sectors, gaps, .. } = standing;
    lacking.add(gaps.missing.runs(), gaps.others.runs());
    Ok(Resumed {
        file: ResumedFile::new(rt, made, map, purpose, lacking, sectors),
        stands: sectors,
        gaps,
    })
}

// A file that is there, locked.
fn open_if_there<R: Files<File = File>>(
    rt: &R,
    path: &str,
    kept: Kept,
) -> Result<Option<MadeFile>, ResumeFault> {
    match MadeFile::open(rt, path) {
        Ok(file) => Ok(Some(file)),
        Err(error) if error.kind() == ErrorKind::NotFound => Ok(None),
        Err(error) => Err(ResumeFault::of_io(kept, error)),
    }
}

fn make_map<R: Files<File = File>>(rt: &R, path: &str) -> Result<MadeFile, ResumeRefusal> {
    make_locked(rt, path).map_err(unwritten_map)
}

fn make_output<R: Files<File = File>>(rt: &R, path: &str) -> Result<MadeFile, ResumeRefusal> {
    make_locked(rt, path).map_err(unwritten_output)
}

fn make_locked<R: Files<File = File>>(rt: &R, path: &str) -> io::Result<MadeFile> {
    let file = MadeFile::make(rt, path)?;
    match file.lock() {
        Ok(()) => Ok(file),
        Err(error) => {
            file.take_away(rt, path);
            Err(error)
        }
    }
}

// Refuses a map without its file, unless it says that this is not made yet, as far as it was written.
fn check_unmade(purpose: &Purpose, unmade: &str, map: &MadeFile) -> Result<(), ResumeFault> {
    let text = text_of(purpose, map)?;
    if unmade.as_bytes().starts_with(&text) {
        return Ok(());
    }
    let _ = purpose.read(&text)?;
    Err(ResumeFault::Missing)
}

// What the map has. Of what begins otherwise, perhaps a disk's image, no more than that is read.
fn text_of(purpose: &Purpose, map: &MadeFile) -> Result<Vec<u8>, ResumeFault> {
    let mut text = Vec::new(purpose.alloc);
    match read_text(map, &mut text) {
        Ok(()) => Ok(text),
        Err(error) => Err(ResumeFault::of_io(Kept::Map, error)),
    }
}

fn read_text(map: &MadeFile, text: &mut Vec<u8>) -> io::Result<()> {
    map.file().take(HEADING.len() as u64).read_to_end(text)?;
    if text.as_slice() == HEADING.as_bytes() {
        map.file().take(u64::MAX).read_to_end(text)?;
    }
    Ok(())
}

fn length_of(output: &MadeFile) -> Result<u64, ResumeFault> {
    let metadata = output.file().metadata().map_err(unread_output)?;
    Ok(metadata.len())
}

// The map says that nothing stands in the file, which is empty, once it is on its disk that the file is there.
fn store_empty<R: Files<File = File> + AllocGlobal>(
    rt: &R,
    path: &str,
    output: &MadeFile,
    purpose: &Purpose,
    map: &mut KeptMap<'_, R>,
) -> Result<(), ResumeRefusal> {
    sync_folder(rt, path).map_err(unwritten_output)?;
    let alloc = purpose.alloc;
    let which = file_line(alloc, output.file()).map_err(unwritten_output)?;
    let end = end_line(alloc, output.file(), 0).map_err(unwritten_output)?;
    let text = purpose.standing(0, &which, &end, Gaps::none(alloc))?;
    map.replace(&text).map_err(unwritten_map)?;
    map.store_name().map_err(unwritten_map)
}

// The file, which is so long, has to be the one of which its map says that these sectors stand, and end as that says. What it has behind
// them is cut off then, so it can be no more than a read leaves which is interrupted; and nothing where none stand, since what it is
// shows by nothing then.
fn check_output(
    alloc: Global,
    output: &MadeFile,
    length: u64,
    standing: &Standing,
) -> Result<(), ResumeFault> {
    let which = file_line(alloc, output.file()).map_err(unread_output)?;
    if which != standing.file_line {
        return Err(ResumeFault::Differs(Difference::File));
    }
    let end = standing.sectors.saturating_mul(SECTOR);
    let behind = length.saturating_sub(end);
    if length < end || behind > MOST_BEHIND || (end == 0 && behind > 0) {
        return Err(ResumeFault::BadOutput);
    }
    let ends = end_line(alloc, output.file(), end).map_err(unread_output)?;
    if ends != standing.end_line {
        return Err(ResumeFault::BadOutput);
    }
    Ok(())
}

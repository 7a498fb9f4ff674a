// The map that a read makes.
use crate::made::MadeFile;
use md_badblocks::BadSet;
use md_files::{MapOutFault, map_out_advice, write_map_of_read};
use md_streams::{Gaps, Messages, Sink, put_name};
use md_words::{ArrayCommand, Command, Request};
use std::io::{self, ErrorKind, Write};

// What the file has until the map is whole. ddrescue takes an empty map as that of a copy of which nothing was read yet, and would
// overwrite all that a killed read had put out. The map is longer, so that nothing of this line stays.
const UNFINISHED: &[u8] = b"unfinished\n";

/// A file that a read makes: ddrescue's map of the array, up to the last sector that is read.
#[derive(Clone, Copy)]
pub struct MapOut<'a> {
    path: &'a str,
    sector: u64,
}

impl<'a> MapOut<'a> {
    /// That of the words that were parsed, if they ask for one that is made at the end.
    pub fn of_parsed<E>(parsed: &Result<Request<'a>, E>) -> Option<MapOut<'a>> {
        let Ok(request) = parsed else {
            return None;
        };
        MapOut::of(request)
    }

    fn of(request: &Request<'a>) -> Option<MapOut<'a>> {
        let Command::Array(ArrayCommand::Read { sector, .. }) = request.command else {
            return None;
        };
        if request.resume {
            return None;
        }
        let path = request.map_out?;
        Some(MapOut { path, sector })
    }

    // Makes the file, before any image is opened to be changed, with a line that ddrescue refuses. Nothing that is there is
    // overwritten: it may be an image.
    fn begin(&self, rt: &HostRuntime) -> Result<MadeFile, MapOutFault> {
        let file = MadeFile::make(rt, self.path).map_err(making_fault)?;
        if let Err(error) = file.write_whole(UNFINISHED) {
            file.take_away(rt, self.path);
            return Err(MapOutFault::Unwritten(error));
        }
        Ok(file)
    }

    // Writes it once all sectors, so many, are put out, of which these are missing.
    fn write(
        &self,
        rt: &HostRuntime,
        file: &MadeFile,
        count: u64,
        missing: BadSet,
    ) -> Result<(), MapOutFault> {
        let Ok(text) = write_map_of_read(rt.alloc(), self.sector, count, missing) else {
            return Err(MapOutFault::NoMemory);
        };
        file.write_named(rt, self.path, text.as_bytes())
            .map_err(MapOutFault::Unwritten)
    }
}

// Why its file can't be made.
fn making_fault(error: io::Error) -> MapOutFault {
    if error.kind() == ErrorKind::AlreadyExists {
        return MapOutFault::Exists;
    }
    MapOutFault::Unwritten(error)
}

/// Says why a map under this name is not made, as `run` says why a command is refused.
pub fn tell_map_out<E: Write + Sink>(
    fault: MapOutFault,
    path: &str,
    messages: Messages,
    err: &mut E,
) {
    let what_to_do = map_out_advice(&fault);
    tell_map_with_advice(fault, what_to_do, path, messages, err);
}

/// Says why this map is not made, and what to do about it.
pub fn tell_map_with_advice<E: Write + Sink>(
    fault: MapOutFault,
    what_to_do: &str,
    path: &str,
    messages: Messages,
    err: &mut E,
) {
    let _ = writeln!(err, "mdcli: {fault}");
    if !messages.has_advice() {
        return;
    }
    let _ = put_name(err, path);
    let _ = match fault {
        MapOutFault::Unwritten(error) => writeln!(err, ": {error}; {what_to_do}"),
        _ => writeln!(err, ": {what_to_do}"),
    };
}

/// A map that was begun, if one is asked for. Its file stays open until it is made.
#[derive(Drop)]
pub struct BegunMap<'a> {
    begun: Option<(MapOut<'a>, MadeFile)>,
}

/// Makes the file of a map, where one is asked for, before any image is read or changed. Says on `err` why it can't.
pub fn begun_map<'a, E: Write + Sink>(
    rt: &HostRuntime,
    map: Option<MapOut<'a>>,
    messages: Messages,
    err: &mut E,
) -> Option<BegunMap<'a>> {
    let Some(map) = map else {
        return Some(BegunMap { begun: None });
    };
    match map.begin(rt) {
        Ok(file) => Some(BegunMap {
            begun: Some((map, file)),
        }),
        Err(fault) => {
            tell_map_out(fault, map.path, messages, err);
            None
        }
    }
}

/// Writes the map, where one was begun and all sectors, so many, are put out; else there is none. In it those count as read that are
/// another member's. Says on `err` why it can't.
pub fn make_map<E: Write + Sink>(
    rt: &HostRuntime,
    map: BegunMap<'_>,
    count: u64,
    gaps: Option<Gaps>,
    messages: Messages,
    err: &mut E,
) -> bool {
    let Some((map, file)) = map.begun else {
        return true;
    };
    let Some(Gaps { missing, .. }) = gaps else {
        file.take_away(rt, map.path);
        return true;
    };
    match map.write(rt, &file, count, missing) {
        Ok(()) => true,
        Err(fault) => {
            tell_map_out(fault, map.path, messages, err);
            file.take_away(rt, map.path);
            false
        }
    }
}

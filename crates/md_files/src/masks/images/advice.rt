// What to do about a map that is refused.
use crate::masks::images::fault::{MapOutFault, MapRefusal};
use crate::masks::maps::{LineFault, MapFault};

/// What to do about a map that is refused.
pub fn map_advice(refusal: &MapRefusal) -> &'static str {
    match refusal {
        MapRefusal::NotListed => { "name it as IMAGE=FILE, with the image as it is listed" }
        MapRefusal::Repeated => "name one map of each image",
        MapRefusal::Unread(_) => "check the path of the map, and its permissions",
        MapRefusal::TooLong =>
            "it is perhaps no map: name the file in which ddrescue keeps its map",
        MapRefusal::OfImage(_) => {
            "its own line names that image, as its second line shows: give each map with its own copy; where the copy got another name since, take that line out of the map"
        }
        MapRefusal::Map(fault) => text_advice(*fault),
    }
}

/// What to do about a map that is not made.
pub fn map_out_advice(fault: &MapOutFault) -> &'static str {
    match fault {
        MapOutFault::Exists =>
            "it is there already, and may be an image: name a file that is not there yet",
        MapOutFault::Unwritten(_) =>
            "see why the file can't be made (its folder, free space, permissions), and read again",
        MapOutFault::NoMemory => "let it use more memory",
    }
}

// What to do about the text of a map.
fn text_advice(fault: MapFault) -> &'static str {
    match fault {
        MapFault::Line { fault, .. } => line_advice(fault),
        MapFault::NoStatusLine => "it is empty: name the file in which ddrescue keeps its map",
        MapFault::EndsAt(_) => {
            "it is of a smaller image, or was cut: name the map that ddrescue kept of this very copy"
        }
        MapFault::NoMemory => "let it use more memory",
    }
}

// What to do about a line of it.
fn line_advice(fault: LineFault) -> &'static str {
    match fault {
        LineFault::Cut => "the map was cut: wait until ddrescue has ended, or copy the map again",
        LineFault::Fields =>
            "it is no map, or is damaged: name the file in which ddrescue keeps its map",
        LineFault::Number =>
            "it is no map, or is damaged: name the file in which ddrescue keeps its map",
        LineFault::Status =>
            "it is no map, or is damaged: name the file in which ddrescue keeps its map",
        LineFault::Overlap => "the map is damaged: take ddrescue's backup of it (FILE.bak)",
        LineFault::Gap =>
            "the map is damaged, or is of a part of the disk: take ddrescue's backup of it (FILE.bak), or a map of the whole",
        LineFault::PastEnd => {
            "the copy is shorter than the disk: lengthen it by `truncate` to the size of the disk; or the map is of another image: name the one that ddrescue kept of this very copy"
        }
    }
}

// What the array may hold: of each sector, the bytes with which it may be filled.
use crate::crashes::images::SECTORS;

// Bit b is set where the sector may be filled with byte b, which is below 64.
#[derive(Clone, Copy)]
pub(crate) struct Content {
    may: [u64; SECTORS],
}

fn bit(byte: u8) -> u64 {
    1 << (byte % 64)
}

// The byte below 64 with which all of it is filled.
fn filling(bytes: &[u8]) -> Option<u8> {
    let first = *bytes.first()?;
    for byte in bytes {
        if *byte != first {
            return None;
        }
    }
    if first < 64 { Some(first) } else { None }
}

impl Content {
    pub(crate) fn filled_with(byte: u8) -> Content {
        Content {
            may: [bit(byte); SECTORS],
        }
    }

    // So many sectors from this one on were written with this byte. Where the write did not answer `Ok` they may be as before, too.
    pub(crate) fn write(&mut self, first: usize, count: usize, byte: u8, is_done: bool) {
        for (sector, may) in self.may.iter_mut().enumerate() {
            if sector >= first && sector - first < count {
                let before = if is_done { 0 } else { *may };
                *may = before | bit(byte);
            }
        }
    }

    // The first sector that the array can't hold so. Each is filled with its byte.
    pub(crate) fn first_wrong(&self, bytes: &[u8; 512 * SECTORS]) -> Option<usize> {
        for (sector, may) in self.may.iter().enumerate() {
            let bytes = bytes.get(512 * sector..512 * sector + 512).unwrap_or(&[]);
            match filling(bytes) {
                Some(byte) if bit(byte) & *may != 0 => {}
                _ => return Some(sector),
            }
        }
        None
    }

    // The array holds these bytes from now on.
    pub(crate) fn take_resynced(&mut self, bytes: &[u8; 512 * SECTORS]) {
        for (sector, may) in self.may.iter_mut().enumerate() {
            if let Some(byte) = bytes.get(512 * sector) {
                *may = bit(*byte);
            }
        }
    }
}

// What the sectors of an array hold: each is filled with a byte.

// Of the array, in 8 chunks.
pub(crate) const SECTORS: usize = 64;

pub(crate) const WHOLE: usize = 512 * SECTORS;

#[derive(Clone, Copy)]
pub(crate) enum Filling {
    // All with this byte.
    Same(u8),
    // Each with its number.
    Number,
    // Each chunk with its byte.
    Chunks([u8; 8]),
}

// From one sector on so many have this byte.
type Other = (usize, usize, u8);

// A filling, but for some sectors, twice.
#[derive(Clone, Copy)]
pub(crate) struct Data(pub(crate) Filling, pub(crate) Other, pub(crate) Other);

pub(crate) const NONE_OTHER: Other = (0, 0, 0);

pub(crate) const NUMBERED: Data = Data(Filling::Number, NONE_OTHER, NONE_OTHER);

fn is_of((first, count, _): Other, sector: usize) -> bool {
    sector >= first && sector - first < count
}

impl Data {
    pub(crate) fn byte(&self, sector: usize) -> u8 {
        let Data(filling, one, two) = *self;
        if is_of(one, sector) {
            return one.2;
        }
        if is_of(two, sector) {
            return two.2;
        }
        match filling {
            Filling::Same(byte) => byte,
            Filling::Number => (sector % 256) as u8,
            Filling::Chunks(bytes) => bytes[sector / 8 % 8],
        }
    }

    // Whether the bytes are those of the sectors from this one on.
    pub(crate) fn is_in(&self, bytes: &[u8], first: usize) -> bool {
        for (k, byte) in bytes.iter().enumerate() {
            if *byte != self.byte(first.saturating_add(k / 512)) {
                return false;
            }
        }
        true
    }
}

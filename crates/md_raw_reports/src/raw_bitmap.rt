// What could be read of a bitmap.

/// What could be read of a bitmap that may be damaged.
#[derive(Clone, Copy)]
pub enum RawBitmap {
    /// Nothing: its place is not known, since the first sector of the superblock could not be read.
    Unplaced,
    /// Nothing: its first sector, which is this one, could not be read.
    Unreadable(u64),
    /// Its first sector, and its marks, where the header there says of how many chunks they are.
    Read([u8; 512], Option<CountedMarks>),
}

/// The marks of a bitmap, as far as they could be read.
#[derive(Clone, Copy)]
pub struct CountedMarks {
    /// The chunks, by the header.
    pub chunks: u32,
    /// How many of them are marked, of those whose marks could be read.
    pub marked: u32,
    pub unread: Option<UnreadMarks>,
}

/// The marks that could not be read: those from this sector on, of so many chunks.
#[derive(Clone, Copy)]
pub struct UnreadMarks {
    pub sector: u64,
    pub chunks: u32,
}

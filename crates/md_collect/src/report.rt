// What came of reading a chunk.
ghost use Rattle.std.specs.Prelude.{◌≡◌, IfNone, IfSome, IsSome, None, Some, is_none, option_map, vec_capacity};
ghost use Rattle.md_collect.specs.Reports.{ReportView};

use std::marker::Model;

/// A chunk's bytes from a source, or that the source could not be read.
#[derive(Debug, Drop)]
pub struct Report {
    pub(crate) chunk: u32,
    pub(crate) source: u8,
    pub(crate) bytes: Option<Vec<u8>>,
    // What a read that failed left, for the sake of its memory. Contracts see no more of it.
    unused: Option<Vec<u8>>,
}

impl Model for Report {
    ghost use Rattle.std.specs.Prelude.{option_map};
    ghost use Rattle.md_collect.specs.Reports.{ReportView, room_of};

    ghost Value = { ReportView };

    ghost view = { λ r. record { chunk = r.chunk; source = r.source; bytes = option_map (λ bytes. bytes.items) r.bytes; room = room_of r.bytes r.unused } };
}

impl Report {
    /// The source gave these bytes. It takes no memory.
    pub fn delivered(chunk: u32, source: u8, bytes: Vec<u8>) -> Report
        ensures { result
            ≡ record { chunk = chunk; source = source; bytes = Some bytes.items; room = vec_capacity bytes } }
    {
        Report {
            chunk,
            source,
            bytes: Some(bytes),
            unused: None,
        }
    }

    /// The source could not be read. It takes no memory.
    pub fn failed(chunk: u32, source: u8) -> Report
        ensures { result ≡ record { chunk = chunk; source = source; bytes = None; room = 0 } }
    {
        Report {
            chunk,
            source,
            bytes: None,
            unused: None,
        }
    }

    // The source could not be read into this memory, which is kept. It takes no memory.
    pub(crate) fn failed_in(chunk: u32, source: u8, memory: Vec<u8>) -> Report
        ensures { result
            ≡ record { chunk = chunk; source = source; bytes = None; room = vec_capacity memory } }
    {
        Report {
            chunk,
            source,
            bytes: None,
            unused: Some(memory),
        }
    }

    /// The chunk that was read.
    pub fn chunk(&self) -> u32
        ensures { result ≡ self.now.chunk }
    {
        self.chunk
    }

    /// Whether the source could not be read.
    pub fn is_failed(&self) -> bool
        ensures { result ≡ is_none self.now.bytes }
    {
        self.bytes.is_none()
    }

    /// The bytes, where the source could be read.
    pub fn bytes(&self) -> Option<&[u8]>
        ensures { option_map (λ bytes. bytes.now) result ≡ self.now.bytes }
    {
        match &self.bytes {
            Some(bytes) => Some(bytes.as_slice()),
            None => None,
        }
    }

    /// The bytes; or, where the read failed, the list that it was to fill, if there was one, whatever is in it.
    /// Its memory can be used again. It takes no memory.
    pub fn into_memory(self) -> Option<Vec<u8>>
        ensures bytes { IsSome self.bytes → option_map (λ bytes. bytes.items) result ≡ self.bytes }
        ensures room { IfSome result (λ memory. vec_capacity memory ≡ self.room) }
        ensures none { IfNone result (self.room ≡ 0) }
    {
        let Report { bytes, unused, .. } = self;
        match bytes {
            Some(bytes) => Some(bytes),
            None => unused,
        }
    }
}

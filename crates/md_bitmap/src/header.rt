// The header of a bitmap.
ghost use Rattle.std.specs.Prelude.{◌≡◌, ◌<◌, ◌&&◌, ◌++◌, take, nat_le, IsTrue, ◌↔◌, IfOk, OnOk, IfErr};
ghost use Rattle.md_format.specs.FirstFault.{IsFirst};
ghost use Rattle.std.specs.Int.{is_power_of_two};
ghost use Rattle.md_bitmap.specs.Sound.{IsChunkSize, IsSoundHeader, chunk_count};
ghost use Rattle.md_bitmap.specs.Faults.{BitmapFaultStands, bitmap_fault_place, NoneStands, bitmap_fault_of};

use crate::fault::BitmapFault;
use md_format::{array_at, put_bytes, put_u32, put_u64, u32_at, u64_at, uuid_at};
use uuid::Uuid;

/// The bytes that a header takes.
pub const HEADER_BYTES: usize = 256;

/// The most chunks that a bitmap has.
pub const MAX_CHUNKS: u32 = 1 << 20;

const MAGIC: u32 = 0x6d74_6962;

const VERSION: u32 = 4;

pub(crate) const SECTOR_BYTES: u64 = 512;

/// The header of a version 4 bitmap. The fields have the names of `md-bitmap.h`; `sync_size` is in
/// sectors and `chunksize` in bytes.
#[derive(Clone, Copy, Debug, PartialEq, Eq)]
pub struct BitmapHeader {
    pub uuid: Uuid,
    pub events: u64,
    pub events_cleared: u64,
    pub sync_size: u64,
    pub state: u32,
    pub chunksize: u32,
    pub daemon_sleep: u32,
    pub write_behind: u32,
    pub sectors_reserved: u32,
    pub nodes: u32,
    pub cluster_name: [u8; 64],
    pub ghost sound: { IsSoundHeader sync_size chunksize },
}

impl BitmapHeader {
    ghost use Rattle.md_bitmap.specs.Header.{IsHeader, CountsFit, SettingsFit, header_bytes, format_bytes, count_bytes, setting_bytes};

    /// The header that the bytes spell, or the first fault in them.
    pub fn decode(bytes: &[u8; 256]) -> Result<BitmapHeader, BitmapFault>
        ensures ok { IfOk result (λ v. IsHeader bytes.now v) }
        ensures sound { OnOk result (NoneStands bytes.now) }
        ensures refused { IfErr result (λ f. IsFirst (BitmapFaultStands bytes.now) bitmap_fault_place f) }
    {
        match first_fault(bytes) {
            Some(fault) => Err(fault),
            None => Ok(BitmapHeader::read_fields(bytes)),
        }
    }

    fn read_fields(bytes: &[u8; 256]) -> BitmapHeader
        requires { NoneStands bytes.now }
        ensures { IsHeader bytes.now result }
    {
        BitmapHeader {
            uuid: uuid_at(bytes, 8),
            events: u64_at(bytes, 24),
            events_cleared: u64_at(bytes, 32),
            sync_size: u64_at(bytes, 40),
            state: u32_at(bytes, 48),
            chunksize: u32_at(bytes, 52),
            daemon_sleep: u32_at(bytes, 56),
            write_behind: u32_at(bytes, 60),
            sectors_reserved: u32_at(bytes, 64),
            nodes: u32_at(bytes, 68),
            cluster_name: array_at(bytes, 72),
        }
    }

    /// Writes the header's bytes. Decoding them gives this header back.
    pub fn encode(&self, out: &mut [u8; 256])
        ensures bytes { out.new ≡ header_bytes self.now }
        ensures header { IsHeader out.new self.now }
        ensures sound { NoneStands out.new }
    {
        self.put_front(out);
        self.put_counts(out);
        self.put_settings(out);
        put_bytes(out, 72, &self.cluster_name);
        put_bytes(out, 136, &[0; 120]);
    }

    fn put_front(&self, out: &mut [u8; 256])
        ensures { take 24 out.new ≡ format_bytes ++ self.now.uuid }
    {
        put_u32(out, 0, MAGIC);
        put_u32(out, 4, VERSION);
        put_bytes(out, 8, self.uuid.as_bytes());
    }

    fn put_counts(&self, out: &mut [u8; 256])
        ensures front { take 48 out.new ≡ take 24 out.old ++ count_bytes self.now }
        ensures fit { CountsFit self.now }
    {
        let BitmapHeader {
            events,
            events_cleared,
            sync_size,
            ..
        } = *self;
        put_u64(out, 24, events);
        put_u64(out, 32, events_cleared);
        put_u64(out, 40, sync_size);
    }

    fn put_settings(&self, out: &mut [u8; 256])
        ensures front { take 72 out.new ≡ take 48 out.old ++ setting_bytes self.now }
        ensures fit { SettingsFit self.now }
    {
        let BitmapHeader {
            state,
            chunksize,
            daemon_sleep,
            write_behind,
            sectors_reserved,
            nodes,
            ..
        } = *self;
        put_u32(out, 48, state);
        put_u32(out, 52, chunksize);
        put_u32(out, 56, daemon_sleep);
        put_u32(out, 60, write_behind);
        put_u32(out, 64, sectors_reserved);
        put_u32(out, 68, nodes);
    }
}

#[tactic(auto, unfolding(crate::specs::Faults::bitmap_fault_of))]
fn first_fault(bytes: &[u8; 256]) -> Option<BitmapFault>
    ensures { result ≡ bitmap_fault_of bytes.now }
{
    if u32_at(bytes, 0) != MAGIC {
        return Some(BitmapFault::Magic);
    }
    if u32_at(bytes, 4) != VERSION {
        return Some(BitmapFault::Version);
    }
    let chunksize = u32_at(bytes, 52);
    if !is_chunk_size(chunksize) {
        return Some(BitmapFault::ChunkSize);
    }
    if !has_few_chunks(u64_at(bytes, 40), chunksize) {
        return Some(BitmapFault::TooManyChunks);
    }
    None
}

/// Whether a bitmap may have chunks of so many bytes.
pub fn is_chunk_size(bytes: u32) -> bool
    ensures value { result ≡ is_power_of_two bytes && nat_le 512 bytes }
    ensures meaning { IsTrue result ↔ IsChunkSize bytes }
{
    bytes.is_power_of_two() && u64::from(bytes) >= SECTOR_BYTES
}

/// Whether chunks of so many bytes cover so many sectors in at most `MAX_CHUNKS`.
pub fn has_few_chunks(sync_size: u64, chunksize: u32) -> bool
    requires { 0 < chunksize }
    ensures { result ≡ nat_le (chunk_count sync_size chunksize) 1048576 }
{
    sync_size <= u64::from(MAX_CHUNKS) * u64::from(chunksize) / SECTOR_BYTES
}

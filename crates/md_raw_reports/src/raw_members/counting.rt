// The marks of a bitmap, counted sector by sector.
ghost use Rattle.std.specs.Prelude.{◌≡◌, ◌<◌, ◌≤◌, ◌*◌, ◌^◌, MatchOption, false, length, true};
ghost use Rattle.md_bitmap.specs.Marks.{count_set, is_set};
ghost use Rattle.md_device.specs.Failing.{OnlyReadsFailed};
ghost use Rattle.md_members.specs.Reading.{CallFails, IsRead, IsReadOf};
ghost use Rattle.md_raw_reports.specs.RawMembers.Raw.{CountsMarks, HasCounts, IsOn, header_chunks, is_countable};

use crate::raw_bitmap::{CountedMarks, UnreadMarks};
use crate::raw_members::read_parts::read_sectors;
use md_bitmap::{
    CHUNKS_OF_HEADER, CHUNKS_OF_SECTOR, Chunks, HEADER_BYTES, has_few_chunks, is_chunk_size,
    sectors_of_bitmap,
};
use md_device::Device;
use md_format::{u32_at, u64_at};

/// Counts the marks of a bitmap that starts at this sector, which has these bytes: those after the header, and then those in each
/// sector that follows, up to the first that is past the end or can't be read. Nothing is counted where the header does not say of
/// how many chunks they are.
#[tactic(auto, using(md_device::proofs::Failing::fails_none, md_device::proofs::Failing::fails_then, md_device::proofs::Failing::fails_call))]
pub(crate) fn count_marks<D: Device>(
    device: &mut D,
    start: u64,
    sector: &[u8; 512],
) -> Option<CountedMarks>
    requires limit { start < 2 ^ 54 }
    requires read { IsRead (D.content device.old) (D.honest device.old) start 512 sector.now }
    ensures kept { D.content device.new ≡ D.content device.old }
    ensures honest { D.honest device.new ≡ D.honest device.old }
    ensures counted { D.failures device.old ≤ D.failures device.new }
    ensures grown { OnlyReadsFailed (D.faults device.old) (D.faults device.new) }
    ensures marks { HasCounts (D.content device.old) (D.honest device.old) (CallFails D.Device device.old device.new) start sector.now result }
{
    match header_chunks(sector) {
        Some(chunks) => Some(count_chunks(device, start, sector, chunks)),
        None => None,
    }
}

// Of how many chunks a bitmap with this first sector has marks, if that can be.
fn header_chunks(sector: &[u8; 512]) -> Option<u32>
    ensures { MatchOption result (is_countable sector.now ≡ false) (λ chunks. (is_countable sector.now ≡ true) × (chunks ≡ header_chunks sector.now) × (chunks ≤ 1048576)) }
{
    let size = u64_at(sector, 40);
    let chunksize = u32_at(sector, 52);
    if !is_chunk_size(chunksize) {
        return None;
    }
    if !has_few_chunks(size, chunksize) {
        return None;
    }
    Some(Chunks::new(size, chunksize).count())
}

#[tactic(auto, using(md_device::proofs::Failing::fails_none, md_device::proofs::Failing::fails_then, md_device::proofs::Failing::fails_call))]
fn count_chunks<D: Device>(
    device: &mut D,
    start: u64,
    sector: &[u8; 512],
    chunks: u32,
) -> CountedMarks
    requires limit { start < 2 ^ 54 }
    requires few { chunks ≤ 1048576 }
    requires read { IsRead (D.content device.old) (D.honest device.old) start 512 sector.now }
    ensures kept { D.content device.new ≡ D.content device.old }
    ensures honest { D.honest device.new ≡ D.honest device.old }
    ensures counted { D.failures device.old ≤ D.failures device.new }
    ensures grown { OnlyReadsFailed (D.faults device.old) (D.faults device.new) }
    ensures marks { CountsMarks (D.content device.old) (D.honest device.old) (CallFails D.Device device.old device.new) start sector.now chunks result }
{
    let sectors = sectors_of_bitmap(chunks);
    let mut done = chunks.min(CHUNKS_OF_HEADER);
    let mut marked = count_bits(&sector[HEADER_BYTES..], done);
    let mut block = [0; 512];
    for k in 1..sectors {
        let at = start + u64::from(k);
        if !read_if_there(device, at, &mut block) {
            return CountedMarks {
                chunks,
                marked,
                unread: Some(UnreadMarks {
                    sector: at,
                    chunks: chunks - done,
                }),
            };
        }
        let more = (chunks - done).min(CHUNKS_OF_SECTOR);
        marked += count_bits(&block, more);
        done += more;
    }
    CountedMarks {
        chunks,
        marked,
        unread: None,
    }
}

// Whether a sector is on the device, and was read.
#[tactic(auto, using(md_device::proofs::Failing::fails_none, md_device::proofs::Failing::fails_then, md_device::proofs::Failing::fails_call))]
fn read_if_there<D: Device>(device: &mut D, sector: u64, bytes: &mut [u8; 512]) -> bool
    ensures kept { D.content device.new ≡ D.content device.old }
    ensures honest { D.honest device.new ≡ D.honest device.old }
    ensures counted { D.failures device.old ≤ D.failures device.new }
    ensures grown { OnlyReadsFailed (D.faults device.old) (D.faults device.new) }
    ensures read { result ≡ true → IsRead (D.content device.old) (D.honest device.old) sector 512 bytes.new }
    ensures unread { result ≡ false → IsOn (D.content device.old) sector → CallFails D.Device device.old device.new (IsReadOf sector 512) }
{
    if sector >= device.sectors() {
        return false;
    }
    match read_sectors(device, sector, bytes) {
        Ok(()) => true,
        Err(_) => false,
    }
}

// How many of the first so many bits are set.
fn count_bits(bytes: &[u8], end: u32) -> u32
    requires { end ≤ 8 * length bytes.now }
    ensures count { result ≡ count_set bytes.now end }
    ensures few { result ≤ end }
{
    let mut total = 0;
    for i in 0..end {
        if is_set(bytes, i) {
            total += 1;
        }
    }
    total
}

fn is_set(bytes: &[u8], i: u32) -> bool
    requires { i < 8 * length bytes.now }
    ensures { result ≡ is_set bytes.now i }
{
    (bytes[(i / 8) as usize] >> (i % 8)) & 1 == 1
}

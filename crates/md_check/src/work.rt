// A member's worker reads a window: the sectors that the member does not list, chunk by chunk.
ghost use Rattle.std.specs.Prelude.{◌≡◌, ◌+◌, ◌*◌, ◌/◌, ◌%◌, ◌<◌, ◌≤◌, [], ℕ, IfErr, IfOk, None, OnErr, OnOk, if◌then◌else◌, length, take, true};
ghost use Rattle.md_device.specs.Device.{held};
ghost use Rattle.md_badblocks.specs.Runs.{IsBad};
ghost use Rattle.md_collect.specs.Places.{HasRoom};
ghost use Rattle.md_device.specs.Failing.{AddsItself, failed_read};
ghost use Rattle.md_collect.specs.Reading.{CountsFailure};
ghost use Rattle.md_collect.specs.Workers.Queues.{OnlyRead};
ghost use Rattle.md_check.specs.Readings.{FailsUnlisted, HasLed, HasReadSectors, HasTurned, HasUnlisted, IsLead, IsToRead};
ghost use Rattle.md_check.specs.Readers.{HasDataOnDevice, IsUsed};
ghost use Rattle.md_check.specs.Told.{IsToldOfReader, IsToldOfSectors};

use crate::reader::{MemberData, Reader};
use crate::window::{Part, Window};
use md_badblocks::BadSet;
use md_bitmap::Chunks;
use md_device::{Device, ReadFault};
use md_streams::Gate;

// How many sectors are compared at once, 64 KiB: what was just read is then still in the processor's cache.
const BLOCK: usize = 128 * 512;

/// A reader's part of a turn: of the first member the next window is read, and of any other the window, which is compared
/// with what was read of the first one. At the first read that fails it ends, and notes the chunk.
pub(crate) fn work<D: Device, G: Gate>(
    gate: &G,
    chunks: Chunks,
    window: Window,
    lead: &[u8],
    k: usize,
    reader: &mut Reader<D>,
)
    requires whole { length lead.now % 512 ≡ 0 }
    requires inside { window.from + length lead.now / 512 + window.ahead ≤ chunks.size }
    requires room { length lead.now ≤ length reader.old.bytes.items }
    requires ahead { 512 * window.ahead ≤ length reader.old.bytes.items }
    requires read_here { HasDataOnDevice D.Device chunks reader.old }
    requires lead { k ≡ window.first → IsLead D.Device window.from lead.now reader.old }
    ensures turned { HasTurned D.Device chunks window.from (length lead.now / 512) (length lead.now / 512 + window.ahead) lead.now reader.old reader.new }
    ensures led { k ≡ window.first → HasLed D.Device (window.from + length lead.now / 512) window.ahead reader.old reader.new }
    ensures told { (k ≡ window.first → ⊥) → reader.new.missed ≡ None
        → IsToldOfReader G.Gate gate.now chunks window.from (length lead.now / 512) reader.old }
    ensures told_ahead { k ≡ window.first → reader.new.missed ≡ None
        → IsToldOfReader G.Gate gate.now chunks (window.from + length lead.now / 512) window.ahead reader.old }
{
    if k == window.first {
        reader.alike = true;
        let next = window.from + lead.len() as u64 / 512;
        fill(gate, chunks, next, window.ahead, reader);
    } else {
        follow(gate, chunks, window.from, lead, reader);
    }
}

/// Reads the first window of so many sectors into the reader's own buffer.
pub(crate) fn begin<D: Device, G: Gate>(
    gate: &G,
    chunks: Chunks,
    sectors: u64,
    reader: &mut Reader<D>,
)
    requires inside { sectors ≤ chunks.size }
    requires room { 512 * sectors ≤ length reader.old.bytes.items }
    requires read_here { HasDataOnDevice D.Device chunks reader.old }
    ensures turned { HasTurned D.Device chunks 0 sectors sectors [] reader.old reader.new }
    ensures told { reader.new.missed ≡ None → IsToldOfReader G.Gate gate.now chunks 0 sectors reader.old }
{
    reader.alike = false;
    fill(gate, chunks, 0, sectors, reader);
}

// Reads so many sectors from this one on into the reader's buffer, if its member is in sync.
fn fill<D: Device, G: Gate>(
    gate: &G,
    chunks: Chunks,
    from: u64,
    sectors: u64,
    reader: &mut Reader<D>,
)
    requires inside { from + sectors ≤ chunks.size }
    requires room { 512 * sectors ≤ length reader.old.bytes.items }
    requires read_here { HasDataOnDevice D.Device chunks reader.old }
    ensures read { HasReadSectors D.Device chunks from sectors reader.old reader.new }
    ensures told { reader.new.missed ≡ None → IsToldOfReader G.Gate gate.now chunks from sectors reader.old }
{
    reader.missed = None;
    let Some(role) = reader.role else {
        return;
    };
    if let Err(chunk) = read_into(gate, chunks, Part { from, sectors }, role, reader) {
        reader.missed = Some(chunk);
    }
}

// Reads the window, of which these bytes were read of the first member, if the reader's member is in sync.
fn follow<D: Device, G: Gate>(
    gate: &G,
    chunks: Chunks,
    from: u64,
    lead: &[u8],
    reader: &mut Reader<D>,
)
    requires whole { length lead.now % 512 ≡ 0 }
    requires inside { from + length lead.now / 512 ≤ chunks.size }
    requires room { length lead.now ≤ length reader.old.bytes.items }
    requires read_here { HasDataOnDevice D.Device chunks reader.old }
    ensures turned { HasTurned D.Device chunks from (length lead.now / 512) (length lead.now / 512) lead.now reader.old reader.new }
    ensures told { reader.new.missed ≡ None
        → IsToldOfReader G.Gate gate.now chunks from (length lead.now / 512) reader.old }
{
    let was_alike = reader.alike;
    reader.missed = None;
    reader.alike = true;
    let Some(role) = reader.role else {
        return;
    };
    let answer = if was_alike && !reader.listed.meets(from, lead.len() as u64 / 512) {
        read_beside(gate, chunks, from, lead, role, reader)
    } else {
        compare_block(gate, chunks, from, lead, role, reader)
    };
    match answer {
        Ok(alike) => reader.alike = alike,
        Err(chunk) => reader.missed = Some(chunk),
    }
}

// Reads a window block by block, and answers whether these bytes were read. At the first block that is not the same the
// window is read again, as a whole. So it is for windows that are likely to be alike: it is done where the one before
// was, and where the member lists no sector, since of a listed one old bytes would be compared.
fn read_beside<D: Device, G: Gate>(
    gate: &G,
    chunks: Chunks,
    from: u64,
    lead: &[u8],
    role: u8,
    reader: &mut Reader<D>,
) -> Result<bool, u32>
    requires whole { length lead.now % 512 ≡ 0 }
    requires inside { from + length lead.now / 512 ≤ chunks.size }
    requires room { length lead.now ≤ length reader.old.bytes.items }
    requires read_here { HasRoom (D.content reader.old.device) reader.old.offset chunks }
    ensures used { IsUsed D.Device reader.old reader.new }
    ensures gave { IfOk result (λ alike. D.honest reader.old.device ≡ true
        → HasUnlisted (D.content reader.old.device) reader.old.offset reader.old.listed from (length lead.now / 512)
        (if alike then lead.now else reader.new.bytes.items)) }
    ensures unfailing { OnOk result (D.failures reader.new.device ≡ D.failures reader.old.device) }
    ensures missed { IfErr result (λ c. IsToRead chunks reader.old.listed from (length lead.now / 512) c) }
    ensures failed { OnErr result (CountsFailure D.Device reader.old.device reader.new.device) }
    ensures there { IfErr result (λ c. FailsUnlisted D.Device reader.old.device reader.new.device reader.old.offset chunks (IsBad reader.old.listed) c) }
    ensures told { OnOk result (IsToldOfSectors G.Gate gate.now role chunks reader.old.listed from (length lead.now / 512)) }
{
    if compare_reads(gate, chunks, from, lead, role, reader)? {
        return Ok(true);
    }
    compare_block(gate, chunks, from, lead, role, reader)
}

// Reads a window block by block, and answers whether these bytes were read. It ends at the first block that is not the
// same.
fn compare_reads<D: Device, G: Gate>(
    gate: &G,
    chunks: Chunks,
    from: u64,
    lead: &[u8],
    role: u8,
    reader: &mut Reader<D>,
) -> Result<bool, u32>
    requires whole { length lead.now % 512 ≡ 0 }
    requires inside { from + length lead.now / 512 ≤ chunks.size }
    requires room { length lead.now ≤ length reader.old.bytes.items }
    requires read_here { HasRoom (D.content reader.old.device) reader.old.offset chunks }
    ensures used { IsUsed D.Device reader.old reader.new }
    ensures gave { IfOk result (λ alike. alike ≡ true → D.honest reader.old.device ≡ true
        → HasUnlisted (D.content reader.old.device) reader.old.offset reader.old.listed from (length lead.now / 512) lead.now) }
    ensures unfailing { OnOk result (D.failures reader.new.device ≡ D.failures reader.old.device) }
    ensures missed { IfErr result (λ c. IsToRead chunks reader.old.listed from (length lead.now / 512) c) }
    ensures failed { OnErr result (CountsFailure D.Device reader.old.device reader.new.device) }
    ensures there { IfErr result (λ c. FailsUnlisted D.Device reader.old.device reader.new.device reader.old.offset chunks (IsBad reader.old.listed) c) }
    ensures told { IfOk result (λ alike. alike ≡ true
        → IsToldOfSectors G.Gate gate.now role chunks reader.old.listed from (length lead.now / 512)) }
{
    let mut done = 0;
    while done < lead.len() {
        let len = BLOCK.min(lead.len() - done);
        let sector = from + done as u64 / 512;
        let block = &lead[done..done + len];
        let alike = compare_block(gate, chunks, sector, block, role, reader)?;
        if !alike {
            return Ok(false);
        }
        done += len;
    }
    Ok(true)
}

// Reads sectors at once, and answers whether these bytes were read. Where they were not, the buffer has what was read.
fn compare_block<D: Device, G: Gate>(
    gate: &G,
    chunks: Chunks,
    from: u64,
    block: &[u8],
    role: u8,
    reader: &mut Reader<D>,
) -> Result<bool, u32>
    requires whole { length block.now % 512 ≡ 0 }
    requires inside { from + length block.now / 512 ≤ chunks.size }
    requires room { length block.now ≤ length reader.old.bytes.items }
    requires read_here { HasRoom (D.content reader.old.device) reader.old.offset chunks }
    ensures used { IsUsed D.Device reader.old reader.new }
    ensures gave { IfOk result (λ alike. D.honest reader.old.device ≡ true
        → HasUnlisted (D.content reader.old.device) reader.old.offset reader.old.listed from (length block.now / 512)
        (if alike then block.now else reader.new.bytes.items)) }
    ensures unfailing { OnOk result (D.failures reader.new.device ≡ D.failures reader.old.device) }
    ensures missed { IfErr result (λ c. IsToRead chunks reader.old.listed from (length block.now / 512) c) }
    ensures failed { OnErr result (CountsFailure D.Device reader.old.device reader.new.device) }
    ensures there { IfErr result (λ c. FailsUnlisted D.Device reader.old.device reader.new.device reader.old.offset chunks (IsBad reader.old.listed) c) }
    ensures told { OnOk result (IsToldOfSectors G.Gate gate.now role chunks reader.old.listed from (length block.now / 512)) }
{
    let sectors = block.len() as u64 / 512;
    read_into(gate, chunks, Part { from, sectors }, role, reader)?;
    Ok(begins_so(reader.bytes.as_slice(), block))
}

// Whether the first bytes are these.
fn begins_so(bytes: &[u8], block: &[u8]) -> bool
    requires { length block.now ≤ length bytes.now }
    ensures { result ≡ true → take (length block.now) bytes.now ≡ block.now }
{
    &bytes[..block.len()] == block
}

// Reads sectors into the front of the reader's buffer.
fn read_into<D: Device, G: Gate>(
    gate: &G,
    chunks: Chunks,
    part: Part,
    role: u8,
    reader: &mut Reader<D>,
) -> Result<(), u32>
    requires inside { part.from + part.sectors ≤ chunks.size }
    requires fits { 512 * part.sectors ≤ length reader.old.bytes.items }
    requires read_here { HasRoom (D.content reader.old.device) reader.old.offset chunks }
    ensures used { IsUsed D.Device reader.old reader.new }
    ensures gave { OnOk result (D.honest reader.old.device ≡ true
        → HasUnlisted (D.content reader.old.device) reader.old.offset reader.old.listed part.from part.sectors reader.new.bytes.items) }
    ensures unfailing { OnOk result (D.failures reader.new.device ≡ D.failures reader.old.device) }
    ensures missed { IfErr result (λ c. IsToRead chunks reader.old.listed part.from part.sectors c) }
    ensures failed { OnErr result (CountsFailure D.Device reader.old.device reader.new.device) }
    ensures there { IfErr result (λ c. FailsUnlisted D.Device reader.old.device reader.new.device reader.old.offset chunks (IsBad reader.old.listed) c) }
    ensures told { OnOk result (IsToldOfSectors G.Gate gate.now role chunks reader.old.listed part.from part.sectors) }
{
    let member = MemberData {
        role,
        offset: reader.offset,
        listed: &reader.listed,
    };
    let buf = reader.bytes.as_mut_slice();
    read_part(gate, &mut reader.device, &member, chunks, part, buf)
}

// Reads those of the sectors that are not listed into the front of a buffer. The error is the chunk of a read that failed.
fn read_part<D: Device, G: Gate>(
    gate: &G,
    device: &mut D,
    member: &MemberData<'_>,
    chunks: Chunks,
    part: Part,
    buf: &mut [u8],
) -> Result<(), u32>
    requires inside { part.from + part.sectors ≤ chunks.size }
    requires fits { 512 * part.sectors ≤ length buf.old }
    requires room { HasRoom (D.content device.old) member.now.offset chunks }
    ensures only_read { OnlyRead D.Device device.old device.new }
    ensures gave { OnOk result (D.honest device.old ≡ true
        → HasUnlisted (D.content device.old) member.now.offset member.now.listed.now part.from part.sectors buf.new) }
    ensures unfailing { OnOk result (D.failures device.new ≡ D.failures device.old) }
    ensures missed { IfErr result (λ c. IsToRead chunks member.now.listed.now part.from part.sectors c) }
    ensures failed { OnErr result (CountsFailure D.Device device.old device.new) }
    ensures there { IfErr result (λ c. FailsUnlisted D.Device device.old device.new member.now.offset chunks (IsBad member.now.listed.now) c) }
    ensures told { OnOk result (IsToldOfSectors G.Gate gate.now member.now.role chunks member.now.listed.now part.from part.sectors) }
{
    let mut done = 0;
    while done < part.sectors {
        let sector = part.from + done;
        let left = &mut buf[512 * done as usize..512 * part.sectors as usize];
        let passed = read_front(gate, device, member, chunks, sector, left)?;
        done += passed;
    }
    Ok(())
}

// Reads a run of sectors from the first on, of one chunk and none of them listed; or passes over the first,
// if it is listed. The answer is how many sectors that is; the error, after a read that failed, their chunk.
fn read_front<D: Device, G: Gate>(
    gate: &G,
    device: &mut D,
    member: &MemberData<'_>,
    chunks: Chunks,
    sector: u64,
    buf: &mut [u8],
) -> Result<u64, u32>
    requires some { 512 ≤ length buf.old }
    requires inside { sector + length buf.old / 512 ≤ chunks.size }
    requires room { HasRoom (D.content device.old) member.now.offset chunks }
    ensures only_read { OnlyRead D.Device device.old device.new }
    ensures passed { IfOk result (λ n. (0 < n) × (n ≤ length buf.old / 512)) }
    ensures gave { IfOk result (λ n. D.honest device.old ≡ true
        → HasUnlisted (D.content device.old) member.now.offset member.now.listed.now sector n buf.new) }
    ensures unfailing { OnOk result (D.failures device.new ≡ D.failures device.old) }
    ensures missed { IfErr result (λ c. IsToRead chunks member.now.listed.now sector 1 c) }
    ensures failed { OnErr result (CountsFailure D.Device device.old device.new) }
    ensures there { IfErr result (λ c. FailsUnlisted D.Device device.old device.new member.now.offset chunks (IsBad member.now.listed.now) c) }
    ensures told { IfOk result (λ n. IsToldOfSectors G.Gate gate.now member.now.role chunks member.now.listed.now sector n) }
{
    let chunk = chunks.chunk_of(sector);
    let (start, sectors) = chunks.range(chunk);
    let most = (start + sectors - sector).min(buf.len() as u64 / 512);
    let run = clear_run(member.listed, sector, most);
    if run == 0 {
        return Ok(1);
    }
    gate.before_read(member.role, chunk);
    let answer = read_run(
        device,
        member.offset,
        sector,
        &mut buf[..512 * run as usize],
    );
    gate.after_read(member.role, chunk);
    match answer {
        Ok(()) => Ok(run),
        Err(_) => Err(chunk),
    }
}

// How many sectors from this one on are read at once: all of these, half of them, or fewer, none of which is
// listed. It is 0 where the first is listed.
fn clear_run(listed: &BadSet, sector: u64, most: u64) -> u64
    requires some { 0 < most }
    ensures most { result ≤ most }
    ensures clear { (i : ℕ) → i < result → IsBad listed.now (sector + i) → ⊥ }
    ensures none { result ≡ 0 → IsBad listed.now sector }
{
    let mut run = most;
    while listed.meets(sector, run) {
        run /= 2;
    }
    run
}

// Reads sectors of the array from a device on which they start at `offset`.
fn read_run<D: Device>(
    device: &mut D,
    offset: u64,
    sector: u64,
    buf: &mut [u8],
) -> Result<(), ReadFault>
    requires whole { length buf.old % 512 ≡ 0 }
    requires within { 512 * (offset + sector) + length buf.old ≤ length (D.content device.old) }
    ensures only_read { OnlyRead D.Device device.old device.new }
    ensures gave { OnOk result (D.honest device.old ≡ true
        → buf.new ≡ held (D.content device.old) (offset + sector) (length buf.old)) }
    ensures unfailing { OnOk result (D.failures device.new ≡ D.failures device.old) }
    ensures failed { OnErr result (CountsFailure D.Device device.old device.new) }
    ensures there { AddsItself result (failed_read (offset + sector) (length buf.old)) (D.faults device.old) (D.faults device.new) }
{
    // For the proof: a device has at most 2^54 sectors, so the sum fits.
    let _limit = device.sectors();
    device.read(offset + sector, buf)
}

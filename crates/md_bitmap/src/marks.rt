// Which chunks are marked.
ghost use Rattle.std.specs.Prelude.{◌≡◌, ◌+◌, ◌-◌, ◌*◌, ◌<◌, ◌≤◌, ◌==◌, ◌||◌, ◌&&◌, ◌↔◌, ℕ, not, nat_le, nat_lt, IfOk, IfSome, IfNone, false, true, length, drop, replicate};
ghost use Rattle.md_bitmap.specs.Marks.{IsMarked, IsNextMarked, is_set, count_set, padded};
ghost use Rattle.md_bitmap.specs.Header.{header_bytes};
ghost use Rattle.md_bitmap.specs.Sectors.{bitmap_bytes, bitmap_sector, bitmap_sectors};

use crate::header::{BitmapHeader, HEADER_BYTES};
use crate::runs::{has_run, set_run, unite_below};
use crate::words::{copy_behind, count_below, next_below};
use md_format::put_bytes;
use std::alloc::{AllocError, Global};
use std::marker::Model;

/// The bytes of a block of the bitmap.
pub const BLOCK_BYTES: usize = 512;

/// A sector of the bitmap has the bits of so many chunks. In the first, the header takes the room of some.
pub const CHUNKS_OF_SECTOR: u32 = 4096;

/// The bits of so many chunks are left to the first sector.
pub const CHUNKS_OF_HEADER: u32 = 2048;

/// How many sectors hold a bitmap's header and the bits of so many chunks.
pub fn sectors_of_bitmap(chunks: u32) -> u32
    requires { chunks ≤ 1048576 }
    ensures sectors { result ≡ bitmap_sectors chunks }
    ensures few { result ≤ 257 }
{
    (256 + chunks.div_ceil(8)).div_ceil(512)
}

/// The chunks in which the members of an array may differ, kept as the bitmap's bits.
#[derive(Debug, Drop)]
pub struct Marks {
    chunks: u32,
    bits: Vec<u8>,
}

impl Model for Marks {
    ghost use Rattle.std.specs.Prelude.{◌≤◌, ◌*◌, length, drop};
    ghost use Rattle.md_bitmap.specs.Marks.{Bitmap};

    ghost Value = { Bitmap };

    ghost view = { λ m. record { chunks = m.chunks; bytes = m.bits.items } };

    ghost invariant = { λ m. m.chunks ≤ 8 * length m.bits.items };
}

impl Marks {
    /// The marks in a bitmap's bytes, those after its header.
    pub fn from_bytes(alloc: Global, chunks: u32, bytes: &[u8]) -> Result<Marks, AllocError>
        requires { chunks ≤ 8 * length bytes.now }
        ensures chunks { IfOk result (λ m. m.chunks ≡ chunks) }
        ensures bytes { IfOk result (λ m. m.bytes ≡ bytes.now) }
    {
        Ok(Marks {
            chunks,
            bits: Vec::from_slice(alloc, bytes)?,
        })
    }

    /// No chunk is marked.
    pub fn none(alloc: Global, chunks: u32) -> Result<Marks, AllocError>
        ensures chunks { IfOk result (λ m. m.chunks ≡ chunks) }
        ensures bits { IfOk result (λ m. (i : ℕ) → is_set m.bytes i ≡ false) }
    {
        Ok(Marks {
            chunks,
            bits: vec![in alloc; 0; chunks.div_ceil(8) as usize]?,
        })
    }

    /// All chunks are marked, and no bit past the last is set.
    pub fn all(alloc: Global, chunks: u32) -> Result<Marks, AllocError>
        ensures chunks { IfOk result (λ m. m.chunks ≡ chunks) }
        ensures bits { IfOk result (λ m. (i : ℕ) → is_set m.bytes i ≡ nat_lt i chunks) }
    {
        let mut bits = vec![in alloc; 0xff; chunks.div_ceil(8) as usize]?;
        let rest = chunks % 8;
        if rest > 0 {
            bits[(chunks / 8) as usize] = (1 << rest) - 1;
        }
        Ok(Marks { chunks, bits })
    }

    /// How many chunks there are, marked or not.
    pub fn chunks(&self) -> u32
        ensures { result ≡ self.now.chunks }
    {
        self.chunks
    }

    /// Marks a chunk.
    pub fn mark(&mut self, chunk: u32)
        requires { chunk < self.old.chunks }
        ensures chunks { self.new.chunks ≡ self.old.chunks }
        ensures bits { (i : ℕ) → is_set self.new.bytes i ≡ (i == chunk || is_set self.old.bytes i) }
    {
        self.bits[(chunk / 8) as usize] |= 1 << (chunk % 8);
    }

    /// Takes a chunk's mark away.
    pub fn unmark(&mut self, chunk: u32)
        requires { chunk < self.old.chunks }
        ensures chunks { self.new.chunks ≡ self.old.chunks }
        ensures bits { (i : ℕ) → is_set self.new.bytes i ≡ (not (i == chunk) && is_set self.old.bytes i) }
    {
        self.bits[(chunk / 8) as usize] &= !(1 << (chunk % 8));
    }

    /// Marks the chunks from `from` on and below `end`.
    pub fn mark_range(&mut self, from: u32, end: u32)
        requires { end ≤ self.old.chunks }
        ensures chunks { self.new.chunks ≡ self.old.chunks }
        ensures bits { (i : ℕ) → is_set self.new.bytes i ≡ (is_set self.old.bytes i || (nat_le from i && nat_lt i end)) }
    {
        set_run(&mut self.bits, from, end);
    }

    /// Marks the chunks that are marked in another bitmap of as many chunks.
    pub fn unite(&mut self, others: &Marks)
        requires { others.now.chunks ≡ self.old.chunks }
        ensures chunks { self.new.chunks ≡ self.old.chunks }
        ensures bits { (i : ℕ) → is_set self.new.bytes i ≡ (is_set self.old.bytes i || (nat_lt i others.now.chunks && is_set others.now.bytes i)) }
    {
        unite_below(&mut self.bits, &others.bits, self.chunks);
    }

    /// Whether a chunk is marked.
    pub fn is_marked(&self, chunk: u32) -> bool
        requires { chunk < self.now.chunks }
        ensures { result ≡ is_set self.now.bytes chunk }
    {
        (self.bits[(chunk / 8) as usize] >> (chunk % 8)) & 1 == 1
    }

    /// Whether all chunks from `from` on and below `end` are marked.
    pub fn is_range_marked(&self, from: u32, end: u32) -> bool
        requires { end ≤ self.now.chunks }
        ensures { (result ≡ true) ↔ ((i : ℕ) → from ≤ i → i < end → is_set self.now.bytes i ≡ true) }
    {
        has_run(&self.bits, from, end)
    }

    /// Whether each chunk is marked here that is marked in another bitmap, which has no fewer chunks.
    pub fn has_all_of(&self, others: &Marks) -> bool
        requires { self.now.chunks ≤ others.now.chunks }
        ensures { (result ≡ true) ↔ ((i : ℕ) → i < self.now.chunks → is_set others.now.bytes i ≡ true → is_set self.now.bytes i ≡ true) }
    {
        for chunk in 0..self.chunks {
            if others.is_marked(chunk) && !self.is_marked(chunk) {
                return false;
            }
        }
        true
    }

    /// How many chunks are marked.
    pub fn count(&self) -> u32
        ensures { result ≡ count_set self.now.bytes self.now.chunks }
    {
        count_below(&self.bits, self.chunks)
    }

    /// The first marked chunk at `from` or past it.
    pub fn next_marked(&self, from: u32) -> Option<u32>
        ensures some { IfSome result (IsNextMarked self.now from) }
        ensures none { IfNone result ((c : ℕ) → from ≤ c → IsMarked self.now c → ⊥) }
    {
        next_below(&self.bits, from, self.chunks)
    }

    /// Sector `i` of the bitmap. Its bit `j` stands for chunk `4096 * i + j - 2048`.
    pub fn block(&self, header: &BitmapHeader, i: u32) -> [u8; 512]
        ensures sector { result ≡ bitmap_sector header.now self.now i }
        ensures bits { (j : ℕ) → j < 4096 → 2048 ≤ 4096 * i + j → is_set result j ≡ is_set self.now.bytes (4096 * i + j - 2048) }
    {
        let mut block = [0; BLOCK_BYTES];
        self.put_blocks(header, i, &mut block);
        block
    }

    /// Writes the bitmap from its sector `first` on over zeros, as much of it as they take: the header's
    /// bytes, and after them the bits.
    pub fn put_blocks(&self, header: &BitmapHeader, first: u32, out: &mut [u8])
        requires room { 256 ≤ length out.old }
        requires zeros { out.old ≡ replicate (length out.old) 0 }
        ensures bytes { out.new ≡ padded (length out.old) (drop (512 * first) (bitmap_bytes header.now self.now)) }
        ensures header { length (header_bytes header.now) ≡ 256 }
    {
        let mut front = [0; HEADER_BYTES];
        header.encode(&mut front);
        if first == 0 {
            put_bytes(out, 0, &front);
            copy_behind(out, HEADER_BYTES, &self.bits, 0);
        } else {
            let at = BLOCK_BYTES * first as usize - HEADER_BYTES;
            copy_behind(out, 0, &self.bits, at);
        }
    }
}

// Write-intent bitmaps: the chunks, and which bit marks which.
use crate::checks::same;
use md_bitmap::{BitmapFault, BitmapHeader, Chunks, Marks};
use std::alloc::Global;
use std::process::Abort;
use std::test::Fail;

// Of an array of 64 sectors in chunks of 4096 bytes.
fn header() -> Result<BitmapHeader, BitmapFault> {
    let mut bytes = [0; 256];
    bytes[..4].copy_from_slice(b"bitm");
    bytes[4] = 4;
    bytes[40] = 64;
    bytes[53] = 0x10;
    BitmapHeader::decode(&bytes)
}

#[test]
fn chunk_geometry(rt: HostRuntime) {
    let chunks = Chunks {
        sectors: 8,
        size: 20,
    };
    same(&rt, &"count", chunks.count(), 3);
    same(&rt, &"range", chunks.range(2), (16, 4));
}

// With this chunk marked, the byte of block 0 with its bit.
fn expect_mark(
    rt: &impl Abort,
    header: &BitmapHeader,
    marks: &mut Marks,
    chunk: u32,
    at: usize,
    byte: u8,
) {
    same(rt, &"none is marked", marks.next_marked(0), None);
    if chunk < marks.chunks() && at < 512 {
        marks.mark(chunk);
        same(rt, &"the next", marks.next_marked(0), Some(chunk));
        same(rt, &"the byte", marks.block(header, 0)[at], byte);
    }
}

fn marks_one(
    rt: &impl Abort,
    alloc: Global,
    header: &BitmapHeader,
    chunks: u32,
    chunk: u32,
    at: usize,
    byte: u8,
) -> Result<(), Fail> {
    let mut marks = Marks::none(alloc, chunks)?;
    same(rt, &"the chunks", marks.chunks(), chunks);
    expect_mark(rt, header, &mut marks, chunk, at, byte);
    drop(marks);
    Ok(())
}

fn expect_unmarked(rt: &impl Abort, header: &BitmapHeader, marks: &mut Marks) {
    same(rt, &"the count", marks.count(), 3);
    same(rt, &"none past the last", marks.next_marked(3), None);
    if marks.chunks() == 3 {
        marks.unmark(0);
    }
    same(rt, &"the count after it", marks.count(), 2);
    same(rt, &"the byte", marks.block(header, 0)[256], 0xfe);
}

#[test]
fn marks_bytes(rt: HostRuntime) -> Result<(), Fail> {
    let header = header()?;
    marks_one(&rt, rt.alloc(), &header, 8, 1, 256, 2)?;
    marks_one(&rt, rt.alloc(), &header, 5000, 9, 257, 2)?;
    let all = Marks::all(rt.alloc(), 8)?;
    same(&rt, &"all", all.count(), 8);
    drop(all);
    let mut marks = Marks::from_bytes(rt.alloc(), 3, &[0xff])?;
    expect_unmarked(&rt, &header, &mut marks);
    drop(marks);
    Ok(())
}

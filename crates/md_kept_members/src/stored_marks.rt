// The marks that are kept of a member once a sector of its bitmap is stored.
ghost use Rattle.std.specs.Prelude.{◌≡◌, ◌<◌, ◌≤◌, ◌==◌, ℕ, cond};
ghost use Rattle.md_bitmap.specs.Marks.{is_set};
ghost use Rattle.md_kept_members.specs.StoredMarks.{HasStored};

use md_bitmap::{CHUNKS_OF_HEADER, CHUNKS_OF_SECTOR, Marks};

/// Copies the marks of a sector's chunks.
pub fn copy_block(marks: &Marks, stored: &mut Marks, block: u32)
    requires few { block ≤ 257 }
    requires alike { stored.old.chunks ≡ marks.now.chunks }
    ensures { HasStored marks.now stored.old block stored.new }
{
    let first = (CHUNKS_OF_SECTOR * block).saturating_sub(CHUNKS_OF_HEADER);
    let end = CHUNKS_OF_SECTOR * block + (CHUNKS_OF_SECTOR - CHUNKS_OF_HEADER);
    for chunk in first..end.min(marks.chunks()) {
        copy_mark(marks, stored, chunk);
    }
}

fn copy_mark(marks: &Marks, stored: &mut Marks, chunk: u32)
    requires marked { chunk < marks.now.chunks }
    requires stored { chunk < stored.old.chunks }
    ensures chunks { stored.new.chunks ≡ stored.old.chunks }
    ensures bits { (c : ℕ) → is_set stored.new.bytes c ≡ cond (c == chunk) (is_set marks.now.bytes chunk) (is_set stored.old.bytes c) }
{
    if marks.is_marked(chunk) {
        stored.mark(chunk);
    } else {
        stored.unmark(chunk);
    }
}

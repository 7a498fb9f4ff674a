// How many chunks a worker reads in a turn.
ghost use Rattle.std.specs.Prelude.{◌≡◌};
ghost use Rattle.md_collect.specs.Workers.Batches.{batch_of};

use md_bitmap::Chunks;

// The sectors of 1 MiB.
const BATCH_SECTORS: u32 = 2048;

// The sectors of 256 KiB.
const LONE_BATCH_SECTORS: u32 = 512;

/// How many chunks each of so many workers reads in a turn at most: those of 1 MiB, or one where a chunk is
/// longer. A lone worker reads those of 256 KiB.
///
/// A thread is started for each of several queues and turn, which takes longer than to read a short chunk. The
/// queue has memory for that many, so more would cost more of it, and gain little. What a lone worker has just
/// read is still in the processor's cache when it is written.
pub fn batch_of(chunks: Chunks, workers: usize) -> usize
    ensures { result ≡ batch_of chunks workers }
{
    let sectors = if workers > 1 {
        BATCH_SECTORS
    } else {
        LONE_BATCH_SECTORS
    };
    (sectors / chunks.sectors).max(1) as usize
}

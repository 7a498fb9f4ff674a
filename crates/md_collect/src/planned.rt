// What a plan reads: the chunks of its slots rise, so a chunk is found at its own number or by halving.
ghost use Rattle.std.specs.Prelude.{◌≡◌, ◌<◌, length, slice_index_or, true};
ghost use Rattle.md_collect.specs.Places.{IsChunk};
ghost use Rattle.md_collect.specs.Reports.{is_planned};
ghost use Rattle.md_collect.specs.Collecting.{ArePlanned, IsPlace};

use md_bitmap::Chunks;
use md_cert::Slot;

/// Whether the plan reads the chunk from the source.
pub(crate) fn is_planned(slots: &[Slot], chunks: Chunks, chunk: u32, source: u8) -> bool
    requires { ArePlanned chunks slots.now }
    ensures value { result ≡ is_planned slots.now chunk source }
    ensures chunk { result ≡ true → IsChunk chunks chunk }
{
    let at = place_of(slots, chunks, chunk);
    match slots.get(at) {
        Some(slot) => slot.chunk == chunk && slot.source == source,
        None => false,
    }
}

// The place of the first slot that has this chunk or a later one. Where the plan has every chunk, each stands
// at its own number, and nothing is searched.
fn place_of(slots: &[Slot], chunks: Chunks, chunk: u32) -> usize
    requires { ArePlanned chunks slots.now }
    ensures { IsPlace slots.now chunk result }
{
    if stands_at(slots, chunk as usize, chunk) {
        return chunk as usize;
    }
    slots.partition_point(|slot| slot.chunk < chunk)
}

// Whether the slot at this place has this chunk.
fn stands_at(slots: &[Slot], at: usize, chunk: u32) -> bool
    ensures within { result ≡ true → at < length slots.now }
    ensures chunk { result ≡ true → (d : _) → (slice_index_or slots.now at d).chunk ≡ chunk }
{
    match slots.get(at) {
        Some(slot) => slot.chunk == chunk,
        None => false,
    }
}

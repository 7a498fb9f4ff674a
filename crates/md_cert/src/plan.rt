// Plans, and what shows that a plan has as few rounds as any.
use crate::chunk_list::ChunkList;
use crate::slots::Slots;

/// Which chunk is read from which source, round by round. The rounds are counted from 0.
#[derive(Debug, Drop)]
pub struct Plan {
    pub slots: Slots,
    pub rounds: u32,
}

/// Chunks that have too few sources to be read in so many rounds: more chunks than rounds times sources.
#[derive(Debug, Drop)]
pub struct Certificate {
    pub rounds: u32,
    pub chunks: ChunkList,
}

// What a planner makes.
use crate::chunk_list::ChunkList;
use crate::plan::{Certificate, Plan};

/// A plan in the fewest rounds, what shows that fewer are too few, and the chunks that no source has.
#[derive(Debug, Drop)]
pub struct Planned {
    /// Each chunk that some source has, in rising order, with its source and its round.
    pub plan: Plan,
    /// For one round fewer than the plan's: chunks with too few sources. It is empty where the plan has no rounds.
    pub certificate: Certificate,
    /// The chunks with an empty mask, in rising order. The plan leaves them out.
    pub orphans: ChunkList,
}
